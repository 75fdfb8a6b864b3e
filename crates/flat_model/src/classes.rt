ghost use Rattle.std.specs.Prelude.{◌≡◌};
ghost use Rattle.flat_model.specs.Classes as spec;

use crate::instructions::Instr;
use addr_base::Kind;

/// An instruction that reads and changes its thread alone.
#[derive(Clone, Copy)]
pub enum LocalInstr {
    Set(u8, u32),
    Mov(u8, u8),
    Add(u8, u8, u8),
    Sub(u8, u8, u8),
    And(u8, u8, u8),
    Orr(u8, u8, u8),
    Eor(u8, u8, u8),
    Jump(u32),
    Jz(u8, u32),
    Jnz(u8, u32),
    BoxId(u8),
    Halt,
}

/// A load, a store or a fetch: `size` bytes at register `base` plus `offset`, into or out of `register`.
#[derive(Clone, Copy)]
pub struct MemoryInstr {
    pub kind: Kind,
    pub size: u8,
    pub register: u8,
    pub base: u8,
    pub offset: u32,
}

/// An instruction that asks the kernel, which keeps what the threads share.
#[derive(Clone, Copy)]
pub enum KernelCall {
    PagesAlloc(u8, u8),
    PageFree(u8),
    IrqOn(u32),
    IrqOff(u32),
    IrqReturn,
    GwRead(u8, u32),
    GwWrite(u8, u32),
    RpcCall(u8, u32),
    RpcSync(u32, u32),
    RpcTake,
    RpcReturn(u8),
    RpcResult(u8, u8),
}

/// What kind of instruction one is.
#[derive(Clone, Copy)]
pub enum InstrClass {
    Local(LocalInstr),
    Memory(MemoryInstr),
    Kernel(KernelCall),
}

// A load of so many bytes.
fn load(size: u8, register: u8, base: u8, offset: u32) -> InstrClass
    ensures { result ≡ spec.load size register base offset }
{
    InstrClass::Memory(MemoryInstr {
        kind: Kind::Read,
        size,
        register,
        base,
        offset,
    })
}

// A store of so many bytes.
fn store(size: u8, register: u8, base: u8, offset: u32) -> InstrClass
    ensures { result ≡ spec.store size register base offset }
{
    InstrClass::Memory(MemoryInstr {
        kind: Kind::Write,
        size,
        register,
        base,
        offset,
    })
}

// A fetch of two bytes, into no register.
fn fetch(base: u8, offset: u32) -> InstrClass
    ensures { result ≡ spec.fetch base offset }
{
    InstrClass::Memory(MemoryInstr {
        kind: Kind::Fetch,
        size: 2,
        register: 0,
        base,
        offset,
    })
}

impl Instr {
    /// Its class: a change of its thread alone, an access to memory, or a kernel call.
    pub fn class(self) -> InstrClass
        ensures exact { result ≡ spec.class_of self }
        ensures sized { spec.IsSizedClass result }
    {
        match self {
            Instr::Set(d, w) => InstrClass::Local(LocalInstr::Set(d, w)),
            Instr::Mov(d, s) => InstrClass::Local(LocalInstr::Mov(d, s)),
            Instr::Add(d, a, b) => InstrClass::Local(LocalInstr::Add(d, a, b)),
            Instr::Sub(d, a, b) => InstrClass::Local(LocalInstr::Sub(d, a, b)),
            Instr::And(d, a, b) => InstrClass::Local(LocalInstr::And(d, a, b)),
            Instr::Orr(d, a, b) => InstrClass::Local(LocalInstr::Orr(d, a, b)),
            Instr::Eor(d, a, b) => InstrClass::Local(LocalInstr::Eor(d, a, b)),
            Instr::Load8(d, a, w) => load(1, d, a, w),
            Instr::Load16(d, a, w) => load(2, d, a, w),
            Instr::Load32(d, a, w) => load(4, d, a, w),
            Instr::Store8(s, a, w) => store(1, s, a, w),
            Instr::Store16(s, a, w) => store(2, s, a, w),
            Instr::Store32(s, a, w) => store(4, s, a, w),
            Instr::Exec(a, w) => fetch(a, w),
            Instr::Jump(n) => InstrClass::Local(LocalInstr::Jump(n)),
            Instr::Jz(a, n) => InstrClass::Local(LocalInstr::Jz(a, n)),
            Instr::Jnz(a, n) => InstrClass::Local(LocalInstr::Jnz(a, n)),
            Instr::BoxId(d) => InstrClass::Local(LocalInstr::BoxId(d)),
            Instr::PagesAlloc(n, t) => InstrClass::Kernel(KernelCall::PagesAlloc(n, t)),
            Instr::PageFree(a) => InstrClass::Kernel(KernelCall::PageFree(a)),
            Instr::IrqOn(n) => InstrClass::Kernel(KernelCall::IrqOn(n)),
            Instr::IrqOff(n) => InstrClass::Kernel(KernelCall::IrqOff(n)),
            Instr::IrqReturn => InstrClass::Kernel(KernelCall::IrqReturn),
            Instr::GwRead(d, n) => InstrClass::Kernel(KernelCall::GwRead(d, n)),
            Instr::GwWrite(s, n) => InstrClass::Kernel(KernelCall::GwWrite(s, n)),
            Instr::RpcCall(d, n) => InstrClass::Kernel(KernelCall::RpcCall(d, n)),
            Instr::RpcSync(n, looks) => InstrClass::Kernel(KernelCall::RpcSync(n, looks)),
            Instr::RpcTake => InstrClass::Kernel(KernelCall::RpcTake),
            Instr::RpcReturn(s) => InstrClass::Kernel(KernelCall::RpcReturn(s)),
            Instr::RpcResult(d, s) => InstrClass::Kernel(KernelCall::RpcResult(d, s)),
            Instr::Halt => InstrClass::Local(LocalInstr::Halt),
        }
    }
}

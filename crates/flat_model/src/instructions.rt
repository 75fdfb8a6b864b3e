/// An instruction with its operands in the order of its text (docs/PROGRAMS.md): a register is a
/// `u8`, a word or a small number is a `u32`.
#[derive(Clone, Copy, PartialEq, Eq, Debug)]
pub enum Instr {
    Set(u8, u32),
    Mov(u8, u8),
    Add(u8, u8, u8),
    Sub(u8, u8, u8),
    And(u8, u8, u8),
    Orr(u8, u8, u8),
    Eor(u8, u8, u8),
    Load8(u8, u8, u32),
    Load16(u8, u8, u32),
    Load32(u8, u8, u32),
    Store8(u8, u8, u32),
    Store16(u8, u8, u32),
    Store32(u8, u8, u32),
    Exec(u8, u32),
    Jump(u32),
    Jz(u8, u32),
    Jnz(u8, u32),
    BoxId(u8),
    PagesAlloc(u8, u8),
    PageFree(u8),
    IrqOn(u32),
    IrqOff(u32),
    IrqReturn,
    GwRead(u8, u32),
    GwWrite(u8, u32),
    RpcCall(u8, u32),
    RpcSync(u32, u32),
    RpcTake,
    RpcReturn(u8),
    RpcResult(u8, u8),
    Halt,
}

/// Why a line of program text is refused.
#[derive(Clone, Copy, PartialEq, Eq, Debug)]
pub enum Why {
    Word,
    Count,
    Register,
    Number,
    TooMany,
}

/// The first bad line of a program text, counted from 1, and why it is refused.
#[derive(Clone, Copy, PartialEq, Eq, Debug)]
pub struct BadLine {
    pub line: u32,
    pub why: Why,
}

/// Why a program text gave no program.
#[derive(Clone, Copy, PartialEq, Eq, Debug)]
pub enum AssembleErr {
    Bad(BadLine),
    Memory,
}

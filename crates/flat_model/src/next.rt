ghost use Rattle.std.specs.Prelude.{◌≡◌, ◌<◌, ◌≤◌, slice_get};
ghost use Rattle.flat_model.specs.Classes.{IsSizedClass};
ghost use Rattle.flat_model.specs.Next as spec;

use crate::access_rule::is_aligned;
use crate::accesses::Access;
use crate::classes::{InstrClass, KernelCall, LocalInstr, MemoryInstr};
use crate::parts::{IrqPart, ThreadPart};
use crate::states::ThreadState;

/// What a turn of a thread comes to that has not ended: a look for the result that it waits for, the delivery of an
/// interrupt, an instruction of its own, an access to memory, an access to an address that is not aligned, a kernel
/// call, or a place without an instruction.
#[derive(Clone, Copy)]
pub enum Next {
    Look,
    Deliver(IrqPart),
    Local(LocalInstr),
    Access(Access),
    Unaligned(u32),
    Kernel(KernelCall),
    Nowhere,
}

impl MemoryInstr {
    /// The access that it asks for: its address is a register plus a word.
    pub fn access(self, thread: &ThreadState) -> Access
        ensures { result ≡ spec.access_by thread.now self }
    {
        Access {
            kind: self.kind,
            size: self.size,
            at: thread.register(self.base).wrapping_add(self.offset),
            register: self.register,
        }
    }
}

impl Next {
    // An access, or an address that is not aligned.
    fn of_access(access: Access) -> Next
        requires some { 0 < access.size }
        requires few { access.size ≤ 4 }
        ensures exact { result ≡ spec.next_access access }
        ensures sized { spec.IsSized result }
    {
        if is_aligned(access.at as u64, access.size) {
            Next::Access(access)
        } else {
            Next::Unaligned(access.at)
        }
    }

    // What an instruction of a thread comes to.
    fn of_class(thread: &ThreadState, class: InstrClass) -> Next
        requires { IsSizedClass class }
        ensures exact { result ≡ spec.next_by_class thread.now class }
        ensures sized { spec.IsSized result }
    {
        match class {
            InstrClass::Local(instr) => Next::Local(instr),
            InstrClass::Memory(instr) => Next::of_access(instr.access(thread)),
            InstrClass::Kernel(call) => Next::Kernel(call),
        }
    }

    // What the instruction at a ready thread's place comes to.
    fn at_place(program: &ThreadPart, thread: &ThreadState) -> Next
        ensures exact { result ≡ spec.next_at thread.now
            (slice_get program.now.program thread.now.pc) }
        ensures sized { spec.IsSized result }
    {
        match program.instruction(thread.pc) {
            Some(instr) => Next::of_class(thread, instr.class()),
            None => Next::Nowhere,
        }
    }

    /// What a turn of a thread comes to that has not ended, with the interrupt that is due to it if it is ready.
    pub fn of(program: &ThreadPart, thread: &ThreadState, due: Option<IrqPart>) -> Next
        ensures exact { result ≡ spec.next_of program.now thread.now due }
        ensures sized { spec.IsSized result }
    {
        if thread.mode.is_waiting() {
            return Next::Look;
        }
        match due {
            Some(irq) => Next::Deliver(irq),
            None => Next::at_place(program, thread),
        }
    }

    /// The aligned access that it decides, if it decides one.
    pub fn touch(self) -> Option<Access>
        ensures { result ≡ spec.touch_in self }
    {
        match self {
            Next::Access(access) => Some(access),
            Next::Look
            | Next::Deliver(_)
            | Next::Local(_)
            | Next::Unaligned(_)
            | Next::Kernel(_)
            | Next::Nowhere => None,
        }
    }

    /// Whether it is a kernel call that allocates or frees pages.
    pub fn is_page_turn(self) -> bool
        ensures { result ≡ spec.is_page_turn self }
    {
        match self {
            Next::Kernel(call) => call.is_page_call(),
            Next::Look
            | Next::Deliver(_)
            | Next::Local(_)
            | Next::Access(_)
            | Next::Unaligned(_)
            | Next::Nowhere => false,
        }
    }
}

impl KernelCall {
    // Whether it allocates or frees pages.
    fn is_page_call(self) -> bool
        ensures { result ≡ spec.is_page_call self }
    {
        match self {
            KernelCall::PagesAlloc(_, _) | KernelCall::PageFree(_) => true,
            KernelCall::IrqOn(_)
            | KernelCall::IrqOff(_)
            | KernelCall::IrqReturn
            | KernelCall::GwRead(_, _)
            | KernelCall::GwWrite(_, _)
            | KernelCall::RpcCall(_, _)
            | KernelCall::RpcSync(_, _)
            | KernelCall::RpcTake
            | KernelCall::RpcReturn(_)
            | KernelCall::RpcResult(_, _) => false,
        }
    }
}

ghost use Rattle.std.specs.Prelude.{◌≡◌, ◌≤◌, None, Some, true};
ghost use Rattle.flat_model.specs.AccessRows as access_words;
ghost use Rattle.flat_model.specs.Acting.{CanAct, CanPost, IsDue, IsPartOf, is_free_server};
ghost use Rattle.flat_model.specs.CallRows as call_words;
ghost use Rattle.flat_model.specs.Interrupts.{due_interrupt};
ghost use Rattle.flat_model.specs.Kernel.{outcome_of};
ghost use Rattle.flat_model.specs.Next.{IsSized};
ghost use Rattle.flat_model.specs.Thread.{counted};
ghost use Rattle.flat_model.specs.Turn as spec;

use crate::accesses::Access;
use crate::actors::{Actor, Who};
use crate::classes::KernelCall;
use crate::events::{Collected, Flaw, Reply};
use crate::kernel::Kernel;
use crate::local::local_row;
use crate::next::Next;
use crate::parts::IrqPart;
use crate::states::{Awaited, ThreadState};
use addr_base::{Kind, Ticket};

// The bytes at the address go into the register.
fn load_row<K: Kernel>(kernel: &K, thread: &mut ThreadState, access: Access) -> Reply
    requires { access.size ≤ 4 }
    ensures { access_words.load_row (K.state kernel.now).config.board
        (K.state kernel.now).shared thread.old access
        ≡ outcome_of (K.state kernel.now) thread.new result }
{
    let value = kernel.load(access.at, access.size);
    thread.set_register(access.register, value);
    thread.move_on();
    Reply::Value(value)
}

// The low bytes of the register go to the address.
fn store_row<K: Kernel>(kernel: &mut K, thread: &mut ThreadState, access: Access) -> Reply
    requires { access.size ≤ 4 }
    ensures exact { access_words.store_row (K.state kernel.old).config.board
        (K.state kernel.old).shared thread.old access
        ≡ outcome_of (K.state kernel.new) thread.new result }
    ensures config { (K.state kernel.new).config ≡ (K.state kernel.old).config }
{
    let value = thread.register(access.register);
    kernel.store(access.at, access.size, value);
    thread.move_on();
    Reply::Done
}

// Carries out an access that was granted.
fn performed_row<K: Kernel>(kernel: &mut K, thread: &mut ThreadState, access: Access) -> Reply
    requires { access.size ≤ 4 }
    ensures exact { access_words.performed_row (K.state kernel.old).config.board
        (K.state kernel.old).shared thread.old access access.kind
        ≡ outcome_of (K.state kernel.new) thread.new result }
    ensures config { (K.state kernel.new).config ≡ (K.state kernel.old).config }
{
    match access.kind {
        Kind::Read => load_row(kernel, thread, access),
        Kind::Write => store_row(kernel, thread, access),
        Kind::Fetch => {
            thread.move_on();
            Reply::Done
        }
    }
}

// How a denial of this kind is called.
fn violation_of(kind: Kind) -> Flaw
    ensures { result ≡ access_words.violation_of kind }
{
    match kind {
        Kind::Read | Kind::Write => Flaw::Daccviol,
        Kind::Fetch => Flaw::Iaccviol,
    }
}

// An aligned access, which was granted or denied.
fn access_row<K: Kernel>(
    kernel: &mut K,
    thread: &mut ThreadState,
    access: Access,
    granted: bool,
) -> Reply
    requires { access.size ≤ 4 }
    ensures exact { access_words.access_row (K.state kernel.old).config.board
        (K.state kernel.old).shared thread.old access granted
        ≡ outcome_of (K.state kernel.new) thread.new result }
    ensures config { (K.state kernel.new).config ≡ (K.state kernel.old).config }
{
    if granted {
        performed_row(kernel, thread, access)
    } else {
        thread.fault(violation_of(access.kind), access.at)
    }
}

// One look less for a call's result: the last one times out.
fn no_result_row(thread: &mut ThreadState, awaited: Awaited) -> Reply
    ensures { call_words.no_result_row thread.old awaited ≡ (thread.new, result) }
{
    let looks = awaited.looks.saturating_sub(1);
    if looks == 0 {
        thread.time_out(awaited.seq);
        Reply::Status(1)
    } else {
        thread.look_on(awaited.seq, looks);
        Reply::Waiting
    }
}

// A look for a call's result, which is there or not yet.
fn look_row<K: Kernel>(
    kernel: &mut K,
    who: Who,
    thread: &mut ThreadState,
    awaited: Awaited,
) -> Reply
    ensures exact { spec.waiting_row who (K.state kernel.old).shared thread.old (Some awaited)
        ≡ outcome_of (K.state kernel.new) thread.new result }
    ensures config { (K.state kernel.new).config ≡ (K.state kernel.old).config }
{
    let ticket = Ticket {
        thread: who.thread,
        seq: awaited.seq,
    };
    match kernel.collect(ticket) {
        Collected::Done(value) => {
            thread.wake(value);
            Reply::Value(value)
        }
        Collected::Waiting | Collected::NoSuch => no_result_row(thread, awaited),
    }
}

// A turn of a thread that waits.
fn waiting_row<K: Kernel>(kernel: &mut K, who: Who, thread: &mut ThreadState) -> Reply
    ensures exact { spec.waiting_row who (K.state kernel.old).shared thread.old thread.old.awaited
        ≡ outcome_of (K.state kernel.new) thread.new result }
    ensures config { (K.state kernel.new).config ≡ (K.state kernel.old).config }
{
    match thread.awaited {
        Some(awaited) => look_row(kernel, who, thread, awaited),
        None => Reply::Waiting,
    }
}

impl Actor<'_> {
    /// The interrupt that is due to the actor's thread, where it is ready.
    pub fn due_interrupt<K: Kernel>(&self, kernel: &K) -> Option<IrqPart>
        requires { IsPartOf (K.state kernel.now).config self.now.who.home.0 self.now.part.now }
        ensures { result ≡ due_interrupt
            (K.state kernel.now).shared.lines self.now.part.now self.now.who.home.0
            self.now.who.thread.0 }
    {
        if self.who.thread.0 as u32 == self.part.first {
            kernel.deliverable(self.part, self.who.home)
        } else {
            None
        }
    }

    // What a kernel call does. Each is listed, so that none is forgotten when one comes.
    fn kernel_row<K: Kernel>(
        self,
        kernel: &mut K,
        thread: &mut ThreadState,
        call: KernelCall,
    ) -> Reply
        requires part { IsPartOf (K.state kernel.old).config
            self.who.home.0 self.part.now }
        requires posts { CanPost (K.state kernel.old) self.who.thread.0 thread.old.count }
        ensures exact { spec.kernel_row (K.state kernel.old).config self.entry.who
            self.entry.part.now (K.state kernel.old).shared thread.old call
            ≡ outcome_of (K.state kernel.new) thread.new result }
        ensures config { (K.state kernel.new).config ≡ (K.state kernel.old).config }
    {
        match call {
            KernelCall::PagesAlloc(n, table) => self.pages_alloc_row(kernel, thread, n, table),
            KernelCall::PageFree(origin) => self.page_free_row(kernel, thread, origin),
            KernelCall::IrqOn(line) => self.irq_enable_row(kernel, thread, line, true),
            KernelCall::IrqOff(line) => self.irq_enable_row(kernel, thread, line, false),
            KernelCall::IrqReturn => self.irq_return_row(kernel, thread),
            KernelCall::GwRead(r, n) => self.gw_read_row(kernel, thread, r, n),
            KernelCall::GwWrite(r, n) => self.gw_write_row(kernel, thread, r, n),
            KernelCall::RpcCall(r, n) => self.rpc_call_row(kernel, thread, r, n),
            KernelCall::RpcSync(n, looks) => self.rpc_sync_row(kernel, thread, n, looks),
            KernelCall::RpcTake => self.rpc_take_row(kernel, thread),
            KernelCall::RpcReturn(r) => self.rpc_return_row(kernel, thread, r),
            KernelCall::RpcResult(r, seq) => self.rpc_result_row(kernel, thread, r, seq),
        }
    }

    // What the turn does whose step is counted.
    fn row<K: Kernel>(
        self,
        kernel: &mut K,
        thread: &mut ThreadState,
        next: Next,
        granted: bool,
    ) -> Reply
        requires sized { IsSized next }
        requires part { IsPartOf (K.state kernel.old).config
            self.who.home.0 self.part.now }
        requires posts { CanPost (K.state kernel.old) self.who.thread.0 thread.old.count }
        requires due { IsDue (K.state kernel.old).shared.lines
            self.part.now self.who.home.0 next }
        ensures exact { spec.row_of (K.state kernel.old).config self.entry.who self.entry.part.now
            (K.state kernel.old).shared thread.old granted next
            ≡ outcome_of (K.state kernel.new) thread.new result }
        ensures config { (K.state kernel.new).config ≡ (K.state kernel.old).config }
    {
        match next {
            Next::Look => waiting_row(kernel, self.who, thread),
            Next::Deliver(irq) => self.delivery_row(kernel, thread, irq),
            Next::Local(instr) => local_row(thread, self.who.home, instr),
            Next::Access(access) => access_row(kernel, thread, access, granted),
            Next::Unaligned(at) => thread.fault(Flaw::Unaligned, at),
            Next::Kernel(call) => self.kernel_row(kernel, thread, call),
            Next::Nowhere => {
                let place = thread.pc;
                thread.fault(Flaw::Place, place)
            }
        }
    }

    /// A turn of the actor's thread that comes to this: its step is counted, and after its last one it is spent. The
    /// access that it decides, if it decides one, was granted or denied; a delivery is of the interrupt that is due.
    pub fn turn<K: Kernel>(
        self,
        kernel: &mut K,
        thread: &mut ThreadState,
        next: Next,
        granted: bool,
    ) -> Reply
        requires sized { IsSized next }
        requires acts { CanAct (K.state kernel.old)
            self.who self.part.now thread.old }
        requires due { IsDue (K.state kernel.old).shared.lines
            self.part.now self.who.home.0 next }
        ensures exact { spec.turn_row (K.state kernel.old).config self.entry.who
            self.entry.part.now self.entry.program.now.steps
            (K.state kernel.old).shared thread.old granted next
            ≡ outcome_of (K.state kernel.new) thread.new result }
        ensures config { (K.state kernel.new).config ≡ (K.state kernel.old).config }
    {
        thread.count_step();
        let reply = self.row(kernel, thread, next, granted);
        thread.bound(self.program.steps);
        reply
    }

    // What a server's event does whose step is counted.
    fn server_row<K: Kernel>(
        self,
        kernel: &mut K,
        thread: &mut ThreadState,
        ticket: Option<Ticket>,
    ) -> Reply
        requires part { IsPartOf (K.state kernel.old).config
            self.who.home.0 self.part.now }
        requires free { call_words.served_ticket (K.state kernel.old).shared.serving
            self.who.home.0 ≡ None }
        ensures exact { call_words.server_row (K.state kernel.old).config self.entry.who.home.0
            (K.state kernel.old).shared thread.old ticket
            ≡ outcome_of (K.state kernel.new) thread.new result }
        ensures config { (K.state kernel.new).config ≡ (K.state kernel.old).config }
    {
        match ticket {
            Some(ticket) => self.start_row(kernel, thread, ticket),
            None => thread.refuse_call(2),
        }
    }

    /// An event of a server that serves no call: the start of a call, or an idle look. Its step is counted, and after its
    /// last one it is spent.
    pub fn serve<K: Kernel>(
        self,
        kernel: &mut K,
        thread: &mut ThreadState,
        ticket: Option<Ticket>,
    ) -> Reply
        requires acts { CanAct (K.state kernel.old)
            self.who self.part.now thread.old }
        requires free { is_free_server self.who self.part.now
            (K.state kernel.old).shared ≡ true }
        ensures exact { spec.within_budget self.entry.program.now.steps
            (call_words.server_row (K.state kernel.old).config self.entry.who.home.0
            (K.state kernel.old).shared (counted thread.old) ticket)
            ≡ outcome_of (K.state kernel.new) thread.new result }
        ensures config { (K.state kernel.new).config ≡ (K.state kernel.old).config }
    {
        thread.count_step();
        let reply = self.server_row(kernel, thread, ticket);
        thread.bound(self.program.steps);
        reply
    }
}

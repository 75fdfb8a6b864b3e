ghost use Rattle.std.specs.Prelude.{◌≡◌, ◌+◌, None, take};
ghost use Rattle.flat_model.specs.Acting.{CanPost, IsPartOf};
ghost use Rattle.flat_model.specs.CallRows as call_words;
ghost use Rattle.flat_model.specs.Calls.{next_call};
ghost use Rattle.flat_model.specs.Kernel.{outcome_of};
ghost use Rattle.flat_model.specs.KernelCalls.{after_posting, posted_call};
ghost use Rattle.flat_model.specs.Turn as spec;

use crate::actors::Actor;
use crate::classes::KernelCall;
use crate::events::{Collected, Reply};
use crate::kernel::Kernel;
use crate::states::ThreadState;
use addr_base::{BoxId, Ticket};

impl Actor<'_> {
    /// Whether the acting thread is its box's server.
    pub(crate) fn is_server(self) -> bool
        ensures { result ≡ call_words.is_server self.entry.who self.entry.part.now }
    {
        self.who.thread.0 == self.part.server.0
    }

    // The ticket of this number of the acting thread.
    pub(crate) fn own_ticket(self, seq: u32) -> Ticket
        ensures { result ≡ call_words.own_ticket self.entry.who seq }
    {
        Ticket {
            thread: self.who.thread,
            seq,
        }
    }

    // Posts the thread's next call.
    fn post<K: Kernel>(self, kernel: &mut K, thread: &ThreadState, target: BoxId, function: u32)
        requires { CanPost (K.state kernel.old) self.who.thread.0 thread.now.count }
        ensures { K.state kernel.new ≡ after_posting (K.state kernel.old)
            (posted_call (call_words.own_ticket self.entry.who (thread.now.count + 1))
            target function (take 4 thread.now.regs)) }
    {
        let ticket = self.own_ticket(thread.count + 1);
        kernel.post(ticket, target, function, thread.arguments());
    }

    // `rpc_call`: not allowed, full, or posted, with the call's number in a register.
    pub(crate) fn rpc_call_row<K: Kernel>(
        self,
        kernel: &mut K,
        thread: &mut ThreadState,
        r: u8,
        n: u32,
    ) -> Reply
        requires { CanPost (K.state kernel.old) self.who.thread.0 thread.old.count }
        ensures exact { spec.kernel_row (K.state kernel.old).config self.entry.who
            self.entry.part.now (K.state kernel.old).shared thread.old (KernelCall.RpcCall r n)
            ≡ outcome_of (K.state kernel.new) thread.new result }
        ensures config { (K.state kernel.new).config ≡ (K.state kernel.old).config }
    {
        let Some((target, function)) = kernel.callee(self.who.home, n) else {
            return thread.refuse_call(9);
        };
        if !self.who.room {
            return thread.refuse_call(3);
        }
        self.post(kernel, thread, target, function);
        thread.post(r)
    }

    // `rpc_sync`: not allowed, full, or posted, and the thread waits for the result.
    pub(crate) fn rpc_sync_row<K: Kernel>(
        self,
        kernel: &mut K,
        thread: &mut ThreadState,
        n: u32,
        looks: u32,
    ) -> Reply
        requires { CanPost (K.state kernel.old) self.who.thread.0 thread.old.count }
        ensures exact { spec.kernel_row (K.state kernel.old).config self.entry.who
            self.entry.part.now (K.state kernel.old).shared thread.old (KernelCall.RpcSync n looks)
            ≡ outcome_of (K.state kernel.new) thread.new result }
        ensures config { (K.state kernel.new).config ≡ (K.state kernel.old).config }
    {
        let Some((target, function)) = kernel.callee(self.who.home, n) else {
            return thread.refuse_call(9);
        };
        if !self.who.room {
            return thread.refuse_call(3);
        }
        self.post(kernel, thread, target, function);
        thread.post_and_wait(looks)
    }

    // `rpc_take` as a turn: not the server, or in a call.
    pub(crate) fn rpc_take_row<K: Kernel>(self, kernel: &K, thread: &mut ThreadState) -> Reply
        requires { IsPartOf (K.state kernel.now).config
            self.who.home.0 self.part.now }
        ensures { spec.kernel_row (K.state kernel.now).config self.entry.who
            self.entry.part.now (K.state kernel.now).shared thread.old KernelCall.RpcTake
            ≡ outcome_of (K.state kernel.now) thread.new result }
    {
        if !self.is_server() {
            return thread.refuse_call(9);
        }
        match kernel.serving(self.part, self.who.home) {
            Some(_) => thread.refuse_call(11),
            // A server in no call has no turn here: it starts the next call, or looks for one.
            None => thread.refuse_call(2),
        }
    }

    // `rpc_return`: the call that the thread serves is done, or it serves none.
    pub(crate) fn rpc_return_row<K: Kernel>(
        self,
        kernel: &mut K,
        thread: &mut ThreadState,
        r: u8,
    ) -> Reply
        requires { IsPartOf (K.state kernel.old).config self.who.home.0 self.part.now }
        ensures exact { spec.kernel_row (K.state kernel.old).config self.entry.who
            self.entry.part.now (K.state kernel.old).shared thread.old (KernelCall.RpcReturn r)
            ≡ outcome_of (K.state kernel.new) thread.new result }
        ensures config { (K.state kernel.new).config ≡ (K.state kernel.old).config }
    {
        if !self.is_server() {
            return thread.refuse_call(10);
        }
        match kernel.finish(self.part, self.who.home, thread.register(r)) {
            Some(_) => thread.finish_call(),
            None => thread.refuse_call(10),
        }
    }

    // `rpc_result`: what the caller gets for the number of one of its calls.
    pub(crate) fn rpc_result_row<K: Kernel>(
        self,
        kernel: &mut K,
        thread: &mut ThreadState,
        r: u8,
        seq: u8,
    ) -> Reply
        ensures exact { spec.kernel_row (K.state kernel.old).config self.entry.who
            self.entry.part.now (K.state kernel.old).shared thread.old (KernelCall.RpcResult r seq)
            ≡ outcome_of (K.state kernel.new) thread.new result }
        ensures config { (K.state kernel.new).config ≡ (K.state kernel.old).config }
    {
        match kernel.collect(self.own_ticket(thread.register(seq))) {
            Collected::Waiting => thread.refuse_call(1),
            Collected::Done(value) => thread.answer_call(r, value),
            Collected::NoSuch => thread.refuse_call(4),
        }
    }

    // The start of a call that is next, or of another.
    pub(crate) fn start_row<K: Kernel>(
        self,
        kernel: &mut K,
        thread: &mut ThreadState,
        ticket: Ticket,
    ) -> Reply
        requires part { IsPartOf (K.state kernel.old).config
            self.who.home.0 self.part.now }
        requires free { call_words.served_ticket (K.state kernel.old).shared.serving
            self.who.home.0 ≡ None }
        ensures exact { call_words.start_row (K.state kernel.old).config self.entry.who.home.0
            (K.state kernel.old).shared thread.old ticket
            (next_call ticket self.entry.who.home.0 (K.state kernel.old).shared.calls)
            ≡ outcome_of (K.state kernel.new) thread.new result }
        ensures config { (K.state kernel.new).config ≡ (K.state kernel.old).config }
    {
        match kernel.start(self.part, self.who.home, ticket) {
            Some(started) => {
                thread.begin(started);
                Reply::Begun(started)
            }
            None => thread.refuse_call(12),
        }
    }
}

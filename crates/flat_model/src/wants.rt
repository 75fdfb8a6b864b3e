ghost use Rattle.std.specs.Prelude.{◌≡◌};
ghost use Rattle.flat_model.specs.Acting.{IsDue, IsPartOf, is_free_server};
ghost use Rattle.flat_model.specs.CallRows.{home_of};
ghost use Rattle.flat_model.specs.Calls.{oldest_posted};
ghost use Rattle.flat_model.specs.Evaluator.{flat_of};
ghost use Rattle.flat_model.specs.KernelCalls.{gateway_in};
ghost use Rattle.flat_model.specs.Next as next_words;
ghost use Rattle.flat_model.specs.Interrupts.{due_interrupt};
ghost use Rattle.flat_model.specs.Script as script_words;
ghost use Rattle.flat_model.specs.Want as spec;

use crate::actors::Actor;
use crate::classes::KernelCall;
use crate::events::{Choice, Want};
use crate::kernel::Kernel;
use crate::lists::Items;
use crate::next::Next;
use crate::parts::Config;
use crate::states::ThreadState;
use addr_base::{BoxId, ThreadId};

/// How many calls the inbox of a box takes.
pub const INBOX_SLOTS: usize = 8;

// Room in the target of a gateway that the box may call by.
fn want_room<K: Kernel>(kernel: &K, home: BoxId, n: u32) -> Want
    ensures { result ≡ spec.want_room (gateway_in (K.state kernel.now) home.0 n) }
{
    match kernel.callee(home, n) {
        Some((target, _)) => Want::Room(target),
        None => Want::Plain,
    }
}

impl Actor<'_> {
    // Whether the acting thread is its box's server and serves no call.
    fn is_free_server<K: Kernel>(self, kernel: &K) -> bool
        requires { IsPartOf (K.state kernel.now).config
            self.who.home.0 self.part.now }
        ensures { result ≡ is_free_server self.entry.who self.entry.part.now
            (K.state kernel.now).shared }
    {
        self.is_server() && kernel.serving(self.part, self.who.home).is_none()
    }

    // The next call, for a server that serves none.
    fn want_next<K: Kernel>(self, kernel: &K) -> Want
        requires { IsPartOf (K.state kernel.now).config
            self.who.home.0 self.part.now }
        ensures { result ≡ spec.want_next (is_free_server self.entry.who self.entry.part.now
            (K.state kernel.now).shared) }
    {
        if self.is_free_server(kernel) {
            Want::Next
        } else {
            Want::Plain
        }
    }

    // What the thread wants whose turn is this kernel call.
    fn want_by_call<K: Kernel>(self, kernel: &K, call: KernelCall) -> Want
        requires { IsPartOf (K.state kernel.now).config
            self.who.home.0 self.part.now }
        ensures { result ≡ spec.want_by_call (K.state kernel.now).config self.entry.who
            self.entry.part.now (K.state kernel.now).shared call }
    {
        match call {
            KernelCall::RpcCall(_, n) | KernelCall::RpcSync(n, _) => {
                want_room(kernel, self.who.home, n)
            }
            KernelCall::RpcTake => self.want_next(kernel),
            KernelCall::PagesAlloc(_, _)
            | KernelCall::PageFree(_)
            | KernelCall::IrqOn(_)
            | KernelCall::IrqOff(_)
            | KernelCall::IrqReturn
            | KernelCall::GwRead(_, _)
            | KernelCall::GwWrite(_, _)
            | KernelCall::RpcReturn(_)
            | KernelCall::RpcResult(_, _) => Want::Plain,
        }
    }

    /// What the actor's thread wants whose turn comes to this.
    pub fn want<K: Kernel>(self, kernel: &K, next: Next) -> Want
        requires { IsPartOf (K.state kernel.now).config
            self.who.home.0 self.part.now }
        ensures { result ≡ spec.want_by (K.state kernel.now).config self.entry.who
            self.entry.part.now (K.state kernel.now).shared next }
    {
        match next {
            Next::Kernel(call) => self.want_by_call(kernel, call),
            Next::Look
            | Next::Deliver(_)
            | Next::Local(_)
            | Next::Access(_)
            | Next::Unaligned(_)
            | Next::Nowhere => Want::Plain,
        }
    }

    /// What a turn of the actor's thread comes to.
    pub fn next<K: Kernel>(self, kernel: &K, thread: &ThreadState) -> Next
        requires { IsPartOf (K.state kernel.now).config
            self.who.home.0 self.part.now }
        ensures exact { result ≡ next_words.next_of self.entry.program.now thread.now
            (due_interrupt (K.state kernel.now).shared.lines self.entry.part.now
            self.entry.who.home.0 self.entry.who.thread.0) }
        ensures sized { next_words.IsSized result }
        ensures due { IsDue (K.state kernel.now).shared.lines self.entry.part.now
            self.entry.who.home.0 result }
    {
        Next::of(self.program, thread, self.due_interrupt(kernel))
    }
}

/// What the thread with this number wants: a plain turn where there is no such thread, or it has ended.
pub fn want_of<K: Kernel>(
    cfg: &Config,
    kernel: &K,
    threads: &Items<ThreadState>,
    t: ThreadId,
) -> Want
    requires { (K.state kernel.now).config ≡ cfg.now }
    ensures { result ≡ spec.want_of cfg.now (flat_of (K.state kernel.now) threads.now) t.0 }
{
    let Some(actor) = Actor::of(cfg, threads, t, true) else {
        return Want::Plain;
    };
    let thread = threads.at(t.0 as usize);
    let next = actor.next(kernel, &thread);
    actor.want(kernel, next)
}

// The box of a thread.
fn home_of(cfg: &Config, t: ThreadId) -> BoxId
    ensures { result ≡ home_of cfg.now t.0 }
{
    match cfg.program(t) {
        Some(program) => program.home,
        None => BoxId(0),
    }
}

// The start of the oldest call that is posted to the box, or an idle look where there is none.
fn start_or_idle<K: Kernel>(kernel: &K, home: BoxId, t: ThreadId) -> Choice
    ensures { result ≡ script_words.start_or_idle t
        (oldest_posted home.0 (K.state kernel.now).shared.calls) }
{
    match kernel.oldest(home) {
        Some(ticket) => Choice::Start { t, ticket },
        None => Choice::Idle { t },
    }
}

/// The event that a script's word for the thread stands for: what it wants, with room where the inbox has a free slot,
/// and with the oldest call that is posted to its box.
pub fn script_choice<K: Kernel>(
    cfg: &Config,
    kernel: &K,
    threads: &Items<ThreadState>,
    t: ThreadId,
) -> Choice
    requires { (K.state kernel.now).config ≡ cfg.now }
    ensures { result ≡ script_words.choice_of_thread cfg.now
        (flat_of (K.state kernel.now) threads.now) t }
{
    match want_of(cfg, kernel, threads, t) {
        Want::Plain => Choice::Turn { t, room: true },
        Want::Room(b) => Choice::Turn {
            t,
            room: kernel.posted(b) < INBOX_SLOTS,
        },
        Want::Next => start_or_idle(kernel, home_of(cfg, t), t),
    }
}

ghost use Rattle.std.specs.Prelude.{◌≡◌, true};
ghost use Rattle.flat_model.specs.Actors.{actor_of};
ghost use Rattle.flat_model.specs.Evaluator.{flat_of};
ghost use Rattle.flat_model.specs.Next as next_words;
ghost use Rattle.flat_model.specs.Sound.{IsSound};
ghost use Rattle.flat_model.specs.Step as spec;
ghost use Rattle.flat_model.specs.Stepping.{CanGoOn};
ghost use Rattle.flat_model.specs.Want as want_words;

use crate::access_rule::may_access;
use crate::actors::Actor;
use crate::events::Reply;
use crate::lists::Items;
use crate::next::Next;
use crate::parts::Config;
use crate::plain::PlainKernel;
use crate::states::ThreadState;
use addr_base::{ThreadId, Ticket};

// Whether the box holds the bytes of the access that a turn decides, if it decides one.
fn holds_next(cfg: &Config, actor: Actor<'_>, kernel: &PlainKernel, next: Next) -> bool
    requires { next_words.IsSized next }
    ensures { result ≡ next_words.holds_next cfg.now.board actor.entry.who.home.0
        actor.entry.part.now kernel.now.shared.owners next }
{
    match next.touch() {
        Some(access) => may_access(
            actor.part,
            actor.who.home,
            &cfg.board.heap,
            kernel.owners(),
            access.at as u64,
            access.size,
            access.kind,
        ),
        None => false,
    }
}

/// A turn of a thread, where there is one: an access is done where the box holds its bytes.
pub(crate) fn turn_at(
    cfg: &Config,
    kernel: &mut PlainKernel,
    threads: &mut Items<ThreadState>,
    t: ThreadId,
    room: bool,
) -> Reply
    requires config { kernel.old.config ≡ cfg.now }
    requires sound { IsSound cfg.now }
    requires kept { CanGoOn kernel.old.config (flat_of kernel.old threads.old) }
    ensures exact { spec.turn_by cfg.now (flat_of kernel.old threads.old) t room
        (actor_of cfg.now (flat_of kernel.old threads.old) t.0)
        ≡ (flat_of kernel.new threads.new, result) }
    ensures config { kernel.new.config ≡ kernel.old.config }
{
    let Some(actor) = Actor::of(cfg, threads, t, room) else {
        return Reply::Ended;
    };
    let mut thread = threads.at(t.0 as usize);
    let next = actor.next(kernel, &thread);
    let granted = holds_next(cfg, actor, kernel, next);
    let reply = actor.turn(kernel, &mut thread, next, granted);
    threads.put(t.0 as usize, thread);
    reply
}

/// The start of a call, or an idle look, of a server that wants the next call.
pub(crate) fn serve_at(
    cfg: &Config,
    kernel: &mut PlainKernel,
    threads: &mut Items<ThreadState>,
    t: ThreadId,
    ticket: Option<Ticket>,
) -> Reply
    requires config { kernel.old.config ≡ cfg.now }
    requires sound { IsSound cfg.now }
    requires kept { CanGoOn kernel.old.config (flat_of kernel.old threads.old) }
    requires wants { want_words.wants_next
        (want_words.want_of cfg.now (flat_of kernel.old threads.old) t.0) ≡ true }
    ensures exact { spec.serve_by cfg.now (flat_of kernel.old threads.old) t ticket
        (actor_of cfg.now (flat_of kernel.old threads.old) t.0)
        ≡ (flat_of kernel.new threads.new, result) }
    ensures config { kernel.new.config ≡ kernel.old.config }
{
    let Some(actor) = Actor::of(cfg, threads, t, true) else {
        return Reply::Ended;
    };
    let mut thread = threads.at(t.0 as usize);
    let reply = actor.serve(kernel, &mut thread, ticket);
    threads.put(t.0 as usize, thread);
    reply
}

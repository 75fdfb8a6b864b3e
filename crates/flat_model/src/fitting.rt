ghost use Rattle.std.specs.Prelude.{◌≡◌, ◌+◌, ◌^◌, ◌<◌, ◌≤◌, nat_le, length, if◌then◌else◌};
ghost use Rattle.std.specs.List.{list_any};
ghost use Rattle.flat_model.specs.Calls.{posted_count};
ghost use Rattle.flat_model.specs.Evaluator.{flat_of};
ghost use Rattle.flat_model.specs.Interrupts as interrupts;
ghost use Rattle.flat_model.specs.Want as spec;

use crate::events::{Choice, Want};
use crate::gateways::has_box;
use crate::interrupts::has_line;
use crate::kernel::Kernel;
use crate::lists::Items;
use crate::parts::{BoxPart, Config, ThreadPart};
use crate::states::ThreadState;
use crate::wants::{INBOX_SLOTS, want_of};
use addr_base::{BoxId, Line, ThreadId};

// Whether the first box may call the second by some gateway.
fn may_call(cfg: &Config, caller: BoxId, target: BoxId) -> bool
    ensures { result ≡ spec.may_call cfg.now caller.0 target.0 }
{
    cfg.gateways.as_slice().iter().any(|gate| gate.target.0 == target.0
        && has_box(gate.callers, caller))
}

// How many of these threads, numbered from `k` on, other than this one may call the box.
fn callers_from(cfg: &Config, t: ThreadId, b: BoxId, k: usize, threads: &[ThreadPart]) -> usize
    requires { k + length threads.now < 2 ^ 64 }
    ensures exact { result ≡ spec.callers_from cfg.now t.0 b.0 k threads.now }
    ensures bound { result ≤ length threads.now }
{
    let [thread, rest @ ..] = threads else {
        return 0;
    };
    let others = callers_from(cfg, t, b, k + 1, rest);
    if k != t.0 as usize && may_call(cfg, thread.home, b) {
        1 + others
    } else {
        others
    }
}

/// How many threads other than this one may call the box.
pub fn other_callers(cfg: &Config, t: ThreadId, b: BoxId) -> usize
    ensures { result ≡ spec.other_callers cfg.now t.0 b.0 }
{
    callers_from(cfg, t, b, 0, cfg.threads.as_slice())
}

/// Whether a call to the box by this thread finds no room: the calls that are posted to it and the other threads that may
/// call it fill the inbox.
pub fn may_be_full<K: Kernel>(cfg: &Config, kernel: &K, t: ThreadId, b: BoxId) -> bool
    ensures { result ≡ nat_le (spec.inbox_slots cfg.now)
        (posted_count b.0 (K.state kernel.now).shared.calls
        + spec.other_callers cfg.now t.0 b.0) }
{
    let free = INBOX_SLOTS.saturating_sub(kernel.posted(b));
    free <= other_callers(cfg, t, b)
}

// Whether a turn with room or without fits what the thread wants.
fn fits_turn<K: Kernel>(
    cfg: &Config,
    kernel: &K,
    threads: &Items<ThreadState>,
    t: ThreadId,
    room: bool,
) -> bool
    requires { (K.state kernel.now).config ≡ cfg.now }
    ensures { let f = flat_of (K.state kernel.now) threads.now in
        result ≡ (if room then spec.fits_with_room (spec.want_of cfg.now f t.0)
        else spec.fits_without_room cfg.now f t.0 (spec.want_of cfg.now f t.0)) }
{
    match want_of(cfg, kernel, threads, t) {
        Want::Plain => room,
        Want::Room(b) => room || may_be_full(cfg, kernel, t, b),
        Want::Next => false,
    }
}

// Whether the start of a call or an idle look fits what the thread wants.
fn wants_next(want: Want) -> bool
    ensures { result ≡ spec.wants_next want }
{
    match want {
        Want::Next => true,
        Want::Plain | Want::Room(_) => false,
    }
}

// Whether the thread is one of the configuration.
fn is_thread(cfg: &Config, t: ThreadId) -> bool
    ensures { result ≡ spec.is_thread cfg.now t }
{
    (t.0 as usize) < cfg.threads.len()
}

// Whether one of the boxes owns the line.
fn some_has_line(line: Line, boxes: &[BoxPart]) -> bool
    ensures { result ≡ list_any (λ part. interrupts.has_line line.0 part.irqs) boxes.now }
{
    boxes
        .iter()
        .any(|part| has_line(line.0 as u32, part.irqs.as_slice()))
}

/// Whether some box owns the line.
pub fn is_owned_line(cfg: &Config, line: Line) -> bool
    ensures { result ≡ spec.is_owned_line cfg.now line.0 }
{
    some_has_line(line, cfg.boxes.as_slice())
}

/// Whether the choice fits the state: only then it is a step.
pub fn fits<K: Kernel>(
    cfg: &Config,
    kernel: &K,
    threads: &Items<ThreadState>,
    choice: Choice,
) -> bool
    requires { (K.state kernel.now).config ≡ cfg.now }
    ensures { result ≡ spec.fits cfg.now (flat_of (K.state kernel.now) threads.now) choice }
{
    match choice {
        Choice::Turn { t, room } => {
            is_thread(cfg, t) && fits_turn(cfg, kernel, threads, t, room)
        }
        Choice::Start { t, ticket } => {
            is_thread(cfg, t)
                && is_thread(cfg, ticket.thread)
                && wants_next(want_of(cfg, kernel, threads, t))
        }
        Choice::Idle { t } => is_thread(cfg, t) && wants_next(want_of(cfg, kernel, threads, t)),
        Choice::Ring { line, by: _ } => is_owned_line(cfg, line),
    }
}

ghost use Rattle.std.specs.Prelude.{◌≡◌, nat_eq};
ghost use Rattle.std.specs.List.{list_all};
ghost use Rattle.flat_model.specs.Log.{ascends, is_box, is_full_reply, is_idle_reply, is_named_choice, is_named_frames, is_named_item, is_named_line, is_named_verdict, is_ring_reply, is_size, is_start_reply, is_turn_reply};
ghost use Rattle.flat_model.specs.Want.{is_thread};

use crate::items::home_of;
use flat_model::{
    BoxId, Choice, Config, Entry, Frames, Logged, Reply, ThreadId, UnitLine, Verdict,
};

// How many regions the unit has.
const REGIONS: u8 = 8;

// How many interrupt lines there are.
const LINES: u8 = 64;

// Whether there is such a box.
fn is_box(config: &Config, b: BoxId) -> bool
    ensures { result ≡ is_box config.now b }
{
    usize::from(b.0) < config.boxes.len()
}

// Whether there is such a thread.
fn is_thread(config: &Config, t: ThreadId) -> bool
    ensures { result ≡ is_thread config.now t }
{
    usize::from(t.0) < config.threads.len()
}

// Whether an access may have this size.
fn is_size(n: u8) -> bool
    ensures { result ≡ is_size n }
{
    n == 1 || n == 2 || n == 4
}

// Whether a verdict names a region that the unit has.
fn is_named_verdict(verdict: Verdict) -> bool
    ensures { result ≡ is_named_verdict verdict }
{
    match verdict {
        Verdict::Granted(slot) => slot < REGIONS,
        Verdict::Denied => true,
    }
}

// Whether a unit's line names only what is there.
fn is_named_line(config: &Config, line: &UnitLine) -> bool
    ensures { result ≡ is_named_line config.now line.now }
{
    match line {
        UnitLine::Switch(b) => is_box(config, *b),
        UnitLine::Rotate { slot, pair: _ } => *slot < REGIONS,
        UnitLine::Flush => true,
        UnitLine::Access {
            kind: _,
            size,
            at: _,
            verdict,
        } => is_size(*size) && is_named_verdict(*verdict),
    }
}

// Whether each number is below the next.
fn ascends(numbers: &[u8]) -> bool
    ensures { result ≡ ascends numbers.now }
{
    if numbers.len() < 2 {
        return true;
    }
    numbers[0] < numbers[1] && ascends(&numbers[1..])
}

// Whether all of the numbers are 0.
fn are_zeros(numbers: &[u8]) -> bool
    ensures { result ≡ list_all (λ n. nat_eq n 0) numbers.now }
{
    numbers.iter().all(|n| *n == 0)
}

// Whether the frames are some, ascend, and the places past the last are 0.
fn is_named_frames(frames: &Frames) -> bool
    ensures { result ≡ is_named_frames frames.now }
{
    let n = usize::from(frames.n);
    1 <= n && n <= 16 && ascends(&frames.list[..n]) && are_zeros(&frames.list[n..])
}

// Whether a turn with room may have this reply.
fn is_turn_reply(reply: &Reply) -> bool
    ensures { result ≡ is_turn_reply reply.now }
{
    match reply {
        Reply::Begun(_) => false,
        Reply::Status(status) => *status != 3,
        Reply::Irq(line) => line.0 < LINES,
        Reply::Given(frames) => is_named_frames(frames),
        _ => true,
    }
}

// Whether a turn without room may have this reply.
fn is_full_reply(reply: &Reply) -> bool
    ensures { result ≡ is_full_reply reply.now }
{
    match reply {
        Reply::Status(status) => *status == 3,
        _ => false,
    }
}

// Whether the start of a call may have this reply.
fn is_start_reply(caller: BoxId, reply: &Reply) -> bool
    ensures { result ≡ is_start_reply caller reply.now }
{
    match reply {
        Reply::Status(status) => *status == 12,
        Reply::Begun(started) => started.caller.0 == caller.0,
        _ => false,
    }
}

// Whether an idle look may have this reply.
fn is_idle_reply(reply: &Reply) -> bool
    ensures { result ≡ is_idle_reply reply.now }
{
    match reply {
        Reply::Status(status) => *status == 2,
        _ => false,
    }
}

// Whether a ring may have this reply.
fn is_ring_reply(reply: &Reply) -> bool
    ensures { result ≡ is_ring_reply reply.now }
{
    match reply {
        Reply::Done => true,
        _ => false,
    }
}

// Whether an event names only what is there and has a reply of its kind.
fn is_named_entry(config: &Config, entry: &Entry) -> bool
    ensures { result ≡ is_named_choice config.now entry.now.choice entry.now.reply }
{
    match entry.choice {
        Choice::Turn { t, room } => {
            is_thread(config, t)
                && if room {
                    is_turn_reply(&entry.reply)
                } else {
                    is_full_reply(&entry.reply)
                }
        }
        Choice::Start { t, ticket } => {
            is_thread(config, t)
                && is_thread(config, ticket.thread)
                && is_start_reply(home_of(config, ticket.thread), &entry.reply)
        }
        Choice::Idle { t } => is_thread(config, t) && is_idle_reply(&entry.reply),
        Choice::Ring { line, by: _ } => line.0 < LINES && is_ring_reply(&entry.reply),
    }
}

/// Whether an item names what is there.
pub fn is_named_item(config: &Config, item: &Logged) -> bool
    ensures { result ≡ is_named_item config.now item.now }
{
    match item {
        Logged::Unit(line) => is_named_line(config, line),
        Logged::Core(entry) => is_named_entry(config, entry),
    }
}

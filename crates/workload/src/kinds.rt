ghost use Rattle.std.specs.Prelude.{◌≡◌};
ghost use Rattle.workload.specs.Kinds.{is_denied_access, is_faulting_turn, is_flush, is_granted_access, is_idle, is_posting_turn, is_ring, is_rotation, is_start, is_switch, is_turn};

use addr_base::Verdict;
use flat_model::{Choice, Entry, Logged, Reply, UnitLine};

/// Whether it is the line of a switch.
pub fn is_switch(item: &Logged) -> bool
    ensures { result ≡ is_switch item.now }
{
    match item {
        Logged::Unit(UnitLine::Switch(_)) => true,
        _ => false,
    }
}

/// Whether it is the line of a rotation.
pub fn is_rotation(item: &Logged) -> bool
    ensures { result ≡ is_rotation item.now }
{
    match item {
        Logged::Unit(UnitLine::Rotate { slot: _, pair: _ }) => true,
        _ => false,
    }
}

/// Whether it is the line of a flush.
pub fn is_flush(item: &Logged) -> bool
    ensures { result ≡ is_flush item.now }
{
    match item {
        Logged::Unit(UnitLine::Flush) => true,
        _ => false,
    }
}

/// Whether it is the line of an access that was granted.
pub fn is_granted_access(item: &Logged) -> bool
    ensures { result ≡ is_granted_access item.now }
{
    match item {
        Logged::Unit(
            UnitLine::Access {
                kind: _,
                size: _,
                at: _,
                verdict: Verdict::Granted(_),
            },
        ) => true,
        _ => false,
    }
}

/// Whether it is the line of an access that was denied.
pub fn is_denied_access(item: &Logged) -> bool
    ensures { result ≡ is_denied_access item.now }
{
    match item {
        Logged::Unit(
            UnitLine::Access {
                kind: _,
                size: _,
                at: _,
                verdict: Verdict::Denied,
            },
        ) => true,
        _ => false,
    }
}

/// Whether it is a turn.
pub fn is_turn(item: &Logged) -> bool
    ensures { result ≡ is_turn item.now }
{
    match item {
        Logged::Core(
            Entry {
                choice: Choice::Turn { t: _, room: _ },
                reply: _,
            },
        ) => true,
        _ => false,
    }
}

/// Whether it is a start of a call.
pub fn is_start(item: &Logged) -> bool
    ensures { result ≡ is_start item.now }
{
    match item {
        Logged::Core(
            Entry {
                choice: Choice::Start { t: _, ticket: _ },
                reply: _,
            },
        ) => true,
        _ => false,
    }
}

/// Whether it is an idle look.
pub fn is_idle(item: &Logged) -> bool
    ensures { result ≡ is_idle item.now }
{
    match item {
        Logged::Core(
            Entry {
                choice: Choice::Idle { t: _ },
                reply: _,
            },
        ) => true,
        _ => false,
    }
}

/// Whether it is a ring.
pub fn is_ring(item: &Logged) -> bool
    ensures { result ≡ is_ring item.now }
{
    match item {
        Logged::Core(
            Entry {
                choice: Choice::Ring { line: _, by: _ },
                reply: _,
            },
        ) => true,
        _ => false,
    }
}

/// Whether it is a turn that posted a call.
pub fn is_posting_turn(item: &Logged) -> bool
    ensures { result ≡ is_posting_turn item.now }
{
    match item {
        Logged::Core(
            Entry {
                choice: Choice::Turn { t: _, room: _ },
                reply: Reply::Posted(_),
            },
        ) => true,
        _ => false,
    }
}

/// Whether it is a turn that faulted.
pub fn is_faulting_turn(item: &Logged) -> bool
    ensures { result ≡ is_faulting_turn item.now }
{
    match item {
        Logged::Core(
            Entry {
                choice: Choice::Turn { t: _, room: _ },
                reply: Reply::Fault { why: _, at: _ },
            },
        ) => true,
        _ => false,
    }
}

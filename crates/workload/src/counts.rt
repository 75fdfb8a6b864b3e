ghost use Rattle.std.specs.Prelude.{◌≡◌};
ghost use Rattle.workload.specs.Tally as tally;

use crate::kinds::{
    is_denied_access, is_faulting_turn, is_flush, is_granted_access, is_idle, is_posting_turn,
    is_ring, is_rotation, is_start, is_switch, is_turn,
};
use flat_model::Logged;

/// How many items are switches.
pub fn switches(items: &[Logged]) -> usize
    ensures { result ≡ tally.switches items.now }
{
    items.iter().filter(|item| is_switch(item)).count()
}

/// How many items are rotations.
pub fn rotations(items: &[Logged]) -> usize
    ensures { result ≡ tally.rotations items.now }
{
    items.iter().filter(|item| is_rotation(item)).count()
}

/// How many items are flushes.
pub fn flushes(items: &[Logged]) -> usize
    ensures { result ≡ tally.flushes items.now }
{
    items.iter().filter(|item| is_flush(item)).count()
}

/// How many items are accesses that were granted.
pub fn granted(items: &[Logged]) -> usize
    ensures { result ≡ tally.granted items.now }
{
    items.iter().filter(|item| is_granted_access(item)).count()
}

/// How many items are accesses that were denied.
pub fn denied(items: &[Logged]) -> usize
    ensures { result ≡ tally.denied items.now }
{
    items.iter().filter(|item| is_denied_access(item)).count()
}

/// How many items are turns.
pub fn turns(items: &[Logged]) -> usize
    ensures { result ≡ tally.turns items.now }
{
    items.iter().filter(|item| is_turn(item)).count()
}

/// How many items are starts of calls.
pub fn starts(items: &[Logged]) -> usize
    ensures { result ≡ tally.starts items.now }
{
    items.iter().filter(|item| is_start(item)).count()
}

/// How many items are idle looks.
pub fn idles(items: &[Logged]) -> usize
    ensures { result ≡ tally.idles items.now }
{
    items.iter().filter(|item| is_idle(item)).count()
}

/// How many items are rings.
pub fn rings(items: &[Logged]) -> usize
    ensures { result ≡ tally.rings items.now }
{
    items.iter().filter(|item| is_ring(item)).count()
}

/// How many items are turns that posted a call.
pub fn posted(items: &[Logged]) -> usize
    ensures { result ≡ tally.posted items.now }
{
    items.iter().filter(|item| is_posting_turn(item)).count()
}

/// How many items are turns that faulted.
pub fn faults(items: &[Logged]) -> usize
    ensures { result ≡ tally.faults items.now }
{
    items.iter().filter(|item| is_faulting_turn(item)).count()
}

// Lines that several threads raise and take.
ghost use Rattle.std.specs.Prelude.{◌≡◌, ◌+◌, ◌<◌, ◌≤◌};

use super::passing::TRIES;
use crate::{LineSeat, Lines, Rang};
use addr_base::Line;
use std::sync::atomic::{AtomicU64, Ordering};
use std::test::Fail;
use std::thread;
use std::thread::Threads;

const EACH: u32 = 5_000;

// A seat, and how many lines it raised or took.
type Ringer = (LineSeat, u32);

// Waits until as many lines of a raiser have come out as it raised.
fn have_come(out: &AtomicU64, raised: u32) -> bool {
    for _ in 0..TRIES {
        if out.load(Ordering::SeqCst) == u64::from(raised) {
            return true;
        }
        thread::yield_now();
    }
    false
}

// Raises 32 lines in turn, each again only when all that were raised have come out.
fn raise_each(lines: &Lines, mut seat: LineSeat, first: u8, out: &AtomicU64) -> Ringer
    requires few { first ≤ 32 }
    requires of { seat.lines ≡ lines.now.id }
    ensures { (result.0.lines ≡ lines.now.id) × (result.0.part.number ≡ seat.part.number) }
{
    for i in 0..EACH {
        if i % 32 == 0 && !have_come(out, i) {
            return (seat, i);
        }
        lines.raise(&mut seat, Line(first + (i % 32) as u8));
    }
    (seat, EACH)
}

// Takes as many lines as two raisers raise, and counts those of each.
fn take_all(lines: &Lines, mut seat: LineSeat, low: &AtomicU64, high: &AtomicU64) -> Ringer
    requires { seat.lines ≡ lines.now.id }
    ensures { (result.0.lines ≡ lines.now.id) × (result.0.part.number ≡ seat.part.number) }
{
    let mut taken = 0;
    for _ in 0..TRIES {
        if taken == 2 * EACH {
            break;
        }
        match lines.take_lowest(&mut seat) {
            Rang::Rung(rung) => {
                let out = if rung.line().0 < 32 { low } else { high };
                out.fetch_add(1, Ordering::SeqCst);
                taken = taken.saturating_add(1);
            }
            Rang::Quiet => thread::yield_now(),
            // Nobody else takes.
            Rang::Missed { line: _, found: _ } => break,
        }
    }
    (seat, taken)
}

// Two raisers, each on a thread of its own.
fn raise_on_two<R: Threads>(
    rt: &R,
    lines: &Lines,
    first: LineSeat,
    second: LineSeat,
    low: &AtomicU64,
    high: &AtomicU64,
) -> (Ringer, Ringer)
    requires first { (first.lines ≡ lines.now.id) × (first.part.number ≡ 0) }
    requires second { (second.lines ≡ lines.now.id) × (second.part.number ≡ 1) }
    ensures first { (result.0.0.lines ≡ lines.now.id) × (result.0.0.part.number ≡ 0) }
    ensures second { (result.1.0.lines ≡ lines.now.id) × (result.1.0.part.number ≡ 1) }
{
    thread::join(
        rt,
        move || raise_each(lines, first, 0, low),
        move || raise_each(lines, second, 32, high),
    )
}

// Two raisers and the taker, each on a thread of its own.
fn ring_on_three<R: Threads + Sync>(
    rt: &R,
    lines: &Lines,
    raisers: (LineSeat, LineSeat),
    taker: LineSeat,
    low: &AtomicU64,
    high: &AtomicU64,
) -> ((Ringer, Ringer), Ringer)
    requires first { (raisers.0.lines ≡ lines.now.id) × (raisers.0.part.number ≡ 0) }
    requires second { (raisers.1.lines ≡ lines.now.id) × (raisers.1.part.number ≡ 1) }
    requires taker { (taker.lines ≡ lines.now.id) × (taker.part.number ≡ 2) }
    ensures first { (result.0.0.0.lines ≡ lines.now.id) × (result.0.0.0.part.number ≡ 0) }
    ensures second { (result.0.1.0.lines ≡ lines.now.id) × (result.0.1.0.part.number ≡ 1) }
    ensures taker { (result.1.0.lines ≡ lines.now.id) × (result.1.0.part.number ≡ 2) }
{
    let (first, second) = raisers;
    thread::join(
        rt,
        move || raise_on_two(rt, lines, first, second, low, high),
        move || take_all(lines, taker, low, high),
    )
}

#[test]
fn two_raisers_and_a_taker_lose_no_line(rt: HostRuntime) -> Result<(), Fail> {
    let Ok((lines, mut seats)) = Lines::new(rt.alloc(), 3) else {
        panic!(rt; "memory")
    };
    let Some(third) = seats.pop() else {
        unreachable!()
    };
    let Some(second) = seats.pop() else {
        unreachable!()
    };
    let Some(first) = seats.pop() else {
        unreachable!()
    };
    let low = AtomicU64::new(0);
    let high = AtomicU64::new(0);
    let (raisers, ringer) = ring_on_three(&rt, &lines, (first, second), third, &low, &high);
    let ((first, one), (second, two)) = raisers;
    let (third, taken) = ringer;
    assert_eq!(rt; (one, two, taken), (5_000, 5_000, 10_000));
    let out = (low.load(Ordering::SeqCst), high.load(Ordering::SeqCst));
    assert_eq!(rt; out, (5_000, 5_000));
    seats.push(first)?;
    seats.push(second)?;
    seats.push(third)?;
    assert_eq!(rt; lines.close(seats), 0);
    Ok(())
}

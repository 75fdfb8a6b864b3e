// Races that a seat loses. No call can be stopped in its midst, so each loop goes on until one is
// lost, or to its bound.
ghost use Rattle.std.specs.Prelude.{◌≡◌, ◌+◌, ◌<◌};

use super::passing::{Putter, TRIES, Taker, Tally, put_next, take_next};
use crate::{Consumer, Inbox, LineSeat, Lines, Producer, Rang};
use addr_base::{BoxId, Line};
use std::sync::atomic::{AtomicU64, Ordering};
use std::test::Fail;
use std::thread;
use std::thread::Threads;

const ROUNDS: u32 = 2_000_000;

// Puts one ticket and takes up to two, until each kind of race is lost; then nobody goes on.
fn put_and_take(
    inbox: &Inbox,
    mut producer: Producer,
    mut consumer: Consumer,
    over: &AtomicU64,
) -> (Putter, Taker)
    requires producer { (producer.inbox ≡ inbox.now.id) × (producer.part.number ≡ 0) }
    requires consumer { consumer.inbox ≡ inbox.now.id }
    ensures producer { (result.0.0.inbox ≡ inbox.now.id) × (result.0.0.part.number ≡ 0) }
    ensures consumer { result.1.0.inbox ≡ inbox.now.id }
{
    let mut put = Tally::new();
    let mut taken = Tally::new();
    let mut next = [0u32; 4];
    for _ in 0..ROUNDS {
        if put.claims_lost > 0 && put.lost > 0 && taken.lost > 0 {
            break;
        }
        put_next(inbox, &mut producer, 0, &mut put);
        take_next(inbox, &mut consumer, &mut next, &mut taken);
        take_next(inbox, &mut consumer, &mut next, &mut taken);
    }
    over.store(1, Ordering::SeqCst);
    ((producer, put), (consumer, taken))
}

// Puts tickets for as long as the others go on.
fn put_on(inbox: &Inbox, mut seat: Producer, over: &AtomicU64) -> Putter
    requires { (seat.inbox ≡ inbox.now.id) × (seat.part.number ≡ 1) }
    ensures { (result.0.inbox ≡ inbox.now.id) × (result.0.part.number ≡ 1) }
{
    let mut tally = Tally::new();
    for _ in 0..TRIES {
        if over.load(Ordering::SeqCst) != 0 {
            break;
        }
        if !put_next(inbox, &mut seat, 1, &mut tally) {
            thread::yield_now();
        }
    }
    (seat, tally)
}

fn race_at_an_inbox<R: Threads>(
    rt: &R,
    inbox: &Inbox,
    first: Producer,
    second: Producer,
    consumer: Consumer,
) -> ((Putter, Taker), Putter)
    requires first { (first.inbox ≡ inbox.now.id) × (first.part.number ≡ 0) }
    requires second { (second.inbox ≡ inbox.now.id) × (second.part.number ≡ 1) }
    requires consumer { consumer.inbox ≡ inbox.now.id }
    ensures first { (result.0.0.0.inbox ≡ inbox.now.id) × (result.0.0.0.part.number ≡ 0) }
    ensures second { (result.1.0.inbox ≡ inbox.now.id) × (result.1.0.part.number ≡ 1) }
    ensures consumer { result.0.1.0.inbox ≡ inbox.now.id }
{
    let over = AtomicU64::new(0);
    let over = &over;
    thread::join(
        rt,
        move || put_and_take(inbox, first, consumer, over),
        move || put_on(inbox, second, over),
    )
}

#[test]
fn a_race_at_an_inbox_is_lost_only_to_another_seat(rt: HostRuntime) -> Result<(), Fail> {
    let Ok((inbox, mut seats, consumer)) = Inbox::new(rt.alloc(), BoxId(0), 2) else {
        panic!(rt; "memory")
    };
    let Some(second) = seats.pop() else {
        unreachable!()
    };
    let Some(first) = seats.pop() else {
        unreachable!()
    };
    let (mine, theirs) = race_at_an_inbox(&rt, &inbox, first, second, consumer);
    let ((first, one), (consumer, taken)) = mine;
    let (second, two) = theirs;
    assert_eq!(rt; (one.wrong, two.wrong, taken.wrong), (0, 0, 0));
    // Each race that one thread lost, the other won in between.
    assert!(rt; one.claims_lost <= two.done && one.lost <= two.done && taken.lost <= two.done);
    assert!(rt; two.claims_lost <= one.done && two.lost <= one.done.saturating_add(taken.done));
    seats.push(first)?;
    seats.push(second)?;
    let left = inbox.close(seats, consumer).len() as u32;
    assert_eq!(rt;
        taken.done.saturating_add(left),
        one.done.saturating_add(two.done)
    );
    Ok(())
}

// What the rounds of one seat came to.
#[derive(Clone, Copy)]
struct Rings {
    raised: u32,
    rung: u32,
    quiet: u32,
    missed: u32,
    // The misses whose word does not show it.
    wrong: u32,
}

impl Rings {
    fn new() -> Rings {
        Rings {
            raised: 0,
            rung: 0,
            quiet: 0,
            missed: 0,
            wrong: 0,
        }
    }

    fn miss(&mut self, line: Line, found: u64) {
        self.missed = self.missed.saturating_add(1);
        if found & 1u64.wrapping_shl(u32::from(line.0)) != 0 {
            self.wrong = self.wrong.saturating_add(1);
        }
    }
}

// Raises one line and takes the lowest one, until one of two seats misses it.
fn raise_and_take(lines: &Lines, mut seat: LineSeat, over: &AtomicU64) -> (LineSeat, Rings)
    requires { seat.lines ≡ lines.now.id }
    ensures { (result.0.lines ≡ lines.now.id) × (result.0.part.number ≡ seat.part.number) }
{
    let mut rings = Rings::new();
    for _ in 0..ROUNDS {
        if over.load(Ordering::SeqCst) != 0 {
            break;
        }
        rings.raised = rings.raised.saturating_add(1);
        lines.raise(&mut seat, Line(5));
        match lines.take_lowest(&mut seat) {
            Rang::Rung(_) => rings.rung = rings.rung.saturating_add(1),
            Rang::Quiet => rings.quiet = rings.quiet.saturating_add(1),
            Rang::Missed { line, found } => {
                rings.miss(line, found);
                over.store(1, Ordering::SeqCst);
            }
        }
    }
    (seat, rings)
}

type Ringer = (LineSeat, Rings);

fn race_at_a_line<R: Threads>(
    rt: &R,
    lines: &Lines,
    first: LineSeat,
    second: LineSeat,
) -> (Ringer, Ringer)
    requires first { (first.lines ≡ lines.now.id) × (first.part.number ≡ 0) }
    requires second { (second.lines ≡ lines.now.id) × (second.part.number ≡ 1) }
    ensures first { (result.0.0.lines ≡ lines.now.id) × (result.0.0.part.number ≡ 0) }
    ensures second { (result.1.0.lines ≡ lines.now.id) × (result.1.0.part.number ≡ 1) }
{
    let over = AtomicU64::new(0);
    let over = &over;
    thread::join(
        rt,
        move || raise_and_take(lines, first, over),
        move || raise_and_take(lines, second, over),
    )
}

#[test]
fn a_seat_misses_a_line_only_where_the_other_took_it(rt: HostRuntime) -> Result<(), Fail> {
    let Ok((lines, mut seats)) = Lines::new(rt.alloc(), 2) else {
        panic!(rt; "memory")
    };
    let Some(second) = seats.pop() else {
        unreachable!()
    };
    let Some(first) = seats.pop() else {
        unreachable!()
    };
    let ((first, one), (second, two)) = race_at_a_line(&rt, &lines, first, second);
    for (mine, theirs) in [(one, two), (two, one)] {
        assert_eq!(rt; mine.wrong, 0);
        // The other took the line between this seat's raise and its take.
        let lost = mine.raised.saturating_sub(mine.rung);
        assert_eq!(rt; mine.quiet.saturating_add(mine.missed), lost);
        assert!(rt; lost <= theirs.rung);
    }
    seats.push(first)?;
    seats.push(second)?;
    assert_eq!(rt; lines.close(seats), 0);
    Ok(())
}

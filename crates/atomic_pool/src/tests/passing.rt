// Tickets that five threads pass on.
ghost use Rattle.std.specs.Prelude.{◌≡◌, ◌+◌, ◌<◌};
ghost use denote.Param.Send.{IsSync};
ghost use Rattle.atomic_pool.specs.InboxTold.{Holds};

use crate::{Claim, Claimed, Consumer, Inbox, Posting, Producer, Took};
use addr_base::{BoxId, ThreadId, Ticket};
use std::test::Fail;
use std::thread;
use std::thread::Threads;

const EACH: u32 = 2_500;

pub const TRIES: u32 = 100_000_000;

// What the tries of one thread came to. How many races it lost is by chance.
#[derive(Clone, Copy)]
pub struct Tally {
    // The tickets that it put or took.
    pub done: u32,
    // The races that it lost at a claim.
    pub claims_lost: u32,
    // The races that it lost at a put or a take.
    pub lost: u32,
    // The lost races whose words do not show it, and the tickets out of order.
    pub wrong: u32,
}

impl Tally {
    pub fn new() -> Tally {
        Tally {
            done: 0,
            claims_lost: 0,
            lost: 0,
            wrong: 0,
        }
    }

    fn lose_claim(&mut self, seen: u64, found: u64) {
        self.claims_lost = self.claims_lost.saturating_add(1);
        // The lowest free slot of the first word is not free in the second.
        let lowest = seen & seen.wrapping_neg();
        self.fail_unless(lowest != 0 && found & lowest == 0);
    }

    fn lose(&mut self, seen: u64, found: u64) {
        self.lost = self.lost.saturating_add(1);
        self.fail_unless(seen != found);
    }

    fn fail_unless(&mut self, right: bool) {
        if !right {
            self.wrong = self.wrong.saturating_add(1);
        }
    }
}

// Claims once, and where a slot is free puts the producer's next ticket into it.
pub fn put_next(inbox: &Inbox, seat: &mut Producer, thread: u8, tally: &mut Tally) -> bool
    requires of { seat.old.inbox ≡ inbox.now.id }
    requires thread { seat.old.part.number ≡ thread }
    ensures { (seat.new.inbox ≡ seat.old.inbox) × (seat.new.part.number ≡ seat.old.part.number) }
{
    match inbox.claim(seat) {
        Claimed::Claim(claim) => put_claimed(inbox, seat, claim, thread, tally),
        Claimed::Full(_) => false,
        Claimed::Again { seen, found } => {
            tally.lose_claim(seen, found);
            false
        }
    }
}

// Puts the producer's next ticket with the claim, again and again where the race is lost.
fn put_claimed(
    inbox: &Inbox,
    seat: &mut Producer,
    first: Claim,
    thread: u8,
    tally: &mut Tally,
) -> bool
    requires of { seat.old.inbox ≡ inbox.now.id }
    requires from { first.inbox.id ≡ inbox.now.id }
    requires held { Holds first seat.old }
    requires thread { seat.old.part.number ≡ thread }
    ensures { (seat.new.inbox ≡ seat.old.inbox) × (seat.new.part.number ≡ seat.old.part.number) }
{
    let ticket = Ticket {
        thread: ThreadId(thread),
        seq: tally.done,
    };
    let mut claim = first;
    for _ in 0..TRIES {
        match inbox.put(seat, claim, ticket) {
            Posting::Put => {
                tally.done = tally.done.saturating_add(1);
                return true;
            }
            Posting::Again {
                claim: again,
                seen,
                found,
            } => {
                tally.lose(seen, found);
                claim = again;
            }
        }
    }
    inbox.give_up(seat, claim);
    false
}

// Takes once.
pub fn take_next(inbox: &Inbox, seat: &mut Consumer, next: &mut [u32; 4], tally: &mut Tally) -> bool
    requires { seat.old.inbox ≡ inbox.now.id }
    ensures { seat.new.inbox ≡ seat.old.inbox }
{
    match inbox.take(seat) {
        Took::Taken(taken) => {
            tally.done = tally.done.saturating_add(1);
            tally.fail_unless(is_next(next, taken.retire()));
            true
        }
        Took::Vacant(_) => false,
        Took::Again { seen, found } => {
            tally.lose(seen, found);
            false
        }
    }
}

// Whether the ticket is the next one of its thread.
fn is_next(next: &mut [u32; 4], ticket: Ticket) -> bool {
    let from = ticket.thread.0 as usize;
    if from >= 4 || next[from] != ticket.seq {
        return false;
    }
    next[from] = next[from].saturating_add(1);
    true
}

// Puts so many tickets of one thread.
fn put_all(inbox: &Inbox, mut seat: Producer, thread: u8) -> (Producer, Tally)
    requires { (seat.inbox ≡ inbox.now.id) × (seat.part.number ≡ thread) }
    ensures { (result.0.inbox ≡ inbox.now.id) × (result.0.part.number ≡ thread) }
{
    let mut tally = Tally::new();
    for _ in 0..TRIES {
        if tally.done == EACH {
            break;
        }
        if !put_next(inbox, &mut seat, thread, &mut tally) {
            thread::yield_now();
        }
    }
    (seat, tally)
}

// Takes the tickets of all four threads.
fn take_all(inbox: &Inbox, mut seat: Consumer) -> (Consumer, Tally)
    requires { seat.inbox ≡ inbox.now.id }
    ensures { result.0.inbox ≡ inbox.now.id }
{
    let mut tally = Tally::new();
    let mut next = [0u32; 4];
    for _ in 0..TRIES {
        if tally.done == 4 * EACH {
            break;
        }
        if !take_next(inbox, &mut seat, &mut next, &mut tally) {
            thread::yield_now();
        }
    }
    (seat, tally)
}

// Two producers, each on a thread of its own.
fn put_on_two<R: Threads>(
    rt: &R,
    inbox: &Inbox,
    first: Producer,
    second: Producer,
    thread: u8,
) -> ((Producer, Tally), (Producer, Tally))
    requires few { thread < 4 }
    requires first { (first.inbox ≡ inbox.now.id) × (first.part.number ≡ thread) }
    requires second { (second.inbox ≡ inbox.now.id) × (second.part.number ≡ thread + 1) }
    ensures first { (result.0.0.inbox ≡ inbox.now.id) × (result.0.0.part.number ≡ thread) }
    ensures second { (result.1.0.inbox ≡ inbox.now.id) × (result.1.0.part.number ≡ thread + 1) }
{
    thread::join(
        rt,
        move || put_all(inbox, first, thread),
        move || put_all(inbox, second, thread + 1),
    )
}

// Two producers and the consumer, each on a thread of its own.
fn put_and_take<R: Threads + Sync>(
    rt: &R,
    inbox: &Inbox,
    third: Producer,
    fourth: Producer,
    consumer: Consumer,
) -> (((Producer, Tally), (Producer, Tally)), (Consumer, Tally))
    requires third { (third.inbox ≡ inbox.now.id) × (third.part.number ≡ 2) }
    requires fourth { (fourth.inbox ≡ inbox.now.id) × (fourth.part.number ≡ 3) }
    requires consumer { consumer.inbox ≡ inbox.now.id }
    ensures third { (result.0.0.0.inbox ≡ inbox.now.id) × (result.0.0.0.part.number ≡ 2) }
    ensures fourth { (result.0.1.0.inbox ≡ inbox.now.id) × (result.0.1.0.part.number ≡ 3) }
    ensures consumer { result.1.0.inbox ≡ inbox.now.id }
{
    thread::join(
        rt,
        move || put_on_two(rt, inbox, third, fourth, 2),
        move || take_all(inbox, consumer),
    )
}

pub type Putter = (Producer, Tally);

pub type Taker = (Consumer, Tally);

// All five, each on a thread of its own.
fn pass_on<R: Threads + Sync>(
    rt: &R,
    inbox: &Inbox,
    firsts: (Producer, Producer),
    lasts: (Producer, Producer),
    consumer: Consumer,
) -> ((Putter, Putter), ((Putter, Putter), Taker))
    requires first { (firsts.0.inbox ≡ inbox.now.id) × (firsts.0.part.number ≡ 0) }
    requires second { (firsts.1.inbox ≡ inbox.now.id) × (firsts.1.part.number ≡ 1) }
    requires third { (lasts.0.inbox ≡ inbox.now.id) × (lasts.0.part.number ≡ 2) }
    requires fourth { (lasts.1.inbox ≡ inbox.now.id) × (lasts.1.part.number ≡ 3) }
    requires consumer { consumer.inbox ≡ inbox.now.id }
    ensures first { (result.0.0.0.inbox ≡ inbox.now.id) × (result.0.0.0.part.number ≡ 0) }
    ensures second { (result.0.1.0.inbox ≡ inbox.now.id) × (result.0.1.0.part.number ≡ 1) }
    ensures third { (result.1.0.0.0.inbox ≡ inbox.now.id) × (result.1.0.0.0.part.number ≡ 2) }
    ensures fourth { (result.1.0.1.0.inbox ≡ inbox.now.id) × (result.1.0.1.0.part.number ≡ 3) }
    ensures consumer { result.1.1.0.inbox ≡ inbox.now.id }
{
    let (first, second) = firsts;
    let (third, fourth) = lasts;
    thread::join(
        rt,
        move || put_on_two(rt, inbox, first, second, 0),
        move || -> ((Putter, Putter), Taker)
            requires { IsSync R.row
                × (third.inbox ≡ inbox.now.id) × (third.part.number ≡ 2)
                × (fourth.inbox ≡ inbox.now.id) × (fourth.part.number ≡ 3)
                × (consumer.inbox ≡ inbox.now.id) }
        { put_and_take(rt, inbox, third, fourth, consumer) },
    )
}

#[test]
fn four_producers_and_a_consumer_pass_ten_thousand_tickets(rt: HostRuntime) -> Result<(), Fail> {
    let Ok((inbox, mut seats, consumer)) = Inbox::new(rt.alloc(), BoxId(0), 4) else {
        panic!(rt; "memory")
    };
    let Some(fourth) = seats.pop() else {
        unreachable!()
    };
    let Some(third) = seats.pop() else {
        unreachable!()
    };
    let Some(second) = seats.pop() else {
        unreachable!()
    };
    let Some(first) = seats.pop() else {
        unreachable!()
    };
    let (low, (high, taker)) = pass_on(&rt, &inbox, (first, second), (third, fourth), consumer);
    let ((first, one), (second, two)) = low;
    let ((third, three), (fourth, four)) = high;
    let (consumer, taken) = taker;
    for put in [one, two, three, four] {
        assert_eq!(rt; (put.done, put.wrong), (2_500, 0));
        // Another took the slot, 7,500 times at most; another put or took, 17,500 times at most.
        assert!(rt; put.claims_lost <= 7_500 && put.lost <= 17_500);
    }
    assert_eq!(rt; (taken.done, taken.wrong), (10_000, 0));
    // Another put, 10,000 times at most.
    assert!(rt; taken.lost <= 10_000);
    seats.push(first)?;
    seats.push(second)?;
    seats.push(third)?;
    seats.push(fourth)?;
    assert_eq!(rt; inbox.close(seats, consumer).len(), 0);
    Ok(())
}

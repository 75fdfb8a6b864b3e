ghost use Rattle.std.specs.Prelude.{◌≡◌, ◌<◌, ◌+◌, ◌^◌};
ghost use Rattle.atomic_pool.specs.Queue.{without};
ghost use Rattle.atomic_pool.specs.InboxTold.{Holds};

use crate::{Claim, Claimed, Consumer, Inbox, Posting, Producer, Took};
use addr_base::{BoxId, ThreadId, Ticket};
use std::test::Fail;

// What a row of claims came to.
#[derive(Clone, Copy)]
struct Filled {
    claims: u32,
    held: u32,
    other_held: u32,
    put: bool,
}

const UNFILLED: Filled = Filled {
    claims: 0,
    held: 99,
    other_held: 99,
    put: false,
};

// Claims until the answer is full, asks for the other seat then, and gives all up again.
#[cycle(fills)]
fn fill(inbox: &Inbox, seat: &mut Producer, other: &mut Producer, most: u32) -> Filled
    requires seat { seat.old.inbox ≡ inbox.now.id }
    requires other { other.old.inbox ≡ inbox.now.id }
    ensures seat { (seat.new.inbox ≡ seat.old.inbox) × (seat.new.part.number ≡ seat.old.part.number)
        × (seat.new.part.held ≡ seat.old.part.held) }
    ensures other { (other.new.inbox ≡ other.old.inbox)
        × (other.new.part.number ≡ other.old.part.number) }
{
    let mut filled = UNFILLED;
    if most == 0 {
        return filled;
    }
    match inbox.claim(seat) {
        Claimed::Claim(claim) => {
            let more = fill(inbox, seat, other, most - 1);
            inbox.give_up(seat, claim);
            Filled {
                claims: more.claims.saturating_add(1),
                held: more.held,
                other_held: more.other_held,
                put: false,
            }
        }
        Claimed::Full(full) => {
            filled.held = full.held();
            filled.other_held = held_when_full(inbox, other);
            filled
        }
        Claimed::Again { seen: _, found: _ } => filled,
    }
}

// What the full answer says that the seat held.
fn held_when_full(inbox: &Inbox, seat: &mut Producer) -> u32
    requires { seat.old.inbox ≡ inbox.now.id }
    ensures { (seat.new.inbox ≡ seat.old.inbox) × (seat.new.part.number ≡ seat.old.part.number) }
{
    match inbox.claim(seat) {
        Claimed::Claim(claim) => {
            inbox.give_up(seat, claim);
            98
        }
        Claimed::Full(full) => full.held(),
        Claimed::Again { seen: _, found: _ } => 97,
    }
}

// Claims until the answer is full, puts a ticket by the last claim, and gives the others up.
#[cycle(puts)]
fn fill_and_put(inbox: &Inbox, seat: &mut Producer, most: u32) -> Filled
    requires of { seat.old.inbox ≡ inbox.now.id }
    requires thread { seat.old.part.number ≡ 0 }
    ensures { (seat.new.inbox ≡ seat.old.inbox) × (seat.new.part.number ≡ seat.old.part.number)
        × (seat.new.part.held ≡ seat.old.part.held) }
{
    let mut filled = UNFILLED;
    if most == 0 {
        return filled;
    }
    match inbox.claim(seat) {
        Claimed::Claim(claim) => {
            let more = fill_and_put(inbox, seat, most - 1);
            let put = put_or_give_up(inbox, seat, claim, more.claims == 0);
            Filled {
                claims: more.claims.saturating_add(1),
                held: more.held,
                other_held: 99,
                put: more.put | put,
            }
        }
        Claimed::Full(full) => {
            filled.held = full.held();
            filled
        }
        Claimed::Again { seen: _, found: _ } => filled,
    }
}

// Spends a claim of thread 0, and tells whether its ticket was put.
fn put_or_give_up(inbox: &Inbox, seat: &mut Producer, claim: Claim, put: bool) -> bool
    requires of { seat.old.inbox ≡ inbox.now.id }
    requires from { claim.inbox.id ≡ inbox.now.id }
    requires held { Holds claim seat.old }
    requires thread { seat.old.part.number ≡ 0 }
    ensures { (seat.new.inbox ≡ seat.old.inbox) × (seat.new.part.number ≡ seat.old.part.number)
        × (seat.new.part.held ≡ without claim.slot seat.old.part.held) }
{
    if !put {
        inbox.give_up(seat, claim);
        return false;
    }
    match inbox.put(seat, claim, ticket(0, 1)) {
        Posting::Put => true,
        Posting::Again {
            claim,
            seen: _,
            found: _,
        } => {
            inbox.give_up(seat, claim);
            false
        }
    }
}

// Puts a ticket of the seat's own thread, where a slot is free and nobody else puts in between.
fn put_one(inbox: &Inbox, seat: &mut Producer, thread: u8, seq: u32) -> bool
    requires of { seat.old.inbox ≡ inbox.now.id }
    requires thread { seat.old.part.number ≡ thread }
    ensures { (seat.new.inbox ≡ seat.old.inbox) × (seat.new.part.number ≡ seat.old.part.number) }
{
    let claim = match inbox.claim(seat) {
        Claimed::Claim(claim) => claim,
        Claimed::Full(_) => return false,
        Claimed::Again { seen: _, found: _ } => return false,
    };
    match inbox.put(seat, claim, ticket(thread, seq)) {
        Posting::Put => true,
        Posting::Again {
            claim,
            seen: _,
            found: _,
        } => {
            inbox.give_up(seat, claim);
            false
        }
    }
}

// The first ticket, where there is one.
fn take_one(inbox: &Inbox, seat: &mut Consumer) -> Option<Ticket>
    requires { seat.old.inbox ≡ inbox.now.id }
    ensures { seat.new.inbox ≡ seat.old.inbox }
{
    match inbox.take(seat) {
        Took::Taken(taken) => Some(taken.retire()),
        Took::Vacant(_) => None,
        Took::Again { seen: _, found: _ } => None,
    }
}

// Whether no ticket is queued; a ticket that is there is taken.
fn is_vacant(inbox: &Inbox, seat: &mut Consumer) -> bool
    requires { seat.old.inbox ≡ inbox.now.id }
    ensures { seat.new.inbox ≡ seat.old.inbox }
{
    match inbox.take(seat) {
        Took::Taken(taken) => {
            taken.retire();
            false
        }
        Took::Vacant(_) => true,
        Took::Again { seen: _, found: _ } => false,
    }
}

fn ticket(thread: u8, seq: u32) -> Ticket
    ensures { result.thread.0 ≡ thread }
{
    Ticket {
        thread: ThreadId(thread),
        seq,
    }
}

#[test]
fn a_ninth_claim_finds_no_slot_free(rt: HostRuntime) -> Result<(), Fail> {
    let Ok((inbox, mut seats, mut consumer)) = Inbox::new(rt.alloc(), BoxId(0), 1) else {
        panic!(rt; "memory")
    };
    let Some(mut seat) = seats.pop() else {
        unreachable!()
    };
    let filled = fill_and_put(&inbox, &mut seat, 20);
    assert_eq!(rt; (filled.claims, filled.held, filled.put), (8, 8, true));
    let taken = take_one(&inbox, &mut consumer);
    let vacant = is_vacant(&inbox, &mut consumer);
    assert_eq!(rt; (taken, vacant), (Some(ticket(0, 1)), true));
    Ok(())
}

#[test]
fn a_slot_given_up_is_free_again(rt: HostRuntime) -> Result<(), Fail> {
    let Ok((inbox, mut seats, _)) = Inbox::new(rt.alloc(), BoxId(0), 1) else {
        panic!(rt; "memory")
    };
    let Some(mut seat) = seats.pop() else {
        unreachable!()
    };
    // One claim that is given up leaves all eight slots.
    assert_eq!(rt; held_when_full(&inbox, &mut seat), 98);
    let filled = fill_and_put(&inbox, &mut seat, 20);
    assert_eq!(rt; (filled.claims, filled.held), (8, 8));
    Ok(())
}

#[test]
fn a_full_inbox_tells_what_each_seat_holds(rt: HostRuntime) -> Result<(), Fail> {
    let Ok((inbox, mut seats, _)) = Inbox::new(rt.alloc(), BoxId(2), 2) else {
        panic!(rt; "memory")
    };
    let Some(mut second) = seats.pop() else {
        unreachable!()
    };
    let Some(mut first) = seats.pop() else {
        unreachable!()
    };
    let filled = fill(&inbox, &mut second, &mut first, 20);
    assert_eq!(rt; (filled.claims, filled.held, filled.other_held), (8, 8, 0));
    Ok(())
}

#[test]
fn tickets_come_out_in_the_order_put(rt: HostRuntime) -> Result<(), Fail> {
    let Ok((inbox, mut seats, mut consumer)) = Inbox::new(rt.alloc(), BoxId(0), 2) else {
        panic!(rt; "memory")
    };
    let Some(mut second) = seats.pop() else {
        unreachable!()
    };
    let Some(mut first) = seats.pop() else {
        unreachable!()
    };
    let put = put_one(&inbox, &mut first, 0, 1)
        && put_one(&inbox, &mut second, 1, 1)
        && put_one(&inbox, &mut first, 0, 2);
    assert!(rt; put);
    let one = take_one(&inbox, &mut consumer);
    let two = take_one(&inbox, &mut consumer);
    let three = take_one(&inbox, &mut consumer);
    let wanted = (Some(ticket(0, 1)), Some(ticket(1, 1)), Some(ticket(0, 2)));
    assert_eq!(rt; (one, two, three), wanted);
    Ok(())
}

#[test]
fn close_answers_what_is_left_in_order(rt: HostRuntime) -> Result<(), Fail> {
    let Ok((inbox, mut seats, mut consumer)) = Inbox::new(rt.alloc(), BoxId(0), 2) else {
        panic!(rt; "memory")
    };
    let Some(mut second) = seats.pop() else {
        unreachable!()
    };
    let Some(mut first) = seats.pop() else {
        unreachable!()
    };
    let put = put_one(&inbox, &mut first, 0, 1)
        && put_one(&inbox, &mut second, 1, 1)
        && put_one(&inbox, &mut first, 0, 2);
    let one = take_one(&inbox, &mut consumer);
    seats.push(second)?;
    seats.push(first)?;
    let left = inbox.close(seats, consumer);
    assert_eq!(rt; (put, one), (true, Some(ticket(0, 1))));
    assert_eq!(rt; left.as_slice(), [ticket(1, 1), ticket(0, 2)].as_slice());
    Ok(())
}

#[test]
fn each_answer_names_the_box_of_its_inbox(rt: HostRuntime) -> Result<(), Fail> {
    // One slot, so that a second claim finds none.
    let Ok((inbox, mut seats, mut consumer)) = Inbox::of_slots(rt.alloc(), BoxId(3), 1, 1) else {
        panic!(rt; "memory")
    };
    let Some(mut seat) = seats.pop() else {
        unreachable!()
    };
    let claim = match inbox.claim(&mut seat) {
        Claimed::Claim(claim) => claim,
        Claimed::Full(_) => panic!(rt; "the slot is free"),
        Claimed::Again { seen: _, found: _ } => panic!(rt; "nobody else claims"),
    };
    assert_eq!(rt; claim.inbox(), BoxId(3));
    match inbox.claim(&mut seat) {
        Claimed::Claim(again) => {
            inbox.give_up(&mut seat, again);
            panic!(rt; "there is one slot")
        }
        Claimed::Full(full) => assert_eq!(rt; (full.inbox(), full.held()), (BoxId(3), 1)),
        Claimed::Again { seen: _, found: _ } => panic!(rt; "nobody else claims"),
    }
    assert!(rt; put_or_give_up(&inbox, &mut seat, claim, true));
    match inbox.take(&mut consumer) {
        Took::Taken(taken) => {
            assert_eq!(rt; (taken.inbox(), taken.ticket()), (BoxId(3), ticket(0, 1)));
            assert_eq!(rt; taken.retire(), ticket(0, 1));
        }
        Took::Vacant(_) => panic!(rt; "a ticket is queued"),
        Took::Again { seen: _, found: _ } => panic!(rt; "nobody else puts"),
    }
    match inbox.take(&mut consumer) {
        Took::Taken(taken) => {
            taken.retire();
            panic!(rt; "one ticket was put")
        }
        Took::Vacant(vacant) => assert_eq!(rt; vacant.inbox(), BoxId(3)),
        Took::Again { seen: _, found: _ } => panic!(rt; "nobody else puts"),
    }
    Ok(())
}

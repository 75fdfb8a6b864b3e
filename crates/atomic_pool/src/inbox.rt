//! An inbox of call tickets. Word 0 has bit i set where slot i is free. Word 1 has the queued
//! slots, each plus 1 in four bits, the first slot in the lowest. Word 2 + i has the ticket of
//! slot i, its thread in the high half.
use crate::seen::Seen;
use addr_base::{BoxId, Ticket};
use atomic_table::{Seat, Table, TableRule};
use std::alloc::Global;
use std::collections::LinkedList;
use std::marker::Model;
use std::snapshot::Snapshot;

/// What a seat at an inbox knows. No value of it is made.
pub struct InboxPart {
    /// The producer's number, or for the consumer the count of producers.
    pub number: u32,
    /// How many producers the inbox has.
    pub producers: u32,
    /// How many slots the inbox has.
    pub slots: u32,
    /// The tickets that the producer put, or that the consumer took, in order.
    pub list: LinkedList<u64>,
    /// The slots that the seat holds.
    pub held: LinkedList<u64>,
    /// The slot and the ticket of its last swap, until that slot is queued or given up.
    pub last: Option<(u64, u64)>,
    /// The first slot of the queue that the consumer last loaded, until its exchange.
    pub head: Option<u64>,
    /// The ticket that the consumer read in that slot, until its exchange.
    pub peeked: Option<u64>,
    /// What it read of the word of free slots.
    pub free: Seen,
    /// What it read of the word of queued slots.
    pub queue: Seen,
}

/// How many producers and slots an inbox has.
#[derive(Drop)]
pub struct InboxKey {
    pub(crate) producers: u32,
    pub(crate) slots: u32,
}

/// The rule of an inbox.
pub struct InboxKept;

impl TableRule<(), LinkedList<InboxPart>, InboxKey> for InboxKept {
    ghost use Rattle.std.specs.Prelude.{suc};
    ghost use Rattle.shared_views.specs.Views.{made_from};
    ghost use Rattle.atomic_pool.specs.InboxRule.{InboxRule};
    ghost use Rattle.atomic_pool.specs.InboxParts.{fresh_part};

    ghost holds = { λ key. InboxRule key.producers key.slots };

    ghost first = { λ key. made_from (fresh_part key.producers key.slots) 0 (suc key.producers) };
}

/// An inbox, which threads share.
#[derive(Drop)]
pub struct Inbox {
    pub(crate) table: Table<(), LinkedList<InboxPart>, InboxKey, InboxKept, Global>,
    pub(crate) of: BoxId,
}

impl Model for Inbox {
    ghost use Rattle.atomic_pool.specs.InboxSeats.{InboxValue, IsInbox};

    ghost Value = { InboxValue };

    ghost view = { λ a. record {
      id = a.table.shared.table_id;
      of = a.of;
      producers = a.table.shared.key.producers;
      slots = a.table.shared.key.slots;
    } };

    ghost invariant = { λ a. IsInbox a.table.shared.table_id a.table.shared.key.producers
        a.table.shared.key.slots };
}

/// The right to put tickets into one inbox, of one thread.
#[derive(Drop)]
pub struct Producer {
    pub(crate) seat: Seat<(), LinkedList<InboxPart>>,
    pub(crate) number: u32,
    pub(crate) held: u32,
}

impl Model for Producer {
    ghost use Rattle.atomic_pool.specs.InboxSeats.{SeatValue, IsProducer};
    ghost use Rattle.atomic_pool.specs.InboxParts.{only_part};

    ghost Value = { SeatValue };

    ghost view = { λ a. record { inbox = a.seat.table_id; part = only_part a.seat.me.0 } };

    ghost invariant = { λ a. IsProducer a.seat.table_id a.number a.held a.seat.me };
}

/// The right to take tickets from one inbox, of one thread.
#[derive(Drop)]
pub struct Consumer {
    pub(crate) seat: Seat<(), LinkedList<InboxPart>>,
}

impl Model for Consumer {
    ghost use Rattle.atomic_pool.specs.InboxSeats.{SeatValue, IsConsumer};
    ghost use Rattle.atomic_pool.specs.InboxParts.{only_part};

    ghost Value = { SeatValue };

    ghost view = { λ a. record { inbox = a.seat.table_id; part = only_part a.seat.me.0 } };

    ghost invariant = { λ a. IsConsumer a.seat.table_id a.seat.me };
}

/// A slot that a producer holds. It has to be spent, by a put or by giving it up.
pub struct Claim {
    pub(crate) slot: u32,
    pub(crate) number: u32,
    pub(crate) of: BoxId,
    pub(crate) from: Snapshot<Inbox>,
}

impl Model for Claim {
    ghost use Rattle.std.specs.Prelude.{◌≡◌, ◌+◌, ◌<◌};
    ghost use Rattle.atomic_pool.specs.InboxSeats.{ClaimValue};

    ghost Value = { ClaimValue };

    ghost view = { λ a. record { inbox = a.from.value; number = a.number; slot = a.slot } };

    ghost invariant = { λ a. (a.of ≡ a.from.value.of) × (a.slot < 15)
        × (2 + a.slot < a.from.value.id.words) };
}

/// No slot of the inbox was free.
#[derive(Drop)]
pub struct Full {
    pub(crate) held: u32,
    pub(crate) of: BoxId,
    pub(crate) from: Snapshot<Inbox>,
}

impl Model for Full {
    ghost use Rattle.std.specs.Prelude.{◌≡◌};
    ghost use Rattle.atomic_pool.specs.InboxSeats.{FullValue};

    ghost Value = { FullValue };

    ghost view = { λ a. record { inbox = a.from.value; held = a.held } };

    ghost invariant = { λ a. a.of ≡ a.from.value.of };
}

/// No ticket was queued in the inbox.
#[derive(Drop)]
pub struct Vacant {
    pub(crate) of: BoxId,
    pub(crate) from: Snapshot<Inbox>,
}

impl Model for Vacant {
    ghost use Rattle.std.specs.Prelude.{◌≡◌};
    ghost use Rattle.atomic_pool.specs.InboxSeats.{VacantValue};

    ghost Value = { VacantValue };

    ghost view = { λ a. record { inbox = a.from.value } };

    ghost invariant = { λ a. a.of ≡ a.from.value.of };
}

/// A ticket that was taken from the inbox. It has to be spent, by retiring it.
pub struct Taken {
    pub(crate) ticket: Ticket,
    pub(crate) of: BoxId,
    pub(crate) from: Snapshot<Inbox>,
}

impl Model for Taken {
    ghost use Rattle.std.specs.Prelude.{◌≡◌};
    ghost use Rattle.atomic_pool.specs.InboxSeats.{TakenValue};

    ghost Value = { TakenValue };

    ghost view = { λ a. record { inbox = a.from.value; ticket = a.ticket } };

    ghost invariant = { λ a. a.of ≡ a.from.value.of };
}

/// What a claim found.
pub enum Claimed {
    /// A slot.
    Claim(Claim),
    /// No slot is free.
    Full(Full),
    /// Another producer took the lowest free slot of the word `seen` in between, and `found` is
    /// the word then.
    Again { seen: u64, found: u64 },
}

/// What a put did.
pub enum Posting {
    /// The ticket is queued.
    Put,
    /// The queue changed from `seen` to `found` in between, and nothing is queued.
    Again { claim: Claim, seen: u64, found: u64 },
}

/// What a take found.
pub enum Took {
    /// The first ticket of the queue, which is queued no more.
    Taken(Taken),
    /// No ticket is queued.
    Vacant(Vacant),
    /// The queue changed from `seen` to `found` in between, and nothing is taken.
    Again { seen: u64, found: u64 },
}

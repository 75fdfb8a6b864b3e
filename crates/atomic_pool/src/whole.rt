//! How an inbox is made and how it ends.
ghost use Rattle.std.specs.Prelude.{◌≡◌, ◌+◌, ◌-◌, ◌^◌, ◌≤◌, List, ℕ, map, length, slice_index, IfOk};
ghost use Rattle.std.specs.Slots.{IsFull, slots_items};
ghost use Rattle.atomic_pool.specs.Tickets.{code};
ghost use Rattle.atomic_pool.specs.Queue.{IsQueue, tickets};

use crate::inbox::{Consumer, Inbox, InboxKey, Producer};
use crate::plays::{AllParts, FirstPart};
use crate::queue::ticket_of;
use addr_base::{BoxId, OutOfMemory, Ticket};
use arrayvec::ArrayVec;
use atomic_table::{Closed, Table};
use std::alloc::Global;

/// How many slots a new inbox has.
const SLOTS: u32 = 8;

impl Inbox {
    ghost use Rattle.std.specs.Prelude.{◌≡◌, ◌≤◌, IfOk};
    ghost use Rattle.atomic_pool.specs.InboxTold.{AreFresh, AreAll, IsLeft};

    /// An inbox of the box with eight free slots, for 1 to 256 producers; producer k has number k.
    pub fn new(
        alloc: Global,
        of: BoxId,
        producers: u32,
    ) -> Result<(Inbox, Vec<Producer>, Consumer), OutOfMemory>
        requires some { 1 ≤ producers }
        requires few { producers ≤ 256 }
        ensures ok { IfOk result (λ made. AreFresh of producers 8 made.0 made.1.items made.2) }
    {
        Inbox::of_slots(alloc, of, producers, SLOTS)
    }

    /// The same with so many slots.
    pub(crate) fn of_slots(
        alloc: Global,
        of: BoxId,
        producers: u32,
        slots: u32,
    ) -> Result<(Inbox, Vec<Producer>, Consumer), OutOfMemory>
        requires some { 1 ≤ producers }
        requires few { producers ≤ 256 }
        requires small { slots ≤ 8 }
        ensures ok { IfOk result (λ made. AreFresh of producers slots made.0 made.1.items made.2) }
    {
        let mut made = Vec::with_capacity(alloc, producers as usize)?;
        let words = opening_words(alloc, slots)?;
        let key = InboxKey { producers, slots };
        let (table, mut rest) = Table::of_words(alloc, words.as_slice(), &key)?;
        for number in 0..producers {
            let seat = table.shared.split_seat::<FirstPart>(&mut rest);
            made.push_reserved(Producer {
                seat,
                number,
                held: 0,
            });
        }
        Ok((Inbox { table, of }, made, Consumer { seat: rest }))
    }

    /// The tickets that are still queued, in order, when all seats are given back.
    pub fn close(self, mut producers: Vec<Producer>, consumer: Consumer) -> ArrayVec<Ticket, 8>
        requires all { AreAll self producers.items consumer }
        ensures { IsLeft self result.items producers.items consumer }
    {
        let Inbox { table, of: _ } = self;
        let Consumer { seat: mut all } = consumer;
        while let Some(next) = producers.pop() {
            let Producer {
                seat,
                number: _,
                held: _,
            } = next;
            table.shared.join_seat::<AllParts>(&mut all, seat);
        }
        let closed = table.close_with(all);
        let left = queued(&closed);
        closed.free();
        left
    }
}

// The words of an inbox whose slots are all free.
fn opening_words(alloc: Global, slots: u32) -> Result<Vec<u64>, OutOfMemory>
    requires small { slots ≤ 8 }
    ensures length { IfOk result (λ w. length w.items ≡ 2 + slots) }
    ensures free { IfOk result (λ w. slice_index w.items 0 ≡ 2 ^ slots - 1) }
    ensures empty { IfOk result (λ w. slice_index w.items 1 ≡ 0) }
{
    let mut words = Vec::from_elem(alloc, 0, 2 + slots as usize)?;
    words[0] = (1 << slots) - 1;
    Ok(words)
}

// The tickets of the queue at the end.
fn queued(closed: &Closed<(), Global>) -> ArrayVec<Ticket, 8>
    requires full { IsFull closed.now.words }
    requires queue { (q : List ℕ) × IsQueue (slots_items closed.now.words) q }
    ensures { (q : List ℕ) → IsQueue (slots_items closed.now.words) q
        → map code result.items ≡ tickets (slots_items closed.now.words) q }
{
    let mut left = ArrayVec::new();
    let mut rest = closed.word(1);
    while rest != 0 {
        let slot = (rest % 16) as usize - 1;
        left.push(ticket_of(closed.word(2 + slot)));
        rest /= 16;
    }
    left
}

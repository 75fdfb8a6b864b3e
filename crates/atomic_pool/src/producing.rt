//! What a producer does at an inbox.
use crate::bits::{has_bit, lowest, mask};
use crate::inbox::{Claim, Claimed, Full, Inbox, Posting, Producer};
use crate::plays::{Enqueue, FreeSlot, LookFree, LookQueue, Swap, TakeSlot};
use crate::queue::{first_gap, word_of};
use addr_base::{BoxId, Ticket};
use std::snapshot::Snapshot;

impl Inbox {
    ghost use Rattle.std.specs.Prelude.{◌≡◌};
    ghost use Rattle.atomic_pool.specs.InboxTold.{HasClaimed, Holds, HasPosted, HasGivenUp};

    /// Takes the lowest free slot.
    pub fn claim(&self, seat: &mut Producer) -> Claimed
        requires of { seat.old.inbox ≡ self.now.id }
        ensures { HasClaimed self.now seat.old result seat.new }
    {
        let (of, from) = (self.of, Snapshot::of(self));
        let seen = self.table.shared.load::<LookFree>(&mut seat.seat, 0);
        if seen == 0 {
            return Claimed::Full(Full {
                held: seat.held,
                of,
                from,
            });
        }
        let slot = lowest(seen);
        let rest = !mask(slot);
        let found = self
            .table
            .shared
            .fetch_and::<TakeSlot>(&mut seat.seat, 0, rest);
        if has_bit(found, slot) {
            seat.held += 1;
            let number = seat.number;
            Claimed::Claim(Claim {
                slot,
                number,
                of,
                from,
            })
        } else {
            Claimed::Again { seen, found }
        }
    }

    /// Gives the slot back, so that it is free again.
    pub fn give_up(&self, seat: &mut Producer, claim: Claim)
        requires of { seat.old.inbox ≡ self.now.id }
        requires from { claim.inbox.id ≡ self.now.id }
        requires held { Holds claim seat.old }
        ensures { HasGivenUp claim seat.old seat.new }
    {
        let Claim {
            slot,
            number: _,
            of: _,
            from: _,
        } = claim;
        let bit = mask(slot);
        self.table
            .shared
            .fetch_or::<FreeSlot>(&mut seat.seat, 0, bit);
        seat.held -= 1;
    }

    /// Puts the ticket into the slot, behind those that are queued.
    pub fn put(&self, seat: &mut Producer, claim: Claim, ticket: Ticket) -> Posting
        requires of { seat.old.inbox ≡ self.now.id }
        requires from { claim.inbox.id ≡ self.now.id }
        requires held { Holds claim seat.old }
        requires thread { ticket.thread.0 ≡ seat.old.part.number }
        ensures { HasPosted claim ticket seat.old result seat.new }
    {
        let slot = claim.slot;
        let shared = &self.table.shared;
        let at = 2 + slot as usize;
        let code = word_of(ticket);
        shared.swap::<Swap>(&mut seat.seat, at, code);
        let seen = shared.load::<LookQueue>(&mut seat.seat, 1);
        let more = (u64::from(slot) + 1) * first_gap(seen);
        let found = shared.compare_exchange::<Enqueue>(&mut seat.seat, 1, seen, seen + more);
        if found == seen {
            let Claim {
                slot: _,
                number: _,
                of: _,
                from: _,
            } = claim;
            seat.held -= 1;
            Posting::Put
        } else {
            Posting::Again { claim, seen, found }
        }
    }
}

impl Claim {
    ghost use Rattle.std.specs.Prelude.{◌≡◌};

    /// The box of the inbox.
    pub fn inbox(&self) -> BoxId
        ensures { result ≡ self.now.inbox.of }
    {
        self.of
    }
}

impl Full {
    ghost use Rattle.std.specs.Prelude.{◌≡◌};

    /// The box of the inbox.
    pub fn inbox(&self) -> BoxId
        ensures { result ≡ self.now.inbox.of }
    {
        self.of
    }

    /// How many slots of the inbox the seat held when none was free.
    pub fn held(&self) -> u32
        ensures { result ≡ self.now.held }
    {
        self.held
    }
}

//! What a consumer does at an inbox.
use crate::bits::mask;
use crate::inbox::{Consumer, Inbox, Taken, Took, Vacant};
use crate::plays::{Dequeue, FreeSlot, LookHead, Peek};
use crate::queue::ticket_of;
use addr_base::{BoxId, Ticket};
use std::snapshot::Snapshot;

impl Inbox {
    ghost use Rattle.std.specs.Prelude.{◌≡◌};
    ghost use Rattle.atomic_pool.specs.InboxTold.{HasTook};

    /// Takes the first ticket of the queue, and frees its slot.
    pub fn take(&self, seat: &mut Consumer) -> Took
        requires of { seat.old.inbox ≡ self.now.id }
        ensures { HasTook self.now seat.old result seat.new }
    {
        let (of, from) = (self.of, Snapshot::of(self));
        let shared = &self.table.shared;
        let seen = shared.load::<LookHead>(&mut seat.seat, 1);
        if seen == 0 {
            return Took::Vacant(Vacant { of, from });
        }
        let slot = (seen % 16) as u32 - 1;
        let code = shared.load::<Peek>(&mut seat.seat, 2 + slot as usize);
        let found = shared.compare_exchange::<Dequeue>(&mut seat.seat, 1, seen, seen / 16);
        if found == seen {
            shared.fetch_or::<FreeSlot>(&mut seat.seat, 0, mask(slot));
            let ticket = ticket_of(code);
            Took::Taken(Taken { ticket, of, from })
        } else {
            Took::Again { seen, found }
        }
    }
}

impl Vacant {
    ghost use Rattle.std.specs.Prelude.{◌≡◌};

    /// The box of the inbox.
    pub fn inbox(&self) -> BoxId
        ensures { result ≡ self.now.inbox.of }
    {
        self.of
    }
}

impl Taken {
    ghost use Rattle.std.specs.Prelude.{◌≡◌};

    /// The box of the inbox.
    pub fn inbox(&self) -> BoxId
        ensures { result ≡ self.now.inbox.of }
    {
        self.of
    }

    /// The ticket.
    pub fn ticket(&self) -> Ticket
        ensures { result ≡ self.now.ticket }
    {
        self.ticket
    }

    /// Spends it for the ticket.
    pub fn retire(self) -> Ticket
        ensures { result ≡ self.ticket }
    {
        let Taken {
            ticket,
            of: _,
            from: _,
        } = self;
        ticket
    }
}

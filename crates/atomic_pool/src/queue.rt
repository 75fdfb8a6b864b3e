// A queue of slots and a ticket as words.
ghost use Rattle.std.specs.Prelude.{◌≡◌, ◌^◌, length, List, ℕ, ◌<◌};
ghost use Rattle.atomic_pool.specs.Queue.{AreSlots, HasRoom, encode};
ghost use Rattle.atomic_pool.specs.Tickets.{code, thread_of};

use addr_base::{ThreadId, Ticket};

// 16 to the number of slots in the queue.
pub(crate) fn first_gap(word: u64) -> u64
    requires { HasRoom word }
    ensures { (q : List ℕ) → AreSlots q → word ≡ encode q → result ≡ 16 ^ length q }
{
    let mut gap = 1;
    let mut rest = word;
    while rest != 0 {
        rest /= 16;
        gap *= 16;
    }
    gap
}

// The ticket as a word.
pub(crate) fn word_of(ticket: Ticket) -> u64
    ensures word { result ≡ code ticket }
    ensures thread { thread_of result ≡ ticket.thread.0 }
{
    u64::from(ticket.thread.0) * 0x1_0000_0000 + u64::from(ticket.seq)
}

// The ticket that the word is of.
pub(crate) fn ticket_of(word: u64) -> Ticket
    requires { thread_of word < 256 }
    ensures { code result ≡ word }
{
    Ticket {
        thread: ThreadId((word / 0x1_0000_0000) as u8),
        seq: (word % 0x1_0000_0000) as u32,
    }
}

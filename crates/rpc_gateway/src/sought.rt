ghost use Rattle.std.specs.Prelude.{◌≡◌, ◌<◌, ◌≤◌, All, find, length};
ghost use Rattle.flat_model.specs.Calls as call_words;
ghost use Rattle.index_list.specs.Arena.{list_at};
ghost use Rattle.rpc_gateway.specs.Places.{passes_at};
ghost use Rattle.rpc_gateway.specs.Sought.{fits};

use flat_model::{BoxId, Call, CallState, ThreadId, Ticket};
use index_list::Arena;

/// Which call is looked for: one posted to a box, one that a thread posted to a box, or the ticket's, until it is
/// collected.
#[derive(Clone, Copy)]
pub(crate) enum Sought {
    To(BoxId),
    By(ThreadId, BoxId),
    Open(Ticket),
}

// Whether the call is posted to the box.
fn is_posted_to(b: BoxId, call: &Call) -> bool
    ensures { result ≡ call_words.is_posted_to b.0 call.now }
{
    match call.state {
        CallState::Posted => call.target.0 == b.0,
        CallState::Started | CallState::Done(_) | CallState::Collected => false,
    }
}

// Whether this is the call of the ticket, and not collected.
fn is_open_call(ticket: Ticket, call: &Call) -> bool
    ensures { result ≡ call_words.is_open_call ticket call.now }
{
    let is_open = match call.state {
        CallState::Posted | CallState::Started | CallState::Done(_) => true,
        CallState::Collected => false,
    };
    ticket.thread.0 == call.ticket.thread.0 && ticket.seq == call.ticket.seq && is_open
}

impl Sought {
    // Whether the call is one that is looked for.
    fn fits(self, call: &Call) -> bool
        ensures { result ≡ fits self call.now }
    {
        match self {
            Sought::To(b) => is_posted_to(b, call),
            Sought::By(t, b) => is_posted_to(b, call) && call.ticket.thread.0 == t.0,
            Sought::Open(ticket) => is_open_call(ticket, call),
        }
    }

    // Whether the call at this place is one that is looked for.
    fn fits_at(self, place: u32, calls: &[Call]) -> bool
        ensures { result ≡ passes_at (fits self) calls.now place }
    {
        match calls.get(place as usize) {
            Some(call) => self.fits(call),
            None => false,
        }
    }

    /// The first place of a list whose call is looked for. Within the limits on threads and boxes each list of posted
    /// calls is of one thread and one box, so its front is found at once.
    pub fn first_in(self, arena: &Arena, list: u32, calls: &[Call]) -> Option<u32>
        requires list { list < length arena.now.lists }
        requires nodes { length calls.now ≤ arena.now.nodes }
        requires within { All (λ place. place < length calls.now) (list_at arena.now.lists list) }
        requires few { length (list_at arena.now.lists list) ≤ length calls.now }
        ensures { result ≡ find (passes_at (fits self) calls.now) (list_at arena.now.lists list) }
    {
        let mut at = arena.front(list);
        for _step in 0..calls.len() {
            let place = at?;
            if self.fits_at(place, calls) {
                return Some(place);
            }
            at = arena.next(place);
        }
        None
    }
}

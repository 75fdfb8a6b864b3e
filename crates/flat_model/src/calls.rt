ghost use Rattle.std.specs.Prelude.{◌≡◌, ◌-◌, ◌<◌, [], ◌∷◌, ◌++◌, IfOk};
ghost use Rattle.flat_model.specs.CallRows.{served_ticket};
ghost use Rattle.flat_model.specs.Calls as spec;

use crate::events::Collected;
use crate::states::{Call, CallState};
use addr_base::{BoxId, OutOfMemory, ThreadId, Ticket};
use std::alloc::Global;
use std::marker::Model;

// Whether two tickets are the same.
fn same_ticket(first: Ticket, second: Ticket) -> bool
    ensures { result ≡ spec.same_ticket first second }
{
    first.thread.0 == second.thread.0 && first.seq == second.seq
}

// Whether the call's result was collected.
fn is_collected(state: CallState) -> bool
    ensures { result ≡ spec.is_collected state }
{
    match state {
        CallState::Collected => true,
        CallState::Posted | CallState::Started | CallState::Done(_) => false,
    }
}

// Whether this is the call of the ticket, and not collected.
fn is_open_call(ticket: Ticket, call: &Call) -> bool
    ensures { result ≡ spec.is_open_call ticket call.now }
{
    same_ticket(ticket, call.ticket) && !is_collected(call.state)
}

/// The call of the ticket that is not collected, if there is one.
pub fn open_call(ticket: Ticket, calls: &[Call]) -> Option<Call>
    ensures { result ≡ spec.open_call ticket calls.now }
{
    for call in calls {
        if is_open_call(ticket, call) {
            return Some(*call);
        }
    }
    None
}

// What a caller gets of a call in this state.
fn collected_in(state: CallState) -> Collected
    ensures { result ≡ spec.collected_in state }
{
    match state {
        CallState::Posted | CallState::Started => Collected::Waiting,
        CallState::Done(value) => Collected::Done(value),
        CallState::Collected => Collected::NoSuch,
    }
}

/// What the caller gets by this ticket.
pub fn collected_by(ticket: Ticket, calls: &[Call]) -> Collected
    ensures { result ≡ spec.collected_by ticket calls.now }
{
    match open_call(ticket, calls) {
        Some(call) => collected_in(call.state),
        None => Collected::NoSuch,
    }
}

// The call in another state, where it is the ticket's and not collected.
fn in_state(ticket: Ticket, state: CallState, call: Call) -> Call
    ensures { result ≡ spec.in_state ticket state call }
{
    if is_open_call(ticket, &call) {
        Call { state, ..call }
    } else {
        call
    }
}

// Whether the call is posted to the box.
fn is_posted_to(b: BoxId, call: &Call) -> bool
    ensures { result ≡ spec.is_posted_to b.0 call.now }
{
    match call.state {
        CallState::Posted => call.target.0 == b.0,
        CallState::Started | CallState::Done(_) | CallState::Collected => false,
    }
}

/// How many calls are posted to the box.
pub fn posted_count(b: BoxId, calls: &[Call]) -> usize
    ensures { result ≡ spec.posted_count b.0 calls.now }
{
    let mut count = 0;
    for call in calls {
        if is_posted_to(b, call) {
            count += 1;
        }
    }
    count
}

/// The oldest call that is posted to the box.
pub fn oldest_posted(b: BoxId, calls: &[Call]) -> Option<Call>
    ensures { result ≡ spec.oldest_posted b.0 calls.now }
{
    for call in calls {
        if is_posted_to(b, call) {
            return Some(*call);
        }
    }
    None
}

// The oldest call of one thread that is posted to the box.
fn oldest_posted_by(t: ThreadId, b: BoxId, calls: &[Call]) -> Option<Call>
    ensures { result ≡ spec.oldest_posted_by t.0 b.0 calls.now }
{
    for call in calls {
        if is_posted_to(b, call) && call.ticket.thread.0 == t.0 {
            return Some(*call);
        }
    }
    None
}

/// The ticket's call, where it is the oldest of its thread that is posted to the box.
pub fn next_call(ticket: Ticket, b: BoxId, calls: &[Call]) -> Option<Call>
    ensures { result ≡ spec.next_call ticket b.0 calls.now }
{
    match oldest_posted_by(ticket.thread, b, calls) {
        Some(call) if same_ticket(ticket, call.ticket) => Some(call),
        Some(_) | None => None,
    }
}

/// The call that the server of the box serves.
pub fn served_ticket(serving: &[Option<Ticket>], b: BoxId) -> Option<Ticket>
    ensures { result ≡ served_ticket serving.now b.0 }
{
    serving.get(b.0 as usize).copied().unwrap_or(None)
}

/// The calls of a run in the order in which they were made, with room for those that may come. Nothing that it does
/// takes memory, but its making.
#[derive(Drop)]
pub struct CallList {
    calls: Vec<Call>,
}

impl Model for CallList {
    ghost use Rattle.std.specs.Prelude.{◌-◌, ◌≤◌, length, vec_capacity};
    ghost use Rattle.flat_model.specs.CallTable.{CallTable};

    ghost Value = { CallTable };

    ghost view = { λ c. record {
      calls = c.calls.items;
      room = vec_capacity c.calls - length c.calls.items;
    } };

    ghost invariant = { λ c. length c.calls.items ≤ vec_capacity c.calls };
}

impl CallList {
    /// An empty list with room for so many calls.
    pub fn new(alloc: Global, room: usize) -> Result<CallList, OutOfMemory>
        ensures { IfOk result (λ list. list ≡ record { calls = []; room = room }) }
    {
        let calls = Vec::with_capacity(alloc, room)?;
        Ok(CallList { calls })
    }

    /// The calls.
    pub fn as_slice(&self) -> &[Call]
        ensures { result.now ≡ self.now.calls }
    {
        self.calls.as_slice()
    }

    /// Adds a call.
    pub fn add(&mut self, call: Call)
        requires { 0 < self.old.room }
        ensures { self.new ≡ record {
          calls = self.old.calls ++ call ∷ [];
          room = self.old.room - 1;
        } }
    {
        self.calls.push_reserved(call);
    }

    /// Puts the ticket's call, where it is not collected, into another state.
    pub fn set_state(&mut self, ticket: Ticket, state: CallState)
        ensures { self.new ≡ record self.old {
          calls = spec.with_state ticket state self.old.calls;
        } }
    {
        for index in 0..self.calls.len() {
            let call = self.calls[index];
            self.calls[index] = in_state(ticket, state, call);
        }
    }

    /// Notes that the caller asked for this ticket's result and got this.
    pub fn after_asking(&mut self, ticket: Ticket, answer: Collected)
        ensures { self.new ≡ record self.old {
          calls = spec.after_asking ticket answer self.old.calls;
        } }
    {
        match answer {
            Collected::Done(_) => self.set_state(ticket, CallState::Collected),
            Collected::Waiting | Collected::NoSuch => {}
        }
    }
}

ghost use Rattle.std.specs.Prelude.{◌≡◌, ◌+◌, ◌-◌, ◌<◌, ◌≤◌, ◌^◌, ◌&&◌, true, [], ◌∷◌, ◌++◌, IfOk, IfSome, Some, length, slice_get, slice_index, slice_set, vec_capacity};
ghost use Rattle.std.specs.Option.{option_and_then, option_map};
ghost use Rattle.flat_model.specs.declared.states.CallState.TheVariants as state;
ghost use Rattle.flat_model.specs.Calls as call_words;
ghost use Rattle.rpc_gateway.specs.Calls as spec;
ghost use Rattle.rpc_gateway.specs.Listed.{stands_in};
ghost use Rattle.rpc_gateway.specs.Places.{first_place, lesser};
ghost use Rattle.rpc_gateway.specs.Sought.{fits};
ghost use Rattle.rpc_gateway.specs.Table as table_words;

use crate::sought::Sought;
use flat_model::{BoxId, Call, CallState, Items, OutOfMemory, ThreadId, Ticket};
use index_list::Arena;
use std::alloc::Global;
use std::marker::Model;

// How many threads and boxes have lists of their own.
const THREADS: u32 = 16;

const BOXES: u32 = 8;

// How many numbers a thread or a box can have.
const NUMBERS: usize = 256;

/// A call, and its place among all calls.
#[derive(Clone, Copy)]
pub(crate) struct Found {
    pub place: u32,
    pub call: Call,
}

/// All calls in the order in which they were made. Beside them stand a list of posted calls for each pair of a caller's
/// thread and a target box, a list of uncollected calls for each thread, the number of posted calls for each box and of
/// all calls for each thread, so that none is found by going through all calls. A list holds places, ascending.
#[derive(Drop)]
pub(crate) struct Table {
    calls: Vec<Call>,
    posted: Arena,
    uncollected: Arena,
    waiting: Items<u32>,
    made: Items<u32>,
}

impl Model for Table {
    ghost use Rattle.std.specs.Prelude.{◌-◌, length, vec_capacity};
    ghost use Rattle.rpc_gateway.specs.Table.{IsTable, TableView};

    ghost Value = { TableView };

    ghost view = { λ t. record {
      calls = t.calls.items;
      spare = vec_capacity t.calls - length t.calls.items;
    } };

    ghost invariant = { λ t.
        IsTable t.calls.items (vec_capacity t.calls) t.posted t.uncollected t.waiting t.made };
}

// The number of a thread's list. Threads past the limit share the lists of others.
fn caller_list(t: ThreadId) -> u32
    ensures { result ≡ table_words.caller_list t.0 }
{
    t.0 as u32 % THREADS
}

// The number of the list of calls that a thread posted to a box. Numbers past the limits share the lists of others.
fn pair_list(t: ThreadId, b: BoxId) -> u32
    ensures { result ≡ table_words.pair_list t.0 b.0 }
{
    caller_list(t) * BOXES + b.0 as u32 % BOXES
}

// The lesser of two places, or the only one.
fn lesser_place(first: Option<u32>, second: Option<u32>) -> Option<u32>
    ensures { result ≡ lesser first second }
{
    match (first, second) {
        (Some(a), Some(b)) => Some(a.min(b)),
        (Some(a), None) => Some(a),
        (None, other) => other,
    }
}

// One more of a number.
fn count_up(counts: &mut Items<u32>, n: u8)
    requires numbers { length counts.old ≡ 256 }
    requires room { slice_index counts.old n + 1 < 2 ^ 32 }
    ensures { counts.new ≡ slice_set counts.old n (slice_index counts.old n + 1) }
{
    let count = counts.at(n as usize);
    counts.set(n as usize, count + 1);
}

// One less of a number.
fn count_down(counts: &mut Items<u32>, n: u8)
    requires numbers { length counts.old ≡ 256 }
    requires some { 1 ≤ slice_index counts.old n }
    ensures { counts.new ≡ slice_set counts.old n (slice_index counts.old n - 1) }
{
    let count = counts.at(n as usize);
    counts.set(n as usize, count - 1);
}

// How many of a number there are.
fn count_of(counts: &Items<u32>, n: u8) -> u32
    requires { length counts.now ≡ 256 }
    ensures { result ≡ slice_index counts.now n }
{
    counts.at(n as usize)
}

// Puts a call in the place of another.
fn put_call(calls: &mut Vec<Call>, place: u32, call: Call)
    requires { place < length calls.old.items }
    ensures items { calls.new.items ≡ slice_set calls.old.items place call }
    ensures capacity { vec_capacity calls.new ≡ vec_capacity calls.old }
{
    calls[place as usize] = call;
}

impl Table {
    /// No call, and room for so many.
    pub fn new(alloc: Global, room: u32) -> Result<Table, OutOfMemory>
        ensures { IfOk result (λ table. table ≡ record { calls = []; spare = room }) }
    {
        let calls = Vec::with_capacity(alloc, room as usize)?;
        let posted = Arena::new(alloc, room, THREADS * BOXES)?;
        let uncollected = Arena::new(alloc, room, THREADS)?;
        let waiting = Items::filled(alloc, 0, NUMBERS)?;
        let made = Items::filled(alloc, 0, NUMBERS)?;
        Ok(Table {
            calls,
            posted,
            uncollected,
            waiting,
            made,
        })
    }

    /// The ticket that the thread's next call gets.
    pub fn next_ticket(&self, t: ThreadId) -> Ticket
        requires { 1 ≤ self.now.spare }
        ensures { result ≡ spec.next_ticket t self.now.calls }
    {
        let made = count_of(&self.made, t.0);
        Ticket {
            thread: t,
            seq: made + 1,
        }
    }

    /// One more call, which is posted.
    pub fn push(&mut self, call: Call)
        requires room { 1 ≤ self.old.spare }
        requires next { call.ticket ≡ spec.next_ticket call.ticket.thread self.old.calls }
        requires posted { call.state ≡ state.Posted }
        ensures { self.new
            ≡ record { calls = self.old.calls ++ call ∷ []; spare = self.old.spare - 1 } }
    {
        let t = call.ticket.thread;
        let b = call.target;
        let place = self.calls.len() as u32;
        let pair = pair_list(t, b);
        let own = caller_list(t);
        self.posted.push_back(pair, place);
        self.uncollected.push_back(own, place);
        count_up(&mut self.waiting, b.0);
        count_up(&mut self.made, t.0);
        self.calls.push_reserved(call);
    }

    /// How many calls are posted to a box.
    pub fn posted_count(&self, b: BoxId) -> u32
        ensures { result ≡ call_words.posted_count b.0 self.now.calls }
    {
        count_of(&self.waiting, b.0)
    }

    /// The call at a place.
    pub fn at(&self, place: u32) -> Found
        requires { place < length self.now.calls }
        ensures place { result.place ≡ place }
        ensures there { slice_get self.now.calls place ≡ Some result.call }
    {
        let call = self.calls[place as usize];
        Found { place, call }
    }

    // The call at a place that was found, if one was.
    fn found_at(&self, place: Option<u32>) -> Option<Found>
        ensures call { option_map (λ found. found.call) result
            ≡ option_and_then (slice_get self.now.calls) place }
        ensures there { IfSome result (λ found.
            slice_get self.now.calls found.place ≡ Some found.call) }
    {
        let place = place?;
        let call = self.calls.get(place as usize).copied()?;
        Some(Found { place, call })
    }

    // The first place of a list of posted calls whose call is looked for.
    fn first_posted(&self, sought: Sought, pair: u32) -> Option<u32>
        requires { pair < 128 }
        ensures { result ≡ first_place (λ call.
            stands_in table_words.is_waiting table_words.list_of_posted pair call
            && fits sought call) self.now.calls }
    {
        sought.first_in(&self.posted, pair, self.calls.as_slice())
    }

    // The first place of a thread's list of uncollected calls whose call is looked for.
    fn first_open(&self, sought: Sought, own: u32) -> Option<u32>
        requires { own < 16 }
        ensures { result ≡ first_place (λ call.
            stands_in table_words.is_open table_words.list_of_open own call
            && fits sought call) self.now.calls }
    {
        sought.first_in(&self.uncollected, own, self.calls.as_slice())
    }

    // The place of the oldest call posted to a box by the threads of one list.
    fn first_by_list(&self, list: u32, b: BoxId) -> Option<u32>
        requires { list < 16 }
        ensures { result ≡ first_place (table_words.is_posted_by_list list b.0) self.now.calls }
    {
        let pair = list * BOXES + b.0 as u32 % BOXES;
        self.first_posted(Sought::To(b), pair)
    }

    // The place of the oldest call posted to a box.
    fn oldest_place(&self, b: BoxId) -> Option<u32>
        ensures { result ≡ first_place (call_words.is_posted_to b.0) self.now.calls }
    {
        let mut oldest = None;
        for list in 0..THREADS {
            oldest = lesser_place(oldest, self.first_by_list(list, b));
        }
        oldest
    }

    /// The oldest call posted to a box.
    pub fn oldest(&self, b: BoxId) -> Option<Found>
        ensures { option_map (λ found. found.call) result
            ≡ call_words.oldest_posted b.0 self.now.calls }
    {
        self.found_at(self.oldest_place(b))
    }

    /// The oldest call of one thread that is posted to a box.
    pub fn oldest_by(&self, t: ThreadId, b: BoxId) -> Option<Found>
        ensures call { option_map (λ found. found.call) result
            ≡ call_words.oldest_posted_by t.0 b.0 self.now.calls }
        ensures there { IfSome result (λ found.
            slice_get self.now.calls found.place ≡ Some found.call) }
    {
        let pair = pair_list(t, b);
        self.found_at(self.first_posted(Sought::By(t, b), pair))
    }

    /// The call of a ticket, until it is collected.
    pub fn open_call(&self, ticket: Ticket) -> Option<Found>
        ensures call { option_map (λ found. found.call) result
            ≡ call_words.open_call ticket self.now.calls }
        ensures there { IfSome result (λ found.
            slice_get self.now.calls found.place ≡ Some found.call) }
    {
        let own = caller_list(ticket.thread);
        self.found_at(self.first_open(Sought::Open(ticket), own))
    }

    /// Starts a posted call, which leaves the list of those that wait.
    pub fn start(&mut self, found: Found)
        requires there { slice_get self.old.calls found.place ≡ Some found.call }
        requires posted { call_words.is_posted found.call.state ≡ true }
        ensures place { self.new.calls ≡ slice_set self.old.calls found.place
            (table_words.call_in state.Started found.call) }
        ensures exact { self.new ≡ record self.old {
          calls =
              call_words.with_state found.call.ticket state.Started self.old.calls;
        } }
    {
        let started = Call {
            state: CallState::Started,
            ..found.call
        };
        self.posted.remove(found.place);
        count_down(&mut self.waiting, found.call.target.0);
        put_call(&mut self.calls, found.place, started);
    }

    /// Finishes a started call with its result.
    pub fn finish(&mut self, found: Found, v: u32)
        requires there { slice_get self.old.calls found.place ≡ Some found.call }
        requires started { table_words.is_started found.call.state ≡ true }
        ensures place { self.new.calls ≡ slice_set self.old.calls found.place
            (table_words.call_in (state.Done v) found.call) }
        ensures exact { self.new ≡ record self.old {
          calls =
              call_words.with_state found.call.ticket (state.Done v) self.old.calls;
        } }
    {
        let done = Call {
            state: CallState::Done(v),
            ..found.call
        };
        put_call(&mut self.calls, found.place, done);
    }

    /// Collects a call that is done, which leaves its thread's list.
    pub fn collect(&mut self, found: Found)
        requires there { slice_get self.old.calls found.place ≡ Some found.call }
        requires done { table_words.is_done found.call.state ≡ true }
        ensures place { self.new.calls ≡ slice_set self.old.calls found.place
            (table_words.call_in state.Collected found.call) }
        ensures exact { self.new ≡ record self.old {
          calls =
              call_words.with_state found.call.ticket state.Collected self.old.calls;
        } }
    {
        let collected = Call {
            state: CallState::Collected,
            ..found.call
        };
        self.uncollected.remove(found.place);
        put_call(&mut self.calls, found.place, collected);
    }
}

ghost use Rattle.std.specs.Prelude.{◌≡◌, ◌≤◌, None, true, IfOk, is_ok, sum_by, if◌then◌else◌, slice_get};
ghost use Rattle.std.specs.Option.{option_map};
ghost use Rattle.std.specs.Result.{result_ok};
ghost use Rattle.flat_model.specs.Calls as call_words;
ghost use Rattle.flat_model.specs.CallRows as row_words;
ghost use Rattle.flat_model.specs.Sound.{IsSound};
ghost use Rattle.rpc_gateway.specs.Calls as spec;
ghost use Rattle.rpc_gateway.specs.Servers.{is_server_thread, thread_serving};

use crate::directory::Directory;
use crate::table::{Found, Table};
use flat_model::{
    BoxId, Call, CallState, Collected, Config, Items, NoCall, NotNext, OutOfMemory, Started,
    ThreadId, ThreadPart, Ticket,
};
use std::alloc::Global;
use std::marker::Model;

/// The calls of a configuration's threads. Contracts see the configuration, the list of all calls in the order in which
/// they were made, the call that each box's server serves, and for how many more calls there is room. Nothing but its
/// making takes memory.
///
/// Beside the call that each server serves stands its place in the table.
#[derive(Drop)]
pub struct Calls {
    directory: Directory,
    table: Table,
    serving: Items<Option<Ticket>>,
    served: Items<u32>,
}

impl Model for Calls {
    ghost use Rattle.rpc_gateway.specs.Calls.{CallsView};
    ghost use Rattle.rpc_gateway.specs.Table.{AreServed};

    ghost Value = { CallsView };

    ghost view = { λ c. record {
      config = c.directory;
      calls = c.table.calls;
      serving = c.serving;
      spare = c.table.spare;
    } };

    ghost invariant = { λ c. AreServed c.table.calls c.serving c.served };
}

// How many steps the threads may take in all.
fn total_steps(threads: &[ThreadPart]) -> u32
    requires { sum_by (λ thread. thread.steps) threads.now ≤ 250000 }
    ensures { result ≡ sum_by (λ thread. thread.steps) threads.now }
{
    let mut total = 0;
    for thread in threads {
        total += thread.steps;
    }
    total
}

impl Calls {
    /// The table of a configuration with no call, and room for as many as all threads have steps.
    pub fn new(alloc: Global, cfg: &Config) -> Result<Calls, OutOfMemory>
        requires { IsSound cfg.now }
        ensures { IfOk result (λ calls. calls ≡ spec.opening_calls cfg.now) }
    {
        let directory = Directory::new(alloc, cfg)?;
        let room = total_steps(cfg.threads.as_slice());
        let table = Table::new(alloc, room)?;
        let serving = Items::filled(alloc, None, cfg.boxes.len())?;
        let served = Items::filled(alloc, 0, cfg.boxes.len())?;
        Ok(Calls {
            directory,
            table,
            serving,
            served,
        })
    }

    /// The target and the function of a gateway; none exactly where there is no gateway with this number, or the box is
    /// not among its callers.
    pub fn allowed(&self, b: BoxId, g: u32) -> Option<(BoxId, u32)>
        ensures { result ≡ option_map spec.target_of
            (row_words.gateway_for b.0 (slice_get self.now.config.gateways g)) }
    {
        let gate = self.directory.gateway_for(b, g)?;
        Some((gate.target, gate.function))
    }

    /// Posts a call, and answers its ticket: the thread, and the number of this call among those of the thread.
    pub fn call(&mut self, t: ThreadId, target: BoxId, function: u32, args: [u32; 4]) -> Ticket
        requires { 1 ≤ self.old.spare }
        ensures ticket { result ≡ spec.next_ticket t self.old.calls }
        ensures exact { self.new
            ≡ spec.with_call self.old (spec.posted_call result target function args) }
    {
        let ticket = self.table.next_ticket(t);
        let call = Call {
            ticket,
            target,
            function,
            args,
            state: CallState::Posted,
        };
        self.table.push(call);
        ticket
    }

    /// The oldest call posted to a box; none exactly where no call is posted to it.
    pub fn oldest(&self, b: BoxId) -> Option<Ticket>
        ensures { result ≡ spec.ticket_of (call_words.oldest_posted b.0 self.now.calls) }
    {
        let found = self.table.oldest(b)?;
        Some(found.call.ticket)
    }

    /// How many calls are posted to a box.
    pub fn posted(&self, b: BoxId) -> u32
        ensures { result ≡ call_words.posted_count b.0 self.now.calls }
    {
        self.table.posted_count(b)
    }

    /// The call that a thread serves; none exactly where it is not its box's server, or serves no call.
    pub fn serving(&self, t: ThreadId) -> Option<Ticket>
        ensures { result ≡ thread_serving self.now.config self.now.serving t.0 }
    {
        if !self.directory.is_server(t) {
            return None;
        }
        let home = self.directory.home_of(t);
        self.serving
            .as_slice()
            .get(home.0 as usize)
            .copied()
            .unwrap_or(None)
    }

    /// Starts a call that is the oldest of its thread posted to the server's box. Any other ticket is refused with that
    /// oldest one, and then nothing changes.
    pub fn start(&mut self, server: ThreadId, ticket: Ticket) -> Result<Started, NotNext>
        requires server { is_server_thread self.old.config server.0 ≡ true }
        requires idle { thread_serving self.old.config self.old.serving server.0 ≡ None }

        ensures answer { let b = (row_words.home_of self.old.config server.0).0 in
            result ≡ spec.start_answer self.old.config
            (call_words.oldest_posted_by ticket.thread.0 b self.old.calls)
            (call_words.next_call ticket b self.old.calls) }
        ensures exact { let b = (row_words.home_of self.old.config server.0).0 in
            self.new ≡ (if is_ok result then spec.with_start self.old b ticket else self.old) }
    {
        let home = self.directory.home_of(server);
        let oldest = self.table.oldest_by(ticket.thread, home);
        match oldest {
            Some(found) if found.call.ticket == ticket => {
                self.table.start(found);
                self.serving.put(home.0 as usize, Some(ticket));
                self.served.put(home.0 as usize, found.place);
                Ok(Started {
                    function: found.call.function,
                    args: found.call.args,
                    caller: self.directory.home_of(ticket.thread),
                })
            }
            _ => Err(NotNext {
                next: oldest.map(|found| found.call.ticket),
            }),
        }
    }

    /// Finishes the call that a server serves, with its result. A thread that serves none is refused, and then nothing
    /// changes.
    pub fn finish(&mut self, server: ThreadId, v: u32) -> Result<Ticket, NoCall>
        ensures answer { result_ok result
            ≡ thread_serving self.old.config self.old.serving server.0 }
        ensures exact { self.new ≡ spec.with_finish self.old
            (row_words.home_of self.old.config server.0).0 v
            (thread_serving self.old.config self.old.serving server.0) }
    {
        let Some(ticket) = self.serving(server) else {
            return Err(NoCall);
        };
        let home = self.directory.home_of(server);
        let found = self.table.at(self.served.at(home.0 as usize));
        self.table.finish(found, v);
        self.serving.put(home.0 as usize, None);
        Ok(ticket)
    }

    /// The result of the thread's call with this number, which is then collected: it is given once. A call that is not
    /// done is waited for, and a number without an uncollected call of this thread is refused; nothing changes then.
    pub fn collect(&mut self, t: ThreadId, seq: u32) -> Collected
        ensures answer { result
            ≡ call_words.collected_by (record { thread = t; seq = seq }) self.old.calls }
        ensures exact { self.new
            ≡ spec.with_answer self.old (record { thread = t; seq = seq }) result }
    {
        let asked = Ticket { thread: t, seq };
        let Some(found) = self.table.open_call(asked) else {
            return Collected::NoSuch;
        };
        match found.call.state {
            CallState::Posted | CallState::Started => Collected::Waiting,
            CallState::Done(value) => {
                self.table.collect(found);
                Collected::Done(value)
            }
            CallState::Collected => Collected::NoSuch,
        }
    }
}

ghost use Rattle.std.specs.Prelude.{◌≡◌, ◌+◌, ◌<◌, ◌≤◌, true, nat_le, IfOk, length, map};
ghost use Rattle.flat_model.specs.declared.events.Choice.{Choice};
ghost use Rattle.flat_model.specs.declared.events.Logged.TheVariants as item;
ghost use Rattle.flat_model.specs.Sound.{IsSound};
ghost use Rattle.flat_model.specs.Step.{reply_to};
ghost use Rattle.flat_model.specs.Trace.{event_items, opening_world};
ghost use Rattle.flat_model.specs.UnitRun.{unit_lines};
ghost use Rattle.flat_model.specs.Calls.{posted_count};
ghost use Rattle.flat_model.specs.Want.{inbox_slots, is_owned_line, other_callers, want_of};
ghost use Rattle.machine_core.specs.Deeds.{IsFitOrder, choice_by_order};
ghost use Rattle.machine_core.specs.Journal.{noted};
ghost use Rattle.machine_core.specs.State.{IsActing, after_choice, ended_in, event_room};

use crate::acting::act;
use crate::deeds::Order;
use crate::journal::Journal;
use crate::kernel::MachineKernel;
use crate::unit::ProtectionUnit;
use flat_model::{
    Actor, BoxId, Choice, Config, Entry, Items, Line, Logged, OutOfMemory, Reply, ThreadId,
    ThreadState, Want, fits, may_be_full, opening_threads, want_of,
};
use std::alloc::Global;
use std::marker::Model;

/// The state of a machine: its kernel, its threads and its protection unit, which contracts see as the flat machine and
/// the unit. Every state is one that choices reach.
#[derive(Drop)]
pub(crate) struct State {
    kernel: MachineKernel,
    threads: Items<ThreadState>,
    unit: ProtectionUnit,
}

impl Model for State {
    ghost use Rattle.std.specs.Prelude.{◌≡◌};
    ghost use Rattle.machine_core.specs.Kept.{IsKeptState};
    ghost use Rattle.machine_core.specs.State.{MachineState, world_with};

    ghost Value = { MachineState };

    ghost view = { λ s. record {
      config = s.kernel.config;
      world = world_with s.kernel s.threads s.unit.unit;
    } };

    ghost invariant = { λ s. (s.unit.config ≡ s.kernel.config)
        × IsKeptState s.kernel.config (world_with s.kernel s.threads s.unit.unit) };
}

impl State {
    /// The state at the start.
    pub fn opening(alloc: Global, cfg: &Config) -> Result<State, OutOfMemory>
        requires { IsSound cfg.now }
        ensures { IfOk result (λ state.
            state ≡ record { config = cfg.now; world = opening_world cfg.now }) }
    {
        let kernel = MachineKernel::opening(alloc, cfg)?;
        let threads = opening_threads(alloc, cfg)?;
        let unit = ProtectionUnit::new(alloc, cfg)?;
        Ok(State {
            kernel,
            threads,
            unit,
        })
    }

    /// Whether the thread with this number can run no more.
    pub fn has_ended(&self, t: ThreadId) -> bool
        ensures { result ≡ ended_in self.now.world t.0 }
    {
        match self.threads.as_slice().get(t.0 as usize) {
            Some(thread) => thread.has_ended(),
            None => true,
        }
    }

    /// The threads.
    pub fn threads(&self) -> &[ThreadState]
        ensures { result.now ≡ self.now.world.flat.threads }
    {
        self.threads.as_slice()
    }

    /// What the thread with this number wants.
    pub fn wants(&self, cfg: &Config, t: ThreadId) -> Want
        requires { self.now.config ≡ cfg.now }
        ensures { result ≡ want_of self.now.config self.now.world.flat t.0 }
    {
        want_of(cfg, &self.kernel, &self.threads, t)
    }

    // What an order has an actor do, with the unit's lines, and its entry.
    fn take(&mut self, actor: Actor<'_>, order: Order, journal: &mut Journal) -> Entry
        requires acts { IsActing self.old actor.who actor.part.now actor.program.now }
        requires fit { IsFitOrder self.old.config self.old.world.flat actor.who.thread order }
        requires room { 4 ≤ journal.old.room }

        ensures state { self.new ≡ after_choice self.old
            (choice_by_order self.old.config self.old.world.flat actor.entry.who.thread order) }
        ensures choice { result.choice ≡ choice_by_order
            self.old.config self.old.world.flat actor.entry.who.thread order }
        ensures reply { result.reply
            ≡ reply_to self.old.config self.old.world.flat result.choice }
        ensures journal { journal.new ≡ noted journal.old (map item.Unit
            (unit_lines self.old.config self.old.world.flat self.old.world.unit result.choice)) }
    {
        let who = actor.who.thread;
        let t = who.0 as usize;
        let mut thread = self.threads.at(t);
        let next = actor.next(&self.kernel, &thread);
        let deed = order.deed(actor, &self.kernel, next);
        let reply = act(
            &mut self.kernel,
            &mut self.unit,
            actor,
            &mut thread,
            next,
            deed,
            journal,
        );
        self.threads.put(t, thread);
        let choice = deed.choice(who);
        Entry { choice, reply }
    }

    // What an order has a thread do, with the unit's lines, and its entry.
    fn event(&mut self, cfg: &Config, t: ThreadId, order: Order, journal: &mut Journal) -> Entry
        requires config { self.old.config ≡ cfg.now }
        requires fit { IsFitOrder self.old.config self.old.world.flat t order }
        requires room { event_room self.old.world t.0 ≤ journal.old.room }

        ensures state { self.new ≡ after_choice self.old
            (choice_by_order self.old.config self.old.world.flat t order) }
        ensures choice { result.choice
            ≡ choice_by_order self.old.config self.old.world.flat t order }
        ensures reply { result.reply
            ≡ reply_to self.old.config self.old.world.flat result.choice }
        ensures journal { journal.new ≡ noted journal.old (map item.Unit
            (unit_lines self.old.config self.old.world.flat self.old.world.unit result.choice)) }
    {
        match Actor::of(cfg, &self.threads, t, true) {
            Some(actor) => self.take(actor, order, journal),
            None => Entry {
                choice: order.idle_choice(t),
                reply: Reply::Ended,
            },
        }
    }

    /// The event that an order has a thread make, and what it answers: the unit's lines, and then its entry.
    pub fn step(&mut self, cfg: &Config, t: ThreadId, order: Order, journal: &mut Journal) -> Reply
        requires config { self.old.config ≡ cfg.now }
        requires fit { IsFitOrder self.old.config self.old.world.flat t order }
        requires room { event_room self.old.world t.0 ≤ journal.old.room }

        ensures state { self.new ≡ after_choice self.old
            (choice_by_order self.old.config self.old.world.flat t order) }
        ensures reply { result ≡ reply_to self.old.config self.old.world.flat
            (choice_by_order self.old.config self.old.world.flat t order) }
        ensures journal { journal.new ≡ noted journal.old
            (event_items self.old.config self.old.world
            (choice_by_order self.old.config self.old.world.flat t order)) }
    {
        let entry = self.event(cfg, t, order, journal);
        journal.note(Logged::Core(entry));
        entry.reply
    }

    /// Whether the calls that are posted to the box and the other threads that may call it are enough to fill its inbox.
    pub fn may_be_full(&self, cfg: &Config, t: ThreadId, b: BoxId) -> bool
        requires { self.now.config ≡ cfg.now }
        ensures { result ≡ nat_le (inbox_slots self.now.config)
            (posted_count b.0 self.now.world.flat.shared.calls
            + other_callers self.now.config t.0 b.0) }
    {
        may_be_full(cfg, &self.kernel, t, b)
    }

    /// Whether some box owns the line.
    pub fn owns_line(&self, cfg: &Config, line: Line) -> bool
        requires { self.now.config ≡ cfg.now }
        ensures { result ≡ is_owned_line self.now.config line.0 }
    {
        let ring = Choice::Ring { line, by: 0 };
        fits(cfg, &self.kernel, &self.threads, ring)
    }

    /// A ring of a line that a box owns: its entry alone.
    pub fn ring(&mut self, line: Line, by: u8, journal: &mut Journal)
        requires owned { is_owned_line self.old.config line.0 ≡ true }
        requires room { 1 ≤ journal.old.room }

        ensures state { self.new ≡ after_choice self.old (Choice.Ring line by) }
        ensures journal { journal.new ≡ noted journal.old
            (event_items self.old.config self.old.world (Choice.Ring line by)) }
    {
        self.kernel.ring(line);
        let choice = Choice::Ring { line, by };
        let reply = Reply::Done;
        journal.note(Logged::Core(Entry { choice, reply }));
    }
}

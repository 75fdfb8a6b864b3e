ghost use Rattle.std.specs.Prelude.{◌≡◌, ◌+◌, ◌-◌, ◌*◌, ◌<◌, ◌≤◌, true, [], IfOk, length, map, replicate, sum_by, vec_capacity, if◌then◌else◌};
ghost use Rattle.addr_base.specs.declared.identity.BoxId.{BoxId};
ghost use Rattle.flat_model.specs.Legal.{IsLegal};
ghost use Rattle.flat_model.specs.Log.{choices_of};
ghost use Rattle.flat_model.specs.OneLog.{log_of_choices};
ghost use Rattle.flat_model.specs.Run.{end_of_thread};
ghost use Rattle.flat_model.specs.Sound.{IsSound};
ghost use Rattle.flat_model.specs.Want.{is_owned_line, want_of};
ghost use Rattle.machine_core.specs.State.{ended_in};
ghost use Rattle.machine_core.specs.Deeds.{choice_by};
ghost use Rattle.machine_core.specs.Entries.{HasGrown, entry_now};
ghost use Rattle.machine_core.specs.Boot.{IsOpening};
ghost use Rattle.machine_core.specs.Kept.{HasEnds};
ghost use Rattle.machine_core.specs.Ready.{IsReady};
ghost use Rattle.machine_core.specs.Turns.{log_now, serves_box};
ghost use Rattle.machine_core.specs.View.{after_event, boot_room, booted, events_beside, rung, stepped, world_of};

use crate::deeds::{Deed, Order};
use crate::journal::Journal;
use crate::state::State;
use flat_model::{
    Config, Drive, End, Items, Line, Log, OutOfMemory, Reply, ThreadId, ThreadPart, ThreadState,
    Want,
};
use std::alloc::Global;
use std::marker::Model;

/// A configuration, the state of its boxes and of the unit, and the log of what happened. Contracts see the
/// configuration, the drive, how many extra events may come, the log's items, and for how many more there is room.
#[derive(Drop)]
pub struct Machine {
    config: Config,
    drive: Drive,
    extra: u32,
    state: State,
    journal: Journal,
    // With running threads, how many rings each device has made.
    rings: Items<u32>,
    ends: Vec<End>,
}

impl Model for Machine {
    ghost use Rattle.std.specs.Prelude.{◌≡◌, vec_capacity};
    ghost use Rattle.machine_core.specs.Kept.{CountsRings, HasEnds, IsKept, events_left};
    ghost use Rattle.machine_core.specs.View.{MachineView};

    ghost Value = { MachineView };

    ghost view = { λ m. record {
      config = m.config;
      drive = m.drive;
      extra = m.extra;
      items = m.journal.items;
      room = m.journal.room;
    } };

    ghost invariant = { λ m. (m.state.config ≡ m.config)
        × IsKept m.config (events_left m.drive m.extra m.rings) m.journal m.state.world
        × HasEnds m.config m.ends.items (vec_capacity m.ends)
        × CountsRings m.config m.drive m.journal.items m.rings };
}

// How many steps the threads may take in all.
fn total_steps(threads: &[ThreadPart]) -> usize
    requires { sum_by (λ thread. thread.steps) threads.now ≤ 250000 }
    ensures { result ≡ sum_by (λ thread. thread.steps) threads.now }
{
    let mut total = 0;
    for thread in threads {
        total += thread.steps as usize;
    }
    total
}

// How many rings so many devices may make in all.
fn rings_of(extra: u32, devices: usize) -> usize
    requires { devices ≤ 4 }
    ensures exact { result ≡ extra * devices }
    ensures few { result ≤ 17179869180 }
{
    extra as usize * devices
}

// How many events may come that are not steps of threads.
fn beside(cfg: &Config, drive: Drive, extra: u32) -> usize
    requires { length cfg.now.devices ≤ 4 }
    ensures exact { result ≡ events_beside cfg.now drive extra }
    ensures few { result ≤ 17179869180 }
{
    match drive {
        Drive::Script => extra as usize,
        Drive::Threads => rings_of(extra, cfg.devices.len()),
    }
}

// Four items for each step, and one for each other event.
fn items_for(steps: usize, others: usize) -> usize
    requires steps { steps ≤ 250000 }
    requires others { others ≤ 17179869180 }
    ensures { result ≡ 4 * steps + others }
{
    4 * steps + others
}

// How many items the log of a run may have.
fn most_items(cfg: &Config, drive: Drive, extra: u32) -> usize
    requires steps { sum_by (λ thread. thread.steps) cfg.now.threads ≤ 250000 }
    requires devices { length cfg.now.devices ≤ 4 }
    ensures { result ≡ boot_room cfg.now drive extra }
{
    let steps = total_steps(cfg.threads.as_slice());
    let others = beside(cfg, drive, extra);
    items_for(steps, others)
}

// No device has made a ring.
fn no_rings(alloc: Global, cfg: &Config) -> Result<Items<u32>, OutOfMemory>
    ensures { IfOk result (λ rings. rings ≡ replicate (length cfg.now.devices) 0) }
{
    let devices = cfg.devices.len();
    Items::filled(alloc, 0, devices)
}

// No end is written yet, and there is room for that of each thread.
fn no_ends(alloc: Global, cfg: &Config) -> Result<Vec<End>, OutOfMemory>
    ensures { IfOk result (λ ends. HasEnds cfg.now ends.items (vec_capacity ends)) }
{
    let threads = cfg.threads.len();
    let ends = Vec::with_capacity(alloc, threads)?;
    Ok(ends)
}

// What a machine at its start has besides its configuration.
#[derive(Drop)]
struct Opening {
    state: State,
    journal: Journal,
    rings: Items<u32>,
    ends: Vec<End>,
}

// All that a machine takes memory for.
fn opened(alloc: Global, cfg: &Config, drive: Drive, extra: u32) -> Result<Opening, OutOfMemory>
    requires { IsSound cfg.now }
    ensures { IfOk result (λ opening. IsOpening cfg.now drive extra opening.state opening.journal
        opening.rings opening.ends.items (vec_capacity opening.ends)) }
{
    let room = most_items(cfg, drive, extra);
    let journal = Journal::new(alloc, room)?;
    let rings = no_rings(alloc, cfg)?;
    let ends = no_ends(alloc, cfg)?;
    let state = State::opening(alloc, cfg)?;
    Ok(Opening {
        state,
        journal,
        rings,
        ends,
    })
}

// The machine of a configuration and its opening.
fn assembled(config: Config, drive: Drive, extra: u32, opening: Opening) -> Machine
    requires sound { IsSound config }
    requires opening { IsOpening config drive extra opening.state opening.journal
        opening.rings opening.ends.items (vec_capacity opening.ends) }
    ensures { result ≡ booted config drive extra }
{
    let Opening {
        state,
        journal,
        rings,
        ends,
    } = opening;
    Machine {
        config,
        drive,
        extra,
        state,
        journal,
        rings,
        ends,
    }
}

// How many extra events may come after one of a thread that had ended or not.
fn extra_after(extra: u32, ended: bool) -> u32
    ensures { result ≡ (if ended then extra - 1 else extra) }
{
    if ended {
        extra.saturating_sub(1)
    } else {
        extra
    }
}

// What a thread is at the end.
fn end_of(thread: &ThreadState) -> End
    ensures { result ≡ end_of_thread thread.now }
{
    End {
        mode: thread.mode,
        steps: thread.steps,
        regs: thread.regs,
    }
}

// Writes the end of each thread where there is room for it.
fn write_ends(threads: &[ThreadState], ends: &mut Vec<End>)
    requires none { ends.old.items ≡ [] }
    requires room { length threads.now ≤ vec_capacity ends.old }
    ensures { ends.new.items ≡ map end_of_thread threads.now }
{
    for thread in threads {
        let _ = ends.push(end_of(thread));
    }
}

mod turns;

impl Machine {
    /// A machine that has done nothing yet. It takes all memory that its run needs.
    pub fn boot(
        alloc: Global,
        config: Config,
        drive: Drive,
        extra: u32,
    ) -> Result<Machine, OutOfMemory>
        requires { IsSound config }
        ensures { IfOk result (λ machine. machine ≡ booted config drive extra) }
    {
        let opening = opened(alloc, &config, drive, extra)?;
        Ok(assembled(config, drive, extra, opening))
    }

    /// The configuration.
    pub fn config(&self) -> &Config
        ensures { result.now ≡ self.now.config }
    {
        &self.config
    }

    /// With the script's drive, how many extra events may come; with running threads, how many rings each device may
    /// make.
    pub fn extra(&self) -> u32
        ensures { result ≡ self.now.extra }
    {
        self.extra
    }

    /// Whether the thread can run no more.
    pub fn ended(&self, t: ThreadId) -> bool
        ensures { result ≡ ended_in (world_of self.now) t.0 }
    {
        self.state.has_ended(t)
    }

    /// What the thread wants: room in the inbox of a box, the next call, or neither.
    pub fn wants(&self, t: ThreadId) -> Want
        ensures exact { result ≡ want_of self.now.config (world_of self.now).flat t.0 }
        ensures room { (b : BoxId) → result ≡ Want.Room b → b.0 < length self.now.config.boxes }
        ensures server { result ≡ Want.Next → serves_box self.now.config t.0 ≡ true }
    {
        self.state.wants(&self.config, t)
    }

    /// The event that the thread's word of the script stands for.
    pub fn script_step(&mut self, t: ThreadId)
        requires thread { t.0 < length self.old.config.threads }
        requires drive { self.old.drive ≡ Drive.Script }
        requires extra { ended_in (world_of self.old) t.0 ≡ true → 1 ≤ self.old.extra }
        ensures { self.new ≡ stepped self.old t }
    {
        let extra = extra_after(self.extra, self.state.has_ended(t));
        self.state
            .step(&self.config, t, Order::Word, &mut self.journal);
        self.extra = extra;
    }

    /// A ring of a line that a box owns, as a word of the script makes it.
    pub fn ring_plain(&mut self, line: Line)
        requires owned { is_owned_line self.old.config line.0 ≡ true }
        requires drive { self.old.drive ≡ Drive.Script }
        requires extra { 1 ≤ self.old.extra }
        ensures { self.new ≡ rung self.old line }
    {
        self.state.ring(line, 0, &mut self.journal);
        self.extra -= 1;
    }

    // What a thread does at once, and what it is answered.
    fn act(&mut self, t: ThreadId, deed: Deed) -> Reply
        requires { IsReady self.old t deed }
        ensures event { self.new ≡ after_event self.old (choice_by t deed) }
        ensures reply { result ≡ (entry_now self.old (choice_by t deed)).reply }
        ensures legal { IsLegal self.new.config (log_now self.new) }
        ensures grown { HasGrown self.old self.new t.0 }
    {
        let order = Order::Given(deed);
        self.state.step(&self.config, t, order, &mut self.journal)
    }

    /// The configuration, and the log with the end of each thread. It takes no memory.
    pub fn into_log(self) -> (Config, Log)
        ensures config { result.0 ≡ self.config }
        ensures items { result.1.items ≡ self.items }
        ensures exact { result.1 ≡ log_of_choices self.config (choices_of self.items) }
        ensures legal { IsLegal self.config result.1 }
    {
        let Machine {
            config,
            drive: _,
            extra: _,
            state,
            journal,
            rings: _,
            mut ends,
        } = self;
        write_ends(state.threads(), &mut ends);
        let log = Log {
            items: journal.into_items(),
            ends: Items::from_vec(ends),
        };
        (config, log)
    }
}

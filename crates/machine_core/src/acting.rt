ghost use Rattle.std.specs.Prelude.{◌≡◌, ◌≤◌, ◌<◌, ◌&&◌, not, map, Some};
ghost use Rattle.flat_model.specs.declared.events.Logged.TheVariants as item;
ghost use Rattle.flat_model.specs.Acting.{CanAct, IsDue};
ghost use Rattle.flat_model.specs.Kernel.{outcome_of};
ghost use Rattle.flat_model.specs.Next.{IsSized, is_page_turn, touch_in};
ghost use Rattle.flat_model.specs.Plan.{plan_of};
ghost use Rattle.flat_model.specs.Step.{is_status};
ghost use Rattle.flat_model.specs.Turn.{turn_row};
ghost use Rattle.flat_model.specs.UnitRun as unit_words;
ghost use Rattle.machine_core.specs.Events.{MayDo, access_granted};
ghost use Rattle.machine_core.specs.Acting as told;
ghost use Rattle.machine_core.specs.Journal.{noted};

use crate::deeds::Deed;
use crate::journal::Journal;
use crate::kernel::MachineKernel;
use crate::unit::ProtectionUnit;
use flat_model::{Actor, Next, Reply, ThreadState, Who};

// Whether a turn that comes to this and was answered so empties the slots of the circle.
fn empties_slots(next: Next, reply: Reply) -> bool
    ensures { result ≡ (is_page_turn next && not (is_status reply)) }
{
    next.is_page_turn() && !reply.is_status()
}

// The actor with room for a call, or without.
fn with_room(actor: Actor<'_>, room: bool) -> Actor<'_>
    ensures who { result.who ≡ record actor.entry.who { room = room } }
    ensures part { result.part.now ≡ actor.entry.part.now }
    ensures program { result.program.now ≡ actor.entry.program.now }
{
    let who = Who { room, ..actor.who };
    Actor { who, ..actor }
}

// A turn of an actor whose box the unit has entered: the unit decides its access, and a page call that was done empties
// the slots of the circle.
fn turn(
    kernel: &mut MachineKernel,
    unit: &mut ProtectionUnit,
    actor: Actor<'_>,
    thread: &mut ThreadState,
    next: Next,
    journal: &mut Journal,
) -> Reply
    requires config { unit.old.config ≡ kernel.old.config }
    requires entered { unit.old.unit.last ≡ Some actor.who.home }
    requires acts { CanAct kernel.old actor.who actor.part.now thread.old }
    requires sized { IsSized next }
    requires due { IsDue kernel.old.shared.lines
        actor.part.now actor.who.home.0 next }
    requires room { 3 ≤ journal.old.room }

    ensures exact { let plan = plan_of kernel.old.config kernel.old.shared.owners
        actor.entry.who.home.0 actor.entry.part.now in
        turn_row kernel.old.config actor.entry.who actor.entry.part.now
        actor.entry.program.now.steps kernel.old.shared thread.old
        (access_granted
        (unit_words.accessed plan unit.old.unit (touch_in next)) (touch_in next)) next
        ≡ outcome_of kernel.new thread.new result }
    ensures config { kernel.new.config ≡ kernel.old.config }
    ensures unit { let plan = plan_of kernel.old.config kernel.old.shared.owners
        actor.entry.who.home.0 actor.entry.part.now in
        unit.new ≡ record unit.old {
          unit = unit_words.flushed (is_page_turn next && not (is_status result))
              (unit_words.accessed plan unit.old.unit (touch_in next));
        } }
    ensures journal { let plan = plan_of kernel.old.config kernel.old.shared.owners
        actor.entry.who.home.0 actor.entry.part.now in
        journal.new ≡ noted (noted journal.old (map item.Unit
        (unit_words.access_lines plan unit.old.unit (touch_in next)))) (map item.Unit
        (unit_words.flush_lines (is_page_turn next && not (is_status result)))) }
{
    let granted = unit.decide_next(next, kernel.owners(), journal);
    let reply = actor.turn(kernel, thread, next, granted);
    unit.settle(empties_slots(next, reply), journal);
    reply
}

/// What an actor does, with the unit's lines: the unit enters its box, and then it takes its turn or serves.
pub(crate) fn act(
    kernel: &mut MachineKernel,
    unit: &mut ProtectionUnit,
    actor: Actor<'_>,
    thread: &mut ThreadState,
    next: Next,
    deed: Deed,
    journal: &mut Journal,
) -> Reply
    requires config { unit.old.config ≡ kernel.old.config }
    requires acts { CanAct kernel.old actor.who actor.part.now thread.old }
    requires sized { IsSized next }
    requires due { IsDue kernel.old.shared.lines
        actor.part.now actor.who.home.0 next }
    requires may { MayDo actor.who actor.part.now kernel.old.shared deed }
    requires room { 4 ≤ journal.old.room }

    ensures exact { told.acted_row kernel.old actor.entry.who actor.entry.part.now
        actor.entry.program.now.steps thread.old unit.old.unit next deed
        ≡ outcome_of kernel.new thread.new result }
    ensures config { kernel.new.config ≡ kernel.old.config }
    ensures unit { unit.new ≡ record unit.old {
      unit = told.acted_unit kernel.old
          actor.entry.who.home actor.entry.part.now unit.old.unit next result deed;
    } }
    ensures journal { journal.new ≡ noted journal.old (map item.Unit (told.acted_lines kernel.old
        actor.entry.who.home actor.entry.part.now unit.old.unit next result deed)) }
{
    unit.enter(actor.who.home, journal);
    match deed {
        Deed::Turn { room } => turn(kernel, unit, with_room(actor, room), thread, next, journal),
        Deed::Serve { ticket } => actor.serve(kernel, thread, ticket),
    }
}

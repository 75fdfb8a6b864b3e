ghost use Rattle.std.specs.Prelude.{◌≡◌, ◌+◌, ◌<◌, ◌≤◌, false, Some, IfOk, IsSome, length, map};
ghost use Rattle.std.specs.Option.{option_map_or};
ghost use Rattle.std.specs.List.{slice_get};
ghost use Rattle.flat_model.specs.declared.events.Logged.TheVariants as item;
ghost use Rattle.addr_base.specs.declared.identity.BoxId.{BoxId};
ghost use Rattle.flat_model.specs.declared.parts.BoxPart.{BoxPart};
ghost use Rattle.flat_model.specs.Decision.{decision, is_granted};
ghost use Rattle.flat_model.specs.Plan.{plan_of};
ghost use Rattle.flat_model.specs.Sound.{IsSound};
ghost use Rattle.flat_model.specs.UnitRun as unit_words;
ghost use Rattle.machine_core.specs.Journal.{noted};
ghost use Rattle.flat_model.specs.Next.{touch_in};
ghost use Rattle.flat_model.specs.Pages.{HasOwners};

use crate::journal::Journal;
use flat_model::{Access, BoxId, Config, Logged, Next, OutOfMemory, UnitLine, Verdict};
use region_rotation::Rotator;
use std::alloc::Global;
use std::marker::Model;
use std::snapshot::Snapshot;

/// The protection unit of a configuration. What it does it notes in the journal.
#[derive(Drop)]
pub(crate) struct ProtectionUnit {
    config: Snapshot<Config>,
    rotator: Rotator,
}

impl Model for ProtectionUnit {
    ghost use Rattle.std.specs.Prelude.{◌≡◌};
    ghost use Rattle.machine_core.specs.Unit.{ProtectionState};
    ghost use Rattle.region_rotation.specs.Rotation.{rotation_of};

    ghost Value = { ProtectionState };

    ghost view = { λ u. record { config = u.config.value; unit = u.rotator.unit } };

    ghost invariant = { λ u. u.rotator ≡ rotation_of u.config.value u.rotator.unit };
}

// Whether the verdict grants.
fn grants(verdict: Verdict) -> bool
    ensures { result ≡ is_granted verdict }
{
    match verdict {
        Verdict::Granted(_) => true,
        Verdict::Denied => false,
    }
}

impl ProtectionUnit {
    /// The unit as it is at the start: no box was entered, and all regions are disabled.
    pub fn new(alloc: Global, cfg: &Config) -> Result<ProtectionUnit, OutOfMemory>
        requires { IsSound cfg.now }
        ensures { IfOk result (λ u.
            u ≡ record { config = cfg.now; unit = unit_words.opening_unit cfg.now }) }
    {
        let rotator = Rotator::new(alloc, cfg)?;
        Ok(ProtectionUnit {
            config: Snapshot::of(cfg),
            rotator,
        })
    }

    /// Switches to a box, where it is not the last already.
    pub fn enter(&mut self, b: BoxId, journal: &mut Journal)
        requires there { b.0 < length self.old.config.boxes }
        requires room { 0 < journal.old.room }
        ensures unit { (part : BoxPart) → slice_get self.old.config.boxes b.0 ≡ Some part
            → self.new ≡ record self.old {
              unit =
                  unit_words.entered self.old.config part self.old.unit b;
            } }
        ensures last { self.new.unit.last ≡ Some b }
        ensures journal { journal.new ≡ noted journal.old (map item.Unit
            (unit_words.switch_lines self.old.unit b)) }
    {
        if self.rotator.enter(b) {
            journal.note(Logged::Unit(UnitLine::Switch(b)));
        }
    }

    // What the unit says of an access, once the first pair of the box's plan that serves it rotated in where it is
    // denied. Nothing is asked again where nothing rotated in.
    fn rotate(
        &mut self,
        access: Access,
        owners: &Vec<Option<BoxId>>,
        journal: &mut Journal,
    ) -> Verdict
        requires entered { IsSome self.old.unit.last }
        requires owners { HasOwners self.old.config.board.heap owners.now.items }
        requires room { 0 < journal.old.room }
        ensures room { journal.old.room ≤ journal.new.room + 1 }
        ensures verdict { result ≡ decision self.new.unit.pairs access.at access.kind }
        ensures unit { (b : BoxId) (part : BoxPart)
            → self.old.unit.last ≡ Some b → slice_get self.old.config.boxes b.0 ≡ Some part
            → self.new ≡ record self.old {
              unit = unit_words.rotated self.old.unit
                  (unit_words.rotating_pair (plan_of self.old.config owners.now.items b.0 part)
                  self.old.unit access);
            } }
        ensures journal { (b : BoxId) (part : BoxPart)
            → self.old.unit.last ≡ Some b → slice_get self.old.config.boxes b.0 ≡ Some part
            → journal.new ≡ noted journal.old (map item.Unit (unit_words.rotate_lines self.old.unit
            (unit_words.rotating_pair (plan_of self.old.config owners.now.items b.0 part)
            self.old.unit access))) }
    {
        match self.rotator.decide(access.at, access.kind) {
            Verdict::Granted(slot) => Verdict::Granted(slot),
            Verdict::Denied => {
                let Some(rotated) = self.rotator.recover(access.at, access.kind, owners) else {
                    return Verdict::Denied;
                };
                journal.note(Logged::Unit(UnitLine::Rotate {
                    slot: rotated.slot,
                    pair: rotated.pair,
                }));
                self.rotator.decide(access.at, access.kind)
            }
        }
    }

    // Whether the unit grants an access of the box that was entered. The first pair of the box's plan that serves it
    // rotates in where it is denied.
    fn decide(&mut self, access: Access, owners: &Vec<Option<BoxId>>, journal: &mut Journal) -> bool
        requires entered { IsSome self.old.unit.last }
        requires owners { HasOwners self.old.config.board.heap owners.now.items }
        requires room { 1 < journal.old.room }
        ensures granted { result ≡ is_granted (decision self.new.unit.pairs access.at access.kind) }
        ensures unit { (b : BoxId) (part : BoxPart)
            → self.old.unit.last ≡ Some b → slice_get self.old.config.boxes b.0 ≡ Some part
            → self.new ≡ record self.old {
              unit = unit_words.accessed
                  (plan_of self.old.config owners.now.items b.0 part) self.old.unit (Some access);
            } }
        ensures journal { (b : BoxId) (part : BoxPart)
            → self.old.unit.last ≡ Some b → slice_get self.old.config.boxes b.0 ≡ Some part
            → journal.new ≡ noted journal.old (map item.Unit
            (unit_words.access_lines (plan_of self.old.config owners.now.items b.0 part)
            self.old.unit (Some access))) }
    {
        let verdict = self.rotate(access, owners, journal);
        journal.note(Logged::Unit(UnitLine::Access {
            kind: access.kind,
            size: access.size,
            at: access.at,
            verdict,
        }));
        grants(verdict)
    }

    /// Whether the unit grants the access that a turn decides, if it decides one.
    pub fn decide_next(
        &mut self,
        next: Next,
        owners: &Vec<Option<BoxId>>,
        journal: &mut Journal,
    ) -> bool
        requires entered { IsSome self.old.unit.last }
        requires owners { HasOwners self.old.config.board.heap owners.now.items }
        requires room { 1 < journal.old.room }
        ensures granted { result ≡ option_map_or (λ access. is_granted
            (decision self.new.unit.pairs access.at access.kind)) (touch_in next) false }
        ensures unit { (b : BoxId) (part : BoxPart)
            → self.old.unit.last ≡ Some b → slice_get self.old.config.boxes b.0 ≡ Some part
            → self.new ≡ record self.old {
              unit = unit_words.accessed
                  (plan_of self.old.config owners.now.items b.0 part) self.old.unit (touch_in next);
            } }
        ensures journal { (b : BoxId) (part : BoxPart)
            → self.old.unit.last ≡ Some b → slice_get self.old.config.boxes b.0 ≡ Some part
            → journal.new ≡ noted journal.old (map item.Unit
            (unit_words.access_lines (plan_of self.old.config owners.now.items b.0 part)
            self.old.unit (touch_in next))) }
    {
        match next.touch() {
            Some(access) => self.decide(access, owners, journal),
            None => false,
        }
    }

    /// Disables the slots of the circle where an event empties them.
    pub fn settle(&mut self, empties: bool, journal: &mut Journal)
        requires room { 0 < journal.old.room }
        ensures unit { self.new ≡ record self.old {
          unit = unit_words.flushed empties
              self.old.unit;
        } }
        ensures journal { journal.new ≡ noted journal.old (map item.Unit
            (unit_words.flush_lines empties)) }
    {
        if empties {
            self.rotator.flush();
            journal.note(Logged::Unit(UnitLine::Flush));
        }
    }
}

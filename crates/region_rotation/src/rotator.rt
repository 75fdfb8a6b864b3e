ghost use Rattle.std.specs.Prelude.{◌≡◌, ◌<◌, Some, List, true, not, length, is_some, option_map, IfNone, IfOk, IfSome, IsSome};
ghost use Rattle.std.specs.Bool.{OnFalse};
ghost use Rattle.std.specs.List.{slice_get};
ghost use Rattle.addr_base.specs.declared.identity.BoxId.{BoxId};
ghost use Rattle.addr_base.specs.declared.pairs.Verdict.TheVariants.{Denied};
ghost use Rattle.flat_model.specs.declared.parts.BoxPart.{BoxPart};
ghost use Rattle.flat_model.specs.declared.parts.Config.{Config};
ghost use Rattle.flat_model.specs.Access.{holds};
ghost use Rattle.flat_model.specs.Decision.{decision, is_granted};
ghost use Rattle.flat_model.specs.Plan.{REGIONS, first_serving, plan_of};
ghost use Rattle.flat_model.specs.Sound.{IsSound};
ghost use Rattle.flat_model.specs.UnitRun.{UnitState, entered, flushed, is_last, opening_unit, rotated};
ghost use Rattle.region_rotation.specs.declared.home.HomePairs.{HomePairs};
ghost use Rattle.region_rotation.specs.Directories.{AnswersFor};
ghost use Rattle.region_rotation.specs.Ready.{IsHeapBelow, plan_at};

use crate::home::{HomePairs, directories_of, homes_of};
use crate::lookup::find;
use crate::pages::first_page_group;
use crate::slots::{FIRST, empty_circle, load, next_of, switch_to};
use flat_model::{BoxId, Config, HeapPart, Kind, OutOfMemory, Pair, Rotated, Verdict};
use pmsa_unit::{Unit, gives_kind};
use region_packer::Directory;
use std::alloc::Global;
use std::marker::Model;

/// The unit, the box that it was last switched to, and the circle's slot. Contracts see the regions
/// of the boxes and the state of the unit's run.
#[derive(Debug, Drop)]
pub struct Rotator {
    homes: Vec<HomePairs>,
    directories: Vec<Directory>,
    heap: Option<HeapPart>,
    unit: Unit,
    last: Option<BoxId>,
    circle: usize,
}

impl Model for Rotator {
    ghost use Rattle.region_rotation.specs.Directories.{AreDirectories};
    ghost use Rattle.region_rotation.specs.Ready.{IsReady};
    ghost use Rattle.region_rotation.specs.Rotation.{Rotation};

    ghost Value = { Rotation };

    ghost view = { λ r. record {
      homes = r.homes.items;
      heap = r.heap;
      unit = record { last = r.last; pairs = r.unit; circle = r.circle };
    } };

    ghost invariant = { λ r. IsReady r.homes.items r.heap r.last r.unit r.circle
        × AreDirectories r.homes.items r.directories.items };
}

// The pair of the block that has the address, if it gives the kind.
fn grant_serving(directory: &mut Directory, a: u32, kind: Kind) -> Option<Pair>
    ensures exact { (pairs : List Pair) → AnswersFor pairs directory.old.blocks
        → result ≡ first_serving a kind pairs }
    ensures blocks { directory.new.blocks ≡ directory.old.blocks }
{
    let Some(i) = find(directory, a) else {
        return None;
    };
    let pair = directory.probe(i).pair;
    if gives_kind(pair, kind) {
        Some(pair)
    } else {
        None
    }
}

// The first pair of a box's plan that, taken alone, grants the access: of its grants by the directory, and of its pages
// by division.
fn serving(
    directory: &mut Directory,
    heap: Option<HeapPart>,
    owners: &[Option<BoxId>],
    b: BoxId,
    a: u32,
    kind: Kind,
) -> Option<Pair>
    requires heap { IfSome heap IsHeapBelow }
    requires owners { IfSome heap (λ h. length owners.now ≡ h.count) }
    ensures exact { (home : HomePairs) → AnswersFor home.grants directory.old.blocks
        → result ≡ first_serving a kind (plan_at heap home b.0 owners.now) }
    ensures blocks { directory.new.blocks ≡ directory.old.blocks }
{
    if let Some(pair) = grant_serving(directory, a, kind) {
        return Some(pair);
    }
    match heap {
        Some(heap) => first_page_group(heap, owners, b, a, kind),
        None => None,
    }
}

impl Rotator {
    ghost use Rattle.region_rotation.specs.Rotation.{rotation_of};

    /// The rotator of a configuration: no box was entered, and all regions are disabled.
    pub fn new(alloc: Global, cfg: &Config) -> Result<Rotator, OutOfMemory>
        requires { IsSound cfg.now }
        ensures { IfOk result (λ r. r ≡ rotation_of cfg.now (opening_unit cfg.now)) }
    {
        let homes = homes_of(alloc, cfg)?;
        let directories = directories_of(alloc, cfg)?;
        Ok(Rotator {
            homes,
            directories,
            heap: cfg.board.heap,
            unit: Unit::new(),
            last: None,
            circle: FIRST,
        })
    }

    /// Switches to a box, unless it is the last one already; then nothing changes.
    pub fn enter(&mut self, b: BoxId) -> bool
        requires { b.0 < length self.old.homes }

        ensures switched { result ≡ not (is_last self.old.unit.last b.0) }
        ensures last { self.new.unit.last ≡ Some b }

        // For a box of the configuration that the rotator was made of:
        ensures run { (cfg : Config) (part : BoxPart) (unit : UnitState)
            → self.old ≡ rotation_of cfg unit
            → slice_get cfg.boxes b.0 ≡ Some part
            → self.new ≡ rotation_of cfg (entered cfg part unit b) }

        ensures unchanged { OnFalse result (self.new ≡ self.old) }
        ensures others { self.new ≡ record self.old { unit = self.new.unit } }
    {
        if self.last == Some(b) {
            return false;
        }
        let home = &self.homes[usize::from(b.0)];
        switch_to(&mut self.unit, home.flash, home.own, home.overlay);
        self.last = Some(b);
        self.circle = FIRST;
        true
    }

    /// The pair in a slot.
    pub fn pair(&self, slot: usize) -> Pair
        requires { slot < REGIONS }
        ensures { slice_get self.now.unit.pairs slot ≡ Some result }
    {
        self.unit.pair(slot)
    }

    /// What the unit says of an access.
    pub fn decide(&self, a: u32, kind: Kind) -> Verdict
        ensures { result ≡ decision self.now.unit.pairs a kind }
    {
        self.unit.decide(a, kind)
    }

    /// After a denial: gives the circle's slot the first pair of the entered box's plan that grants
    /// the access, where there is one. Whatever rotated in before, there is one exactly where the box
    /// holds the byte.
    pub fn recover(&mut self, a: u32, kind: Kind, owners: &Vec<Option<BoxId>>) -> Option<Rotated>
        requires entered { IsSome self.old.unit.last }
        requires denied { decision self.old.unit.pairs a kind ≡ Denied }
        requires owners { IfSome self.old.heap (λ heap. length owners.now.items ≡ heap.count) }

        // For the box that was entered, of the configuration that the rotator was made of:
        ensures run { (cfg : Config) (b : BoxId) (part : BoxPart) (unit : UnitState)
            → self.old ≡ rotation_of cfg unit
            → unit.last ≡ Some b
            → slice_get cfg.boxes b.0 ≡ Some part
            → let pair = first_serving a kind (plan_of cfg owners.now.items b.0 part) in
            (self.new ≡ rotation_of cfg (rotated unit pair))
            × (result ≡ option_map (λ p. record { slot = unit.circle; pair = p }) pair) }
        ensures held { (cfg : Config) (b : BoxId) (part : BoxPart) (unit : UnitState)
            → self.old ≡ rotation_of cfg unit
            → unit.last ≡ Some b
            → slice_get cfg.boxes b.0 ≡ Some part
            → IsSound cfg
            → is_some result ≡ holds cfg owners.now.items b.0 a 1 kind }
        ensures granted { (cfg : Config) (b : BoxId) (part : BoxPart) (unit : UnitState)
            → self.old ≡ rotation_of cfg unit
            → unit.last ≡ Some b
            → slice_get cfg.boxes b.0 ≡ Some part
            → IsSound cfg
            → is_granted (decision self.new.unit.pairs a kind)
            ≡ holds cfg owners.now.items b.0 a 1 kind }

        ensures none { IfNone result (self.new ≡ self.old) }
        ensures last { self.new.unit.last ≡ self.old.unit.last }
        ensures others { self.new ≡ record self.old { unit = self.new.unit } }
    {
        let b = self.last.unwrap();
        let directory = &mut self.directories[usize::from(b.0)];
        let Some(pair) = serving(directory, self.heap, owners.as_slice(), b, a, kind) else {
            return None;
        };
        let slot = self.circle;
        load(&mut self.unit, slot, pair);
        self.circle = next_of(slot);
        Some(Rotated {
            slot: slot as u8,
            pair,
        })
    }

    /// Disables the slots of the circle, which stands at its first slot again.
    pub fn flush(&mut self)
        ensures { self.new ≡ record self.old { unit = flushed true self.old.unit } }
    {
        empty_circle(&mut self.unit);
        self.circle = FIRST;
    }
}

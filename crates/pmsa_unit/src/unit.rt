ghost use Rattle.std.specs.Prelude.{◌≡◌, true, ◌<◌, ◌↔◌, IfErr, IsOk, OnErr, OnOk, replicate, slice_get, slice_set, Some};
ghost use Rattle.flat_model.specs.Decision.{decision, is_region};
ghost use Rattle.flat_model.specs.Plan.{REGIONS, no_pair};

use crate::region::{gives_kind, is_valid, matches_address};
use flat_model::{BadRegion, Kind, Pair, Verdict};
use std::marker::Model;

/// How many regions the unit has.
pub const SLOTS: usize = 8;

/// A region that is disabled.
const OFF: Pair = Pair { rbar: 0, rasr: 0 };

/// The unit's regions, which contracts see as the list of their pairs.
#[derive(Debug, Drop)]
pub struct Unit {
    pairs: [Pair; SLOTS],
}

impl Model for Unit {
    ghost use Rattle.std.specs.Prelude.{◌≡◌, List, length};
    ghost use Rattle.addr_base.specs.declared.pairs.Pair.{Pair};

    ghost Value = { List Pair };

    ghost view = { λ u. u.pairs };

    ghost invariant = { λ u. length u.pairs ≡ 8 };
}

impl Unit {
    /// A unit whose regions are all disabled.
    pub fn new() -> Unit
        ensures { result ≡ replicate 8 no_pair }
    {
        Unit {
            pairs: [OFF; SLOTS],
        }
    }

    /// Puts a valid region into a slot.
    pub fn write(&mut self, slot: usize, pair: Pair) -> Result<(), BadRegion>
        requires { slot < REGIONS }

        ensures ok { OnOk result (self.new ≡ slice_set self.old slot pair) }

        ensures cause { IsOk result ↔ (is_region pair ≡ true) }
        ensures bad { IfErr result (λ e. e.pair ≡ pair) }
        ensures err { OnErr result (self.new ≡ self.old) }
    {
        if !is_valid(pair) {
            return Err(BadRegion { pair });
        }
        put(&mut self.pairs, slot, pair);
        Ok(())
    }

    /// Disables the region of a slot.
    pub fn clear(&mut self, slot: usize)
        requires { slot < REGIONS }
        ensures { self.new ≡ slice_set self.old slot no_pair }
    {
        put(&mut self.pairs, slot, OFF);
    }

    /// The pair in a slot.
    pub fn pair(&self, slot: usize) -> Pair
        requires { slot < REGIONS }
        ensures { slice_get self.now slot ≡ Some result }
    {
        at(&self.pairs, slot)
    }

    /// What the unit says of an access: the matching region with the greatest number decides.
    pub fn decide(&self, a: u32, kind: Kind) -> Verdict
        ensures exact { result ≡ decision self.now a kind }
    {
        verdict(&self.pairs, a, kind)
    }
}

fn put(pairs: &mut [Pair; SLOTS], slot: usize, pair: Pair)
    requires { slot < REGIONS }
    ensures { pairs.new ≡ slice_set pairs.old slot pair }
{
    pairs[slot] = pair;
}

fn at(pairs: &[Pair; SLOTS], slot: usize) -> Pair
    requires { slot < REGIONS }
    ensures { slice_get pairs.now slot ≡ Some result }
{
    pairs[slot]
}

fn verdict(pairs: &[Pair; SLOTS], a: u32, kind: Kind) -> Verdict
    ensures { result ≡ decision pairs.now a kind }
{
    for slot in (0..SLOTS).rev() {
        let pair = pairs[slot];
        if matches_address(pair, a) {
            return if gives_kind(pair, kind) {
                Verdict::Granted(slot as u8)
            } else {
                Verdict::Denied
            };
        }
    }
    Verdict::Denied
}

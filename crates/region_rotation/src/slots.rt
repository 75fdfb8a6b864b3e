ghost use Rattle.std.specs.Prelude.{◌≡◌, ◌+◌, ◌<◌, length, slice_set};
ghost use Rattle.flat_model.specs.Plan.{REGIONS, flushed_pairs, next_slot, slots_from};
ghost use Rattle.region_rotation.specs.Ready.{IsKnown};

use crate::home::OFF;
use flat_model::Pair;
use pmsa_unit::{SLOTS, Unit};

/// The slot of the circle that a switch and a flush leave next.
pub const FIRST: usize = 2;

/// The slot of the region that hides the secret range.
const LAST: usize = SLOTS - 1;

/// Gives a slot a pair, or disables it.
pub fn load(unit: &mut Unit, slot: usize, pair: Pair)
    requires slot { slot < REGIONS }
    requires known { IsKnown pair }
    ensures { unit.new ≡ slice_set unit.old slot pair }
{
    if pair == OFF {
        unit.clear(slot);
    } else {
        unit.write(slot, pair).unwrap();
    }
}

/// Disables the slots of the circle.
pub fn empty_circle(unit: &mut Unit)
    requires { length unit.old ≡ 8 }
    ensures { unit.new ≡ flushed_pairs unit.old }
{
    for slot in FIRST..LAST {
        unit.clear(slot);
    }
}

/// Puts the regions of a switch into the slots.
pub fn switch_to(unit: &mut Unit, flash: Pair, own: Pair, overlay: Pair)
    requires regions { length unit.old ≡ 8 }
    requires flash { IsKnown flash }
    requires own { IsKnown own }
    requires overlay { IsKnown overlay }
    ensures { unit.new ≡ slots_from REGIONS flash own overlay }
{
    empty_circle(unit);
    load(unit, 0, flash);
    load(unit, 1, own);
    load(unit, LAST, overlay);
}

/// The slot that follows on the circle.
pub fn next_of(slot: usize) -> usize
    requires { slot < REGIONS }
    ensures { result ≡ next_slot REGIONS slot }
{
    if slot + 2 == SLOTS { FIRST } else { slot + 1 }
}

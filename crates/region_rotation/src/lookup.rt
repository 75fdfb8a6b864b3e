ghost use Rattle.std.specs.Prelude.{◌≡◌, ℕ, ◌+◌, ◌-◌, ◌*◌, ◌^◌, ◌≤◌, IfNone, IfSome, Some, length, false};
ghost use Rattle.std.specs.List.{slice_get};
ghost use Rattle.addr_base.specs.Range.{in_range};
ghost use Rattle.region_packer.specs.declared.directory.Block.{Block};
ghost use Rattle.region_rotation.specs.Finding.{HasAt};

use region_packer::Directory;

/// The number of the block whose part has the address. Of the blocks that are left each look drops at least half, so
/// with n blocks there are at most as many looks as the greatest p for which 2^p is at most 2n + 1.
pub fn find(dir: &mut Directory, a: u32) -> Option<u32>
    ensures found { IfSome result (HasAt dir.old.blocks a) }
    ensures none { IfNone result ((i : ℕ) (block : Block)
        → slice_get dir.old.blocks i ≡ Some block → in_range block.part a ≡ false) }

    ensures blocks { dir.new.blocks ≡ dir.old.blocks }
    ensures grew { dir.old.probes ≤ dir.new.probes }
    ensures bound { 2 ^ (dir.new.probes - dir.old.probes) ≤ 2 * length dir.old.blocks + 1 }
{
    let mut low = 0;
    let mut high = dir.len();
    while low < high {
        let middle = low + (high - low) / 2;
        let block = dir.probe(middle);
        if a < block.part.base {
            high = middle;
        } else if (a as u64) < block.part.end() {
            return Some(middle);
        } else {
            low = middle + 1;
        }
    }
    None
}

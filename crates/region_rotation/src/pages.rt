ghost use Rattle.std.specs.Prelude.{◌≡◌, ◌+◌, ◌*◌, ◌/◌, ◌<◌, ◌≤◌, Some, length};
ghost use Rattle.flat_model.specs.Access.{owned_by};
ghost use Rattle.flat_model.specs.Plan.{first_serving, owned_mask, page_group, page_pairs, serves};
ghost use Rattle.region_rotation.specs.Ready.{IsHeapBelow};

use flat_model::{BoxId, HeapPart, Kind, Pair};
use pmsa_unit::{gives_kind, matches_address};
use region_packer::group;

// Whether the pair, taken alone, grants the access.
fn is_serving(pair: Pair, a: u32, kind: Kind) -> bool
    ensures { result ≡ serves a kind pair }
{
    matches_address(pair, a) && gives_kind(pair, kind)
}

// Whether the frame's owner is the box.
fn is_owner(owner: Option<BoxId>, b: BoxId) -> bool
    ensures { result ≡ owned_by b.0 owner }
{
    match owner {
        Some(id) => id.0 == b.0,
        None => false,
    }
}

// The bits of the box's frames among the eight from one on.
fn mask_of(owners: &[Option<BoxId>], b: BoxId, first: usize) -> u8
    requires { first + 8 ≤ length owners.now }
    ensures { result ≡ owned_mask owners.now b.0 first 8 }
{
    let mut mask: u8 = 0;
    for i in 0..8 {
        if is_owner(owners[first + i], b) {
            mask += 1 << i;
        }
    }
    mask
}

// The region of page group `g` of the box, if it grants the access.
fn group_serving(
    heap: HeapPart,
    owners: &[Option<BoxId>],
    b: BoxId,
    g: u32,
    a: u32,
    kind: Kind,
) -> Option<Pair>
    requires heap { IsHeapBelow heap }
    requires owners { length owners.now ≡ heap.count }
    requires group { g < heap.count / 8 }
    ensures { result ≡ first_serving a kind (page_group heap owners.now b.0 g) }
{
    let mask = mask_of(owners, b, 8 * g as usize);
    let base = heap.base + 8 * g * heap.page;
    let Some(pair) = group(base, heap.page, mask) else {
        return None;
    };
    if is_serving(pair, a, kind) {
        Some(pair)
    } else {
        None
    }
}

/// The region of a page group of the box that, taken alone, grants the access. Only the group in which the address
/// lies can have one, and division finds it.
pub fn first_page_group(
    heap: HeapPart,
    owners: &[Option<BoxId>],
    b: BoxId,
    a: u32,
    kind: Kind,
) -> Option<Pair>
    requires heap { IsHeapBelow heap }
    requires owners { length owners.now ≡ heap.count }
    ensures { result ≡ first_serving a kind (page_pairs (Some heap) owners.now b.0) }
{
    if a < heap.base {
        return None;
    }
    let bytes = 8 * heap.page;
    let g = (a - heap.base) / bytes;
    if g >= heap.count / 8 {
        return None;
    }
    group_serving(heap, owners, b, g, a, kind)
}

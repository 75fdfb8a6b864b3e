ghost use Rattle.std.specs.Prelude.{◌≡◌, []};
ghost use Rattle.flat_model.specs.First.{first_after, first_index};
ghost use Rattle.acl_resolver.specs.Refusals.{clash, clash_at, clash_of, clashes_in, do_clash, do_overlap, overlaps_one, self_overlap, self_overlap_of};

use crate::grants::rounded_range;
use crate::placing::numbered;
use flat_model::{BoxText, GrantText, Refused};

// Whether two grants, once they are rounded, have an address in common.
fn do_overlap(first: GrantText, second: GrantText) -> bool
    ensures { result ≡ do_overlap first second }
{
    rounded_range(first).overlaps(&rounded_range(second))
}

// Whether a grant overlaps one of these.
fn overlaps_one(earlier: &[GrantText], grant: GrantText) -> bool
    ensures { result ≡ overlaps_one earlier.now grant }
{
    for other in earlier {
        if do_overlap(grant, *other) {
            return true;
        }
    }
    false
}

// The first of the grants that overlaps an earlier one.
fn first_overlap(grants: &[GrantText]) -> Option<u32>
    ensures { result ≡ first_after overlaps_one 0 [] grants.now }
{
    for (j, grant) in grants.iter().enumerate() {
        if overlaps_one(&grants[..j], *grant) {
            return Some(numbered(j));
        }
    }
    None
}

// A grant of a box that overlaps an earlier one.
fn self_overlap_of(i: u32, part: &BoxText) -> Option<Refused>
    ensures { result ≡ self_overlap_of i part.now }
{
    let grant = first_overlap(part.grants.as_slice())?;
    Some(Refused::SelfOverlap { at_box: i, grant })
}

/// A grant that overlaps an earlier one of its box.
pub fn self_overlap(boxes: &[BoxText]) -> Option<Refused>
    ensures { result ≡ self_overlap boxes.now }
{
    for (i, part) in boxes.iter().enumerate() {
        if let Some(refused) = self_overlap_of(numbered(i), part) {
            return Some(refused);
        }
    }
    None
}

// Whether two grants of two boxes overlap and are not both shared.
fn do_clash(first: GrantText, second: GrantText) -> bool
    ensures { result ≡ do_clash first second }
{
    do_overlap(first, second) && !(first.shared && second.shared)
}

// Whether a grant clashes with one of a box.
fn clashes_in(grant: GrantText, part: &BoxText) -> bool
    ensures { result ≡ clashes_in grant part.now }
{
    for other in part.grants.as_slice() {
        if do_clash(grant, *other) {
            return true;
        }
    }
    false
}

// The least of the boxes that a grant clashes with.
fn clashing_box(grant: GrantText, earlier: &[BoxText]) -> Option<u32>
    ensures { result ≡ first_index (clashes_in grant) 0 earlier.now }
{
    for (i, part) in earlier.iter().enumerate() {
        if clashes_in(grant, part) {
            return Some(numbered(i));
        }
    }
    None
}

// The clash of a grant of box i with an earlier box.
fn clash_at(earlier: &[BoxText], i: u32, grant: GrantText) -> Option<Refused>
    ensures { result ≡ clash_at earlier.now i grant }
{
    let first = clashing_box(grant, earlier)?;
    Some(Refused::Clash { first, second: i })
}

// The first grant of a box that clashes with an earlier box, and the least of them.
fn clash_of(earlier: &[BoxText], i: u32, part: &BoxText) -> Option<Refused>
    ensures { result ≡ clash_of earlier.now i part.now }
{
    for grant in part.grants.as_slice() {
        if let Some(refused) = clash_at(earlier, i, *grant) {
            return Some(refused);
        }
    }
    None
}

/// The first grant that clashes with an earlier box's, and the least such box.
pub fn clash(boxes: &[BoxText]) -> Option<Refused>
    ensures { result ≡ clash boxes.now }
{
    for (i, part) in boxes.iter().enumerate() {
        if let Some(refused) = clash_of(&boxes[..i], numbered(i), part) {
            return Some(refused);
        }
    }
    None
}

ghost use Rattle.std.specs.Prelude.{◌≡◌, ◌≤◌};
ghost use Rattle.acl_resolver.specs.Refusals.{bad_grant, bad_grant_at, bad_grant_of, first_numbered, is_grantable, is_inside, outside_at, outside_of, range_as_written, range_at_multiple, rounded, rounded_by, rounded_range};

use crate::placing::numbered;
use addr_base::{Range, round_down, round_up};
use flat_model::{Board, BoxText, GrantText, Refused, Round};

// A base and a length that are multiples of 32, the length not 0.
fn range_as_written(base: u32, len: u32) -> Option<Range>
    ensures { result ≡ range_as_written base len }
{
    if base % 32 == 0 && len % 32 == 0 && len != 0 {
        Some(Range { base, len })
    } else {
        None
    }
}

// A base and a length where the length divides the base.
fn range_at_multiple(base: u32, len: u32) -> Option<Range>
    requires { 1 ≤ len }
    ensures { result ≡ range_at_multiple base len }
{
    if base % len == 0 {
        Some(Range { base, len })
    } else {
        None
    }
}

// The range whose length is rounded up, where its base is a multiple of it.
fn rounded_up(base: u32, len: u32) -> Option<Range>
    ensures { result ≡ rounded_by Round.Up base len }
{
    range_at_multiple(base, round_up(len)?)
}

// The range whose length is rounded down, where its base is a multiple of it.
fn rounded_down(base: u32, len: u32) -> Option<Range>
    ensures { result ≡ rounded_by Round.Down base len }
{
    range_at_multiple(base, round_down(len)?)
}

/// The range of a grant once it is rounded, where its rule lets it be.
pub fn rounded(grant: GrantText) -> Option<Range>
    ensures { result ≡ rounded grant }
{
    match grant.round {
        Round::Plain => range_as_written(grant.base, grant.len),
        Round::Up => rounded_up(grant.base, grant.len),
        Round::Down => rounded_down(grant.base, grant.len),
    }
}

/// The range of a grant once it is rounded, or as it is written where its rule does not let it be.
pub fn rounded_range(grant: GrantText) -> Range
    ensures { result ≡ rounded_range grant }
{
    match rounded(grant) {
        Some(range) => range,
        None => Range {
            base: grant.base,
            len: grant.len,
        },
    }
}

// The grant, where its rounding rule fails.
fn bad_grant_at(i: u32, j: u32, grant: GrantText) -> Option<Refused>
    ensures { result ≡ bad_grant_at i j grant }
{
    match rounded(grant) {
        Some(_) => None,
        None => Some(Refused::BadGrant {
            at_box: i,
            grant: j,
        }),
    }
}

// A grant of a box whose rounding rule fails.
fn bad_grant_of(i: u32, part: &BoxText) -> Option<Refused>
    ensures { result ≡ bad_grant_of i part.now }
{
    for (j, grant) in part.grants.as_slice().iter().enumerate() {
        if let Some(refused) = bad_grant_at(i, numbered(j), *grant) {
            return Some(refused);
        }
    }
    None
}

/// A grant whose rounding rule fails.
pub fn bad_grant(boxes: &[BoxText]) -> Option<Refused>
    ensures { result ≡ bad_grant boxes.now }
{
    for (i, part) in boxes.iter().enumerate() {
        if let Some(refused) = bad_grant_of(numbered(i), part) {
            return Some(refused);
        }
    }
    None
}

// Whether every address of the first range is in the second.
fn is_inside(inner: Range, outer: Range) -> bool
    ensures { result ≡ is_inside inner outer }
{
    outer.base <= inner.base && inner.end() <= outer.end()
}

// Whether the range lies in the peripherals or in the common part.
fn is_grantable(board: &Board, common: Range, range: Range) -> bool
    ensures { result ≡ is_grantable board.now common range }
{
    is_inside(range, board.peripherals) || is_inside(range, common)
}

// The grant, where it is rounded to neither the peripherals nor the common part.
fn outside_at(board: &Board, common: Range, i: u32, j: u32, grant: GrantText) -> Option<Refused>
    ensures { result ≡ outside_at board.now common i j grant }
{
    if is_grantable(board, common, rounded_range(grant)) {
        None
    } else {
        Some(Refused::GrantOutside {
            at_box: i,
            grant: j,
        })
    }
}

// A rounded grant of a box that is neither in the peripherals nor in the common part.
fn outside_of(board: &Board, common: Range, i: u32, part: &BoxText) -> Option<Refused>
    ensures { result ≡ outside_of board.now common i part.now }
{
    for (j, grant) in part.grants.as_slice().iter().enumerate() {
        if let Some(refused) = outside_at(board, common, i, numbered(j), *grant) {
            return Some(refused);
        }
    }
    None
}

/// A rounded grant that is neither in the peripherals nor in the common part, which is given.
pub fn grant_outside(board: &Board, common: Range, boxes: &[BoxText]) -> Option<Refused>
    ensures { result ≡ first_numbered (outside_of board.now common) 0 boxes.now }
{
    for (i, part) in boxes.iter().enumerate() {
        if let Some(refused) = outside_of(board, common, numbered(i), part) {
            return Some(refused);
        }
    }
    None
}

ghost use Rattle.std.specs.Prelude.{◌≡◌, ℕ, true, ◌+◌, ◌%◌, ◌^◌, ◌<◌, ◌≤◌, All, [], length};
ghost use Rattle.std.specs.List.{list_any};
ghost use Rattle.addr_base.specs.declared.rights.Kind.{Kind};
ghost use Rattle.addr_base.specs.Range.{ADDRESS_END, end_of, in_range};
ghost use Rattle.addr_base.specs.Rights.{gives};
ghost use Rattle.flat_model.specs.Cover.{attributes, cover_of};
ghost use Rattle.flat_model.specs.Decision.{is_region, matches, pair_gives};
ghost use Rattle.flat_model.specs.Sound.{IsGrantRights};

use crate::blocks::{bytes_of, exponent_at, region_at};
use arrayvec::ArrayVec;
use flat_model::{Kind, Pair, Range, Rights};

/// Attributes of a region that unprivileged code may read, before a write or a fetch is allowed.
const READ_ONLY: u32 = 0x1600_0001;

/// What a region that may be written has less in AP: 3 in place of 6.
const WRITABLE: u32 = 0x0300_0000;

/// The bit that forbids a fetch.
const NEVER: u32 = 0x1000_0000;

fn attributes_of(rights: Rights) -> u32
    ensures exact { result ≡ attributes rights }
    ensures room { result < 2 ^ 31 }
{
    let never = if rights.gives(Kind::Fetch) { NEVER } else { 0 };
    let writable = if rights.gives(Kind::Write) {
        WRITABLE
    } else {
        0
    };
    READ_ONLY - never - writable
}

/// Appends the regions of a range: touching blocks in the order of their addresses, each the largest
/// power of two that divides its base and ends within the range.
pub fn cover(range: Range, rights: Rights, out: &mut ArrayVec<Pair, 64>)
    requires empty { out.old.items ≡ [] }
    requires base { range.base % 32 ≡ 0 }
    requires len { range.len % 32 ≡ 0 }
    requires end { end_of range ≤ ADDRESS_END }
    requires rights { IsGrantRights rights }

    ensures exact { out.new.items ≡ cover_of range rights }

    // What those regions are: few, valid, with exactly the range's addresses and the rights' kinds.
    ensures few { length out.new.items ≤ 54 }
    ensures valid { All (λ p. is_region p ≡ true) out.new.items }
    ensures addresses { (a : ℕ)
        → list_any (λ p. matches p a) out.new.items ≡ in_range range a }
    ensures kinds { All (λ p. (kind : Kind) → pair_gives p kind ≡ gives rights kind) out.new.items }
{
    let bits = attributes_of(rights);
    let end = range.base + range.len;
    let mut at = range.base;
    while at < end {
        let exponent = exponent_at(at, end);
        out.push(region_at(at, exponent, bits));
        at += bytes_of(exponent);
    }
}

ghost use Rattle.std.specs.Prelude.{◌≡◌, ◌+◌, ◌^◌, ◌<◌};
ghost use Rattle.std.specs.List.{list_any};
ghost use Rattle.addr_base.specs.Range as range_words;
ghost use Rattle.flat_model.specs.Access as spec;

use crate::boards::HeapPart;
use crate::parts::{BoxPart, Item};
use addr_base::{BoxId, Kind, Range};

/// Whether an address is a multiple of the size of the access.
pub fn is_aligned(a: u64, n: u8) -> bool
    requires { 0 < n }
    ensures { result ≡ spec.is_aligned a n }
{
    a % n as u64 == 0
}

// Whether the `n` bytes from an address lie in the range.
fn holds_bytes(range: &Range, a: u64, n: u8) -> bool
    requires { a < 2 ^ 33 }
    ensures { result ≡ range_words.holds_bytes range.now a n }
{
    let end = range.base as u64 + range.len as u64;
    range.base as u64 <= a && a + n as u64 <= end
}

// Whether the item contains the bytes and gives the kind.
fn item_holds(item: &Item, a: u64, n: u8, kind: Kind) -> bool
    requires { a < 2 ^ 33 }
    ensures { result ≡ spec.item_holds a n kind item.now }
{
    holds_bytes(&item.range, a, n) && item.rights.gives(kind)
}

// Whether one of the items contains the bytes and gives the kind.
fn items_hold(items: &[Item], a: u64, n: u8, kind: Kind) -> bool
    requires { a < 2 ^ 33 }
    ensures { result ≡ list_any (spec.item_holds a n kind) items.now }
{
    items.iter().any(|item| item_holds(item, a, n, kind))
}

/// Whether a page of this owner belongs to the box.
pub(crate) fn owned_by(home: u8, owner: Option<BoxId>) -> bool
    ensures { result ≡ spec.owned_by home owner }
{
    match owner {
        Some(owner) => owner.0 == home,
        None => false,
    }
}

// Whether the bytes lie in one page that the box owns.
#[tactic(auto, using(crate::proofs::PageLemmas::in_pages_past))]
fn pages_hold(heap: &HeapPart, owners: &[Option<BoxId>], home: u8, a: u64, n: u8) -> bool
    requires { a < 2 ^ 33 }
    ensures { result ≡ spec.in_pages
        (spec.owned_by home) heap.now.base heap.now.page a n owners.now }
{
    let page = heap.page as u64;
    let mut base = heap.base as u64;
    for owner in owners {
        if base > a {
            return false;
        }
        if owned_by(home, *owner) && a + n as u64 <= base + page {
            return true;
        }
        base += page;
    }
    false
}

// Whether the kind of access is no fetch.
fn is_data(kind: Kind) -> bool
    ensures { result ≡ spec.is_data kind }
{
    match kind {
        Kind::Read | Kind::Write => true,
        Kind::Fetch => false,
    }
}

// Whether the bytes lie in one page of the heap that the box owns.
fn heap_holds(heap: &Option<HeapPart>, owners: &[Option<BoxId>], home: u8, a: u64, n: u8) -> bool
    requires { a < 2 ^ 33 }
    ensures { result ≡ spec.in_heap (spec.owned_by home) heap.now a n owners.now }
{
    match heap {
        Some(heap) => pages_hold(heap, owners, home, a, n),
        None => false,
    }
}

/// Whether the box, with these owners of its pages, may access the `n` bytes from an address in this way.
pub fn may_access(
    part: &BoxPart,
    home: BoxId,
    heap: &Option<HeapPart>,
    owners: &[Option<BoxId>],
    a: u64,
    n: u8,
    kind: Kind,
) -> bool
    requires size { 0 < n }
    requires address { a < 2 ^ 33 }
    ensures { result ≡ spec.may_access
        (spec.owned_by home.0) part.now.items heap.now owners.now a n kind }
{
    is_aligned(a, n)
        && (items_hold(part.items.as_slice(), a, n, kind)
            || (is_data(kind) && heap_holds(heap, owners, home.0, a, n)))
}

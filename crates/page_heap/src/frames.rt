ghost use Rattle.std.specs.Prelude.{◌≡◌, ◌*◌, ◌+◌, ◌^◌, ◌<◌, Some, None, true, IfSome};
ghost use Rattle.std.specs.List.{AllByRecursion};
ghost use Rattle.flat_model.specs.Access as access_words;
ghost use Rattle.flat_model.specs.Pages.{frame_at, frame_in, page_address};
ghost use Rattle.phys_memory.specs.Banks.{lies_in_one_bank};
ghost use Rattle.page_heap.specs.Heap.{heap_range, with_blank};
ghost use Rattle.page_heap.specs.Kept.{IsPaged};

use flat_model::{BoxId, HeapPart, Range};
use phys_memory::Banks;

// The addresses of a frame's page.
fn page_range(heap: HeapPart, frame: u8) -> Range
    requires paged { IsPaged heap }
    requires frame { frame < heap.count }
    ensures { result ≡ record { base = page_address (Some heap) frame; len = heap.page } }
{
    Range {
        base: heap.base + frame as u32 * heap.page,
        len: heap.page,
    }
}

/// Fills the pages of frames with zero bytes.
#[tactic(auto, using(crate::proofs::PageBytes::addresses_fit))]
pub(crate) fn blank(banks: &mut Banks, heap: HeapPart, frames: &[u8])
    requires paged { IsPaged heap }
    requires placed { lies_in_one_bank banks.old.board (heap_range heap) ≡ true }
    requires within { AllByRecursion (λ frame. frame < heap.count) frames.now }
    ensures exact { banks.new ≡ with_blank banks.old (Some heap) frames.now }
    ensures addresses { AllByRecursion
        (λ frame. page_address (Some heap) frame < 2 ^ 32) frames.now }
{
    for frame in frames {
        banks.zero(page_range(heap, *frame));
    }
}

// The frame whose page begins at an address of the heap, if one does.
fn frame_in(heap: HeapPart, a: u32) -> Option<u8>
    requires { IsPaged heap }
    ensures { result ≡ frame_in heap a }
{
    let offset = a.checked_sub(heap.base)?;
    let frame = offset / heap.page;
    if offset % heap.page == 0 && frame < heap.count {
        Some(frame as u8)
    } else {
        None
    }
}

/// The frame whose page begins at an address, if one does.
pub(crate) fn frame_at(heap: Option<HeapPart>, a: u32) -> Option<u8>
    requires { IfSome heap IsPaged }
    ensures { result ≡ frame_at heap a }
{
    match heap {
        Some(heap) => frame_in(heap, a),
        None => None,
    }
}

/// Whether a page of this owner belongs to the box.
pub(crate) fn is_of(owner: Option<BoxId>, b: BoxId) -> bool
    ensures { result ≡ access_words.owned_by b.0 owner }
{
    match owner {
        Some(id) => id.0 == b.0,
        None => false,
    }
}

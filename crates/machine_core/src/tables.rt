ghost use Rattle.std.specs.Prelude.{◌≡◌, ◌+◌, ◌*◌, ◌^◌, ◌<◌, ◌≤◌, None, length, slice_get, unwrap_or};
ghost use Rattle.std.specs.List.{AllByRecursion};
ghost use Rattle.flat_model.specs.Access.{owned_by};
ghost use Rattle.flat_model.specs.Pages as page_words;
ghost use Rattle.flat_model.specs.Sound.{IsBoard};
ghost use Rattle.irq_owner.specs.Irqs.{irq_with_line};
ghost use Rattle.machine_core.specs.Parts.{with_table};
ghost use Rattle.page_heap.specs.Heap as heap_words;
ghost use Rattle.phys_memory.specs.Banks.{with_word};

use flat_model::{
    BoxId, BoxPart, Context, Frames, HeapPart, IrqPart, Kind, Line, PageErr, may_access,
};
use page_heap::Heap;
use phys_memory::Banks;

/// Whether no allocation has this count.
pub(crate) fn is_bad_count(n: u32) -> bool
    ensures { result ≡ page_words.is_bad_count n }
{
    n == 0 || n > 16
}

/// Whether the box, with these owners of its pages, may write each of the `n` words from an address.
pub(crate) fn may_write_words(
    part: &BoxPart,
    home: BoxId,
    heap: &Option<HeapPart>,
    owners: &[Option<BoxId>],
    a: u64,
    n: u32,
) -> bool
    requires { a + 4 * n < 2 ^ 33 }
    ensures { result ≡ page_words.may_write_words
        (owned_by home.0) part.now.items heap.now owners.now a n }
{
    n == 0
        || (may_access(part, home, heap, owners, a, 4, Kind::Write)
            && may_write_words(part, home, heap, owners, a + 4, n - 1))
}

// Writes a word. No bank reaches past the addresses of 32 bits.
fn write_word(banks: &mut Banks, at: u64, value: u32)
    requires { IsBoard banks.old.board }
    ensures { banks.new ≡ with_word banks.old at 4 value }
{
    if at <= u32::MAX as u64 {
        banks.store(at as u32, 4, value);
    }
}

/// Writes the addresses of these frames' pages as words, from an address on.
pub(crate) fn write_table(banks: &mut Banks, heap: &Heap, table: u32, frames: &[u8])
    requires board { IsBoard banks.old.board }
    requires few { length frames.now ≤ 16 }
    requires pages { AllByRecursion (λ frame.
        page_words.page_address heap.now.heap frame < 2 ^ 32) frames.now }
    ensures { banks.new ≡ with_table banks.old heap.now.heap table frames.now }
{
    for index in 0..frames.len() {
        let page = heap.base() + frames[index] as u32 * heap.page();
        write_word(banks, table as u64 + 4 * index as u64, page);
    }
}

/// The frames as an answer gives them.
pub(crate) fn frames_of(frames: &[u8]) -> Frames
    requires { length frames.now ≤ 16 }
    ensures { result ≡ page_words.frames_of frames.now }
{
    let mut list = [0; 16];
    list[..frames.len()].copy_from_slice(frames);
    Frames {
        n: frames.len() as u8,
        list,
    }
}

/// The status word that a thread gets for a refusal.
pub(crate) fn status_of(error: PageErr) -> u8
    ensures { result ≡ heap_words.status_of error }
{
    match error {
        PageErr::OutOfPages => 5,
        PageErr::BadOrigin => 7,
        PageErr::NotOwner => 8,
        PageErr::BadCount => 13,
    }
}

/// The first of a box's lines with this number.
pub(crate) fn irq_of(line: Line, irqs: &[IrqPart]) -> Option<IrqPart>
    ensures { result ≡ irq_with_line line.0 irqs.now }
{
    for irq in irqs {
        if irq.line.0 == line.0 {
            return Some(*irq);
        }
    }
    None
}

/// What is saved for a box.
pub(crate) fn saved_at(saved: &[Option<Context>], b: BoxId) -> Option<Context>
    ensures { result ≡ unwrap_or (slice_get saved.now b.0) None }
{
    saved.get(b.0 as usize).copied().unwrap_or(None)
}

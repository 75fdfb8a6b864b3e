ghost use Rattle.std.specs.Prelude.{◌≡◌, ◌+◌, ◌*◌, ◌^◌, ◌<◌, ◌≤◌, Some, IfOk, IfSome, length};
ghost use Rattle.std.specs.Option.{option_map};
ghost use Rattle.flat_model.specs.Access.{owned_by};
ghost use Rattle.flat_model.specs.Cells.{zero_cells};
ghost use Rattle.flat_model.specs.Kernel.{told};
ghost use Rattle.flat_model.specs.Memory.{put_cells};
ghost use Rattle.flat_model.specs.PageRows as row_words;
ghost use Rattle.flat_model.specs.Pages as spec;

use crate::access_rule::{may_access, owned_by};
use crate::banks::{put_byte, put_word};
use crate::boards::{Board, HeapPart};
use crate::events::Frames;
use crate::lists::Items;
use crate::parts::BoxPart;
use crate::states::Memory;
use addr_base::{BoxId, Kind};

// Whether no allocation has this count.
fn is_bad_count(n: u32) -> bool
    ensures { result ≡ spec.is_bad_count n }
{
    n == 0 || n > 16
}

// Whether the box, with these owners of its pages, may write each of the `n` words from an address.
fn may_write_words(
    part: &BoxPart,
    home: BoxId,
    heap: &Option<HeapPart>,
    owners: &[Option<BoxId>],
    a: u64,
    n: u32,
) -> bool
    requires { a + 4 * n < 2 ^ 33 }
    ensures { result ≡ spec.may_write_words
        (owned_by home.0) part.now.items heap.now owners.now a n }
{
    n == 0
        || (may_access(part, home, heap, owners, a, 4, Kind::Write)
            && may_write_words(part, home, heap, owners, a + 4, n - 1))
}

// The `n` least frames without an owner, where there are so many.
fn least_free(n: u8, owners: &[Option<BoxId>]) -> Option<Frames>
    requires few { n ≤ 16 }
    requires small { length owners.now ≤ 256 }
    ensures { result ≡ option_map spec.frames_of (spec.least_free n owners.now) }
{
    let mut frames = Frames {
        n: 0,
        list: [0; 16],
    };
    for frame in 0..owners.len() {
        if frames.n == n {
            return Some(frames);
        }
        if owners[frame].is_none() {
            frames.list[frames.n as usize] = frame as u8;
            frames.n += 1;
        }
    }
    if frames.n == n { Some(frames) } else { None }
}

// These frames, or out of pages where there are not enough, or no heap at all.
fn frames_or_none(heap: &Option<HeapPart>, n: u8, owners: &[Option<BoxId>]) -> Result<Frames, u8>
    requires few { n ≤ 16 }
    requires small { length owners.now ≤ 256 }
    ensures { result ≡ told (spec.frames_or_none heap.now (spec.least_free n owners.now)) }
{
    if heap.is_none() {
        return Err(5);
    }
    match least_free(n, owners) {
        Some(frames) => Ok(frames),
        None => Err(5),
    }
}

/// What an allocation of `n` pages with a table at an address comes to: its frames, or a status.
pub(crate) fn allocation(
    part: &BoxPart,
    home: BoxId,
    heap: &Option<HeapPart>,
    owners: &[Option<BoxId>],
    n: u32,
    table: u32,
) -> Result<Frames, u8>
    requires { length owners.now ≤ 256 }
    ensures exact { result ≡ told (spec.allocation heap.now
        (spec.may_write_words (owned_by home.0) part.now.items heap.now owners.now table n)
        n owners.now) }
    ensures few { IfOk result (λ frames. frames.n ≤ 16) }
{
    if is_bad_count(n) {
        return Err(13);
    }
    if !may_write_words(part, home, heap, owners, table as u64, n) {
        return Err(6);
    }
    frames_or_none(heap, n as u8, owners)
}

/// Gives the frames to the box.
pub(crate) fn give_frames(owners: &mut Items<Option<BoxId>>, home: BoxId, frames: &[u8])
    ensures { owners.new ≡ spec.with_owner (Some home) frames.now owners.old }
{
    let [frame, rest @ ..] = frames else {
        return;
    };
    owners.put(*frame as usize, Some(home));
    give_frames(owners, home, rest);
}

// Zeroes so many bytes from an address on.
fn zero_bytes(board: &Board, memory: &mut Memory, at: u64, n: u32)
    requires { at + n < 2 ^ 64 }
    ensures { memory.new ≡ put_cells board.now memory.old (zero_cells at n) }
{
    for index in 0..n {
        put_byte(board, memory, at + index as u64, 0);
    }
}

// Where a frame's page begins.
fn page_address(heap: &Option<HeapPart>, frame: u8) -> u64
    ensures exact { result ≡ spec.page_address heap.now frame }
    ensures bound { result < 2 ^ 41 }
{
    match heap {
        Some(heap) => heap.base as u64 + frame as u64 * heap.page as u64,
        None => 0,
    }
}

// How many bytes a page has, or 0 where there is no heap.
fn page_size(heap: &Option<HeapPart>) -> u32
    ensures { result ≡ spec.page_size heap.now }
{
    match heap {
        Some(heap) => heap.page,
        None => 0,
    }
}

/// Zeroes the pages of these frames.
#[tactic(auto, using(crate::proofs::CellSteps::put_cells_after))]
pub(crate) fn blank_pages(board: &Board, memory: &mut Memory, frames: &[u8])
    ensures { memory.new ≡ row_words.with_blank_pages board.now frames.now memory.old }
{
    let [frame, rest @ ..] = frames else {
        return;
    };
    let at = page_address(&board.heap, *frame);
    zero_bytes(board, memory, at, page_size(&board.heap));
    blank_pages(board, memory, rest);
}

/// Writes the addresses of these frames' pages as words, from an address on.
#[tactic(auto, using(crate::proofs::CellSteps::put_cells_after, crate::proofs::CellSteps::low_word))]
pub(crate) fn write_table(board: &Board, memory: &mut Memory, table: u64, frames: &[u8])
    requires { table + 4 * length frames.now < 2 ^ 63 }
    ensures { memory.new ≡ row_words.with_page_table board.now table frames.now memory.old }
{
    let [frame, rest @ ..] = frames else {
        return;
    };
    // A word keeps the low 32 bits; a page of an accepted board begins below them.
    let address = (page_address(&board.heap, *frame) % 0x1_0000_0000) as u32;
    put_word(board, memory, table, 4, address);
    write_table(board, memory, table + 4, rest);
}

// The frame whose page begins at an address of the heap, if one does.
fn frame_in(heap: &HeapPart, a: u32) -> Option<u32>
    requires { 0 < heap.now.page }
    ensures { result ≡ spec.frame_in heap.now a }
{
    if a < heap.base {
        return None;
    }
    let offset = a - heap.base;
    if offset % heap.page == 0 && offset / heap.page < heap.count {
        Some(offset / heap.page)
    } else {
        None
    }
}

// The box's own frame, or a status: it is another's, or nobody's.
fn own_frame(owners: &[Option<BoxId>], home: BoxId, frame: u32) -> Result<u8, u8>
    requires { length owners.now ≤ 256 }
    ensures { result ≡ spec.own_frame owners.now home.0 (Some frame) }
{
    match owners.get(frame as usize) {
        Some(owner) if owned_by(home.0, *owner) => Ok(frame as u8),
        Some(_) | None => Err(8),
    }
}

/// What the box finds at an address that it gives back: its own frame, or a status.
pub(crate) fn freeing(
    heap: &Option<HeapPart>,
    owners: &[Option<BoxId>],
    home: BoxId,
    a: u32,
) -> Result<u8, u8>
    requires small { length owners.now ≤ 256 }
    requires page { IfSome heap.now (λ h. 0 < h.page) }
    ensures { result ≡ spec.freeing heap.now owners.now home.0 a }
{
    let Some(heap) = heap else {
        return Err(7);
    };
    match frame_in(heap, a) {
        Some(frame) => own_frame(owners, home, frame),
        None => Err(7),
    }
}

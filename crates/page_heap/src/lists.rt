ghost use Rattle.std.specs.Prelude.{◌≡◌, ◌+◌, ◌<◌, ◌≤◌, ◌&&◌, Some, None, true, [], IfOk, length, nat_lt, not, replicate, slice_set, take};
ghost use Rattle.std.specs.List.{AllByRecursion};
ghost use Rattle.flat_model.specs.Access.{owns};
ghost use Rattle.flat_model.specs.Pages.{free_frames, with_owner};
ghost use Rattle.index_list.specs.Arena.{list_at, list_with};
ghost use Rattle.page_heap.specs.Listed.{IsListed, with_free};

use arrayvec::ArrayVec;
use flat_model::{BoxId, Items, OutOfMemory};
use index_list::Arena;
use std::alloc::Global;

/// A list for each box that there can be, and one for the free frames.
pub(crate) const LISTS: u32 = 257;

// The list of the free frames. Those of a box stand in the list with the box's number.
const FREE: u32 = 256;

/// The lists of frames at the start: each frame is free.
pub(crate) fn all_free(alloc: Global, count: u32, lists: u32) -> Result<Arena, OutOfMemory>
    requires few { count ≤ 256 }
    requires lists { lists ≡ 257 }
    ensures { IfOk result (λ frames. IsListed (replicate count None) frames) }
{
    let mut frames = Arena::new(alloc, count, lists)?;
    for next in 0..count {
        frames.push_back(FREE, next);
    }
    Ok(frames)
}

/// Gives the least free frames to a box, as many as it asks for, and lists them.
pub(crate) fn give_least(
    frames: &mut Arena,
    owners: &mut Items<Option<BoxId>>,
    b: BoxId,
    n: usize,
    out: &mut ArrayVec<u8, 16>,
)
    requires empty { out.old.items ≡ [] }
    requires room { n ≤ 16 }
    requires enough { n ≤ length (free_frames 0 owners.old) }
    requires listed { IsListed owners.old frames.old }
    ensures least { out.new.items ≡ take n (free_frames 0 owners.old) }
    ensures owners { owners.new ≡ with_owner (Some b) out.new.items owners.old }
    ensures listed { IsListed owners.new frames.new }
    ensures left { length (free_frames 0 owners.new) + n ≡ length (free_frames 0 owners.old) }
    ensures one_each { length owners.new ≡ length owners.old }
    ensures within { AllByRecursion (λ frame. frame < length owners.old) out.new.items }
{
    for _ in 0..n {
        let frame = frames.pop_front(FREE).unwrap();
        frames.push_back(b.0 as u32, frame);
        owners.put(frame as usize, Some(b));
        out.push(frame as u8);
    }
}

/// Takes a frame back from the box that owns it.
pub(crate) fn take_back(
    frames: &mut Arena,
    owners: &mut Items<Option<BoxId>>,
    free: usize,
    b: BoxId,
    frame: u8,
)
    requires listed { IsListed owners.old frames.old }
    requires counted { free ≡ length (free_frames 0 owners.old) }
    requires owned { owns owners.old b.0 frame ≡ true }
    ensures owners { owners.new ≡ slice_set owners.old frame None }
    ensures listed { IsListed owners.new frames.new }
    ensures counted { length (free_frames 0 owners.new) ≡ free + 1 }
{
    frames.remove(frame as u32);
    put_in_place(frames, free, frame as u32);
    owners.put(frame as usize, None);
}

// Whether a frame that isn't placed yet comes before another one.
fn comes_before(placed: bool, frame: u32, first: u32) -> bool
    ensures { result ≡ (not placed && nat_lt frame first) }
{
    !placed && frame < first
}

// Puts a frame that stands in no list in its place among the free ones, by turning their list round once.
fn put_in_place(frames: &mut Arena, free: usize, frame: u32)
    requires lists { length frames.old.lists ≡ 257 }
    requires counted { free ≡ length (list_at frames.old.lists 256) }
    requires within { frame < frames.old.nodes }
    requires alone { list_with frames.old.lists frame ≡ None }
    ensures { frames.new ≡ with_free frames.old frame }
{
    let mut placed = false;
    for _ in 0..free {
        let first = frames.pop_front(FREE).unwrap();
        if comes_before(placed, frame, first) {
            frames.push_back(FREE, frame);
            placed = true;
        }
        frames.push_back(FREE, first);
    }
    if !placed {
        frames.push_back(FREE, frame);
    }
}

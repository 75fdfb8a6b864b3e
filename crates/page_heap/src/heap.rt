ghost use Rattle.std.specs.Prelude.{◌≡◌, ◌⊎◌, ◌+◌, ◌^◌, ◌<◌, ◌≤◌, ◌↔◌, Some, None, Ok, Err, true, false, [], IfOk, IfErr, IsSomeAnd, OnOk, OnErr, length, slice_get, slice_set};
ghost use Rattle.std.specs.List.{AllByRecursion};
ghost use Rattle.flat_model.specs.Access.{owns};
ghost use Rattle.flat_model.specs.Pages.{HasOwners, allocation, frame_at, free_frames, freeing, heap_base, page_address, page_size};
ghost use Rattle.flat_model.specs.Sound.{IsBoard};
ghost use Rattle.page_heap.specs.Heap.{LiesInBank, opening_heap, page_count, status_of, with_blank, with_given};

use crate::frames::{blank, frame_at, is_of};
use crate::lists::{LISTS, all_free, give_least, take_back};
use arrayvec::ArrayVec;
use flat_model::{Board, BoxId, HeapPart, Items, OutOfMemory, PageErr, page_count};
use index_list::Arena;
use phys_memory::Banks;
use std::alloc::Global;
use std::marker::Model;

/// The most pages that one call gives.
const MOST: u32 = 16;

/// The page heap of a board, if it has one, and the owner of each of its pages. Contracts see both.
#[derive(Drop)]
pub struct Heap {
    heap: Option<HeapPart>,
    owners: Items<Option<BoxId>>,
    frames: Arena,
    free: usize,
}

impl Model for Heap {
    ghost use Rattle.page_heap.specs.Heap.{HeapView};
    ghost use Rattle.page_heap.specs.Listed.{AreListed};

    ghost Value = { HeapView };

    ghost view = { λ h. record { heap = h.heap; owners = h.owners } };

    ghost invariant = { λ h. AreListed h.heap h.owners h.frames h.free };
}

impl Heap {
    /// The page heap of a board. No page has an owner.
    pub fn new(alloc: Global, board: &Board) -> Result<Heap, OutOfMemory>
        requires { IsBoard board.now }
        ensures opening { IfOk result (λ heap. heap ≡ opening_heap board.now) }
        ensures placed { LiesInBank board.now board.now.heap }
    {
        let count = page_count(&board.heap);
        let owners = Items::filled(alloc, None, count as usize)?;
        let frames = all_free(alloc, count, LISTS)?;
        Ok(Heap {
            heap: board.heap,
            owners,
            frames,
            free: count as usize,
        })
    }

    /// Gives the `n` least frames without an owner to a box, fills their pages with zero bytes, and lists them in
    /// `out`. A box may ask for 1 to 16 pages. Where it gets none, nothing changes.
    pub fn alloc_frames(
        &mut self,
        banks: &mut Banks,
        b: BoxId,
        n: u32,
        out: &mut ArrayVec<u8, 16>,
    ) -> Result<(), PageErr>
        requires empty { out.old.items ≡ [] }
        requires placed { LiesInBank banks.old.board self.old.heap }

        ensures frames { OnOk result
            (allocation self.old.heap true n self.old.owners ≡ Ok out.new.items) }
        ensures owners { OnOk result (self.new ≡ with_given self.old b out.new.items) }
        ensures bytes { OnOk result
            (banks.new ≡ with_blank banks.old self.old.heap out.new.items) }

        // Each is a frame of the heap, and its page begins at an address of 32 bits:
        ensures within { OnOk result (AllByRecursion
            (λ frame. frame < page_count self.old.heap) out.new.items) }
        ensures addresses { OnOk result (AllByRecursion
            (λ frame. page_address self.old.heap frame < 2 ^ 32) out.new.items) }

        ensures status { IfErr result (λ e.
            allocation self.old.heap true n self.old.owners ≡ Err (status_of e)) }
        ensures bad_count { (result ≡ Err PageErr.BadCount) ↔ ((n ≡ 0) ⊎ (16 < n)) }
        ensures out_of_pages { (result ≡ Err PageErr.OutOfPages)
            ↔ ((1 ≤ n) × (n ≤ 16) × (length (free_frames 0 self.old.owners) < n)) }
        ensures unchanged { OnErr result
            ((self.new ≡ self.old) × (banks.new ≡ banks.old) × (out.new.items ≡ [])) }
    {
        if n == 0 || n > MOST {
            return Err(PageErr::BadCount);
        }
        let Some(heap) = self.heap else {
            return Err(PageErr::OutOfPages);
        };
        if self.free < n as usize {
            return Err(PageErr::OutOfPages);
        }
        give_least(&mut self.frames, &mut self.owners, b, n as usize, out);
        self.free -= n as usize;
        blank(banks, heap, out.as_slice());
        Ok(())
    }

    /// Takes the page that begins at an address back from the box that owns it, and answers its frame.
    pub fn free(&mut self, b: BoxId, origin: u32) -> Result<u8, PageErr>
        ensures frame { IfOk result (λ frame.
            freeing self.old.heap self.old.owners b.0 origin ≡ Ok frame) }
        ensures owners { IfOk result (λ frame.
            self.new ≡ record self.old { owners = slice_set self.old.owners frame None }) }

        ensures status { IfErr result (λ e.
            freeing self.old.heap self.old.owners b.0 origin ≡ Err (status_of e)) }
        ensures bad_origin { (result ≡ Err PageErr.BadOrigin)
            ↔ (frame_at self.old.heap origin ≡ None) }
        ensures not_owner { (result ≡ Err PageErr.NotOwner)
            ↔ IsSomeAnd (frame_at self.old.heap origin)
            (λ frame. owns self.old.owners b.0 frame ≡ false) }
        ensures unchanged { OnErr result (self.new ≡ self.old) }
    {
        let Some(frame) = frame_at(self.heap, origin) else {
            return Err(PageErr::BadOrigin);
        };
        if !is_of(self.owners.at(frame as usize), b) {
            return Err(PageErr::NotOwner);
        }
        take_back(&mut self.frames, &mut self.owners, self.free, b, frame);
        self.free += 1;
        Ok(frame)
    }

    /// Who owns a frame.
    pub fn owner(&self, frame: u8) -> Option<BoxId>
        requires { frame < page_count self.now.heap }
        ensures { slice_get self.now.owners frame ≡ Some result }
    {
        self.owners.at(frame as usize)
    }

    /// The owner of each frame, in order; none where there is no heap.
    pub fn owners(&self) -> &Vec<Option<BoxId>>
        ensures value { result.now.items ≡ self.now.owners }
        ensures one_each { length result.now.items ≡ page_count self.now.heap }
        ensures known { HasOwners self.now.heap result.now.items }
    {
        self.owners.as_vec()
    }

    /// Where the heap begins, or 0 where there is none.
    pub fn base(&self) -> u32
        ensures { result ≡ heap_base self.now.heap }
    {
        match self.heap {
            Some(heap) => heap.base,
            None => 0,
        }
    }

    /// How many bytes a page has, or 0 where there is no heap.
    pub fn page(&self) -> u32
        ensures { result ≡ page_size self.now.heap }
    {
        match self.heap {
            Some(heap) => heap.page,
            None => 0,
        }
    }
}

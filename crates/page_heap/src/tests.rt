ghost use Rattle.flat_model.specs.Sound.{IsBoard};
ghost use Rattle.sample_board.specs.Sample as sample;

use crate::Heap;
use arrayvec::ArrayVec;
use flat_model::{BoxId, HeapPart, OutOfMemory, PageErr};
use phys_memory::Banks;
use sample_board::board;
use std::alloc::Global;
use std::marker::Model;
use std::test::Fail;

// Eight pages of 1 KiB, from 0x20008000 on.
const KIBIBYTES: Option<HeapPart> = Some(HeapPart {
    base: 0x2000_8000,
    page: 1024,
    count: 8,
});

// As many pages as there can be, each as small as can be.
const SMALLEST: Option<HeapPart> = Some(HeapPart {
    base: 0x2000_8000,
    page: 32,
    count: 256,
});

// Eight pages, each as large as can be, up to the end of SRAM.
const GREATEST: Option<HeapPart> = Some(HeapPart {
    base: 0x2008_0000,
    page: 65_536,
    count: 8,
});

// The banks and the page heap of a board.
#[derive(Drop)]
struct Memory {
    banks: Banks,
    heap: Heap,
}

impl Model for Memory {
    ghost use Rattle.page_heap.specs.Heap.{HeapView, LiesInBank};
    ghost use Rattle.phys_memory.specs.Banks.{BanksView};

    ghost Value = { BanksView × HeapView };

    ghost view = { λ m. (m.banks, m.heap) };

    ghost invariant = { λ m. LiesInBank m.banks.board m.heap.heap };
}

impl Memory {
    // That of a board with so much SRAM and this heap.
    fn opened(alloc: Global, sram: u32, heap: Option<HeapPart>) -> Result<Memory, OutOfMemory>
        requires { IsBoard (sample.board sram heap) }
    {
        let board = board(alloc, sram, heap);
        let banks = Banks::new(alloc, &board)?;
        let heap = Heap::new(alloc, &board)?;
        Ok(Memory { banks, heap })
    }

    // What a box gets that asks for so many pages: the frames, or why not.
    fn ask(&mut self, b: u8, n: u32) -> Result<ArrayVec<u8, 16>, PageErr> {
        let mut frames = ArrayVec::new();
        self.heap
            .alloc_frames(&mut self.banks, BoxId(b), n, &mut frames)?;
        Ok(frames)
    }

    // What a box gets that gives back the page at an address.
    fn free(&mut self, b: u8, origin: u32) -> Result<u8, PageErr> {
        self.heap.free(BoxId(b), origin)
    }

    // The number of the box that owns a frame.
    fn owner(&self, frame: u8) -> Option<u8> {
        if frame as usize >= self.heap.owners().len() {
            return None;
        }
        self.heap.owner(frame).map(|b| b.0)
    }

    fn put(&mut self, at: u32, value: u32) -> bool {
        self.banks.put(at, 4, value)
    }

    fn word(&self, at: u32) -> Option<u32> {
        self.banks.get(at, 4)
    }
}

// The frames that a box got.
fn given(asked: &Result<ArrayVec<u8, 16>, PageErr>) -> &[u8] {
    match asked {
        Ok(frames) => frames.as_slice(),
        Err(_) => &[],
    }
}

#[test]
#[tactic(auto, using(crate::proofs::FixtureSound::sound_kibibytes))]
fn no_page_has_an_owner_at_first(rt: HostRuntime) -> Result<(), Fail> {
    let memory = Memory::opened(rt.alloc(), 0x2_0000, KIBIBYTES)?;
    assert_eq!(rt; memory.heap.base(), 0x2000_8000);
    assert_eq!(rt; memory.heap.page(), 1024);
    assert_eq!(rt; memory.heap.owners().len(), 8);
    for owner in memory.heap.owners() {
        assert_eq!(rt; *owner, None);
    }
    Ok(())
}

#[test]
#[tactic(auto, using(crate::proofs::FixtureSound::sound_kibibytes))]
fn pages_come_zeroed_and_go_back(rt: HostRuntime) -> Result<(), Fail> {
    let mut memory = Memory::opened(rt.alloc(), 0x2_0000, KIBIBYTES)?;
    for at in [0x2000_7FFC, 0x2000_8000, 0x2000_8BFC, 0x2000_8C00] {
        assert!(rt; memory.put(at, 0x5A5A_5A5A));
    }
    let three = memory.ask(0, 3);
    assert_eq!(rt; given(&three), &[0, 1, 2][..]);
    for (at, word) in [
        (0x2000_7FFC, 0x5A5A_5A5A),
        (0x2000_8000, 0),
        (0x2000_8BFC, 0),
        (0x2000_8C00, 0x5A5A_5A5A),
    ] {
        assert_eq!(rt; memory.word(at), Some(word), "at {at}");
    }
    assert_eq!(rt; memory.free(0, 0x2000_8400), Ok(1));
    for (frame, owner) in [(0, Some(0)), (1, None), (2, Some(0)), (3, None)] {
        assert_eq!(rt; memory.owner(frame), owner, "frame {frame}");
    }
    assert_eq!(rt; memory.free(0, 0x2000_8000), Ok(0));
    let again = memory.ask(1, 3);
    assert_eq!(rt; given(&again), &[0, 1, 3][..]);
    Ok(())
}

#[test]
#[tactic(auto, using(crate::proofs::FixtureSound::sound_kibibytes))]
fn a_freed_page_is_zeroed_for_the_next_box(rt: HostRuntime) -> Result<(), Fail> {
    let mut memory = Memory::opened(rt.alloc(), 0x2_0000, KIBIBYTES)?;
    let first = memory.ask(0, 1);
    assert_eq!(rt; given(&first), &[0][..]);
    assert!(rt; memory.put(0x2000_8000, 1));
    assert!(rt; memory.put(0x2000_83FC, 0xFF00_0000));
    assert_eq!(rt; memory.free(0, 0x2000_8000), Ok(0));
    assert_eq!(rt; memory.word(0x2000_8000), Some(1));
    let next = memory.ask(1, 1);
    assert_eq!(rt; given(&next), &[0][..]);
    assert_eq!(rt; memory.word(0x2000_8000), Some(0));
    assert_eq!(rt; memory.word(0x2000_83FC), Some(0));
    assert_eq!(rt; memory.owner(0), Some(1));
    Ok(())
}

#[test]
#[tactic(auto, using(crate::proofs::FixtureSound::sound_kibibytes))]
fn the_heap_runs_out(rt: HostRuntime) -> Result<(), Fail> {
    let mut memory = Memory::opened(rt.alloc(), 0x2_0000, KIBIBYTES)?;
    let six = memory.ask(0, 6);
    assert_eq!(rt; given(&six), &[0, 1, 2, 3, 4, 5][..]);
    let three = memory.ask(1, 3);
    assert_eq!(rt; three.err(), Some(PageErr::OutOfPages));
    let two = memory.ask(1, 2);
    assert_eq!(rt; given(&two), &[6, 7][..]);
    for (n, refusal) in [
        (0, PageErr::BadCount),
        (17, PageErr::BadCount),
        (4_294_967_295, PageErr::BadCount),
        (1, PageErr::OutOfPages),
        (16, PageErr::OutOfPages),
    ] {
        let asked = memory.ask(0, n);
        assert_eq!(rt; asked.err(), Some(refusal), "{n} pages");
    }
    Ok(())
}

#[test]
#[tactic(auto, using(crate::proofs::FixtureSound::sound_kibibytes))]
fn freed_pages_come_in_the_order_of_their_addresses(rt: HostRuntime) -> Result<(), Fail> {
    let mut memory = Memory::opened(rt.alloc(), 0x2_0000, KIBIBYTES)?;
    let six = memory.ask(0, 6);
    assert_eq!(rt; given(&six), &[0, 1, 2, 3, 4, 5][..]);
    assert_eq!(rt; memory.free(0, 0x2000_9000), Ok(4));
    assert_eq!(rt; memory.free(0, 0x2000_8400), Ok(1));
    let two = memory.ask(1, 2);
    assert_eq!(rt; given(&two), &[1, 4][..]);
    Ok(())
}

#[test]
#[tactic(auto, using(crate::proofs::FixtureSound::sound_kibibytes))]
fn a_page_goes_back_once_and_from_its_owner_alone(rt: HostRuntime) -> Result<(), Fail> {
    let mut memory = Memory::opened(rt.alloc(), 0x2_0000, KIBIBYTES)?;
    let one = memory.ask(0, 1);
    assert_eq!(rt; given(&one), &[0][..]);
    let two = memory.ask(1, 2);
    assert_eq!(rt; given(&two), &[1, 2][..]);
    for (b, origin, answer) in [
        (0, 0x2000_8200, Err(PageErr::BadOrigin)),
        (0, 0x2000_7C00, Err(PageErr::BadOrigin)),
        (0, 0x2000_A000, Err(PageErr::BadOrigin)),
        (0, 0, Err(PageErr::BadOrigin)),
        (0, 0xFFFF_FC00, Err(PageErr::BadOrigin)),
        (0, 0x2000_8400, Err(PageErr::NotOwner)),
        (0, 0x2000_9C00, Err(PageErr::NotOwner)),
        (1, 0x2000_8000, Err(PageErr::NotOwner)),
        (1, 0x2000_8800, Ok(2)),
        (1, 0x2000_8800, Err(PageErr::NotOwner)),
        (0, 0x2000_8000, Ok(0)),
        (1, 0x2000_8400, Ok(1)),
    ] {
        assert_eq!(rt; memory.free(b, origin), answer, "box {b} at {origin}");
    }
    Ok(())
}

#[test]
#[tactic(auto, using(crate::proofs::FixtureSound::sound_smallest))]
fn the_last_of_256_small_pages_has_the_number_255(rt: HostRuntime) -> Result<(), Fail> {
    let mut memory = Memory::opened(rt.alloc(), 0x2_0000, SMALLEST)?;
    assert!(rt; memory.put(0x2000_9FFC, 0x5A5A_5A5A));
    assert!(rt; memory.put(0x2000_A000, 0x5A5A_5A5A));
    for first in 0..16 {
        let asked = memory.ask(0, 16);
        assert_eq!(rt; given(&asked).len(), 16);
        assert_eq!(rt;
            given(&asked).first().copied(),
            Some(16 * first),
            "from {first}"
        );
    }
    assert_eq!(rt; memory.word(0x2000_9FFC), Some(0));
    assert_eq!(rt; memory.word(0x2000_A000), Some(0x5A5A_5A5A));
    let none = memory.ask(0, 1);
    assert_eq!(rt; none.err(), Some(PageErr::OutOfPages));
    assert_eq!(rt; memory.free(0, 0x2000_9FE0), Ok(255));
    let last = memory.ask(1, 1);
    assert_eq!(rt; given(&last), &[255][..]);
    Ok(())
}

#[test]
#[tactic(auto, using(crate::proofs::FixtureSound::sound_greatest))]
fn great_pages_reach_to_the_end_of_sram(rt: HostRuntime) -> Result<(), Fail> {
    let mut memory = Memory::opened(rt.alloc(), 0x10_0000, GREATEST)?;
    for at in [0x2007_FFFC, 0x2008_0000, 0x200F_FFFC] {
        assert!(rt; memory.put(at, 0x5A5A_5A5A));
    }
    let all = memory.ask(0, 8);
    assert_eq!(rt; given(&all), &[0, 1, 2, 3, 4, 5, 6, 7][..]);
    for (at, word) in [
        (0x2007_FFFC, 0x5A5A_5A5A),
        (0x2008_0000, 0),
        (0x200F_FFFC, 0),
    ] {
        assert_eq!(rt; memory.word(at), Some(word), "at {at}");
    }
    assert_eq!(rt; memory.free(0, 0x200F_0000), Ok(7));
    assert_eq!(rt; memory.free(0, 0x2010_0000), Err(PageErr::BadOrigin));
    Ok(())
}

#[test]
#[tactic(auto, using(crate::proofs::FixtureSound::sound_without))]
fn a_board_without_a_heap_has_no_page(rt: HostRuntime) -> Result<(), Fail> {
    let mut memory = Memory::opened(rt.alloc(), 0x2_0000, None)?;
    assert_eq!(rt; memory.heap.owners().len(), 0);
    assert_eq!(rt; memory.heap.base(), 0);
    assert_eq!(rt; memory.heap.page(), 0);
    for (n, refusal) in [(0, PageErr::BadCount), (1, PageErr::OutOfPages)] {
        let asked = memory.ask(0, n);
        assert_eq!(rt; asked.err(), Some(refusal), "{n} pages");
    }
    assert_eq!(rt; memory.free(0, 0), Err(PageErr::BadOrigin));
    Ok(())
}

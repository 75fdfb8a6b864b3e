ghost use Rattle.std.specs.Prelude.{◌≡◌, IfOk};

use crate::lists::Items;
use addr_base::{OutOfMemory, Range};
use std::alloc::Global;

/// A word of memory that is there from the start.
#[derive(Clone, Copy, PartialEq, Eq, Debug)]
pub struct Word {
    pub at: u32,
    pub value: u32,
}

/// The page heap: `count` pages of `page` bytes each, from `base` on.
#[derive(Clone, Copy, PartialEq, Eq, Debug)]
pub struct HeapPart {
    pub base: u32,
    pub page: u32,
    pub count: u32,
}

/// The three banks of memory, the secret range of flash, the words that are there from the start,
/// and the page heap.
#[derive(Debug, Drop)]
pub struct Board {
    pub flash: Range,
    pub sram: Range,
    pub peripherals: Range,
    pub secret: Option<Range>,
    pub words: Items<Word>,
    pub heap: Option<HeapPart>,
}

impl Board {
    /// The same board again.
    pub fn copied(&self, alloc: Global) -> Result<Board, OutOfMemory>
        ensures { IfOk result (λ copy. copy ≡ self.now) }
    {
        let words = Vec::from_slice(alloc, self.words.as_slice())?;
        Ok(Board {
            flash: self.flash,
            sram: self.sram,
            peripherals: self.peripherals,
            secret: self.secret,
            words: Items::from_vec(words),
            heap: self.heap,
        })
    }
}

ghost use Rattle.std.specs.Prelude.{◌≡◌, ◌+◌, ◌^◌, ◌<◌, ◌++◌, Some, IfOk, OnOk, length, map, true};
ghost use Rattle.std.specs.List.{AllByRecursion, slice_get};
ghost use Rattle.std.specs.List.Sorted.{IsPermutation};
ghost use Rattle.flat_model.specs.Cover.{cover_of};
ghost use Rattle.flat_model.specs.Decision.{is_region, size_field};
ghost use Rattle.flat_model.specs.Sound.{AreGrantsApart};
ghost use Rattle.region_packer.specs.Directory as spec;

use crate::blocks::bytes_of;
use crate::ranges::cover;
use arrayvec::ArrayVec;
use flat_model::{Item, OutOfMemory, Pair, Range};
use std::alloc::Global;
use std::marker::Model;

/// One block of a cover: the addresses that it has, and its region.
#[derive(Clone, Copy, PartialEq, Eq, Debug)]
pub struct Block {
    pub part: Range,
    pub pair: Pair,
}

/// The blocks of a box's grants by their addresses. Each look at one is counted: a block is handed out by `probe`
/// alone, and a directory has no copy, so that a bound on the count is a bound on the looks.
#[derive(Debug, Drop)]
pub struct Directory {
    blocks: Vec<Block>,
    probes: u64,
}

impl Model for Directory {
    ghost use Rattle.region_packer.specs.Directory.{DirectoryView, IsOrdered};

    ghost Value = { DirectoryView };

    ghost view = { λ d. record { blocks = d.blocks.items; probes = d.probes } };

    ghost invariant = { λ d. IsOrdered d.blocks.items };
}

// The block of a region of a cover.
fn block_of(pair: Pair) -> Block
    requires { size_field pair < 31 }
    ensures { result ≡ spec.block_of pair }
{
    let part = Range {
        base: pair.rbar,
        len: bytes_of(pair.rasr / 2 % 32 + 1),
    };
    Block { part, pair }
}

// Appends the blocks of a grant's cover.
fn append_blocks(blocks: &mut Vec<Block>, grant: &Item) -> Result<(), OutOfMemory>
    requires { spec.IsCoverable grant.now }
    ensures { OnOk result (blocks.new.items
        ≡ blocks.old.items ++ map spec.block_of (cover_of grant.now.range grant.now.rights)) }
{
    let mut pairs = ArrayVec::new();
    cover(grant.range, grant.rights, &mut pairs);
    for pair in pairs.as_slice() {
        blocks.push(block_of(*pair))?;
    }
    Ok(())
}

impl Directory {
    /// The blocks of all covers of some grants, ascending by their addresses.
    pub fn new(alloc: Global, grants: &Vec<Item>) -> Result<Directory, OutOfMemory>
        requires covered { AllByRecursion spec.IsCoverable grants.now.items }
        requires apart { AreGrantsApart grants.now.items }
        ensures blocks { IfOk result (λ d. IsPermutation (spec.grant_blocks grants.now.items) d.blocks) }
        ensures ascending { IfOk result (λ d. spec.IsAscending d.blocks) }
        ensures probes { IfOk result (λ d. d.probes ≡ 0) }
    {
        let mut blocks = Vec::new(alloc);
        for grant in grants.as_slice() {
            append_blocks(&mut blocks, grant)?;
        }
        blocks.sort_by_key(|block| block.part.base)?;
        Ok(Directory { blocks, probes: 0 })
    }

    /// How many blocks there are. They ascend, as in each directory.
    pub fn len(&self) -> u32
        ensures exact { result ≡ length self.now.blocks }
        ensures ascending { spec.IsAscending self.now.blocks }
    {
        self.blocks.len() as u32
    }

    /// Block `i`. The count rises by one, unless it is the greatest of 64 bits.
    pub fn probe(&mut self, i: u32) -> Block
        requires { i < length self.old.blocks }
        ensures block { slice_get self.old.blocks i ≡ Some result }
        ensures counted { self.new ≡ record self.old { probes = spec.counted self.old.probes } }
    {
        self.probes = self.probes.saturating_add(1);
        self.blocks[i as usize]
    }

    /// How many times a block was looked at.
    pub fn probes(&self) -> u64
        ensures { result ≡ self.now.probes }
    {
        self.probes
    }
}

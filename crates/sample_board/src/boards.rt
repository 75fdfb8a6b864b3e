ghost use Rattle.std.specs.Prelude.{◌≡◌};
ghost use Rattle.sample_board.specs.Sample as sample;

use flat_model::{Board, HeapPart, Items, Range};
use std::alloc::Global;

/// The board with so many bytes of SRAM and this heap. No box owns its secret range.
pub fn board(alloc: Global, sram: u32, heap: Option<HeapPart>) -> Board
    ensures { result ≡ sample.board sram heap }
{
    Board {
        flash: Range {
            base: 0,
            len: 0x10_0000,
        },
        sram: Range {
            base: 0x2000_0000,
            len: sram,
        },
        peripherals: Range {
            base: 0x4000_0000,
            len: 0x10_0000,
        },
        secret: Some(Range {
            base: 0xF_0000,
            len: 0x1_0000,
        }),
        words: Items::from_vec(Vec::new(alloc)),
        heap,
    }
}

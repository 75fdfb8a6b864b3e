ghost use Rattle.std.specs.Prelude.{◌≡◌, [], IfOk};
ghost use Rattle.flat_model.specs.Sound.{IsSound};
ghost use Rattle.sample_board.specs.Sample as sample;

use crate::boards::board;
use crate::parts::{halting, part};
use flat_model::{BoxPart, Config, Items, OutOfMemory, ThreadPart};
use std::alloc::Global;

/// Boxes with their threads on the board without a heap. A test that has gateways or devices puts them in.
pub fn config(alloc: Global, boxes: Items<BoxPart>, threads: Items<ThreadPart>) -> Config
    ensures { result ≡ sample.config boxes threads [] [] }
{
    Config {
        version: 1,
        board: board(alloc, 0x2_0000, None),
        boxes,
        threads,
        registers: Items::from_vec(Vec::new(alloc)),
        gateways: Items::from_vec(Vec::new(alloc)),
        devices: Items::from_vec(Vec::new(alloc)),
        script: Items::from_vec(Vec::new(alloc)),
    }
}

// Box 0 with thread 0.
fn box_and_thread(alloc: Global) -> Result<Config, OutOfMemory>
    ensures { IfOk result (λ it. it ≡ sample.one_box) }
{
    let a = part(alloc, 0, 0, 1, &[])?;
    let only = halting(alloc, 0)?;
    let boxes = Items::from_vec(vec![in alloc; a]?);
    let threads = Items::from_vec(vec![in alloc; only]?);
    Ok(config(alloc, boxes, threads))
}

/// One box with one thread, which halts at once.
pub fn one_box(alloc: Global) -> Result<Config, OutOfMemory>
    ensures exact { IfOk result (λ it. it ≡ sample.one_box) }
    ensures sound { IfOk result IsSound }
{
    box_and_thread(alloc)
}

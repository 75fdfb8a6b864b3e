ghost use Rattle.std.specs.Prelude.{◌≡◌, ◌<◌, None, false, IfOk, replicate};
ghost use Rattle.std.specs.Option.{option_map_or};
ghost use Rattle.flat_model.specs.Memory as memory_words;
ghost use Rattle.flat_model.specs.Run as spec;

use crate::banks::put_word;
use crate::boards::{Board, HeapPart};
use crate::lists::Items;
use crate::parts::Config;
use crate::states::{Lines, Memory, ThreadState};
use addr_base::OutOfMemory;
use std::alloc::Global;

// How many interrupt lines there are.
const LINES: usize = 64;

// How many zero bytes are copied at once.
const BLOCK: usize = 1024;

// So many zero bytes. They are copied a block at a time: a bank may have millions.
fn zero_bytes(alloc: Global, n: usize) -> Result<Items<u8>, OutOfMemory>
    ensures { IfOk result (λ bytes. bytes ≡ replicate n 0) }
{
    let zeros = vec![in alloc; 0; BLOCK]?;
    let mut bytes = Vec::with_capacity(alloc, n)?;
    'blocks: while bytes.len() < n {
        let more = BLOCK.min(n - bytes.len());
        bytes.extend_from_slice(&zeros[..more])?;
    }
    Ok(Items::from_vec(bytes))
}

// Memory of zero bytes.
fn blank_memory(alloc: Global, board: &Board) -> Result<Memory, OutOfMemory>
    ensures { IfOk result (λ memory. memory ≡ memory_words.blank_memory board.now) }
{
    let flash = zero_bytes(alloc, board.flash.len as usize)?;
    let sram = zero_bytes(alloc, board.sram.len as usize)?;
    let peripherals = zero_bytes(alloc, board.peripherals.len as usize)?;
    Ok(Memory {
        flash,
        sram,
        peripherals,
    })
}

// Writes the words that are there from the start.
fn write_words(board: &Board, memory: &mut Memory)
    ensures { memory.new ≡ memory_words.with_words board.now memory.old board.now.words }
{
    for word in board.words.as_slice() {
        put_word(board, memory, word.at as u64, 4, word.value);
    }
}

/// Memory as it is at the start: zero but for the board's words.
pub fn opening_memory(alloc: Global, board: &Board) -> Result<Memory, OutOfMemory>
    ensures { IfOk result (λ memory. memory ≡ memory_words.opening_memory board.now) }
{
    let mut memory = blank_memory(alloc, board)?;
    write_words(board, &mut memory);
    Ok(memory)
}

/// How many pages the heap has, or 0 where there is none.
pub fn page_count(heap: &Option<HeapPart>) -> u32
    ensures { result ≡ option_map_or (λ heap. heap.count) heap.now 0 }
{
    match heap {
        Some(heap) => heap.count,
        None => 0,
    }
}

/// The interrupt lines of so many boxes as they are at the start.
pub fn opening_lines(alloc: Global, boxes: usize) -> Result<Lines, OutOfMemory>
    ensures { IfOk result (λ lines. lines ≡ record {
      latched = replicate spec.LINES false;
      enabled = replicate spec.LINES false;
      saved = replicate boxes None;
    }) }
{
    let latched = Items::filled(alloc, false, LINES)?;
    let enabled = Items::filled(alloc, false, LINES)?;
    let saved = Items::filled(alloc, None, boxes)?;
    Ok(Lines {
        latched,
        enabled,
        saved,
    })
}

/// The threads as they are at the start.
#[tactic(auto, unfolding(crate::specs::Run::opening_state))]
pub fn opening_threads(alloc: Global, cfg: &Config) -> Result<Items<ThreadState>, OutOfMemory>
    ensures { IfOk result (λ threads. threads ≡ (spec.opening_state cfg.now).threads) }
{
    Items::filled(alloc, ThreadState::opening(), cfg.threads.len())
}

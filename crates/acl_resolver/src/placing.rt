ghost use Rattle.std.specs.Prelude.{◌≡◌, ◌+◌, ◌^◌, ◌<◌, ◌≤◌, length};
ghost use Rattle.addr_base.specs.Range.{ADDRESS_END, end_of};
ghost use Rattle.flat_model.specs.First.{number, unless_refused};
ghost use Rattle.flat_model.specs.Placing.{limit_of};
ghost use Rattle.acl_resolver.specs.Refusals.{common_behind, multiple_from, no_room, own_after, own_end, own_len};

use addr_base::{Range, round_up};
use flat_model::{Board, BoxText, Refused};

/// The place of an index in a refusal, which stops at the last number of 32 bits.
pub fn numbered(index: usize) -> u32
    ensures { result ≡ number index }
{
    index.min(0xFFFF_FFFF) as u32
}

/// The length of own memory for a size.
pub fn own_len(size: u32) -> u32
    ensures exact { result ≡ own_len size }
    ensures some { 256 ≤ result }
{
    round_up(size).unwrap_or(0).max(256)
}

/// The least multiple of a length that is not below an address.
pub fn multiple_from(len: u32, start: u64) -> u64
    requires some { 1 ≤ len }
    requires low { start < 2 ^ 33 }
    ensures exact { result ≡ multiple_from len start }
    ensures near { result < start + len }
{
    let len = len as u64;
    (start + (len - 1)) / len * len
}

// Where own memory for a size ends that is placed at or after an address.
fn end_after(start: u64, size: u32) -> u64
    requires { start < 2 ^ 33 }
    ensures { result ≡ end_of (own_after start size) }
{
    let len = own_len(size);
    multiple_from(len, start) + len as u64
}

/// Where the board's own memories and its common part end.
pub fn limit_of(board: &Board) -> u64
    ensures exact { result ≡ limit_of board.now }
    ensures low { result < 2 ^ 33 }
{
    match board.heap {
        Some(heap) => heap.base as u64,
        None => board.sram.base as u64 + board.sram.len as u64,
    }
}

/// Where the last own memory ends, unless the own memory of some box would pass the limit.
pub fn placed_end(board: &Board, boxes: &[BoxText]) -> Result<u64, Refused>
    ensures { result
        ≡ unless_refused
        (no_room (limit_of board.now) board.now.sram.base 0 boxes.now)
        (own_end board.now.sram.base boxes.now) }
{
    let limit = limit_of(board);
    let mut start = board.sram.base as u64;
    for (i, part) in boxes.iter().enumerate() {
        let end = end_after(start, part.size);
        if end > limit {
            return Err(Refused::NoRoom {
                at_box: numbered(i),
            });
        }
        start = end;
    }
    Ok(start)
}

/// The common part of SRAM, behind the boxes' own memory, which ends at `end`.
pub fn common_behind(board: &Board, boxes: &[BoxText], end: u64) -> Range
    requires last { end ≡ own_end board.now.sram.base boxes.now }
    requires room { end ≤ limit_of board.now }
    requires low { limit_of board.now ≤ ADDRESS_END }
    ensures { result ≡ common_behind board.now boxes.now }
{
    Range {
        base: end as u32,
        len: (limit_of(board) - end) as u32,
    }
}

/// Own memory for a size, placed at or after an address.
pub fn own_after(start: u64, size: u32) -> Range
    requires low { start < 2 ^ 33 }
    requires room { end_of (own_after start size) ≤ ADDRESS_END }
    ensures { result ≡ own_after start size }
{
    let len = own_len(size);
    Range {
        base: multiple_from(len, start) as u32,
        len,
    }
}

ghost use Rattle.std.specs.Prelude.{◌≡◌, ◌+◌, ◌^◌, ◌<◌, ◌≤◌, slice_index};
ghost use Rattle.addr_base.specs.Range.{in_range};
ghost use Rattle.flat_model.specs.Memory as spec;

use crate::boards::Board;
use crate::lists::Items;
use crate::states::Memory;
use addr_base::Range;

// The byte at a place of a bank, or 0 past its end.
fn byte_in(bank: &Items<u8>, at: usize) -> u8
    ensures { result ≡ slice_index bank.now at }
{
    bank.as_slice().get(at).copied().unwrap_or(0)
}

// Whether the range has the address.
fn has(range: &Range, a: u64) -> bool
    ensures { result ≡ in_range range.now a }
{
    let end = range.base as u64 + range.len as u64;
    range.base as u64 <= a && a < end
}

/// The byte at an address.
#[tactic(auto, unfolding(crate::specs::Memory::byte_at))]
pub(crate) fn byte_at(board: &Board, memory: &Memory, a: u64) -> u8
    ensures { result ≡ spec.byte_at board.now memory.now a }
{
    if has(&board.flash, a) {
        byte_in(&memory.flash, (a - board.flash.base as u64) as usize)
    } else if has(&board.sram, a) {
        byte_in(&memory.sram, (a - board.sram.base as u64) as usize)
    } else if has(&board.peripherals, a) {
        byte_in(
            &memory.peripherals,
            (a - board.peripherals.base as u64) as usize,
        )
    } else {
        0
    }
}

/// Writes a byte at an address; outside the banks nothing changes.
#[tactic(auto, unfolding(crate::specs::Memory::put_byte))]
pub fn put_byte(board: &Board, memory: &mut Memory, a: u64, value: u8)
    ensures { memory.new ≡ spec.put_byte board.now memory.old (record { at = a; value = value }) }
{
    if has(&board.flash, a) {
        memory
            .flash
            .put((a - board.flash.base as u64) as usize, value);
    } else if has(&board.sram, a) {
        memory
            .sram
            .put((a - board.sram.base as u64) as usize, value);
    } else if has(&board.peripherals, a) {
        memory
            .peripherals
            .put((a - board.peripherals.base as u64) as usize, value);
    }
}

/// The word of `n` bytes at an address, the lowest first.
pub fn word_at(board: &Board, memory: &Memory, a: u64, n: u8) -> u32
    requires small { n ≤ 4 }
    requires within { a + n < 2 ^ 64 }
    ensures exact { result ≡ spec.word_at board.now memory.now a n }
    ensures bound { result < 256 ^ n }
{
    if n == 0 {
        return 0;
    }
    let low = byte_at(board, memory, a) as u32;
    low + 256 * word_at(board, memory, a + 1, n - 1)
}

/// Writes the `n` low bytes of a value at an address, the lowest first.
pub fn put_word(board: &Board, memory: &mut Memory, a: u64, n: u8, value: u32)
    requires within { a + n < 2 ^ 64 }
    ensures exact { memory.new ≡ spec.put_word board.now memory.old a n value }
{
    if n > 0 {
        put_byte(board, memory, a, (value % 256) as u8);
        put_word(board, memory, a + 1, n - 1, value / 256);
    }
}

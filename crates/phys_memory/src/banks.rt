ghost use Rattle.std.specs.Prelude.{◌≡◌, ◌+◌, ◌-◌, ◌%◌, ◌^◌, ◌≤◌, ◌<◌, Some, None, true, IfOk, if◌then◌else◌};
ghost use Rattle.addr_base.specs.Range as range_words;
ghost use Rattle.flat_model.specs.Memory as memory_words;
ghost use Rattle.phys_memory.specs.Banks as spec;
ghost use Rattle.phys_memory.specs.Across as across;

use crate::bank::Bank;
use crate::one_bank::{in_flash, in_peripherals, in_sram};
use flat_model::{Board, OutOfMemory, Range, Word};
use std::alloc::Global;
use std::marker::Model;

/// The banks of a board, which contracts see as the board and one map from addresses to bytes.
#[derive(Drop)]
pub struct Banks {
    board: Board,
    flash: Bank,
    sram: Bank,
    peripherals: Bank,
}

impl Model for Banks {
    ghost use Rattle.flat_model.specs.declared.states.Memory.{Memory};
    ghost use Rattle.phys_memory.specs.Banks.{BanksView};
    ghost use Rattle.phys_memory.specs.Across.{IsWhole};

    ghost Value = { BanksView };

    ghost view = { λ b. record {
      board = b.board;
      memory = record { flash = b.flash; sram = b.sram; peripherals = b.peripherals };
    } };

    ghost invariant = { λ b. IsWhole b.board b.flash b.sram b.peripherals };
}

// Whether the range has the address.
fn has(range: &Range, a: u64) -> bool
    ensures { result ≡ range_words.in_range range.now a }
{
    range.base as u64 <= a && a < range.end()
}

// Whether the address is in one of the board's banks.
fn is_in_bank(board: &Board, a: u64) -> bool
    ensures { result ≡ spec.is_in_bank board.now a }
{
    has(&board.flash, a) || has(&board.sram, a) || has(&board.peripherals, a)
}

// Whether each of the `n` addresses from `a` is in one of the board's banks.
fn are_in_banks(board: &Board, a: u64, n: u32) -> bool
    requires { a + n < 2 ^ 64 }
    ensures { result ≡ spec.are_in_banks board.now a n }
{
    n == 0 || (is_in_bank(board, a) && are_in_banks(board, a + 1, n - 1))
}

// Writes the words that are there from the start.
fn write_words(banks: &mut Banks, words: &[Word])
    ensures { banks.new ≡ across.with_board_words banks.old words.now }
{
    for word in words {
        banks.store(word.at, 4, word.value);
    }
}

impl Banks {
    /// The banks of a board: zero but for its words. They keep a copy of the board, so that no call can ask for an
    /// address by another board.
    pub fn new(alloc: Global, board: &Board) -> Result<Banks, OutOfMemory>
        ensures { IfOk result (λ banks. banks ≡ spec.opening_banks board.now) }
    {
        let flash = Bank::blank(alloc, board.flash.len as usize)?;
        let sram = Bank::blank(alloc, board.sram.len as usize)?;
        let peripherals = Bank::blank(alloc, board.peripherals.len as usize)?;
        let mut banks = Banks {
            board: board.copied(alloc)?,
            flash,
            sram,
            peripherals,
        };
        write_words(&mut banks, board.words.as_slice());
        Ok(banks)
    }

    /// The little-endian word of `n` bytes at an address, where a byte outside the banks counts as 0.
    #[tactic(auto, using(crate::proofs::OneBankLemmas::word_flash, crate::proofs::OneBankLemmas::word_sram, crate::proofs::OneBankLemmas::word_peripherals))]
    pub fn load(&self, a: u32, n: u32) -> u32
        requires { n ≤ 4 }
        ensures { result ≡ memory_words.word_at self.now.board self.now.memory a n }
    {
        let board = &self.board;
        // Nearly every word lies in one bank, which is looked up once for all its bytes.
        if in_flash(board, a as u64, n as u64) {
            self.flash.load((a - board.flash.base) as usize, n)
        } else if in_sram(board, a as u64, n as u64) {
            self.sram.load((a - board.sram.base) as usize, n)
        } else if in_peripherals(board, a as u64, n as u64) {
            self.peripherals
                .load((a - board.peripherals.base) as usize, n)
        } else {
            self.word_across(a as u64, n)
        }
    }

    // The byte at an address, or 0 outside the banks.
    #[tactic(auto, unfolding(flat_model::specs::Memory::byte_at))]
    fn byte_at(&self, a: u64) -> u32
        ensures exact { result ≡ memory_words.byte_at self.now.board self.now.memory a }
        ensures small { result < 256 }
    {
        let board = &self.board;
        if has(&board.flash, a) {
            self.flash.load((a - board.flash.base as u64) as usize, 1)
        } else if has(&board.sram, a) {
            self.sram.load((a - board.sram.base as u64) as usize, 1)
        } else if has(&board.peripherals, a) {
            self.peripherals
                .load((a - board.peripherals.base as u64) as usize, 1)
        } else {
            0
        }
    }

    // The word of `n` bytes at an address, each looked up by itself.
    fn word_across(&self, a: u64, n: u32) -> u32
        requires small { n ≤ 4 }
        requires within { a + n < 2 ^ 64 }
        ensures exact { result ≡ memory_words.word_at self.now.board self.now.memory a n }
        ensures bound { result < 256 ^ n }
    {
        if n == 0 {
            return 0;
        }
        let low = self.byte_at(a);
        low + 256 * self.word_across(a + 1, n - 1)
    }

    /// Writes the low `n` bytes of a value at an address, the lowest first; outside the banks nothing changes.
    #[tactic(auto, using(crate::proofs::OneBankLemmas::put_flash, crate::proofs::OneBankLemmas::put_sram, crate::proofs::OneBankLemmas::put_peripherals, crate::proofs::PackedLemmas::length_with_bytes))]
    pub fn store(&mut self, a: u32, n: u32, value: u32)
        requires { n ≤ 4 }
        ensures { self.new ≡ spec.with_word self.old a n value }
    {
        if in_flash(&self.board, a as u64, n as u64) {
            let at = (a - self.board.flash.base) as usize;
            self.flash.store(at, n, value);
        } else if in_sram(&self.board, a as u64, n as u64) {
            let at = (a - self.board.sram.base) as usize;
            self.sram.store(at, n, value);
        } else if in_peripherals(&self.board, a as u64, n as u64) {
            let at = (a - self.board.peripherals.base) as usize;
            self.peripherals.store(at, n, value);
        } else {
            self.put_across(a as u64, n, value);
        }
    }

    // Writes the lowest byte of a value at an address; outside the banks nothing changes.
    #[tactic(auto, unfolding(flat_model::specs::Memory::put_byte))]
    fn put_byte(&mut self, a: u64, value: u32)
        ensures { self.new ≡ across.with_byte self.old a (value % 256) }
    {
        if has(&self.board.flash, a) {
            let at = (a - self.board.flash.base as u64) as usize;
            self.flash.store(at, 1, value);
        } else if has(&self.board.sram, a) {
            let at = (a - self.board.sram.base as u64) as usize;
            self.sram.store(at, 1, value);
        } else if has(&self.board.peripherals, a) {
            let at = (a - self.board.peripherals.base as u64) as usize;
            self.peripherals.store(at, 1, value);
        }
    }

    // Writes the low `n` bytes of a value at an address, each by itself.
    fn put_across(&mut self, a: u64, n: u32, value: u32)
        requires { a + n < 2 ^ 64 }
        ensures { self.new ≡ spec.with_word self.old a n value }
    {
        if n > 0 {
            self.put_byte(a, value);
            self.put_across(a + 1, n - 1, value / 256);
        }
    }

    /// The little-endian word of `n` bytes at an address; none exactly where a byte is outside the banks.
    pub fn get(&self, a: u32, n: u32) -> Option<u32>
        requires { n ≤ 4 }
        ensures { result ≡ (if spec.are_in_banks self.now.board a n
            then Some (memory_words.word_at self.now.board self.now.memory a n) else None) }
    {
        if are_in_banks(&self.board, a as u64, n) {
            Some(self.load(a, n))
        } else {
            None
        }
    }

    /// Writes the low `n` bytes of a value at an address; false exactly where a byte is outside the banks, and then
    /// nothing changes.
    pub fn put(&mut self, a: u32, n: u32, value: u32) -> bool
        requires { n ≤ 4 }
        ensures answer { result ≡ spec.are_in_banks self.old.board a n }
        ensures exact { self.new
            ≡ (if result then spec.with_word self.old a n value else self.old) }
    {
        let inside = are_in_banks(&self.board, a as u64, n);
        if inside {
            self.store(a, n, value);
        }
        inside
    }

    // Writes zero bytes from one address on up to another, each by itself.
    fn zero_across(&mut self, from: u64, to: u64)
        requires { from ≤ to }
        ensures { self.new ≡ across.with_zeros_from self.old from (to - from) }
    {
        for a in from..to {
            self.put_byte(a, 0);
        }
    }

    /// Fills a range with zero bytes.
    #[tactic(auto, using(crate::proofs::OneBankLemmas::zero_flash, crate::proofs::OneBankLemmas::zero_sram, crate::proofs::OneBankLemmas::zero_peripherals, crate::proofs::PackedLemmas::length_with_bytes))]
    pub fn zero(&mut self, range: Range)
        requires { spec.lies_in_one_bank self.old.board range ≡ true }
        ensures { self.new ≡ spec.with_zeros self.old range }
    {
        let (a, n) = (range.base as u64, range.len as u64);
        if in_flash(&self.board, a, n) {
            let at = (range.base - self.board.flash.base) as usize;
            self.flash.zero(at, range.len as usize);
        } else if in_sram(&self.board, a, n) {
            let at = (range.base - self.board.sram.base) as usize;
            self.sram.zero(at, range.len as usize);
        } else if in_peripherals(&self.board, a, n) {
            let at = (range.base - self.board.peripherals.base) as usize;
            self.peripherals.zero(at, range.len as usize);
        } else {
            self.zero_across(a, range.end());
        }
    }
}

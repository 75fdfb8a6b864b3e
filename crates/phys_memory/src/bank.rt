ghost use Rattle.std.specs.Prelude.{◌≡◌, ◌+◌, ◌-◌, ◌*◌, ◌%◌, ◌^◌, ◌<◌, ◌≤◌, IfOk, length, replicate, slice_index};
ghost use Rattle.flat_model.specs.Cells.{word_of};
ghost use Rattle.phys_memory.specs.OneBank.{with_bytes};

use crate::bytes::{low, mixed, shifted};
use crate::pieces::Pieces;
use flat_model::OutOfMemory;
use std::alloc::Global;
use std::marker::Model;

/// How many bytes a piece has.
const PIECE: usize = 32;

/// One bank of memory, which contracts see as the list of its bytes. It is kept as words, the last of which may have
/// bytes that are past the bank's end.
#[derive(Drop)]
pub(crate) struct Bank {
    words: Pieces,
    len: usize,
}

impl Model for Bank {
    ghost use Rattle.std.specs.Prelude.{◌*◌, ◌^◌, ◌<◌, ◌≤◌, List, ℕ, length};
    ghost use Rattle.phys_memory.specs.Packed.{bytes_of};

    ghost Value = { List ℕ };

    ghost view = { λ b. bytes_of b.len b.words };

    ghost invariant = { λ b. (b.len ≤ 4 * length b.words) × (b.len < 2 ^ 32) };
}

impl Bank {
    /// A bank of so many zero bytes.
    pub(crate) fn blank(alloc: Global, len: usize) -> Result<Bank, OutOfMemory>
        requires { len < 2 ^ 32 }
        ensures { IfOk result (λ bank. bank ≡ replicate len 0) }
    {
        let words = Pieces::blank(alloc, (len + PIECE - 1) / PIECE)?;
        Ok(Bank { words, len })
    }

    /// The word of `n` bytes at a place. An aligned word of four bytes is one word of the bank.
    pub(crate) fn load(&self, at: usize, n: u32) -> u32
        requires small { n ≤ 4 }
        requires inside { at + n ≤ length self.now }
        ensures exact { result ≡ word_of (slice_index self.now) at n }
        ensures bound { result < 256 ^ n }
    {
        let _ = &self.len;
        if n == 0 {
            return 0;
        }
        let first = (at % 4) as u32;
        if first + n <= 4 {
            self.part(at, n)
        } else {
            let low = self.load(at, 1);
            low + 256 * self.load(at + 1, n - 1)
        }
    }

    // The word of `n` bytes at a place, where they are bytes of one word of the bank.
    fn part(&self, at: usize, n: u32) -> u32
        requires some { 0 < n }
        requires one { at % 4 + n ≤ 4 }
        requires inside { at + n ≤ length self.now }
        ensures { result ≡ word_of (slice_index self.now) at n }
    {
        let word = self.words.get(at / 4);
        if n < 4 {
            low(shifted(word, (at % 4) as u32), n)
        } else {
            word
        }
    }

    /// Writes the `n` low bytes of a value at a place, the lowest first.
    pub(crate) fn store(&mut self, at: usize, n: u32, value: u32)
        requires small { n ≤ 4 }
        requires inside { at + n ≤ length self.old }
        ensures { self.new ≡ with_bytes self.old at n value }
    {
        let _ = &self.len;
        if n == 0 {
            return;
        }
        let first = (at % 4) as u32;
        if first + n <= 4 {
            self.put_part(at, n, value);
        } else {
            self.store(at, 1, value);
            self.store(at + 1, n - 1, value / 256);
        }
    }

    // Writes them where they are bytes of one word of the bank.
    fn put_part(&mut self, at: usize, n: u32, value: u32)
        requires some { 0 < n }
        requires one { at % 4 + n ≤ 4 }
        requires inside { at + n ≤ length self.old }
        ensures { self.new ≡ with_bytes self.old at n value }
    {
        let k = at / 4;
        if n == 4 {
            self.words.put(k, value);
        } else {
            let word = mixed(self.words.get(k), (at % 4) as u32, n, value);
            self.words.put(k, word);
        }
    }

    // Writes zero bytes from one place on up to another, one by one.
    fn zero_bytes(&mut self, from: usize, to: usize)
        requires order { from ≤ to }
        requires inside { to ≤ length self.old }
        ensures { self.new ≡ with_bytes self.old from (to - from) 0 }
    {
        for at in from..to {
            self.store(at, 1, 0);
        }
    }

    // Writes zero bytes to the pieces from one on up to another, by their marks.
    fn zero_pieces(&mut self, from: usize, to: usize)
        requires order { from ≤ to }
        requires inside { 32 * to ≤ length self.old }
        ensures { self.new ≡ with_bytes self.old (32 * from) (32 * to - 32 * from) 0 }
    {
        self.words.clear(from, to);
    }

    /// Writes `n` zero bytes at a place: by marks where they are whole pieces, and one by one before and behind.
    pub(crate) fn zero(&mut self, at: usize, n: usize)
        requires inside { at + n ≤ length self.old }
        ensures { self.new ≡ with_bytes self.old at n 0 }
    {
        // What is known of its length is known once a field is looked at.
        let _ = &self.len;
        let end = at + n;
        let first = (at + PIECE - 1) / PIECE;
        let last = end / PIECE;
        if first < last {
            self.zero_bytes(at, PIECE * first);
            self.zero_pieces(first, last);
            self.zero_bytes(PIECE * last, end);
        } else {
            self.zero_bytes(at, end);
        }
    }
}

ghost use Rattle.std.specs.Prelude.{◌≡◌, ℕ, ◌+◌, ◌*◌, ◌^◌, ◌<◌, ◌≤◌, ◌⊎◌, true, false, IfOk, length, replicate, slice_index, slice_index_or, slice_set};
ghost use Rattle.std.specs.Vec.{vec_capacity};
ghost use Rattle.phys_memory.specs.Packed as spec;

use flat_model::OutOfMemory;
use std::alloc::Global;
use std::marker::Model;

/// How many words a piece has.
const PIECE: usize = 8;

/// The words of a bank in pieces of eight. A mark says that all words of a piece are zero: then they may never have
/// been written, and hold anything. Contracts see the words alone.
#[derive(Drop)]
pub(crate) struct Pieces {
    words: Vec<u32>,
    zeros: Vec<bool>,
}

impl Model for Pieces {
    ghost use Rattle.std.specs.Prelude.{List, ℕ};
    ghost use Rattle.std.specs.Vec.{vec_capacity};
    ghost use Rattle.phys_memory.specs.Packed.{IsPacked, words_of};

    ghost Value = { List ℕ };

    ghost view = { λ p. words_of p.words.items p.zeros.items };

    ghost invariant = { λ p. IsPacked p.words.items p.zeros.items (vec_capacity p.words) };
}

// Makes a list of words so long, with zeros behind those that are there. It has the room, so no memory is taken.
fn lengthen(words: &mut Vec<u32>, n: usize)
    requires { n ≤ vec_capacity words.old }
    ensures long { n ≤ length words.new.items }
    ensures grown { length words.old.items ≤ length words.new.items }
    ensures same { (k : ℕ) → slice_index words.new.items k ≡ slice_index words.old.items k }
    ensures room { vec_capacity words.old ≤ vec_capacity words.new }
{
    if words.len() < n {
        words.resize(n, 0).unwrap();
    }
}

// Writes zero to the words from one place on up to another.
fn clear_words(words: &mut [u32], from: usize, to: usize)
    requires order { from ≤ to }
    requires within { to ≤ length words.old }
    ensures inside { (k : ℕ) → from ≤ k → k < to → slice_index words.new k ≡ 0 }
    ensures others { (k : ℕ) → (k < from) ⊎ (to ≤ k)
        → slice_index words.new k ≡ slice_index words.old k }
{
    for i in from..to {
        words[i] = 0;
    }
}

// Sets the marks from one piece on up to another.
fn mark(zeros: &mut [bool], from: usize, to: usize)
    requires order { from ≤ to }
    requires within { to ≤ length zeros.old }
    ensures inside { (p : ℕ) → from ≤ p → p < to → slice_index_or zeros.new p true ≡ true }
    ensures others { (p : ℕ) → (p < from) ⊎ (to ≤ p)
        → slice_index_or zeros.new p true ≡ slice_index_or zeros.old p true }
{
    for i in from..to {
        zeros[i] = true;
    }
}

// Takes a piece's mark away, if it has one, once zero is written to its words.
fn unmark(words: &mut Vec<u32>, zeros: &mut Vec<bool>, piece: usize)
    requires packed { spec.IsPacked words.old.items zeros.old.items (vec_capacity words.old) }
    requires piece { piece < length zeros.old.items }
    ensures packed { spec.IsPacked words.new.items zeros.new.items (vec_capacity words.new) }
    ensures same { spec.words_of words.new.items zeros.new.items
        ≡ spec.words_of words.old.items zeros.old.items }
    ensures off { slice_index_or zeros.new.items piece true ≡ false }
{
    if zeros[piece] {
        let first = PIECE * piece;
        lengthen(words, first + PIECE);
        clear_words(words.as_mut_slice(), first, first + PIECE);
        zeros[piece] = false;
    }
}

impl Pieces {
    /// So many pieces of zeros. The words get their room here, and are written as they are needed.
    pub(crate) fn blank(alloc: Global, pieces: usize) -> Result<Pieces, OutOfMemory>
        requires { pieces < 2 ^ 32 }
        ensures { IfOk result (λ words. words ≡ replicate (8 * pieces) 0) }
    {
        let words = Vec::with_capacity(alloc, PIECE * pieces)?;
        let zeros = vec![in alloc; true; pieces]?;
        Ok(Pieces { words, zeros })
    }

    /// The word at a place.
    pub(crate) fn get(&self, k: usize) -> u32
        requires { k < length self.now }
        ensures { result ≡ slice_index self.now k }
    {
        if self.zeros[k / PIECE] {
            0
        } else {
            self.words[k]
        }
    }

    /// Writes a word at a place.
    pub(crate) fn put(&mut self, k: usize, word: u32)
        requires { k < length self.old }
        ensures { self.new ≡ slice_set self.old k word }
    {
        let piece = k / PIECE;
        unmark(&mut self.words, &mut self.zeros, piece);
        self.words[k] = word;
    }

    /// Makes all words zero of the pieces from one on up to another.
    pub(crate) fn clear(&mut self, from: usize, to: usize)
        requires order { from ≤ to }
        requires within { 8 * to ≤ length self.old }
        ensures len { length self.new ≡ length self.old }
        ensures inside { (k : ℕ) → 8 * from ≤ k → k < 8 * to → slice_index self.new k ≡ 0 }
        ensures others { (k : ℕ) → (k < 8 * from) ⊎ (8 * to ≤ k)
            → slice_index self.new k ≡ slice_index self.old k }
    {
        mark(self.zeros.as_mut_slice(), from, to);
    }
}

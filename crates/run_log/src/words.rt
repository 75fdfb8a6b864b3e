ghost use Rattle.std.specs.Prelude.{◌≡◌, ◌≤◌, length};
ghost use Rattle.std.specs.List.{after_first, before_first, position_or_len};
ghost use Rattle.std.specs.Str.{bytes_eq};
ghost use Rattle.run_log.specs.LineWords.{digit_of, first_of, is_dot, is_hash, is_space, number_of, rest_of, small_of, words_of};

use std::marker::Model;

// Whether the byte separates words.
#[tactic(auto, unfolding(crate::specs::LineWords::is_space))]
fn is_space(b: u8) -> bool
    ensures { result ≡ is_space b }
{
    b == b' '
}

// How many bytes stand before the first space.
#[tactic(auto, unfolding(crate::specs::LineWords::is_space))]
fn word_length(line: &[u8]) -> usize
    ensures { result ≡ position_or_len is_space line.now }
{
    for (i, b) in line.iter().enumerate() {
        if is_space(*b) {
            return i;
        }
    }
    line.len()
}

// How many words a line has.
fn word_count(line: &[u8]) -> usize
    ensures { result ≡ length (words_of line.now) }
{
    line.split(|b| is_space(*b)).count()
}

/// The words of a line that are left to take, from the left.
#[derive(Drop)]
pub struct Words<'a> {
    line: &'a [u8],
    more: bool,
}

impl<'a> Model for Words<'a> {
    ghost use Rattle.std.specs.Prelude.{ℕ, List, [], if◌then◌else◌};
    ghost use Rattle.run_log.specs.LineWords.{words_of};

    ghost Value = { List (List ℕ) };

    ghost view = { λ w. if w.more then words_of w.line.now else [] };
}

impl<'a> Words<'a> {
    /// All words of a line.
    pub fn of(line: &'a [u8]) -> Words<'a>
        ensures { result ≡ words_of line.now }
    {
        Words { line, more: true }
    }

    /// Takes the next word, or nothing where none is left.
    pub fn next_word(&mut self) -> &'a [u8]
        ensures value { result.now ≡ first_of self.old }
        ensures rest { self.new ≡ rest_of self.old }
    {
        if !self.more {
            return &[];
        }
        let line = self.line;
        let end = word_length(line);
        if end >= line.len() {
            self.more = false;
            return line;
        }
        self.line = &line[end + 1..];
        &line[..end]
    }

    /// How many words are left.
    pub fn count(&self) -> usize
        ensures { result ≡ length self.now }
    {
        if self.more { word_count(self.line) } else { 0 }
    }

    /// Takes a decimal number of 32 bits.
    pub fn decimal(&mut self) -> u32
        ensures value { result ≡ number_of 10 (first_of self.old) }
        ensures rest { self.new ≡ rest_of self.old }
    {
        number_of(10, self.next_word())
    }

    /// Takes a hexadecimal number of 32 bits.
    pub fn hex(&mut self) -> u32
        ensures value { result ≡ number_of 16 (first_of self.old) }
        ensures rest { self.new ≡ rest_of self.old }
    {
        number_of(16, self.next_word())
    }

    /// Takes a decimal number of 8 bits.
    pub fn small(&mut self) -> u8
        ensures value { result ≡ small_of (first_of self.old) }
        ensures rest { self.new ≡ rest_of self.old }
    {
        small_of(self.next_word())
    }
}

/// Whether the word is this text.
pub fn is_text(word: &[u8], text: &str) -> bool
    ensures { result ≡ bytes_eq word.now text.now }
{
    word == text.as_bytes()
}

/// What stands before the first dot, and after it.
#[tactic(auto, unfolding(crate::specs::LineWords::is_dot))]
pub fn parted_at_dot(word: &[u8]) -> (&[u8], &[u8])
    ensures before { result.0.now ≡ before_first is_dot word.now }
    ensures after { result.1.now ≡ after_first is_dot word.now }
{
    for (i, b) in word.iter().enumerate() {
        if *b == b'.' {
            return (&word[..i], &word[i + 1..]);
        }
    }
    (word, &[])
}

/// What stands before the first `#`, and after it.
#[tactic(auto, unfolding(crate::specs::LineWords::is_hash))]
pub fn parted_at_hash(word: &[u8]) -> (&[u8], &[u8])
    ensures before { result.0.now ≡ before_first is_hash word.now }
    ensures after { result.1.now ≡ after_first is_hash word.now }
{
    for (i, b) in word.iter().enumerate() {
        if *b == b'#' {
            return (&word[..i], &word[i + 1..]);
        }
    }
    (word, &[])
}

// The value of a digit, also of a hexadecimal one; 0 of any character past them.
#[tactic(auto, unfolding(crate::specs::LineWords::digit_of))]
fn digit_of(b: u8) -> u8
    ensures { result ≡ digit_of b }
{
    if b < 58 {
        b.saturating_sub(48)
    } else if b < 71 {
        b - 55
    } else {
        0
    }
}

/// The number that a word writes, or the last one of 32 bits where it is larger.
#[tactic(auto, unfolding(crate::specs::LineWords::number_of))]
pub fn number_of(radix: u64, word: &[u8]) -> u32
    requires least { 1 ≤ radix }
    requires most { radix ≤ 16 }
    ensures { result ≡ number_of radix word.now }
{
    let mut value: u64 = 0;
    for b in word {
        value = (value * radix + u64::from(digit_of(*b))).min(0xFFFF_FFFF);
    }
    value as u32
}

/// The number that a word writes, or the last one of 8 bits where it is larger.
#[tactic(auto, unfolding(crate::specs::LineWords::small_of))]
pub fn small_of(word: &[u8]) -> u8
    ensures { result ≡ small_of word.now }
{
    number_of(10, word).min(255) as u8
}

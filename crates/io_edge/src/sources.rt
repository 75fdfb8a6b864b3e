ghost use Rattle.std.specs.Prelude.{◌≡◌, ℕ, ◌<◌, ◌≤◌, Some, length, drop, min, take};
ghost use Rattle.std.specs.Io.KnownBytes.{prepend_known};
ghost use Rattle.io_edge.specs.Ends.{IsPull, faults_after_pull, pulled_count};
ghost use Rattle.io_edge.specs.Sources.{bytes_or_end, pull_of, source_after};

use crate::ends::{Pulled, Source};
use std::marker::Model;

/// Bytes in memory as a source that gives them in pieces, and that fails where it is told to.
#[derive(Debug, Drop)]
pub struct MemSource {
    bytes: Vec<u8>,
    at: usize,
    piece: usize,
    fail_at: Vec<u64>,
    calls: u64,
    faults: u64,
}

impl Model for MemSource {
    ghost use Rattle.std.specs.Prelude.{◌≤◌, drop, length};
    ghost use Rattle.io_edge.specs.Sources.{SourceView};

    ghost Value = { SourceView };

    ghost view = { λ s. record {
      left = drop s.at s.bytes.items;
      piece = s.piece;
      fail_at = s.fail_at.items;
      calls = s.calls;
      faults = s.faults;
    } };

    ghost invariant = { λ s. (s.at ≤ length s.bytes.items) × (1 ≤ s.piece) };
}

impl MemSource {
    /// A source of all of the bytes, which gives at most `piece` of them in one call and fails at
    /// the calls whose numbers, from 1, stand in `fail_at`. Failed calls are counted too.
    pub fn new(bytes: Vec<u8>, piece: usize, fail_at: Vec<u64>) -> MemSource
        requires { 1 ≤ piece }
        ensures { result ≡ record {
          left = bytes.items;
          piece = piece;
          fail_at = fail_at.items;
          calls = 0;
          faults = 0;
        } }
    {
        MemSource {
            bytes,
            at: 0,
            piece,
            fail_at,
            calls: 0,
            faults: 0,
        }
    }

    /// The bytes that are left.
    pub fn left(&self) -> &[u8]
        ensures { result.now ≡ self.now.left }
    {
        &self.bytes[self.at..]
    }

    /// How many reads there were.
    pub fn calls(&self) -> u64
        ensures { result ≡ self.now.calls }
    {
        self.calls
    }

    /// How many reads have failed.
    pub fn faults(&self) -> u64
        ensures { result ≡ self.now.faults }
    {
        self.faults
    }
}

impl Source for MemSource {
    ghost left = { λ source. Some source.left };

    ghost faults = { λ source. source.faults };

    fn read(&mut self, buf: &mut [u8]) -> Pulled
        requires { 0 < length buf.old }

        ensures pull { IsPull (length buf.old) (Some self.old.left) result }
        ensures bytes { Some self.old.left
            ≡ prepend_known (take (pulled_count result) buf.new) (Some self.new.left) }
        ensures counted { self.new.faults ≡ faults_after_pull self.old.faults result }

        // It fails at the calls that it was told, and else gives as much as it may.
        ensures answer { result ≡ pull_of self.old (length buf.old) }
        ensures after { self.new ≡ source_after self.old (length buf.old) }
    {
        self.calls = self.calls.saturating_add(1);
        if self.fail_at.contains(&self.calls) {
            self.faults = self.faults.saturating_add(1);
            return Pulled::Failed;
        }
        let count = copy_front(&self.bytes[self.at..], self.piece, buf);
        if count == 0 {
            return Pulled::End;
        }
        self.at += count;
        Pulled::Bytes(count)
    }
}

/// Bytes in memory as a source that never fails.
#[derive(Debug, Drop)]
pub struct SureSource {
    bytes: Vec<u8>,
    at: usize,
}

impl Model for SureSource {
    ghost use Rattle.std.specs.Prelude.{◌≤◌, ℕ, List, drop, length};

    ghost Value = { List ℕ };

    ghost view = { λ s. drop s.at s.bytes.items };

    ghost invariant = { λ s. s.at ≤ length s.bytes.items };
}

impl SureSource {
    /// A source of all of the bytes.
    pub fn new(bytes: Vec<u8>) -> SureSource
        ensures { result ≡ bytes.items }
    {
        SureSource { bytes, at: 0 }
    }

    /// The bytes that are left.
    pub fn left(&self) -> &[u8]
        ensures { result.now ≡ self.now }
    {
        &self.bytes[self.at..]
    }
}

impl Source for SureSource {
    ghost left = { λ source. Some source };

    ghost faults = { λ _. 0 };

    fn read(&mut self, buf: &mut [u8]) -> Pulled
        requires { 0 < length buf.old }

        ensures pull { IsPull (length buf.old) (Some self.old) result }
        ensures bytes { Some self.old
            ≡ prepend_known (take (pulled_count result) buf.new) (Some self.new) }

        // It fills the buffer, or gives all that is left.
        ensures answer { result ≡ bytes_or_end (min (length buf.old) (length self.old)) }
        ensures after { self.new ≡ drop (length buf.old) self.old }
    {
        let room = buf.len();
        let count = copy_front(&self.bytes[self.at..], room, buf);
        if count == 0 {
            return Pulled::End;
        }
        self.at += count;
        Pulled::Bytes(count)
    }
}

// Copies as much as the least of `most` and the two lengths, and says how much.
fn copy_front(from: &[u8], most: usize, to: &mut [u8]) -> usize
    ensures count { result ≡ min most (min (length to.old) (length from.now)) }
    ensures copied { take result to.new ≡ take result from.now }
{
    let count = most.min(to.len().min(from.len()));
    to[..count].copy_from_slice(&from[..count]);
    count
}

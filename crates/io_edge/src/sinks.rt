ghost use Rattle.std.specs.Prelude.{◌≡◌, ◌+◌, ◌-◌, ◌<◌, ◌≤◌, ◌++◌, None, Some, length, take, vec_capacity, vec_len};
ghost use Rattle.std.specs.Io.KnownBytes.{append_known};
ghost use Rattle.io_edge.specs.Ends.{IsPush, faults_after_push, pushed_count};
ghost use Rattle.io_edge.specs.Sinks.{push_of, sink_after};

use crate::ends::{Pushed, Sink};
use std::marker::Model;

/// A sink into memory that takes bytes in pieces, and that fails where it is told to.
#[derive(Debug, Drop)]
pub struct MemSink {
    bytes: Vec<u8>,
    piece: usize,
    fail_at: Vec<u64>,
    calls: u64,
    faults: u64,
}

impl Model for MemSink {
    ghost use Rattle.std.specs.Prelude.{◌-◌, ◌≤◌, vec_capacity, vec_len};
    ghost use Rattle.io_edge.specs.Sinks.{SinkView};

    ghost Value = { SinkView };

    ghost view = { λ s. record {
      bytes = s.bytes.items;
      room = vec_capacity s.bytes - vec_len s.bytes;
      piece = s.piece;
      fail_at = s.fail_at.items;
      calls = s.calls;
      faults = s.faults;
    } };

    ghost invariant = { λ s. 1 ≤ s.piece };
}

impl MemSink {
    /// A sink that fills the vector up to its capacity, takes at most `piece` bytes in one call and
    /// fails at the calls whose numbers, from 1, stand in `fail_at`. Failed calls are counted too.
    pub fn new(bytes: Vec<u8>, piece: usize, fail_at: Vec<u64>) -> MemSink
        requires { 1 ≤ piece }
        ensures { result ≡ record {
          bytes = bytes.items;
          room = vec_capacity bytes - vec_len bytes;
          piece = piece;
          fail_at = fail_at.items;
          calls = 0;
          faults = 0;
        } }
    {
        MemSink {
            bytes,
            piece,
            fail_at,
            calls: 0,
            faults: 0,
        }
    }

    /// The bytes that it holds.
    pub fn bytes(&self) -> &[u8]
        ensures { result.now ≡ self.now.bytes }
    {
        self.bytes.as_slice()
    }

    /// How many writes there were.
    pub fn calls(&self) -> u64
        ensures { result ≡ self.now.calls }
    {
        self.calls
    }

    /// How many writes have failed.
    pub fn faults(&self) -> u64
        ensures { result ≡ self.now.faults }
    {
        self.faults
    }
}

impl Sink for MemSink {
    ghost written = { λ sink. Some sink.bytes };

    ghost faults = { λ sink. sink.faults };

    fn write(&mut self, piece: &[u8]) -> Pushed
        requires { 0 < length piece.now }

        ensures push { IsPush (length piece.now) result }
        ensures bytes { Some self.new.bytes
            ≡ append_known (Some self.old.bytes) (take (pushed_count result) piece.now) }
        ensures counted { self.new.faults ≡ faults_after_push self.old.faults result }

        // It fails at the calls that it was told and where it is full, else takes what it may.
        ensures answer { result ≡ push_of self.old (length piece.now) }
        ensures after { self.new ≡ sink_after self.old piece.now }
    {
        self.calls = self.calls.saturating_add(1);
        let room = self.bytes.capacity() - self.bytes.len();
        if self.fail_at.contains(&self.calls) || room == 0 {
            self.faults = self.faults.saturating_add(1);
            return Pushed::Failed;
        }
        let count = self.piece.min(piece.len().min(room));
        append(&mut self.bytes, &piece[..count]);
        Pushed::Bytes(count)
    }
}

/// A sink that drops what it gets.
#[derive(Clone, Copy, Debug)]
pub struct NullSink;

impl Sink for NullSink {
    ghost written = { λ _. None };

    ghost faults = { λ _. 0 };

    fn write(&mut self, piece: &[u8]) -> Pushed
        requires { 0 < length piece.now }
        ensures push { IsPush (length piece.now) result }
        ensures answer { result ≡ Pushed.Bytes (length piece.now) }
    {
        Pushed::Bytes(piece.len())
    }
}

// Appends within the capacity, which stays.
fn append(bytes: &mut Vec<u8>, piece: &[u8])
    requires { vec_len bytes.old + length piece.now ≤ vec_capacity bytes.old }
    ensures items { bytes.new.items ≡ bytes.old.items ++ piece.now }
    ensures capacity { vec_capacity bytes.new ≡ vec_capacity bytes.old }
{
    for byte in piece {
        bytes.push_reserved(*byte);
    }
}

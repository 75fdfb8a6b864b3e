ghost use Rattle.std.specs.Prelude.{◌≡◌, ◌<◌, None, length, take};
ghost use Rattle.std.specs.Io.KnownBytes.{Appends, Consumes};
ghost use Rattle.io_edge.specs.Ends.{IsPull, IsPush, faults_after_pull, faults_after_push, pulled_count, pushed_count};

use crate::ends::{Pulled, Pushed, Sink, Source};
use std::io::{Read, Write};
use std::marker::Model;

/// Standard input as a source. It tells nothing of the bytes.
#[derive(Drop)]
pub struct StdinSource<R> {
    stream: R,
    faults: u64,
}

impl<R> Model for StdinSource<R> {
    ghost use Rattle.io_edge.specs.Streams.{StreamView};

    ghost Value = { StreamView R };

    ghost view = { λ source. record { stream = source.stream; faults = source.faults } };
}

impl<R> StdinSource<R> {
    /// A source over a stream, with no fault so far.
    pub fn new(stream: R) -> StdinSource<R>
        ensures { result ≡ record { stream = stream; faults = 0 } }
    {
        StdinSource { stream, faults: 0 }
    }
}

impl<R: Read> Source for StdinSource<R> {
    ghost left = { λ _. None };

    ghost faults = { λ source. source.faults };

    fn read(&mut self, buf: &mut [u8]) -> Pulled
        requires { 0 < length buf.old }

        // It passes on what the stream gives, where the stream tells that.
        ensures pull { IsPull (length buf.old) (R.remaining self.old.stream) result }
        ensures given { Consumes (R.remaining self.old.stream) (R.remaining self.new.stream)
            (take (pulled_count result) buf.new) }

        // A failed call is counted once, and nothing else is.
        ensures counted { self.new.faults ≡ faults_after_pull self.old.faults result }
    {
        match self.stream.read(buf) {
            Ok(0) => Pulled::End,
            Ok(count) => Pulled::Bytes(count),
            Err(_) => {
                self.faults = self.faults.saturating_add(1);
                Pulled::Failed
            }
        }
    }
}

/// Standard output as a sink, over a stream that holds no bytes back. It tells nothing of the
/// bytes.
#[derive(Drop)]
pub struct StdoutSink<W> {
    stream: W,
    faults: u64,
}

impl<W> Model for StdoutSink<W> {
    ghost use Rattle.io_edge.specs.Streams.{StreamView};

    ghost Value = { StreamView W };

    ghost view = { λ sink. record { stream = sink.stream; faults = sink.faults } };
}

impl<W> StdoutSink<W> {
    /// A sink over a stream, with no fault so far.
    pub fn new(stream: W) -> StdoutSink<W>
        ensures { result ≡ record { stream = stream; faults = 0 } }
    {
        StdoutSink { stream, faults: 0 }
    }
}

impl<W: Write> Sink for StdoutSink<W> {
    ghost written = { λ _. None };

    ghost faults = { λ sink. sink.faults };

    fn write(&mut self, piece: &[u8]) -> Pushed
        requires { 0 < length piece.now }

        // The stream took what it says, where the stream tells that.
        ensures push { IsPush (length piece.now) result }
        ensures taken { Appends (W.contents self.old.stream) (W.contents self.new.stream)
            (take (pushed_count result) piece.now) }

        // A failed call is counted once, and nothing else is.
        ensures counted { self.new.faults ≡ faults_after_push self.old.faults result }
    {
        match self.stream.write(piece) {
            Ok(count) if count > 0 => Pushed::Bytes(count),
            // A stream that takes nothing would keep its caller going for ever.
            _ => {
                self.faults = self.faults.saturating_add(1);
                Pushed::Failed
            }
        }
    }
}

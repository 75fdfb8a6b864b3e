ghost use Rattle.std.specs.Prelude.{◌≡◌, ℕ, ◌<◌, List, length, take};
ghost use Rattle.std.specs.declared.option.Option.{Option};
ghost use Rattle.std.specs.Io.KnownBytes.{append_known, prepend_known};
ghost use Rattle.io_edge.specs.Ends.{IsPull, IsPush, faults_after_pull, faults_after_push, pulled_count, pushed_count};

/// What one read gave.
#[derive(Clone, Copy, PartialEq, Eq, Debug)]
pub enum Pulled {
    /// So many bytes, at least one, at the front of the buffer.
    Bytes(usize),
    /// Nothing, since nothing is left.
    End,
    /// Nothing, since the read failed.
    Failed,
}

/// What one write did.
#[derive(Clone, Copy, PartialEq, Eq, Debug)]
pub enum Pushed {
    /// It took so many bytes, at least one, from the front of the piece.
    Bytes(usize),
    /// It took nothing, since the write failed.
    Failed,
}

/// Where bytes come from. A source counts its faults, and it may tell which bytes it has left.
pub trait Source {
    // The bytes that reads will give from here on, where the source tells them.
    ghost left: { Self → Option (List ℕ) };

    // How many reads have failed, up to the last number of 64 bits.
    ghost faults: { Self → ℕ };

    /// Reads into the front of the buffer.
    fn read(&mut self, buf: &mut [u8]) -> Pulled
        requires { 0 < length buf.old }

        // It says what it gave, and those bytes are the next of what was left.
        ensures pull { IsPull (length buf.old) (left self.old) result }
        ensures bytes { left self.old
            ≡ prepend_known (take (pulled_count result) buf.new) (left self.new) }

        // A failed read is counted once, and nothing else is.
        ensures counted { faults self.new ≡ faults_after_pull (faults self.old) result };
}

/// Where bytes go. A sink counts its faults, and it may tell which bytes were written.
pub trait Sink {
    // The bytes that were written, where the sink tells them.
    ghost written: { Self → Option (List ℕ) };

    // How many writes have failed, up to the last number of 64 bits.
    ghost faults: { Self → ℕ };

    /// Writes the front of the piece.
    fn write(&mut self, piece: &[u8]) -> Pushed
        requires { 0 < length piece.now }

        // It says what it took, and those bytes come after what was written.
        ensures push { IsPush (length piece.now) result }
        ensures bytes { written self.new
            ≡ append_known (written self.old) (take (pushed_count result) piece.now) }

        // A failed write is counted once, and nothing else is.
        ensures counted { faults self.new ≡ faults_after_push (faults self.old) result };
}

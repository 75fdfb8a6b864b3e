ghost use Rattle.std.specs.Prelude.{◌≡◌, ◌+◌, ◌^◌, ◌<◌, ◌≤◌, length, IfOk, OnOk, OnErr, IsErr};
ghost use Rattle.std.specs.Result.{IsErrOf};
ghost use Rattle.std.specs.Io.KnownBytes.{IsAtEnd, append_known, prepend_known};
ghost use Rattle.io_edge.specs.Counts.{IsCounted};
ghost use Rattle.io_edge.specs.Taken.{Takes, TakesAtMost};
ghost use Rattle.io_edge.specs.Written.{WrotePart};

use crate::ends::{Pulled, Pushed, Sink, Source};
use std::alloc::Global;
use thiserror::Error;

/// Why bytes weren't read to their end.
#[derive(Clone, Copy, PartialEq, Eq, Debug, Error)]
pub enum ReadErr {
    #[error("a read failed")]
    Fault,
    #[error("there are more bytes than the limit allows")]
    TooLong,
    #[error("out of memory")]
    Memory,
}

/// Why bytes weren't all written.
#[derive(Clone, Copy, PartialEq, Eq, Debug, Error)]
pub enum WriteErr {
    #[error("a write failed")]
    Fault,
}

// How many bytes one read asks for.
const PIECE: usize = 4096;

/// Reads all bytes of a source, of which there may be `limit`.
pub fn read_all<S: Source>(alloc: Global, src: &mut S, limit: usize) -> Result<Vec<u8>, ReadErr>
    requires { limit < 2 ^ 32 }

    // The bytes are all that was left, up to the end.
    ensures ok { IfOk result (λ bytes.
        S.left src.old ≡ prepend_known bytes.items (S.left src.new)) }
    ensures end { OnOk result (IsAtEnd (S.left src.new)) }
    ensures within { IfOk result (λ bytes. length bytes.items ≤ limit) }

    // Too long is the answer exactly where more than `limit` bytes came: `limit + 1` were taken.
    ensures too_long { IsErrOf result ReadErr.TooLong
        → Takes (limit + 1) (S.left src.old) (S.left src.new) }
    ensures others { ¬ IsErrOf result ReadErr.TooLong
        → TakesAtMost limit (S.left src.old) (S.left src.new) }

    // A fault is the answer exactly where a read failed, which is counted once.
    ensures faults { IsCounted (IsErrOf result ReadErr.Fault)
        (S.faults src.old) (S.faults src.new) }
{
    let mut all = Vec::new(alloc);
    let mut buf = [0u8; PIECE];
    'reads: loop {
        let room = PIECE.min(limit + 1 - all.len());
        match src.read(&mut buf[..room]) {
            Pulled::Bytes(count) => {
                if all.len() + count > limit {
                    return Err(ReadErr::TooLong);
                }
                all.extend_from_slice(&buf[..count])
                    .map_err(|_| ReadErr::Memory)?;
            }
            Pulled::End => return Ok(all),
            Pulled::Failed => return Err(ReadErr::Fault),
        }
    }
}

/// Writes all of the bytes, and takes no memory.
pub fn write_all<K: Sink>(sink: &mut K, bytes: &[u8]) -> Result<(), WriteErr>
    ensures ok { OnOk result (K.written sink.new ≡ append_known (K.written sink.old) bytes.now) }
    ensures err { OnErr result (WrotePart (K.written sink.old) (K.written sink.new) bytes.now) }

    // It fails exactly where a write failed, which is counted once.
    ensures faults { IsCounted (IsErr result) (K.faults sink.old) (K.faults sink.new) }
{
    let mut rest = bytes;
    'writes: while !rest.is_empty() {
        match sink.write(rest) {
            Pushed::Bytes(count) => rest = &rest[count..],
            Pushed::Failed => return Err(WriteErr::Fault),
        }
    }
    Ok(())
}

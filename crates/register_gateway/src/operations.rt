ghost use Rattle.std.specs.Prelude.{◌≡◌};
ghost use Rattle.flat_model.specs.Registers as spec;

use flat_model::{BoxId, Op};

/// Whether the bit of this box is set in a set of boxes. There are eight bits.
pub(crate) fn has_box(boxes: u8, b: BoxId) -> bool
    ensures { result ≡ spec.has_box boxes b.0 }
{
    b.0 < 8 && (boxes >> b.0) & 1 == 1
}

/// What an operation reads of a word, where it is one that reads.
pub(crate) fn value_read(op: Op, word: u32, mask: u32) -> Option<u32>
    ensures { result ≡ spec.gateway_read op word mask }
{
    match op {
        Op::Read => Some(word),
        Op::ReadAnd => Some(word & mask),
        Op::Write | Op::And | Op::Or | Op::Xor | Op::Replace => None,
    }
}

/// What an operation makes of a word and a value, where it is one that writes.
pub(crate) fn value_written(op: Op, word: u32, mask: u32, value: u32) -> Option<u32>
    ensures { result ≡ spec.gateway_written op word mask value }
{
    match op {
        Op::Read | Op::ReadAnd => None,
        Op::Write => Some(value),
        Op::And => Some(word & (value | !mask)),
        Op::Or => Some(word | (value & mask)),
        Op::Xor => Some(word ^ (value & mask)),
        Op::Replace => Some((word & !mask) | (value & mask)),
    }
}

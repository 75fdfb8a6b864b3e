// Interrupt lines as the bits of a word.
ghost use Rattle.std.specs.Prelude.{◌≡◌, true, false, ◌<◌, MatchOption, slice_set};
ghost use Rattle.irq_owner.specs.Bits as spec;

/// Whether the bit is set.
pub(crate) fn has_bit(word: u64, bit: u32) -> bool
    requires { bit < 64 }
    ensures { result ≡ spec.has_bit word bit }
{
    (word >> bit) & 1 == 1
}

/// The word with the bit set.
pub(crate) fn with_bit(word: u64, bit: u32) -> u64
    requires { bit < 64 }
    ensures { spec.flags result ≡ slice_set (spec.flags word) bit true }
{
    word | 1 << bit
}

/// The word with the bit cleared.
pub(crate) fn without_bit(word: u64, bit: u32) -> u64
    requires { bit < 64 }
    ensures { spec.flags result ≡ slice_set (spec.flags word) bit false }
{
    word & !(1 << bit)
}

/// The lowest bit that is set, if one is.
pub(crate) fn lowest(word: u64) -> Option<u8>
    ensures { MatchOption result (word ≡ 0) (spec.IsLowest word) }
{
    if word == 0 {
        None
    } else {
        Some(word.trailing_zeros() as u8)
    }
}

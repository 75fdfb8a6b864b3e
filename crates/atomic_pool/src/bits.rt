// One bit of a word.
ghost use Rattle.std.specs.Prelude.{◌≡◌, ◌≢◌, ℕ, ◌<◌, ◌↔◌, IsTrue};
ghost use Rattle.std.specs.Int.{bit_at};
ghost use Rattle.atomic_pool.specs.Bits.{mask, IsLowest};

// The word in which this bit alone is set.
pub(crate) fn mask(bit: u32) -> u64
    requires { bit < 64 }
    ensures { result ≡ mask bit }
{
    1 << bit
}

// Whether the bit is set.
pub(crate) fn has_bit(word: u64, bit: u32) -> bool
    requires { bit < 64 }
    ensures { IsTrue result ↔ (bit_at word bit ≡ 1) }
{
    (word >> bit) & 1 == 1
}

// The lowest bit that is set.
pub(crate) fn lowest(word: u64) -> u32
    requires { word ≢ 0 }
    ensures within { result < 64 }
    ensures lowest { IsLowest word result }
{
    word.trailing_zeros()
}

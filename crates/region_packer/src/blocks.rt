ghost use Rattle.std.specs.Prelude.{◌≡◌, ◌+◌, ◌*◌, ◌%◌, ◌^◌, ◌<◌, ◌≤◌};
ghost use Rattle.flat_model.specs.Cover.{block_pair, exponent};

use flat_model::Pair;

/// The exponent of the largest block that begins at `at` and ends by `end`: no greater power divides
/// `at`, and no greater one fits.
pub fn exponent_at(at: u32, end: u32) -> u32
    requires at { at % 32 ≡ 0 }
    requires end { end % 32 ≡ 0 }
    requires before { at < end }
    ensures exact { result ≡ exponent at end }
    ensures least { 5 ≤ result }
    ensures most { result < 32 }
    ensures ends { at + 2 ^ result ≤ end }
{
    let highest = 31 - (end - at).leading_zeros();
    at.trailing_zeros().min(highest)
}

/// The number of bytes of a block below 2^32.
pub fn bytes_of(exponent: u32) -> u32
    requires { exponent < 32 }
    ensures { result ≡ 2 ^ exponent }
{
    1 << exponent
}

/// The region of a block, with SIZE added to the other bits of the attributes.
pub fn region_at(at: u32, exponent: u32, bits: u32) -> Pair
    requires least { 1 ≤ exponent }
    requires most { exponent < 32 }
    requires room { bits < 2 ^ 31 }
    ensures { result ≡ block_pair bits (record { base = at; exponent = exponent }) }
{
    Pair {
        rbar: at,
        rasr: bits + 2 * (exponent - 1),
    }
}

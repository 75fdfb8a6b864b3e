// One region's registers (Arm DDI 0403, B3.5.8 and B3.5.9). RBAR is the base. RASR has these fields:
//
//   28       XN      no fetch
//   26..24   AP      what unprivileged code may do
//   15..8    SRD     which subregions are disabled
//   5..1     SIZE    the region has 2^(SIZE + 1) bytes
//   0        ENABLE
//
// All other bits are 0.
ghost use Rattle.std.specs.Prelude.{◌≡◌, true, ◌+◌, ◌^◌, ◌<◌};
ghost use Rattle.flat_model.specs.Decision.{access_field, has_zero_rest, is_disabled, is_enabled, is_region, lets_read, matches, pair_gives, region_contains, region_len, size_field, subregions};

use flat_model::{Kind, Pair};

/// SIZE of the least region that has subregions, of 256 bytes.
const SUBREGION_SIZE: u32 = 7;

fn power(exponent: u32) -> u64
    requires { exponent < 64 }
    ensures { result ≡ 2 ^ exponent }
{
    1 << exponent
}

fn size_of(pair: Pair) -> u32
    ensures { result ≡ size_field pair }
{
    (pair.rasr >> 1) % 32
}

fn subregions_of(pair: Pair) -> u32
    ensures { result ≡ subregions pair }
{
    (pair.rasr >> 8) % 256
}

fn access_of(pair: Pair) -> u32
    ensures { result ≡ access_field pair }
{
    (pair.rasr >> 24) % 8
}

fn is_on(pair: Pair) -> bool
    ensures { result ≡ is_enabled pair }
{
    pair.rasr % 2 == 1
}

fn len_of(pair: Pair) -> u64
    ensures { result ≡ region_len pair }
{
    power(size_of(pair) + 1)
}

fn contains(pair: Pair, a: u32) -> bool
    ensures { result ≡ region_contains pair a }
{
    // Below the base the difference wraps to more than any length.
    let offset = u64::from(a).wrapping_sub(u64::from(pair.rbar));
    offset < len_of(pair)
}

fn has_rest_zero(pair: Pair) -> bool
    ensures { result ≡ has_zero_rest pair }
{
    (pair.rasr >> 6) % 4 == 0
        && (pair.rasr >> 16) % 256 == 0
        && (pair.rasr >> 27) % 2 == 0
        && pair.rasr >> 29 == 0
}

fn may_be_read(pair: Pair) -> bool
    ensures { result ≡ lets_read pair }
{
    matches!(access_of(pair), 2 | 3 | 6 | 7)
}

fn subregion_is_off(pair: Pair, a: u32) -> bool
    requires { region_contains pair a ≡ true }
    ensures { result ≡ is_disabled pair a }
{
    let size = size_of(pair);
    if size < SUBREGION_SIZE {
        return false;
    }
    let subregion = (a - pair.rbar) >> (size - 2);
    (subregions_of(pair) >> subregion) % 2 == 1
}

/// Whether the pair is a valid enabled region.
pub fn is_valid(pair: Pair) -> bool
    ensures { result ≡ is_region pair }
{
    is_on(pair)
        && 4 <= size_of(pair)
        && u64::from(pair.rbar) % len_of(pair) == 0
        && access_of(pair) != 4
        && (SUBREGION_SIZE <= size_of(pair) || subregions_of(pair) == 0)
        && has_rest_zero(pair)
}

/// Whether the region is enabled and has the address in a subregion that isn't disabled.
pub fn matches_address(pair: Pair, a: u32) -> bool
    ensures { result ≡ matches pair a }
{
    is_on(pair) && contains(pair, a) && !subregion_is_off(pair, a)
}

/// Whether the region gives unprivileged code this kind of access.
pub fn gives_kind(pair: Pair, kind: Kind) -> bool
    ensures { result ≡ pair_gives pair kind }
{
    match kind {
        Kind::Read => may_be_read(pair),
        Kind::Write => access_of(pair) == 3,
        Kind::Fetch => may_be_read(pair) && (pair.rasr >> 28) % 2 == 0,
    }
}

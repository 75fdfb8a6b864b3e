ghost use Rattle.std.specs.Prelude.{◌≡◌, ◌⊎◌, ◌+◌, ◌^◌, ◌<◌, ◌≤◌, ◌↔◌, IsTrue, IsNone, IfSome};
ghost use Rattle.addr_base.specs.Powers.{IsGreatestPower, IsLeastPower, IsPowerOfTwo, is_power, round_down, round_up};

/// The addresses from `base` on, `len` of them. A range of a box has at least one address and ends
/// at or below 0xE0000000.
#[derive(Clone, Copy, PartialEq, Eq, Debug)]
pub struct Range {
    pub base: u32,
    pub len: u32,
}

// Where the Private Peripheral Bus begins (Arm DDI 0403, B3.1): no box holds an address from here on.
const BUS_BASE: u64 = 0xE000_0000;

// The least region of the protection unit (Arm DDI 0403, B3.5.9).
const LEAST: u32 = 32;

impl Range {
    ghost use Rattle.addr_base.specs.Range.{ADDRESS_END, HoldsBytes, IsIn, Overlaps, end_of, holds_bytes, in_range, overlap};

    /// The range, where it has an address and ends at or below 0xE0000000.
    pub fn new(base: u32, len: u32) -> Option<Range>
        ensures none { IsNone result ↔ ((len ≡ 0) ⊎ (ADDRESS_END < base + len)) }
        ensures value { IfSome result (λ range. (range.base ≡ base) × (range.len ≡ len)) }
    {
        if len == 0 || base as u64 + len as u64 > BUS_BASE {
            None
        } else {
            Some(Range { base, len })
        }
    }

    /// The first address past the range.
    pub fn end(&self) -> u64
        ensures { result ≡ end_of self.now }
    {
        self.base as u64 + self.len as u64
    }

    /// Whether the address is in the range.
    pub fn contains(&self, a: u32) -> bool
        ensures exact { IsTrue result ↔ IsIn self.now a }
        ensures test { result ≡ in_range self.now a }
    {
        self.base <= a && (a as u64) < self.end()
    }

    /// Whether all `n` bytes from `a` are in the range.
    pub fn holds(&self, a: u32, n: u32) -> bool
        requires { 1 ≤ n }
        ensures exact { IsTrue result ↔ HoldsBytes self.now a n }
        ensures test { result ≡ holds_bytes self.now a n }
    {
        self.base <= a && a as u64 + n as u64 <= self.end()
    }

    /// Whether some address is in both ranges.
    pub fn overlaps(&self, other: &Range) -> bool
        ensures exact { IsTrue result ↔ Overlaps self.now other.now }
        ensures test { result ≡ overlap self.now other.now }
    {
        let first = self.base.max(other.base);
        (first as u64) < self.end().min(other.end())
    }
}

// Two to the power of `k`.
fn power_of(k: u32) -> u32
    requires { k < 32 }
    ensures { result ≡ 2 ^ k }
{
    1 << k
}

/// Whether the number is a power of two.
pub fn is_power(n: u32) -> bool
    ensures exact { IsTrue result ↔ IsPowerOfTwo n }
    ensures test { result ≡ is_power n }
{
    n > 0 && power_of(n.ilog2()) == n
}

/// The least power of two that is at or above the length and is at least 32.
pub fn round_up(len: u32) -> Option<u32>
    ensures none { IsNone result ↔ (2 ^ 31 < len) }
    ensures value { IfSome result (IsLeastPower 32 len) }
    ensures exact { result ≡ round_up len }
{
    let least = len.max(LEAST);
    if least > 1 << 31 {
        None
    } else {
        Some(least.next_power_of_two())
    }
}

/// The greatest power of two that is not above the length.
pub fn round_down(len: u32) -> Option<u32>
    ensures none { IsNone result ↔ (len < 32) }
    ensures value { IfSome result (IsGreatestPower len) }
    ensures exact { result ≡ round_down len }
{
    if len < LEAST {
        None
    } else {
        Some(power_of(len.ilog2()))
    }
}

ghost use Rattle.std.specs.Prelude.{◌≡◌, ◌≤◌, min};
ghost use Rattle.std.specs.Option.{option_map};
ghost use Rattle.box_program.specs.Numbers.{value_of, leads_well, decimal_value, hexadecimal_value, number};

/// The least number that no word of 32 bits has: a larger number is read as this one.
pub const LARGE: u64 = 1 << 32;

// The number that the digits write, where each byte is a digit in the radix.
#[tactic(auto, unfolding(crate::specs::Numbers::value_of))]
fn value_of(radix: u32, digits: &[u8]) -> Option<u64>
    requires lower_bound { 2 ≤ radix }
    requires upper_bound { radix ≤ 16 }
    ensures { result ≡ option_map (λ n. min n LARGE) (value_of radix digits.now) }
{
    let mut value: u64 = 0;
    for c in digits {
        let digit = char::from(*c).to_digit(radix)?;
        value = (value * u64::from(radix) + u64::from(digit)).min(LARGE);
    }
    Some(value)
}

// The number that decimal digits without leading zeros write.
#[tactic(auto, unfolding(crate::specs::Numbers::decimal_value, crate::specs::Numbers::leads_well))]
fn decimal_value(digits: &[u8]) -> Option<u64>
    ensures { result ≡ option_map (λ n. min n LARGE) (decimal_value digits.now) }
{
    if digits.len() == 1 || (digits.len() > 1 && digits[0] != b'0') {
        value_of(10, digits)
    } else {
        None
    }
}

// The number that one to eight hexadecimal digits write.
#[tactic(auto, unfolding(crate::specs::Numbers::hexadecimal_value))]
fn hexadecimal_value(digits: &[u8]) -> Option<u64>
    ensures { result ≡ option_map (λ n. min n LARGE) (hexadecimal_value digits.now) }
{
    if digits.len() >= 1 && digits.len() <= 8 {
        value_of(16, digits)
    } else {
        None
    }
}

/// The number that a word writes, read as `LARGE` where it is larger.
#[tactic(auto, unfolding(crate::specs::Numbers::number))]
pub fn number(word: &[u8]) -> Option<u64>
    ensures { result ≡ option_map (λ n. min n LARGE) (number word.now) }
{
    match word.strip_prefix(b"0x") {
        Some(digits) => hexadecimal_value(digits),
        None => decimal_value(word),
    }
}

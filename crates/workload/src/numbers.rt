ghost use Rattle.std.specs.Prelude.{◌≡◌, ◌≢◌, ◌<◌, false, length, slice_index, IsTrue};
ghost use Rattle.workload.specs.InputNumber.{input_number};

// Whether the word is empty, or a plus or a zero stands first.
fn begins_otherwise(word: &[u8]) -> bool
    ensures empty { IsTrue result → length word.now ≢ 0
        → slice_index word.now 0 ≢ 43 → slice_index word.now 0 ≡ 48 }
    ensures other { result ≡ false → (0 < length word.now)
        × (slice_index word.now 0 ≢ 43) × (slice_index word.now 0 ≢ 48) }
{
    word.is_empty() || word[0] == b'+' || word[0] == b'0'
}

/// The number from 1 to 65535 that a word of a command line writes in decimal, with no sign and no
/// leading zero.
pub fn input_number(word: &str) -> Option<u32>
    ensures { result ≡ input_number word.now }
{
    // The reader of std takes a plus and leading zeros.
    if begins_otherwise(word.as_bytes()) {
        return None;
    }
    match word.parse::<u16>() {
        Ok(n) => Some(u32::from(n)),
        Err(_) => None,
    }
}

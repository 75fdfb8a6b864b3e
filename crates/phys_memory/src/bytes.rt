ghost use Rattle.std.specs.Prelude.{◌≡◌, ◌+◌, ◌<◌, ◌≤◌};
ghost use Rattle.phys_memory.specs.Packed as spec;

/// A word without its `j` lowest bytes.
pub(crate) fn shifted(word: u32, j: u32) -> u32
    requires { j < 4 }
    ensures { result ≡ spec.shifted word j }
{
    match j {
        0 => word,
        1 => word / 256,
        2 => word / 65536,
        _ => word / 16777216,
    }
}

/// The `n` lowest bytes of a word.
pub(crate) fn low(word: u32, n: u32) -> u32
    requires { n ≤ 4 }
    ensures { result ≡ spec.low word n }
{
    match n {
        0 => 0,
        1 => word % 256,
        2 => word % 65536,
        3 => word % 16777216,
        _ => word,
    }
}

// A word with `j` zero bytes below it.
fn raised(word: u32, j: u32) -> u64
    requires { j < 4 }
    ensures { result ≡ spec.raised word j }
{
    match j {
        0 => word as u64,
        1 => 256 * word as u64,
        2 => 65536 * word as u64,
        _ => 16777216 * word as u64,
    }
}

/// A word whose `n` bytes from byte `j` on are the lowest of a value.
pub(crate) fn mixed(word: u32, j: u32, n: u32, value: u32) -> u32
    requires first { j < 4 }
    requires last { j + n ≤ 4 }
    ensures { result ≡ spec.mixed word j n value }
{
    let old = raised(low(shifted(word, j), n), j);
    let new = raised(low(value, n), j);
    (word as u64 - old + new) as u32
}

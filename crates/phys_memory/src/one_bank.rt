ghost use Rattle.std.specs.Prelude.{◌≡◌, ◌+◌, ◌^◌, ◌<◌};
ghost use Rattle.addr_base.specs.Range as range_words;
ghost use Rattle.phys_memory.specs.OneBank as spec;

use flat_model::{Board, Range};

// Whether each of the `n` bytes from an address is in the range.
fn holds(range: &Range, a: u64, n: u64) -> bool
    requires { a + n < 2 ^ 64 }
    ensures { result ≡ range_words.holds_bytes range.now a n }
{
    range.base as u64 <= a && a + n <= range.end()
}

// Whether none of them is.
fn is_apart(range: &Range, a: u64, n: u64) -> bool
    requires { a + n < 2 ^ 64 }
    ensures { result ≡ spec.is_apart range.now a n }
{
    a + n <= range.base as u64 || range.end() <= a
}

/// Whether flash holds each of the `n` bytes from an address.
pub(crate) fn in_flash(board: &Board, a: u64, n: u64) -> bool
    requires { a + n < 2 ^ 64 }
    ensures { result ≡ spec.in_flash board.now a n }
{
    holds(&board.flash, a, n)
}

/// Whether SRAM does, and flash holds none.
pub(crate) fn in_sram(board: &Board, a: u64, n: u64) -> bool
    requires { a + n < 2 ^ 64 }
    ensures { result ≡ spec.in_sram board.now a n }
{
    is_apart(&board.flash, a, n) && holds(&board.sram, a, n)
}

/// Whether the peripherals do, and no other bank holds one.
pub(crate) fn in_peripherals(board: &Board, a: u64, n: u64) -> bool
    requires { a + n < 2 ^ 64 }
    ensures { result ≡ spec.in_peripherals board.now a n }
{
    is_apart(&board.flash, a, n) && is_apart(&board.sram, a, n) && holds(&board.peripherals, a, n)
}

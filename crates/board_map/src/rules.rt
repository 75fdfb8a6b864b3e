ghost use Rattle.std.specs.Prelude.{◌≡◌, ◌<◌, ◌==◌};
ghost use Rattle.std.specs.List.{list_all, list_any};
ghost use Rattle.flat_model.specs.BoardRules.{are_apart, are_peripherals, are_words, board_fault, ends_in_reach, is_bank, is_block, is_flash, is_heap, is_placed, is_power_between, is_secret, is_sram};

use addr_base::is_power;
use flat_model::{Board, HeapPart, Key, Range, Word};

// Whether the number is a power of two from `low` to `high`.
fn is_power_between(n: u32, low: u32, high: u32) -> bool
    ensures { result ≡ is_power_between low high n }
{
    low <= n && n <= high && is_power(n)
}

// Whether the base is a multiple of the length, which is a power of two.
fn is_block(range: &Range, low: u32, high: u32) -> bool
    requires { 0 < low }
    ensures { result ≡ is_block low high range.now }
{
    is_power_between(range.len, low, high) && range.base % range.len == 0
}

// Whether the range ends where the private peripherals begin, or before.
fn ends_in_reach(range: &Range) -> bool
    ensures { result ≡ ends_in_reach range.now }
{
    range.end() <= 0xE000_0000
}

// Whether the range can be flash.
fn is_flash(flash: &Range) -> bool
    ensures { result ≡ is_flash flash.now }
{
    is_block(flash, 32, 1048576) && ends_in_reach(flash)
}

// Whether base and length are multiples of 32, and the length is from 32 to 1 MiB.
fn is_bank(bank: &Range) -> bool
    ensures { result ≡ is_bank bank.now }
{
    let is_tiled = bank.base % 32 == 0 && bank.len % 32 == 0;
    is_tiled && 32 <= bank.len && bank.len <= 1048576 && ends_in_reach(bank)
}

// Whether the range can be SRAM beside this flash.
fn is_sram(flash: &Range, sram: &Range) -> bool
    ensures { result ≡ is_sram flash.now sram.now }
{
    is_bank(sram) && !sram.overlaps(flash)
}

// Whether the range can be that of the peripherals beside flash and SRAM.
fn are_peripherals(flash: &Range, sram: &Range, bank: &Range) -> bool
    ensures { result ≡ are_peripherals flash.now sram.now bank.now }
{
    is_bank(bank) && !bank.overlaps(flash) && !bank.overlaps(sram)
}

// Whether the secret range, if there is one, can be a part of this flash.
fn is_secret(flash: &Range, secret: Option<Range>) -> bool
    ensures { result ≡ is_secret flash.now secret }
{
    match secret {
        Some(range) => is_block(&range, 32, 4294967295) && flash.holds(range.base, range.len),
        None => true,
    }
}

// Whether a word has its four bytes in one of the two banks.
fn is_placed(flash: &Range, bank: &Range, word: Word) -> bool
    ensures { result ≡ is_placed flash.now bank.now word }
{
    word.at % 4 == 0 && (flash.holds(word.at, 4) || bank.holds(word.at, 4))
}

// Whether one of the words has this address.
fn is_taken(at: u32, words: &[Word]) -> bool
    ensures { result ≡ list_any (λ other. other.at == at) words.now }
{
    words.iter().any(|other| other.at == at)
}

// Whether each word has its place.
fn all_placed(flash: &Range, bank: &Range, words: &[Word]) -> bool
    ensures { result ≡ list_all (is_placed flash.now bank.now) words.now }
{
    words.iter().all(|word| is_placed(flash, bank, *word))
}

// Whether no address comes twice.
fn are_apart(words: &[Word]) -> bool
    ensures { result ≡ are_apart words.now }
{
    for (i, word) in words.iter().enumerate() {
        if is_taken(word.at, &words[i + 1..]) {
            return false;
        }
    }
    true
}

// Whether the initial words each have their place, and no two the same.
fn are_words(flash: &Range, bank: &Range, words: &[Word]) -> bool
    ensures { result ≡ are_words flash.now bank.now words.now }
{
    all_placed(flash, bank, words) && are_apart(words)
}

// Whether the heap, if there is one, can be a part of this SRAM.
fn is_heap(sram: &Range, heap: Option<HeapPart>) -> bool
    ensures { result ≡ is_heap sram.now heap }
{
    match heap {
        Some(heap) => {
            is_power_between(heap.page, 32, 65536)
                && 8 <= heap.count
                && heap.count <= 256
                && heap.count % 8 == 0
                && heap.base % (8 * heap.page) == 0
                && sram.holds(heap.base, heap.page * heap.count)
        }
        None => true,
    }
}

/// The first key of the board whose rule is broken (docs/INPUT.md).
#[tactic(auto, unfolding(flat_model::specs::BoardRules::board_fault))]
pub fn board_fault(board: &Board) -> Option<Key>
    ensures { result ≡ board_fault board.now }
{
    if !is_flash(&board.flash) {
        Some(Key::Flash)
    } else if !is_sram(&board.flash, &board.sram) {
        Some(Key::Sram)
    } else if !are_peripherals(&board.flash, &board.sram, &board.peripherals) {
        Some(Key::Peripherals)
    } else if !is_secret(&board.flash, board.secret) {
        Some(Key::Secret)
    } else if !are_words(&board.flash, &board.peripherals, board.words.as_slice()) {
        Some(Key::Words)
    } else if !is_heap(&board.sram, board.heap) {
        Some(Key::Heap)
    } else {
        None
    }
}

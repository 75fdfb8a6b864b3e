ghost use Rattle.std.specs.Prelude.{◌≡◌, Ok, IfOk, IfErr};
ghost use Rattle.flat_model.specs.First.{IsCause};
ghost use Rattle.toml.specs.View.{items_view, table_view};
ghost use Rattle.flat_model.specs.declared.refusals.Key.TheVariants as key;
ghost use Rattle.board_map.specs.Tree.{table_at};
ghost use Rattle.board_map.specs.BoardText.{board_of, board_reading, heap_of, members_or_none, range_of, secret_of, word_of, words_of};

use crate::rules::board_fault;
use crate::tree::{array_at, elements, integer_at, table_at, value_at, word_item};
use flat_model::{Board, ConfigErr, HeapPart, Items, Key, Range, Refused, Word};
use std::alloc::{AllocError, Global};
use toml::{Table, Value};

// The range of two words: base and length.
fn range_of(items: &[Value]) -> Range
    ensures { result ≡ range_of (items_view items.now) }
{
    Range {
        base: word_item(items, 0),
        len: word_item(items, 1),
    }
}

// The word of memory of two words: address and value.
fn word_of(items: &[Value]) -> Word
    ensures { result ≡ word_of (items_view items.now) }
{
    Word {
        at: word_item(items, 0),
        value: word_item(items, 1),
    }
}

// The words of memory of an array of pairs.
fn words_of(alloc: Global, items: &[Value]) -> Result<Items<Word>, AllocError>
    ensures { IfOk result (λ words. words ≡ words_of (items_view items.now)) }
{
    let mut words = Vec::new(alloc);
    for item in items {
        words.push(word_of(elements(item)))?;
    }
    Ok(Items::from_vec(words))
}

// The heap of its table.
fn heap_of(table: &Table) -> HeapPart
    ensures { result ≡ heap_of (table_view table.now) }
{
    HeapPart {
        base: integer_at(table, Key::Base, 0, 4294967295, 0),
        page: integer_at(table, Key::Page, 0, 4294967295, 0),
        count: integer_at(table, Key::Count, 0, 4294967295, 0),
    }
}

// The secret range, where the key is there.
fn secret_of(table: &Table) -> Option<Range>
    ensures { result ≡ secret_of (table_view table.now) }
{
    if value_at(table, Key::Secret).is_some() {
        Some(range_of(array_at(table, Key::Secret)))
    } else {
        None
    }
}

// The board of its table.
#[tactic(auto, unfolding(crate::specs::BoardText::board_of))]
fn board_of(alloc: Global, table: &Table) -> Result<Board, AllocError>
    ensures { IfOk result (λ board. board ≡ board_of (table_view table.now)) }
{
    let words = words_of(alloc, array_at(table, Key::Words))?;
    Ok(Board {
        flash: range_of(array_at(table, Key::Flash)),
        sram: range_of(array_at(table, Key::Sram)),
        peripherals: range_of(array_at(table, Key::Peripherals)),
        secret: secret_of(table),
        words,
        heap: table_at(table, Key::Heap).map(heap_of),
    })
}

// The board of a document, good or not.
fn written_board(alloc: Global, document: &Table) -> Result<Board, AllocError>
    ensures { let table = members_or_none (table_at key.Board (table_view document.now)) in
        IfOk result (λ board. board ≡ board_of table) }
{
    match table_at(document, Key::Board) {
        Some(table) => board_of(alloc, table),
        None => board_of(alloc, &Table::new(alloc)),
    }
}

/// The board of a document: `BadBoard` at the first of its keys whose rule is broken (docs/INPUT.md).
#[tactic(auto, unfolding(crate::specs::BoardText::board_reading))]
pub fn read_board(alloc: Global, document: &Table) -> Result<Board, ConfigErr>
    ensures ok { IfOk result (λ board. board_reading (table_view document.now) ≡ Ok board) }
    ensures cause { IfErr result (IsCause (board_reading (table_view document.now))) }
{
    let board = written_board(alloc, document).map_err(|_| ConfigErr::Memory)?;
    match board_fault(&board) {
        Some(key) => Err(ConfigErr::Refused(Refused::BadBoard { key })),
        None => Ok(board),
    }
}

ghost use Rattle.std.specs.Prelude.{◌≡◌, option_map, option_copied};
ghost use Rattle.flat_model.specs.First.{number};
ghost use Rattle.toml.specs.View.{items_view, table_view, view};
ghost use Rattle.toml.specs.Data.{as_array};
ghost use Rattle.board_map.specs.Tree.{bounded, count, flag_at, integer_at, items_at, items_or_none, natural_of, table_at, text_at, value_at, word_item};

use crate::rows::key_name;
use flat_model::Key;
use toml::{Table, Value};

/// The value at a key.
pub fn value_at<'a>(table: &'a Table, key: Key) -> Option<&'a Value>
    ensures { option_map (λ v. view v.now) result ≡ value_at key (table_view table.now) }
{
    table.get(key_name(key))
}

/// The number of an integer that is not negative.
pub fn natural(value: &Value) -> Option<u64>
    ensures { result ≡ natural_of (view value.now) }
{
    u64::try_from(value.as_integer()?).ok()
}

/// The elements of an array.
pub fn array(value: &Value) -> Option<&[Value]>
    ensures { option_map (λ s. items_view s.now) result ≡ as_array (view value.now) }
{
    Some(value.as_array()?.as_slice())
}

/// The elements of an array; none where the value is no array.
pub fn elements(value: &Value) -> &[Value]
    ensures { items_view result.now ≡ items_or_none (as_array (view value.now)) }
{
    match array(value) {
        Some(items) => items,
        None => &[],
    }
}

/// A place as the input's places are kept: it stops at 2^32 - 1.
pub fn number(i: usize) -> u32
    ensures { result ≡ number i }
{
    if i < 4294967295 { i as u32 } else { 4294967295 }
}

/// How many elements there are, as the input's numbers are kept.
#[tactic(auto, using(crate::proofs::Trees::count_of_items))]
pub fn count(items: &[Value]) -> u32
    ensures { result ≡ number (count (items_view items.now)) }
{
    number(items.len())
}

/// The elements of the array at a key; none where there is no array.
pub fn array_at<'a>(table: &'a Table, key: Key) -> &'a [Value]
    ensures { items_view result.now ≡ items_at key (table_view table.now) }
{
    match value_at(table, key) {
        Some(value) => elements(value),
        None => &[],
    }
}

/// The table at a key.
pub fn table_at<'a>(table: &'a Table, key: Key) -> Option<&'a Table>
    ensures { option_map (λ m. table_view m.now) result ≡ table_at key (table_view table.now) }
{
    value_at(table, key)?.as_table()
}

/// The text at a key.
pub fn text_at<'a>(table: &'a Table, key: Key) -> Option<&'a str>
    ensures { option_copied result ≡ text_at key (table_view table.now) }
{
    value_at(table, key)?.as_str()
}

/// The boolean at a key.
pub fn flag_at(table: &Table, key: Key) -> Option<bool>
    ensures { result ≡ flag_at key (table_view table.now) }
{
    value_at(table, key)?.as_bool()
}

/// The number, where it is from `low` to `high`, or else the default.
pub fn bounded(number: Option<u64>, low: u32, high: u32, default: u32) -> u32
    ensures { result ≡ bounded low high default number }
{
    match number {
        Some(n) => {
            if low as u64 <= n && n <= high as u64 {
                n as u32
            } else {
                default
            }
        }
        None => default,
    }
}

/// The integer from `low` to `high` at a key, or the default.
pub fn integer_at(table: &Table, key: Key, low: u32, high: u32, default: u32) -> u32
    ensures { result ≡ integer_at low high default key (table_view table.now) }
{
    match value_at(table, key) {
        Some(value) => bounded(natural(value), low, high, default),
        None => default,
    }
}

/// The word at a place of an array, or 0.
#[tactic(auto, using(crate::proofs::Trees::word_item_within, crate::proofs::Trees::word_item_past))]
pub fn word_item(items: &[Value], i: usize) -> u32
    ensures { result ≡ word_item i (items_view items.now) }
{
    if i < items.len() {
        let value = &items[i];
        bounded(natural(value), 0, 4294967295, 0)
    } else {
        0
    }
}

ghost use Rattle.std.specs.Prelude.{◌≡◌, IfOk, map, string_bytes};
ghost use Rattle.toml.specs.View.{items_view, table_view};
ghost use Rattle.box_config.specs.Texts.{script_of, strings_of, text_or_empty, word_at};

use board_map::{array_at, integer_at, text_at};
use flat_model::{Items, Key, OutOfMemory, Text};
use std::alloc::{AllocError, Global};
use toml::{Table, Value};

/// The text at a key, or the empty one.
pub fn text_or_empty(alloc: Global, table: &Table, key: Key) -> Result<Text, AllocError>
    ensures { IfOk result (λ text. text ≡ text_or_empty key (table_view table.now)) }
{
    match text_at(table, key) {
        Some(text) => Ok(Text::from_string(String::from_str(alloc, text)?)),
        None => Ok(Text::from_string(String::new(alloc))),
    }
}

/// The word at a key.
pub fn word_at(table: &Table, key: Key, default: u32) -> u32
    ensures { result ≡ word_at key default (table_view table.now) }
{
    integer_at(table, key, 0, 4294967295, default)
}

/// The strings of an array.
pub fn strings_of(alloc: Global, items: &[Value]) -> Result<Items<Text>, AllocError>
    ensures { IfOk result (λ texts. texts ≡ strings_of (items_view items.now)) }
{
    let mut texts = Vec::new(alloc);
    for item in items {
        if let Some(text) = item.as_str() {
            texts.push(Text::from_string(String::from_str(alloc, text)?))?;
        }
    }
    Ok(Items::from_vec(texts))
}

// The strings of an array, as they come.
fn plain_strings(alloc: Global, items: &[Value]) -> Result<Vec<String>, AllocError>
    ensures { IfOk result
        (λ texts. map string_bytes texts.items ≡ strings_of (items_view items.now)) }
{
    let mut texts = Vec::new(alloc);
    for item in items {
        if let Some(text) = item.as_str() {
            texts.push(String::from_str(alloc, text)?)?;
        }
    }
    Ok(texts)
}

/// The script words of a document; none where it has no script.
#[tactic(auto, unfolding(crate::specs::Texts::script_of))]
pub fn read_script(alloc: Global, document: &Table) -> Result<Vec<String>, OutOfMemory>
    ensures { IfOk result
        (λ words. map string_bytes words.items ≡ script_of (table_view document.now)) }
{
    plain_strings(alloc, array_at(document, Key::Script)).map_err(|_| OutOfMemory)
}

// The strings of an array, lent by it.
fn lent_strings(alloc: Global, items: &[Value]) -> Result<Vec<&str>, AllocError>
    ensures { IfOk result
        (λ texts. map (λ text. text.now) texts.items ≡ strings_of (items_view items.now)) }
{
    let mut texts = Vec::with_capacity(alloc, items.len())?;
    for item in items {
        if let Some(text) = item.as_str() {
            texts.push(text)?;
        }
    }
    Ok(texts)
}

/// The script words of a document, lent by it, so that none is copied; none where it has no script.
#[tactic(auto, unfolding(crate::specs::Texts::script_of))]
pub fn script_texts(alloc: Global, document: &Table) -> Result<Vec<&str>, OutOfMemory>
    ensures { IfOk result
        (λ words. map (λ word. word.now) words.items ≡ script_of (table_view document.now)) }
{
    lent_strings(alloc, array_at(document, Key::Script)).map_err(|_| OutOfMemory)
}

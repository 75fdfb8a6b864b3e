ghost use Rattle.std.specs.Prelude.{◌≡◌, ◌++◌, ◌∷◌, [], None, IfOk, IfErr, IfSome, OnOk, map};
ghost use Rattle.std.specs.List.{filter_map};
ghost use Rattle.std.specs.Str.{bytes_eq};
ghost use Rattle.flat_model.specs.First.{number};
ghost use Rattle.acl_resolver.specs.Naming.{bad_word_at, word_of_text};
ghost use Rattle.acl_resolver.specs.Refusals.{first_numbered};
ghost use Rattle.acl_resolver.specs.Resolve.{IsDue};

use crate::placing::numbered;
use crate::spelling::Spelled;
use crate::stages::or_memory;
use flat_model::{ConfigErr, Refused, ScriptWord};
use std::alloc::Global;

// Whether two texts have the same bytes. Most words of a script have three: a loop over those takes
// fewer steps than the comparison for long texts that `==` is.
fn is_same(first: &[u8], second: &[u8]) -> bool
    ensures { result ≡ bytes_eq first.now second.now }
{
    if first.len() != second.len() {
        return false;
    }
    for (i, byte) in first.iter().enumerate() {
        if *byte != second[i] {
            return false;
        }
    }
    true
}

// What a word of a script stands for.
fn word_of_text(table: &[Spelled], text: &str) -> Option<ScriptWord>
    ensures { result ≡ word_of_text table.now text.now }
{
    for spelled in table {
        if is_same(spelled.text.as_str().as_bytes(), text.as_bytes()) {
            return Some(spelled.word);
        }
    }
    None
}

// What the script word at this place stands for.
fn word_at(table: &[Spelled], at: usize, text: &str) -> Result<ScriptWord, ConfigErr>
    ensures ok { IfOk result (λ word. word_of_text table.now text.now ≡ Some word) }
    ensures err { IfErr result (IsDue (bad_word_at table.now (number at) text.now)) }
{
    match word_of_text(table, text) {
        Some(word) => Ok(word),
        None => Err(ConfigErr::Refused(Refused::BadScript { at: numbered(at) })),
    }
}

// A text of the script, and the word that it stands for.
#[derive(Clone, Copy)]
struct Known<'a> {
    text: &'a str,
    word: ScriptWord,
}

// What the script word at this place stands for. Most repeat the last, which is compared first.
fn next_word(
    table: &[Spelled],
    last: Option<Known>,
    at: usize,
    text: &str,
) -> Result<ScriptWord, ConfigErr>
    requires { IfSome last (λ known. word_of_text table.now known.text.now ≡ Some known.word) }
    ensures ok { IfOk result (λ word. word_of_text table.now text.now ≡ Some word) }
    ensures err { IfErr result (IsDue (bad_word_at table.now (number at) text.now)) }
{
    if let Some(known) = last {
        if is_same(known.text.as_bytes(), text.as_bytes()) {
            return Ok(known.word);
        }
    }
    word_at(table, at, text)
}

// Puts a word behind others.
fn push_word(words: &mut Vec<ScriptWord>, word: ScriptWord) -> Result<(), ConfigErr>
    ensures ok { OnOk result (words.new.items ≡ words.old.items ++ word ∷ []) }
    ensures err { IfErr result (λ e. e ≡ ConfigErr.Memory) }
{
    words.push(word).map_err(|_| ConfigErr::Memory)
}

/// What the words of a script stand for, where each is one of those in the table.
pub fn script_of(
    alloc: Global,
    table: &[Spelled],
    script: &[&str],
) -> Result<Vec<ScriptWord>, ConfigErr>
    ensures none { let texts = map (λ text. text.now) script.now in
        OnOk result (first_numbered (bad_word_at table.now) 0 texts ≡ None) }
    ensures ok { let texts = map (λ text. text.now) script.now in
        IfOk result (λ v. v.items ≡ filter_map (word_of_text table.now) texts) }
    ensures err { let texts = map (λ text. text.now) script.now in
        IfErr result (IsDue (first_numbered (bad_word_at table.now) 0 texts)) }
{
    let mut words = or_memory(Vec::with_capacity(alloc, script.len()))?;
    let mut last = None;
    for (at, text) in script.iter().enumerate() {
        let word = next_word(table, last, at, *text)?;
        push_word(&mut words, word)?;
        last = Some(Known { text: *text, word });
    }
    Ok(words)
}

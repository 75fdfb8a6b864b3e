ghost use Rattle.std.specs.Prelude.{◌≡◌, ◌+◌, ◌*◌, ◌^◌, ◌<◌, ◌↔◌, [], ◌∷◌, ◌++◌, length, IfErr, IfOk, IfSome, IsNone, IsTrue, OnOk, ◌⊎◌};
ghost use Rattle.flat_model.specs.Sound.{IsSound};
ghost use Rattle.flat_model.specs.declared.logs.LogErr.TheVariants.{Memory};
ghost use Rattle.flat_model.specs.declared.logs.Log.{Log};
ghost use Rattle.run_log.specs.Reading.{IsCause, IsLogOf};
ghost use Rattle.flat_model.specs.Text.{end_line, item_line};
ghost use Rattle.run_log.specs.Stops.{AreEndsOf, AreItemsOf, EndsFail, HasNoEnd, HasNoItem, IsEndAt, IsEndOf, IsItemAt, IsItemOf, IsNoEnd, IsNoItem};

use crate::candidates::{end_of, item_of};
use crate::items::{push_end_words, push_item_words};
use crate::lines::first_line;
use crate::named::is_named_item;
use crate::page::Page;
use flat_model::{Config, End, Items, Log, LogErr, Logged, ThreadId};
use std::alloc::Global;

// Whether the line is that of the item.
fn is_line_of_item(config: &Config, item: &Logged, line: &[u8], page: &mut Page) -> bool
    requires { IsSound config.now }
    ensures { IsTrue result ↔ (item_line config.now item.now ≡ line.now ++ 10 ∷ []) }
{
    page.clear();
    push_item_words(config, item, page);
    page.as_slice() == line
}

// The item whose line this is.
fn read_item(config: &Config, line: &[u8], page: &mut Page) -> Option<Logged>
    requires { IsSound config.now }
    ensures found { IfSome result (IsItemOf config.now line.now) }
    ensures none { IsNone result → IsNoItem config.now line.now }
{
    let item = item_of(config, line);
    if !is_named_item(config, &item) {
        return None;
    }
    if !is_line_of_item(config, &item, line, page) {
        return None;
    }
    Some(item)
}

// The item whose line the bytes begin with, and what follows it.
fn next_item<'a>(config: &Config, bytes: &'a [u8], page: &mut Page) -> Option<(Logged, &'a [u8])>
    requires { IsSound config.now }
    ensures found { IfSome result (λ read. IsItemAt config.now bytes.now read.0 read.1.now) }
    ensures none { IsNone result → HasNoItem config.now bytes.now }
{
    match first_line(bytes) {
        Some((line, rest)) => match read_item(config, line, page) {
            Some(item) => Some((item, rest)),
            None => None,
        },
        None => None,
    }
}

// Whether the line is that of the end of the thread.
fn is_line_of_end(config: &Config, t: ThreadId, end: &End, line: &[u8], page: &mut Page) -> bool
    requires { IsSound config.now }
    ensures { IsTrue result ↔ (end_line config.now t.0 end.now ≡ line.now ++ 10 ∷ []) }
{
    page.clear();
    push_end_words(config, t, end, page);
    page.as_slice() == line
}

// The end of the thread whose line this is.
fn read_end(config: &Config, t: ThreadId, line: &[u8], page: &mut Page) -> Option<End>
    requires { IsSound config.now }
    ensures found { IfSome result (IsEndOf config.now t.0 line.now) }
    ensures none { IsNone result → IsNoEnd config.now t.0 line.now }
{
    let end = end_of(line);
    if !is_line_of_end(config, t, &end, line, page) {
        return None;
    }
    Some(end)
}

// The end of the thread whose line the bytes begin with, and what follows it.
fn next_end<'a>(
    config: &Config,
    t: ThreadId,
    bytes: &'a [u8],
    page: &mut Page,
) -> Option<(End, &'a [u8])>
    requires { IsSound config.now }
    ensures found { IfSome result (λ read. IsEndAt config.now t.0 bytes.now read.0 read.1.now) }
    ensures none { IsNone result → HasNoEnd config.now t.0 bytes.now }
{
    match first_line(bytes) {
        Some((line, rest)) => match read_end(config, t, line, page) {
            Some(end) => Some((end, rest)),
            None => None,
        },
        None => None,
    }
}

// Puts a value behind a list.
fn push<T: Drop>(list: &mut Vec<T>, value: T) -> Result<(), LogErr>
    ensures ok { OnOk result (list.new.items ≡ list.old.items ++ value ∷ []) }
    ensures err { IfErr result (λ e. e ≡ Memory) }
{
    list.push(value).map_err(|_| LogErr::Memory)
}

// Reads the lines of items for as long as they come, and gives what follows them.
fn read_items<'a>(
    config: &Config,
    bytes: &'a [u8],
    page: &mut Page,
    items: &mut Vec<Logged>,
) -> Result<&'a [u8], LogErr>
    requires sound { IsSound config.now }
    requires empty { items.old.items ≡ [] }
    ensures ok { IfOk result (λ rest. AreItemsOf config.now bytes.now items.new.items rest.now) }
    ensures stop { IfOk result (λ rest. HasNoItem config.now rest.now) }
    ensures err { IfErr result (λ e. e ≡ Memory) }
{
    let mut rest = bytes;
    'items: while let Some((item, after)) = next_item(config, rest, page) {
        push(items, item)?;
        rest = after;
    }
    Ok(rest)
}

// Reads the line of each thread's end, with `before` lines before the first, up to the end.
fn read_ends(
    config: &Config,
    bytes: &[u8],
    before: u32,
    page: &mut Page,
    ends: &mut Vec<End>,
) -> Result<(), LogErr>
    requires sound { IsSound config.now }
    requires empty { ends.old.items ≡ [] }
    requires short { 2 * before + length bytes.now < 2 ^ 32 }
    ensures ok { OnOk result (AreEndsOf config.now bytes.now ends.new.items []) }
    ensures all { OnOk result (length ends.new.items ≡ length config.now.threads) }
    ensures err { IfErr result (EndsFail config.now bytes.now before) }
{
    let mut rest = bytes;
    'ends: for t in 0..config.threads.len() {
        match next_end(config, ThreadId(t as u8), rest, page) {
            Some((end, after)) => {
                push(ends, end)?;
                rest = after;
            }
            None => {
                return Err(LogErr::BadText {
                    line: before + t as u32 + 1,
                });
            }
        }
    }
    if rest.is_empty() {
        Ok(())
    } else {
        Err(LogErr::BadText {
            line: before + config.threads.len() as u32 + 1,
        })
    }
}

/// Reads the text of a log (docs/LOG.md).
pub fn read_log(alloc: Global, config: &Config, bytes: &[u8]) -> Result<Log, LogErr>
    requires sound { IsSound config.now }
    requires short { length bytes.now < 2 ^ 32 }

    // The log is named and its text is the bytes; of such a log there is one.
    ensures ok { IfOk result (IsLogOf config.now bytes.now) }
    ensures again { (log : Log) → IsLogOf config.now bytes.now log
        → (result ≡ Ok log) ⊎ (result ≡ Err Memory) }

    // Bad text is the answer exactly where there is none.
    ensures err { IfErr result (IsCause config.now bytes.now) }
{
    let mut page = Page::new();
    let mut items = Vec::new(alloc);
    let rest = read_items(config, bytes, &mut page, &mut items)?;
    let mut ends = Vec::new(alloc);
    read_ends(config, rest, items.len() as u32, &mut page, &mut ends)?;
    Ok(Log {
        items: Items::from_vec(items),
        ends: Items::from_vec(ends),
    })
}

ghost use Rattle.std.specs.Prelude.{◌≡◌, ◌+◌, ◌^◌, ◌<◌, ◌≤◌, ◌++◌, None, IfOk, OnOk, length, map};
ghost use Rattle.std.specs.List.{AllByRecursion};
ghost use Rattle.addr_base.specs.Range.{ADDRESS_END, end_of};
ghost use Rattle.flat_model.specs.Items.{code_between, flash_around, flash_items, flash_whole};
ghost use Rattle.flat_model.specs.Placing.{limit_of};
ghost use Rattle.acl_resolver.specs.Refusals.{no_room, own_after};
ghost use Rattle.acl_resolver.specs.Resolvable.{IsBoxText, threads_of};
ghost use Rattle.acl_resolver.specs.Resolve.{box_items, box_part, box_parts, grant_item};

use crate::grants::rounded_range;
use crate::placing::own_after;
use addr_base::{Range, Rights};
use flat_model::{Board, BoxPart, BoxText, GrantText, Item, Items, Text, ThreadId};
use std::alloc::{AllocError, Global};

// A grant once it is rounded.
fn grant_item(grant: GrantText) -> Item
    ensures { result ≡ grant_item grant }
{
    Item {
        range: rounded_range(grant),
        rights: grant.rights,
    }
}

// The grants once they are rounded.
fn grant_items(alloc: Global, grants: &[GrantText]) -> Result<Vec<Item>, AllocError>
    ensures { IfOk result (λ v. v.items ≡ map grant_item grants.now) }
{
    let mut items = Vec::new(alloc);
    for grant in grants {
        items.push(grant_item(*grant))?;
    }
    Ok(items)
}

// Puts the range from one address up to another behind the items, to read and execute, where there
// is something between.
fn push_between(items: &mut Vec<Item>, from: u64, to: u64) -> Result<(), AllocError>
    requires { to < 2 ^ 32 }
    ensures { OnOk result (items.new.items ≡ items.old.items ++ code_between from to) }
{
    if from < to {
        let range = Range {
            base: from as u32,
            len: (to - from) as u32,
        };
        items.push(Item {
            range,
            rights: Rights::READ_EXECUTE,
        })?;
    }
    Ok(())
}

// Flash without the secret range.
fn flash_around(alloc: Global, flash: Range, secret: Range) -> Result<Vec<Item>, AllocError>
    requires { end_of flash ≤ ADDRESS_END }
    ensures { IfOk result (λ v. v.items ≡ flash_around flash secret) }
{
    let mut items = Vec::new(alloc);
    push_between(&mut items, flash.base as u64, secret.base as u64)?;
    push_between(&mut items, secret.end(), flash.end())?;
    Ok(items)
}

// All of flash.
fn flash_whole(alloc: Global, flash: Range) -> Result<Vec<Item>, AllocError>
    ensures { IfOk result (λ v. v.items ≡ flash_whole flash) }
{
    let mut items = Vec::new(alloc);
    items.push(Item {
        range: flash,
        rights: Rights::READ_EXECUTE,
    })?;
    Ok(items)
}

// Flash as a box sees it: without the secret range, unless there is none or the box owns it.
fn flash_items(alloc: Global, board: &Board, owns: bool) -> Result<Vec<Item>, AllocError>
    requires { end_of board.now.flash ≤ ADDRESS_END }
    ensures { IfOk result (λ v. v.items ≡ flash_items board.now.flash board.now.secret owns) }
{
    match board.secret {
        Some(secret) => {
            if owns {
                flash_whole(alloc, board.flash)
            } else {
                flash_around(alloc, board.flash, secret)
            }
        }
        None => flash_whole(alloc, board.flash),
    }
}

// The items of a box with this own memory and these grants.
fn box_items(
    alloc: Global,
    board: &Board,
    own: Range,
    secret: bool,
    grants: &[Item],
) -> Result<Vec<Item>, AllocError>
    requires { end_of board.now.flash ≤ ADDRESS_END }
    ensures { IfOk result (λ v. v.items ≡ box_items board.now own secret grants.now) }
{
    let mut items = flash_items(alloc, board, secret)?;
    items.push(Item {
        range: own,
        rights: Rights::READ_WRITE,
    })?;
    items.extend_from_slice(grants)?;
    Ok(items)
}

// A copy of a name.
fn name_of(alloc: Global, name: &str) -> Result<Text, AllocError>
    ensures { IfOk result (λ text. text ≡ name.now) }
{
    Ok(Text::from_string(String::from_str(alloc, name)?))
}

// A box with this own memory, whose first thread has this number.
fn box_part(
    alloc: Global,
    board: &Board,
    own: Range,
    first: u32,
    part: &BoxText,
) -> Result<BoxPart, AllocError>
    requires flash { end_of board.now.flash ≤ ADDRESS_END }
    requires few { first + length part.now.threads ≤ 16 }
    requires server { part.now.server < length part.now.threads }
    ensures { IfOk result (λ made. made ≡ box_part board.now own first part.now) }
{
    let grants = grant_items(alloc, part.grants.as_slice())?;
    let items = box_items(alloc, board, own, part.secret, grants.as_slice())?;
    Ok(BoxPart {
        name: name_of(alloc, part.name.as_str())?,
        own,
        secret: part.secret,
        first,
        threads: part.threads.len() as u32,
        server: ThreadId((first + part.server) as u8),
        items: Items::from_vec(items),
        grants: Items::from_vec(grants),
        irqs: Items::from_vec(Vec::from_slice(alloc, part.irqs.as_slice())?),
    })
}

/// The boxes with their own memory, their items and the numbers of their threads.
pub fn box_parts(
    alloc: Global,
    board: &Board,
    boxes: &[BoxText],
) -> Result<Vec<BoxPart>, AllocError>
    requires flash { end_of board.now.flash ≤ ADDRESS_END }
    requires limit { limit_of board.now ≤ ADDRESS_END }
    requires room { no_room (limit_of board.now) board.now.sram.base 0 boxes.now ≡ None }
    requires each { AllByRecursion IsBoxText boxes.now }
    requires few { threads_of boxes.now ≤ 16 }
    ensures { IfOk result (λ v. v.items ≡ box_parts board.now board.now.sram.base 0 boxes.now) }
{
    let mut parts = Vec::new(alloc);
    let mut start = board.sram.base as u64;
    let mut first: u32 = 0;
    for part in boxes {
        let own = own_after(start, part.size);
        parts.push(box_part(alloc, board, own, first, part)?)?;
        start = own.end();
        first += part.threads.len() as u32;
    }
    Ok(parts)
}

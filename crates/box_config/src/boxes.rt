ghost use Rattle.std.specs.Prelude.{◌≡◌, ◌-◌, IfErr, IfOk, Ok};
ghost use Rattle.flat_model.specs.First.{IsCause};
ghost use Rattle.toml.specs.View.{items_view, table_view};
ghost use Rattle.box_config.specs.Names.{boxes_reading};
ghost use Rattle.box_config.specs.Texts.{box_text, boxes_of, from_tables, server_among};

use crate::names::name_refusal;
use crate::parts::{grants_of, irqs_of, threads_of};
use crate::texts::text_or_empty;
use board_map::{array_at, integer_at, number, owns};
use flat_model::{BoxText, ConfigErr, Key};
use std::alloc::{AllocError, Global};
use toml::{Table, Value};

// The place of the server among that many threads; 0 where there is none such.
fn server_among(threads: usize, table: &Table) -> u32
    ensures { result ≡ server_among threads (table_view table.now) }
{
    let last = number(threads.saturating_sub(1));
    integer_at(table, Key::Server, 0, last, 0)
}

// A box.
#[tactic(auto, unfolding(crate::specs::Texts::box_text))]
fn box_text(alloc: Global, table: &Table) -> Result<BoxText, AllocError>
    ensures { IfOk result (λ b. b ≡ box_text (table_view table.now)) }
{
    let name = text_or_empty(alloc, table, Key::Name)?;
    let threads = threads_of(alloc, array_at(table, Key::Thread))?;
    let grants = grants_of(alloc, array_at(table, Key::Grant))?;
    let irqs = irqs_of(alloc, array_at(table, Key::Irq))?;
    let server = server_among(threads.len(), table);
    Ok(BoxText {
        name,
        size: integer_at(table, Key::Size, 1, 1048576, 1),
        secret: owns(table),
        server,
        threads,
        grants,
        irqs,
    })
}

// The boxes of an array of tables.
fn box_texts(alloc: Global, items: &[Value]) -> Result<Vec<BoxText>, AllocError>
    ensures { IfOk result (λ boxes. boxes.items ≡ from_tables box_text (items_view items.now)) }
{
    let mut boxes = Vec::new(alloc);
    for item in items {
        if let Some(table) = item.as_table() {
            boxes.push(box_text(alloc, table)?)?;
        }
    }
    Ok(boxes)
}

/// The boxes of a document: `BadName` at the first name that no box may have, or else `TwiceNamed` at
/// the first box that has the name of an earlier one (docs/INPUT.md).
#[tactic(auto, unfolding(crate::specs::Texts::boxes_of, crate::specs::Names::boxes_reading))]
pub fn read_boxes(alloc: Global, document: &Table) -> Result<Vec<BoxText>, ConfigErr>
    ensures ok { IfOk result (λ boxes. boxes_reading (table_view document.now) ≡ Ok boxes.items) }
    ensures cause { IfErr result (IsCause (boxes_reading (table_view document.now))) }
{
    let items = array_at(document, Key::AtBox);
    let boxes = box_texts(alloc, items).map_err(|_| ConfigErr::Memory)?;
    match name_refusal(boxes.as_slice()) {
        Some(refused) => Err(ConfigErr::Refused(refused)),
        None => Ok(boxes),
    }
}

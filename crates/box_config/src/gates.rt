ghost use Rattle.std.specs.Prelude.{◌≡◌, IfOk};
ghost use Rattle.toml.specs.View.{items_view, table_view};
ghost use Rattle.box_config.specs.Texts.{from_tables, gates_of, reg_text, rpc_text};

use crate::parts::op_at;
use crate::texts::{strings_of, text_or_empty, word_at};
use board_map::array_at;
use flat_model::{GateTexts, Items, Key, OutOfMemory, RegText, RpcText};
use std::alloc::{AllocError, Global};
use toml::{Table, Value};

// A register gateway.
#[tactic(auto, unfolding(crate::specs::Texts::reg_text))]
fn reg_text(alloc: Global, table: &Table) -> Result<RegText, AllocError>
    ensures { IfOk result (λ register. register ≡ reg_text (table_view table.now)) }
{
    let boxes = strings_of(alloc, array_at(table, Key::Boxes))?;
    Ok(RegText {
        at: word_at(table, Key::At, 0),
        op: op_at(table),
        mask: word_at(table, Key::Mask, 4294967295),
        boxes,
    })
}

// The register gateways of an array of tables.
fn registers_of(alloc: Global, items: &[Value]) -> Result<Items<RegText>, AllocError>
    ensures { IfOk result (λ registers. registers ≡ from_tables reg_text (items_view items.now)) }
{
    let mut registers = Vec::new(alloc);
    for item in items {
        if let Some(table) = item.as_table() {
            registers.push(reg_text(alloc, table)?)?;
        }
    }
    Ok(Items::from_vec(registers))
}

// A gateway for remote calls.
#[tactic(auto, unfolding(crate::specs::Texts::rpc_text))]
fn rpc_text(alloc: Global, table: &Table) -> Result<RpcText, AllocError>
    ensures { IfOk result (λ gateway. gateway ≡ rpc_text (table_view table.now)) }
{
    let target = text_or_empty(alloc, table, Key::AtBox)?;
    let callers = strings_of(alloc, array_at(table, Key::Callers))?;
    Ok(RpcText {
        target,
        function: word_at(table, Key::Function, 0),
        callers,
    })
}

// The gateways for remote calls of an array of tables.
fn gateways_of(alloc: Global, items: &[Value]) -> Result<Items<RpcText>, AllocError>
    ensures { IfOk result (λ gateways. gateways ≡ from_tables rpc_text (items_view items.now)) }
{
    let mut gateways = Vec::new(alloc);
    for item in items {
        if let Some(table) = item.as_table() {
            gateways.push(rpc_text(alloc, table)?)?;
        }
    }
    Ok(Items::from_vec(gateways))
}

// The gateways of a document.
#[tactic(auto, unfolding(crate::specs::Texts::gates_of))]
fn gates_of(alloc: Global, document: &Table) -> Result<GateTexts, AllocError>
    ensures { IfOk result (λ gates. gates ≡ gates_of (table_view document.now)) }
{
    let registers = registers_of(alloc, array_at(document, Key::Register))?;
    let gateways = gateways_of(alloc, array_at(document, Key::Gateway))?;
    Ok(GateTexts {
        registers,
        gateways,
    })
}

/// The register gateways and the gateways for remote calls of a document.
pub fn read_gates(alloc: Global, document: &Table) -> Result<GateTexts, OutOfMemory>
    ensures { IfOk result (λ gates. gates ≡ gates_of (table_view document.now)) }
{
    gates_of(alloc, document).map_err(|_| OutOfMemory)
}

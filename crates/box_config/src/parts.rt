ghost use Rattle.std.specs.Prelude.{◌≡◌, ◌<◌, IfOk};
ghost use Rattle.toml.specs.View.{items_view, table_view};
ghost use Rattle.box_config.specs.Texts.{from_tables, grant_text, irq_part, line_of, op_at, rights_at, round_at, thread_text};

use crate::texts::{text_or_empty, word_at};
use board_map::{flag_at, integer_at, op_of, rights_of, round_of, steps_of, text_at};
use flat_model::{GrantText, IrqPart, Items, Key, Line, Op, Rights, Round, ThreadText};
use std::alloc::{AllocError, Global};
use toml::{Table, Value};

// A thread.
#[tactic(auto, unfolding(crate::specs::Texts::thread_text))]
fn thread_text(alloc: Global, table: &Table) -> Result<ThreadText, AllocError>
    ensures { IfOk result (λ thread. thread ≡ thread_text (table_view table.now)) }
{
    let program = text_or_empty(alloc, table, Key::Program)?;
    Ok(ThreadText {
        program,
        steps: steps_of(table),
    })
}

/// The threads of an array of tables.
pub fn threads_of(alloc: Global, items: &[Value]) -> Result<Items<ThreadText>, AllocError>
    ensures { IfOk result (λ threads. threads ≡ from_tables thread_text (items_view items.now)) }
{
    let mut threads = Vec::new(alloc);
    for item in items {
        if let Some(table) = item.as_table() {
            threads.push(thread_text(alloc, table)?)?;
        }
    }
    Ok(Items::from_vec(threads))
}

// The rights that a grant names.
fn rights_at(table: &Table) -> Rights
    ensures { result ≡ rights_at (table_view table.now) }
{
    match text_at(table, Key::Rights) {
        Some(text) => rights_of(text).unwrap_or(Rights::READ),
        None => Rights::READ,
    }
}

// The rounding that a grant names.
fn round_at(table: &Table) -> Round
    ensures { result ≡ round_at (table_view table.now) }
{
    match text_at(table, Key::Round) {
        Some(text) => round_of(text).unwrap_or(Round::Plain),
        None => Round::Plain,
    }
}

/// The operation that a register gateway names.
pub fn op_at(table: &Table) -> Op
    ensures { result ≡ op_at (table_view table.now) }
{
    match text_at(table, Key::Op) {
        Some(text) => op_of(text).unwrap_or(Op::Read),
        None => Op::Read,
    }
}

// A grant.
#[tactic(auto, unfolding(crate::specs::Texts::grant_text))]
fn grant_text(table: &Table) -> GrantText
    ensures { result ≡ grant_text (table_view table.now) }
{
    GrantText {
        base: word_at(table, Key::Base, 0),
        len: word_at(table, Key::Len, 0),
        rights: rights_at(table),
        round: round_at(table),
        shared: flag_at(table, Key::Shared).unwrap_or(false),
    }
}

/// The grants of an array of tables.
pub fn grants_of(alloc: Global, items: &[Value]) -> Result<Items<GrantText>, AllocError>
    ensures { IfOk result (λ grants. grants ≡ from_tables grant_text (items_view items.now)) }
{
    let mut grants = Vec::new(alloc);
    for item in items {
        if let Some(table) = item.as_table() {
            grants.push(grant_text(table))?;
        }
    }
    Ok(Items::from_vec(grants))
}

/// The interrupt line of a number from 0 to 63.
pub fn line_of(n: u32) -> Line
    requires { n < 64 }
    ensures { result ≡ line_of n }
{
    Line(n as u8)
}

// An interrupt line of a box.
#[tactic(auto, unfolding(crate::specs::Texts::irq_part))]
fn irq_part(table: &Table) -> IrqPart
    ensures { result ≡ irq_part (table_view table.now) }
{
    IrqPart {
        line: line_of(integer_at(table, Key::Line, 0, 63, 0)),
        handler: integer_at(table, Key::Handler, 0, 65535, 0),
    }
}

/// The interrupt lines of an array of tables.
pub fn irqs_of(alloc: Global, items: &[Value]) -> Result<Items<IrqPart>, AllocError>
    ensures { IfOk result (λ irqs. irqs ≡ from_tables irq_part (items_view items.now)) }
{
    let mut irqs = Vec::new(alloc);
    for item in items {
        if let Some(table) = item.as_table() {
            irqs.push(irq_part(table))?;
        }
    }
    Ok(Items::from_vec(irqs))
}

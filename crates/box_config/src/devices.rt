ghost use Rattle.std.specs.Prelude.{◌≡◌, IfOk};
ghost use Rattle.toml.specs.View.{items_view, table_view};
ghost use Rattle.box_config.specs.Texts.{device_part, devices_of, from_tables, lines_of};

use crate::parts::line_of;
use board_map::{array_at, bounded, natural};
use flat_model::{DevicePart, Items, Key, Line, OutOfMemory};
use std::alloc::{AllocError, Global};
use toml::{Table, Value};

// The lines of an array of integers.
fn lines_of(alloc: Global, items: &[Value]) -> Result<Items<Line>, AllocError>
    ensures { IfOk result (λ lines. lines ≡ lines_of (items_view items.now)) }
{
    let mut lines = Vec::new(alloc);
    for item in items {
        lines.push(line_of(bounded(natural(item), 0, 63, 0)))?;
    }
    Ok(Items::from_vec(lines))
}

// A device.
#[tactic(auto, unfolding(crate::specs::Texts::device_part))]
fn device_part(alloc: Global, table: &Table) -> Result<DevicePart, AllocError>
    ensures { IfOk result (λ device. device ≡ device_part (table_view table.now)) }
{
    let rings = lines_of(alloc, array_at(table, Key::Rings))?;
    Ok(DevicePart { rings })
}

// The devices of an array of tables.
fn device_parts(alloc: Global, items: &[Value]) -> Result<Vec<DevicePart>, AllocError>
    ensures { IfOk result
        (λ devices. devices.items ≡ from_tables device_part (items_view items.now)) }
{
    let mut devices = Vec::new(alloc);
    for item in items {
        if let Some(table) = item.as_table() {
            devices.push(device_part(alloc, table)?)?;
        }
    }
    Ok(devices)
}

/// The devices of a document.
#[tactic(auto, unfolding(crate::specs::Texts::devices_of))]
pub fn read_devices(alloc: Global, document: &Table) -> Result<Vec<DevicePart>, OutOfMemory>
    ensures { IfOk result (λ devices. devices.items ≡ devices_of (table_view document.now)) }
{
    device_parts(alloc, array_at(document, Key::Device)).map_err(|_| OutOfMemory)
}

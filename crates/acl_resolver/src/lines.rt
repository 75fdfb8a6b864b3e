ghost use Rattle.std.specs.Prelude.{◌≡◌, []};
ghost use Rattle.flat_model.specs.First.{first_after};
ghost use Rattle.flat_model.specs.Interrupts.{has_line};
ghost use Rattle.acl_resolver.specs.Refusals.{is_line_of, is_line_of_some, is_taken, line_taken, line_taken_of};
ghost use Rattle.acl_resolver.specs.Naming.{bad_device, bad_device_at, is_owned};
ghost use Rattle.std.specs.List.{list_all};

use crate::placing::numbered;
use addr_base::Line;
use flat_model::{BoxText, DevicePart, IrqPart, Refused};

// Whether a line is one of these.
fn has_line(line: u8, irqs: &[IrqPart]) -> bool
    ensures { result ≡ has_line line irqs.now }
{
    for irq in irqs {
        if irq.line.0 == line {
            return true;
        }
    }
    false
}

// Whether a box names the line.
fn is_line_of(line: u8, part: &BoxText) -> bool
    ensures { result ≡ is_line_of line part.now }
{
    has_line(line, part.irqs.as_slice())
}

// Whether one of the boxes names the line.
fn is_line_of_some(boxes: &[BoxText], line: u8) -> bool
    ensures { result ≡ is_line_of_some boxes.now line }
{
    for part in boxes {
        if is_line_of(line, part) {
            return true;
        }
    }
    false
}

// Whether a line was named in one of these boxes, or in its own box among these.
fn is_taken(earlier: &[BoxText], before: &[IrqPart], irq: IrqPart) -> bool
    ensures { result ≡ is_taken earlier.now before.now irq }
{
    is_line_of_some(earlier, irq.line.0) || has_line(irq.line.0, before)
}

// The first line of a box that was named before.
fn first_taken(earlier: &[BoxText], irqs: &[IrqPart]) -> Option<u32>
    ensures { result ≡ first_after (is_taken earlier.now) 0 [] irqs.now }
{
    for (j, irq) in irqs.iter().enumerate() {
        if is_taken(earlier, &irqs[..j], *irq) {
            return Some(numbered(j));
        }
    }
    None
}

// A line of a box that was named earlier, in this or another box.
fn line_taken_of(earlier: &[BoxText], i: u32, part: &BoxText) -> Option<Refused>
    ensures { result ≡ line_taken_of earlier.now i part.now }
{
    let irq = first_taken(earlier, part.irqs.as_slice())?;
    Some(Refused::LineTaken { at_box: i, irq })
}

/// A line that was named earlier, in this or another box.
pub fn line_taken(boxes: &[BoxText]) -> Option<Refused>
    ensures { result ≡ line_taken boxes.now }
{
    for (i, part) in boxes.iter().enumerate() {
        if let Some(refused) = line_taken_of(&boxes[..i], numbered(i), part) {
            return Some(refused);
        }
    }
    None
}

// Whether each of the lines is owned by one of the boxes.
fn all_owned(boxes: &[BoxText], rings: &[Line]) -> bool
    ensures { result ≡ list_all (is_owned boxes.now) rings.now }
{
    for line in rings {
        if !is_line_of_some(boxes, line.0) {
            return false;
        }
    }
    true
}

// The device, where it rings a line that no box owns.
fn bad_device_at(boxes: &[BoxText], d: u32, device: &DevicePart) -> Option<Refused>
    ensures { result ≡ bad_device_at boxes.now d device.now }
{
    if all_owned(boxes, device.rings.as_slice()) {
        None
    } else {
        Some(Refused::BadDevice { device: d })
    }
}

/// A device that rings a line that no box owns.
pub fn bad_device(boxes: &[BoxText], devices: &[DevicePart]) -> Option<Refused>
    ensures { result ≡ bad_device boxes.now devices.now }
{
    for (d, device) in devices.iter().enumerate() {
        if let Some(refused) = bad_device_at(boxes, numbered(d), device) {
            return Some(refused);
        }
    }
    None
}

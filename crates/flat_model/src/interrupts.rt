ghost use Rattle.std.specs.Prelude.{◌≡◌, ◌<◌};
ghost use Rattle.flat_model.specs.Interrupts as spec;

use crate::parts::IrqPart;
use crate::states::{Context, Lines};
use addr_base::{BoxId, Line};

// Whether the flag at this number is set.
fn is_set(flags: &[bool], n: u8) -> bool
    ensures { result ≡ spec.is_set flags.now n }
{
    flags.get(n as usize).copied().unwrap_or(false)
}

// Whether the line is latched and enabled.
fn is_deliverable(lines: &Lines, line: u8) -> bool
    ensures { result ≡ spec.is_deliverable lines.now line }
{
    is_set(lines.latched.as_slice(), line) && is_set(lines.enabled.as_slice(), line)
}

// The one with the lower line.
fn lower_of(irq: IrqPart, other: Option<IrqPart>) -> IrqPart
    ensures { result ≡ spec.lower_of irq other }
{
    match other {
        Some(other) if other.line.0 < irq.line.0 => other,
        Some(_) | None => irq,
    }
}

// The deliverable one of these with the lowest line.
fn lowest_deliverable(lines: &Lines, irqs: &[IrqPart]) -> Option<IrqPart>
    ensures { result ≡ spec.lowest_deliverable lines.now irqs.now }
{
    let [irq, rest @ ..] = irqs else {
        return None;
    };
    let lowest = lowest_deliverable(lines, rest);
    if is_deliverable(lines, irq.line.0) {
        Some(lower_of(*irq, lowest))
    } else {
        lowest
    }
}

/// What the box saved at a delivery, while it is in its handler.
pub fn saved_context(lines: &Lines, home: BoxId) -> Option<Context>
    ensures { result ≡ spec.saved_context lines.now home.0 }
{
    lines
        .saved
        .as_slice()
        .get(home.0 as usize)
        .copied()
        .unwrap_or(None)
}

/// Whether the line is one of these.
pub fn has_line(line: u32, irqs: &[IrqPart]) -> bool
    ensures { result ≡ spec.has_line line irqs.now }
{
    irqs.iter().any(|irq| irq.line.0 as u32 == line)
}

/// The lowest line that can be delivered to the box: none while it is in its handler.
pub fn deliverable_to(lines: &Lines, irqs: &[IrqPart], home: BoxId) -> Option<IrqPart>
    ensures { result ≡ spec.deliverable_to lines.now irqs.now home.0 }
{
    if saved_context(lines, home).is_none() {
        lowest_deliverable(lines, irqs)
    } else {
        None
    }
}

impl Lines {
    /// Latches a line.
    pub fn latch(&mut self, line: Line)
        ensures { self.new ≡ spec.with_latched self.old line.0 }
    {
        self.latched.put(line.0 as usize, true);
    }

    /// Delivers a line to a box: its latch is cleared, and the context is saved.
    pub fn deliver(&mut self, home: BoxId, line: Line, context: Context)
        ensures { self.new ≡ spec.with_delivered self.old line.0 home.0 context }
    {
        self.latched.put(line.0 as usize, false);
        self.saved.put(home.0 as usize, Some(context));
    }

    /// Enables or disables a line.
    pub fn enable(&mut self, line: u32, on: bool)
        ensures { self.new ≡ spec.with_enabled self.old line on }
    {
        self.enabled.put(line as usize, on);
    }

    /// Ends the handler of a box.
    pub fn finish(&mut self, home: BoxId)
        ensures { self.new ≡ spec.with_returned self.old home.0 }
    {
        self.saved.put(home.0 as usize, None);
    }
}

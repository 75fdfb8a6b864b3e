ghost use Rattle.std.specs.Prelude.{◌≡◌, true, ◌<◌, IfOk};
ghost use Rattle.flat_model.specs.Want.{is_owned_line};
ghost use Rattle.irq_owner.specs.Sample as spec;

use crate::Irqs;
use flat_model::{BoxId, Config, IrqPart, Items, Line, OutOfMemory};
use sample_board::{config, halting, part};
use std::alloc::Global;

fn irq(line: u8, handler: u32) -> IrqPart
    ensures { result ≡ spec.irq line handler }
{
    IrqPart {
        line: Line(line),
        handler,
    }
}

fn two_boxes(alloc: Global) -> Result<Config, OutOfMemory>
    ensures { IfOk result (λ cfg. cfg ≡ spec.two_boxes) }
{
    let a = part(alloc, 0, 0, 1, &[irq(5, 3), irq(3, 1)])?;
    let b = part(alloc, 1, 1, 1, &[irq(63, 0), irq(0, 0)])?;
    let first = halting(alloc, 0)?;
    let second = halting(alloc, 1)?;
    let boxes = Items::from_vec(vec![in alloc; a, b]?);
    let threads = Items::from_vec(vec![in alloc; first, second]?);
    Ok(config(alloc, boxes, threads))
}

// The lines of two boxes: the first one owns 5 and 3, the second one 63 and 0.
#[derive(Drop)]
pub(super) struct TwoBoxes {
    irqs: Irqs,
    ghost of_sample: { irqs.config ≡ spec.two_boxes },
}

impl TwoBoxes {
    pub fn new(alloc: Global) -> Result<TwoBoxes, OutOfMemory> {
        let cfg = two_boxes(alloc)?;
        Ok(TwoBoxes {
            irqs: Irqs::new(&cfg),
        })
    }

    pub fn ring(&mut self, line: u8)
        requires { is_owned_line spec.two_boxes line ≡ true }
    {
        self.irqs.ring(Line(line));
    }

    pub fn enable(&mut self, b: u8, line: u32) -> bool
        requires { b < 2 }
    {
        self.irqs.enable(BoxId(b), line).is_ok()
    }

    pub fn disable(&mut self, b: u8, line: u32) -> bool
        requires { b < 2 }
    {
        self.irqs.disable(BoxId(b), line).is_ok()
    }

    pub fn next(&self, b: u8) -> Option<u8>
        requires { b < 2 }
    {
        self.irqs.next_for(BoxId(b)).map(|line| line.0)
    }

    // The line that was delivered, if one was due.
    pub fn deliver(&mut self, b: u8) -> Option<u8>
        requires { b < 2 }
    {
        self.irqs.next_for(BoxId(b))?;
        Some(self.irqs.deliver(BoxId(b)).0)
    }

    pub fn finish(&mut self, b: u8) -> bool
        requires { b < 2 }
    {
        self.irqs.finish(BoxId(b)).is_ok()
    }
}

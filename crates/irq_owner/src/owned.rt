ghost use Rattle.std.specs.Prelude.{◌≡◌, ℕ, ◌<◌, ◌≤◌, length, slice_index};
ghost use Rattle.std.specs.List.{AllByRecursion};
ghost use Rattle.flat_model.specs.Interrupts.{has_line};
ghost use Rattle.flat_model.specs.Sound.{IsSound};
ghost use Rattle.irq_owner.specs.Bits.{has_bit};
ghost use Rattle.irq_owner.specs.Irqs.{irqs_of};

use flat_model::{Config, IrqPart};

/// How many boxes a configuration may have.
pub(crate) const BOXES: usize = 8;

// The word in which the bits of these lines are set.
fn word_of(irqs: &[IrqPart]) -> u64
    requires { AllByRecursion (λ irq. irq.line.0 < 64) irqs.now }
    ensures { (line : ℕ) → has_bit result line ≡ has_line line irqs.now }
{
    let [irq, rest @ ..] = irqs else {
        return 0;
    };
    word_of(rest) | 1 << irq.line.0
}

/// The word of each box's lines.
pub(crate) fn owned_words(cfg: &Config) -> [u64; BOXES]
    requires { IsSound cfg.now }
    ensures { (b line : ℕ) → b < length cfg.now.boxes
        → has_bit (slice_index result b) line ≡ has_line line (irqs_of cfg.now b) }
{
    let mut owned = [0; BOXES];
    for (b, part) in cfg.boxes.as_slice().iter().enumerate() {
        owned[b] = word_of(part.irqs.as_slice());
    }
    owned
}

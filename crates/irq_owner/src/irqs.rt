ghost use Rattle.std.specs.Prelude.{◌≡◌, true, false, ◌<◌, is_ok, length, option_and_then, IfSome, IsSome, OnErr, OnOk, Some};
ghost use Rattle.std.specs.Bool.{OnTrue};
ghost use Rattle.std.specs.Option.{option_map};
ghost use Rattle.flat_model.specs.declared.states.Lines.{Lines};
ghost use Rattle.flat_model.specs.Interrupts.{deliverable_to, has_line, is_set};
ghost use Rattle.flat_model.specs.Sound.{IsSound};
ghost use Rattle.flat_model.specs.Want.{is_owned_line};

use crate::bits::{has_bit, lowest, with_bit, without_bit};
use crate::owned::{BOXES, owned_words};
use flat_model::{BoxId, Config, Line, NotAllowed};
use std::marker::Model;
use std::snapshot::Snapshot;

/// The interrupt lines of a configuration's boxes, a bit a line. Contracts see the configuration, a list of flags for
/// the latches and one for the enables, and a flag for each box.
#[derive(Drop)]
pub struct Irqs {
    config: Snapshot<Config>,
    owned: [u64; BOXES],
    latched: u64,
    enabled: u64,
    handling: [bool; BOXES],
}

impl Model for Irqs {
    ghost use Rattle.std.specs.Prelude.{length, take};
    ghost use Rattle.irq_owner.specs.Bits.{flags};
    ghost use Rattle.irq_owner.specs.Irqs.{IrqsView};
    ghost use Rattle.irq_owner.specs.Kept.{IsKept};

    ghost Value = { IrqsView };

    ghost view = { λ i. record {
      config = i.config.value;
      latched = flags i.latched;
      enabled = flags i.enabled;
      handling = take (length i.config.value.boxes) i.handling;
    } };

    ghost invariant = { λ i. IsKept i.config.value i.owned i.handling };
}

impl Irqs {
    ghost use Rattle.irq_owner.specs.Irqs.{AreLinesOf, after_delivery, after_enabling, after_return, after_ring, irq_with_line, irqs_of, next_irq, opening_irqs};

    /// The lines of a configuration: nothing latched or enabled, and no box in its handler.
    pub fn new(cfg: &Config) -> Irqs
        requires { IsSound cfg.now }
        ensures { result ≡ opening_irqs cfg.now }
    {
        Irqs {
            config: Snapshot::of(cfg),
            owned: owned_words(cfg),
            latched: 0,
            enabled: 0,
            handling: [false; BOXES],
        }
    }

    // Whether the box owns the line.
    fn owns(&self, b: BoxId, line: u32) -> bool
        requires { b.0 < length self.now.config.boxes }
        ensures exact { result ≡ has_line line (irqs_of self.now.config b.0) }
        ensures within { OnTrue result (line < 64) }
    {
        line < 64 && has_bit(self.owned[b.0 as usize], line)
    }

    /// Latches a line that a box owns. A second ring before the delivery changes nothing.
    pub fn ring(&mut self, line: Line)
        requires { is_owned_line self.old.config line.0 ≡ true }
        ensures { self.new ≡ after_ring self.old line.0 }
    {
        self.latched = with_bit(self.latched, line.0 as u32);
    }

    /// Enables a line of the box; any other line is not allowed, and then nothing changes.
    pub fn enable(&mut self, b: BoxId, line: u32) -> Result<(), NotAllowed>
        requires { b.0 < length self.old.config.boxes }

        ensures cause { is_ok result ≡ has_line line (irqs_of self.old.config b.0) }

        ensures ok { OnOk result (self.new ≡ after_enabling self.old line true) }
        ensures err { OnErr result (self.new ≡ self.old) }
    {
        if !self.owns(b, line) {
            return Err(NotAllowed);
        }
        self.enabled = with_bit(self.enabled, line);
        Ok(())
    }

    /// Disables a line of the box; any other line is not allowed, and then nothing changes. A latch stays, so that the
    /// line is due again once it is enabled.
    pub fn disable(&mut self, b: BoxId, line: u32) -> Result<(), NotAllowed>
        requires { b.0 < length self.old.config.boxes }

        ensures cause { is_ok result ≡ has_line line (irqs_of self.old.config b.0) }

        ensures ok { OnOk result (self.new ≡ after_enabling self.old line false) }
        ensures err { OnErr result (self.new ≡ self.old) }
    {
        if !self.owns(b, line) {
            return Err(NotAllowed);
        }
        self.enabled = without_bit(self.enabled, line);
        Ok(())
    }

    /// The lowest line of the box that is latched and enabled; none where there is none, and while the box is in its
    /// handler.
    pub fn next_for(&self, b: BoxId) -> Option<Line>
        requires { b.0 < length self.now.config.boxes }

        ensures exact { result ≡ option_map (λ irq. irq.line) (next_irq self.now b.0) }
        ensures within { IfSome result (λ line. line.0 < 64) }

        // The line names the part, and the part is what the flat machine delivers.
        ensures part { next_irq self.now b.0
            ≡ option_and_then (λ line. irq_with_line line.0 (irqs_of self.now.config b.0)) result }
        ensures flat { (lines : Lines)
            → AreLinesOf self.now lines
            → deliverable_to lines (irqs_of self.now.config b.0) b.0 ≡ next_irq self.now b.0 }
    {
        if self.handling[b.0 as usize] {
            return None;
        }
        lowest(self.owned[b.0 as usize] & self.latched & self.enabled).map(Line)
    }

    /// Delivers the box's next line: its latch is cleared, and the box is in its handler.
    pub fn deliver(&mut self, b: BoxId) -> Line
        requires within { b.0 < length self.old.config.boxes }
        requires due { IsSome (next_irq self.old b.0) }

        ensures line { option_map (λ irq. irq.line) (next_irq self.old b.0) ≡ Some result }
        ensures exact { self.new ≡ after_delivery self.old result.0 b.0 }
    {
        let line = self.next_for(b).unwrap();
        self.latched = without_bit(self.latched, line.0 as u32);
        self.handling[b.0 as usize] = true;
        line
    }

    /// Ends the handler of a box; not allowed where the box is in none, and then nothing changes.
    pub fn finish(&mut self, b: BoxId) -> Result<(), NotAllowed>
        requires { b.0 < length self.old.config.boxes }

        ensures cause { is_ok result ≡ is_set self.old.handling b.0 }

        ensures ok { OnOk result (self.new ≡ after_return self.old b.0) }
        ensures err { OnErr result (self.new ≡ self.old) }
    {
        if !self.handling[b.0 as usize] {
            return Err(NotAllowed);
        }
        self.handling[b.0 as usize] = false;
        Ok(())
    }
}

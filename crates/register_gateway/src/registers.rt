ghost use Rattle.std.specs.Prelude.{◌≡◌, is_ok, is_some, slice_get, IfOk, OnErr};
ghost use Rattle.std.specs.Result.{result_ok};
ghost use Rattle.flat_model.specs.Registers.{register_for, register_read, register_write};
ghost use Rattle.register_gateway.specs.Gateways.{with_written};

use crate::operations::{has_box, value_read, value_written};
use flat_model::{BoxId, Config, Items, NotAllowed, OutOfMemory, RegGate};
use phys_memory::Banks;
use std::alloc::Global;
use std::marker::Model;

/// The register gateways of a configuration, which contracts see as their list.
#[derive(Debug, Drop)]
pub struct Registers {
    gates: Items<RegGate>,
}

impl Model for Registers {
    ghost use Rattle.std.specs.Prelude.{List};
    ghost use Rattle.flat_model.specs.declared.parts.RegGate.{RegGate};

    ghost Value = { List RegGate };

    ghost view = { λ r. r.gates };
}

impl Registers {
    /// The gateways of a configuration.
    pub fn new(alloc: Global, cfg: &Config) -> Result<Registers, OutOfMemory>
        ensures { IfOk result (λ registers. registers ≡ cfg.now.registers) }
    {
        let gates = Vec::from_slice(alloc, cfg.registers.as_slice())?;
        Ok(Registers {
            gates: Items::from_vec(gates),
        })
    }

    // The gateway with this number, where the box may use it.
    fn gate_for(&self, b: BoxId, g: u32) -> Option<RegGate>
        ensures { result ≡ register_for b.0 (slice_get self.now g) }
    {
        let gate = self.gates.as_slice().get(g as usize).copied()?;
        if has_box(gate.boxes, b) {
            Some(gate)
        } else {
            None
        }
    }

    /// What a box reads by a gateway. It may not where there is no gateway with this number, where the gateway does
    /// not name the box, and where it is one that writes.
    pub fn read(&self, banks: &Banks, b: BoxId, g: u32) -> Result<u32, NotAllowed>
        ensures { result_ok result
            ≡ register_read self.now banks.now.board banks.now.memory b.0 g }
    {
        let gate = self.gate_for(b, g).ok_or(NotAllowed)?;
        let word = banks.load(gate.at, 4);
        value_read(gate.op, word, gate.mask).ok_or(NotAllowed)
    }

    /// Writes a value by a gateway into its word. A box may not where there is no gateway with this number, where the
    /// gateway does not name the box, and where it is one that reads; then nothing changes.
    pub fn write(&self, banks: &mut Banks, b: BoxId, g: u32, value: u32) -> Result<(), NotAllowed>
        ensures cause { is_ok result
            ≡ is_some (register_write self.now banks.old.board banks.old.memory b.0 g value) }

        ensures exact { banks.new ≡ with_written
            (register_write self.now banks.old.board banks.old.memory b.0 g value) banks.old }
        ensures err { OnErr result (banks.new ≡ banks.old) }
    {
        let gate = self.gate_for(b, g).ok_or(NotAllowed)?;
        let word = banks.load(gate.at, 4);
        let written = value_written(gate.op, word, gate.mask, value).ok_or(NotAllowed)?;
        banks.store(gate.at, 4, written);
        Ok(())
    }
}

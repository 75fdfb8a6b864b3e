ghost use Rattle.std.specs.Prelude.{◌≡◌, ◌≤◌, IfOk, length, map};
ghost use Rattle.acl_resolver.specs.Resolve.{call_gate, register_gate};

use crate::gates::{box_named, set_of_names};
use addr_base::BoxId;
use flat_model::{BoxText, RegGate, RegText, RpcGate, RpcText};
use std::alloc::{AllocError, Global};

// A register gateway, with its names as a set of boxes.
fn register_gate(boxes: &[BoxText], gate: &RegText) -> RegGate
    requires { length boxes.now ≤ 8 }
    ensures { result ≡ register_gate boxes.now gate.now }
{
    RegGate {
        at: gate.at,
        op: gate.op,
        mask: gate.mask,
        boxes: set_of_names(boxes, gate.boxes.as_slice()),
    }
}

/// The register gateways, with their names as sets of boxes.
pub fn register_gates(
    alloc: Global,
    boxes: &[BoxText],
    registers: &[RegText],
) -> Result<Vec<RegGate>, AllocError>
    requires { length boxes.now ≤ 8 }
    ensures { IfOk result (λ v. v.items ≡ map (register_gate boxes.now) registers.now) }
{
    let mut gates = Vec::new(alloc);
    for gate in registers {
        gates.push(register_gate(boxes, gate))?;
    }
    Ok(gates)
}

// A gateway for calls, with its names as a box and a set of boxes.
fn call_gate(boxes: &[BoxText], gate: &RpcText) -> RpcGate
    requires { length boxes.now ≤ 8 }
    ensures { result ≡ call_gate boxes.now gate.now }
{
    RpcGate {
        target: BoxId(box_named(boxes, gate.target.as_str()).unwrap_or(0)),
        function: gate.function,
        callers: set_of_names(boxes, gate.callers.as_slice()),
    }
}

/// The gateways for calls, with their names as boxes and sets of boxes.
pub fn call_gates(
    alloc: Global,
    boxes: &[BoxText],
    gateways: &[RpcText],
) -> Result<Vec<RpcGate>, AllocError>
    requires { length boxes.now ≤ 8 }
    ensures { IfOk result (λ v. v.items ≡ map (call_gate boxes.now) gateways.now) }
{
    let mut gates = Vec::new(alloc);
    for gate in gateways {
        gates.push(call_gate(boxes, gate))?;
    }
    Ok(gates)
}

ghost use Rattle.std.specs.Prelude.{◌≡◌, ◌≤◌, length};
ghost use Rattle.std.specs.List.{list_any};
ghost use Rattle.std.specs.Str.{bytes_eq};
ghost use Rattle.acl_resolver.specs.Naming.{all_named, bad_callers, bad_callers_at, bad_gateway, bad_register, bad_register_at, box_named, has_name, is_named, is_register_address, no_server, no_server_at, set_of_names};

use crate::placing::numbered;
use flat_model::{Board, BoxText, GateTexts, Refused, RegText, RpcText, Spot, Text};

// Whether a box has this name.
fn has_name(name: &str, part: &BoxText) -> bool
    ensures { result ≡ has_name name.now part.now }
{
    part.name.as_str() == name
}

/// The number of the box with this name.
pub fn box_named(boxes: &[BoxText], name: &str) -> Option<u8>
    requires { length boxes.now ≤ 8 }
    ensures { result ≡ box_named boxes.now name.now }
{
    for (i, part) in boxes.iter().enumerate() {
        if has_name(name, part) {
            return Some(i as u8);
        }
    }
    None
}

// Whether the name is a box's.
fn is_named(boxes: &[BoxText], name: &str) -> bool
    requires { length boxes.now ≤ 8 }
    ensures { result ≡ is_named boxes.now name.now }
{
    box_named(boxes, name).is_some()
}

// Whether each of the names is a box's.
fn all_named(boxes: &[BoxText], names: &[Text]) -> bool
    requires { length boxes.now ≤ 8 }
    ensures { result ≡ all_named boxes.now names.now }
{
    for name in names {
        if !is_named(boxes, name.as_str()) {
            return false;
        }
    }
    true
}

// Whether a register gateway is at a multiple of 4 inside the peripherals.
fn is_register_address(board: &Board, at: u32) -> bool
    ensures { result ≡ is_register_address board.now at }
{
    at % 4 == 0 && board.peripherals.holds(at, 4)
}

// The register gateway, where it is at a wrong address or has a name that is no box's.
fn bad_register_at(board: &Board, boxes: &[BoxText], k: u32, gate: &RegText) -> Option<Refused>
    requires { length boxes.now ≤ 8 }
    ensures { result ≡ bad_register_at board.now boxes.now k gate.now }
{
    if is_register_address(board, gate.at) && all_named(boxes, gate.boxes.as_slice()) {
        None
    } else {
        Some(Refused::BadGateway {
            spot: Spot::Register(k),
        })
    }
}

// A register gateway at a wrong address, or with a name that is no box's.
fn bad_register(board: &Board, boxes: &[BoxText], registers: &[RegText]) -> Option<Refused>
    requires { length boxes.now ≤ 8 }
    ensures { result ≡ bad_register board.now boxes.now registers.now }
{
    for (k, gate) in registers.iter().enumerate() {
        if let Some(refused) = bad_register_at(board, boxes, numbered(k), gate) {
            return Some(refused);
        }
    }
    None
}

// The gateway for calls, where it has a caller that is no box.
fn bad_callers_at(boxes: &[BoxText], k: u32, gate: &RpcText) -> Option<Refused>
    requires { length boxes.now ≤ 8 }
    ensures { result ≡ bad_callers_at boxes.now k gate.now }
{
    if all_named(boxes, gate.callers.as_slice()) {
        None
    } else {
        Some(Refused::BadGateway {
            spot: Spot::Gateway(k),
        })
    }
}

// A gateway for calls with a caller that is no box.
fn bad_callers(boxes: &[BoxText], gateways: &[RpcText]) -> Option<Refused>
    requires { length boxes.now ≤ 8 }
    ensures { result ≡ bad_callers boxes.now gateways.now }
{
    for (k, gate) in gateways.iter().enumerate() {
        if let Some(refused) = bad_callers_at(boxes, numbered(k), gate) {
            return Some(refused);
        }
    }
    None
}

/// A gateway of either kind that is bad, the registers first.
pub fn bad_gateway(board: &Board, boxes: &[BoxText], gates: &GateTexts) -> Option<Refused>
    requires { length boxes.now ≤ 8 }
    ensures { result ≡ bad_gateway board.now boxes.now gates.now }
{
    match bad_register(board, boxes, gates.registers.as_slice()) {
        Some(refused) => Some(refused),
        None => bad_callers(boxes, gates.gateways.as_slice()),
    }
}

// The gateway, where its target is no box.
fn no_server_at(boxes: &[BoxText], k: u32, gate: &RpcText) -> Option<Refused>
    requires { length boxes.now ≤ 8 }
    ensures { result ≡ no_server_at boxes.now k gate.now }
{
    if is_named(boxes, gate.target.as_str()) {
        None
    } else {
        Some(Refused::NoServer { gateway: k })
    }
}

/// A gateway whose target is no box.
pub fn no_server(boxes: &[BoxText], gateways: &[RpcText]) -> Option<Refused>
    requires { length boxes.now ≤ 8 }
    ensures { result ≡ no_server boxes.now gateways.now }
{
    for (k, gate) in gateways.iter().enumerate() {
        if let Some(refused) = no_server_at(boxes, numbered(k), gate) {
            return Some(refused);
        }
    }
    None
}

// Whether a name is among these.
fn is_among(name: &str, names: &[Text]) -> bool
    ensures { result ≡ list_any (bytes_eq name.now) names.now }
{
    for other in names {
        if name == other.as_str() {
            return true;
        }
    }
    false
}

/// The set of the boxes whose names are among these: bit i for box i.
pub fn set_of_names(boxes: &[BoxText], names: &[Text]) -> u8
    requires { length boxes.now ≤ 8 }
    ensures { result ≡ set_of_names 0 boxes.now names.now }
{
    let mut set = 0;
    for (i, part) in boxes.iter().enumerate() {
        if is_among(part.name.as_str(), names) {
            set += 1 << i;
        }
    }
    set
}

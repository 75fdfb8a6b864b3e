ghost use Rattle.std.specs.Prelude.{◌≡◌, slice_get};
ghost use Rattle.flat_model.specs.CallRows as call_words;
ghost use Rattle.flat_model.specs.Registers as spec;

use crate::banks::word_at;
use crate::boards::{Board, Word};
use crate::parts::{Op, RegGate, RpcGate};
use crate::states::Memory;
use addr_base::BoxId;

/// Whether the box's bit is set in a set of boxes.
#[tactic(auto, using(crate::proofs::GateLemmas::past_boxes))]
pub fn has_box(boxes: u8, b: BoxId) -> bool
    ensures { result ≡ spec.has_box boxes b.0 }
{
    b.0 < 8 && (boxes >> b.0) % 2 == 1
}

// What a register gateway reads of its word, where it is one that reads.
fn gateway_read(op: Op, word: u32, mask: u32) -> Option<u32>
    ensures { result ≡ spec.gateway_read op word mask }
{
    match op {
        Op::Read => Some(word),
        Op::ReadAnd => Some(word & mask),
        Op::Write | Op::And | Op::Or | Op::Xor | Op::Replace => None,
    }
}

// What a register gateway makes of its word and a value, where it is one that writes.
fn gateway_written(op: Op, word: u32, mask: u32, value: u32) -> Option<u32>
    ensures { result ≡ spec.gateway_written op word mask value }
{
    let other = u32::MAX - mask;
    match op {
        Op::Read | Op::ReadAnd => None,
        Op::Write => Some(value),
        Op::And => Some(word & (value | other)),
        Op::Or => Some(word | (value & mask)),
        Op::Xor => Some(word ^ (value & mask)),
        Op::Replace => Some((word & other) | (value & mask)),
    }
}

// The register gateway with this number, where the box may use it.
fn register_for(gates: &[RegGate], b: BoxId, n: u32) -> Option<RegGate>
    ensures { result ≡ spec.register_for b.0 (slice_get gates.now n) }
{
    match gates.get(n as usize) {
        Some(gate) if has_box(gate.boxes, b) => Some(*gate),
        Some(_) | None => None,
    }
}

/// What the box reads by the register gateway with this number, if it may.
pub fn register_read(
    gates: &[RegGate],
    board: &Board,
    memory: &Memory,
    b: BoxId,
    n: u32,
) -> Option<u32>
    ensures { result ≡ spec.register_read gates.now board.now memory.now b.0 n }
{
    match register_for(gates, b, n) {
        Some(gate) => {
            let word = word_at(board, memory, gate.at as u64, 4);
            gateway_read(gate.op, word, gate.mask)
        }
        None => None,
    }
}

/// The word that the box writes with a value by the register gateway with this number, if it may.
pub fn register_write(
    gates: &[RegGate],
    board: &Board,
    memory: &Memory,
    b: BoxId,
    n: u32,
    value: u32,
) -> Option<Word>
    ensures { result ≡ spec.register_write gates.now board.now memory.now b.0 n value }
{
    match register_for(gates, b, n) {
        Some(gate) => {
            let word = word_at(board, memory, gate.at as u64, 4);
            match gateway_written(gate.op, word, gate.mask, value) {
                Some(value) => Some(Word { at: gate.at, value }),
                None => None,
            }
        }
        None => None,
    }
}

/// The gateway for calls with this number, where the box may call by it.
pub fn gateway_for(gates: &[RpcGate], b: BoxId, n: u32) -> Option<RpcGate>
    ensures { result ≡ call_words.gateway_for b.0 (slice_get gates.now n) }
{
    match gates.get(n as usize) {
        Some(gate) if has_box(gate.callers, b) => Some(*gate),
        Some(_) | None => None,
    }
}

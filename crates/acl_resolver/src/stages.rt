ghost use Rattle.std.specs.Prelude.{◌≡◌, ◌≤◌, None, IfOk, IfErr, OnOk, length, map};
ghost use Rattle.std.specs.Option.{option_or};
ghost use Rattle.addr_base.specs.Range.{ADDRESS_END};
ghost use Rattle.flat_model.specs.Placing.{limit_of};
ghost use Rattle.acl_resolver.specs.Refusals.{bad_grant, clash, common_behind, grant_outside, self_overlap};
ghost use Rattle.acl_resolver.specs.Resolvable.{threads_of};
ghost use Rattle.acl_resolver.specs.Resolve.{IsDue, naming_refusal, placing_refusal, running_refusal, thread_parts, words_of, words_refusal};

use crate::clashes::{clash, self_overlap};
use crate::gates::{bad_gateway, no_server};
use crate::grants::{bad_grant, grant_outside};
use crate::lines::{bad_device, line_taken};
use crate::placing::{common_behind, placed_end};
use crate::script::script_of;
use crate::threads::thread_parts;
use crate::words::script_words;
use addr_base::Range;
use flat_model::{
    Board, BoxText, ConfigErr, DevicePart, GateTexts, Refused, ScriptWord, ThreadPart,
};
use std::alloc::{AllocError, Global};

// The first refusal of the grants, over the common part.
fn grants_refusal(board: &Board, common: Range, boxes: &[BoxText]) -> Option<Refused>
    requires { common ≡ common_behind board.now boxes.now }
    ensures { result
        ≡ option_or (bad_grant boxes.now)
        (option_or (grant_outside board.now boxes.now)
        (option_or (self_overlap boxes.now)
        (clash boxes.now))) }
{
    if let Some(refused) = bad_grant(boxes) {
        return Some(refused);
    }
    if let Some(refused) = grant_outside(board, common, boxes) {
        return Some(refused);
    }
    if let Some(refused) = self_overlap(boxes) {
        return Some(refused);
    }
    clash(boxes)
}

/// The first refusal of where the boxes and their grants lie.
pub fn placing_refusal(board: &Board, boxes: &[BoxText]) -> Option<Refused>
    requires low { board.now.sram.base ≤ limit_of board.now }
    requires high { limit_of board.now ≤ ADDRESS_END }
    ensures { result ≡ placing_refusal board.now boxes.now }
{
    match placed_end(board, boxes) {
        Ok(end) => grants_refusal(board, common_behind(board, boxes, end), boxes),
        Err(refused) => Some(refused),
    }
}

/// The first refusal of lines and gateways.
pub fn naming_refusal(board: &Board, boxes: &[BoxText], gates: &GateTexts) -> Option<Refused>
    requires { length boxes.now ≤ 8 }
    ensures { result ≡ naming_refusal board.now boxes.now gates.now }
{
    if let Some(refused) = line_taken(boxes) {
        return Some(refused);
    }
    if let Some(refused) = bad_gateway(board, boxes, gates) {
        return Some(refused);
    }
    no_server(boxes, gates.gateways.as_slice())
}

/// Goes on unless there is a refusal.
pub fn unless_refused(refusal: Option<Refused>) -> Result<(), ConfigErr>
    ensures none { OnOk result (refusal ≡ None) }
    ensures err { IfErr result (IsDue refusal) }
{
    match refusal {
        Some(refused) => Err(ConfigErr::Refused(refused)),
        None => Ok(()),
    }
}

/// A value that was made, or want of memory.
pub fn or_memory<T>(made: Result<T, AllocError>) -> Result<T, ConfigErr>
    ensures ok { IfOk result (λ v. made ≡ Ok v) }
    ensures err { IfErr result (λ e. e ≡ ConfigErr.Memory) }
{
    match made {
        Ok(v) => Ok(v),
        Err(_) => Err(ConfigErr::Memory),
    }
}

// What the words of the script stand for, once each device is found to ring lines that boxes own.
fn script_words_of(
    alloc: Global,
    boxes: &[BoxText],
    devices: &[DevicePart],
    script: &[&str],
) -> Result<Vec<ScriptWord>, ConfigErr>
    requires { threads_of boxes.now ≤ 16 }
    ensures none { let texts = map (λ text. text.now) script.now in
        OnOk result (words_refusal boxes.now devices.now texts ≡ None) }
    ensures ok { let texts = map (λ text. text.now) script.now in
        IfOk result (λ v. v.items ≡ words_of boxes.now texts) }
    ensures err { let texts = map (λ text. text.now) script.now in
        IfErr result (IsDue (words_refusal boxes.now devices.now texts)) }
{
    if let Some(refused) = bad_device(boxes, devices) {
        return Err(ConfigErr::Refused(refused));
    }
    let table = or_memory(script_words(alloc, boxes))?;
    script_of(alloc, table.as_slice(), script)
}

/// The threads with their programs, and the script that names them.
#[derive(Debug, Drop)]
pub struct Programmed {
    pub threads: Vec<ThreadPart>,
    pub script: Vec<ScriptWord>,
}

/// The threads with their programs, and what the words of the script stand for.
pub fn scripted(
    alloc: Global,
    boxes: &[BoxText],
    devices: &[DevicePart],
    script: &[&str],
) -> Result<Programmed, ConfigErr>
    requires few_boxes { length boxes.now ≤ 8 }
    requires few_threads { threads_of boxes.now ≤ 16 }
    ensures none { let texts = map (λ text. text.now) script.now in
        OnOk result (running_refusal boxes.now devices.now texts ≡ None) }
    ensures threads { IfOk result (λ made. made.threads.items ≡ thread_parts 0 boxes.now) }
    ensures script { let texts = map (λ text. text.now) script.now in
        IfOk result (λ made. made.script.items ≡ words_of boxes.now texts) }
    ensures err { let texts = map (λ text. text.now) script.now in
        IfErr result (IsDue (running_refusal boxes.now devices.now texts)) }
{
    let threads = thread_parts(alloc, boxes)?;
    let script = script_words_of(alloc, boxes, devices, script)?;
    Ok(Programmed { threads, script })
}

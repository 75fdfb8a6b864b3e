//! Resolves a firmware's parts to its configuration, or to the first reason why it is refused.
#![tactic(auto)]

mod boxes;
mod clashes;
mod gates;
mod gateways;
mod grants;
mod lines;
mod placing;
mod script;
mod spelling;
mod stages;
#[cfg(test)]
mod tests;
mod threads;
mod words;

ghost use Rattle.std.specs.Prelude.{◌≡◌, IfOk, IfErr, map, string_bytes};
ghost use Rattle.flat_model.specs.First.{IsCause};
ghost use Rattle.flat_model.specs.Sound.{IsSound};
ghost use Rattle.acl_resolver.specs.Resolvable.{IsResolvable};
ghost use Rattle.acl_resolver.specs.Resolve.{parts_of, resolution_of};

use boxes::box_parts;
pub use flat_model::Config;
use flat_model::{Board, BoxText, ConfigErr, DevicePart, GateTexts, Items};
use gateways::{call_gates, register_gates};
use stages::{naming_refusal, or_memory, placing_refusal, scripted, unless_refused};
use std::alloc::{AllocError, Global};

/// What `resolve` gives, over the words of a script that others own.
pub fn resolve_texts(
    alloc: Global,
    board: Board,
    boxes: Vec<BoxText>,
    gates: GateTexts,
    devices: Vec<DevicePart>,
    script: &[&str],
) -> Result<Config, ConfigErr>
    requires { let texts = map (λ text. text.now) script.now in
        IsResolvable (parts_of board boxes.items gates devices.items texts) }

    ensures ok { let texts = map (λ text. text.now) script.now in
        let parts = parts_of board boxes.items gates devices.items texts in
        IfOk result (λ cfg. resolution_of parts ≡ Ok cfg) }
    ensures err { let texts = map (λ text. text.now) script.now in
        let parts = parts_of board boxes.items gates devices.items texts in
        IfErr result (IsCause (resolution_of parts)) }
    ensures sound { IfOk result IsSound }
{
    let texts = boxes.as_slice();
    unless_refused(placing_refusal(&board, texts))?;
    unless_refused(naming_refusal(&board, texts, &gates))?;
    let made = scripted(alloc, texts, devices.as_slice(), script)?;
    let parts = or_memory(box_parts(alloc, &board, texts))?;
    let registers = or_memory(register_gates(alloc, texts, gates.registers.as_slice()))?;
    let gateways = or_memory(call_gates(alloc, texts, gates.gateways.as_slice()))?;
    Ok(Config {
        version: 1,
        board,
        boxes: Items::from_vec(parts),
        threads: Items::from_vec(made.threads),
        registers: Items::from_vec(registers),
        gateways: Items::from_vec(gateways),
        devices: Items::from_vec(devices),
        script: Items::from_vec(made.script),
    })
}

// The strings, lent.
fn lent_texts(alloc: Global, strings: &[String]) -> Result<Vec<&str>, AllocError>
    ensures { IfOk result
        (λ texts. map (λ text. text.now) texts.items ≡ map string_bytes strings.now) }
{
    let mut texts = Vec::with_capacity(alloc, strings.len())?;
    for string in strings {
        texts.push(string.as_str())?;
    }
    Ok(texts)
}

/// The configuration of a firmware's parts, or their first refusal (docs/INPUT.md).
pub fn resolve(
    alloc: Global,
    board: Board,
    boxes: Vec<BoxText>,
    gates: GateTexts,
    devices: Vec<DevicePart>,
    script: Vec<String>,
) -> Result<Config, ConfigErr>
    requires { let texts = map string_bytes script.items in
        IsResolvable (parts_of board boxes.items gates devices.items texts) }

    ensures ok { let texts = map string_bytes script.items in
        let parts = parts_of board boxes.items gates devices.items texts in
        IfOk result (λ cfg. resolution_of parts ≡ Ok cfg) }
    ensures err { let texts = map string_bytes script.items in
        let parts = parts_of board boxes.items gates devices.items texts in
        IfErr result (IsCause (resolution_of parts)) }
    ensures sound { IfOk result IsSound }
{
    let texts = or_memory(lent_texts(alloc, script.as_slice()))?;
    resolve_texts(alloc, board, boxes, gates, devices, texts.as_slice())
}

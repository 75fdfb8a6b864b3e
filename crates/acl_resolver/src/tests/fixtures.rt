ghost use Rattle.std.specs.Prelude.{◌≡◌, ◌≤◌, IfOk, IsTrue};
ghost use Rattle.acl_resolver.specs.Resolvable.{threads_of};

use addr_base::{Line, Range, Rights};
use flat_model::{
    Board, BoxText, DevicePart, GateTexts, GrantText, HeapPart, IrqPart, Items, Op, RegText, Round,
    RpcText, Text, ThreadText,
};
use std::alloc::{AllocError, Global};

/// A box of a test: its size, its grants with base, length, rounding and `shared`, its lines and its
/// program. The boxes of a case are named `a`, `b`, `c` and so on.
#[derive(Clone, Copy)]
pub struct Sketch<'a> {
    pub size: u32,
    pub grants: &'a [(u32, u32, Round, bool)],
    pub lines: &'a [u8],
    pub program: &'a str,
}

/// The name of the box at an index.
pub fn name_at(index: usize) -> &'static str {
    match index {
        0 => "a",
        1 => "b",
        2 => "c",
        _ => "d",
    }
}

/// A text of its own.
pub fn text(alloc: Global, bytes: &str) -> Result<Text, AllocError>
    ensures { IfOk result (λ text. text ≡ bytes.now) }
{
    Ok(Text::from_string(String::from_str(alloc, bytes)?))
}

// The grants of a sketch, with the right to read and to write.
fn grants_of(
    alloc: Global,
    grants: &[(u32, u32, Round, bool)],
) -> Result<Items<GrantText>, AllocError> {
    let mut items = Vec::new(alloc);
    for (base, len, round, shared) in grants {
        items.push(GrantText {
            base: *base,
            len: *len,
            rights: Rights::READ_WRITE,
            round: *round,
            shared: *shared,
        })?;
    }
    Ok(Items::from_vec(items))
}

// The lines of a sketch, each with handler 0.
fn irqs_of(alloc: Global, lines: &[u8]) -> Result<Items<IrqPart>, AllocError> {
    let mut irqs = Vec::new(alloc);
    for line in lines {
        irqs.push(IrqPart {
            line: Line(*line),
            handler: 0,
        })?;
    }
    Ok(Items::from_vec(irqs))
}

// The box of a sketch, with one thread.
fn box_of(alloc: Global, name: &str, sketch: &Sketch) -> Result<BoxText, AllocError> {
    let mut threads = Vec::new(alloc);
    threads.push(ThreadText {
        program: text(alloc, sketch.program)?,
        steps: 10,
    })?;
    Ok(BoxText {
        name: text(alloc, name)?,
        size: sketch.size,
        secret: false,
        server: 0,
        threads: Items::from_vec(threads),
        grants: grants_of(alloc, sketch.grants)?,
        irqs: irqs_of(alloc, sketch.lines)?,
    })
}

/// The boxes of sketches.
pub fn boxes_of(alloc: Global, sketches: &[Sketch]) -> Result<Vec<BoxText>, AllocError> {
    let mut boxes = Vec::new(alloc);
    for (i, sketch) in sketches.iter().enumerate() {
        boxes.push(box_of(alloc, name_at(i), sketch)?)?;
    }
    Ok(boxes)
}

/// A board with 1 MiB of flash and of peripherals, and 1,024 bytes of SRAM.
pub fn small_board(alloc: Global, heap: Option<HeapPart>) -> Board {
    Board {
        flash: Range {
            base: 0,
            len: 0x100000,
        },
        sram: Range {
            base: 0x20000000,
            len: 0x400,
        },
        peripherals: Range {
            base: 0x40000000,
            len: 0x100000,
        },
        secret: None,
        words: Items::from_vec(Vec::new(alloc)),
        heap,
    }
}

// The texts of names.
fn texts(alloc: Global, names: &[&str]) -> Result<Items<Text>, AllocError> {
    let mut items = Vec::new(alloc);
    for name in names {
        items.push(text(alloc, name)?)?;
    }
    Ok(Items::from_vec(items))
}

/// The gateways of a test: registers with their address and boxes, and gateways for calls with their
/// target and callers.
#[derive(Clone, Copy)]
pub struct Gates<'a> {
    pub registers: &'a [(u32, &'a [&'a str])],
    pub gateways: &'a [(&'a str, &'a [&'a str])],
}

// The register gateways of a test.
fn registers_of(alloc: Global, registers: &[(u32, &[&str])]) -> Result<Items<RegText>, AllocError> {
    let mut items = Vec::new(alloc);
    for (at, boxes) in registers {
        items.push(RegText {
            at: *at,
            op: Op::Read,
            mask: 0xFFFF_FFFF,
            boxes: texts(alloc, boxes)?,
        })?;
    }
    Ok(Items::from_vec(items))
}

// The gateways for calls of a test.
fn gateways_of(alloc: Global, gateways: &[(&str, &[&str])]) -> Result<Items<RpcText>, AllocError> {
    let mut items = Vec::new(alloc);
    for (target, callers) in gateways {
        items.push(RpcText {
            target: text(alloc, target)?,
            function: 7,
            callers: texts(alloc, callers)?,
        })?;
    }
    Ok(Items::from_vec(items))
}

/// The gateways as they are written.
pub fn gates_of(alloc: Global, gates: &Gates) -> Result<GateTexts, AllocError> {
    Ok(GateTexts {
        registers: registers_of(alloc, gates.registers)?,
        gateways: gateways_of(alloc, gates.gateways)?,
    })
}

/// The devices that ring these lines.
pub fn devices_of(alloc: Global, devices: &[&[u8]]) -> Result<Vec<DevicePart>, AllocError> {
    let mut parts = Vec::new(alloc);
    for lines in devices {
        let mut rings = Vec::new(alloc);
        for line in *lines {
            rings.push(Line(*line))?;
        }
        parts.push(DevicePart {
            rings: Items::from_vec(rings),
        })?;
    }
    Ok(parts)
}

/// Whether the boxes have at most 16 threads.
pub fn has_few_threads(boxes: &[BoxText]) -> bool
    ensures { IsTrue result → threads_of boxes.now ≤ 16 }
{
    let mut left = 16;
    for part in boxes {
        let threads = part.threads.len();
        if threads > left {
            return false;
        }
        left -= threads;
    }
    true
}

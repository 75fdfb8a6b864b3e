ghost use Rattle.std.specs.Prelude.{◌≡◌, slice_get};
ghost use Rattle.std.specs.Option.{option_copied};

use crate::boards::Board;
use crate::instructions::Instr;
use crate::lists::{Items, Text};
use addr_base::{BoxId, Line, Range, Rights, ThreadId};

/// An interrupt line of a box, and the place of its handler in thread 0's program.
#[derive(Clone, Copy, PartialEq, Eq, Debug)]
pub struct IrqPart {
    pub line: Line,
    pub handler: u32,
}

/// What a register gateway does to its word (docs/PROGRAMS.md).
#[derive(Clone, Copy, PartialEq, Eq, Debug)]
pub enum Op {
    Read,
    ReadAnd,
    Write,
    And,
    Or,
    Xor,
    Replace,
}

/// The lines that a device rings, in order.
#[derive(Debug, Drop)]
pub struct DevicePart {
    pub rings: Items<Line>,
}

/// A range that a box holds, and with which rights.
#[derive(Clone, Copy, PartialEq, Eq, Debug)]
pub struct Item {
    pub range: Range,
    pub rights: Rights,
}

/// A box: its threads are `threads` many from number `first` on, its items end with its grants.
#[derive(Debug, Drop)]
pub struct BoxPart {
    pub name: Text,
    pub own: Range,
    pub secret: bool,
    pub first: u32,
    pub threads: u32,
    pub server: ThreadId,
    pub items: Items<Item>,
    pub grants: Items<Item>,
    pub irqs: Items<IrqPart>,
}

/// A thread: its box, its program and how many steps it may take.
#[derive(Debug, Drop)]
pub struct ThreadPart {
    pub home: BoxId,
    pub program: Items<Instr>,
    pub steps: u32,
}

/// A register gateway; bit b of `boxes` is set where box b may use it.
#[derive(Clone, Copy, PartialEq, Eq, Debug)]
pub struct RegGate {
    pub at: u32,
    pub op: Op,
    pub mask: u32,
    pub boxes: u8,
}

/// A gateway for remote calls; bit b of `callers` is set where box b may call.
#[derive(Clone, Copy, PartialEq, Eq, Debug)]
pub struct RpcGate {
    pub target: BoxId,
    pub function: u32,
    pub callers: u8,
}

/// A word of the script.
#[derive(Clone, Copy, PartialEq, Eq, Debug)]
pub enum ScriptWord {
    Thread(ThreadId),
    Ring(Line),
}

/// A whole firmware, resolved: names are indices and threads are numbered through all boxes.
#[derive(Debug, Drop)]
pub struct Config {
    pub version: u8,
    pub board: Board,
    pub boxes: Items<BoxPart>,
    pub threads: Items<ThreadPart>,
    pub registers: Items<RegGate>,
    pub gateways: Items<RpcGate>,
    pub devices: Items<DevicePart>,
    pub script: Items<ScriptWord>,
}

impl ThreadPart {
    /// The instruction at a place of the program, if there is one.
    pub fn instruction(&self, place: u32) -> Option<Instr>
        ensures { result ≡ slice_get self.now.program place }
    {
        self.program.as_slice().get(place as usize).copied()
    }
}

impl Config {
    /// The thread with this number, with its program.
    pub fn program(&self, t: ThreadId) -> Option<&ThreadPart>
        ensures { option_copied result ≡ slice_get self.now.threads t.0 }
    {
        self.threads.as_slice().get(t.0 as usize)
    }

    /// The box with this number.
    pub fn part(&self, b: BoxId) -> Option<&BoxPart>
        ensures { option_copied result ≡ slice_get self.now.boxes b.0 }
    {
        self.boxes.as_slice().get(b.0 as usize)
    }
}

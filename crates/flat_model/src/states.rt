use crate::events::Mode;
use crate::lists::Items;
use addr_base::{BoxId, Ticket};

/// The bytes of flash, SRAM and the peripherals.
#[derive(Debug, Drop)]
pub struct Memory {
    pub flash: Items<u8>,
    pub sram: Items<u8>,
    pub peripherals: Items<u8>,
}

/// A call that a thread waits for, and how many more turns it looks for its result.
#[derive(Clone, Copy, PartialEq, Eq, Debug)]
pub struct Awaited {
    pub seq: u32,
    pub looks: u32,
}

/// A thread as its own box may know it: `count` is how many calls it has made.
#[derive(Clone, Copy, PartialEq, Eq, Debug)]
pub struct ThreadState {
    pub pc: u32,
    pub regs: [u32; 8],
    pub mode: Mode,
    pub steps: u32,
    pub count: u32,
    pub awaited: Option<Awaited>,
}

/// What a delivery saves of thread 0.
#[derive(Clone, Copy, PartialEq, Eq, Debug)]
pub struct Context {
    pub pc: u32,
    pub regs: [u32; 8],
}

/// How far a call has come.
#[derive(Clone, Copy, PartialEq, Eq, Debug)]
pub enum CallState {
    Posted,
    Started,
    Done(u32),
    Collected,
}

/// A call, from its making on.
#[derive(Clone, Copy, PartialEq, Eq, Debug)]
pub struct Call {
    pub ticket: Ticket,
    pub target: BoxId,
    pub function: u32,
    pub args: [u32; 4],
    pub state: CallState,
}

/// The interrupt lines by number, and for each box what its handler saved, or none.
#[derive(Debug, Drop)]
pub struct Lines {
    pub latched: Items<bool>,
    pub enabled: Items<bool>,
    pub saved: Items<Option<Context>>,
}

/// What the threads share: memory, the owner of each page, the calls in the order in which they were
/// made with the one that each box's server serves, and the interrupt lines.
#[derive(Debug, Drop)]
pub struct Shared {
    pub memory: Memory,
    pub owners: Items<Option<BoxId>>,
    pub calls: Items<Call>,
    pub serving: Items<Option<Ticket>>,
    pub lines: Lines,
}

/// The flat machine: what the threads share, and each thread.
#[derive(Debug, Drop)]
pub struct Flat {
    pub shared: Shared,
    pub threads: Items<ThreadState>,
}

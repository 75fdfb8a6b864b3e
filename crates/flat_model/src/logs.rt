use crate::events::{Logged, Mode};
use crate::lists::Items;

/// What a thread is at the end of a run.
#[derive(Clone, Copy, PartialEq, Eq, Debug)]
pub struct End {
    pub mode: Mode,
    pub steps: u32,
    pub regs: [u32; 8],
}

/// Everything that happened, in order, and what each thread then was.
#[derive(Debug, Drop)]
pub struct Log {
    pub items: Items<Logged>,
    pub ends: Items<End>,
}

/// Why bytes gave no log: the first line after which no log's text can go on, or want of memory.
#[derive(Clone, Copy, PartialEq, Eq, Debug)]
pub enum LogErr {
    BadText { line: u32 },
    Memory,
}

//! The data types of a firmware's boxes, and the definitions of what a run of them is.
#![tactic(auto)]

mod access_rule;
mod accesses;
mod actors;
mod banks;
mod boards;
mod call_rows;
mod calls;
mod classes;
mod events;
mod fitting;
mod flat_state;
mod gateways;
mod instructions;
mod interrupts;
mod kernel;
mod line_rows;
mod lists;
mod local;
mod logs;
mod next;
mod opening;
mod page_rows;
mod pages;
mod parts;
mod plain;
mod refusals;
mod register_rows;
mod states;
mod step;
mod texts;
mod thread;
mod turn;
mod wants;

pub use access_rule::{is_aligned, may_access};
pub use accesses::Access;
pub use actors::{Actor, Who};
pub use addr_base::{
    BadRegion, BoxId, Kind, Line, NoCall, NotAllowed, OutOfMemory, Pair, Range, Rights, Rotated,
    ThreadId, Ticket, Verdict,
};
pub use banks::{put_byte, put_word, word_at};
pub use boards::{Board, HeapPart, Word};
pub use calls::{CallList, collected_by};
pub use classes::{InstrClass, KernelCall, LocalInstr, MemoryInstr};
pub use events::{
    Choice, Collected, Drive, Entry, Flaw, Frames, Logged, Mode, Noted, Reply, Started, UnitLine,
    Want,
};
pub use fitting::{fits, may_be_full};
pub use flat_state::{FlatState, flat_step};
pub use instructions::{AssembleErr, BadLine, Instr, Why};
pub use interrupts::deliverable_to;
pub use kernel::Kernel;
pub use lists::{Items, Text};
pub use logs::{End, Log, LogErr};
pub use next::Next;
pub use opening::{opening_lines, opening_memory, opening_threads, page_count};
pub use parts::{
    BoxPart, Config, DevicePart, IrqPart, Item, Op, RegGate, RpcGate, ScriptWord, ThreadPart,
};
pub use refusals::{ConfigErr, Key, NotNext, PageErr, Refused, Spot};
pub use states::{Awaited, Call, CallState, Context, Flat, Lines, Memory, Shared, ThreadState};
pub use texts::{BoxText, GateTexts, GrantText, RegText, Round, RpcText, ThreadText};
pub use wants::{INBOX_SLOTS, script_choice, want_of};

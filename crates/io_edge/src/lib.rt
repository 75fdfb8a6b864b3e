//! What the program reads from and writes to: sources and sinks that count their faults. And the
//! gates that its workers pass.
#![tactic(auto)]

mod ends;
mod gates;
mod sinks;
mod sources;
mod streams;
#[cfg(test)]
mod tests;
mod whole;

pub use ends::{Pulled, Pushed, Sink, Source};
pub use gates::{Gate, HoldGate, NoGate};
pub use sinks::{MemSink, NullSink};
pub use sources::{MemSource, SureSource};
pub use streams::{StdinSource, StdoutSink};
pub use whole::{ReadErr, WriteErr, read_all, write_all};

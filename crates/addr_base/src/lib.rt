//! Ranges of addresses, rights, identities and register pairs: the words that every other crate speaks.
#![tactic(auto)]

mod identity;
mod pairs;
mod ranges;
mod refusals;
mod rights;
#[cfg(test)]
mod tests;

pub use identity::{BoxId, Line, ThreadId, Ticket};
pub use pairs::{BadRegion, Pair, Rotated, Verdict};
pub use ranges::{Range, is_power, round_down, round_up};
pub use refusals::{NoCall, NotAllowed, OutOfMemory};
pub use rights::{Kind, Rights};

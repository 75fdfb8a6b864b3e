//! Inboxes of call tickets and the word of pending lines, which threads share without locks.
#![tactic(auto)]

mod bits;
mod consuming;
mod inbox;
mod lines;
mod plays;
mod producing;
mod queue;
mod seen;
#[cfg(test)]
mod tests;
mod whole;

pub use inbox::{Claim, Claimed, Consumer, Full, Inbox, Posting, Producer, Taken, Took, Vacant};
pub use lines::{LineSeat, Lines, Rang, Rung};

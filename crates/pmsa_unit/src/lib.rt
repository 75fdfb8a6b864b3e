//! The memory protection unit: its regions, and what they say of an access.
#![tactic(auto)]

mod region;
#[cfg(test)]
mod samples;
#[cfg(test)]
mod tests;
mod unit;

pub use region::{gives_kind, is_valid, matches_address};
pub use unit::{SLOTS, Unit};

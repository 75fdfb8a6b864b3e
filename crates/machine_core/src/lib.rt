//! The machine: a configuration, the state of its boxes, and the legal log of what happened.
#![tactic(auto)]

mod acting;
mod deeds;
mod journal;
mod kernel;
mod machine;
mod state;
mod stepping;
mod tables;
#[cfg(test)]
mod tests;
mod unit;

pub use machine::Machine;
pub use stepping::{MachineFixed, an_event_adds_one_entry};

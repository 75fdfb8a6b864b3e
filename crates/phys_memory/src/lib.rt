//! The memory of a board: the bytes of its flash, its SRAM and its peripherals, as one map from addresses to bytes.
#![tactic(auto)]

mod bank;
mod banks;
mod bytes;
mod one_bank;
mod pieces;
#[cfg(test)]
mod tests;

pub use banks::Banks;

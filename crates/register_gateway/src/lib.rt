//! Register gateways: single words of the peripherals that named boxes may read, or write through a mask.
#![tactic(auto)]

mod operations;
mod registers;
#[cfg(test)]
mod tests;

pub use registers::Registers;

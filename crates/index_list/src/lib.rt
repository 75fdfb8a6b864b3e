//! Lists of numbered nodes, linked by index, that take no memory once they are made.
#![tactic(auto)]

mod arena;
#[cfg(test)]
mod tests;

pub use arena::Arena;

//! A token over one value: the pass that takes it works on the value alone, and gives it back.
#![tactic(auto)]

mod part;
mod pass;
mod seats;
mod stepped;
#[cfg(test)]
mod tests;
mod token;

pub use pass::{Hold, Pass};
pub use stepped::Stepped;
pub use token::{Token, Tried};

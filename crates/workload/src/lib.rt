//! Inputs that are made from a number, and the counts of what their runs logged.
#![tactic(auto)]

mod counts;
mod generator;
mod kinds;
mod making;
mod numbers;
mod tally;
mod templates;
#[cfg(test)]
mod tests;

pub use making::make_input;
pub use numbers::input_number;
pub use tally::write_tally;

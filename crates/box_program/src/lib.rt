//! Program text: from lines of text to instructions, and back.
#![tactic(auto)]

mod numbers;
mod opcodes;
mod operands;
mod program;
mod spelling;
#[cfg(test)]
mod tests;
mod words;

pub use program::assemble;
pub use spelling::show;

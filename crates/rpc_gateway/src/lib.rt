//! The table of calls: posted by their callers, started and finished by servers, collected once.
#![tactic(auto)]

mod calls;
mod directory;
mod sought;
mod table;
#[cfg(test)]
mod tests;

pub use calls::Calls;

//! Who owns each page of a board's heap, and the calls that give pages to boxes and take them back.
#![tactic(auto)]

mod frames;
mod heap;
mod lists;
#[cfg(test)]
mod tests;

pub use heap::Heap;

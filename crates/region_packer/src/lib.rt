//! The regions of a range of addresses, of a group of pages, and of all grants of a box.
#![tactic(auto)]

mod blocks;
mod directory;
mod pages;
mod ranges;
#[cfg(test)]
mod tests;

pub use directory::{Block, Directory};
pub use pages::group;
pub use ranges::cover;

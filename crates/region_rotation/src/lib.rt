//! The unit's regions for the box that runs: at a switch, after a denial, and after a flush.
#![tactic(auto)]

mod home;
mod lookup;
mod pages;
mod rotator;
mod slots;
#[cfg(test)]
mod tests;

pub use lookup::find;
pub use rotator::Rotator;

//! The interrupt lines of the boxes: which are latched and enabled, and which box is in its handler.
#![tactic(auto)]

mod bits;
mod irqs;
mod owned;
#[cfg(test)]
mod tests;

pub use irqs::Irqs;

//! The boxes, gateways, devices and script words of the input document, read into their types.
#![tactic(auto)]

mod boxes;
mod devices;
mod gates;
mod names;
mod parts;
#[cfg(test)]
mod tests;
mod texts;

pub use boxes::read_boxes;
pub use devices::read_devices;
pub use gates::read_gates;
pub use texts::{read_script, script_texts};

//! One board, and boxes side by side on it, for the tests of the crates above.
#![tactic(auto)]

mod boards;
mod configs;
mod parts;

pub use boards::board;
pub use configs::{config, one_box};
pub use parts::{halting, part, thread};

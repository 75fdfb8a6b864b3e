//! The text of a log, written and read.
#![tactic(auto)]

mod candidates;
mod items;
mod laws;
mod lines;
mod meanings;
mod named;
mod page;
mod reading;
#[cfg(test)]
mod tests;
mod words;
mod writing;

pub use items::{push_end, push_item, push_name, push_thread};
pub use laws::a_text_has_one_log;
pub use page::Page;
pub use reading::read_log;
pub use writing::write_log;

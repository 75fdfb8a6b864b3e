//! What a box can learn: every answer that it gets is a function of its own part and of what reached it.
#![tactic(auto)]

mod laws;

pub use laws::{a_box_answers_from_its_part_and_its_reach, equal_reach_gives_equal_replies};

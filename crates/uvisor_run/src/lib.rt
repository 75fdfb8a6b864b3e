//! The top call of the program: its commands, what they read and what they write.
#![tactic(auto)]

mod acceptance;
mod answers;
mod call_laws;
mod check_text;
mod check_writing;
mod commands;
mod laws;
mod made;
mod refusal_text;
mod scripting;
#[cfg(test)]
mod tests;
mod top;

pub use acceptance::accept;
pub use call_laws::{a_call_starts_once, a_result_is_collected_once, calls_keep_their_order};
pub use check_writing::write_check;
pub use laws::{
    a_frame_has_one_owner, a_legal_log_is_the_log_of_its_choices, grants_need_no_history,
    legal_logs_are_named, pages_arrive_zeroed, script_logs_are_legal,
};
pub use scripting::run_script;
pub use top::scripted;

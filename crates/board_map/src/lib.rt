//! The shape of the input document, table by table, and the board that it describes.
#![tactic(auto)]

mod board;
mod limits;
mod rows;
mod rules;
#[cfg(test)]
mod tests;
mod totals;
mod tree;
mod values;
mod walk;
mod words;

pub use board::read_board;
pub use limits::{owns, steps_of};
pub use rows::{Choice, Each, Form, Format, Limit, Row, Rule, key_name};
pub use rules::board_fault;
pub use totals::Totals;
pub use tree::{
    array_at, bounded, elements, flag_at, integer_at, natural, number, table_at, text_at, value_at,
    word_item,
};
pub use walk::check_shape;
pub use words::{op_of, rights_of, round_of};

ghost use Rattle.std.specs.Prelude.{◌≡◌};
ghost use Rattle.board_map.specs.Words.{is_word, op_of, rights_of, round_of};

use crate::rows::Choice;
use flat_model::{Op, Rights, Round};

/// The rights that a word stands for.
#[tactic(auto, unfolding(crate::specs::Words::rights_of))]
pub fn rights_of(text: &str) -> Option<Rights>
    ensures { result ≡ rights_of text.now }
{
    if text == "r" {
        Some(Rights::READ)
    } else if text == "rw" {
        Some(Rights::READ_WRITE)
    } else if text == "rx" {
        Some(Rights::READ_EXECUTE)
    } else if text == "rwx" {
        Some(Rights::ALL)
    } else {
        None
    }
}

/// The rounding that a word stands for.
#[tactic(auto, unfolding(crate::specs::Words::round_of))]
pub fn round_of(text: &str) -> Option<Round>
    ensures { result ≡ round_of text.now }
{
    if text == "none" {
        Some(Round::Plain)
    } else if text == "up" {
        Some(Round::Up)
    } else if text == "down" {
        Some(Round::Down)
    } else {
        None
    }
}

/// The operation that a word stands for.
#[tactic(auto, unfolding(crate::specs::Words::op_of))]
pub fn op_of(text: &str) -> Option<Op>
    ensures { result ≡ op_of text.now }
{
    if text == "read" {
        Some(Op::Read)
    } else if text == "read_and" {
        Some(Op::ReadAnd)
    } else if text == "write" {
        Some(Op::Write)
    } else if text == "and" {
        Some(Op::And)
    } else if text == "or" {
        Some(Op::Or)
    } else if text == "xor" {
        Some(Op::Xor)
    } else if text == "replace" {
        Some(Op::Replace)
    } else {
        None
    }
}

impl Choice {
    /// Whether the text is one of the words that a key may have.
    #[tactic(auto, unfolding(crate::specs::Words::is_word))]
    pub fn is_word(self, text: &str) -> bool
        ensures { result ≡ is_word self text.now }
    {
        match self {
            Choice::Rights => rights_of(text).is_some(),
            Choice::Round => round_of(text).is_some(),
            Choice::Op => op_of(text).is_some(),
        }
    }
}

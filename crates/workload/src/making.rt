ghost use Rattle.std.specs.Prelude.{◌≡◌, ◌+◌, ◌*◌, ◌<◌, ◌++◌, IfOk, OnOk};
ghost use Rattle.workload.specs.Generator.{state_after};
ghost use Rattle.workload.specs.MadeInput.{BOXES, GRANTS, WORDS, box_letters, box_text, boxes_text, gateways_text, grants_text, letters_of, made_input, words_text};
ghost use Rattle.workload.specs.Templates.{IsSmall};

use crate::generator::{drawn_in, next_state};
use crate::templates::{
    Letters, append_filled, append_lines, board_lines, box_lines, gateway_lines, grant_lines,
    head_lines, program_lines, word_line,
};
use addr_base::OutOfMemory;
use std::alloc::Global;

// How many words the script has.
const WORDS: u32 = 20_000;

// How many boxes there are.
const BOXES: u8 = 4;

// How many grants a box has.
const GRANTS: u8 = 6;

// The room that a text takes, which is taken once.
const ROOM: usize = 163_600;

// Appends the words of the script, drawn from a state on, and answers the state after them.
fn append_words(start: u32, text: &mut Vec<u8>) -> Result<u32, OutOfMemory>
    ensures text { OnOk result (text.new.items ≡ text.old.items ++ words_text start WORDS) }
    ensures state { IfOk result (λ x. x ≡ state_after start WORDS) }
{
    let mut x = start;
    'words: for word in 0..WORDS {
        x = next_state(x);
        let letters = letters_of(0, 0, x);
        append_filled(word_line(), &letters, text)?;
    }
    Ok(x)
}

// The letters of a box, of its grant with this number, and of the draw with this state.
fn letters_of(here: u8, grant: u8, x: u32) -> Letters
    requires here { here < BOXES }
    requires grant { grant < GRANTS }
    ensures letters { result ≡ letters_of here grant x }
    ensures small { IsSmall result }
{
    Letters {
        here,
        grant,
        drawn: drawn_in(x),
    }
}

// The letters of a box alone.
fn box_letters(here: u8) -> Letters
    requires { here < BOXES }
    ensures letters { result ≡ box_letters here }
    ensures small { IsSmall result }
{
    Letters {
        here,
        grant: 0,
        drawn: 0,
    }
}

// Appends the grants of a box, drawn from a state on, and answers the state after them.
fn append_grants(start: u32, here: u8, text: &mut Vec<u8>) -> Result<u32, OutOfMemory>
    requires { here < BOXES }
    ensures text { OnOk result (text.new.items ≡ text.old.items ++ grants_text start here GRANTS) }
    ensures state { IfOk result (λ x. x ≡ state_after start GRANTS) }
{
    let mut x = start;
    'grants: for grant in 0..GRANTS {
        x = next_state(x);
        let letters = letters_of(here, grant, x);
        append_filled(grant_lines(), &letters, text)?;
    }
    Ok(x)
}

// Appends a box whose grants are drawn from a state on, and answers the state after them.
fn append_box(start: u32, here: u8, text: &mut Vec<u8>) -> Result<u32, OutOfMemory>
    requires { here < BOXES }
    ensures text { OnOk result (text.new.items ≡ text.old.items ++ box_text start here) }
    ensures state { IfOk result (λ x. x ≡ state_after start GRANTS) }
{
    let letters = box_letters(here);
    append_filled(box_lines(), &letters, text)?;
    append_filled(program_lines(), &letters, text)?;
    append_grants(start, here, text)
}

// Appends the boxes, drawn from a state on.
fn append_boxes(start: u32, text: &mut Vec<u8>) -> Result<(), OutOfMemory>
    ensures { OnOk result (text.new.items ≡ text.old.items ++ boxes_text start BOXES) }
{
    let mut x = start;
    'boxes: for here in 0..BOXES {
        x = append_box(x, here, text)?;
    }
    Ok(())
}

// Appends a gateway to each box.
fn append_gateways(text: &mut Vec<u8>) -> Result<(), OutOfMemory>
    ensures { OnOk result (text.new.items ≡ text.old.items ++ gateways_text BOXES) }
{
    'gateways: for here in 0..BOXES {
        let letters = box_letters(here);
        append_filled(gateway_lines(), &letters, text)?;
    }
    Ok(())
}

// Appends the text of the input that is made from this number.
fn append_input(n: u32, text: &mut Vec<u8>) -> Result<(), OutOfMemory>
    ensures { OnOk result (text.new.items ≡ text.old.items ++ made_input n) }
{
    append_lines(head_lines(), text)?;
    let x = append_words(n, text)?;
    append_lines(board_lines(), text)?;
    append_boxes(x, text)?;
    append_gateways(text)
}

/// The text of the input that is made from this number (docs/MANUAL.md): the same number gives the
/// same text everywhere.
pub fn make_input(alloc: Global, n: u32) -> Result<Vec<u8>, OutOfMemory>
    ensures { IfOk result (λ text. text.items ≡ made_input n) }
{
    let mut text = Vec::with_capacity(alloc, ROOM)?;
    append_input(n, &mut text)?;
    Ok(text)
}

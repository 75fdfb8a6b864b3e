ghost use Rattle.std.specs.Prelude.{◌≡◌, map, string_bytes};
ghost use Rattle.uvisor_run.specs.Output.{command_named, command_of, making_named, making_of};

use workload::input_number;

/// A command that reads an input.
#[derive(Clone, Copy, PartialEq, Eq, Debug)]
pub enum Command {
    Script,
    Check,
}

// The command that this word is.
fn command_named(word: &str) -> Option<Command>
    ensures { result ≡ command_named word.now }
{
    if word == "script" {
        Some(Command::Script)
    } else if word == "check" {
        Some(Command::Check)
    } else {
        None
    }
}

/// The command that the words after the program's name are, where they are one.
pub fn command_of(words: &Vec<String>) -> Option<Command>
    ensures { result ≡ command_of (map string_bytes words.now.items) }
{
    match words.as_slice() {
        [word] => command_named(word.as_str()),
        _ => None,
    }
}

/// A command that makes its input and reads none.
#[derive(Clone, Copy, PartialEq, Eq, Debug)]
pub enum Making {
    /// Writes the input that is made from this number.
    Make(u32),
    /// Runs it, and writes the counts of its log.
    Tally(u32),
}

// The command of this word and this number that makes its input.
fn making_named(word: &str, n: u32) -> Option<Making>
    ensures { result ≡ making_named word.now n }
{
    if word == "make" {
        Some(Making::Make(n))
    } else if word == "tally" {
        Some(Making::Tally(n))
    } else {
        None
    }
}

/// The command that makes its input that the words after the program's name are, where they are
/// one.
pub fn making_of(words: &Vec<String>) -> Option<Making>
    ensures { result ≡ making_of (map string_bytes words.now.items) }
{
    match words.as_slice() {
        [word, number] => match input_number(number.as_str()) {
            Some(n) => making_named(word.as_str(), n),
            None => None,
        },
        _ => None,
    }
}

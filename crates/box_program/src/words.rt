ghost use Rattle.std.specs.Prelude.{◌≡◌, length, slice_get};
ghost use Rattle.std.specs.Option.{option_copied};
ghost use Rattle.box_program.specs.Words.{is_line_feed, is_semicolon, is_blank, has_bytes, code_part, words};

/// Whether the byte separates lines.
#[tactic(auto, unfolding(crate::specs::Words::is_line_feed))]
pub fn is_line_feed(b: u8) -> bool
    ensures { result ≡ is_line_feed b }
{
    b == b'\n'
}

// Whether the byte begins a comment.
#[tactic(auto, unfolding(crate::specs::Words::is_semicolon))]
fn is_semicolon(b: u8) -> bool
    ensures { result ≡ is_semicolon b }
{
    b == b';'
}

// Whether the byte separates words.
#[tactic(auto, unfolding(crate::specs::Words::is_blank))]
fn is_blank(b: u8) -> bool
    ensures { result ≡ is_blank b }
{
    b == b' ' || b == b'\t' || b == b'\r'
}

// Whether a piece between blanks is a word.
#[tactic(auto, unfolding(crate::specs::Words::has_bytes))]
fn has_bytes(word: &[u8]) -> bool
    ensures { result ≡ has_bytes word.now }
{
    !word.is_empty()
}

// What stands before a line's comment.
#[tactic(auto, unfolding(crate::specs::Words::code_part))]
fn code_part(line: &[u8]) -> &[u8]
    ensures { result.now ≡ code_part line.now }
{
    for (i, b) in line.iter().enumerate() {
        if is_semicolon(*b) {
            return &line[..i];
        }
    }
    line
}

/// The word of a line at a place.
#[tactic(auto, unfolding(crate::specs::Words::words))]
pub fn word_at(line: &[u8], place: usize) -> Option<&[u8]>
    ensures { option_copied result ≡ slice_get (words line.now) place }
{
    code_part(line)
        .split(|b| is_blank(*b))
        .filter(|word| has_bytes(word))
        .nth(place)
}

/// How many words a line has.
#[tactic(auto, unfolding(crate::specs::Words::words))]
pub fn word_count(line: &[u8]) -> usize
    ensures { result ≡ length (words line.now) }
{
    code_part(line)
        .split(|b| is_blank(*b))
        .filter(|word| has_bytes(word))
        .count()
}

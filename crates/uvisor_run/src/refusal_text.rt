ghost use Rattle.std.specs.Prelude.{◌≡◌, ◌+◌, ◌≤◌, [], ◌∷◌, ◌++◌, length};
ghost use Rattle.board_map.specs.Keys.{key_name};
ghost use Rattle.run_log.specs.Spaced.{spaced};
ghost use Rattle.uvisor_run.specs.RefusalText.{at_box, at_grant, at_key, numbered, place_in_box, refusal_line, refusal_words, spot_words};

use board_map::key_name;
use flat_model::{Key, Refused, Spot};
use run_log::Page;

// Prints a word with a space before it.
fn push_word(word: &str, page: &mut Page)
    requires short { length word.now ≤ 16 }
    requires room { length page.old + 17 ≤ 4096 }
    ensures text { page.new ≡ page.old ++ spaced (word.now ∷ []) }
    ensures long { length page.new ≤ length page.old + 17 }
{
    page.push_byte(b' ');
    page.push_bytes(word.as_bytes());
}

// Prints what is counted, and its number.
fn push_numbered(name: &str, n: u32, page: &mut Page)
    requires short { length name.now ≤ 16 }
    requires room { length page.old + 28 ≤ 4096 }
    ensures text { page.new ≡ page.old ++ spaced (numbered name.now n) }
    ensures long { length page.new ≤ length page.old + 28 }
{
    push_word(name, page);
    page.push_byte(b' ');
    page.push_decimal(n);
}

// Prints a place in a box: the box, what is counted there, and its number.
fn push_place(i: u32, name: &str, j: u32, page: &mut Page)
    requires short { length name.now ≤ 16 }
    requires room { length page.old + 56 ≤ 4096 }
    ensures text { page.new ≡ page.old ++ spaced (place_in_box i name.now j) }
    ensures long { length page.new ≤ length page.old + 56 }
{
    push_numbered("box", i, page);
    push_numbered(name, j, page);
}

// Prints a place in the input.
fn push_spot(spot: Spot, page: &mut Page)
    requires { length page.old + 56 ≤ 4096 }
    ensures text { page.new ≡ page.old ++ spaced (spot_words spot) }
    ensures long { length page.new ≤ length page.old + 56 }
{
    match spot {
        Spot::Top => push_word("top", page),
        Spot::Board => push_word("board", page),
        Spot::Heap => push_word("heap", page),
        Spot::AtBox(i) => push_numbered("box", i, page),
        Spot::Thread(i, j) => push_place(i, "thread", j, page),
        Spot::Grant(i, j) => push_place(i, "grant", j, page),
        Spot::Irq(i, j) => push_place(i, "irq", j, page),
        Spot::Register(k) => push_numbered("register", k, page),
        Spot::Gateway(k) => push_numbered("gateway", k, page),
        Spot::Device(k) => push_numbered("device", k, page),
    }
}

// The name of a key, which is short.
#[tactic(auto, using(crate::proofs::WordLengths::key_name_short))]
fn short_key(key: Key) -> &'static str
    ensures text { result.now ≡ key_name key }
    ensures short { length result.now ≤ 16 }
{
    key_name(key)
}

// Prints the name of a key.
fn push_key(key: Key, page: &mut Page)
    requires { length page.old + 17 ≤ 4096 }
    ensures text { page.new ≡ page.old ++ spaced (key_name key ∷ []) }
    ensures long { length page.new ≤ length page.old + 17 }
{
    push_word(short_key(key), page);
}

// Prints a refusal of a key at a place.
fn push_at_key(name: &str, spot: Spot, key: Key, page: &mut Page)
    requires short { length name.now ≤ 16 }
    requires room { length page.old + 90 ≤ 4096 }
    ensures text { page.new ≡ page.old ++ spaced (at_key name.now spot key) }
    ensures long { length page.new ≤ length page.old + 90 }
{
    push_word(name, page);
    push_spot(spot, page);
    push_key(key, page);
}

// Prints a refusal of a place.
fn push_at_spot(name: &str, spot: Spot, page: &mut Page)
    requires short { length name.now ≤ 16 }
    requires room { length page.old + 90 ≤ 4096 }
    ensures text { page.new ≡ page.old ++ spaced (name.now ∷ spot_words spot) }
    ensures long { length page.new ≤ length page.old + 90 }
{
    push_word(name, page);
    push_spot(spot, page);
}

// Prints a refusal of a box.
fn push_at_box(name: &str, i: u32, page: &mut Page)
    requires short { length name.now ≤ 16 }
    requires room { length page.old + 90 ≤ 4096 }
    ensures text { page.new ≡ page.old ++ spaced (at_box name.now i) }
    ensures long { length page.new ≤ length page.old + 90 }
{
    push_word(name, page);
    push_numbered("box", i, page);
}

// Prints a refusal of something in a box.
fn push_at_place(name: &str, i: u32, inner: &str, j: u32, page: &mut Page)
    requires short { length name.now ≤ 16 }
    requires short_inner { length inner.now ≤ 16 }
    requires room { length page.old + 90 ≤ 4096 }
    ensures text { page.new ≡ page.old ++ spaced (name.now ∷ place_in_box i inner.now j) }
    ensures long { length page.new ≤ length page.old + 90 }
{
    push_word(name, page);
    push_place(i, inner, j, page);
}

// Prints a refusal of a grant of a box.
fn push_at_grant(name: &str, i: u32, j: u32, page: &mut Page)
    requires short { length name.now ≤ 16 }
    requires room { length page.old + 90 ≤ 4096 }
    ensures text { page.new ≡ page.old ++ spaced (at_grant name.now i j) }
    ensures long { length page.new ≤ length page.old + 90 }
{
    push_at_place(name, i, "grant", j, page);
}

// Prints a refusal of something counted in the whole input.
fn push_at_number(name: &str, what: &str, n: u32, page: &mut Page)
    requires short { length name.now ≤ 16 }
    requires short_what { length what.now ≤ 16 }
    requires room { length page.old + 90 ≤ 4096 }
    ensures text { page.new ≡ page.old ++ spaced (name.now ∷ numbered what.now n) }
    ensures long { length page.new ≤ length page.old + 90 }
{
    push_word(name, page);
    push_numbered(what, n, page);
}

// Prints the refusal of a line of a program.
fn push_bad_program(i: u32, j: u32, line: u32, page: &mut Page)
    requires { length page.old + 110 ≤ 4096 }
    ensures text { page.new ≡ page.old ++ spaced (refusal_words (Refused.BadProgram i j line)) }
    ensures long { length page.new ≤ length page.old + 110 }
{
    push_word("BadProgram", page);
    push_place(i, "thread", j, page);
    push_numbered("line", line, page);
}

// Prints the refusal of a key of the board.
fn push_at_key_name(key: Key, page: &mut Page)
    requires { length page.old + 90 ≤ 4096 }
    ensures text { page.new ≡ page.old ++ spaced (refusal_words (Refused.BadBoard key)) }
    ensures long { length page.new ≤ length page.old + 90 }
{
    push_word("BadBoard", page);
    push_key(key, page);
}

// Prints the words of a refusal, each with a space before it.
fn push_words(refusal: Refused, page: &mut Page)
    requires { length page.old + 110 ≤ 4096 }
    ensures text { page.new ≡ page.old ++ spaced (refusal_words refusal) }
    ensures long { length page.new ≤ length page.old + 110 }
{
    match refusal {
        Refused::TooLong => push_word("TooLong", page),
        Refused::NotToml => push_word("NotToml", page),
        Refused::UnknownKey { spot } => push_at_spot("UnknownKey", spot, page),
        Refused::MissingKey { spot, key } => push_at_key("MissingKey", spot, key, page),
        Refused::BadValue { spot, key } => push_at_key("BadValue", spot, key, page),
        Refused::TooMany { spot, key } => push_at_key("TooMany", spot, key, page),
        Refused::BadBoard { key } => push_at_key_name(key, page),
        Refused::BadName { at_box } => push_at_box("BadName", at_box, page),
        Refused::TwiceNamed { at_box } => push_at_box("TwiceNamed", at_box, page),
        Refused::NoRoom { at_box } => push_at_box("NoRoom", at_box, page),
        Refused::BadGrant { at_box, grant } => push_at_grant("BadGrant", at_box, grant, page),
        Refused::GrantOutside { at_box, grant } => push_at_grant(
            "GrantOutside",
            at_box,
            grant,
            page,
        ),
        Refused::SelfOverlap { at_box, grant } => push_at_grant("SelfOverlap", at_box, grant, page),
        Refused::Clash { first, second } => push_at_place("Clash", first, "box", second, page),
        Refused::LineTaken { at_box, irq } => push_at_place("LineTaken", at_box, "irq", irq, page),
        Refused::BadGateway { spot } => push_at_spot("BadGateway", spot, page),
        Refused::NoServer { gateway } => push_at_number("NoServer", "gateway", gateway, page),
        Refused::BadProgram {
            at_box,
            thread,
            line,
        } => push_bad_program(at_box, thread, line, page),
        Refused::BadDevice { device } => push_at_number("BadDevice", "device", device, page),
        Refused::BadScript { at } => push_at_number("BadScript", "script", at, page),
    }
}

/// Prints the line of a refusal (docs/INPUT.md).
#[tactic(auto, unfolding(crate::specs::RefusalText::refusal_line))]
pub fn push_refusal(refusal: Refused, page: &mut Page)
    requires { length page.old + 120 ≤ 4096 }
    ensures { page.new ≡ page.old ++ refusal_line refusal }
{
    page.push_bytes(b"refused");
    push_words(refusal, page);
    page.push_byte(b'\n');
}

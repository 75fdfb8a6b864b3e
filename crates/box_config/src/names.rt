ghost use Rattle.std.specs.Prelude.{◌≡◌, [], not};
ghost use Rattle.std.specs.List.{list_all};
ghost use Rattle.flat_model.specs.First.{first_after, first_index};
ghost use Rattle.flat_model.specs.Names.{is_lower, is_name, is_name_byte};
ghost use Rattle.box_config.specs.Names.{is_named_among, name_refusal};

use board_map::number;
use flat_model::{BoxText, Refused};

// Whether the byte is a lower-case letter.
fn is_lower(byte: u8) -> bool
    ensures { result ≡ is_lower byte }
{
    b'a' <= byte && byte <= b'z'
}

// Whether a name may have the byte after its first.
fn is_name_byte(byte: u8) -> bool
    ensures { result ≡ is_name_byte byte }
{
    is_lower(byte) || b'0' <= byte && byte <= b'9' || byte == b'_'
}

// Whether a name may have each of the bytes after its first.
fn are_name_bytes(bytes: &[u8]) -> bool
    ensures { result ≡ list_all is_name_byte bytes.now }
{
    bytes.iter().all(|byte| is_name_byte(*byte))
}

// Whether a name is a lower-case letter and at most 15 lower-case letters, digits or `_`.
fn is_name(name: &[u8]) -> bool
    ensures { result ≡ is_name name.now }
{
    match name {
        [first, rest @ ..] => is_lower(*first) && rest.len() <= 15 && are_name_bytes(rest),
        [] => false,
    }
}

// Whether one of the boxes has the name.
fn is_named_among(name: &str, boxes: &[BoxText]) -> bool
    ensures { result ≡ is_named_among name.now boxes.now }
{
    for other in boxes {
        if other.name.as_str() == name {
            return true;
        }
    }
    false
}

// The place of the first box whose name is bad.
fn first_bad(boxes: &[BoxText]) -> Option<u32>
    ensures { result ≡ first_index (λ b. not (is_name b.name)) 0 boxes.now }
{
    for (i, part) in boxes.iter().enumerate() {
        if !is_name(part.name.as_str().as_bytes()) {
            return Some(number(i));
        }
    }
    None
}

// The place of the first box that has the name of an earlier one.
fn first_twice(boxes: &[BoxText]) -> Option<u32>
    ensures { result ≡ first_after (λ earlier b. is_named_among b.name earlier) 0 [] boxes.now }
{
    for (i, part) in boxes.iter().enumerate() {
        if is_named_among(part.name.as_str(), &boxes[..i]) {
            return Some(number(i));
        }
    }
    None
}

/// What the names of the boxes are refused for.
#[tactic(auto, unfolding(crate::specs::Names::name_refusal))]
pub fn name_refusal(boxes: &[BoxText]) -> Option<Refused>
    ensures { result ≡ name_refusal boxes.now }
{
    if let Some(at_box) = first_bad(boxes) {
        return Some(Refused::BadName { at_box });
    }
    let at_box = first_twice(boxes)?;
    Some(Refused::TwiceNamed { at_box })
}

ghost use Rattle.std.specs.Prelude.{◌≡◌, ◌+◌, ◌<◌, ◌≤◌, true, [], ◌∷◌, ◌++◌, length, Ok};
ghost use Rattle.std.specs.Fmt.{decimal, digit_glyph};
ghost use Rattle.flat_model.specs.Operands.{IsValidInstr};
ghost use Rattle.box_program.specs.Opcodes.{row};
ghost use Rattle.box_program.specs.Program.{program};
ghost use Rattle.box_program.specs.Shown.{hexadecimal_digits, operand_text, operand_text_at, text_of_parts, text_of_instruction};

use crate::opcodes::{Opcode, Operand, Parts};
use arrayvec::ArrayString;
use flat_model::Instr;

// Writes a byte.
#[tactic(auto, using(std::proofs::lemmas::Str::Ascii::encode_ascii))]
fn push_byte(byte: u8, out: &mut ArrayString<80>)
    requires ascii { byte < 128 }
    requires room { length out.old.bytes < 80 }
    ensures text { out.new.bytes ≡ out.old.bytes ++ byte ∷ [] }
    ensures long { length out.new.bytes ≡ length out.old.bytes + 1 }
{
    out.push(char::from(byte));
}

// A digit from 0 to 9 or from A to F.
fn hexadecimal_digit(digit: u32) -> u8
    requires { digit < 16 }
    ensures value { result ≡ digit_glyph true digit }
    ensures ascii { result < 128 }
{
    if digit < 10 {
        b'0' + digit as u8
    } else {
        b'A' - 10 + digit as u8
    }
}

// Writes so many hexadecimal digits, the lowest last.
#[tactic(auto, unfolding(crate::specs::Shown::hexadecimal_digits))]
fn push_hexadecimal(n: u32, digits: usize, out: &mut ArrayString<80>)
    requires { length out.old.bytes + digits ≤ 80 }
    ensures text { out.new.bytes ≡ out.old.bytes ++ hexadecimal_digits digits n }
    ensures long { length out.new.bytes ≡ length out.old.bytes + digits }
{
    if digits > 0 {
        push_hexadecimal(n / 16, digits - 1, out);
        push_byte(hexadecimal_digit(n % 16), out);
    }
}

// Writes a number without leading zeros.
#[tactic(auto, using(std::proofs::lemmas::Fmt::decimal_digit, crate::proofs::DecimalLemmas::decimal_ends, crate::proofs::DecimalLemmas::decimal_longer))]
fn push_decimal(n: u32, out: &mut ArrayString<80>)
    requires { length out.old.bytes + length (decimal n) ≤ 80 }
    ensures text { out.new.bytes ≡ out.old.bytes ++ decimal n }
    ensures long { length out.new.bytes ≡ length out.old.bytes + length (decimal n) }
{
    if n < 10 {
        push_byte(b'0' + n as u8, out);
    } else {
        push_decimal(n / 10, out);
        push_byte(b'0' + (n % 10) as u8, out);
    }
}

impl Operand {
    // Writes a value of the operand.
    #[tactic(auto, using(crate::proofs::DecimalLemmas::decimal_short), unfolding(crate::specs::Shown::operand_text))]
    fn show(self, n: u32, out: &mut ArrayString<80>)
        requires { length out.old.bytes + 11 ≤ 80 }
        ensures text { out.new.bytes ≡ out.old.bytes ++ operand_text self n }
        ensures long { length out.new.bytes ≤ length out.old.bytes + 11 }
    {
        match self {
            Operand::Register => {
                push_byte(b'r', out);
                push_decimal(n, out);
            }
            Operand::Word => {
                out.push_str("0x");
                push_hexadecimal(n, 8, out);
            }
            Operand::Small => push_decimal(n, out),
            Operand::Looks => push_decimal(n, out),
        }
    }
}

impl Opcode {
    // Writes a space and a value of the operand at a place, where there is one.
    #[tactic(auto, unfolding(crate::specs::Shown::operand_text_at))]
    fn show_operand(self, place: usize, n: u32, out: &mut ArrayString<80>)
        requires { length out.old.bytes + 12 ≤ 80 }
        ensures text { out.new.bytes
            ≡ out.old.bytes ++ operand_text_at (row self).operands place n }
        ensures long { length out.new.bytes ≤ length out.old.bytes + 12 }
    {
        if let Some(operand) = self.operands().get(place) {
            push_byte(b' ', out);
            operand.show(n, out);
        }
    }
}

/// Shows an instruction: writes the one spelling of it.
#[tactic(auto, unfolding(crate::specs::Shown::text_of_instruction, crate::specs::Shown::text_of_parts))]
pub fn show(instr: &Instr, out: &mut ArrayString<80>)
    requires valid { IsValidInstr instr.now }
    requires empty { out.old.bytes ≡ [] }
    ensures text { out.new.bytes ≡ text_of_instruction instr.now }
    ensures read { program out.new.bytes ≡ Ok (instr.now ∷ []) }
{
    let parts = Parts::of(instr);
    out.push_str(parts.opcode.word());
    parts.opcode.show_operand(0, parts.first, out);
    parts.opcode.show_operand(1, parts.second, out);
    parts.opcode.show_operand(2, parts.third, out);
}

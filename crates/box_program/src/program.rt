ghost use Rattle.std.specs.Prelude.{◌≡◌, ◌≤◌, All, IfOk, vec_len};
ghost use Rattle.flat_model.specs.Operands.{IsValidInstr};
ghost use Rattle.box_program.specs.Words.{words};
ghost use Rattle.box_program.specs.Opcodes.{row};
ghost use Rattle.box_program.specs.Program.{operand_at, instruction_with, instruction, bad_line, program, Assembles};
ghost use Rattle.box_program.specs.Steps.{with_line, Pushes};
ghost use Rattle.flat_model.specs.declared.instructions.AssembleErr.TheVariants.{Bad};

use crate::opcodes::Opcode;
use crate::words::{is_line_feed, word_at, word_count};
use flat_model::{AssembleErr, BadLine, Instr, Why};
use std::alloc::Global;

// The most instructions that a program has.
const MOST_INSTRUCTIONS: usize = 256;

impl Opcode {
    // The value of the operand at a place of a line, and 0 past the operands.
    #[tactic(auto, unfolding(crate::specs::Program::operand_at))]
    fn read_operand(self, line: &[u8], place: usize) -> Result<u32, Why>
        requires { place ≤ 2 }
        ensures { result ≡ operand_at (row self).operands (words line.now) place }
    {
        match self.operands().get(place) {
            Some(operand) => operand.read(word_at(line, place + 1).ok_or(Why::Count)?),
            None => Ok(0),
        }
    }

    // The instruction of the kind that a line gives: its operands are read from the left.
    #[tactic(auto, using(crate::proofs::ValidLemmas::valid_from_operands), unfolding(crate::specs::Program::instruction_with))]
    fn read(self, line: &[u8]) -> Result<Instr, Why>
        ensures { result ≡ instruction_with self (words line.now) }
    {
        let a = self.read_operand(line, 0)?;
        let b = self.read_operand(line, 1)?;
        let c = self.read_operand(line, 2)?;
        Ok(self.make(a, b, c))
    }
}

// The instruction that a line gives.
#[tactic(auto, unfolding(crate::specs::Program::instruction))]
fn instruction(line: &[u8]) -> Result<Instr, Why>
    ensures { result ≡ instruction (words line.now) }
{
    let word = word_at(line, 0).ok_or(Why::Word)?;
    let opcode = Opcode::of_word(word).ok_or(Why::Word)?;
    if word_count(line) - 1 == opcode.operands().len() {
        opcode.read(line)
    } else {
        Err(Why::Count)
    }
}

// The refusal of a line, by its number and its cause.
#[tactic(auto, unfolding(crate::specs::Program::bad_line))]
fn bad_line(line: u32, why: Why) -> AssembleErr
    ensures { result ≡ Bad (bad_line line why) }
{
    AssembleErr::Bad(BadLine { line, why })
}

// Adds the instruction of one more line, if the line has words.
#[tactic(auto, unfolding(crate::specs::Steps::with_line, crate::specs::Steps::with_statement, crate::specs::Program::instruction_at))]
fn push_line(program: &mut Vec<Instr>, number: u32, line: &[u8]) -> Result<(), AssembleErr>
    ensures { Pushes (with_line program.old.items number line.now) program.new.items result }
{
    if word_count(line) == 0 {
        return Ok(());
    }
    if program.len() >= MOST_INSTRUCTIONS {
        return Err(bad_line(number, Why::TooMany));
    }
    match instruction(line) {
        Ok(instr) => program.push(instr).map_err(|_| AssembleErr::Memory),
        Err(why) => Err(bad_line(number, why)),
    }
}

/// The program of a text, or its first bad line and why that line is refused.
pub fn assemble(alloc: Global, text: &str) -> Result<Vec<Instr>, AssembleErr>
    ensures exact { Assembles (program text.now) result }
    ensures valid { IfOk result (λ v. All IsValidInstr v.items) }
    ensures few { IfOk result (λ v. vec_len v ≤ 256) }
{
    let mut program = Vec::new(alloc);
    let mut number: u32 = 0;
    for line in text.as_bytes().split(|b| is_line_feed(*b)) {
        number = number.saturating_add(1);
        push_line(&mut program, number, line)?;
    }
    Ok(program)
}

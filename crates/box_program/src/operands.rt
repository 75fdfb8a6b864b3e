ghost use Rattle.std.specs.Prelude.{◌≡◌};
ghost use Rattle.box_program.specs.Numbers.{number};
ghost use Rattle.box_program.specs.Program.{register, number_within, operand};

use crate::numbers::number;
use crate::opcodes::Operand;
use flat_model::Why;

// The register that a word names.
#[tactic(auto, unfolding(crate::specs::Program::register))]
fn register(word: &[u8]) -> Option<u32>
    ensures { result ≡ register word.now }
{
    if word.len() == 2 && word[0] == b'r' && word[1] >= b'0' && word[1] <= b'7' {
        Some(u32::from(word[1] - b'0'))
    } else {
        None
    }
}

// The number that a word writes, where it is between two bounds.
#[tactic(auto, unfolding(crate::specs::Program::number_within))]
fn number_within(low: u32, high: u32, word: &[u8]) -> Option<u32>
    ensures { result ≡ number_within low high (number word.now) }
{
    let n = u32::try_from(number(word)?).ok()?;
    (low <= n && n <= high).then_some(n)
}

impl Operand {
    /// The value of a word as an operand.
    #[tactic(auto, unfolding(crate::specs::Program::operand))]
    pub fn read(self, word: &[u8]) -> Result<u32, Why>
        ensures { result ≡ operand self word.now }
    {
        match self {
            Operand::Register => register(word).ok_or(Why::Register),
            Operand::Word => number_within(0, 0xFFFF_FFFF, word).ok_or(Why::Number),
            Operand::Small => number_within(0, 0xFFFF, word).ok_or(Why::Number),
            Operand::Looks => number_within(1, 0xFFFF, word).ok_or(Why::Number),
        }
    }
}

ghost use Rattle.std.specs.Prelude.{◌≡◌, ◌≤◌, length, find, map};
ghost use Rattle.flat_model.specs.Operands.{IsValidInstr};
ghost use Rattle.box_program.specs.Opcodes.{row, is_named, opcode_of, parts, parts_of};

use flat_model::Instr;

/// What an operand is (docs/PROGRAMS.md): a register, a word, a small number, or a count of looks,
/// which is a small number that is not 0.
#[derive(Clone, Copy)]
pub enum Operand {
    Register,
    Word,
    Small,
    Looks,
}

/// A kind of instruction: an instruction without its operands.
#[derive(Clone, Copy)]
pub enum Opcode {
    Set,
    Mov,
    Add,
    Sub,
    And,
    Orr,
    Eor,
    Load8,
    Load16,
    Load32,
    Store8,
    Store16,
    Store32,
    Exec,
    Jump,
    Jz,
    Jnz,
    BoxId,
    PagesAlloc,
    PageFree,
    IrqOn,
    IrqOff,
    IrqReturn,
    GwRead,
    GwWrite,
    RpcCall,
    RpcSync,
    RpcTake,
    RpcReturn,
    RpcResult,
    Halt,
}

/// An instruction taken apart: its kind, and three numbers, which are its operands and 0 past them.
#[derive(Clone, Copy)]
pub struct Parts {
    pub opcode: Opcode,
    pub first: u32,
    pub second: u32,
    pub third: u32,
}

// A row of the table of instructions: a kind, its word, and its operands from the left.
#[derive(Clone, Copy)]
struct Row {
    opcode: Opcode,
    word: &'static str,
    operands: &'static [Operand],
}

// A row on one line.
macro_rules! row {
    ($opcode:ident, $word:literal, [$($operand:ident),*]) => {
        Row { opcode: Opcode::$opcode, word: $word, operands: &[$(Operand::$operand),*] }
    };
}

// The table of instructions, in the order in which `Opcode` names the kinds.
static TABLE: [Row; 31] = [
    row!(Set, "set", [Register, Word]),
    row!(Mov, "mov", [Register, Register]),
    row!(Add, "add", [Register, Register, Register]),
    row!(Sub, "sub", [Register, Register, Register]),
    row!(And, "and", [Register, Register, Register]),
    row!(Orr, "orr", [Register, Register, Register]),
    row!(Eor, "eor", [Register, Register, Register]),
    row!(Load8, "load8", [Register, Register, Word]),
    row!(Load16, "load16", [Register, Register, Word]),
    row!(Load32, "load32", [Register, Register, Word]),
    row!(Store8, "store8", [Register, Register, Word]),
    row!(Store16, "store16", [Register, Register, Word]),
    row!(Store32, "store32", [Register, Register, Word]),
    row!(Exec, "exec", [Register, Word]),
    row!(Jump, "jump", [Small]),
    row!(Jz, "jz", [Register, Small]),
    row!(Jnz, "jnz", [Register, Small]),
    row!(BoxId, "box_id", [Register]),
    row!(PagesAlloc, "pages_alloc", [Register, Register]),
    row!(PageFree, "page_free", [Register]),
    row!(IrqOn, "irq_on", [Small]),
    row!(IrqOff, "irq_off", [Small]),
    row!(IrqReturn, "irq_return", []),
    row!(GwRead, "gw_read", [Register, Small]),
    row!(GwWrite, "gw_write", [Register, Small]),
    row!(RpcCall, "rpc_call", [Register, Small]),
    row!(RpcSync, "rpc_sync", [Small, Looks]),
    row!(RpcTake, "rpc_take", []),
    row!(RpcReturn, "rpc_return", [Register]),
    row!(RpcResult, "rpc_result", [Register, Register]),
    row!(Halt, "halt", []),
];

impl Opcode {
    // The row of the kind.
    #[tactic(auto, unfolding(crate::specs::Opcodes::row))]
    fn row(self) -> &'static Row
        ensures word { result.now.word.now ≡ (row self).word }
        ensures short { length result.now.word.now ≤ 11 }
        ensures operands { result.now.operands.now ≡ (row self).operands }
    {
        &TABLE[self as usize]
    }

    /// The word of the instruction.
    pub fn word(self) -> &'static str
        ensures word { result.now ≡ (row self).word }
        ensures short { length result.now ≤ 11 }
    {
        self.row().word
    }

    /// The operands of the instruction, from the left.
    pub fn operands(self) -> &'static [Operand]
        ensures { result.now ≡ (row self).operands }
    {
        self.row().operands
    }

    /// The kind of instruction that a word names.
    #[tactic(auto, unfolding(crate::specs::Opcodes::opcodes, crate::specs::Opcodes::opcode_of))]
    pub fn of_word(word: &[u8]) -> Option<Opcode>
        ensures { result ≡ opcode_of word.now }
    {
        Opcode::first_named(&TABLE, word)
    }

    // The kind of the first row that a word names.
    fn first_named(rows: &[Row], word: &[u8]) -> Option<Opcode>
        ensures { result
            ≡ find (λ opcode. is_named opcode word.now) (map (λ row. row.opcode) rows.now) }
    {
        rows.iter()
            .map(|row| row.opcode)
            .find(|opcode| opcode.is_named(word))
    }

    // Whether the word names the instruction.
    #[tactic(auto, unfolding(crate::specs::Opcodes::is_named))]
    fn is_named(self, word: &[u8]) -> bool
        ensures { result ≡ is_named self word.now }
    {
        self.word().as_bytes() == word
    }

    /// The instruction with these operands. It has as many of the three numbers as it has operands.
    #[tactic(auto, unfolding(crate::specs::Opcodes::row))]
    pub fn make(self, a: u32, b: u32, c: u32) -> Instr
        requires { IsValidInstr ((row self).make a b c) }
        ensures { result ≡ (row self).make a b c }
    {
        match self {
            Opcode::Set => Instr::Set(a as u8, b),
            Opcode::Mov => Instr::Mov(a as u8, b as u8),
            Opcode::Add => Instr::Add(a as u8, b as u8, c as u8),
            Opcode::Sub => Instr::Sub(a as u8, b as u8, c as u8),
            Opcode::And => Instr::And(a as u8, b as u8, c as u8),
            Opcode::Orr => Instr::Orr(a as u8, b as u8, c as u8),
            Opcode::Eor => Instr::Eor(a as u8, b as u8, c as u8),
            Opcode::Load8 => Instr::Load8(a as u8, b as u8, c),
            Opcode::Load16 => Instr::Load16(a as u8, b as u8, c),
            Opcode::Load32 => Instr::Load32(a as u8, b as u8, c),
            Opcode::Store8 => Instr::Store8(a as u8, b as u8, c),
            Opcode::Store16 => Instr::Store16(a as u8, b as u8, c),
            Opcode::Store32 => Instr::Store32(a as u8, b as u8, c),
            Opcode::Exec => Instr::Exec(a as u8, b),
            Opcode::Jump => Instr::Jump(a),
            Opcode::Jz => Instr::Jz(a as u8, b),
            Opcode::Jnz => Instr::Jnz(a as u8, b),
            Opcode::BoxId => Instr::BoxId(a as u8),
            Opcode::PagesAlloc => Instr::PagesAlloc(a as u8, b as u8),
            Opcode::PageFree => Instr::PageFree(a as u8),
            Opcode::IrqOn => Instr::IrqOn(a),
            Opcode::IrqOff => Instr::IrqOff(a),
            Opcode::IrqReturn => Instr::IrqReturn,
            Opcode::GwRead => Instr::GwRead(a as u8, b),
            Opcode::GwWrite => Instr::GwWrite(a as u8, b),
            Opcode::RpcCall => Instr::RpcCall(a as u8, b),
            Opcode::RpcSync => Instr::RpcSync(a, b),
            Opcode::RpcTake => Instr::RpcTake,
            Opcode::RpcReturn => Instr::RpcReturn(a as u8),
            Opcode::RpcResult => Instr::RpcResult(a as u8, b as u8),
            Opcode::Halt => Instr::Halt,
        }
    }

    // The parts of an instruction of the kind.
    fn parts(self, first: u32, second: u32, third: u32) -> Parts
        ensures { result ≡ parts self first second third }
    {
        Parts {
            opcode: self,
            first,
            second,
            third,
        }
    }
}

impl Parts {
    /// An instruction taken apart.
    #[tactic(auto, unfolding(crate::specs::Opcodes::parts_of))]
    pub fn of(instr: &Instr) -> Parts
        ensures { result ≡ parts_of instr.now }
    {
        match *instr {
            Instr::Set(d, w) => Opcode::Set.parts(u32::from(d), w, 0),
            Instr::Mov(d, s) => Opcode::Mov.parts(u32::from(d), u32::from(s), 0),
            Instr::Add(d, a, b) => Opcode::Add.parts(u32::from(d), u32::from(a), u32::from(b)),
            Instr::Sub(d, a, b) => Opcode::Sub.parts(u32::from(d), u32::from(a), u32::from(b)),
            Instr::And(d, a, b) => Opcode::And.parts(u32::from(d), u32::from(a), u32::from(b)),
            Instr::Orr(d, a, b) => Opcode::Orr.parts(u32::from(d), u32::from(a), u32::from(b)),
            Instr::Eor(d, a, b) => Opcode::Eor.parts(u32::from(d), u32::from(a), u32::from(b)),
            Instr::Load8(d, a, w) => Opcode::Load8.parts(u32::from(d), u32::from(a), w),
            Instr::Load16(d, a, w) => Opcode::Load16.parts(u32::from(d), u32::from(a), w),
            Instr::Load32(d, a, w) => Opcode::Load32.parts(u32::from(d), u32::from(a), w),
            Instr::Store8(s, a, w) => Opcode::Store8.parts(u32::from(s), u32::from(a), w),
            Instr::Store16(s, a, w) => Opcode::Store16.parts(u32::from(s), u32::from(a), w),
            Instr::Store32(s, a, w) => Opcode::Store32.parts(u32::from(s), u32::from(a), w),
            Instr::Exec(a, w) => Opcode::Exec.parts(u32::from(a), w, 0),
            Instr::Jump(n) => Opcode::Jump.parts(n, 0, 0),
            Instr::Jz(a, n) => Opcode::Jz.parts(u32::from(a), n, 0),
            Instr::Jnz(a, n) => Opcode::Jnz.parts(u32::from(a), n, 0),
            Instr::BoxId(d) => Opcode::BoxId.parts(u32::from(d), 0, 0),
            Instr::PagesAlloc(n, t) => Opcode::PagesAlloc.parts(u32::from(n), u32::from(t), 0),
            Instr::PageFree(a) => Opcode::PageFree.parts(u32::from(a), 0, 0),
            Instr::IrqOn(n) => Opcode::IrqOn.parts(n, 0, 0),
            Instr::IrqOff(n) => Opcode::IrqOff.parts(n, 0, 0),
            Instr::IrqReturn => Opcode::IrqReturn.parts(0, 0, 0),
            Instr::GwRead(d, n) => Opcode::GwRead.parts(u32::from(d), n, 0),
            Instr::GwWrite(s, n) => Opcode::GwWrite.parts(u32::from(s), n, 0),
            Instr::RpcCall(d, n) => Opcode::RpcCall.parts(u32::from(d), n, 0),
            Instr::RpcSync(n, m) => Opcode::RpcSync.parts(n, m, 0),
            Instr::RpcTake => Opcode::RpcTake.parts(0, 0, 0),
            Instr::RpcReturn(s) => Opcode::RpcReturn.parts(u32::from(s), 0, 0),
            Instr::RpcResult(d, s) => Opcode::RpcResult.parts(u32::from(d), u32::from(s), 0),
            Instr::Halt => Opcode::Halt.parts(0, 0, 0),
        }
    }
}

ghost use Rattle.std.specs.Prelude.{◌≡◌, ◌<◌, ◌*◌, ◌++◌, ◌^◌, OnOk};
ghost use Rattle.std.specs.Fmt.{decimal};
ghost use Rattle.workload.specs.Templates.{IsSmall, board_lines, box_lines, byte_text, filled, gateway_lines, grant_lines, head_lines, program_lines, word_line};

use addr_base::OutOfMemory;

/// What the capital letters of a template stand for.
#[derive(Clone, Copy, Debug)]
pub struct Letters {
    /// The number of the box: `I`, and `G` for the next.
    pub here: u8,
    /// The number of the grant: `J`.
    pub grant: u8,
    /// What was drawn: `D`, and `L` for the length of that power of two.
    pub drawn: u8,
}

/// The lines before the words of the script.
#[tactic(auto, unfolding(crate::specs::Templates::head_lines))]
pub fn head_lines() -> &'static [u8]
    ensures { result.now ≡ head_lines }
{
    b"format = 1\nscript = [\n"
}

/// The line of a word of the script.
#[tactic(auto, unfolding(crate::specs::Templates::word_line))]
pub fn word_line() -> &'static [u8]
    ensures { result.now ≡ word_line }
{
    b"\"wD.0\",\n"
}

/// The lines behind the words of the script, up to the first box.
#[tactic(auto, unfolding(crate::specs::Templates::board_lines))]
pub fn board_lines() -> &'static [u8]
    ensures { result.now ≡ board_lines }
{
    b"]
[board]
flash = [0x00000000, 0x00100000]
sram = [0x20000000, 0x00020000]
peripherals = [0x40000000, 0x00100000]
secret = [0x000F0000, 0x00010000]
heap = { base = 0x20010000, page = 256, count = 64 }
"
}

/// The lines of a box up to its program.
#[tactic(auto, unfolding(crate::specs::Templates::box_lines))]
pub fn box_lines() -> &'static [u8]
    ensures { result.now ≡ box_lines }
{
    b"[[box]]
name = \"wI\"
size = 256
[[box.thread]]
steps = 20000
program = \"\"\"
"
}

/// The lines of a box's program, and the one that ends it.
#[tactic(auto, unfolding(crate::specs::Templates::program_lines))]
pub fn program_lines() -> &'static [u8]
    ensures { result.now ≡ program_lines }
{
    b"set r6 0x20000I00
set r0 1
pages_alloc r0 r6
jnz r7 7
load32 r1 r6 0
store32 r0 r1 0
page_free r1
set r5 0x400I0000
store32 r6 r5 0x0000
store32 r6 r5 0x1000
store32 r6 r5 0x2000
store32 r6 r5 0x3000
store32 r6 r5 0x4000
store32 r6 r5 0x5000
rpc_call r2 G
store32 r2 r6 16
rpc_take
jnz r7 19
rpc_return r0
load32 r1 r6 16
rpc_result r2 r1
jump 0
\"\"\"
"
}

/// The lines of a grant.
#[tactic(auto, unfolding(crate::specs::Templates::grant_lines))]
pub fn grant_lines() -> &'static [u8]
    ensures { result.now ≡ grant_lines }
{
    b"[[box.grant]]
base = 0x400IJ000
len = L
rights = \"rw\"
"
}

/// The lines of a gateway.
#[tactic(auto, unfolding(crate::specs::Templates::gateway_lines))]
pub fn gateway_lines() -> &'static [u8]
    ensures { result.now ≡ gateway_lines }
{
    b"[[gateway]]
box = \"wI\"
function = I
callers = [\"w0\", \"w1\", \"w2\", \"w3\"]
"
}

// Appends bytes as they are.
fn append(bytes: &[u8], text: &mut Vec<u8>) -> Result<(), OutOfMemory>
    ensures { OnOk result (text.new.items ≡ text.old.items ++ bytes.now) }
{
    text.extend_from_slice(bytes)?;
    Ok(())
}

// Appends a number of one digit.
#[tactic(auto, using(std::proofs::lemmas::Fmt::decimal_digit))]
fn append_digit(n: u8, text: &mut Vec<u8>) -> Result<(), OutOfMemory>
    requires { n < 10 }
    ensures { OnOk result (text.new.items ≡ text.old.items ++ decimal n) }
{
    append(&[b'0' + n], text)
}

// The length of a grant of which this was drawn, in decimal.
fn length_text(drawn: u8) -> &'static [u8]
    requires { drawn < 4 }
    ensures { result.now ≡ decimal (32 * 2 ^ drawn) }
{
    if drawn == 0 {
        b"32"
    } else if drawn == 1 {
        b"64"
    } else if drawn == 2 {
        b"128"
    } else {
        b"256"
    }
}

// Appends what a byte of a template stands for.
fn append_byte(byte: u8, letters: &Letters, text: &mut Vec<u8>) -> Result<(), OutOfMemory>
    requires { IsSmall letters.now }
    ensures { OnOk result (text.new.items ≡ text.old.items ++ byte_text letters.now byte) }
{
    if byte == b'I' {
        append_digit(letters.here, text)
    } else if byte == b'G' {
        append_digit((letters.here + 1) % 4, text)
    } else if byte == b'J' {
        append_digit(letters.grant, text)
    } else if byte == b'D' {
        append_digit(letters.drawn, text)
    } else if byte == b'L' {
        append(length_text(letters.drawn), text)
    } else {
        append(&[byte], text)
    }
}

/// Appends a template with each letter replaced by what it stands for.
pub fn append_filled(
    template: &[u8],
    letters: &Letters,
    text: &mut Vec<u8>,
) -> Result<(), OutOfMemory>
    requires { IsSmall letters.now }
    ensures { OnOk result (text.new.items ≡ text.old.items ++ filled letters.now template.now) }
{
    'bytes: for byte in template {
        append_byte(*byte, letters, text)?;
    }
    Ok(())
}

/// Appends lines without letters.
pub fn append_lines(lines: &[u8], text: &mut Vec<u8>) -> Result<(), OutOfMemory>
    ensures { OnOk result (text.new.items ≡ text.old.items ++ lines.now) }
{
    append(lines, text)
}

ghost use Rattle.std.specs.Prelude.{◌≡◌, ◌+◌, ◌≤◌, ◌<◌, [], ◌∷◌, ◌++◌, length};
ghost use Rattle.flat_model.specs.Operands.{IsValidInstr};
ghost use Rattle.uvisor_run.specs.CheckText.{box_line, instruction_line, irq_text, item_text, letter, rights_text, server_line, thread_line};

use addr_base::Kind;
use arrayvec::ArrayString;
use box_program::show;
use flat_model::{Instr, IrqPart, Item, Rights};
use io_edge::{Sink, WriteErr};
use run_log::Page;

// Prints the letter of a right, where the right is there.
fn push_letter(is_there: bool, text: u8, page: &mut Page)
    requires { length page.old + 1 ≤ 4096 }
    ensures text { page.new ≡ page.old ++ letter is_there (text ∷ []) }
    ensures long { length page.new ≤ length page.old + 1 }
{
    if is_there {
        page.push_byte(text);
    }
}

// Prints rights by their letters.
fn push_rights(rights: Rights, page: &mut Page)
    requires { length page.old + 3 ≤ 4096 }
    ensures text { page.new ≡ page.old ++ rights_text rights }
    ensures long { length page.new ≤ length page.old + 3 }
{
    push_letter(rights.gives(Kind::Read), b'r', page);
    push_letter(rights.gives(Kind::Write), b'w', page);
    push_letter(rights.gives(Kind::Fetch), b'x', page);
}

/// Prints the line of an item.
pub fn push_item(item: Item, page: &mut Page)
    requires { length page.old + 256 ≤ 4096 }
    ensures { page.new ≡ page.old ++ item_text item }
{
    page.push_bytes(b"item ");
    push_rights(item.rights, page);
    page.push_byte(b' ');
    page.push_hex(item.range.base);
    page.push_byte(b' ');
    page.push_hex(item.range.len);
    page.push_byte(b'\n');
}

/// Prints the line of an interrupt line.
pub fn push_irq(irq: IrqPart, page: &mut Page)
    requires { length page.old + 256 ≤ 4096 }
    ensures { page.new ≡ page.old ++ irq_text irq }
{
    page.push_bytes(b"line ");
    page.push_decimal(u32::from(irq.line.0));
    page.push_bytes(b" handler ");
    page.push_decimal(irq.handler);
    page.push_byte(b'\n');
}

/// Prints the line of a box's name.
pub fn push_box(name: &[u8], page: &mut Page)
    requires short { length name.now ≤ 16 }
    requires room { length page.old + 256 ≤ 4096 }
    ensures { page.new ≡ page.old ++ box_line name.now }
{
    page.push_bytes(b"box ");
    page.push_bytes(name);
    page.push_byte(b'\n');
}

/// Prints the line of the index of a box's server.
pub fn push_server(k: u32, page: &mut Page)
    requires { length page.old + 256 ≤ 4096 }
    ensures { page.new ≡ page.old ++ server_line k }
{
    page.push_bytes(b"server ");
    page.push_decimal(k);
    page.push_byte(b'\n');
}

/// Prints the line of a thread, by the name of its box and its index there.
pub fn push_thread(name: &[u8], k: u32, steps: u32, page: &mut Page)
    requires short { length name.now ≤ 16 }
    requires room { length page.old + 256 ≤ 4096 }
    ensures { page.new ≡ page.old ++ thread_line name.now k steps }
{
    page.push_bytes(b"thread ");
    page.push_bytes(name);
    page.push_byte(b'.');
    page.push_decimal(k);
    page.push_bytes(b" steps ");
    page.push_decimal(steps);
    page.push_byte(b'\n');
}

/// Prints the line of an instruction at a place.
pub fn push_instruction(place: u32, instr: &Instr, page: &mut Page)
    requires valid { IsValidInstr instr.now }
    requires room { length page.old + 256 ≤ 4096 }
    ensures { page.new ≡ page.old ++ instruction_line place instr.now }
{
    let mut text = ArrayString::<80>::new();
    show(instr, &mut text);
    page.push_decimal(place);
    page.push_byte(b' ');
    page.push_bytes(text.as_str().as_bytes());
    page.push_byte(b'\n');
}

ghost use Rattle.std.specs.Prelude.{◌≡◌, ◌+◌, ◌<◌, ◌∷◌, [], IfOk};
ghost use Rattle.sample_board.specs.Sample as sample;

use flat_model::{
    BoxId, BoxPart, Instr, IrqPart, Item, Items, OutOfMemory, Range, Rights, Text, ThreadId,
    ThreadPart,
};
use std::alloc::Global;

// Flash below the secret range.
const CODE: Item = Item {
    range: Range {
        base: 0,
        len: 0xF_0000,
    },
    rights: Rights::READ_EXECUTE,
};

const GRANT: Item = Item {
    range: Range {
        base: 0x4000_0020,
        len: 0xE0,
    },
    rights: Rights::READ_WRITE,
};

// Boxes are named by letters, in order.
fn name_of(number: u8) -> &'static str
    requires { number < 8 }
    ensures { result.now ≡ (97 + number) ∷ [] }
{
    match number {
        0 => "a",
        1 => "b",
        2 => "c",
        3 => "d",
        4 => "e",
        5 => "f",
        6 => "g",
        _ => "h",
    }
}

/// The box of a number, with so many threads from number `first` on, and these lines.
pub fn part(
    alloc: Global,
    number: u8,
    first: u8,
    threads: u32,
    irqs: &[IrqPart],
) -> Result<BoxPart, OutOfMemory>
    requires { number < 8 }
    ensures { IfOk result (λ it. it ≡ sample.part number first threads irqs.now) }
{
    let own = Range {
        base: 0x2000_0000 + 256 * number as u32,
        len: 256,
    };
    let ram = Item {
        range: own,
        rights: Rights::READ_WRITE,
    };
    Ok(BoxPart {
        name: Text::from_string(String::from_str(alloc, name_of(number))?),
        own,
        secret: false,
        first: first as u32,
        threads,
        server: ThreadId(first),
        items: Items::from_vec(vec![in alloc; CODE, ram, GRANT]?),
        grants: Items::from_vec(vec![in alloc; GRANT]?),
        irqs: Items::from_vec(Vec::from_slice(alloc, irqs)?),
    })
}

/// A thread of the box of a number.
pub fn thread(
    alloc: Global,
    home: u8,
    program: &[Instr],
    steps: u32,
) -> Result<ThreadPart, OutOfMemory>
    ensures { IfOk result (λ it. it ≡ sample.thread home program.now steps) }
{
    Ok(ThreadPart {
        home: BoxId(home),
        program: Items::from_vec(Vec::from_slice(alloc, program)?),
        steps,
    })
}

/// A thread of the box of a number that halts at once.
pub fn halting(alloc: Global, home: u8) -> Result<ThreadPart, OutOfMemory>
    ensures { IfOk result (λ it. it ≡ sample.halting home) }
{
    thread(alloc, home, &[Instr::Halt], 10)
}

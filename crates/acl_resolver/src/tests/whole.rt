ghost use Rattle.std.specs.Prelude.{◌≡◌, ◌≤◌, IfOk, [], ◌∷◌, codes, false, length, map, string_bytes};
ghost use Rattle.addr_base.specs.Rights.{read_write};
ghost use Rattle.flat_model.specs.Sound.{IsBoard};
ghost use Rattle.acl_resolver.specs.Resolvable.{IsResolvable};
ghost use Rattle.acl_resolver.specs.Resolve.{parts_of};

use crate::resolve;
use crate::tests::fixtures::text;
use addr_base::{BoxId, Range, Rights, ThreadId};
use flat_model::{
    Board, BoxText, ConfigErr, DevicePart, GateTexts, GrantText, Instr, Item, Items, Refused,
    Round, ScriptWord, ThreadText,
};
use std::alloc::{AllocError, Global};
use std::test::Fail;

// The parts of a firmware.
#[derive(Drop)]
struct Firmware {
    board: Board,
    boxes: Vec<BoxText>,
    gates: GateTexts,
    devices: Vec<DevicePart>,
    script: Vec<String>,
}

// A board with 1 MiB of flash and of peripherals, and 128 KiB of SRAM.
fn plain_board(alloc: Global) -> Board
    ensures good { IsBoard result }
    ensures few { length result.words ≤ 64 }
{
    Board {
        flash: Range {
            base: 0,
            len: 0x100000,
        },
        sram: Range {
            base: 0x20000000,
            len: 0x20000,
        },
        peripherals: Range {
            base: 0x40000000,
            len: 0x100000,
        },
        secret: None,
        words: Items::from_vec(Vec::new(alloc)),
        heap: None,
    }
}

// A grant to read and to write.
fn grant(base: u32, len: u32, round: Round, shared: bool) -> GrantText
    ensures { result.rights ≡ read_write }
{
    GrantText {
        base,
        len,
        rights: Rights::READ_WRITE,
        round,
        shared,
    }
}

// A box with one thread, which halts, and one grant.
fn plain_box(alloc: Global, name: &str, grant: GrantText) -> Result<BoxText, AllocError>
    ensures { IfOk result
        (λ b. b ≡ record {
          name = name.now;
          size = 256;
          secret = false;
          server = 0;
          threads = record { program = codes "halt"; steps = 10 } ∷ [];
          grants = grant ∷ [];
          irqs = [];
        }) }
{
    let mut threads = Vec::new(alloc);
    threads.push(ThreadText {
        program: text(alloc, "halt")?,
        steps: 10,
    })?;
    let mut grants = Vec::new(alloc);
    grants.push(grant)?;
    Ok(BoxText {
        name: text(alloc, name)?,
        size: 256,
        secret: false,
        server: 0,
        threads: Items::from_vec(threads),
        grants: Items::from_vec(grants),
        irqs: Items::from_vec(Vec::new(alloc)),
    })
}

// The boxes a and b with these grants, and a script of one word.
fn two_boxes(
    alloc: Global,
    first: GrantText,
    second: GrantText,
    word: &str,
) -> Result<Firmware, AllocError>
    requires first { first.rights ≡ read_write }
    requires second { second.rights ≡ read_write }
    ensures { IfOk result
        (λ f. IsResolvable (parts_of f.board f.boxes.items f.gates
        f.devices.items (map string_bytes f.script.items))) }
{
    let mut boxes = Vec::new(alloc);
    boxes.push(plain_box(alloc, "a", first)?)?;
    boxes.push(plain_box(alloc, "b", second)?)?;
    let mut script = Vec::new(alloc);
    script.push(String::from_str(alloc, word)?)?;
    Ok(Firmware {
        board: plain_board(alloc),
        boxes,
        gates: GateTexts {
            registers: Items::from_vec(Vec::new(alloc)),
            gateways: Items::from_vec(Vec::new(alloc)),
        },
        devices: Vec::new(alloc),
        script,
    })
}

// What the parts of a firmware are refused for.
fn refusal_of(
    alloc: Global,
    first: GrantText,
    second: GrantText,
    word: &str,
) -> Result<Option<Refused>, AllocError>
    requires first { first.rights ≡ read_write }
    requires second { second.rights ≡ read_write }
{
    let parts = two_boxes(alloc, first, second, word)?;
    let Firmware {
        board,
        boxes,
        gates,
        devices,
        script,
    } = parts;
    match resolve(alloc, board, boxes, gates, devices, script) {
        Ok(_) => Ok(None),
        Err(ConfigErr::Refused(refused)) => Ok(Some(refused)),
        Err(ConfigErr::Memory) => Err(AllocError),
    }
}

#[test]
fn rounded_grants_of_two_boxes_clash(rt: HostRuntime) -> Result<(), Fail> {
    let alloc = rt.alloc();
    let clash = Some(Refused::Clash {
        first: 0,
        second: 1,
    });
    let wide = grant(0x40000000, 0x44, Round::Up, false);
    let narrow = grant(0x40000060, 0x20, Round::Plain, false);
    assert_eq!(rt;
        refusal_of(alloc, wide, narrow, "a.0")?,
        clash,
        "neither is shared"
    );
    let shared = grant(0x40000000, 0x44, Round::Up, true);
    assert_eq!(rt;
        refusal_of(alloc, shared, narrow, "a.0")?,
        clash,
        "one is shared"
    );
    let both = grant(0x40000060, 0x20, Round::Plain, true);
    assert_eq!(rt;
        refusal_of(alloc, shared, both, "b.0")?,
        None,
        "both are shared"
    );
    let script = Some(Refused::BadScript { at: 0 });
    assert_eq!(rt;
        refusal_of(alloc, shared, both, "c.0")?,
        script,
        "a box that is not there"
    );
    assert_eq!(rt;
        refusal_of(alloc, shared, narrow, "c.0")?,
        clash,
        "a clash comes first"
    );
    Ok(())
}

// What box `b` may access: flash, its own memory, and its grant.
const ITEMS_OF_B: [Item; 3] = [
    Item {
        range: Range {
            base: 0,
            len: 0x100000,
        },
        rights: Rights::READ_EXECUTE,
    },
    Item {
        range: Range {
            base: 0x20000100,
            len: 0x100,
        },
        rights: Rights::READ_WRITE,
    },
    Item {
        range: Range {
            base: 0x20000400,
            len: 0x20,
        },
        rights: Rights::READ_WRITE,
    },
];

#[test]
fn the_parts_of_two_boxes_make_a_configuration(rt: HostRuntime) -> Result<(), Fail> {
    let alloc = rt.alloc();
    let first = grant(0x40000100, 0x1FF, Round::Down, false);
    let second = grant(0x20000400, 0x20, Round::Plain, false);
    let Firmware {
        board,
        boxes,
        gates,
        devices,
        script,
    } = two_boxes(alloc, first, second, "b.0")?;
    let made = resolve(alloc, board, boxes, gates, devices, script).map_err(|_| "refused")?;
    assert_eq!(rt; made.boxes.len(), 2, "boxes");
    assert_eq!(rt; made.threads.len(), 2, "threads");
    let last = &made.boxes.as_slice()[1];
    assert_eq!(rt;
        last.items.as_slice(),
        ITEMS_OF_B.as_slice(),
        "the items of b"
    );
    assert_eq!(rt; last.first, 1, "the first thread of b");
    let rounded = Range {
        base: 0x40000100,
        len: 0x100,
    };
    let first_grants = made.boxes.as_slice()[0].grants.as_slice();
    assert_eq!(rt; first_grants.len(), 1, "the grants of a");
    assert_eq!(rt; first_grants[0].range, rounded, "the grant of a");
    let thread = &made.threads.as_slice()[1];
    assert_eq!(rt; thread.home, BoxId(1), "the box of the second thread");
    assert_eq!(rt;
        thread.program.as_slice(),
        [Instr::Halt].as_slice(),
        "its program"
    );
    let words = [ScriptWord::Thread(ThreadId(1))];
    assert_eq!(rt; made.script.as_slice(), words.as_slice(), "the script");
    Ok(())
}

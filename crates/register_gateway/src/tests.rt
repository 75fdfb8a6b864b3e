use crate::Registers;
use flat_model::{Board, BoxId, Config, Items, NotAllowed, Op, OutOfMemory, Range, RegGate, Word};
use phys_memory::Banks;
use std::alloc::Global;
use std::test::Fail;

// The word that the gateways name.
const AT: u32 = 0x4000_0100;

// What it holds at the start.
const OPENING: u32 = 0x1234_5678;

// A board with that word, and one on each side of it.
fn board(alloc: Global) -> Result<Board, OutOfMemory> {
    let words = vec![in alloc;
        Word {
            at: 0x4000_00FC,
            value: 0x1111_1111
        },
        Word {
            at: AT,
            value: OPENING
        },
        Word {
            at: 0x4000_0104,
            value: 0x2222_2222
        },
    ]?;
    Ok(Board {
        flash: Range {
            base: 0,
            len: 0x10_0000,
        },
        sram: Range {
            base: 0x2000_0000,
            len: 0x2_0000,
        },
        peripherals: Range {
            base: 0x4000_0000,
            len: 0x10_0000,
        },
        secret: None,
        words: Items::from_vec(words),
        heap: None,
    })
}

// A configuration with these gateways.
fn config(alloc: Global, gates: &[RegGate]) -> Result<Config, OutOfMemory> {
    let registers = Vec::from_slice(alloc, gates)?;
    Ok(Config {
        version: 1,
        board: board(alloc)?,
        boxes: Items::from_vec(Vec::new(alloc)),
        threads: Items::from_vec(Vec::new(alloc)),
        registers: Items::from_vec(registers),
        gateways: Items::from_vec(Vec::new(alloc)),
        devices: Items::from_vec(Vec::new(alloc)),
        script: Items::from_vec(Vec::new(alloc)),
    })
}

// A gateway for the first box to that word.
fn gate(op: Op, mask: u32) -> RegGate {
    RegGate {
        at: AT,
        op,
        mask,
        boxes: 0b01,
    }
}

// What the first box reads by a gateway, from the opening word.
fn read_by(alloc: Global, op: Op, mask: u32) -> Result<Result<u32, NotAllowed>, OutOfMemory> {
    let cfg = config(alloc, &[gate(op, mask)])?;
    let banks = Banks::new(alloc, &cfg.board)?;
    let registers = Registers::new(alloc, &cfg)?;
    Ok(registers.read(&banks, BoxId(0), 0))
}

// The word and its neighbours after the first box wrote by a gateway, and whether it might.
fn written_by(alloc: Global, op: Op, mask: u32) -> Result<(bool, [u32; 3]), OutOfMemory> {
    let cfg = config(alloc, &[gate(op, mask)])?;
    let mut banks = Banks::new(alloc, &cfg.board)?;
    let registers = Registers::new(alloc, &cfg)?;
    let done = registers
        .write(&mut banks, BoxId(0), 0, 0xABCD_ABCD)
        .is_ok();
    let words = [
        banks.load(AT - 4, 4),
        banks.load(AT, 4),
        banks.load(AT + 4, 4),
    ];
    Ok((done, words))
}

#[test]
fn an_operation_that_reads_gives_the_bits_of_its_mask(rt: HostRuntime) -> Result<(), Fail> {
    for (op, mask, value) in [
        (Op::Read, 0x0000_FF00, 0x1234_5678),
        (Op::Read, 0xFFFF_FFFF, 0x1234_5678),
        (Op::Read, 0, 0x1234_5678),
        (Op::ReadAnd, 0x0000_FF00, 0x0000_5600),
        (Op::ReadAnd, 0xFFFF_FFFF, 0x1234_5678),
        (Op::ReadAnd, 0, 0),
    ] {
        let read = read_by(rt.alloc(), op, mask)?;
        assert_eq!(rt; read, Ok(value), "{op:?} with mask {mask}");
    }
    Ok(())
}

#[test]
fn an_operation_that_writes_changes_its_word_alone(rt: HostRuntime) -> Result<(), Fail> {
    for (op, mask, word) in [
        (Op::Write, 0x0000_FF00, 0xABCD_ABCD),
        (Op::Write, 0xFFFF_FFFF, 0xABCD_ABCD),
        (Op::Write, 0, 0xABCD_ABCD),
        (Op::And, 0x0000_FF00, 0x1234_0278),
        (Op::And, 0xFFFF_FFFF, 0x0204_0248),
        (Op::And, 0, 0x1234_5678),
        (Op::Or, 0x0000_FF00, 0x1234_FF78),
        (Op::Or, 0xFFFF_FFFF, 0xBBFD_FFFD),
        (Op::Or, 0, 0x1234_5678),
        (Op::Xor, 0x0000_FF00, 0x1234_FD78),
        (Op::Xor, 0xFFFF_FFFF, 0xB9F9_FDB5),
        (Op::Xor, 0, 0x1234_5678),
        (Op::Replace, 0x0000_FF00, 0x1234_AB78),
        (Op::Replace, 0xFFFF_FFFF, 0xABCD_ABCD),
        (Op::Replace, 0, 0x1234_5678),
    ] {
        let (done, words) = written_by(rt.alloc(), op, mask)?;
        assert!(rt; done, "{op:?} with mask {mask}");
        assert_eq!(rt;
            words,
            [0x1111_1111, word, 0x2222_2222],
            "{op:?} with mask {mask}"
        );
    }
    Ok(())
}

#[test]
fn a_gateway_goes_in_one_direction(rt: HostRuntime) -> Result<(), Fail> {
    for op in [Op::Read, Op::ReadAnd] {
        let (done, words) = written_by(rt.alloc(), op, 0xFFFF_FFFF)?;
        assert!(rt; !done, "{op:?}");
        assert_eq!(rt; words, [0x1111_1111, OPENING, 0x2222_2222], "{op:?}");
    }
    for op in [Op::Write, Op::And, Op::Or, Op::Xor, Op::Replace] {
        let read = read_by(rt.alloc(), op, 0xFFFF_FFFF)?;
        assert_eq!(rt; read, Err(NotAllowed), "{op:?}");
    }
    Ok(())
}

// Two gateways: the second and the eighth box read by the first one, the first box writes by the second one.
fn two_gates(alloc: Global) -> Result<(Banks, Registers), OutOfMemory> {
    let read = RegGate {
        at: AT,
        op: Op::Read,
        mask: 0,
        boxes: 0b1000_0010,
    };
    let cfg = config(alloc, &[read, gate(Op::Write, 0)])?;
    let banks = Banks::new(alloc, &cfg.board)?;
    let registers = Registers::new(alloc, &cfg)?;
    Ok((banks, registers))
}

#[test]
fn a_gateway_is_read_by_the_boxes_of_its_list(rt: HostRuntime) -> Result<(), Fail> {
    let (banks, registers) = two_gates(rt.alloc())?;
    for (b, g, value) in [
        (1, 0, Ok(OPENING)),
        (7, 0, Ok(OPENING)),
        (0, 0, Err(NotAllowed)),
        (2, 0, Err(NotAllowed)),
        (9, 0, Err(NotAllowed)),
        (1, 2, Err(NotAllowed)),
        (1, 4_294_967_295, Err(NotAllowed)),
    ] {
        let read = registers.read(&banks, BoxId(b), g);
        assert_eq!(rt; read, value, "box {b}, gateway {g}");
    }
    Ok(())
}

#[test]
fn a_write_that_is_refused_changes_nothing(rt: HostRuntime) -> Result<(), Fail> {
    let (mut banks, registers) = two_gates(rt.alloc())?;
    for (b, g) in [(1, 1), (0, 2), (1, 0), (9, 1)] {
        let written = registers.write(&mut banks, BoxId(b), g, 5);
        assert_eq!(rt; written, Err(NotAllowed), "box {b}, gateway {g}");
        assert_eq!(rt; banks.load(AT, 4), OPENING, "box {b}, gateway {g}");
    }
    assert_eq!(rt; registers.write(&mut banks, BoxId(0), 1, 5), Ok(()));
    assert_eq!(rt; banks.load(AT, 4), 5);
    Ok(())
}

#[test]
fn register_gateways_write_through_a_mask(rt: HostRuntime) -> Result<(), Fail> {
    let gates = [gate(Op::Replace, 0x0000_FF00), gate(Op::Read, 0)];
    let cfg = config(rt.alloc(), &gates)?;
    let mut banks = Banks::new(rt.alloc(), &cfg.board)?;
    let registers = Registers::new(rt.alloc(), &cfg)?;
    let written = registers.write(&mut banks, BoxId(0), 0, 0xABCD_ABCD);
    assert_eq!(rt; written, Ok(()));
    assert_eq!(rt; registers.read(&banks, BoxId(0), 1), Ok(0x1234_AB78));
    assert_eq!(rt; registers.read(&banks, BoxId(0), 0), Err(NotAllowed));
    assert_eq!(rt; registers.read(&banks, BoxId(1), 1), Err(NotAllowed));
    Ok(())
}

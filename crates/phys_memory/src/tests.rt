ghost use Rattle.std.specs.Prelude.{◌≡◌, IfOk};

use crate::Banks;
use flat_model::{Board, Items, OutOfMemory, Range, Word};
use std::alloc::Global;
use std::test::Fail;

const FLASH: Range = Range {
    base: 0,
    len: 0x10_0000,
};

const SRAM: Range = Range {
    base: 0x2000_0000,
    len: 0x2_0000,
};

const PERIPHERALS: Range = Range {
    base: 0x4000_0000,
    len: 0x10_0000,
};

// A board with one word in its peripherals.
fn board(alloc: Global) -> Result<Board, OutOfMemory>
    ensures sram { IfOk result (λ board. board.sram ≡ record { base = 536870912; len = 131072 }) }
    ensures peripherals { IfOk result (λ board. board.peripherals
        ≡ record { base = 1073741824; len = 1048576 }) }
{
    let word = Word {
        at: 0x4000_0100,
        value: 0x1234_5678,
    };
    Ok(Board {
        flash: FLASH,
        sram: SRAM,
        peripherals: PERIPHERALS,
        secret: None,
        words: Items::from_vec(vec![in alloc; word]?),
        heap: None,
    })
}

#[test]
fn words_are_read_with_their_lowest_byte_first(rt: HostRuntime) -> Result<(), Fail> {
    let board = board(rt.alloc())?;
    let banks = Banks::new(rt.alloc(), &board)?;
    for (a, n, value) in [
        (0x4000_0100, 4, Some(0x1234_5678)),
        (0x4000_0100, 2, Some(0x5678)),
        (0x4000_0102, 2, Some(0x1234)),
        (0x4000_0103, 1, Some(0x12)),
        (0x4000_0104, 4, Some(0)),
        (0x000F_FFFC, 4, Some(0)),
        (0x0010_0000, 4, None),
        (0x1FFF_FFFF, 1, None),
        (0x2001_FFFF, 1, Some(0)),
        (0x2002_0000, 1, None),
        (0x5000_0000, 4, None),
        (0xFFFF_FFFC, 4, None),
    ] {
        assert!(rt; n <= 4);
        assert_eq!(rt; banks.get(a, n), value, "{n} bytes at {a}");
    }
    Ok(())
}

#[test]
fn a_word_is_written_within_the_banks_alone(rt: HostRuntime) -> Result<(), Fail> {
    let board = board(rt.alloc())?;
    let mut banks = Banks::new(rt.alloc(), &board)?;
    assert!(rt; banks.put(0x2000_0004, 4, 0xAABB_CCDD));
    assert!(rt; banks.put(0x2000_0006, 1, 0x0000_1122));
    assert!(rt; !banks.put(0x2002_0000, 4, 0xFFFF_FFFF));
    for (a, value) in [
        (0x2000_0000, 0),
        (0x2000_0004, 0xAA22_CCDD),
        (0x2000_0008, 0),
        (0x2001_FFFC, 0),
    ] {
        assert_eq!(rt; banks.get(a, 4), Some(value), "at {a}");
    }
    Ok(())
}

#[test]
fn a_word_across_the_end_of_a_bank_has_the_bytes_inside(rt: HostRuntime) -> Result<(), Fail> {
    let board = board(rt.alloc())?;
    let mut banks = Banks::new(rt.alloc(), &board)?;
    banks.store(0x2001_FFFE, 4, 0x1122_3344);
    banks.store(0x3FFF_FFFE, 4, 0x5566_7788);
    for (a, n, value) in [
        (0x2001_FFFE, 2, 0x3344),
        (0x2001_FFFE, 4, 0x3344),
        (0x2001_FFFC, 4, 0x3344_0000),
        (0x2001_FFFF, 4, 0x33),
        (0x4000_0000, 4, 0x5566),
        (0x3FFF_FFFE, 4, 0x5566_0000),
        (0x3FFF_FFFE, 2, 0),
    ] {
        assert!(rt; n <= 4);
        assert_eq!(rt; banks.load(a, n), value, "{n} bytes at {a}");
    }
    Ok(())
}

#[test]
fn a_range_of_zero_bytes_has_two_ends(rt: HostRuntime) -> Result<(), Fail> {
    let board = board(rt.alloc())?;
    let mut banks = Banks::new(rt.alloc(), &board)?;
    banks.store(0x2000_0000, 4, 0xFFFF_FFFF);
    banks.store(0x2000_0004, 4, 0xFFFF_FFFF);
    banks.store(0x2000_0008, 4, 0xFFFF_FFFF);
    banks.zero(Range {
        base: 0x2000_0003,
        len: 6,
    });
    for (a, value) in [
        (0x2000_0000, 0x00FF_FFFF),
        (0x2000_0004, 0),
        (0x2000_0008, 0xFFFF_FF00),
    ] {
        assert_eq!(rt; banks.load(a, 4), value, "at {a}");
    }
    Ok(())
}

#[test]
fn bytes_beside_a_put_into_a_marked_piece_are_zero(rt: HostRuntime) -> Result<(), Fail> {
    let board = board(rt.alloc())?;
    let mut banks = Banks::new(rt.alloc(), &board)?;
    banks.store(0x4000_0044, 4, 0x1122_3344);
    banks.store(0x4000_005C, 4, 0x5566_7788);
    banks.zero(Range {
        base: 0x4000_0040,
        len: 64,
    });
    banks.store(0x4000_0046, 1, 0xAB);
    for (a, value) in [
        (0x4000_0040, 0),
        (0x4000_0044, 0x00AB_0000),
        (0x4000_0048, 0),
        (0x4000_005C, 0),
    ] {
        assert_eq!(rt; banks.load(a, 4), value, "at {a}");
    }
    Ok(())
}

#[test]
fn zero_bytes_begin_and_end_inside_pieces(rt: HostRuntime) -> Result<(), Fail> {
    let board = board(rt.alloc())?;
    let mut banks = Banks::new(rt.alloc(), &board)?;
    for k in 0..32 {
        banks.store(0x2000_0100 + 4 * k, 4, 0xFFFF_FFFF);
    }
    // Three pieces, of which the first and the last keep some bytes.
    banks.zero(Range {
        base: 0x2000_0105,
        len: 0x55,
    });
    for (a, value) in [
        (0x2000_0100, 0xFFFF_FFFF),
        (0x2000_0104, 0x0000_00FF),
        (0x2000_0108, 0),
        (0x2000_011C, 0),
        (0x2000_0120, 0),
        (0x2000_013C, 0),
        (0x2000_0140, 0),
        (0x2000_0158, 0xFFFF_0000),
        (0x2000_015C, 0xFFFF_FFFF),
        (0x2000_0160, 0xFFFF_FFFF),
    ] {
        assert_eq!(rt; banks.load(a, 4), value, "at {a}");
    }
    Ok(())
}

#[test]
fn a_bank_may_end_inside_a_piece(rt: HostRuntime) -> Result<(), Fail> {
    let board = Board {
        flash: FLASH,
        sram: Range {
            base: 0x2000_0000,
            len: 42,
        },
        peripherals: PERIPHERALS,
        secret: None,
        words: Items::from_vec(Vec::new(rt.alloc())),
        heap: None,
    };
    let mut banks = Banks::new(rt.alloc(), &board)?;
    assert!(rt; banks.put(0x2000_0026, 4, 0x1122_3344));
    assert!(rt; !banks.put(0x2000_0027, 4, 0xFFFF_FFFF));
    for (a, n, value) in [
        (0x2000_0028, 2, Some(0x1122)),
        (0x2000_0028, 4, None),
        (0x2000_0029, 1, Some(0x11)),
        (0x2000_002A, 1, None),
        (0x2000_0020, 4, Some(0)),
    ] {
        assert!(rt; n <= 4);
        assert_eq!(rt; banks.get(a, n), value, "{n} bytes at {a}");
    }
    assert_eq!(rt; banks.load(0x2000_0028, 4), 0x1122);
    Ok(())
}

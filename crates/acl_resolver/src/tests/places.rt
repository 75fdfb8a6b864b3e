use crate::placing::limit_of;
use crate::stages::placing_refusal;
use crate::tests::fixtures::{Sketch, boxes_of, small_board};
use flat_model::{HeapPart, Refused, Round};
use std::alloc::Global;
use std::process::Abort;
use std::test::Fail;

// A box without grants and lines.
const PLAIN: Sketch<'static> = Sketch {
    size: 256,
    grants: &[],
    lines: &[],
    program: "halt",
};

// A box with these grants.
fn granted<'a>(grants: &'a [(u32, u32, Round, bool)]) -> Sketch<'a> {
    Sketch {
        size: 256,
        grants,
        lines: &[],
        program: "halt",
    }
}

// A box of this size.
fn sized(size: u32) -> Sketch<'static> {
    Sketch {
        size,
        grants: &[],
        lines: &[],
        program: "halt",
    }
}

// What is refused of where these boxes lie on the small board, with a heap at this base or without.
fn check(
    rt: &impl Abort,
    alloc: Global,
    what: &str,
    heap: Option<u32>,
    sketches: &[Sketch],
    want: Option<Refused>,
) -> Result<(), Fail> {
    let heap = heap.map(|base| HeapPart {
        base,
        page: 32,
        count: 8,
    });
    let board = small_board(alloc, heap);
    let boxes = boxes_of(alloc, sketches)?;
    let limit = limit_of(&board);
    assert!(rt;
        board.sram.base as u64 <= limit && limit <= 0xE000_0000,
        "the limit: {what}"
    );
    assert_eq!(rt; placing_refusal(&board, boxes.as_slice()), want, "{what}");
    Ok(())
}

#[test]
fn a_box_that_passes_the_limit_has_no_room(rt: HostRuntime) -> Result<(), Fail> {
    check(&rt, rt.alloc(), "one box fits", None, &[sized(1024)], None)?;
    check(
        &rt,
        rt.alloc(),
        "the first box is too large",
        None,
        &[sized(1025)],
        Some(Refused::NoRoom { at_box: 0 }),
    )?;
    check(
        &rt,
        rt.alloc(),
        "four small boxes fit",
        None,
        &[sized(1), sized(256), sized(200), PLAIN],
        None,
    )?;
    let want = Some(Refused::NoRoom { at_box: 2 });
    check(
        &rt,
        rt.alloc(),
        "a box waits for a multiple of its length",
        None,
        &[PLAIN, sized(512), PLAIN],
        want,
    )?;
    let want = Some(Refused::NoRoom { at_box: 1 });
    check(
        &rt,
        rt.alloc(),
        "the heap is the limit",
        Some(0x20000100),
        &[PLAIN, PLAIN],
        want,
    )?;
    check(
        &rt,
        rt.alloc(),
        "the heap begins behind the boxes",
        Some(0x20000200),
        &[PLAIN, PLAIN],
        None,
    )
}

#[test]
fn a_grant_is_rounded_by_its_rule(rt: HostRuntime) -> Result<(), Fail> {
    let bad = |at_box, grant| Some(Refused::BadGrant { at_box, grant });
    let down = granted(&[(0x40000100, 0x1FF, Round::Down, false)]);
    check(&rt, rt.alloc(), "down to 0x100", None, &[down], None)?;
    let small = granted(&[(0x40000100, 31, Round::Down, false)]);
    check(&rt, rt.alloc(), "31 bytes down", None, &[small], bad(0, 0))?;
    let empty = granted(&[
        (0x40000100, 0, Round::Up, false),
        (0x40000200, 0, Round::Plain, false),
    ]);
    check(
        &rt,
        rt.alloc(),
        "no byte is 32 up, and nothing as written",
        None,
        &[empty],
        bad(0, 1),
    )?;
    let odd = granted(&[(0x40000010, 0x20, Round::Plain, false)]);
    check(
        &rt,
        rt.alloc(),
        "a base of a later box that is no multiple of 32",
        None,
        &[PLAIN, odd],
        bad(1, 0),
    )?;
    let off = granted(&[(0x40000020, 0x44, Round::Up, false)]);
    check(
        &rt,
        rt.alloc(),
        "a base that is no multiple of the length",
        None,
        &[PLAIN, off],
        bad(1, 0),
    )?;
    let huge = granted(&[(0x80000000, 0x80000001, Round::Up, false)]);
    check(
        &rt,
        rt.alloc(),
        "a length above 2 GiB",
        None,
        &[huge],
        bad(0, 0),
    )
}

#[test]
fn a_grant_lies_in_the_peripherals_or_in_the_common_part(rt: HostRuntime) -> Result<(), Fail> {
    let outside = |at_box, grant| Some(Refused::GrantOutside { at_box, grant });
    let own = granted(&[(0x20000000, 0x20, Round::Plain, false)]);
    check(
        &rt,
        rt.alloc(),
        "own memory is not granted",
        None,
        &[own],
        outside(0, 0),
    )?;
    let common = granted(&[(0x20000200, 0x200, Round::Plain, false)]);
    check(
        &rt,
        rt.alloc(),
        "all of the common part",
        None,
        &[PLAIN, common],
        None,
    )?;
    check(
        &rt,
        rt.alloc(),
        "the heap is not common",
        Some(0x20000300),
        &[PLAIN, common],
        outside(1, 0),
    )
}

#[test]
fn a_grant_ends_where_its_part_of_memory_ends(rt: HostRuntime) -> Result<(), Fail> {
    let outside = |at_box, grant| Some(Refused::GrantOutside { at_box, grant });
    let across = granted(&[
        (0x400FFFE0, 0x20, Round::Plain, false),
        (0x400FFFE0, 0x40, Round::Plain, false),
    ]);
    check(
        &rt,
        rt.alloc(),
        "a grant that passes the end of the peripherals",
        None,
        &[across],
        outside(0, 1),
    )?;
    let last = granted(&[(0xFFFFFFE0, 0x40, Round::Plain, false)]);
    check(
        &rt,
        rt.alloc(),
        "a grant that passes the last address",
        None,
        &[PLAIN, last],
        outside(1, 0),
    )
}

#[test]
fn a_grant_that_overlaps_an_earlier_one_of_its_box_is_refused(rt: HostRuntime) -> Result<(), Fail> {
    let overlap = |at_box, grant| Some(Refused::SelfOverlap { at_box, grant });
    let twice = granted(&[
        (0x40000000, 0x40, Round::Plain, true),
        (0x40000020, 0x20, Round::Plain, true),
    ]);
    check(
        &rt,
        rt.alloc(),
        "the second of the first box",
        None,
        &[twice],
        overlap(0, 1),
    )?;
    let third = granted(&[
        (0x40000000, 0x20, Round::Plain, false),
        (0x40000020, 0x20, Round::Plain, false),
        (0x40000000, 0x44, Round::Up, false),
    ]);
    check(
        &rt,
        rt.alloc(),
        "the third of a later box",
        None,
        &[PLAIN, third],
        overlap(1, 2),
    )
}

// The refusal of two boxes whose grants overlap.
fn clash(first: u32, second: u32) -> Option<Refused> {
    Some(Refused::Clash { first, second })
}

#[test]
fn grants_of_two_boxes_overlap_only_where_both_are_shared(rt: HostRuntime) -> Result<(), Fail> {
    let wide = granted(&[(0x40000000, 0x44, Round::Up, false)]);
    let narrow = granted(&[(0x40000060, 0x20, Round::Plain, false)]);
    let shared_wide = granted(&[(0x40000000, 0x44, Round::Up, true)]);
    let shared_narrow = granted(&[(0x40000060, 0x20, Round::Plain, true)]);
    let cases = [
        ("neither is shared", wide, narrow, clash(0, 1)),
        ("both are shared", shared_wide, shared_narrow, None),
        (
            "only the earlier is shared",
            shared_wide,
            narrow,
            clash(0, 1),
        ),
        ("only the later is shared", wide, shared_narrow, clash(0, 1)),
    ];
    for (what, first, second, want) in cases {
        check(&rt, rt.alloc(), what, None, &[first, second], want)?;
    }
    Ok(())
}

#[test]
fn a_clash_names_the_least_two_boxes(rt: HostRuntime) -> Result<(), Fail> {
    let wide = granted(&[(0x40000000, 0x44, Round::Up, false)]);
    let narrow = granted(&[(0x40000060, 0x20, Round::Plain, false)]);
    let shared_wide = granted(&[(0x40000000, 0x44, Round::Up, true)]);
    let shared_narrow = granted(&[(0x40000060, 0x20, Round::Plain, true)]);
    let touching = granted(&[(0x40000080, 0x20, Round::Plain, false)]);
    check(&rt, rt.alloc(), "they touch", None, &[wide, touching], None)?;
    check(
        &rt,
        rt.alloc(),
        "the least of two earlier boxes",
        None,
        &[shared_wide, shared_narrow, narrow],
        clash(0, 2),
    )?;
    check(
        &rt,
        rt.alloc(),
        "the second of three boxes",
        None,
        &[touching, wide, narrow],
        clash(1, 2),
    )
}

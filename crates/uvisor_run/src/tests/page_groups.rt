use crate::tests::answers::check_log;
use crate::tests::boards::HEAP;
use crate::tests::inputs::{Case, plain};
use std::test::Fail;

const ONE_OF_EACH: &str = "set r0 1
set r1 0x20000000
pages_alloc r0 r1
pages_alloc r0 r1
pages_alloc r0 r1
set r2 0x20008000
store32 r0 r2 0x1C00
store32 r0 r2 0x3C00
store32 r0 r2 0x5C00
load8 r3 r2 0x1FFF
load8 r3 r2 0x1BFF
";

const SEVEN_OF_EACH: &str = "set r0 7
set r1 0x20000100
pages_alloc r0 r1
pages_alloc r0 r1
pages_alloc r0 r1
";

const THREE_GROUPS: &str = "heap = { base = 0x20008000, page = 1024, count = 24 }
";

const ONE_OF_EACH_LOG: &str = "unit switch b
turn b.0 ok
turn b.0 ok
unit flush
turn b.0 frames 0 1 2 3 4 5 6
unit switch a
turn a.0 ok
turn a.0 ok
unit flush
turn a.0 frames 7
unit switch b
unit flush
turn b.0 frames 8 9 10 11 12 13 14
unit switch a
unit flush
turn a.0 frames 15
unit switch b
unit flush
turn b.0 frames 16 17 18 19 20 21 22
unit switch a
unit flush
turn a.0 frames 23
turn a.0 ok
unit rotate 2 0x20008000 0x13007F19
unit access write 4 0x20009C00 slot 2
turn a.0 ok
unit rotate 3 0x2000A000 0x13007F19
unit access write 4 0x2000BC00 slot 3
turn a.0 ok
unit rotate 4 0x2000C000 0x13007F19
unit access write 4 0x2000DC00 slot 4
turn a.0 ok
unit access read 1 0x20009FFF slot 2
turn a.0 ok 0x00000000
unit access read 1 0x20009BFF denied
turn a.0 fault daccviol 0x20009BFF
thread a.0 faulted 11 0x00000001 0x20000000 0x20008000 Z Z Z Z Z
thread b.0 ready 5 0x00000007 0x20000100 Z Z Z Z Z Z
";

#[test]
fn a_box_may_own_one_page_of_each_group(rt: HostRuntime) -> Result<(), Fail> {
    let case = Case {
        script: &[
            ("b.0", 3),
            ("a.0", 3),
            ("b.0", 1),
            ("a.0", 1),
            ("b.0", 1),
            ("a.0", 7),
        ],
        board: THREE_GROUPS,
        boxes: &[plain("a", &[ONE_OF_EACH]), plain("b", &[SEVEN_OF_EACH])],
        rest: "",
    };
    check_log(&rt, rt.alloc(), &case, ONE_OF_EACH_LOG)
}

const SIXTY_FIVE_PAGES: &str = "set r0 16
set r1 0x20000000
pages_alloc r0 r1
pages_alloc r0 r1
pages_alloc r0 r1
pages_alloc r0 r1
set r0 1
pages_alloc r0 r1
set r1 0x20008000
load32 r2 r1 0x000
load32 r2 r1 0x100
load32 r2 r1 0x200
load32 r2 r1 0x300
load32 r2 r1 0x400
load32 r2 r1 0x500
load32 r2 r1 0x600
load32 r2 r1 0x700
load32 r2 r1 0x800
load32 r2 r1 0x000
";

const NINE_GROUPS: &str = "heap = { base = 0x20008000, page = 32, count = 72 }
";

const SIXTY_FIVE_PAGES_LOG: &str = "unit switch a
turn a.0 ok
turn a.0 ok
unit flush
turn a.0 frames 0 1 2 3 4 5 6 7 8 9 10 11 12 13 14 15
unit flush
turn a.0 frames 16 17 18 19 20 21 22 23 24 25 26 27 28 29 30 31
unit flush
turn a.0 frames 32 33 34 35 36 37 38 39 40 41 42 43 44 45 46 47
unit flush
turn a.0 frames 48 49 50 51 52 53 54 55 56 57 58 59 60 61 62 63
turn a.0 ok
unit flush
turn a.0 frames 64
turn a.0 ok
unit rotate 2 0x20008000 0x1300000F
unit access read 4 0x20008000 slot 2
turn a.0 ok 0x00000000
unit rotate 3 0x20008100 0x1300000F
unit access read 4 0x20008100 slot 3
turn a.0 ok 0x00000000
unit rotate 4 0x20008200 0x1300000F
unit access read 4 0x20008200 slot 4
turn a.0 ok 0x00000000
unit rotate 5 0x20008300 0x1300000F
unit access read 4 0x20008300 slot 5
turn a.0 ok 0x00000000
unit rotate 6 0x20008400 0x1300000F
unit access read 4 0x20008400 slot 6
turn a.0 ok 0x00000000
unit rotate 2 0x20008500 0x1300000F
unit access read 4 0x20008500 slot 2
turn a.0 ok 0x00000000
unit rotate 3 0x20008600 0x1300000F
unit access read 4 0x20008600 slot 3
turn a.0 ok 0x00000000
unit rotate 4 0x20008700 0x1300000F
unit access read 4 0x20008700 slot 4
turn a.0 ok 0x00000000
unit rotate 5 0x20008800 0x1300FE0F
unit access read 4 0x20008800 slot 5
turn a.0 ok 0x00000000
unit rotate 6 0x20008000 0x1300000F
unit access read 4 0x20008000 slot 6
turn a.0 ok 0x00000000
thread a.0 ready 19 0x00000001 0x20008000 Z Z Z Z Z Z
";

#[test]
fn nine_groups_rotate_over_five_slots(rt: HostRuntime) -> Result<(), Fail> {
    let case = Case {
        script: &[("a.0", 19)],
        board: NINE_GROUPS,
        boxes: &[plain("a", &[SIXTY_FIVE_PAGES])],
        rest: "",
    };
    check_log(&rt, rt.alloc(), &case, SIXTY_FIVE_PAGES_LOG)
}

const EVEN_PAGES: &str = "set r0 1
set r1 0x20000000
pages_alloc r0 r1
pages_alloc r0 r1
pages_alloc r0 r1
pages_alloc r0 r1
set r1 0x20008000
store32 r0 r1 0x0
store32 r0 r1 0x800
store32 r0 r1 0x1000
store32 r0 r1 0x1800
";

const ODD_PAGES: &str = "set r0 1
set r1 0x20000100
pages_alloc r0 r1
pages_alloc r0 r1
pages_alloc r0 r1
pages_alloc r0 r1
set r1 0x20008000
store32 r0 r1 0x400
store32 r0 r1 0xC00
store32 r0 r1 0x1400
store32 r0 r1 0x1C00
";

const EVEN_PAGES_LOG: &str = "unit switch a
turn a.0 ok
turn a.0 ok
unit flush
turn a.0 frames 0
unit switch b
turn b.0 ok
turn b.0 ok
unit flush
turn b.0 frames 1
unit switch a
unit flush
turn a.0 frames 2
unit switch b
unit flush
turn b.0 frames 3
unit switch a
unit flush
turn a.0 frames 4
unit switch b
unit flush
turn b.0 frames 5
unit switch a
unit flush
turn a.0 frames 6
unit switch b
unit flush
turn b.0 frames 7
unit switch a
turn a.0 ok
unit rotate 2 0x20008000 0x1300AA19
unit access write 4 0x20008000 slot 2
turn a.0 ok
unit access write 4 0x20008800 slot 2
turn a.0 ok
unit access write 4 0x20009000 slot 2
turn a.0 ok
unit access write 4 0x20009800 slot 2
turn a.0 ok
unit access read 1 0x20008400 denied
turn a.1 fault daccviol 0x20008400
unit access read 1 0x20008C00 denied
turn a.2 fault daccviol 0x20008C00
unit access read 1 0x20009400 denied
turn a.3 fault daccviol 0x20009400
unit access read 1 0x20009C00 denied
turn a.4 fault daccviol 0x20009C00
unit switch b
turn b.0 ok
unit rotate 2 0x20008000 0x13005519
unit access write 4 0x20008400 slot 2
turn b.0 ok
unit access write 4 0x20008C00 slot 2
turn b.0 ok
unit access write 4 0x20009400 slot 2
turn b.0 ok
unit access write 4 0x20009C00 slot 2
turn b.0 ok
unit access read 1 0x200083FF denied
turn b.1 fault daccviol 0x200083FF
unit access read 1 0x20008BFF denied
turn b.2 fault daccviol 0x20008BFF
unit access read 1 0x200093FF denied
turn b.3 fault daccviol 0x200093FF
unit access read 1 0x20009BFF denied
turn b.4 fault daccviol 0x20009BFF
thread a.0 ready 11 0x00000001 0x20008000 Z Z Z Z Z Z
thread a.1 faulted 1 Z Z Z Z Z Z Z Z
thread a.2 faulted 1 Z Z Z Z Z Z Z Z
thread a.3 faulted 1 Z Z Z Z Z Z Z Z
thread a.4 faulted 1 Z Z Z Z Z Z Z Z
thread b.0 ready 11 0x00000001 0x20008000 Z Z Z Z Z Z
thread b.1 faulted 1 Z Z Z Z Z Z Z Z
thread b.2 faulted 1 Z Z Z Z Z Z Z Z
thread b.3 faulted 1 Z Z Z Z Z Z Z Z
thread b.4 faulted 1 Z Z Z Z Z Z Z Z
";

// The boxes take their pages by turns, and then use them one box after the other.
const BY_TURNS: &[(&str, usize)] = &[
    ("a.0", 3),
    ("b.0", 3),
    ("a.0", 1),
    ("b.0", 1),
    ("a.0", 1),
    ("b.0", 1),
    ("a.0", 1),
    ("b.0", 1),
    ("a.0", 5),
    ("a.1", 1),
    ("a.2", 1),
    ("a.3", 1),
    ("a.4", 1),
    ("b.0", 5),
    ("b.1", 1),
    ("b.2", 1),
    ("b.3", 1),
    ("b.4", 1),
];

#[test]
fn pages_of_two_boxes_alternate_in_a_group(rt: HostRuntime) -> Result<(), Fail> {
    let case = Case {
        script: BY_TURNS,
        board: HEAP,
        boxes: &[
            plain(
                "a",
                &[
                    EVEN_PAGES,
                    "load8 r1 r0 0x20008400\n",
                    "load8 r1 r0 0x20008C00\n",
                    "load8 r1 r0 0x20009400\n",
                    "load8 r1 r0 0x20009C00\n",
                ],
            ),
            plain(
                "b",
                &[
                    ODD_PAGES,
                    "load8 r1 r0 0x200083FF\n",
                    "load8 r1 r0 0x20008BFF\n",
                    "load8 r1 r0 0x200093FF\n",
                    "load8 r1 r0 0x20009BFF\n",
                ],
            ),
        ],
        rest: "",
    };
    check_log(&rt, rt.alloc(), &case, EVEN_PAGES_LOG)
}

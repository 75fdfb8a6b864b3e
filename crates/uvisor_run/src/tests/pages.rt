use crate::tests::answers::{check_log, check_text};
use crate::tests::boards::HEAP;
use crate::tests::inputs::{Case, plain};
use std::test::Fail;

/// Box a takes three pages and gives two of them back.
pub const THREE_PAGES: &str = "format = 1
script = [\"a.0\", \"a.0\", \"a.0\", \"a.0\", \"a.0\", \"a.0\", \"a.0\", \"a.0\", \"a.0\", \"a.0\"]
[board]
flash = [0x0, 0x100000]
sram = [0x20000000, 0x20000]
peripherals = [0x40000000, 0x100000]
heap = { base = 0x20008000, page = 1024, count = 8 }
[[box]]
name = \"a\"
size = 1024
[[box.thread]]
program = \"\"\"
set r0 3
set r1 0x20000000
pages_alloc r0 r1
load32 r2 r1 4
page_free r2
load32 r3 r1 0
store32 r0 r3 0
page_free r3
load32 r4 r3 0x800
load32 r4 r3 0
\"\"\"
";

const THREE_PAGES_LOG: &str = "unit switch a
turn a.0 ok
turn a.0 ok
unit flush
turn a.0 frames 0 1 2
unit access read 4 0x20000004 slot 1
turn a.0 ok 0x20008400
unit flush
turn a.0 ok
unit access read 4 0x20000000 slot 1
turn a.0 ok 0x20008000
unit rotate 2 0x20008000 0x1300FA19
unit access write 4 0x20008000 slot 2
turn a.0 ok
unit flush
turn a.0 ok
unit rotate 2 0x20008000 0x1300FB19
unit access read 4 0x20008800 slot 2
turn a.0 ok 0x00000000
unit access read 4 0x20008000 denied
turn a.0 fault daccviol 0x20008000
thread a.0 faulted 10 0x00000003 0x20000000 0x20008400 0x20008000 Z Z Z Z
";

#[test]
fn pages_come_zeroed_and_go_back(rt: HostRuntime) -> Result<(), Fail> {
    check_text(&rt, rt.alloc(), "script", THREE_PAGES, 0, THREE_PAGES_LOG)
}

const STORE_AND_FREE: &str = "set r0 1
set r1 0x20000000
pages_alloc r0 r1
load32 r2 r1 0
store32 r0 r2 0
page_free r2
";

const TAKE_AND_LOAD: &str = "set r0 1
set r1 0x20000100
pages_alloc r0 r1
load32 r2 r1 0
load32 r3 r2 0
";

const STORE_AND_FREE_LOG: &str = "unit switch a
turn a.0 ok
turn a.0 ok
unit flush
turn a.0 frames 0
unit access read 4 0x20000000 slot 1
turn a.0 ok 0x20008000
unit rotate 2 0x20008000 0x1300FE19
unit access write 4 0x20008000 slot 2
turn a.0 ok
unit flush
turn a.0 ok
unit switch b
turn b.0 ok
turn b.0 ok
unit flush
turn b.0 frames 0
unit access read 4 0x20000100 slot 1
turn b.0 ok 0x20008000
unit rotate 2 0x20008000 0x1300FE19
unit access read 4 0x20008000 slot 2
turn b.0 ok 0x00000000
thread a.0 ready 6 0x00000001 0x20000000 0x20008000 Z Z Z Z Z
thread b.0 ready 5 0x00000001 0x20000100 0x20008000 Z Z Z Z Z
";

#[test]
fn a_freed_page_is_zeroed_for_the_next_box(rt: HostRuntime) -> Result<(), Fail> {
    let case = Case {
        script: &[("a.0", 6), ("b.0", 5)],
        board: HEAP,
        boxes: &[plain("a", &[STORE_AND_FREE]), plain("b", &[TAKE_AND_LOAD])],
        rest: "",
    };
    check_log(&rt, rt.alloc(), &case, STORE_AND_FREE_LOG)
}

const TAKE_SIX: &str = "set r0 6
set r1 0x20000000
pages_alloc r0 r1
set r0 0
pages_alloc r0 r1
set r0 17
pages_alloc r0 r1
";

const TAKE_THREE_OR_TWO: &str = "set r0 3
set r1 0x20000100
pages_alloc r0 r1
set r0 2
pages_alloc r0 r1
";

const TAKE_SIX_LOG: &str = "unit switch a
turn a.0 ok
turn a.0 ok
unit flush
turn a.0 frames 0 1 2 3 4 5
unit switch b
turn b.0 ok
turn b.0 ok
turn b.0 status 5
turn b.0 ok
unit flush
turn b.0 frames 6 7
unit switch a
turn a.0 ok
turn a.0 status 13
turn a.0 ok
turn a.0 status 13
thread a.0 ready 7 0x00000011 0x20000000 Z Z Z Z Z 0x0000000D
thread b.0 ready 5 0x00000002 0x20000100 Z Z Z Z Z Z
";

#[test]
fn the_heap_runs_out(rt: HostRuntime) -> Result<(), Fail> {
    let case = Case {
        script: &[("a.0", 3), ("b.0", 5), ("a.0", 4)],
        board: HEAP,
        boxes: &[plain("a", &[TAKE_SIX]), plain("b", &[TAKE_THREE_OR_TWO])],
        rest: "",
    };
    check_log(&rt, rt.alloc(), &case, TAKE_SIX_LOG)
}

const FREED_IN_A_SLOT: &str = "set r0 2
set r1 0x20000000
pages_alloc r0 r1
set r2 0x20008000
set r3 0x20008400
store32 r0 r2 0
store32 r0 r3 0
page_free r3
load32 r4 r3 0
";

const FREED_IN_A_SLOT_LOG: &str = "unit switch a
turn a.0 ok
turn a.0 ok
unit flush
turn a.0 frames 0 1
turn a.0 ok
turn a.0 ok
unit rotate 2 0x20008000 0x1300FC19
unit access write 4 0x20008000 slot 2
turn a.0 ok
unit access write 4 0x20008400 slot 2
turn a.0 ok
unit flush
turn a.0 ok
unit access read 4 0x20008400 denied
turn a.0 fault daccviol 0x20008400
thread a.0 faulted 9 0x00000002 0x20000000 0x20008000 0x20008400 Z Z Z Z
";

#[test]
fn a_page_freed_in_a_slot_is_denied_at_once(rt: HostRuntime) -> Result<(), Fail> {
    let case = Case {
        script: &[("a.0", 9)],
        board: HEAP,
        boxes: &[plain("a", &[FREED_IN_A_SLOT])],
        rest: "",
    };
    check_log(&rt, rt.alloc(), &case, FREED_IN_A_SLOT_LOG)
}

const REFUSED_IN_BETWEEN: &str = "set r0 1
set r1 0x20000000
pages_alloc r0 r1
set r2 0x20008000
store32 r0 r2 0
page_free r1
store32 r0 r2 4
exec r2 0
";

const REFUSED_IN_BETWEEN_LOG: &str = "unit switch a
turn a.0 ok
turn a.0 ok
unit flush
turn a.0 frames 0
turn a.0 ok
unit rotate 2 0x20008000 0x1300FE19
unit access write 4 0x20008000 slot 2
turn a.0 ok
turn a.0 status 7
unit access write 4 0x20008004 slot 2
turn a.0 ok
unit access fetch 2 0x20008000 denied
turn a.0 fault iaccviol 0x20008000
thread a.0 faulted 8 0x00000001 0x20000000 0x20008000 Z Z Z Z 0x00000007
";

#[test]
fn a_refused_page_call_leaves_the_slots(rt: HostRuntime) -> Result<(), Fail> {
    let case = Case {
        script: &[("a.0", 8)],
        board: HEAP,
        boxes: &[plain("a", &[REFUSED_IN_BETWEEN])],
        rest: "",
    };
    check_log(&rt, rt.alloc(), &case, REFUSED_IN_BETWEEN_LOG)
}

const FILL_FREE_AND_TAKE: &str = "set r0 1
set r1 0x20000000
pages_alloc r0 r1
load32 r2 r1 0
store32 r2 r2 4
store32 r2 r2 0x200
store8 r2 r2 0x3FF
page_free r2
pages_alloc r0 r1
load32 r3 r2 4
load32 r3 r2 0x200
load32 r3 r2 0x3FC
";

const FILL_FREE_AND_TAKE_LOG: &str = "unit switch a
turn a.0 ok
turn a.0 ok
unit flush
turn a.0 frames 0
unit access read 4 0x20000000 slot 1
turn a.0 ok 0x20008000
unit rotate 2 0x20008000 0x1300FE19
unit access write 4 0x20008004 slot 2
turn a.0 ok
unit access write 4 0x20008200 slot 2
turn a.0 ok
unit access write 1 0x200083FF slot 2
turn a.0 ok
unit flush
turn a.0 ok
unit flush
turn a.0 frames 0
unit rotate 2 0x20008000 0x1300FE19
unit access read 4 0x20008004 slot 2
turn a.0 ok 0x00000000
unit access read 4 0x20008200 slot 2
turn a.0 ok 0x00000000
unit access read 4 0x200083FC slot 2
turn a.0 ok 0x00000000
thread a.0 ready 12 0x00000001 0x20000000 0x20008000 Z Z Z Z Z
";

#[test]
fn a_whole_page_is_zeroed(rt: HostRuntime) -> Result<(), Fail> {
    let case = Case {
        script: &[("a.0", 12)],
        board: HEAP,
        boxes: &[plain("a", &[FILL_FREE_AND_TAKE])],
        rest: "",
    };
    check_log(&rt, rt.alloc(), &case, FILL_FREE_AND_TAKE_LOG)
}

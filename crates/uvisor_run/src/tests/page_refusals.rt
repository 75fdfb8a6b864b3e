use crate::tests::answers::check_log;
use crate::tests::boards::HEAP;
use crate::tests::inputs::{Case, plain, with_tables};
use std::test::Fail;

const BAD_TABLES_AND_ORIGINS: &str = "set r0 2
set r1 0x200000FC
pages_alloc r0 r1
load32 r2 r1 0
set r0 1
set r3 0x20000002
pages_alloc r0 r3
pages_alloc r0 r1
load32 r2 r1 0
set r4 0x20008200
page_free r4
set r4 0x20008400
page_free r4
halt
";

const BAD_TABLES_AND_ORIGINS_LOG: &str = "unit switch a
turn a.0 ok
turn a.0 ok
turn a.0 status 6
unit access read 4 0x200000FC slot 1
turn a.0 ok 0x00000000
turn a.0 ok
turn a.0 ok
turn a.0 status 6
unit flush
turn a.0 frames 0
unit access read 4 0x200000FC slot 1
turn a.0 ok 0x20008000
turn a.0 ok
turn a.0 status 7
turn a.0 ok
turn a.0 status 8
turn a.0 halted
thread a.0 halted 14 0x00000001 0x200000FC 0x20008000 0x20000002 0x20008400 Z Z 0x00000008
";

#[test]
fn page_calls_refuse_bad_tables_and_origins(rt: HostRuntime) -> Result<(), Fail> {
    let case = Case {
        script: &[("a.0", 14)],
        board: HEAP,
        boxes: &[plain("a", &[BAD_TABLES_AND_ORIGINS])],
        rest: "",
    };
    check_log(&rt, rt.alloc(), &case, BAD_TABLES_AND_ORIGINS_LOG)
}

const BAD_COUNTS: &str = "pages_alloc r0 r1
set r0 17
pages_alloc r0 r1
set r0 0xFFFFFFFF
pages_alloc r0 r1
set r0 16
set r1 0x200000C4
pages_alloc r0 r1
set r1 0x200000C0
pages_alloc r0 r1
set r0 9
pages_alloc r0 r1
set r0 8
pages_alloc r0 r1
set r0 1
pages_alloc r0 r1
halt
";

const BAD_COUNTS_LOG: &str = "unit switch a
turn a.0 status 13
turn a.0 ok
turn a.0 status 13
turn a.0 ok
turn a.0 status 13
turn a.0 ok
turn a.0 ok
turn a.0 status 6
turn a.0 ok
turn a.0 status 5
turn a.0 ok
turn a.0 status 5
turn a.0 ok
unit flush
turn a.0 frames 0 1 2 3 4 5 6 7
turn a.0 ok
turn a.0 status 5
turn a.0 halted
thread a.0 halted 17 0x00000001 0x200000C0 Z Z Z Z Z 0x00000005
";

#[test]
fn bad_counts_come_before_bad_tables_and_a_short_heap(rt: HostRuntime) -> Result<(), Fail> {
    let case = Case {
        script: &[("a.0", 17)],
        board: HEAP,
        boxes: &[plain("a", &[BAD_COUNTS])],
        rest: "",
    };
    check_log(&rt, rt.alloc(), &case, BAD_COUNTS_LOG)
}

const BAD_TABLES: &str = "set r0 1
set r1 0x200000FD
pages_alloc r0 r1
set r1 0x20000100
pages_alloc r0 r1
set r1 0x1FFFFFFC
pages_alloc r0 r1
set r1 0x100
pages_alloc r0 r1
set r1 0x40000000
pages_alloc r0 r1
set r1 0x20008000
pages_alloc r0 r1
set r0 2
set r1 0xFFFFFFFC
pages_alloc r0 r1
set r1 0xFFFFFFFF
pages_alloc r0 r1
set r1 0x200000F8
pages_alloc r0 r1
halt
";

const BAD_TABLES_LOG: &str = "unit switch a
turn a.0 ok
turn a.0 ok
turn a.0 status 6
turn a.0 ok
turn a.0 status 6
turn a.0 ok
turn a.0 status 6
turn a.0 ok
turn a.0 status 6
turn a.0 ok
turn a.0 status 6
turn a.0 ok
turn a.0 status 6
turn a.0 ok
turn a.0 ok
turn a.0 status 6
turn a.0 ok
turn a.0 status 6
turn a.0 ok
unit flush
turn a.0 frames 0 1
turn a.0 halted
unit switch b
turn b.0 halted
thread a.0 halted 21 0x00000002 0x200000F8 Z Z Z Z Z Z
thread b.0 halted 1 Z Z Z Z Z Z Z Z
";

#[test]
fn a_table_lies_wholly_in_what_the_box_may_write(rt: HostRuntime) -> Result<(), Fail> {
    let case = Case {
        script: &[("a.0", 21), ("b.0", 1)],
        board: HEAP,
        boxes: &[plain("a", &[BAD_TABLES]), plain("b", &["halt"])],
        rest: "",
    };
    check_log(&rt, rt.alloc(), &case, BAD_TABLES_LOG)
}

const TABLES_IN_PAGES: &str = "set r0 2
set r1 0x20000000
pages_alloc r0 r1
set r1 0x200083F8
set r0 3
pages_alloc r0 r1
load32 r2 r1 0
load32 r2 r1 8
set r1 0x20009400
set r0 1
pages_alloc r0 r1
set r1 0x200093FC
pages_alloc r0 r1
";

const TABLES_IN_PAGES_LOG: &str = "unit switch a
turn a.0 ok
turn a.0 ok
unit flush
turn a.0 frames 0 1
turn a.0 ok
turn a.0 ok
unit flush
turn a.0 frames 2 3 4
unit rotate 2 0x20008000 0x1300E019
unit access read 4 0x200083F8 slot 2
turn a.0 ok 0x20008800
unit access read 4 0x20008400 slot 2
turn a.0 ok 0x20009000
turn a.0 ok
turn a.0 ok
turn a.0 status 6
turn a.0 ok
unit flush
turn a.0 frames 5
thread a.0 ready 13 0x00000001 0x200093FC 0x20009000 Z Z Z Z Z
";

#[test]
fn a_table_may_lie_in_a_page_of_the_box(rt: HostRuntime) -> Result<(), Fail> {
    let case = Case {
        script: &[("a.0", 13)],
        board: HEAP,
        boxes: &[plain("a", &[TABLES_IN_PAGES])],
        rest: "",
    };
    check_log(&rt, rt.alloc(), &case, TABLES_IN_PAGES_LOG)
}

const BAD_ORIGINS: &str = "set r0 2
set r1 0x20000000
pages_alloc r0 r1
set r2 0x20008800
page_free r2
set r2 0x20008C00
page_free r2
set r2 0x20008001
page_free r2
set r2 0x200083FF
page_free r2
set r2 0x20007C00
page_free r2
set r2 0x2000A000
page_free r2
page_free r3
set r2 0x20008400
page_free r2
page_free r2
page_free r7
";

const BAD_ORIGINS_LOG: &str = "unit switch a
turn a.0 ok
turn a.0 ok
unit flush
turn a.0 frames 0 1
unit switch b
turn b.0 ok
turn b.0 ok
unit flush
turn b.0 frames 2
unit switch a
turn a.0 ok
turn a.0 status 8
turn a.0 ok
turn a.0 status 8
turn a.0 ok
turn a.0 status 7
turn a.0 ok
turn a.0 status 7
turn a.0 ok
turn a.0 status 7
turn a.0 ok
turn a.0 status 7
turn a.0 status 7
turn a.0 ok
unit flush
turn a.0 ok
turn a.0 status 8
turn a.0 status 7
thread a.0 ready 20 0x00000002 0x20000000 0x20008400 Z Z Z Z 0x00000007
thread b.0 ready 3 0x00000001 0x20000100 Z Z Z Z Z Z
";

#[test]
fn only_own_pages_are_given_back_and_once(rt: HostRuntime) -> Result<(), Fail> {
    let case = Case {
        script: &[("a.0", 3), ("b.0", 3), ("a.0", 17)],
        board: HEAP,
        boxes: &[
            plain("a", &[BAD_ORIGINS]),
            plain("b", &["set r0 1\nset r1 0x20000100\npages_alloc r0 r1\n"]),
        ],
        rest: "",
    };
    check_log(&rt, rt.alloc(), &case, BAD_ORIGINS_LOG)
}

const NO_HEAP: &str = "pages_alloc r0 r1
set r0 1
pages_alloc r0 r1
set r1 0x20000000
pages_alloc r0 r1
page_free r1
page_free r2
set r0 16
pages_alloc r0 r1
";

#[test]
fn without_a_heap_no_page_is_given(rt: HostRuntime) -> Result<(), Fail> {
    let log = "unit switch a
turn a.0 status 13
turn a.0 ok
turn a.0 status 6
turn a.0 ok
turn a.0 status 5
turn a.0 status 7
turn a.0 status 7
turn a.0 ok
turn a.0 status 5
thread a.0 ready 9 0x00000010 0x20000000 Z Z Z Z Z 0x00000005
";
    let case = Case {
        script: &[("a.0", 9)],
        board: "",
        boxes: &[plain("a", &[NO_HEAP])],
        rest: "",
    };
    check_log(&rt, rt.alloc(), &case, log)
}

const TABLES_IN_GRANTS: &str = "set r0 2
set r1 0x4000001C
pages_alloc r0 r1
set r1 0x4000003C
pages_alloc r0 r1
set r1 0x40000020
pages_alloc r0 r1
load32 r2 r1 4
load32 r2 r1 0xFFFFFFFC
";

const TWO_GRANTS: &str = "[[box.grant]]
base = 0x40000000
len = 0x20
rights = \"r\"
[[box.grant]]
base = 0x40000020
len = 0x20
rights = \"rw\"
";

const TABLES_IN_GRANTS_LOG: &str = "unit switch a
turn a.0 ok
turn a.0 ok
turn a.0 status 6
turn a.0 ok
turn a.0 status 6
turn a.0 ok
unit flush
turn a.0 frames 0 1
unit rotate 2 0x40000020 0x13000009
unit access read 4 0x40000024 slot 2
turn a.0 ok 0x20008400
unit rotate 3 0x40000000 0x16000009
unit access read 4 0x4000001C slot 3
turn a.0 ok 0x00000000
thread a.0 ready 9 0x00000002 0x40000020 Z Z Z Z Z Z
";

#[test]
fn a_table_may_lie_in_a_grant_for_writing(rt: HostRuntime) -> Result<(), Fail> {
    let case = Case {
        script: &[("a.0", 9)],
        board: HEAP,
        boxes: &[with_tables("a", &[TABLES_IN_GRANTS], TWO_GRANTS)],
        rest: "",
    };
    check_log(&rt, rt.alloc(), &case, TABLES_IN_GRANTS_LOG)
}

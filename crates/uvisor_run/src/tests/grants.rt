use crate::tests::answers::{check_log, check_refused};
use crate::tests::inputs::{Case, plain, with_tables};
use std::test::Fail;

#[test]
fn a_grant_of_three_blocks_rotates_in(rt: HostRuntime) -> Result<(), Fail> {
    let programs = [
        "set r0 0x40000020
store32 r0 r0 0
load32 r1 r0 0xDC
store8 r0 r0 0x5F
load8 r2 r0 0xE0
",
    ];
    let grant = "[[box.grant]]\nbase = 0x40000020\nlen = 0xE0\nrights = \"rw\"\n";
    let case = Case {
        script: &[("a.0", 5)],
        board: "",
        boxes: &[with_tables("a", &programs, grant)],
        rest: "",
    };
    let log = "unit switch a
turn a.0 ok
unit rotate 2 0x40000020 0x13000009
unit access write 4 0x40000020 slot 2
turn a.0 ok
unit rotate 3 0x40000080 0x1300000D
unit access read 4 0x400000FC slot 3
turn a.0 ok 0x00000000
unit rotate 4 0x40000040 0x1300000B
unit access write 1 0x4000007F slot 4
turn a.0 ok
unit access read 1 0x40000100 denied
turn a.0 fault daccviol 0x40000100
thread a.0 faulted 5 0x40000020 Z Z Z Z Z Z Z
";
    check_log(&rt, rt.alloc(), &case, log)
}

#[test]
fn the_byte_below_a_grant_is_denied(rt: HostRuntime) -> Result<(), Fail> {
    let grant = "[[box.grant]]\nbase = 0x40000020\nlen = 0xE0\nrights = \"rw\"\n";
    let case = Case {
        script: &[("a.0", 1)],
        board: "",
        boxes: &[with_tables("a", &["load8 r1 r0 0x4000001F"], grant)],
        rest: "",
    };
    let log = "unit switch a
unit access read 1 0x4000001F denied
turn a.0 fault daccviol 0x4000001F
thread a.0 faulted 1 Z Z Z Z Z Z Z Z
";
    check_log(&rt, rt.alloc(), &case, log)
}

const SEVEN_GRANTS: &str = "[[box.grant]]
base = 0x40001000
len = 0x20
rights = \"rw\"
[[box.grant]]
base = 0x40002000
len = 0x20
rights = \"rw\"
[[box.grant]]
base = 0x40003000
len = 0x20
rights = \"rw\"
[[box.grant]]
base = 0x40004000
len = 0x20
rights = \"rw\"
[[box.grant]]
base = 0x40005000
len = 0x20
rights = \"rw\"
[[box.grant]]
base = 0x40006000
len = 0x20
rights = \"rw\"
[[box.grant]]
base = 0x40007000
len = 0x20
rights = \"rw\"
";

const SEVEN_LOADS: &str = "set r0 0x40000000
load32 r1 r0 0x1000
load32 r1 r0 0x2000
load32 r1 r0 0x3000
load32 r1 r0 0x4000
load32 r1 r0 0x5000
load32 r1 r0 0x6000
load32 r1 r0 0x7000
load32 r1 r0 0x1000
";

const SEVEN_LOADS_LOG: &str = "unit switch a
turn a.0 ok
unit rotate 2 0x40001000 0x13000009
unit access read 4 0x40001000 slot 2
turn a.0 ok 0x00000000
unit rotate 3 0x40002000 0x13000009
unit access read 4 0x40002000 slot 3
turn a.0 ok 0x00000000
unit rotate 4 0x40003000 0x13000009
unit access read 4 0x40003000 slot 4
turn a.0 ok 0x00000000
unit rotate 5 0x40004000 0x13000009
unit access read 4 0x40004000 slot 5
turn a.0 ok 0x00000000
unit rotate 6 0x40005000 0x13000009
unit access read 4 0x40005000 slot 6
turn a.0 ok 0x00000000
unit rotate 2 0x40006000 0x13000009
unit access read 4 0x40006000 slot 2
turn a.0 ok 0x00000000
unit rotate 3 0x40007000 0x13000009
unit access read 4 0x40007000 slot 3
turn a.0 ok 0x00000000
unit rotate 4 0x40001000 0x13000009
unit access read 4 0x40001000 slot 4
turn a.0 ok 0x00000000
thread a.0 ready 9 0x40000000 Z Z Z Z Z Z Z
";

#[test]
fn seven_grants_share_five_slots(rt: HostRuntime) -> Result<(), Fail> {
    let case = Case {
        script: &[("a.0", 9)],
        board: "",
        boxes: &[with_tables("a", &[SEVEN_LOADS], SEVEN_GRANTS)],
        rest: "",
    };
    check_log(&rt, rt.alloc(), &case, SEVEN_LOADS_LOG)
}

#[test]
fn slots_are_emptied_at_a_switch(rt: HostRuntime) -> Result<(), Fail> {
    let grant = "[[box.grant]]\nbase = 0x40000040\nlen = 0x40\nrights = \"r\"\n";
    let programs = ["load32 r1 r0 0x40000044\nload32 r1 r0 0x40000048\nstore32 r1 r0 0x4000004C"];
    let case = Case {
        script: &[("a.0", 1), ("b.0", 1), ("a.0", 2)],
        board: "words = [[0x40000044, 3], [0x40000048, 4]]\n",
        boxes: &[with_tables("a", &programs, grant), plain("b", &["halt"])],
        rest: "",
    };
    let log = "unit switch a
unit rotate 2 0x40000040 0x1600000B
unit access read 4 0x40000044 slot 2
turn a.0 ok 0x00000003
unit switch b
turn b.0 halted
unit switch a
unit rotate 2 0x40000040 0x1600000B
unit access read 4 0x40000048 slot 2
turn a.0 ok 0x00000004
unit access write 4 0x4000004C denied
turn a.0 fault daccviol 0x4000004C
thread a.0 faulted 3 Z 0x00000004 Z Z Z Z Z Z
thread b.0 halted 1 Z Z Z Z Z Z Z Z
";
    check_log(&rt, rt.alloc(), &case, log)
}

const ROUNDED_GRANT: &str =
    "[[box.grant]]\nbase = 0x40000000\nlen = 0x44\nrights = \"rw\"\nround = \"up\"\n";

const NEXT_GRANT: &str = "[[box.grant]]\nbase = 0x40000060\nlen = 0x20\nrights = \"rw\"\n";

#[test]
fn rounded_grants_of_two_boxes_clash(rt: HostRuntime) -> Result<(), Fail> {
    let case = Case {
        script: &[],
        board: "",
        boxes: &[
            with_tables("a", &["halt"], ROUNDED_GRANT),
            with_tables("b", &["halt"], NEXT_GRANT),
        ],
        rest: "",
    };
    check_refused(&rt, rt.alloc(), &case, "refused Clash box 0 box 1\n")
}

const SHARED_ROUNDED_GRANT: &str =
    "[[box.grant]]\nbase = 0x40000000\nlen = 0x44\nrights = \"rw\"\nround = \"up\"\nshared = true\n";

const SHARED_NEXT_GRANT: &str =
    "[[box.grant]]\nbase = 0x40000060\nlen = 0x20\nrights = \"rw\"\nshared = true\n";

#[test]
fn shared_grants_pass_a_word(rt: HostRuntime) -> Result<(), Fail> {
    let giver = ["set r0 0x40000060\nset r1 0x5A\nstore32 r1 r0 0\n"];
    let taker = ["set r0 0x40000060\nload32 r1 r0 0\n"];
    let case = Case {
        script: &[("a.0", 3), ("b.0", 2)],
        board: "",
        boxes: &[
            with_tables("a", &giver, SHARED_ROUNDED_GRANT),
            with_tables("b", &taker, SHARED_NEXT_GRANT),
        ],
        rest: "",
    };
    let log = "unit switch a
turn a.0 ok
turn a.0 ok
unit rotate 2 0x40000000 0x1300000D
unit access write 4 0x40000060 slot 2
turn a.0 ok
unit switch b
turn b.0 ok
unit rotate 2 0x40000060 0x13000009
unit access read 4 0x40000060 slot 2
turn b.0 ok 0x0000005A
thread a.0 ready 3 0x40000060 0x0000005A Z Z Z Z Z Z
thread b.0 ready 2 0x40000060 0x0000005A Z Z Z Z Z Z
";
    check_log(&rt, rt.alloc(), &case, log)
}

#[test]
fn one_mark_alone_shares_nothing(rt: HostRuntime) -> Result<(), Fail> {
    let case = Case {
        script: &[],
        board: "",
        boxes: &[
            with_tables("a", &["halt"], ROUNDED_GRANT),
            with_tables("b", &["halt"], SHARED_NEXT_GRANT),
        ],
        rest: "",
    };
    check_refused(&rt, rt.alloc(), &case, "refused Clash box 0 box 1\n")
}

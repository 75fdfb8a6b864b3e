use crate::tests::answers::check_log;
use crate::tests::inputs::{Case, plain};
use std::test::Fail;

#[test]
fn an_unaligned_load_asks_no_unit(rt: HostRuntime) -> Result<(), Fail> {
    let programs = ["set r0 0x20000000\nstore32 r0 r0 4\nload32 r1 r0 2\nhalt"];
    let case = Case {
        script: &[("a.0", 4)],
        board: "",
        boxes: &[plain("a", &programs)],
        rest: "",
    };
    let log = "unit switch a
turn a.0 ok
unit access write 4 0x20000004 slot 1
turn a.0 ok
turn a.0 fault unaligned 0x20000002
turn a.0 ended
thread a.0 faulted 3 0x20000000 Z Z Z Z Z Z Z
";
    check_log(&rt, rt.alloc(), &case, log)
}

#[test]
fn unaligned_fetch_and_private_bus_accesses_fault(rt: HostRuntime) -> Result<(), Fail> {
    let programs = [
        "set r0 0x20000000\nload32 r1 r0 0xFE",
        "set r0 0x20000000\nexec r0 0",
        "set r0 0xE000ED94\nload32 r1 r0 0",
        "set r0 0\nexec r0 0",
    ];
    let case = Case {
        script: &[("a.0", 2), ("a.1", 2), ("a.2", 2), ("a.3", 2)],
        board: "",
        boxes: &[plain("a", &programs)],
        rest: "",
    };
    let log = "unit switch a
turn a.0 ok
turn a.0 fault unaligned 0x200000FE
turn a.1 ok
unit access fetch 2 0x20000000 denied
turn a.1 fault iaccviol 0x20000000
turn a.2 ok
unit access read 4 0xE000ED94 denied
turn a.2 fault daccviol 0xE000ED94
turn a.3 ok
unit access fetch 2 0x00000000 slot 0
turn a.3 ok
thread a.0 faulted 2 0x20000000 Z Z Z Z Z Z Z
thread a.1 faulted 2 0x20000000 Z Z Z Z Z Z Z
thread a.2 faulted 2 0xE000ED94 Z Z Z Z Z Z Z
thread a.3 ready 2 Z Z Z Z Z Z Z Z
";
    check_log(&rt, rt.alloc(), &case, log)
}

#[test]
fn flash_is_read_and_fetched_and_never_written(rt: HostRuntime) -> Result<(), Fail> {
    let programs = [
        "load16 r1 r0 0xFFFFE\nexec r0 0xFFFFE\nexec r0 0x100000",
        "store8 r1 r0 0",
    ];
    let case = Case {
        script: &[("a.0", 3), ("a.1", 1)],
        board: "words = [[0xFFFFC, 0xBEEF1234]]\n",
        boxes: &[plain("a", &programs)],
        rest: "",
    };
    let log = "unit switch a
unit access read 2 0x000FFFFE slot 0
turn a.0 ok 0x0000BEEF
unit access fetch 2 0x000FFFFE slot 0
turn a.0 ok
unit access fetch 2 0x00100000 denied
turn a.0 fault iaccviol 0x00100000
unit access write 1 0x00000000 denied
turn a.1 fault daccviol 0x00000000
thread a.0 faulted 3 Z 0x0000BEEF Z Z Z Z Z Z
thread a.1 faulted 1 Z Z Z Z Z Z Z Z
";
    check_log(&rt, rt.alloc(), &case, log)
}

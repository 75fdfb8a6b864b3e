use crate::tests::answers::check_log;
use crate::tests::inputs::{Case, Sketch, plain};
use std::test::Fail;

// Box a, which owns the secret range.
fn owner<'a>(programs: &'a [&'a str]) -> Sketch<'a> {
    Sketch {
        name: "a",
        keys: "secret = true\n",
        programs,
        tables: "",
    }
}

#[test]
fn the_secret_range_is_its_owners_alone(rt: HostRuntime) -> Result<(), Fail> {
    let others = [
        "set r0 0xEFFFF\nload8 r1 r0 0\nload8 r1 r0 1",
        "set r0 0xFFFFF\nload8 r1 r0 0",
    ];
    let case = Case {
        script: &[("a.0", 2), ("b.0", 3), ("b.1", 2)],
        board: "secret = [0xF0000, 0x10000]\nwords = [[0xF0000, 0xC0FFEE01]]\n",
        boxes: &[
            owner(&["set r0 0xF0000\nload32 r1 r0 0"]),
            plain("b", &others),
        ],
        rest: "",
    };
    let log = "unit switch a
turn a.0 ok
unit access read 4 0x000F0000 slot 0
turn a.0 ok 0xC0FFEE01
unit switch b
turn b.0 ok
unit access read 1 0x000EFFFF slot 0
turn b.0 ok 0x00000000
unit access read 1 0x000F0000 denied
turn b.0 fault daccviol 0x000F0000
turn b.1 ok
unit access read 1 0x000FFFFF denied
turn b.1 fault daccviol 0x000FFFFF
thread a.0 ready 2 0x000F0000 0xC0FFEE01 Z Z Z Z Z Z
thread b.0 faulted 3 0x000EFFFF Z Z Z Z Z Z Z
thread b.1 faulted 2 0x000FFFFF Z Z Z Z Z Z Z
";
    check_log(&rt, rt.alloc(), &case, log)
}

#[test]
fn the_bytes_beside_the_secret_range_are_everyones(rt: HostRuntime) -> Result<(), Fail> {
    let others = [
        "load8 r1 r0 0x7FFF\nload8 r2 r0 0x8020\nexec r0 0x8020\nexec r0 0x8000",
        "load8 r1 r0 0x801F",
    ];
    let case = Case {
        script: &[("b.0", 4), ("b.1", 1), ("a.0", 2)],
        board: "secret = [0x8000, 0x20]\nwords = [[0x7FFC, 0x12345678], [0x8020, 0x9ABCDEF0]]\n",
        boxes: &[
            owner(&["exec r0 0x8000\nstore8 r1 r0 0x8000"]),
            plain("b", &others),
        ],
        rest: "",
    };
    let log = "unit switch b
unit access read 1 0x00007FFF slot 0
turn b.0 ok 0x00000012
unit access read 1 0x00008020 slot 0
turn b.0 ok 0x000000F0
unit access fetch 2 0x00008020 slot 0
turn b.0 ok
unit access fetch 2 0x00008000 denied
turn b.0 fault iaccviol 0x00008000
unit access read 1 0x0000801F denied
turn b.1 fault daccviol 0x0000801F
unit switch a
unit access fetch 2 0x00008000 slot 0
turn a.0 ok
unit access write 1 0x00008000 denied
turn a.0 fault daccviol 0x00008000
thread a.0 faulted 2 Z Z Z Z Z Z Z Z
thread b.0 faulted 4 Z 0x00000012 0x000000F0 Z Z Z Z Z
thread b.1 faulted 1 Z Z Z Z Z Z Z Z
";
    check_log(&rt, rt.alloc(), &case, log)
}

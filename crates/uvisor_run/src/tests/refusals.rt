use crate::tests::answers::{check_refused, check_text};
use crate::tests::boards::{SENSOR_BOARD, SENSOR_BOARD_CHECK};
use crate::tests::inputs::{Case, input_of, plain, with_tables};
use std::test::Fail;

const LINE_FIVE: &str = "[[box.irq]]\nline = 5\nhandler = 0\n";

#[test]
fn a_line_of_two_boxes_is_refused(rt: HostRuntime) -> Result<(), Fail> {
    let case = Case {
        script: &[],
        board: "",
        boxes: &[
            with_tables("a", &["halt"], LINE_FIVE),
            with_tables("b", &["halt"], LINE_FIVE),
        ],
        rest: "",
    };
    check_refused(&rt, rt.alloc(), &case, "refused LineTaken box 1 irq 0\n")
}

#[test]
fn wrong_gateways_and_devices_are_refused(rt: HostRuntime) -> Result<(), Fail> {
    let table: [(&str, &str); 6] = [
        (
            "[[register]]\nat = 0x40000102\nop = \"read\"\nboxes = [\"a\"]\n",
            "refused BadGateway register 0\n",
        ),
        (
            "[[register]]\nat = 0x40000100\nop = \"read\"\nboxes = [\"none\"]\n",
            "refused BadGateway register 0\n",
        ),
        (
            "[[gateway]]\nbox = \"none\"\nfunction = 1\ncallers = [\"a\"]\n",
            "refused NoServer gateway 0\n",
        ),
        (
            "[[gateway]]\nbox = \"none\"\nfunction = 1\ncallers = [\"none\"]\n",
            "refused BadGateway gateway 0\n",
        ),
        (
            "[[device]]\nrings = [5]\n[[device]]\nrings = [5, 9]\n",
            "refused BadDevice device 1\n",
        ),
        ("[[device]]\nrings = [9]\n", "refused BadDevice device 0\n"),
    ];
    for (rest, line) in table {
        let case = Case {
            script: &[],
            board: "",
            boxes: &[with_tables("a", &["halt"], LINE_FIVE)],
            rest,
        };
        check_refused(&rt, rt.alloc(), &case, line)?;
    }
    Ok(())
}

#[test]
fn wrong_script_words_are_refused(rt: HostRuntime) -> Result<(), Fail> {
    let table: [(&[(&str, usize)], &str); 6] = [
        (&[("ring 9", 1)], "refused BadScript script 0\n"),
        (&[("a.0", 2), ("ring 9", 1)], "refused BadScript script 2\n"),
        (&[("ring 05", 1)], "refused BadScript script 0\n"),
        (&[("a.1", 1)], "refused BadScript script 0\n"),
        (&[("a.0", 1), ("a.00", 1)], "refused BadScript script 1\n"),
        (&[("none.0", 1)], "refused BadScript script 0\n"),
    ];
    for (script, line) in table {
        let case = Case {
            script,
            board: "",
            boxes: &[with_tables("a", &["halt"], LINE_FIVE)],
            rest: "",
        };
        check_refused(&rt, rt.alloc(), &case, line)?;
    }
    Ok(())
}

#[test]
fn a_wrong_program_line_is_refused(rt: HostRuntime) -> Result<(), Fail> {
    let case = Case {
        script: &[],
        board: "",
        boxes: &[
            plain("a", &["halt"]),
            plain("b", &["halt", "halt\n; stop\nset r9 1\nstop"]),
        ],
        rest: "",
    };
    check_refused(
        &rt,
        rt.alloc(),
        &case,
        "refused BadProgram box 1 thread 1 line 3\n",
    )
}

const CALL_CHECK: &str = "box a
item rx 0x00000000 0x00100000
item rw 0x20000000 0x00000100
server 0
thread a.0 steps 10000
0 halt
1 irq_return
";

const RING_CHECK: &str = "box a
item rx 0x00000000 0x00100000
item rw 0x20000000 0x00000100
line 5 handler 0
server 0
thread a.0 steps 10000
0 halt
";

#[test]
fn check_lists_programs_lines_and_a_whole_board(rt: HostRuntime) -> Result<(), Fail> {
    let call = Case {
        script: &[],
        board: "",
        boxes: &[plain("a", &["halt\nirq_return"])],
        rest: "",
    };
    let ring = Case {
        script: &[("a.0", 1), ("ring 5", 1)],
        board: "",
        boxes: &[with_tables("a", &["halt"], LINE_FIVE)],
        rest: "",
    };
    let call = input_of(rt.alloc(), &call)?;
    let ring = input_of(rt.alloc(), &ring)?;
    let table: [(&str, &str); 3] = [
        (call.as_str(), CALL_CHECK),
        (ring.as_str(), RING_CHECK),
        (SENSOR_BOARD, SENSOR_BOARD_CHECK),
    ];
    for (input, text) in table {
        check_text(&rt, rt.alloc(), "check", input, 0, text)?;
    }
    Ok(())
}

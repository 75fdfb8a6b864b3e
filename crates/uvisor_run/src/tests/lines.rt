use crate::tests::answers::{check_log, check_text};
use crate::tests::inputs::{Case, input_of, with_tables};
use std::alloc::{AllocError, Global};
use std::test::Fail;

const OWN_AND_OTHER_LINE: &str = "irq_on 5
irq_on 6
halt
set r2 9
irq_return
";

const LINE_FIVE: &str = "[[box.irq]]
line = 5
handler = 3
";

/// The input of a line that is rung twice before it is enabled.
pub fn two_rings(alloc: Global) -> Result<String, AllocError> {
    let case = Case {
        script: &[("ring 5", 2), ("a.0", 6)],
        board: "",
        boxes: &[with_tables("a", &[OWN_AND_OTHER_LINE], LINE_FIVE)],
        rest: "",
    };
    input_of(alloc, &case)
}

#[test]
fn two_rings_are_delivered_once(rt: HostRuntime) -> Result<(), Fail> {
    let log = "ring 5 by 0
ring 5 by 0
unit switch a
turn a.0 ok
turn a.0 irq 5
turn a.0 ok
turn a.0 ok
turn a.0 status 9
turn a.0 halted
thread a.0 halted 6 Z Z Z Z Z Z Z 0x00000009
";
    let input = two_rings(rt.alloc())?;
    check_text(&rt, rt.alloc(), "script", input.as_str(), 0, log)
}

const LOOP_AND_HANDLER: &str = "irq_on 5
jump 2
jump 1
set r2 9
irq_return
";

const LOOP_AND_HANDLER_LOG: &str = "unit switch a
turn a.0 ok
turn a.0 ok
ring 5 by 0
turn a.0 irq 5
ring 5 by 0
ring 5 by 0
turn a.0 ok
turn a.0 ok
turn a.0 irq 5
turn a.0 ok
turn a.0 ok
turn a.0 ok
thread a.0 ready 9 Z Z Z Z Z Z Z Z
";

#[test]
fn a_ring_in_the_handler_is_delivered_after_its_return(rt: HostRuntime) -> Result<(), Fail> {
    let case = Case {
        script: &[
            ("a.0", 2),
            ("ring 5", 1),
            ("a.0", 1),
            ("ring 5", 2),
            ("a.0", 6),
        ],
        board: "",
        boxes: &[with_tables("a", &[LOOP_AND_HANDLER], LINE_FIVE)],
        rest: "",
    };
    check_log(&rt, rt.alloc(), &case, LOOP_AND_HANDLER_LOG)
}

const TWO_HANDLERS: &str = "irq_on 9
irq_on 5
set r0 77
halt
set r1 9
irq_return
set r1 5
irq_return
";

const LINES_NINE_AND_FIVE: &str = "[[box.irq]]
line = 9
handler = 4
[[box.irq]]
line = 5
handler = 6
";

const TWO_HANDLERS_LOG: &str = "unit switch a
turn a.0 ok
turn a.0 ok
ring 9 by 0
ring 5 by 0
turn a.0 irq 5
turn a.0 ok
turn a.0 ok
turn a.0 irq 9
turn a.0 ok
turn a.0 ok
turn a.0 ok
thread a.0 ready 9 0x0000004D Z Z Z Z Z Z Z
";

#[test]
fn the_lowest_of_two_due_lines_goes_first(rt: HostRuntime) -> Result<(), Fail> {
    let case = Case {
        script: &[("a.0", 2), ("ring 9", 1), ("ring 5", 1), ("a.0", 7)],
        board: "",
        boxes: &[with_tables("a", &[TWO_HANDLERS], LINES_NINE_AND_FIVE)],
        rest: "",
    };
    check_log(&rt, rt.alloc(), &case, TWO_HANDLERS_LOG)
}

const OFF_AND_ON: &str = "irq_on 5
irq_off 5
jump 5
set r2 9
irq_return
irq_off 5
irq_on 5
halt
";

#[test]
fn a_line_rung_while_disabled_waits(rt: HostRuntime) -> Result<(), Fail> {
    let log = "unit switch a
turn a.0 ok
turn a.0 ok
turn a.0 ok
ring 5 by 0
turn a.0 ok
turn a.0 ok
turn a.0 irq 5
turn a.0 ok
turn a.0 ok
turn a.0 halted
thread a.0 halted 9 Z Z Z Z Z Z Z Z
";
    let case = Case {
        script: &[("a.0", 3), ("ring 5", 1), ("a.0", 6)],
        board: "",
        boxes: &[with_tables("a", &[OFF_AND_ON], LINE_FIVE)],
        rest: "",
    };
    check_log(&rt, rt.alloc(), &case, log)
}

const NEVER_ON: &str = "irq_off 5
halt
";

#[test]
fn a_line_that_is_never_enabled_is_never_delivered(rt: HostRuntime) -> Result<(), Fail> {
    let log = "ring 5 by 0
unit switch a
turn a.0 ok
ring 5 by 0
turn a.0 halted
thread a.0 halted 2 Z Z Z Z Z Z Z Z
";
    let case = Case {
        script: &[("ring 5", 1), ("a.0", 1), ("ring 5", 1), ("a.0", 1)],
        board: "",
        boxes: &[with_tables("a", &[NEVER_ON], LINE_FIVE)],
        rest: "",
    };
    check_log(&rt, rt.alloc(), &case, log)
}

const RETURN_TWICE: &str = "halt
halt
halt
irq_return
";

const NO_RETURN: &str = "irq_on 5
irq_return
jump 1
";

#[test]
fn only_the_first_thread_takes_and_returns_from_interrupts(rt: HostRuntime) -> Result<(), Fail> {
    let log = "unit switch a
turn a.1 ok
ring 5 by 0
turn a.1 status 9
turn a.1 ok
turn a.0 irq 5
turn a.1 status 9
turn a.0 ok
turn a.0 halted
turn a.0 ended
thread a.0 halted 3 Z Z Z Z Z Z Z Z
thread a.1 ready 4 Z Z Z Z Z Z Z 0x00000009
";
    let case = Case {
        script: &[
            ("a.1", 1),
            ("ring 5", 1),
            ("a.1", 2),
            ("a.0", 1),
            ("a.1", 1),
            ("a.0", 3),
        ],
        board: "",
        boxes: &[with_tables("a", &[RETURN_TWICE, NO_RETURN], LINE_FIVE)],
        rest: "",
    };
    check_log(&rt, rt.alloc(), &case, log)
}

const LINES_OF_A: &str = "irq_on 6
irq_off 6
irq_on 63
irq_on 64
irq_off 65535
irq_on 5
irq_return
";

const A_OWNS_FIVE: &str = "[[box.irq]]
line = 5
handler = 6
";

const LINES_OF_B: &str = "irq_on 6
irq_off 5
irq_on 5
irq_return
halt
";

const B_OWNS_SIX: &str = "[[box.irq]]
line = 6
handler = 4
";

const LINES_OF_A_LOG: &str = "unit switch a
turn a.0 status 9
turn a.0 status 9
turn a.0 status 9
turn a.0 status 9
turn a.0 status 9
turn a.0 ok
unit switch b
turn b.0 ok
turn b.0 status 9
turn b.0 status 9
turn b.0 status 9
ring 6 by 0
ring 5 by 0
unit switch a
turn a.0 irq 5
turn a.0 ok
unit switch b
turn b.0 irq 6
thread a.0 ready 8 Z Z Z Z Z Z Z Z
thread b.0 ready 5 0x00000006 Z Z Z Z Z Z 0x00000009
";

#[test]
fn a_box_switches_its_own_lines_alone(rt: HostRuntime) -> Result<(), Fail> {
    let case = Case {
        script: &[
            ("a.0", 6),
            ("b.0", 4),
            ("ring 6", 1),
            ("ring 5", 1),
            ("a.0", 2),
            ("b.0", 1),
        ],
        board: "",
        boxes: &[
            with_tables("a", &[LINES_OF_A], A_OWNS_FIVE),
            with_tables("b", &[LINES_OF_B], B_OWNS_SIX),
        ],
        rest: "",
    };
    check_log(&rt, rt.alloc(), &case, LINES_OF_A_LOG)
}

const FIRST_AND_LAST_LINE: &str = "irq_on 63
irq_on 0
halt
irq_return
";

const LINES_0_AND_63: &str = "[[box.irq]]
line = 0
handler = 3
[[box.irq]]
line = 63
handler = 3
";

#[test]
fn lines_0_and_63_are_lines(rt: HostRuntime) -> Result<(), Fail> {
    let log = "unit switch a
turn a.0 ok
turn a.0 ok
ring 63 by 0
ring 0 by 0
turn a.0 irq 0
turn a.0 ok
turn a.0 irq 63
turn a.0 ok
turn a.0 halted
thread a.0 halted 7 Z Z Z Z Z Z Z Z
";
    let case = Case {
        script: &[("a.0", 2), ("ring 63", 1), ("ring 0", 1), ("a.0", 5)],
        board: "",
        boxes: &[with_tables("a", &[FIRST_AND_LAST_LINE], LINES_0_AND_63)],
        rest: "",
    };
    check_log(&rt, rt.alloc(), &case, log)
}

#[test]
fn a_ring_for_an_ended_thread_changes_nothing(rt: HostRuntime) -> Result<(), Fail> {
    let log = "unit switch a
turn a.0 ok
turn a.0 halted
ring 5 by 0
turn a.0 ended
turn a.1 halted
ring 5 by 0
thread a.0 halted 2 Z Z Z Z Z Z Z Z
thread a.1 halted 1 Z Z Z Z Z Z Z Z
";
    let case = Case {
        script: &[
            ("a.0", 2),
            ("ring 5", 1),
            ("a.0", 1),
            ("a.1", 1),
            ("ring 5", 1),
        ],
        board: "",
        boxes: &[with_tables("a", &["irq_on 5\nhalt\n", "halt\n"], LINE_FIVE)],
        rest: "",
    };
    check_log(&rt, rt.alloc(), &case, log)
}

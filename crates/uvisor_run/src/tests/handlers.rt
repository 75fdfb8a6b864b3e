use crate::tests::answers::check_log;
use crate::tests::inputs::{Case, with_tables};
use std::test::Fail;

const ALL_REGISTERS: &str = "set r0 1
jump 6
halt
set r1 3
set r7 4
irq_return
set r1 2
irq_on 5
set r6 7
set r7 8
halt
";

const LINE_FIVE: &str = "[[box.irq]]
line = 5
handler = 3
";

const ALL_REGISTERS_LOG: &str = "unit switch a
turn a.0 ok
turn a.0 ok
turn a.0 ok
turn a.0 ok
turn a.0 ok
turn a.0 ok
ring 5 by 0
turn a.0 irq 5
turn a.0 ok
turn a.0 ok
turn a.0 ok
turn a.0 halted
thread a.0 halted 11 0x00000001 0x00000002 Z Z Z Z 0x00000007 0x00000008
";

#[test]
fn a_return_brings_back_the_place_and_all_registers(rt: HostRuntime) -> Result<(), Fail> {
    let case = Case {
        script: &[("a.0", 6), ("ring 5", 1), ("a.0", 5)],
        board: "",
        boxes: &[with_tables("a", &[ALL_REGISTERS], LINE_FIVE)],
        rest: "",
    };
    check_log(&rt, rt.alloc(), &case, ALL_REGISTERS_LOG)
}

const STATUS_IN_THE_HANDLER: &str = "irq_on 5
jump 1
halt
irq_on 6
irq_return
";

#[test]
fn a_status_of_the_handler_is_gone_after_its_return(rt: HostRuntime) -> Result<(), Fail> {
    let log = "unit switch a
turn a.0 ok
ring 5 by 0
turn a.0 irq 5
turn a.0 status 9
turn a.0 ok
turn a.0 ok
thread a.0 ready 5 Z Z Z Z Z Z Z Z
";
    let case = Case {
        script: &[("a.0", 1), ("ring 5", 1), ("a.0", 4)],
        board: "",
        boxes: &[with_tables("a", &[STATUS_IN_THE_HANDLER], LINE_FIVE)],
        rest: "",
    };
    check_log(&rt, rt.alloc(), &case, log)
}

const FAULTING_HANDLER: &str = "irq_on 5
halt
halt
load8 r1 r0 0x20000200
";

#[test]
fn a_handler_that_faults_ends_the_thread(rt: HostRuntime) -> Result<(), Fail> {
    let log = "unit switch a
turn a.0 ok
ring 5 by 0
turn a.0 irq 5
unit access read 1 0x20000205 denied
turn a.0 fault daccviol 0x20000205
ring 5 by 0
turn a.0 ended
turn a.1 status 9
thread a.0 faulted 3 0x00000005 Z Z Z Z Z Z Z
thread a.1 ready 1 Z Z Z Z Z Z Z 0x00000009
";
    let case = Case {
        script: &[
            ("a.0", 1),
            ("ring 5", 1),
            ("a.0", 2),
            ("ring 5", 1),
            ("a.0", 1),
            ("a.1", 1),
        ],
        board: "",
        boxes: &[with_tables("a", &[FAULTING_HANDLER, "irq_return\n"], LINE_FIVE)],
        rest: "",
    };
    check_log(&rt, rt.alloc(), &case, log)
}

const SPENT_HANDLER: &str = "irq_on 5
halt
halt
jump 3
\"\"\"
steps = 3
# \"\"\"";

#[test]
fn a_handler_may_run_out_of_steps(rt: HostRuntime) -> Result<(), Fail> {
    // The program's text ends the string of the program and adds the key of the budget.
    let log = "unit switch a
turn a.0 ok
ring 5 by 0
turn a.0 irq 5
turn a.0 ok
turn a.0 ended
thread a.0 spent 3 0x00000005 Z Z Z Z Z Z Z
";
    let case = Case {
        script: &[("a.0", 1), ("ring 5", 1), ("a.0", 3)],
        board: "",
        boxes: &[with_tables("a", &[SPENT_HANDLER], LINE_FIVE)],
        rest: "",
    };
    check_log(&rt, rt.alloc(), &case, log)
}

const SPENT_AT_DELIVERY: &str = "irq_on 5
halt
halt
jump 3
\"\"\"
steps = 2
# \"\"\"";

#[test]
fn a_delivery_may_be_the_last_step(rt: HostRuntime) -> Result<(), Fail> {
    let log = "unit switch a
turn a.0 ok
ring 5 by 0
turn a.0 irq 5
turn a.0 ended
thread a.0 spent 2 0x00000005 Z Z Z Z Z Z Z
";
    let case = Case {
        script: &[("a.0", 1), ("ring 5", 1), ("a.0", 2)],
        board: "",
        boxes: &[with_tables("a", &[SPENT_AT_DELIVERY], LINE_FIVE)],
        rest: "",
    };
    check_log(&rt, rt.alloc(), &case, log)
}

const PAST_THE_PROGRAM: &str = "[[box.irq]]
line = 5
handler = 300
";

#[test]
fn a_handler_past_the_program_faults_at_its_first_turn(rt: HostRuntime) -> Result<(), Fail> {
    let log = "unit switch a
turn a.0 ok
ring 5 by 0
turn a.0 irq 5
turn a.0 fault place 0x0000012C
turn a.0 ended
thread a.0 faulted 3 0x00000005 Z Z Z Z Z Z Z
";
    let case = Case {
        script: &[("a.0", 1), ("ring 5", 1), ("a.0", 3)],
        board: "",
        boxes: &[with_tables("a", &["irq_on 5\nhalt\n"], PAST_THE_PROGRAM)],
        rest: "",
    };
    check_log(&rt, rt.alloc(), &case, log)
}

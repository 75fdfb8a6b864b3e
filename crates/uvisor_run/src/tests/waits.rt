use crate::tests::answers::check_log;
use crate::tests::inputs::{Case, plain, with_tables};
use std::test::Fail;

const WAIT_AND_ASK: &str = "set r0 1
rpc_sync 0 2
rpc_result r2 r0
halt
";

const SERVER_OF_P: &str = "[[gateway]]
box = \"s\"
function = 7
callers = [\"p\"]
";

const WAIT_AND_ASK_LOG: &str = "unit switch p
turn p.0 ok
turn p.0 posted 1
unit switch s
start s.0 p.0#1 ok 0x00000007 0x00000001 Z Z Z
turn s.0 halted
unit switch p
turn p.0 waiting
turn p.0 status 1
turn p.0 status 1
turn p.0 halted
thread s.0 halted 2 0x00000001 Z Z Z 0x00000007 0x00000001 Z Z
thread p.0 halted 6 0x00000001 Z Z Z Z Z Z 0x00000001
";

#[test]
fn a_server_that_ends_leaves_its_call_open(rt: HostRuntime) -> Result<(), Fail> {
    let case = Case {
        script: &[("p.0", 2), ("s.0", 2), ("p.0", 4)],
        board: "",
        boxes: &[
            plain("s", &["rpc_take\nhalt\n"]),
            plain("p", &[WAIT_AND_ASK]),
        ],
        rest: SERVER_OF_P,
    };
    check_log(&rt, rt.alloc(), &case, WAIT_AND_ASK_LOG)
}

const DOUBLING_SERVER: &str = "rpc_take
add r0 r0 r0
rpc_return r0
jump 0
";

const A_CALLER_THAT_ENDS_IS_SERVED_ALL_THE_SAME_LOG: &str = "unit switch p
turn p.0 posted 1
turn p.0 halted
unit switch s
start s.0 p.0#1 ok 0x00000007 Z Z Z Z
turn s.0 ok
turn s.0 ok
turn s.0 ok
idle s.0 status 2
turn p.0 ended
unit switch p
turn p.1 ok
thread s.0 ready 5 Z Z Z Z 0x00000007 0x00000001 Z 0x00000002
thread p.0 halted 2 Z 0x00000001 Z Z Z Z Z Z
thread p.1 ready 1 Z 0x00000001 Z Z Z Z Z Z
";

#[test]
fn a_caller_that_ends_is_served_all_the_same(rt: HostRuntime) -> Result<(), Fail> {
    let case = Case {
        script: &[("p.0", 2), ("s.0", 5), ("p.0", 1), ("p.1", 1)],
        board: "",
        boxes: &[
            plain("s", &[DOUBLING_SERVER]),
            plain(
                "p",
                &["rpc_call r1 0\nhalt\n", "set r1 1\nrpc_result r2 r1\n"],
            ),
        ],
        rest: SERVER_OF_P,
    };
    check_log(
        &rt,
        rt.alloc(),
        &case,
        A_CALLER_THAT_ENDS_IS_SERVED_ALL_THE_SAME_LOG,
    )
}

const TWO_STEPS: &str = "rpc_sync 0 9
halt
\"\"\"
steps = 2
# \"\"\"";

#[test]
fn a_thread_may_be_spent_while_it_waits(rt: HostRuntime) -> Result<(), Fail> {
    let log = "unit switch p
turn p.0 posted 1
turn p.0 waiting
turn p.0 ended
unit switch s
start s.0 p.0#1 ok 0x00000007 Z Z Z Z
turn s.0 ok
turn s.0 ok
turn p.0 ended
thread s.0 ready 3 Z Z Z Z 0x00000007 0x00000001 Z Z
thread p.0 spent 2 Z Z Z Z Z Z Z Z
";
    let case = Case {
        script: &[("p.0", 3), ("s.0", 3), ("p.0", 1)],
        board: "",
        boxes: &[plain("s", &[DOUBLING_SERVER]), plain("p", &[TWO_STEPS])],
        rest: SERVER_OF_P,
    };
    check_log(&rt, rt.alloc(), &case, log)
}

const WAIT_WITH_A_LINE: &str = "irq_on 5
rpc_sync 0 2
halt
set r1 1
irq_return
";

const LINE_FIVE: &str = "[[box.irq]]
line = 5
handler = 3
";

const WAIT_WITH_A_LINE_LOG: &str = "unit switch p
turn p.0 ok
turn p.0 posted 1
ring 5 by 0
turn p.0 waiting
turn p.0 status 1
turn p.0 irq 5
turn p.0 ok
turn p.0 ok
unit switch s
start s.0 p.0#1 ok 0x00000007 Z Z Z Z
unit switch p
turn p.0 halted
turn p.0 ended
thread p.0 halted 8 0x00000001 Z Z Z Z Z Z 0x00000001
thread s.0 ready 1 Z Z Z Z 0x00000007 Z Z Z
";

#[test]
fn a_waiting_thread_takes_no_interrupt(rt: HostRuntime) -> Result<(), Fail> {
    let case = Case {
        script: &[
            ("p.0", 2),
            ("ring 5", 1),
            ("p.0", 5),
            ("s.0", 1),
            ("p.0", 2),
        ],
        board: "",
        boxes: &[
            with_tables("p", &[WAIT_WITH_A_LINE], LINE_FIVE),
            plain("s", &[DOUBLING_SERVER]),
        ],
        rest: SERVER_OF_P,
    };
    check_log(&rt, rt.alloc(), &case, WAIT_WITH_A_LINE_LOG)
}

const ONE_LOOK: &str = "rpc_sync 0 1
rpc_result r2 r0
rpc_result r3 r0
mov r4 r7
halt
";

const ONE_LOOK_LOG: &str = "unit switch p
turn p.0 posted 1
turn p.0 status 1
unit switch s
start s.0 p.0#1 ok 0x00000007 Z Z Z Z
turn s.0 ok
turn s.0 ok
unit switch p
turn p.0 ok 0x00000000
turn p.0 status 4
turn p.0 ok
turn p.0 halted
thread p.0 halted 6 0x00000001 Z Z Z 0x00000004 Z Z 0x00000004
thread s.0 ready 3 Z Z Z Z 0x00000007 Z Z Z
";

#[test]
fn one_look_is_the_last_and_its_result_comes_later(rt: HostRuntime) -> Result<(), Fail> {
    let case = Case {
        script: &[("p.0", 2), ("s.0", 3), ("p.0", 4)],
        board: "",
        boxes: &[plain("p", &[ONE_LOOK]), plain("s", &[DOUBLING_SERVER])],
        rest: SERVER_OF_P,
    };
    check_log(&rt, rt.alloc(), &case, ONE_LOOK_LOG)
}

const WAIT_WITH_A_STATUS: &str = "set r7 5
rpc_sync 0 9
halt
";

const WAIT_WITH_A_STATUS_LOG: &str = "unit switch p
turn p.0 ok
turn p.0 posted 1
turn p.1 ok
turn p.1 posted 1
unit switch s
start s.0 p.0#1 ok 0x00000007 Z Z Z Z
turn s.0 ok
turn s.0 ok
unit switch p
turn p.0 ok 0x00000000
turn p.1 waiting
turn p.0 halted
thread s.0 ready 3 Z Z Z Z 0x00000007 0x00000001 Z Z
thread p.0 halted 4 Z Z Z Z Z Z Z Z
thread p.1 waiting 3 Z Z Z Z Z Z Z 0x00000005
";

#[test]
fn a_wait_leaves_the_registers_until_it_ends(rt: HostRuntime) -> Result<(), Fail> {
    let case = Case {
        script: &[
            ("p.0", 2),
            ("p.1", 2),
            ("s.0", 3),
            ("p.0", 1),
            ("p.1", 1),
            ("p.0", 1),
        ],
        board: "",
        boxes: &[
            plain("s", &[DOUBLING_SERVER]),
            plain("p", &[WAIT_WITH_A_STATUS, WAIT_WITH_A_STATUS]),
        ],
        rest: SERVER_OF_P,
    };
    check_log(&rt, rt.alloc(), &case, WAIT_WITH_A_STATUS_LOG)
}

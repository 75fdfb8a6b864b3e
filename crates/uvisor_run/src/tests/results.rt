use crate::tests::answers::check_log;
use crate::tests::inputs::{Case, plain};
use std::test::Fail;

const DOUBLING_SERVER: &str = "rpc_take
add r0 r0 r0
rpc_return r0
jump 0
";

const THREE_CALLS: &str = "set r0 5
rpc_call r1 0
mov r0 r1
rpc_call r2 0
mov r0 r2
rpc_call r3 0
rpc_result r4 r3
rpc_result r5 r1
rpc_result r6 r2
rpc_result r6 r2
rpc_result r4 r7
rpc_result r0 r4
";

const SERVER_OF_P: &str = "[[gateway]]
box = \"s\"
function = 7
callers = [\"p\"]
";

const THREE_CALLS_LOG: &str = "unit switch p
turn p.0 ok
turn p.0 posted 1
turn p.0 ok
turn p.0 posted 2
turn p.0 ok
turn p.0 posted 3
unit switch s
start s.0 p.0#1 ok 0x00000007 0x00000005 Z Z Z
turn s.0 ok
turn s.0 ok
turn s.0 ok
start s.0 p.0#2 ok 0x00000007 0x00000001 0x00000001 Z Z
turn s.0 ok
turn s.0 ok
turn s.0 ok
start s.0 p.0#3 ok 0x00000007 0x00000002 0x00000001 0x00000002 Z
turn s.0 ok
turn s.0 ok
turn s.0 ok
unit switch p
turn p.0 ok 0x00000004
turn p.0 ok 0x0000000A
turn p.0 ok 0x00000002
turn p.0 status 4
turn p.0 status 4
turn p.0 status 4
thread s.0 ready 12 0x00000004 0x00000001 0x00000002 Z 0x00000007 0x00000001 Z Z
thread p.0 ready 12 0x00000002 0x00000001 0x00000002 0x00000003 0x00000004 0x0000000A 0x00000002 0x00000004
";

#[test]
fn open_calls_are_collected_in_any_order(rt: HostRuntime) -> Result<(), Fail> {
    let case = Case {
        script: &[("p.0", 6), ("s.0", 12), ("p.0", 6)],
        board: "",
        boxes: &[plain("s", &[DOUBLING_SERVER]), plain("p", &[THREE_CALLS])],
        rest: SERVER_OF_P,
    };
    check_log(&rt, rt.alloc(), &case, THREE_CALLS_LOG)
}

const THE_CALLER: &str = "set r0 21
rpc_call r1 0
rpc_result r2 r1
rpc_result r3 r1
halt
";

const NO_CALLER: &str = "set r1 1
rpc_result r2 r1
rpc_result r2 r1
";

const THE_CALLER_LOG: &str = "unit switch p
turn p.0 ok
turn p.0 posted 1
unit switch s
start s.0 p.0#1 ok 0x00000007 0x00000015 Z Z Z
turn s.0 ok
turn s.0 ok
unit switch p
turn p.1 ok
turn p.1 status 4
turn p.0 ok 0x0000002A
turn p.0 status 4
turn p.0 halted
turn p.1 status 4
thread s.0 ready 3 0x0000002A Z Z Z 0x00000007 0x00000001 Z Z
thread p.0 halted 5 0x00000015 0x00000001 0x0000002A Z Z Z Z 0x00000004
thread p.1 ready 3 Z 0x00000001 Z Z Z Z Z 0x00000004
";

#[test]
fn a_result_is_its_callers_alone(rt: HostRuntime) -> Result<(), Fail> {
    let case = Case {
        script: &[("p.0", 2), ("s.0", 3), ("p.1", 2), ("p.0", 3), ("p.1", 1)],
        board: "",
        boxes: &[
            plain("s", &[DOUBLING_SERVER]),
            plain("p", &[THE_CALLER, NO_CALLER]),
        ],
        rest: SERVER_OF_P,
    };
    check_log(&rt, rt.alloc(), &case, THE_CALLER_LOG)
}

const INTO_R7: &str = "set r0 4
set r6 1
rpc_call r7 0
rpc_result r7 r6
halt
";

const INTO_R7_LOG: &str = "unit switch p
turn p.0 ok
turn p.0 ok
turn p.0 posted 1
unit switch s
start s.0 p.0#1 ok 0x00000007 0x00000004 Z Z Z
turn s.0 ok
turn s.0 ok
unit switch p
turn p.0 ok 0x00000008
turn p.0 halted
thread s.0 ready 3 0x00000008 Z Z Z 0x00000007 0x00000001 Z Z
thread p.0 halted 5 0x00000004 Z Z Z Z Z 0x00000001 Z
";

#[test]
fn the_word_that_a_call_gives_may_go_to_the_status_register(rt: HostRuntime) -> Result<(), Fail> {
    let case = Case {
        script: &[("p.0", 3), ("s.0", 3), ("p.0", 2)],
        board: "",
        boxes: &[plain("s", &[DOUBLING_SERVER]), plain("p", &[INTO_R7])],
        rest: SERVER_OF_P,
    };
    check_log(&rt, rt.alloc(), &case, INTO_R7_LOG)
}

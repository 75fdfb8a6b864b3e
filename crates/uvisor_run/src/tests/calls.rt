use crate::tests::answers::{check_log, check_text};
use crate::tests::boards::{SENSOR_BOARD, SENSOR_BOARD_LOG};
use crate::tests::inputs::{Case, input_of, plain};
use std::alloc::{AllocError, Global};
use std::test::Fail;

const DOUBLING_SERVER: &str = "rpc_take
add r0 r0 r0
rpc_return r0
jump 0
";

const TWO_CALLS: &str = "set r0 10
rpc_call r1 0
rpc_call r2 0
rpc_result r3 r1
rpc_result r3 r1
";

const ONE_CALL: &str = "set r0 20
rpc_call r1 0
rpc_result r3 r1
jump 2
";

const SERVER_OF_P_AND_Q: &str = "[[gateway]]
box = \"s\"
function = 7
callers = [\"p\", \"q\"]
";

const TWO_CALLS_LOG: &str = "unit switch p
turn p.0 ok
turn p.0 posted 1
unit switch q
turn q.0 ok
turn q.0 posted 1
unit switch p
turn p.0 posted 2
unit switch s
start s.0 p.0#1 ok 0x00000007 0x0000000A Z Z Z
turn s.0 ok
turn s.0 ok
unit switch p
turn p.0 ok 0x00000014
unit switch q
turn q.0 status 1
unit switch s
turn s.0 ok
start s.0 q.0#1 ok 0x00000007 0x00000014 Z Z Z
turn s.0 ok
turn s.0 ok
unit switch q
turn q.0 ok
turn q.0 ok 0x00000028
unit switch p
turn p.0 status 4
thread s.0 ready 7 0x00000028 Z Z Z 0x00000007 0x00000002 Z Z
thread p.0 ready 5 0x0000000A 0x00000001 0x00000002 0x00000014 Z Z Z 0x00000004
thread q.0 ready 5 0x00000014 0x00000001 Z 0x00000028 Z Z Z Z
";

/// The input of two callers of one server.
pub fn two_callers(alloc: Global) -> Result<String, AllocError> {
    let case = Case {
        script: &[
            ("p.0", 2),
            ("q.0", 2),
            ("p.0", 1),
            ("s.0", 3),
            ("p.0", 1),
            ("q.0", 1),
            ("s.0", 4),
            ("q.0", 2),
            ("p.0", 1),
        ],
        board: "",
        boxes: &[
            plain("s", &[DOUBLING_SERVER]),
            plain("p", &[TWO_CALLS]),
            plain("q", &[ONE_CALL]),
        ],
        rest: SERVER_OF_P_AND_Q,
    };
    input_of(alloc, &case)
}

#[test]
fn calls_start_in_the_order_posted(rt: HostRuntime) -> Result<(), Fail> {
    let input = two_callers(rt.alloc())?;
    check_text(&rt, rt.alloc(), "script", input.as_str(), 0, TWO_CALLS_LOG)
}

const SERVER_OF_P: &str = "[[gateway]]
box = \"s\"
function = 7
callers = [\"p\"]
";

const A_NINTH_CALL_FINDS_THE_INBOX_FULL_LOG: &str = "unit switch p
turn p.0 posted 1
turn p.0 ok
turn p.0 posted 2
turn p.0 ok
turn p.0 posted 3
turn p.0 ok
turn p.0 posted 4
turn p.0 ok
turn p.0 posted 5
turn p.0 ok
turn p.0 posted 6
turn p.0 ok
turn p.0 posted 7
turn p.0 ok
turn p.0 posted 8
turn p.0 ok
turn p.0 status 3
unit switch s
start s.0 p.0#1 ok 0x00000007 Z Z Z Z
unit switch p
turn p.0 ok
turn p.0 posted 9
thread s.0 ready 1 Z Z Z Z 0x00000007 0x00000001 Z Z
thread p.0 ready 19 Z 0x00000009 Z Z Z Z Z Z
";

#[test]
fn a_ninth_call_finds_the_inbox_full(rt: HostRuntime) -> Result<(), Fail> {
    let case = Case {
        script: &[("p.0", 17), ("s.0", 1), ("p.0", 2)],
        board: "",
        boxes: &[
            plain("s", &["rpc_take\nhalt\n"]),
            plain("p", &["rpc_call r1 0\njump 0\n"]),
        ],
        rest: SERVER_OF_P,
    };
    check_log(
        &rt,
        rt.alloc(),
        &case,
        A_NINTH_CALL_FINDS_THE_INBOX_FULL_LOG,
    )
}

#[test]
fn a_synchronous_call_times_out(rt: HostRuntime) -> Result<(), Fail> {
    let log = "unit switch p
turn p.0 posted 1
turn p.0 waiting
turn p.0 status 1
turn p.0 halted
thread p.0 halted 4 0x00000001 Z Z Z Z Z Z 0x00000001
thread s.0 ready 0 Z Z Z Z Z Z Z Z
";
    let case = Case {
        script: &[("p.0", 4)],
        board: "",
        boxes: &[
            plain("p", &["rpc_sync 0 2\nhalt\n"]),
            plain("s", &["halt\n"]),
        ],
        rest: SERVER_OF_P,
    };
    check_log(&rt, rt.alloc(), &case, log)
}

const WRONG_GATEWAYS: &str = "rpc_call r1 1
rpc_sync 65535 9
rpc_call r7 0
rpc_call r1 2
";

const NO_CALLER_OF_GATEWAY_1: &str = "[[gateway]]
box = \"s\"
function = 7
callers = [\"p\"]
[[gateway]]
box = \"s\"
function = 8
callers = []
";

#[test]
fn only_callers_call_by_gateways_that_are_there(rt: HostRuntime) -> Result<(), Fail> {
    let log = "unit switch s
turn s.0 status 9
turn s.0 status 9
unit switch p
turn p.0 status 9
turn p.0 status 9
turn p.0 posted 1
turn p.0 status 9
thread s.0 ready 2 Z Z Z Z Z Z Z 0x00000009
thread p.0 ready 4 Z Z Z Z Z Z Z 0x00000009
";
    let case = Case {
        script: &[("s.0", 2), ("p.0", 4)],
        board: "",
        boxes: &[
            plain("s", &["rpc_call r1 0\nrpc_sync 0 1\n"]),
            plain("p", &[WRONG_GATEWAYS]),
        ],
        rest: NO_CALLER_OF_GATEWAY_1,
    };
    check_log(&rt, rt.alloc(), &case, log)
}

#[test]
fn a_realistic_board(rt: HostRuntime) -> Result<(), Fail> {
    check_text(&rt, rt.alloc(), "script", SENSOR_BOARD, 0, SENSOR_BOARD_LOG)
}

const TEN_CALLS: &str = "rpc_call r1 0
rpc_call r1 0
rpc_call r1 0
rpc_call r1 0
rpc_call r1 0
rpc_call r1 0
rpc_call r1 0
rpc_call r1 0
rpc_call r1 0
rpc_call r1 0
";

const TEN_CALLS_LOG: &str = "unit switch p
turn p.0 posted 1
turn p.0 posted 2
turn p.0 posted 3
turn p.0 posted 4
turn p.0 posted 5
turn p.0 posted 6
turn p.0 posted 7
turn p.0 posted 8
turn p.0 status 3
unit switch s
start s.0 p.0#1 ok 0x00000007 Z Z Z Z
unit switch p
turn p.0 posted 9
unit switch s
turn s.0 status 11
turn s.0 ok
thread s.0 ready 3 Z Z Z Z 0x00000007 0x00000001 Z Z
thread p.0 ready 10 Z 0x00000009 Z Z Z Z Z Z
";

#[test]
fn a_started_call_leaves_room_for_another(rt: HostRuntime) -> Result<(), Fail> {
    let case = Case {
        script: &[("p.0", 9), ("s.0", 1), ("p.0", 1), ("s.0", 2)],
        board: "",
        boxes: &[
            plain("s", &["rpc_take\nrpc_take\nrpc_return r6\n"]),
            plain("p", &[TEN_CALLS]),
        ],
        rest: SERVER_OF_P,
    };
    check_log(&rt, rt.alloc(), &case, TEN_CALLS_LOG)
}

use crate::tests::answers::check_log;
use crate::tests::inputs::{Case, Sketch, plain, with_tables};
use std::test::Fail;

const TAKE_TWICE: &str = "rpc_return r1
rpc_take
jump 3
rpc_take
rpc_take
rpc_return r2
rpc_return r2
rpc_take
";

const SERVER_OF_P: &str = "[[gateway]]
box = \"s\"
function = 7
callers = [\"p\"]
";

const TAKE_TWICE_LOG: &str = "unit switch s
turn s.0 status 10
idle s.0 status 2
turn s.0 ok
unit switch p
turn p.0 ok
turn p.0 posted 1
unit switch s
start s.0 p.0#1 ok 0x00000007 Z Z 0x00000006 Z
turn s.0 status 11
turn s.0 ok
turn s.0 status 10
idle s.0 status 2
turn s.1 status 9
turn s.1 status 10
thread s.0 ready 8 Z Z 0x00000006 Z 0x00000007 0x00000001 Z 0x00000002
thread s.1 ready 2 Z Z Z Z Z Z Z 0x0000000A
thread p.0 ready 2 Z 0x00000001 0x00000006 Z Z Z Z Z
";

#[test]
fn a_server_takes_returns_and_looks(rt: HostRuntime) -> Result<(), Fail> {
    let case = Case {
        script: &[("s.0", 3), ("p.0", 2), ("s.0", 5), ("s.1", 2)],
        board: "",
        boxes: &[
            plain("s", &[TAKE_TWICE, "rpc_take\nrpc_return r0\n"]),
            plain("p", &["set r2 6\nrpc_call r1 0\n"]),
        ],
        rest: SERVER_OF_P,
    };
    check_log(&rt, rt.alloc(), &case, TAKE_TWICE_LOG)
}

const SELF_CALLER: &str = "set r0 4
rpc_call r6 0
rpc_take
add r0 r0 r0
rpc_return r0
rpc_result r1 r6
rpc_sync 0 2
halt
";

const SERVER_OF_ITSELF: &str = "[[gateway]]
box = \"s\"
function = 7
callers = [\"s\"]
";

#[test]
fn a_server_may_call_itself(rt: HostRuntime) -> Result<(), Fail> {
    let log = "unit switch s
turn s.0 ok
turn s.0 posted 1
start s.0 s.0#1 ok 0x00000007 0x00000004 Z Z Z
turn s.0 ok
turn s.0 ok
turn s.0 ok 0x00000008
turn s.0 posted 2
turn s.0 waiting
turn s.0 status 1
turn s.0 halted
thread s.0 halted 10 0x00000002 0x00000008 Z Z 0x00000007 Z 0x00000001 0x00000001
";
    let case = Case {
        script: &[("s.0", 10)],
        board: "",
        boxes: &[plain("s", &[SELF_CALLER])],
        rest: SERVER_OF_ITSELF,
    };
    check_log(&rt, rt.alloc(), &case, log)
}

const FRONT: &str = "set r0 3
rpc_sync 0 9
halt
";

const BACK: &str = "rpc_take
jnz r7 0
add r0 r0 r0
rpc_return r0
";

const MIDDLE: &str = "rpc_take
rpc_sync 1 9
rpc_return r0
";

const THERE_AND_BACK: &str = "[[gateway]]
box = \"b\"
function = 1
callers = [\"a\"]
[[gateway]]
box = \"a\"
function = 2
callers = [\"b\"]
";

const FRONT_LOG: &str = "unit switch a
idle a.1 status 2
turn a.0 ok
turn a.0 posted 1
unit switch b
start b.0 a.0#1 ok 0x00000001 0x00000003 Z Z Z
turn b.0 posted 1
unit switch a
turn a.0 waiting
turn a.1 ok
unit switch b
turn b.0 waiting
unit switch a
start a.1 b.0#1 ok 0x00000002 0x00000003 Z Z Z
turn a.1 ok
turn a.1 ok
turn a.1 ok
unit switch b
turn b.0 ok 0x00000006
turn b.0 ok
unit switch a
turn a.0 ok 0x00000006
turn a.0 halted
thread a.0 halted 5 0x00000006 Z Z Z Z Z Z Z
thread a.1 ready 6 0x00000006 Z Z Z 0x00000002 0x00000001 Z Z
thread b.0 ready 5 0x00000006 Z Z Z 0x00000001 Z Z Z
";

#[test]
fn a_box_is_called_back_while_its_call_is_served(rt: HostRuntime) -> Result<(), Fail> {
    let case = Case {
        script: &[
            ("a.1", 1),
            ("a.0", 2),
            ("b.0", 2),
            ("a.0", 1),
            ("a.1", 1),
            ("b.0", 1),
            ("a.1", 4),
            ("b.0", 2),
            ("a.0", 2),
        ],
        board: "",
        boxes: &[
            Sketch {
                name: "a",
                keys: "server = 1\n",
                programs: &[FRONT, BACK],
                tables: "",
            },
            plain("b", &[MIDDLE]),
        ],
        rest: THERE_AND_BACK,
    };
    check_log(&rt, rt.alloc(), &case, FRONT_LOG)
}

const SERVING_HANDLER: &str = "irq_on 5
jump 1
halt
rpc_call r6 0
rpc_take
rpc_return r0
rpc_result r3 r6
irq_return
";

const LINE_FIVE: &str = "[[box.irq]]
line = 5
handler = 3
";

const SYNC_CALL: &str = "rpc_sync 0 9
halt
";

const SERVER_OF_BOTH: &str = "[[gateway]]
box = \"s\"
function = 7
callers = [\"s\", \"p\"]
";

const SERVING_HANDLER_LOG: &str = "unit switch s
turn s.0 ok
ring 5 by 0
turn s.0 irq 5
turn s.0 posted 1
unit switch p
turn p.0 posted 1
unit switch s
start s.0 s.0#1 ok 0x00000007 0x00000005 Z Z Z
turn s.0 ok
ring 5 by 0
turn s.0 ok 0x00000005
unit switch p
turn p.0 waiting
unit switch s
turn s.0 ok
turn s.0 irq 5
thread s.0 ready 8 0x00000005 Z Z Z Z Z Z Z
thread p.0 waiting 2 Z Z Z Z Z Z Z Z
";

#[test]
fn a_handler_may_call_and_serve(rt: HostRuntime) -> Result<(), Fail> {
    let case = Case {
        script: &[
            ("s.0", 1),
            ("ring 5", 1),
            ("s.0", 2),
            ("p.0", 1),
            ("s.0", 2),
            ("ring 5", 1),
            ("s.0", 1),
            ("p.0", 1),
            ("s.0", 2),
        ],
        board: "",
        boxes: &[
            with_tables("s", &[SERVING_HANDLER], LINE_FIVE),
            plain("p", &[SYNC_CALL]),
        ],
        rest: SERVER_OF_BOTH,
    };
    check_log(&rt, rt.alloc(), &case, SERVING_HANDLER_LOG)
}

const CALLER_AND_SERVER: &str = "rpc_call r6 0
rpc_take
rpc_return r5
jump 1
";

const CALL_TWICE: &str = "rpc_call r1 0
rpc_call r1 0
rpc_result r2 r1
";

const SERVER_OF_ALL: &str = "[[gateway]]
box = \"s\"
function = 7
callers = [\"s\", \"p\"]
";

const CALL_TWICE_LOG: &str = "unit switch s
turn s.0 posted 1
unit switch p
turn p.0 posted 1
turn p.1 posted 1
turn p.2 posted 1
turn p.3 posted 1
turn p.4 posted 1
turn p.5 posted 1
turn p.6 posted 1
turn p.7 status 3
turn p.8 status 3
turn p.9 status 3
turn p.10 status 3
turn p.11 status 3
turn p.12 status 3
turn p.13 status 3
turn p.14 status 3
unit switch s
start s.0 s.0#1 ok 0x00000007 Z Z Z Z
turn s.0 ok
turn s.0 ok
unit switch p
turn p.14 posted 1
turn p.7 status 3
turn p.0 status 3
unit switch s
start s.0 p.0#1 ok 0x00000007 Z Z Z Z
turn s.0 ok
turn s.0 ok
unit switch p
turn p.0 ok 0x00000001
thread s.0 ready 7 Z Z Z Z 0x00000007 0x00000001 0x00000001 Z
thread p.0 ready 3 Z 0x00000001 0x00000001 Z Z Z Z Z
thread p.1 ready 1 Z 0x00000001 Z Z Z Z Z Z
thread p.2 ready 1 Z 0x00000001 Z Z Z Z Z Z
thread p.3 ready 1 Z 0x00000001 Z Z Z Z Z Z
thread p.4 ready 1 Z 0x00000001 Z Z Z Z Z Z
thread p.5 ready 1 Z 0x00000001 Z Z Z Z Z Z
thread p.6 ready 1 Z 0x00000001 Z Z Z Z Z Z
thread p.7 ready 2 Z Z Z Z Z Z Z 0x00000003
thread p.8 ready 1 Z Z Z Z Z Z Z 0x00000003
thread p.9 ready 1 Z Z Z Z Z Z Z 0x00000003
thread p.10 ready 1 Z Z Z Z Z Z Z 0x00000003
thread p.11 ready 1 Z Z Z Z Z Z Z 0x00000003
thread p.12 ready 1 Z Z Z Z Z Z Z 0x00000003
thread p.13 ready 1 Z Z Z Z Z Z Z 0x00000003
thread p.14 ready 2 Z 0x00000001 Z Z Z Z Z Z
";

#[test]
fn sixteen_threads_call_one_box(rt: HostRuntime) -> Result<(), Fail> {
    let case = Case {
        script: &[
            ("s.0", 1),
            ("p.0", 1),
            ("p.1", 1),
            ("p.2", 1),
            ("p.3", 1),
            ("p.4", 1),
            ("p.5", 1),
            ("p.6", 1),
            ("p.7", 1),
            ("p.8", 1),
            ("p.9", 1),
            ("p.10", 1),
            ("p.11", 1),
            ("p.12", 1),
            ("p.13", 1),
            ("p.14", 1),
            ("s.0", 3),
            ("p.14", 1),
            ("p.7", 1),
            ("p.0", 1),
            ("s.0", 3),
            ("p.0", 1),
        ],
        board: "",
        boxes: &[
            plain("s", &[CALLER_AND_SERVER]),
            plain(
                "p",
                &[
                    CALL_TWICE, CALL_TWICE, CALL_TWICE, CALL_TWICE, CALL_TWICE, CALL_TWICE,
                    CALL_TWICE, CALL_TWICE, CALL_TWICE, CALL_TWICE, CALL_TWICE, CALL_TWICE,
                    CALL_TWICE, CALL_TWICE, CALL_TWICE,
                ],
            ),
        ],
        rest: SERVER_OF_ALL,
    };
    check_log(&rt, rt.alloc(), &case, CALL_TWICE_LOG)
}

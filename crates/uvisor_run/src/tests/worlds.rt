use crate::tests::answers::answer_to;
use crate::tests::boards::HEAP;
use crate::tests::inputs::{Case, input_of, plain, with_tables};
use std::alloc::{AllocError, Global};
use std::process::Abort;
use std::test::Fail;

// The lines of a log that tell the turns of this thread.
fn turns_of(alloc: Global, log: &[u8], thread: &str) -> Result<Vec<u8>, AllocError> {
    let mut head = String::from_str(alloc, "turn ")?;
    head.push_str(thread)?;
    let mut turns = Vec::new(alloc);
    for line in log.split(|byte| *byte == b'\n') {
        if line.starts_with(head.as_bytes()) {
            turns.extend_from_slice(line)?;
            turns.push(b'\n')?;
        }
    }
    Ok(turns)
}

// Checks what the threads `p.0` and `q.0` are answered in a world.
fn check_world(
    rt: &impl Abort,
    alloc: Global,
    case: &Case,
    of_p: &str,
    of_q: &str,
) -> Result<(), Fail> {
    let input = input_of(alloc, case)?;
    let answer = answer_to(alloc, &["script"], input.as_bytes())?;
    assert_eq!(rt; answer.status, 0);
    let turns = turns_of(alloc, answer.sink.bytes(), "p.0")?;
    assert_eq!(rt; turns.as_slice(), of_p.as_bytes(), "of {input}");
    let turns = turns_of(alloc, answer.sink.bytes(), "q.0")?;
    assert_eq!(rt; turns.as_slice(), of_q.as_bytes(), "of {input}");
    Ok(())
}

const SERVER: &str = "rpc_take
add r0 r0 r0
rpc_return r0
jump 0
";

const TWO_CALLS: &str = "set r0 10
rpc_call r1 0
rpc_call r2 0
rpc_result r3 r1
rpc_result r3 r1
";

const GATEWAY: &str = "[[gateway]]
box = \"s\"
function = 7
callers = [\"p\", \"q\"]
";

const CALL_WITH_20: &str = "set r0 20
rpc_call r1 0
rpc_result r3 r1
jump 2
";

const CALL_WITH_21: &str = "set r0 21
rpc_call r1 0
rpc_result r3 r1
jump 2
";

// What `p` is answered in each world.
const CALLS_OF_P: &str = "turn p.0 ok
turn p.0 posted 1
turn p.0 posted 2
turn p.0 ok 0x00000014
turn p.0 status 4
";

const CALL_WITH_20_OF_Q: &str = "turn q.0 ok
turn q.0 posted 1
turn q.0 status 1
turn q.0 ok
turn q.0 ok 0x00000028
";

const CALL_WITH_21_OF_Q: &str = "turn q.0 ok
turn q.0 posted 1
turn q.0 status 1
turn q.0 ok
turn q.0 ok 0x0000002A
";

#[test]
fn an_argument_of_another_caller_changes_no_reply(rt: HostRuntime) -> Result<(), Fail> {
    let worlds = [
        (CALL_WITH_20, CALL_WITH_20_OF_Q),
        (CALL_WITH_21, CALL_WITH_21_OF_Q),
    ];
    for (program, of_q) in worlds {
        let programs = [program];
        let case = Case {
            script: &[
                ("p.0", 2),
                ("q.0", 2),
                ("p.0", 1),
                ("s.0", 3),
                ("p.0", 1),
                ("q.0", 1),
                ("s.0", 4),
                ("q.0", 2),
                ("p.0", 1),
            ],
            board: "",
            boxes: &[
                plain("s", &[SERVER]),
                plain("p", &[TWO_CALLS]),
                plain("q", &programs),
            ],
            rest: GATEWAY,
        };
        check_world(&rt, rt.alloc(), &case, CALLS_OF_P, of_q)?;
    }
    Ok(())
}

const TAKE_FREE_AND_TAKE: &str = "set r0 2
set r1 0x20000000
pages_alloc r0 r1
load32 r2 r1 0
page_free r2
set r0 1
pages_alloc r0 r1
load32 r3 r2 0
";

const TAKE_THREE: &str = "set r0 3
set r1 0x20000100
pages_alloc r0 r1
load32 r2 r1 4
";

const TAKE_FIVE: &str = "set r0 5
set r1 0x20000100
pages_alloc r0 r1
load32 r2 r1 4
";

const TAKE_SEVEN: &str = "set r0 7
set r1 0x20000100
pages_alloc r0 r1
load32 r2 r1 4
";

// What `p` is answered in each world.
const PAGES_OF_P: &str = "turn p.0 ok
turn p.0 ok
turn p.0 frames 0 1
turn p.0 ok 0x20008000
turn p.0 ok
turn p.0 ok
turn p.0 frames 0
turn p.0 ok 0x00000000
";

const TAKE_THREE_OF_Q: &str = "turn q.0 ok
turn q.0 ok
turn q.0 frames 2 3 4
turn q.0 ok 0x20008C00
";

const TAKE_FIVE_OF_Q: &str = "turn q.0 ok
turn q.0 ok
turn q.0 frames 2 3 4 5 6
turn q.0 ok 0x20008C00
";

const TAKE_SEVEN_OF_Q: &str = "turn q.0 ok
turn q.0 ok
turn q.0 status 5
turn q.0 ok 0x00000000
";

#[test]
fn a_count_of_pages_that_leaves_enough_changes_no_reply(rt: HostRuntime) -> Result<(), Fail> {
    let worlds = [
        (TAKE_THREE, TAKE_THREE_OF_Q),
        (TAKE_FIVE, TAKE_FIVE_OF_Q),
        (TAKE_SEVEN, TAKE_SEVEN_OF_Q),
    ];
    for (program, of_q) in worlds {
        let programs = [program];
        let case = Case {
            script: &[("p.0", 4), ("q.0", 4), ("p.0", 4)],
            board: HEAP,
            boxes: &[plain("p", &[TAKE_FREE_AND_TAKE]), plain("q", &programs)],
            rest: "",
        };
        check_world(&rt, rt.alloc(), &case, PAGES_OF_P, of_q)?;
    }
    Ok(())
}

const READ_BY_Q: &str = "[[register]]
at = 0x40000100
op = \"read\"
boxes = [\"q\"]
";

const WORD_IS_1: &str = "words = [[0x40000100, 1]]
";

const WORD_IS_2: &str = "words = [[0x40000100, 2]]
";

// What `p` is answered in each world.
const REGISTERS_OF_P: &str = "turn p.0 status 9
turn p.0 fault daccviol 0x40000100
";

const WORD_IS_1_OF_Q: &str = "turn q.0 ok 0x00000001
";

const WORD_IS_2_OF_Q: &str = "turn q.0 ok 0x00000002
";

#[test]
fn a_register_of_another_box_changes_no_reply(rt: HostRuntime) -> Result<(), Fail> {
    let worlds = [(WORD_IS_1, WORD_IS_1_OF_Q), (WORD_IS_2, WORD_IS_2_OF_Q)];
    for (board, of_q) in worlds {
        let case = Case {
            script: &[("q.0", 1), ("p.0", 2)],
            board,
            boxes: &[
                plain("p", &["gw_read r1 0\nload32 r2 r0 0x40000100\n"]),
                plain("q", &["gw_read r1 0\n"]),
            ],
            rest: READ_BY_Q,
        };
        check_world(&rt, rt.alloc(), &case, REGISTERS_OF_P, of_q)?;
    }
    Ok(())
}

// A script that rings the line of `q`, and one that does not.
const RINGS: &[(&str, usize)] = &[
    ("q.0", 1),
    ("p.0", 1),
    ("ring 5", 1),
    ("p.0", 1),
    ("q.0", 1),
    ("p.0", 1),
    ("ring 5", 1),
    ("q.0", 1),
    ("p.0", 1),
];

const NO_RINGS: &[(&str, usize)] = &[
    ("q.0", 1),
    ("p.0", 2),
    ("q.0", 1),
    ("p.0", 1),
    ("q.0", 1),
    ("p.0", 1),
];

const LINE_OF_Q: &str = "[[box.irq]]
line = 5
handler = 3
";

const LINE_AND_LOOP: &str = "irq_on 5
set r1 1
jump 1
irq_return
";

const LOOP_ALONE: &str = "irq_on 5
set r1 1
jump 1
";

// What `p` is answered in each world.
const RINGS_OF_P: &str = "turn p.0 status 9
turn p.0 ok
turn p.0 ok
turn p.0 ok
";

const RINGS_OF_Q: &str = "turn q.0 ok
turn q.0 irq 5
turn q.0 ok
";

const NO_RINGS_OF_Q: &str = "turn q.0 ok
turn q.0 ok
turn q.0 ok
";

#[test]
fn a_ring_of_another_boxs_line_changes_no_reply(rt: HostRuntime) -> Result<(), Fail> {
    let worlds = [(RINGS, RINGS_OF_Q), (NO_RINGS, NO_RINGS_OF_Q)];
    for (script, of_q) in worlds {
        let case = Case {
            script,
            board: "",
            boxes: &[
                plain("p", &[LOOP_ALONE]),
                with_tables("q", &[LINE_AND_LOOP], LINE_OF_Q),
            ],
            rest: "",
        };
        check_world(&rt, rt.alloc(), &case, RINGS_OF_P, of_q)?;
    }
    Ok(())
}

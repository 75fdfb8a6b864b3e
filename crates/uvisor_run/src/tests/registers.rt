use crate::tests::answers::check_log;
use crate::tests::inputs::{Case, plain, with_tables};
use std::test::Fail;

// The word that the gateways of these tests read and change.
const WORD: &str = "words = [[0x40000100, 0x12345678]]
";

const WRITE_AND_READ: &str = "set r0 0xABCDABCD
gw_write r0 0
gw_read r1 1
gw_read r1 0
";

const REPLACE_AND_READ: &str = "[[register]]
at = 0x40000100
op = \"replace\"
mask = 0x0000FF00
boxes = [\"a\"]
[[register]]
at = 0x40000100
op = \"read\"
boxes = [\"a\"]
";

#[test]
fn register_gateways_write_through_a_mask(rt: HostRuntime) -> Result<(), Fail> {
    let log = "unit switch a
turn a.0 ok
turn a.0 ok
turn a.0 ok 0x1234AB78
turn a.0 status 9
unit switch b
turn b.0 status 9
thread a.0 ready 4 0xABCDABCD 0x1234AB78 Z Z Z Z Z 0x00000009
thread b.0 ready 1 Z Z Z Z Z Z Z 0x00000009
";
    let case = Case {
        script: &[("a.0", 4), ("b.0", 1)],
        board: WORD,
        boxes: &[
            plain("a", &[WRITE_AND_READ]),
            plain("b", &["gw_read r1 1\n"]),
        ],
        rest: REPLACE_AND_READ,
    };
    check_log(&rt, rt.alloc(), &case, log)
}

const WRONG_WAYS: &str = "set r0 7
gw_write r0 1
gw_write r0 2
gw_read r1 0
gw_read r1 4
gw_write r0 65535
gw_write r0 3
gw_read r1 3
gw_read r1 1
";

const OF_ANOTHER_BOX: &str = "set r0 7
gw_write r0 0
gw_read r1 1
gw_read r1 2
gw_write r0 3
gw_read r1 3
";

const FOUR_GATEWAYS: &str = "[[register]]
at = 0x40000100
op = \"write\"
boxes = [\"a\"]
[[register]]
at = 0x40000100
op = \"read\"
boxes = [\"a\"]
[[register]]
at = 0x40000100
op = \"read_and\"
mask = 0xFF
boxes = [\"b\", \"a\", \"b\"]
[[register]]
at = 0x40000100
op = \"read\"
boxes = []
";

const WRONG_WAYS_LOG: &str = "unit switch a
turn a.0 ok
turn a.0 status 9
turn a.0 status 9
turn a.0 status 9
turn a.0 status 9
turn a.0 status 9
turn a.0 status 9
turn a.0 status 9
turn a.0 ok 0x12345678
unit switch b
turn b.0 ok
turn b.0 status 9
turn b.0 status 9
turn b.0 ok 0x00000078
turn b.0 status 9
turn b.0 status 9
thread a.0 ready 9 0x00000007 0x12345678 Z Z Z Z Z Z
thread b.0 ready 6 0x00000007 0x00000078 Z Z Z Z Z 0x00000009
";

#[test]
fn gateways_answer_one_direction_and_their_boxes_alone(rt: HostRuntime) -> Result<(), Fail> {
    let case = Case {
        script: &[("a.0", 9), ("b.0", 6)],
        board: WORD,
        boxes: &[plain("a", &[WRONG_WAYS]), plain("b", &[OF_ANOTHER_BOX])],
        rest: FOUR_GATEWAYS,
    };
    check_log(&rt, rt.alloc(), &case, WRONG_WAYS_LOG)
}

const BY_A_GATEWAY: &str = "set r0 0x40000100
gw_write r0 0
gw_read r7 1
gw_read r2 1
load32 r3 r0 0
";

const BY_A_GRANT: &str = "load32 r1 r0 0x40000100
store8 r0 r0 0x40000103
";

const GRANT_OF_THE_WORD: &str = "[[box.grant]]
base = 0x40000100
len = 0x20
rights = \"rw\"
";

const OR_AND_READ: &str = "[[register]]
at = 0x40000100
op = \"or\"
boxes = [\"a\"]
[[register]]
at = 0x40000100
op = \"read\"
boxes = [\"a\"]
";

const BY_A_GATEWAY_LOG: &str = "unit switch a
turn a.0 ok
turn a.0 ok
turn a.0 ok 0x52345778
unit switch b
unit rotate 2 0x40000100 0x13000009
unit access read 4 0x40000100 slot 2
turn b.0 ok 0x52345778
unit access write 1 0x40000103 slot 2
turn b.0 ok
unit switch a
turn a.0 ok 0x00345778
unit access read 4 0x40000100 denied
turn a.0 fault daccviol 0x40000100
thread a.0 faulted 5 0x40000100 Z 0x00345778 Z Z Z Z Z
thread b.0 ready 2 Z 0x52345778 Z Z Z Z Z Z
";

#[test]
fn a_gateway_asks_no_unit(rt: HostRuntime) -> Result<(), Fail> {
    // The value that goes to `r7` is replaced by the 0 of a call that is done.
    let case = Case {
        script: &[("a.0", 3), ("b.0", 2), ("a.0", 2)],
        board: WORD,
        boxes: &[
            plain("a", &[BY_A_GATEWAY]),
            with_tables("b", &[BY_A_GRANT], GRANT_OF_THE_WORD),
        ],
        rest: OR_AND_READ,
    };
    check_log(&rt, rt.alloc(), &case, BY_A_GATEWAY_LOG)
}

use crate::tests::answers::{check_log, check_text};
use crate::tests::inputs::{Case, plain};
use std::test::Fail;

const IN_SMALL_PAGES: &str = "set r0 2
set r1 0x20000000
pages_alloc r0 r1
set r2 0x20008000
store32 r0 r2 0x1C
store8 r0 r2 0x3F
load8 r3 r2 0x40
";

const SMALLEST_PAGES: &str = "heap = { base = 0x20008000, page = 32, count = 8 }
";

const IN_SMALL_PAGES_LOG: &str = "unit switch a
turn a.0 ok
turn a.0 ok
unit flush
turn a.0 frames 0 1
turn a.0 ok
unit rotate 2 0x20008000 0x1300FC0F
unit access write 4 0x2000801C slot 2
turn a.0 ok
unit access write 1 0x2000803F slot 2
turn a.0 ok
unit access read 1 0x20008040 denied
turn a.0 fault daccviol 0x20008040
unit access read 1 0x20007FFF denied
turn a.1 fault daccviol 0x20007FFF
thread a.0 faulted 7 0x00000002 0x20000000 0x20008000 Z Z Z Z Z
thread a.1 faulted 1 Z Z Z Z Z Z Z Z
";

#[test]
fn the_smallest_page_has_32_bytes(rt: HostRuntime) -> Result<(), Fail> {
    let case = Case {
        script: &[("a.0", 7), ("a.1", 1)],
        board: SMALLEST_PAGES,
        boxes: &[plain("a", &[IN_SMALL_PAGES, "load8 r3 r0 0x20007FFF\n"])],
        rest: "",
    };
    check_log(&rt, rt.alloc(), &case, IN_SMALL_PAGES_LOG)
}

// Pages of 65,536 bytes, which are a half of SRAM.
const LARGEST_PAGES: &str = "format = 1
script = [\"a.0\", \"a.0\", \"a.0\", \"a.0\", \"a.0\", \"a.0\", \"a.0\", \"a.0\", \"a.1\"]
[board]
flash = [0x0, 0x100000]
sram = [0x20000000, 0x100000]
peripherals = [0x40000000, 0x100000]
heap = { base = 0x20080000, page = 65536, count = 8 }
[[box]]
name = \"a\"
size = 256
[[box.thread]]
program = \"\"\"
set r0 3
set r1 0x20000000
pages_alloc r0 r1
load32 r2 r1 4
page_free r2
set r2 0x20080000
store32 r0 r2 0xFFFC
load32 r3 r2 0x20000
\"\"\"
[[box.thread]]
program = \"load8 r1 r0 0x20090000\"
";

const LARGEST_PAGES_LOG: &str = "unit switch a
turn a.0 ok
turn a.0 ok
unit flush
turn a.0 frames 0 1 2
unit access read 4 0x20000004 slot 1
turn a.0 ok 0x20090000
unit flush
turn a.0 ok
turn a.0 ok
unit rotate 2 0x20080000 0x1300FA25
unit access write 4 0x2008FFFC slot 2
turn a.0 ok
unit access read 4 0x200A0000 slot 2
turn a.0 ok 0x00000000
unit access read 1 0x20090000 denied
turn a.1 fault daccviol 0x20090000
thread a.0 ready 8 0x00000003 0x20000000 0x20080000 Z Z Z Z Z
thread a.1 faulted 1 Z Z Z Z Z Z Z Z
";

#[test]
fn the_largest_page_has_65536_bytes(rt: HostRuntime) -> Result<(), Fail> {
    check_text(
        &rt,
        rt.alloc(),
        "script",
        LARGEST_PAGES,
        0,
        LARGEST_PAGES_LOG,
    )
}

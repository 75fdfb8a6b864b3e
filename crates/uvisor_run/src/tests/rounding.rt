use crate::tests::answers::{check_log, check_refused, check_text};
use crate::tests::inputs::{Case, Sketch, input_of, with_tables};
use std::test::Fail;

// A case of box a with one program and these tables.
fn granted<'a>(script: &'a [(&'a str, usize)], boxes: &'a [Sketch<'a>]) -> Case<'a> {
    Case {
        script,
        board: "",
        boxes,
        rest: "",
    }
}

const ROUNDED_DOWN: &str =
    "[[box.grant]]\nbase = 0x40000100\nlen = 0x1FF\nrights = \"rw\"\nround = \"down\"\n";

#[test]
fn a_grant_is_rounded_down_to_a_power_of_two(rt: HostRuntime) -> Result<(), Fail> {
    let boxes = [with_tables("a", &["halt"], ROUNDED_DOWN)];
    let input = input_of(rt.alloc(), &granted(&[], &boxes))?;
    let text = "box a
item rx 0x00000000 0x00100000
item rw 0x20000000 0x00000100
item rw 0x40000100 0x00000100
server 0
thread a.0 steps 10000
0 halt
";
    check_text(&rt, rt.alloc(), "check", input.as_str(), 0, text)
}

#[test]
fn a_rounded_grant_is_one_region(rt: HostRuntime) -> Result<(), Fail> {
    let programs = ["store8 r1 r0 0x40000100\nstore8 r1 r0 0x400001FF\nstore8 r1 r0 0x40000200"];
    let boxes = [with_tables("a", &programs, ROUNDED_DOWN)];
    let log = "unit switch a
unit rotate 2 0x40000100 0x1300000F
unit access write 1 0x40000100 slot 2
turn a.0 ok
unit access write 1 0x400001FF slot 2
turn a.0 ok
unit access write 1 0x40000200 denied
turn a.0 fault daccviol 0x40000200
thread a.0 faulted 3 Z Z Z Z Z Z Z Z
";
    check_log(&rt, rt.alloc(), &granted(&[("a.0", 3)], &boxes), log)
}

#[test]
fn grants_that_no_rule_allows_are_refused(rt: HostRuntime) -> Result<(), Fail> {
    let table: [(&str, &str); 5] = [
        (
            "[[box.grant]]\nbase = 0x40000100\nlen = 31\nrights = \"rw\"\nround = \"down\"\n",
            "refused BadGrant box 0 grant 0\n",
        ),
        (
            "[[box.grant]]\nbase = 0x40000110\nlen = 32\nrights = \"rw\"\n",
            "refused BadGrant box 0 grant 0\n",
        ),
        (
            "[[box.grant]]\nbase = 0x40000020\nlen = 0x44\nrights = \"rw\"\nround = \"up\"\n",
            "refused BadGrant box 0 grant 0\n",
        ),
        (
            "[[box.grant]]\nbase = 0x20000000\nlen = 0x20\nrights = \"rw\"\n",
            "refused GrantOutside box 0 grant 0\n",
        ),
        (
            "[[box.grant]]\nbase = 0x400FFFE0\nlen = 0x40\nrights = \"rw\"\n",
            "refused GrantOutside box 0 grant 0\n",
        ),
    ];
    for (tables, line) in table {
        let boxes = [with_tables("a", &["halt"], tables)];
        check_refused(&rt, rt.alloc(), &granted(&[], &boxes), line)?;
    }
    Ok(())
}

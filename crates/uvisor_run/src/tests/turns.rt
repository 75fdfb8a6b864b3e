use crate::tests::answers::check_log;
use crate::tests::inputs::{Case, Sketch, plain};
use std::test::Fail;

// A case of one box with one program.
fn alone<'a>(script: &'a [(&'a str, usize)], boxes: &'a [Sketch<'a>]) -> Case<'a> {
    Case {
        script,
        board: "",
        boxes,
        rest: "",
    }
}

#[test]
fn an_empty_script_runs_nothing(rt: HostRuntime) -> Result<(), Fail> {
    let log = "thread a.0 ready 0 Z Z Z Z Z Z Z Z\n";
    check_log(&rt, rt.alloc(), &alone(&[], &[plain("a", &["halt"])]), log)
}

#[test]
fn a_thread_that_no_word_names_never_runs(rt: HostRuntime) -> Result<(), Fail> {
    let boxes = [plain("a", &["halt", "set r0 1"]), plain("b", &["halt"])];
    let log = "unit switch a
turn a.1 ok
thread a.0 ready 0 Z Z Z Z Z Z Z Z
thread a.1 ready 1 0x00000001 Z Z Z Z Z Z Z
thread b.0 ready 0 Z Z Z Z Z Z Z Z
";
    check_log(&rt, rt.alloc(), &alone(&[("a.1", 1)], &boxes), log)
}

#[test]
fn a_spent_thread_does_nothing(rt: HostRuntime) -> Result<(), Fail> {
    // The program's text ends the string of the program and adds the key of the budget.
    let program = "jump 0\n\"\"\"\nsteps = 2\n# \"\"\"";
    let log = "unit switch a
turn a.0 ok
turn a.0 ok
turn a.0 ended
thread a.0 spent 2 Z Z Z Z Z Z Z Z
";
    check_log(
        &rt,
        rt.alloc(),
        &alone(&[("a.0", 3)], &[plain("a", &[program])]),
        log,
    )
}

#[test]
fn a_jump_past_the_program_faults(rt: HostRuntime) -> Result<(), Fail> {
    let log = "unit switch a
turn a.0 ok
turn a.0 fault place 0x0000012C
thread a.0 faulted 2 Z Z Z Z Z Z Z Z
";
    check_log(
        &rt,
        rt.alloc(),
        &alone(&[("a.0", 2)], &[plain("a", &["jump 300"])]),
        log,
    )
}

#[test]
fn an_empty_program_faults_at_its_first_turn(rt: HostRuntime) -> Result<(), Fail> {
    let log = "unit switch a
turn a.0 fault place 0x00000000
turn a.0 ended
thread a.0 faulted 1 Z Z Z Z Z Z Z Z
";
    for program in ["", "; a comment is no instruction\n\n"] {
        let programs = [program];
        let boxes = [plain("a", &programs)];
        check_log(&rt, rt.alloc(), &alone(&[("a.0", 2)], &boxes), log)?;
    }
    Ok(())
}

const FOUR_THREADS_LOG: &str = "unit switch a
turn a.0 ok
turn a.0 ok
turn a.1 ok
unit switch b
turn b.1 ok 0x00000001
unit switch a
unit access write 4 0x20000010 slot 1
turn a.0 ok
unit access read 4 0x20000010 slot 1
turn a.1 ok 0x00000007
unit switch b
turn b.0 ok
unit access read 4 0x20000010 denied
turn b.0 fault daccviol 0x20000010
turn b.1 halted
thread a.0 ready 3 0x20000010 0x00000007 Z Z Z Z Z Z
thread a.1 ready 2 0x20000010 0x00000007 Z Z Z Z Z Z
thread b.0 faulted 2 0x20000010 Z Z Z Z Z Z Z
thread b.1 halted 2 Z Z 0x00000001 Z Z Z Z Z
";

#[test]
fn two_boxes_of_two_threads_take_turns(rt: HostRuntime) -> Result<(), Fail> {
    let boxes = [
        plain(
            "a",
            &[
                "set r0 0x20000010\nset r1 7\nstore32 r1 r0 0",
                "set r0 0x20000010\nload32 r1 r0 0",
            ],
        ),
        plain(
            "b",
            &["set r0 0x20000010\nload32 r1 r0 0", "box_id r2\nhalt"],
        ),
    ];
    let script = [
        ("a.0", 2),
        ("a.1", 1),
        ("b.1", 1),
        ("a.0", 1),
        ("a.1", 1),
        ("b.0", 2),
        ("b.1", 1),
    ];
    check_log(&rt, rt.alloc(), &alone(&script, &boxes), FOUR_THREADS_LOG)
}

use crate::tests::answers::{Answer, answer_to};
use crate::tests::boards::SENSOR_BOARD;
use std::alloc::Global;
use std::process::Abort;
use std::test::Fail;

// Whether the bytes are one line that begins with `refused` and a space.
fn is_refusal_line(bytes: &[u8]) -> bool {
    let ends = bytes.iter().filter(|byte| **byte == b'\n').count();
    bytes.starts_with("refused ".as_bytes()) && bytes.ends_with("\n".as_bytes()) && ends == 1
}

// Checks that an input was served with a text that begins so, or refused by one line.
fn check_told(rt: &impl Abort, answer: &Answer, begin: &str, length: usize) {
    if answer.status == 0 {
        assert!(rt;
            answer.sink.bytes().starts_with(begin.as_bytes()),
            "at {length}"
        );
    } else {
        assert_eq!(rt; answer.status, 1, "at {length}");
        assert!(rt; is_refusal_line(answer.sink.bytes()), "at {length}");
    }
    assert_eq!(rt; answer.sink.faults(), 0, "at {length}");
}

// Checks each beginning of the board under a command whose text begins so.
fn check_beginnings(
    rt: &impl Abort,
    alloc: Global,
    command: &str,
    begin: &str,
) -> Result<(), Fail> {
    let whole = SENSOR_BOARD.as_bytes();
    for length in 0..=whole.len() {
        let answer = answer_to(alloc, &[command], &whole[..length])?;
        check_told(rt, &answer, begin, length);
    }
    Ok(())
}

#[test]
fn each_beginning_of_a_board_is_resolved_or_refused_by_one_line(
    rt: HostRuntime,
) -> Result<(), Fail> {
    check_beginnings(&rt, rt.alloc(), "check", "box main\n")
}

#[test]
fn each_beginning_of_a_board_is_run_or_refused_by_one_line(rt: HostRuntime) -> Result<(), Fail> {
    check_beginnings(
        &rt,
        rt.alloc(),
        "script",
        "unit switch main\nturn main.0 ok\n",
    )
}

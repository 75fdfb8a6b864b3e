use crate::scripted;
use crate::tests::answers::{ample_sink, check_log, source_of, words_of, written};
use crate::tests::boards::{HEAP, SENSOR_BOARD, SENSOR_BOARD_CHECK, SENSOR_BOARD_LOG};
use crate::tests::inputs::{Case, plain};
use io_edge::{MemSink, MemSource};
use std::alloc::Global;
use std::process::Abort;
use std::test::Fail;

const EACH_CALL: &str = "set r0 1
set r1 0x20000100
pages_alloc r0 r1
set r2 0x20008000
page_free r2
rpc_result r3 r0
gw_write r0 65535
irq_on 65535
rpc_call r3 31
rpc_return r0
irq_return
load32 r4 r2 0
";

const EACH_CALL_LOG: &str = "unit switch b
turn b.0 ok
turn b.0 ok
unit flush
turn b.0 frames 0
unit switch a
turn a.0 ok
turn a.0 ok
turn a.0 status 6
turn a.0 ok
turn a.0 status 8
turn a.0 status 4
turn a.0 status 9
turn a.0 status 9
turn a.0 status 9
turn a.0 status 10
turn a.0 status 9
unit access read 4 0x20008000 denied
turn a.0 fault daccviol 0x20008000
thread a.0 faulted 12 0x00000001 0x20000100 0x20008000 Z Z Z Z 0x00000009
thread b.0 ready 3 0x00000001 0x20000100 Z Z Z Z Z Z
";

#[test]
fn each_call_for_what_is_not_the_boxs_own_is_answered_by_a_status(
    rt: HostRuntime,
) -> Result<(), Fail> {
    let case = Case {
        script: &[("b.0", 3), ("a.0", 12)],
        board: HEAP,
        boxes: &[
            plain("a", &[EACH_CALL]),
            plain("b", &["set r0 1\nset r1 0x20000100\npages_alloc r0 r1\n"]),
        ],
        rest: "",
    };
    check_log(&rt, rt.alloc(), &case, EACH_CALL_LOG)
}

#[test]
fn a_table_past_the_last_address_and_a_jump_past_the_program_are_answered(
    rt: HostRuntime,
) -> Result<(), Fail> {
    let case = Case {
        script: &[("a.0", 5)],
        board: HEAP,
        boxes: &[plain(
            "a",
            &["set r1 0xFFFFFFFC\nset r0 2\npages_alloc r0 r1\njump 65535\n"],
        )],
        rest: "",
    };
    let log = "unit switch a
turn a.0 ok
turn a.0 ok
turn a.0 status 6
turn a.0 ok
turn a.0 fault place 0x0000FFFF
thread a.0 faulted 5 0x00000002 0xFFFFFFFC Z Z Z Z Z 0x00000006
";
    check_log(&rt, rt.alloc(), &case, log)
}

// A source of the board that gives 64 bytes a call, and fails at this call.
fn failing_source(alloc: Global, call: u64) -> Result<MemSource, Fail> {
    let bytes = Vec::from_slice(alloc, SENSOR_BOARD.as_bytes())?;
    Ok(MemSource::new(bytes, 64, vec![in alloc; call]?))
}

// Checks that a command answers the read that fails, and writes nothing.
fn check_failed_read(
    rt: &impl Abort,
    alloc: Global,
    words: &Vec<String>,
    call: u64,
) -> Result<(), Fail> {
    let mut source = failing_source(alloc, call)?;
    let mut sink = ample_sink(alloc)?;
    let status = scripted(alloc, words, &mut source, &mut sink);
    assert_eq!(rt; status, 3, "at read {call}");
    assert_eq!(rt; sink.calls(), 0, "at read {call}");
    assert_eq!(rt; source.calls(), call, "at read {call}");
    assert_eq!(rt; source.faults(), 1, "at read {call}");
    Ok(())
}

// Checks that a command makes so many reads, each of which may fail.
fn check_failed_reads(
    rt: &impl Abort,
    alloc: Global,
    command: &str,
    reads: u64,
) -> Result<(), Fail> {
    let words = words_of(alloc, &[command])?;
    for call in 1..=reads {
        check_failed_read(rt, alloc, &words, call)?;
    }
    let mut source = failing_source(alloc, reads.saturating_add(1))?;
    let mut sink = ample_sink(alloc)?;
    assert_eq!(rt;
        scripted(alloc, &words, &mut source, &mut sink),
        0,
        "{command}"
    );
    assert_eq!(rt; source.calls(), reads, "{command}");
    Ok(())
}

#[test]
fn each_read_of_a_board_may_fail(rt: HostRuntime) -> Result<(), Fail> {
    // The last read finds the end.
    let reads = SENSOR_BOARD.len().div_ceil(64) as u64 + 1;
    check_failed_reads(&rt, rt.alloc(), "script", reads)?;
    check_failed_reads(&rt, rt.alloc(), "check", reads)
}

// Checks that a command answers a write that fails behind so many writes of 16 bytes, and that
// just these were written.
fn check_failed_write(
    rt: &impl Abort,
    alloc: Global,
    words: &Vec<String>,
    whole: &[u8],
    writes: usize,
) -> Result<(), Fail> {
    let call = (writes as u64).saturating_add(1);
    let mut source = source_of(alloc, SENSOR_BOARD.as_bytes(), Vec::new(alloc))?;
    let room = Vec::with_capacity(alloc, 8192)?;
    let mut sink = MemSink::new(room, 16, vec![in alloc; call]?);
    let status = scripted(alloc, words, &mut source, &mut sink);
    let written = writes.saturating_mul(16).min(whole.len());
    assert_eq!(rt; status, 4, "at write {call}");
    assert_eq!(rt; sink.bytes(), &whole[..written], "at write {call}");
    assert_eq!(rt; sink.calls(), call, "at write {call}");
    assert_eq!(rt; sink.faults(), 1, "at write {call}");
    Ok(())
}

// Checks that a command writes this text of the board, and that each write of 16 bytes may fail.
fn check_failed_writes(
    rt: &impl Abort,
    alloc: Global,
    command: &str,
    text: &str,
) -> Result<(), Fail> {
    let whole = written(alloc, text)?;
    let calls = whole.len().div_ceil(16);
    let words = words_of(alloc, &[command])?;
    for writes in 0..calls {
        check_failed_write(rt, alloc, &words, whole.as_bytes(), writes)?;
    }
    let mut source = source_of(alloc, SENSOR_BOARD.as_bytes(), Vec::new(alloc))?;
    let mut sink = MemSink::new(Vec::with_capacity(alloc, 8192)?, 16, Vec::new(alloc));
    assert_eq!(rt;
        scripted(alloc, &words, &mut source, &mut sink),
        0,
        "{command}"
    );
    assert_eq!(rt; sink.bytes(), whole.as_bytes(), "{command}");
    assert_eq!(rt; sink.calls(), calls as u64, "{command}");
    Ok(())
}

#[test]
fn each_write_of_a_boards_output_may_fail(rt: HostRuntime) -> Result<(), Fail> {
    check_failed_writes(&rt, rt.alloc(), "script", SENSOR_BOARD_LOG)?;
    check_failed_writes(&rt, rt.alloc(), "check", SENSOR_BOARD_CHECK)
}

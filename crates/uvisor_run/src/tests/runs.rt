use crate::tests::answers::ample_sink;
use crate::tests::boards::{ONE_BOX, ONE_BOX_CHECK};
use crate::tests::inputs::{Case, input_of, plain};
use crate::{accept, run_script, write_check};
use addr_base::{BoxId, Kind, ThreadId, Verdict};
use flat_model::{Choice, Config, End, Entry, Flaw, Log, Logged, Mode, Reply, UnitLine};
use std::alloc::{AllocError, Global};
use std::process::Abort;
use std::test::Fail;

// The configuration of a text, and the log of its script.
fn run_of(rt: &impl Abort, alloc: Global, input: &str) -> Result<(Config, Log), Fail> {
    let config = accept(alloc, input.as_bytes()).map_err(|_| "refused")?;
    let run = run_script(alloc, config).map_err(|_| "no memory")?;
    Ok(run)
}

// The entry of a turn of this thread.
fn turn(thread: u8, reply: Reply) -> Logged {
    Logged::Core(Entry {
        choice: Choice::Turn {
            t: ThreadId(thread),
            room: true,
        },
        reply,
    })
}

// The line of a switch to this box.
fn switch(to: u8) -> Logged {
    Logged::Unit(UnitLine::Switch(BoxId(to)))
}

// The line of an access to four bytes.
fn access(kind: Kind, at: u32, verdict: Verdict) -> Logged {
    Logged::Unit(UnitLine::Access {
        kind,
        size: 4,
        at,
        verdict,
    })
}

// The end of a thread.
fn end(mode: Mode, steps: u32, first: u32, second: u32) -> End {
    End {
        mode,
        steps,
        regs: [first, second, 0, 0, 0, 0, 0, 0],
    }
}

// Box a stores a word of its own memory in one thread and loads it in the other; box b may not load it.
fn two_boxes(alloc: Global) -> Result<String, AllocError> {
    let first = [
        "set r0 0x20000010\nstore32 r0 r0 0",
        "load32 r1 r0 0x20000010",
    ];
    let second = ["load32 r1 r0 0x20000010", "set r1 7\nhalt"];
    let case = Case {
        script: &[("a.0", 2), ("b.1", 1), ("a.1", 1), ("b.0", 2), ("b.1", 1)],
        board: "",
        boxes: &[plain("a", &first), plain("b", &second)],
        rest: "",
    };
    input_of(alloc, &case)
}

#[test]
fn two_boxes_of_two_threads_leave_their_items(rt: HostRuntime) -> Result<(), Fail> {
    let input = two_boxes(rt.alloc())?;
    let (_, log) = run_of(&rt, rt.alloc(), input.as_str())?;
    let fault = Reply::Fault {
        why: Flaw::Daccviol,
        at: 0x2000_0010,
    };
    let items = [
        switch(0),
        turn(0, Reply::Done),
        access(Kind::Write, 0x2000_0010, Verdict::Granted(1)),
        turn(0, Reply::Done),
        switch(1),
        turn(3, Reply::Done),
        switch(0),
        access(Kind::Read, 0x2000_0010, Verdict::Granted(1)),
        turn(1, Reply::Value(0x2000_0010)),
        switch(1),
        access(Kind::Read, 0x2000_0010, Verdict::Denied),
        turn(2, fault),
        turn(2, Reply::Ended),
        turn(3, Reply::Halted),
    ];
    assert_eq!(rt; log.items.as_slice(), items.as_slice());
    let ends = [
        end(Mode::Ready, 2, 0x2000_0010, 0),
        end(Mode::Ready, 1, 0, 0x2000_0010),
        end(Mode::Faulted, 1, 0, 0),
        end(Mode::Halted, 2, 0, 7),
    ];
    assert_eq!(rt; log.ends.as_slice(), ends.as_slice());
    Ok(())
}

#[test]
fn the_calls_below_the_top_answer_with_ample_memory(rt: HostRuntime) -> Result<(), Fail> {
    let checked = accept(rt.alloc(), ONE_BOX.as_bytes()).map_err(|_| "refused")?;
    let mut sink = ample_sink(rt.alloc())?;
    assert_eq!(rt; write_check(&checked, &mut sink).is_ok(), true);
    assert_eq!(rt; sink.bytes(), ONE_BOX_CHECK.as_bytes());
    let (config, log) = run_of(&rt, rt.alloc(), ONE_BOX)?;
    assert_eq!(rt; config.threads.len(), 1);
    assert_eq!(rt; log.ends.len(), 1);
    assert_eq!(rt; log.items.len(), 7);
    Ok(())
}

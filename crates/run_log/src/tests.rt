use crate::{read_log, write_log};
use flat_model::{
    BoxId, Choice, End, Entry, Kind, LogErr, Logged, Mode, OutOfMemory, Reply, ThreadId, UnitLine,
    Verdict,
};
use io_edge::{MemSink, WriteErr};
use sample_board::one_box;
use std::alloc::Global;
use std::test::Fail;

// The output of a box that stores a word in its own memory, loads it again and halts.
const LINES: [&str; 8] = [
    "unit switch a\n",
    "turn a.0 ok\n",
    "unit access write 4 0x20000004 slot 1\n",
    "turn a.0 ok\n",
    "unit access read 4 0x20000004 slot 1\n",
    "turn a.0 ok 0x20000000\n",
    "turn a.0 halted\n",
    concat!(
        "thread a.0 halted 4 0x20000000 0x20000000 0x00000000 0x00000000 0x00000000 0x00000000 ",
        "0x00000000 0x00000000\n"
    ),
];

// The lines, with another in place of one of them.
fn text(alloc: Global, place: usize, line: &str) -> Result<Vec<u8>, OutOfMemory> {
    let mut bytes = Vec::new(alloc);
    for (i, good) in LINES.iter().enumerate() {
        let line = if i == place { line } else { *good };
        bytes.extend_from_slice(line.as_bytes())?;
    }
    Ok(bytes)
}

fn turn(reply: Reply) -> Logged {
    Logged::Core(Entry {
        choice: Choice::Turn {
            t: ThreadId(0),
            room: true,
        },
        reply,
    })
}

fn access(kind: Kind) -> Logged {
    Logged::Unit(UnitLine::Access {
        kind,
        size: 4,
        at: 0x2000_0004,
        verdict: Verdict::Granted(1),
    })
}

#[test]
fn the_first_run_is_read_and_written_back(rt: HostRuntime) -> Result<(), Fail> {
    let config = one_box(rt.alloc())?;
    let bytes = text(rt.alloc(), 8, "")?;
    assert!(rt; bytes.len() < 1000);
    let log = read_log(rt.alloc(), &config, &bytes)?;
    let items = [
        Logged::Unit(UnitLine::Switch(BoxId(0))),
        turn(Reply::Done),
        access(Kind::Write),
        turn(Reply::Done),
        access(Kind::Read),
        turn(Reply::Value(0x2000_0000)),
        turn(Reply::Halted),
    ];
    let end = End {
        mode: Mode::Halted,
        steps: 4,
        regs: [0x2000_0000, 0x2000_0000, 0, 0, 0, 0, 0, 0],
    };
    assert_eq!(rt; log.items.as_slice(), items.as_slice());
    assert_eq!(rt; log.ends.as_slice(), [end].as_slice());
    let mut sink = MemSink::new(
        Vec::with_capacity(rt.alloc(), 1000)?,
        1000,
        Vec::new(rt.alloc()),
    );
    assert!(rt; write_log(&config, &log, &mut sink).is_ok());
    assert_eq!(rt; sink.bytes(), bytes.as_slice());
    assert_eq!(rt; sink.calls(), 1);
    Ok(())
}

#[test]
fn a_text_that_is_cut_is_refused_where_it_ends(rt: HostRuntime) -> Result<(), Fail> {
    let config = one_box(rt.alloc())?;
    let bytes = text(rt.alloc(), 8, "")?;
    assert!(rt; bytes.len() < 1000);
    let mut line = 1;
    for (n, byte) in bytes.iter().enumerate() {
        let read = read_log(rt.alloc(), &config, &bytes[..n]);
        assert_eq!(rt;
            read.err(),
            Some(LogErr::BadText { line }),
            "after {n} bytes"
        );
        if *byte == b'\n' {
            line = line.saturating_add(1);
        }
    }
    assert_eq!(rt; line, 9);
    Ok(())
}

#[test]
fn a_bad_line_is_refused_where_it_stands(rt: HostRuntime) -> Result<(), Fail> {
    let config = one_box(rt.alloc())?;
    for (place, bad, line) in [
        (0, "turn z.0 ok\n", 1),
        (1, "turn a.0 okay\n", 2),
        (1, "turn a.0 ok \n", 2),
        (1, "turn  a.0 ok\n", 2),
        (1, "\n", 2),
        (1, "turn z.0 ok\n", 2),
        (1, "turn a.1 ok\n", 2),
        (1, "turn a.00 ok\n", 2),
        (1, "turn a.0 status 256\n", 2),
        (1, "turn a.0 posted 4294967296\n", 2),
        (1, "turn a.0 irq 64\n", 2),
        (1, "turn a.0 frames 3 1\n", 2),
        (1, "turn a.0 frames\n", 2),
        (1, "turn a.0 fault place 0x2C\n", 2),
        (1, "start a.0 a.0#1 status 11\n", 2),
        (1, "idle a.0 status 3\n", 2),
        (1, "ring 64 by 0\n", 2),
        (2, "unit access write 04 0x20000004 slot 1\n", 3),
        (2, "unit access write 3 0x20000004 slot 1\n", 3),
        (2, "unit access write 4 0x2000000a slot 1\n", 3),
        (2, "unit access write 4 0x20000004 slot 8\n", 3),
        (2, "unit rotate 8 0x00000000 0x00000000\n", 3),
        (2, "unit switch b\n", 3),
        (3, LINES[7], 5),
        (7, "thread a.0 halted 4 0x20000000\n", 8),
        (7, "turn a.0 ok\n", 9),
    ] {
        let bytes = text(rt.alloc(), place, bad)?;
        assert!(rt; bytes.len() < 1000);
        let read = read_log(rt.alloc(), &config, &bytes);
        assert_eq!(rt; read.err(), Some(LogErr::BadText { line }), "{bad}");
    }
    Ok(())
}

#[test]
fn every_line_is_read_and_written_back(rt: HostRuntime) -> Result<(), Fail> {
    let config = one_box(rt.alloc())?;
    for good in [
        "turn a.0 ended\n",
        "turn a.0 status 3\n",
        "turn a.0 status 255\n",
        "turn a.0 posted 4294967295\n",
        "turn a.0 waiting\n",
        "turn a.0 irq 63\n",
        "turn a.0 frames 0 7 255\n",
        "turn a.0 fault unaligned 0x200000FE\n",
        "start a.0 a.0#0 status 12\n",
        "start a.0 a.0#1 ok 0x00000001 0x00000002 0x00000003 0x00000004 0x00000005\n",
        "idle a.0 status 2\n",
        "ring 0 by 255\n",
        "unit rotate 7 0x40011000 0x13000009\n",
        "unit flush\n",
        "unit access fetch 2 0x00000000 denied\n",
    ] {
        let bytes = text(rt.alloc(), 3, good)?;
        assert!(rt; bytes.len() < 1000);
        let log = read_log(rt.alloc(), &config, &bytes)?;
        let mut sink = MemSink::new(
            Vec::with_capacity(rt.alloc(), 1000)?,
            1000,
            Vec::new(rt.alloc()),
        );
        assert!(rt; write_log(&config, &log, &mut sink).is_ok(), "{good}");
        assert_eq!(rt; sink.bytes(), bytes.as_slice(), "{good}");
    }
    Ok(())
}

#[test]
fn a_sink_that_fails_keeps_a_prefix(rt: HostRuntime) -> Result<(), Fail> {
    let config = one_box(rt.alloc())?;
    let bytes = text(rt.alloc(), 8, "")?;
    assert!(rt; bytes.len() < 1000);
    let log = read_log(rt.alloc(), &config, &bytes)?;
    let fail_at = vec![in rt.alloc(); 2]?;
    let mut sink = MemSink::new(Vec::with_capacity(rt.alloc(), 1000)?, 16, fail_at);
    assert_eq!(rt;
        write_log(&config, &log, &mut sink).err(),
        Some(WriteErr::Fault)
    );
    assert_eq!(rt; sink.bytes(), b"unit switch a\ntu".as_slice());
    Ok(())
}

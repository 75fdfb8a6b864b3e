ghost use Rattle.std.specs.Prelude.{◌≤◌};

use crate::{input_number, make_input, write_tally};
use addr_base::{BoxId, Kind, Line, Pair, ThreadId, Ticket, Verdict};
use flat_model::{Choice, Entry, Flaw, Items, Log, Logged, Reply, UnitLine};
use io_edge::{MemSink, WriteErr};
use std::alloc::{AllocError, Global};
use std::test::Fail;

// The line of an access to four bytes.
fn access(verdict: Verdict) -> Logged {
    Logged::Unit(UnitLine::Access {
        kind: Kind::Write,
        size: 4,
        at: 0x2000_0000,
        verdict,
    })
}

// The entry of a turn of thread 0.
fn turn(reply: Reply) -> Logged {
    Logged::Core(Entry {
        choice: Choice::Turn {
            t: ThreadId(0),
            room: true,
        },
        reply,
    })
}

// The entry of another choice than a turn.
fn other(choice: Choice, reply: Reply) -> Logged {
    Logged::Core(Entry { choice, reply })
}

// A log that has each count once more than the count before it: no two are the same.
fn ladder(alloc: Global) -> Result<Log, AllocError> {
    let t = ThreadId(0);
    let ticket = Ticket { thread: t, seq: 1 };
    let pair = Pair { rbar: 0, rasr: 0 };
    let steps = [
        Logged::Unit(UnitLine::Switch(BoxId(0))),
        Logged::Unit(UnitLine::Rotate { slot: 3, pair }),
        Logged::Unit(UnitLine::Flush),
        access(Verdict::Granted(3)),
        access(Verdict::Denied),
        turn(Reply::Done),
        other(Choice::Start { t, ticket }, Reply::Status(12)),
        other(Choice::Idle { t }, Reply::Status(2)),
        other(
            Choice::Ring {
                line: Line(5),
                by: 0,
            },
            Reply::Done,
        ),
        turn(Reply::Posted(7)),
        turn(Reply::Fault {
            why: Flaw::Place,
            at: 8,
        }),
    ];
    let mut items = Vec::new(alloc);
    for (count, item) in steps.iter().enumerate() {
        for _ in 0..count + 1 {
            items.push(*item)?;
        }
    }
    Ok(Log {
        items: Items::from_vec(items),
        ends: Items::from_vec(Vec::new(alloc)),
    })
}

// A sink that takes so many bytes in one call, and fails at the calls of these numbers.
fn sink(alloc: Global, piece: usize, fail_at: &[u64]) -> Result<MemSink, AllocError>
    requires { 1 ≤ piece }
{
    let bytes = Vec::with_capacity(alloc, 1000)?;
    Ok(MemSink::new(bytes, piece, Vec::from_slice(alloc, fail_at)?))
}

const LADDER_LINE: &str =
    "tally 65535 items 66 switches 1 rotations 2 flushes 3 granted 4 denied 5 turns 27 starts 7 idles 8 rings 9 posted 10 faults 11\n";

#[test]
fn each_count_has_its_own_items(rt: HostRuntime) -> Result<(), Fail> {
    let log = ladder(rt.alloc())?;
    let mut sink = sink(rt.alloc(), 1000, &[])?;
    assert_eq!(rt; write_tally(65_535, &log, &mut sink), Ok(()));
    assert_eq!(rt; sink.bytes(), LADDER_LINE.as_bytes());
    assert_eq!(rt; sink.calls(), 1);
    Ok(())
}

#[test]
fn an_empty_log_has_counts_of_zero(rt: HostRuntime) -> Result<(), Fail> {
    let log = Log {
        items: Items::from_vec(Vec::new(rt.alloc())),
        ends: Items::from_vec(Vec::new(rt.alloc())),
    };
    let mut sink = sink(rt.alloc(), 1000, &[])?;
    assert_eq!(rt; write_tally(1, &log, &mut sink), Ok(()));
    let due =
        "tally 1 items 0 switches 0 rotations 0 flushes 0 granted 0 denied 0 turns 0 starts 0 idles 0 rings 0 posted 0 faults 0\n";
    assert_eq!(rt; sink.bytes(), due.as_bytes());
    Ok(())
}

#[test]
fn a_failing_sink_keeps_a_front_of_the_counts(rt: HostRuntime) -> Result<(), Fail> {
    let log = ladder(rt.alloc())?;
    let table: [(u64, &str); 3] = [
        (1, ""),
        (2, "tally 65535 item"),
        (3, "tally 65535 items 66 switches 1 "),
    ];
    for (call, front) in table {
        let mut sink = sink(rt.alloc(), 16, &[call])?;
        assert_eq!(rt; write_tally(65_535, &log, &mut sink), Err(WriteErr::Fault));
        assert_eq!(rt; sink.bytes(), front.as_bytes(), "at write {call}");
        assert_eq!(rt; sink.faults(), 1);
    }
    Ok(())
}

const FIRST_LINES: &str = "format = 1
script = [
\"w0.0\",
\"w0.0\",
\"w2.0\",
\"w3.0\",
";

const LAST_LINES: &str = "[[gateway]]
box = \"w3\"
function = 3
callers = [\"w0\", \"w1\", \"w2\", \"w3\"]
";

#[test]
fn the_first_input_has_its_words_and_its_length(rt: HostRuntime) -> Result<(), Fail> {
    let text = make_input(rt.alloc(), 1).map_err(|_| "no memory")?;
    assert_eq!(rt; text.len(), 163_532);
    assert_eq!(rt; text.as_slice().starts_with(FIRST_LINES.as_bytes()), true);
    assert_eq!(rt; text.as_slice().ends_with(LAST_LINES.as_bytes()), true);
    Ok(())
}

#[test]
fn other_numbers_draw_other_words_and_lengths(rt: HostRuntime) -> Result<(), Fail> {
    for (n, length) in [(2, 163_537), (65_535, 163_534)] {
        let text = make_input(rt.alloc(), n).map_err(|_| "no memory")?;
        assert_eq!(rt; text.len(), length, "of input {n}");
    }
    Ok(())
}

#[test]
fn input_numbers_have_no_sign_and_no_leading_zero(rt: HostRuntime) -> Result<(), Fail> {
    let good: [(&str, u32); 5] = [
        ("1", 1),
        ("9", 9),
        ("10", 10),
        ("65535", 65_535),
        ("40000", 40_000),
    ];
    for (word, n) in good {
        assert_eq!(rt; input_number(word), Some(n), "{word}");
    }
    let bad = [
        "",
        "0",
        "007",
        "01",
        "65536",
        "99999",
        "-1",
        "+1",
        "1 ",
        " 1",
        "x",
        "1x",
        "0x1",
        "1.0",
        "100000",
        "18446744073709551617",
    ];
    for word in bad {
        assert_eq!(rt; input_number(word), None, "{word}");
    }
    Ok(())
}

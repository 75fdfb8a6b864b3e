ghost use Rattle.std.specs.Prelude.{◌≤◌};

use crate::scripted;
use crate::tests::answers::{Answer, source_of, words_of};
use io_edge::MemSink;
use std::alloc::{AllocError, Global};
use std::process::Abort;
use std::test::Fail;
use workload::make_input;

// What the program leaves of these words and this input, where the sink takes so many bytes in one
// call and fails at these calls.
fn answer_with(
    alloc: Global,
    texts: &[&str],
    input: &[u8],
    piece: usize,
    fail_at: &[u64],
) -> Result<Answer, AllocError>
    requires { 1 ≤ piece }
{
    let words = words_of(alloc, texts)?;
    let mut source = source_of(alloc, input, Vec::new(alloc))?;
    let room = Vec::with_capacity(alloc, 200_000)?;
    let mut sink = MemSink::new(room, piece, Vec::from_slice(alloc, fail_at)?);
    let status = scripted(alloc, &words, &mut source, &mut sink);
    Ok(Answer {
        status,
        source,
        sink,
    })
}

// The input that is made from this number.
fn made(alloc: Global, n: u32) -> Result<Vec<u8>, Fail> {
    Ok(make_input(alloc, n).map_err(|_| "no memory")?)
}

// Checks that `make` writes the text of a number, and that `check` accepts it.
fn check_made(rt: &impl Abort, alloc: Global, n: u32, word: &str) -> Result<(), Fail> {
    let text = made(alloc, n)?;
    let answer = answer_with(alloc, &["make", word], b"unread", 200_000, &[])?;
    assert_eq!(rt; answer.status, 0);
    assert_eq!(rt; answer.sink.bytes() == text.as_slice(), true);
    assert_eq!(rt; answer.source.calls(), 0);
    let checked = answer_with(alloc, &["check"], text.as_slice(), 200_000, &[])?;
    assert_eq!(rt; checked.status, 0);
    Ok(())
}

#[test]
fn the_second_made_input_is_accepted(rt: HostRuntime) -> Result<(), Fail> {
    check_made(&rt, rt.alloc(), 2, "2")
}

#[test]
fn the_last_made_input_is_accepted(rt: HostRuntime) -> Result<(), Fail> {
    check_made(&rt, rt.alloc(), 65_535, "65535")
}

const FIRST_TALLY: &str =
    "tally 1 items 52349 switches 15056 rotations 6371 flushes 1822 granted 9100 denied 0 turns 19091 starts 894 idles 15 rings 0 posted 908 faults 0\n";

// The sum of the counts with these names in a line of counts.
fn sum_of(line: &str, names: &[&str]) -> u32 {
    let mut sum = 0u32;
    let mut is_counted = false;
    for word in line.trim().split(' ') {
        if is_counted {
            sum = sum.saturating_add(word.parse::<u32>().unwrap_or(0));
        }
        is_counted = names.iter().any(|known| *known == word);
    }
    sum
}

// Turns, starts and idle looks add up to the 20,000 words, no word rings, and the items are all that
// is counted by its kind.
#[test]
fn the_tally_of_a_made_input(rt: HostRuntime) -> Result<(), Fail> {
    let answer = answer_with(rt.alloc(), &["tally", "1"], b"unread", 4096, &[])?;
    assert_eq!(rt; answer.sink.bytes(), FIRST_TALLY.as_bytes());
    assert_eq!(rt; answer.status, 0);
    assert_eq!(rt; answer.sink.calls(), 1);
    assert_eq!(rt; answer.source.calls(), 0);
    assert_eq!(rt; sum_of(FIRST_TALLY, &["turns", "starts", "idles"]), 20_000);
    let kinds = [
        "switches",
        "rotations",
        "flushes",
        "granted",
        "denied",
        "turns",
        "starts",
        "idles",
        "rings",
    ];
    assert_eq!(rt;
        sum_of(FIRST_TALLY, &kinds),
        sum_of(FIRST_TALLY, &["items"])
    );
    assert_eq!(rt; sum_of(FIRST_TALLY, &["rings", "denied", "faults"]), 0);
    Ok(())
}

#[test]
fn a_failing_sink_keeps_a_front_of_a_made_input(rt: HostRuntime) -> Result<(), Fail> {
    let text = made(rt.alloc(), 7)?;
    for (call, front) in [(1, 0), (2, 100), (3, 200)] {
        let answer = answer_with(rt.alloc(), &["make", "7"], b"", 100, &[call])?;
        assert_eq!(rt; answer.status, 4);
        assert_eq!(rt; answer.sink.bytes().len(), front);
        assert_eq!(rt; text.as_slice().starts_with(answer.sink.bytes()), true);
        assert_eq!(rt; answer.sink.faults(), 1);
    }
    Ok(())
}

// The counts are the same at this run, up to the write that fails.
#[test]
fn a_failing_sink_keeps_a_front_of_the_counts(rt: HostRuntime) -> Result<(), Fail> {
    let answer = answer_with(rt.alloc(), &["tally", "1"], b"", 100, &[2])?;
    assert_eq!(rt; answer.status, 4);
    assert_eq!(rt; answer.sink.bytes().len(), 100);
    assert_eq!(rt;
        FIRST_TALLY.as_bytes().starts_with(answer.sink.bytes()),
        true
    );
    assert_eq!(rt; answer.sink.faults(), 1);
    Ok(())
}

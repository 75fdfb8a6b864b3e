use crate::scripted;
use crate::tests::answers::{answer_to, source_of, words_of, written};
use crate::tests::boards::{ONE_BOX, ONE_BOX_LOG};
use crate::tests::inputs::{BOARD, joined};
use io_edge::MemSink;
use std::alloc::{AllocError, Global};
use std::test::Fail;

// The most bytes that an input may have.
const LIMIT: usize = 4_194_304;

// An input of the one box, and lines of comments behind it until it is so long.
fn commented(alloc: Global, length: usize) -> Result<Vec<u8>, AllocError> {
    let mut bytes = Vec::from_slice(alloc, ONE_BOX.as_bytes())?;
    for i in bytes.len()..length {
        bytes.push(if i % 64 == 63 { b'\n' } else { b'#' })?;
    }
    Ok(bytes)
}

#[test]
fn an_input_at_the_size_limit_is_run(rt: HostRuntime) -> Result<(), Fail> {
    let input = commented(rt.alloc(), LIMIT)?;
    assert_eq!(rt; input.len(), LIMIT);
    let log = written(rt.alloc(), ONE_BOX_LOG)?;
    let answer = answer_to(rt.alloc(), &["script"], input.as_slice())?;
    assert_eq!(rt; answer.sink.bytes(), log.as_bytes());
    assert_eq!(rt; answer.status, 0);
    assert_eq!(rt; answer.source.left().len(), 0);
    Ok(())
}

#[test]
fn an_input_above_the_size_limit_is_refused(rt: HostRuntime) -> Result<(), Fail> {
    let input = commented(rt.alloc(), LIMIT + 1)?;
    for command in ["script", "check"] {
        let answer = answer_to(rt.alloc(), &[command], input.as_slice())?;
        assert_eq!(rt; answer.sink.bytes(), "refused TooLong\n".as_bytes());
        assert_eq!(rt; answer.status, 1);
    }
    Ok(())
}

// The names of the boxes of the largest input.
const NAMES: [&str; 8] = ["a", "b", "c", "d", "e", "f", "g", "h"];

// How many steps each of its 16 threads has, of 250,000 in all.
const STEPS: usize = 15_625;

// A text of each box in turn, behind another, as often as a thread has steps: `Z` stands for its name.
fn push_rounds(text: &mut String, alloc: Global, of_box: &str) -> Result<(), AllocError> {
    let mut round = String::new(alloc);
    for name in NAMES {
        push_named(&mut round, name, of_box)?;
    }
    for _ in 0..STEPS {
        text.push_str(round.as_str())?;
    }
    Ok(())
}

// A text behind another, with this name in place of each `Z`.
fn push_named(text: &mut String, name: &str, of_box: &str) -> Result<(), AllocError> {
    for character in of_box.chars() {
        push_or_name(text, name, character)?;
    }
    Ok(())
}

// A character behind a text, or this name in place of `Z`.
fn push_or_name(text: &mut String, name: &str, character: char) -> Result<(), AllocError> {
    if character == 'Z' {
        text.push_str(name)
    } else {
        text.push(character)
    }
}

// The largest input: 8 boxes of two threads, whose 250,000 steps are taken by as many words of the script.
fn largest_input(alloc: Global) -> Result<String, AllocError> {
    let thread = "[[box.thread]]\nsteps = 15625\nprogram = \"jump 0\"\n";
    let head = "[[box]]\nname = \"Z\"\nsize = 256\n";
    let of_box = joined(alloc, &[head, thread, thread])?;
    let mut text = String::from_str(alloc, "format = 1\nscript = [")?;
    push_rounds(&mut text, alloc, "\"Z.0\", \"Z.1\", ")?;
    text.push_str("]\n")?;
    text.push_str(BOARD)?;
    for name in NAMES {
        push_named(&mut text, name, of_box.as_str())?;
    }
    Ok(text)
}

// The log of the largest input: the unit switches to each box in each round.
fn largest_log(alloc: Global) -> Result<String, AllocError> {
    let zeros = " 0x00000000 0x00000000 0x00000000 0x00000000";
    let first = joined(alloc, &["thread Z.0 spent 15625", zeros, zeros, "\n"])?;
    let second = joined(alloc, &["thread Z.1 spent 15625", zeros, zeros, "\n"])?;
    let mut text = String::new(alloc);
    push_rounds(
        &mut text,
        alloc,
        "unit switch Z\nturn Z.0 ok\nturn Z.1 ok\n",
    )?;
    for name in NAMES {
        push_named(&mut text, name, first.as_str())?;
        push_named(&mut text, name, second.as_str())?;
    }
    Ok(text)
}

#[test]
fn the_largest_configuration_runs_to_its_end(rt: HostRuntime) -> Result<(), Fail> {
    let input = largest_input(rt.alloc())?;
    let log = largest_log(rt.alloc())?;
    let words = words_of(rt.alloc(), &["script"])?;
    let mut source = source_of(rt.alloc(), input.as_bytes(), Vec::new(rt.alloc()))?;
    let room = Vec::with_capacity(rt.alloc(), 8_000_000)?;
    let mut sink = MemSink::new(room, 65_536, Vec::new(rt.alloc()));
    assert_eq!(rt; scripted(rt.alloc(), &words, &mut source, &mut sink), 0);
    assert_eq!(rt; sink.bytes().len(), log.len());
    assert!(rt; sink.bytes() == log.as_bytes());
    Ok(())
}

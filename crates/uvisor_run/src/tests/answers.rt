use crate::scripted;
use crate::tests::inputs::{Case, input_of};
use io_edge::{MemSink, MemSource};
use std::alloc::{AllocError, Global};
use std::process::Abort;
use std::test::Fail;

/// What a run of the program left.
#[derive(Drop)]
pub struct Answer {
    /// Its status.
    pub status: u8,
    /// The source after it.
    pub source: MemSource,
    /// The sink after it.
    pub sink: MemSink,
}

/// A source of these bytes that fails at these calls.
pub fn source_of(alloc: Global, bytes: &[u8], fail_at: Vec<u64>) -> Result<MemSource, AllocError> {
    Ok(MemSource::new(Vec::from_slice(alloc, bytes)?, 4096, fail_at))
}

/// A sink with room for the texts of the tests.
pub fn ample_sink(alloc: Global) -> Result<MemSink, AllocError> {
    Ok(MemSink::new(Vec::with_capacity(alloc, 8192)?, 4096, Vec::new(alloc)))
}

/// The words of a command line.
pub fn words_of(alloc: Global, texts: &[&str]) -> Result<Vec<String>, AllocError> {
    let mut words = Vec::new(alloc);
    for text in texts {
        words.push(String::from_str(alloc, text)?)?;
    }
    Ok(words)
}

/// What the program leaves of these words, and of a source and a sink that never fail.
pub fn answer_to(alloc: Global, words: &[&str], input: &[u8]) -> Result<Answer, AllocError> {
    let words = words_of(alloc, words)?;
    let mut source = source_of(alloc, input, Vec::new(alloc))?;
    let mut sink = ample_sink(alloc)?;
    let status = scripted(alloc, &words, &mut source, &mut sink);
    Ok(Answer {
        status,
        source,
        sink,
    })
}

// Puts a character behind a text, where `Z` is a word that is zero.
fn push_written(text: &mut String, character: char) -> Result<(), AllocError> {
    if character == 'Z' {
        text.push_str("0x00000000")
    } else {
        text.push(character)
    }
}

/// A text in which each `Z` stands for `0x00000000`.
pub fn written(alloc: Global, text: &str) -> Result<String, AllocError> {
    let mut whole = String::new(alloc);
    for character in text.chars() {
        push_written(&mut whole, character)?;
    }
    Ok(whole)
}

/// Checks what a command answers on a text. In `text` each `Z` stands for `0x00000000`.
pub fn check_text(
    rt: &impl Abort,
    alloc: Global,
    command: &str,
    input: &str,
    status: u8,
    text: &str,
) -> Result<(), Fail> {
    let want = written(alloc, text)?;
    let answer = answer_to(alloc, &[command], input.as_bytes())?;
    assert_eq!(rt;
        answer.sink.bytes(),
        want.as_bytes(),
        "what {command} writes of {input}"
    );
    assert_eq!(rt; answer.status, status, "the status of {command} on {input}");
    assert_eq!(rt; answer.sink.faults(), 0);
    Ok(())
}

/// Checks that the script of a case is run and has this log.
pub fn check_log(rt: &impl Abort, alloc: Global, case: &Case, log: &str) -> Result<(), Fail> {
    let input = input_of(alloc, case)?;
    check_text(rt, alloc, "script", input.as_str(), 0, log)
}

/// Checks that a case is refused with this line, by both commands.
pub fn check_refused(rt: &impl Abort, alloc: Global, case: &Case, line: &str) -> Result<(), Fail> {
    let input = input_of(alloc, case)?;
    check_text(rt, alloc, "script", input.as_str(), 1, line)?;
    check_text(rt, alloc, "check", input.as_str(), 1, line)
}

use crate::scripted;
use crate::tests::answers::{ample_sink, answer_to, check_text, source_of, words_of, written};
use crate::tests::boards::{ONE_BOX, ONE_BOX_CHECK, ONE_BOX_LOG, SENSOR_BOARD, SENSOR_BOARD_CHECK};
use io_edge::{MemSink, MemSource, StdinSource, StdoutSink};
use std::io;
use std::io::Read;
use std::test::Fail;

// A stream that gives at most 16 bytes in one call.
#[derive(Drop)]
struct Dripping<'a> {
    bytes: &'a [u8],
}

impl Read for Dripping<'_> {
    fn read(&mut self, buf: &mut [u8]) -> io::Result<usize> {
        let count = self.bytes.len().min(buf.len()).min(16);
        buf[..count].copy_from_slice(&self.bytes[..count]);
        self.bytes = &self.bytes[count..];
        Ok(count)
    }
}

const USAGE: &str = "usage: uvisor script | threads | check | make N | tally N\n";

#[test]
fn commands_answer_inputs(rt: HostRuntime) -> Result<(), Fail> {
    let table: [(&str, &str, u8, &str); 7] = [
        ("script", ONE_BOX, 0, ONE_BOX_LOG),
        ("check", ONE_BOX, 0, ONE_BOX_CHECK),
        ("check", SENSOR_BOARD, 0, SENSOR_BOARD_CHECK),
        ("check", "", 1, "refused MissingKey top format\n"),
        ("script", "", 1, "refused MissingKey top format\n"),
        ("check", "format = ", 1, "refused NotToml\n"),
        ("script", "format = ", 1, "refused NotToml\n"),
    ];
    for (command, input, status, text) in table {
        check_text(&rt, rt.alloc(), command, input, status, text)?;
    }
    Ok(())
}

#[test]
fn other_words_print_the_usage_and_read_nothing(rt: HostRuntime) -> Result<(), Fail> {
    let table: [&[&str]; 19] = [
        &[],
        &[""],
        &["run"],
        &["scripts"],
        &["Script"],
        &["script", "check"],
        &["make", "0"],
        &["make", "007"],
        &["make"],
        &["make", "65536"],
        &["make", "-1"],
        &["make", "+1"],
        &["make", "1", "2"],
        &["Make", "1"],
        &["1", "make"],
        &["script", "1"],
        &["tally"],
        &["tally", "x"],
        &["tally", "0"],
    ];
    for words in table {
        let answer = answer_to(rt.alloc(), words, ONE_BOX.as_bytes())?;
        assert_eq!(rt; answer.sink.bytes(), USAGE.as_bytes());
        assert_eq!(rt; answer.status, 2);
        assert_eq!(rt; answer.source.calls(), 0);
    }
    Ok(())
}

#[test]
fn a_failed_read_writes_nothing(rt: HostRuntime) -> Result<(), Fail> {
    // The command, and the number of the read that fails, the last one that which finds the end.
    let last = (ONE_BOX.len() / 16) as u64 + 2;
    let table: [(&str, u64); 6] = [
        ("script", 1),
        ("script", 3),
        ("script", last),
        ("check", 1),
        ("check", 3),
        ("check", last),
    ];
    for (command, call) in table {
        let words = words_of(rt.alloc(), &[command])?;
        let bytes = Vec::from_slice(rt.alloc(), ONE_BOX.as_bytes())?;
        let mut source = MemSource::new(bytes, 16, vec![in rt.alloc(); call]?);
        let mut sink = ample_sink(rt.alloc())?;
        let status = scripted(rt.alloc(), &words, &mut source, &mut sink);
        assert_eq!(rt; status, 3, "{command} at read {call}");
        assert_eq!(rt; sink.calls(), 0, "{command} at read {call}");
        assert_eq!(rt; source.calls(), call, "{command} at read {call}");
        assert_eq!(rt; source.faults(), 1, "{command} at read {call}");
    }
    Ok(())
}

#[test]
fn a_failed_write_keeps_a_beginning(rt: HostRuntime) -> Result<(), Fail> {
    // The word, the number of the write that fails, and what was written before.
    let table: [(&str, u64, &str); 6] = [
        ("script", 1, ""),
        ("script", 2, "unit switch a\ntu"),
        ("check", 1, ""),
        ("check", 2, "box a\nitem rx 0x"),
        ("check", 3, "box a\nitem rx 0x00000000 0x00100"),
        ("run", 2, "usage: uvisor sc"),
    ];
    for (word, call, text) in table {
        let words = words_of(rt.alloc(), &[word])?;
        let mut source = source_of(rt.alloc(), ONE_BOX.as_bytes(), Vec::new(rt.alloc()))?;
        let room = Vec::with_capacity(rt.alloc(), 1000)?;
        let mut sink = MemSink::new(room, 16, vec![in rt.alloc(); call]?);
        let status = scripted(rt.alloc(), &words, &mut source, &mut sink);
        assert_eq!(rt; status, 4, "{word} at write {call}");
        assert_eq!(rt; sink.bytes(), text.as_bytes(), "{word} at write {call}");
        assert_eq!(rt; sink.calls(), call, "{word} at write {call}");
        assert_eq!(rt; sink.faults(), 1, "{word} at write {call}");
    }
    Ok(())
}

#[test]
fn streams_are_read_and_written_to_their_end(rt: HostRuntime) -> Result<(), Fail> {
    for (command, text) in [("script", ONE_BOX_LOG), ("check", ONE_BOX_CHECK)] {
        let words = words_of(rt.alloc(), &[command])?;
        let want = written(rt.alloc(), text)?;
        let mut source = StdinSource::new(Dripping {
            bytes: ONE_BOX.as_bytes(),
        });
        let mut out = Vec::new(rt.alloc());
        let mut sink = StdoutSink::new(&mut out);
        let status = scripted(rt.alloc(), &words, &mut source, &mut sink);
        drop(sink);
        assert_eq!(rt; status, 0, "the status of {command}");
        assert_eq!(rt; out.as_slice(), want.as_bytes(), "what {command} writes");
    }
    Ok(())
}

#[test]
fn a_full_sink_keeps_a_beginning(rt: HostRuntime) -> Result<(), Fail> {
    let words = words_of(rt.alloc(), &["run"])?;
    let mut source = source_of(rt.alloc(), ONE_BOX.as_bytes(), Vec::new(rt.alloc()))?;
    let mut sink = MemSink::new(
        Vec::with_capacity(rt.alloc(), 0)?,
        16,
        vec![in rt.alloc(); 1]?,
    );
    assert_eq!(rt; scripted(rt.alloc(), &words, &mut source, &mut sink), 4);
    assert_eq!(rt; sink.bytes().len(), 0);
    Ok(())
}

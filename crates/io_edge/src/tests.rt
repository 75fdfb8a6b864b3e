mod gates;

use crate::{
    MemSink, MemSource, NullSink, ReadErr, StdinSource, StdoutSink, SureSource, WriteErr, read_all,
    write_all,
};
use std::io;
use std::io::{ErrorKind, Read};
use std::test::Fail;

const LINES: &[u8] = b"unit switch a\nturn a.0 ok\n";

// Standard input of a process whose reads all fail.
#[derive(Drop)]
struct Broken;

impl Read for Broken {
    fn read(&mut self, _buf: &mut [u8]) -> io::Result<usize> {
        Err(ErrorKind::Other.into())
    }
}

#[test]
fn a_byte_past_the_limit_is_too_long(rt: HostRuntime) -> Result<(), Fail> {
    let table: [(&[u8], usize, bool, usize); 5] = [
        (b"12345", 4, false, 0),
        (b"1234567", 4, false, 2),
        (b"1234", 4, true, 0),
        (b"1", 0, false, 0),
        (b"", 0, true, 0),
    ];
    for (bytes, limit, fits, left) in table {
        let mut source = MemSource::new(
            Vec::from_slice(rt.alloc(), bytes)?,
            3,
            Vec::new(rt.alloc()),
        );
        match read_all(rt.alloc(), &mut source, limit) {
            Ok(all) => {
                assert!(rt; fits, "{limit} of {bytes:?}");
                assert_eq!(rt; all.as_slice(), bytes, "{limit} of {bytes:?}");
            }
            Err(e) => {
                assert!(rt; !fits, "{limit} of {bytes:?}");
                assert_eq!(rt; e, ReadErr::TooLong, "{limit} of {bytes:?}");
            }
        }
        assert_eq!(rt; source.left().len(), left, "{limit} of {bytes:?}");
        assert_eq!(rt; source.faults(), 0, "{limit} of {bytes:?}");
    }
    Ok(())
}

#[test]
fn a_failed_read_leaves_the_rest(rt: HostRuntime) -> Result<(), Fail> {
    let bytes = Vec::from_slice(rt.alloc(), LINES)?;
    let mut source = MemSource::new(bytes, 16, vec![in rt.alloc(); 2]?);
    match read_all(rt.alloc(), &mut source, 100) {
        Ok(_) => assert!(rt; false, "the second read fails"),
        Err(e) => assert_eq!(rt; e, ReadErr::Fault),
    }
    assert_eq!(rt; source.left(), &LINES[16..]);
    assert_eq!(rt; source.calls(), 2);
    assert_eq!(rt; source.faults(), 1);

    let rest = read_all(rt.alloc(), &mut source, 100)?;
    assert_eq!(rt; rest.as_slice(), &LINES[16..]);
    assert_eq!(rt; source.faults(), 1);
    Ok(())
}

#[test]
fn a_failed_write_keeps_a_prefix(rt: HostRuntime) -> Result<(), Fail> {
    // The capacity, the call that fails, how many bytes are held then, after how many calls.
    let table: [(usize, u64, usize, u64); 3] = [(100, 2, 16, 2), (20, 9, 20, 3), (100, 1, 0, 1)];
    for (capacity, fails, held, calls) in table {
        let mut sink = MemSink::new(
            Vec::with_capacity(rt.alloc(), capacity)?,
            16,
            vec![in rt.alloc(); fails]?,
        );
        assert_eq!(rt;
            write_all(&mut sink, LINES),
            Err(WriteErr::Fault),
            "{capacity}"
        );
        assert_eq!(rt; sink.bytes(), &LINES[..held], "{capacity}");
        assert_eq!(rt; sink.calls(), calls, "{capacity}");
        assert_eq!(rt; sink.faults(), 1, "{capacity}");
    }
    Ok(())
}

#[test]
fn what_is_written_is_read_again(rt: HostRuntime) -> Result<(), Fail> {
    let mut sink = MemSink::new(Vec::with_capacity(rt.alloc(), 26)?, 5, Vec::new(rt.alloc()));
    write_all(&mut sink, LINES)?;
    assert_eq!(rt; sink.bytes(), LINES);
    assert_eq!(rt; sink.calls(), 6);

    let mut source = SureSource::new(Vec::from_slice(rt.alloc(), sink.bytes())?);
    let all = read_all(rt.alloc(), &mut source, 26)?;
    assert_eq!(rt; all.as_slice(), LINES);
    assert!(rt; source.left().is_empty());

    write_all(&mut NullSink, LINES)?;
    Ok(())
}

#[test]
fn many_pieces_are_read_whole(rt: HostRuntime) -> Result<(), Fail> {
    let bytes = vec![in rt.alloc(); 7u8; 10_000]?;
    let mut source = SureSource::new(bytes);
    let all = read_all(rt.alloc(), &mut source, 4_194_304)?;
    assert_eq!(rt; all.len(), 10_000);
    assert!(rt; all.iter().all(|byte| *byte == 7));
    Ok(())
}

#[test]
fn streams_are_read_and_written_whole(rt: HostRuntime) -> Result<(), Fail> {
    let all = read_all(rt.alloc(), &mut StdinSource::new(LINES), 100)?;
    assert_eq!(rt; all.as_slice(), LINES);

    let mut out = Vec::new(rt.alloc());
    write_all(&mut StdoutSink::new(&mut out), LINES)?;
    assert_eq!(rt; out.as_slice(), LINES);

    write_all(&mut StdoutSink::new(rt.stdout()), LINES)?;
    Ok(())
}

#[test]
fn streams_that_fail_are_faults(rt: HostRuntime) {
    match read_all(rt.alloc(), &mut StdinSource::new(Broken), 100) {
        Ok(_) => assert!(rt; false, "each read fails"),
        Err(e) => assert_eq!(rt; e, ReadErr::Fault),
    }
    // A writer that is full takes 0 bytes.
    let mut room = [0u8; 4];
    let mut sink = StdoutSink::new(&mut room[..]);
    assert_eq!(rt; write_all(&mut sink, LINES), Err(WriteErr::Fault));
    assert_eq!(rt; room, *b"unit");
}

#[test]
fn errors_say_what_failed(rt: HostRuntime) -> Result<(), Fail> {
    let table: [(ReadErr, &str); 3] = [
        (ReadErr::Fault, "a read failed"),
        (
            ReadErr::TooLong,
            "there are more bytes than the limit allows",
        ),
        (ReadErr::Memory, "out of memory"),
    ];
    for (error, text) in table {
        let told = format!(in rt.alloc(); "{error}")?;
        assert_eq!(rt; told.as_str(), text);
    }
    let error = WriteErr::Fault;
    let told = format!(in rt.alloc(); "{error}")?;
    assert_eq!(rt; told.as_str(), "a write failed");
    Ok(())
}

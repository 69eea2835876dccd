//! What no clause says of whole reads and writes: that they succeed, and what is seen at a fault in mid-stream.
use pale_io::{
    CleanSink, CleanSource, MemSink, MemSource, ReadStop, StdSink, StdSource, WriteStop, read_all,
    write_all,
};
use std::alloc::{AllocError, Global};
use std::io;
use std::io::{Cursor, ErrorKind, Read};
use std::test::Fail;

const TEXT: [u8; 4] = [7, 0, 255, 7];

fn text_source(alloc: Global, failing: &[u64]) -> Result<MemSource, AllocError> {
    Ok(MemSource::new(TEXT.to_vec(alloc)?, failing.to_vec(alloc)?))
}

/// Whether the text is read whole, and nothing is left.
fn is_read_whole(alloc: Global, most: usize) -> Result<bool, ReadStop> {
    let mut source = CleanSource::new(TEXT.to_vec(alloc)?);
    let bytes = read_all(alloc, &mut source, most)?;
    Ok(bytes.as_slice() == TEXT.as_slice() && source.left().is_empty())
}

#[test]
fn a_text_that_fits_is_read_whole(rt: HostRuntime) -> Result<(), Fail> {
    for most in [4, 5, 1_048_576, usize::MAX] {
        assert!(rt; is_read_whole(rt.alloc(), most)?, "at most {most}");
    }
    Ok(())
}

/// How many of so many bytes are read, where at most so many are; `None` where that is too long. And how many are left.
fn read_count(
    alloc: Global,
    count: usize,
    most: usize,
) -> Result<(Option<usize>, usize), ReadStop> {
    let mut source = CleanSource::new(vec![in alloc; 3; count]?);
    match read_all(alloc, &mut source, most) {
        Ok(bytes) => Ok((Some(bytes.len()), source.left().len())),
        Err(ReadStop::TooLong) => Ok((None, source.left().len())),
        Err(stop) => Err(stop),
    }
}

#[test]
fn a_long_text_is_read_in_pieces(rt: HostRuntime) -> Result<(), Fail> {
    assert_eq!(rt; read_count(rt.alloc(), 10_000, 10_000)?, (Some(10_000), 0));
    assert_eq!(rt; read_count(rt.alloc(), 10_000, 9_990)?, (None, 9));
    Ok(())
}

/// How a read of at most so many bytes ends, what is left then, and how many faults were counted.
fn read_ends(
    alloc: Global,
    source: &mut MemSource,
    most: usize,
) -> (Result<usize, ReadStop>, usize, u64) {
    let read = read_all(alloc, source, most).map(|bytes| bytes.len());
    (read, source.left().len(), source.faults())
}

#[test]
fn one_byte_more_than_fits_is_too_long(rt: HostRuntime) -> Result<(), Fail> {
    for (most, left) in [(0, 3), (1, 2), (2, 1), (3, 0)] {
        let mut source = text_source(rt.alloc(), &[])?;
        let ends = read_ends(rt.alloc(), &mut source, most);
        assert_eq!(rt; ends, (Err(ReadStop::TooLong), left, 0));
    }
    Ok(())
}

#[test]
fn a_read_that_fails_is_a_fault(rt: HostRuntime) -> Result<(), Fail> {
    // The first read takes the text, and the second finds the end.
    for (failing, left) in [(1, 4), (2, 0)] {
        let mut source = text_source(rt.alloc(), &[failing])?;
        let ends = read_ends(rt.alloc(), &mut source, 4);
        assert_eq!(rt; ends, (Err(ReadStop::Fault), left, 1));
        let again = read_ends(rt.alloc(), &mut source, 4);
        assert_eq!(rt; again, (Ok(left), 0, 1));
    }
    Ok(())
}

/// How a write ends, what was written by then, and how many faults were counted.
fn write_ends(
    sink: &mut MemSink,
    bytes: &[u8],
    written: &[u8],
    faults: u64,
) -> (bool, Option<WriteStop>) {
    let stop = write_all(sink, bytes).err();
    (sink.written() == written && sink.faults() == faults, stop)
}

#[test]
fn a_write_that_fails_leaves_the_earlier_bytes(rt: HostRuntime) -> Result<(), Fail> {
    let mut sink = MemSink::new(rt.alloc(), [2].to_vec(rt.alloc())?);
    let failed = Some(WriteStop::Failed);
    assert_eq!(rt; write_ends(&mut sink, b"ab", b"ab", 0), (true, None));
    assert_eq!(rt; write_ends(&mut sink, b"cd", b"ab", 1), (true, failed));
    assert_eq!(rt; write_ends(&mut sink, b"", b"ab", 1), (true, None));
    assert_eq!(rt; write_ends(&mut sink, b"ef", b"abef", 1), (true, None));
    Ok(())
}

#[test]
fn a_clean_sink_takes_all(rt: HostRuntime) -> Result<(), Fail> {
    let mut sink = CleanSink::new(rt.alloc());
    write_all(&mut sink, b"ab")?;
    write_all(&mut sink, b"c")?;
    assert!(rt; sink.written() == b"abc".as_slice() && sink.faults() == 0);
    Ok(())
}

#[derive(Drop)]
struct Broken;

impl Read for Broken {
    fn read(&mut self, _buf: &mut [u8]) -> io::Result<usize> {
        Err(io::Error::from(ErrorKind::Interrupted))
    }
}

/// How a read of at most so many bytes from a reader ends, and how many faults were counted.
fn std_read_ends<R: Read + Drop>(
    alloc: Global,
    reader: R,
    most: usize,
) -> (Result<usize, ReadStop>, u64) {
    let mut source = StdSource::new(reader);
    let read = read_all(alloc, &mut source, most).map(|bytes| bytes.len());
    (read, source.faults())
}

#[test]
fn a_reader_of_std_is_a_source(rt: HostRuntime) -> Result<(), Fail> {
    let alloc = rt.alloc();
    let cursor = Cursor::new(TEXT.to_vec(alloc)?);
    assert_eq!(rt; std_read_ends(alloc, cursor, 4), (Ok(4), 0));
    let long = std_read_ends(alloc, TEXT.as_slice(), 3);
    assert_eq!(rt; long, (Err(ReadStop::TooLong), 0));
    assert_eq!(rt; std_read_ends(alloc, Broken, 4), (Err(ReadStop::Fault), 1));
    Ok(())
}

/// Whether a vector takes all.
fn vector_takes_all(alloc: Global) -> Result<bool, WriteStop> {
    let mut written = Vec::new(alloc);
    let mut sink = StdSink::new(&mut written);
    write_all(&mut sink, b"abc")?;
    let faults = sink.faults();
    drop(sink);
    Ok(faults == 0 && written.as_slice() == b"abc".as_slice())
}

#[test]
fn a_writer_of_std_is_a_sink(rt: HostRuntime) -> Result<(), Fail> {
    assert!(rt; vector_takes_all(rt.alloc())?);
    // A writer with room for two bytes takes no more.
    let mut room = [0; 2];
    let mut sink = StdSink::new(room.as_mut_slice());
    assert_eq!(rt; write_all(&mut sink, b"abc").err(), Some(WriteStop::Failed));
    assert_eq!(rt; sink.faults(), 1);
    Ok(())
}

//! Sources and sinks that fail in mid-stream.

use b67_io::{
    MemorySink, MemorySource, ReadAll, Sink, Source, StdinSource, StdoutSink, WriteAll, read_all,
    write_all,
};
use std::alloc::{AllocError, Global};
use std::io;
use std::io::{ErrorKind, Read};

/// A source of these bytes, which gives at most so many of them in a call, and fails at these calls.
fn source_of(
    alloc: Global,
    bytes: &[u8],
    most: usize,
    fails: &[u32],
) -> Result<MemorySource, AllocError> {
    let bytes = Vec::from_slice(alloc, bytes)?;
    let fails = Vec::from_slice(alloc, fails)?;
    Ok(MemorySource::new(bytes, most.max(1), fails))
}

/// Tests that the bytes of a source are these.
fn gives<S: Source>(alloc: Global, source: &mut S, most: usize, wanted: &[u8]) -> bool {
    match read_all(alloc, source, most) {
        Ok(bytes) => bytes.as_slice() == wanted,
        Err(_) => false,
    }
}

/// Tests that a source is not read, for this reason.
fn gives_none<S: Source>(alloc: Global, source: &mut S, most: usize, wanted: ReadAll) -> bool {
    match read_all(alloc, source, most) {
        Ok(_) => false,
        Err(error) => error == wanted,
    }
}

/// Tests that a sink takes so many of the bytes, and not all.
fn takes<S: Sink>(sink: &mut S, bytes: &[u8], written: usize) -> bool {
    match write_all(sink, bytes) {
        Ok(()) => false,
        Err(error) => error == WriteAll::Failed { written },
    }
}

/// Three bytes are too many for two, and not for three.
fn are_limited(alloc: Global) -> Result<bool, AllocError> {
    let mut long = source_of(alloc, b"abc", 5, &[])?;
    let is_long = gives_none(alloc, &mut long, 2, ReadAll::TooLong);
    let mut short = source_of(alloc, b"abc", 1, &[])?;
    Ok(is_long && gives(alloc, &mut short, 3, b"abc"))
}

/// The second read fails, and the next call goes on from there.
fn go_on(alloc: Global) -> Result<bool, AllocError> {
    let mut source = source_of(alloc, b"abcdef", 2, &[7, 1])?;
    let fails = gives_none(alloc, &mut source, 9, ReadAll::Failed);
    let stays = source.fault_count() == 1 && source.bytes_left() == b"cdef".as_slice();
    Ok(fails && stays && gives(alloc, &mut source, 9, b"cdef"))
}

/// The first write fails, and the second finds room for a part.
fn have_room(alloc: Global) -> Result<bool, AllocError> {
    let fails = Vec::from_slice(alloc, &[0])?;
    let mut sink = MemorySink::new(alloc, 3, fails)?;
    let is_cut = takes(&mut sink, b"abcd", 0) && takes(&mut sink, b"abcd", 3);
    Ok(is_cut && sink.fault_count() == 2 && sink.bytes() == b"abc".as_slice())
}

#[derive(Drop)]
struct Broken;

impl Read for Broken {
    fn read(&mut self, _: &mut [u8]) -> io::Result<usize> {
        Err(io::Error::from(ErrorKind::Other))
    }
}

/// A reader that fails, and one that does not.
fn are_read(alloc: Global) -> bool {
    let mut broken = StdinSource::new(Broken);
    let fails = gives_none(alloc, &mut broken, 9, ReadAll::Failed) && broken.fault_count() == 1;
    let mut whole = StdinSource::new(b"abcd".as_slice());
    fails && gives(alloc, &mut whole, 9, b"abcd")
}

/// A writer with room for three bytes.
fn are_written() -> bool {
    let mut room = [0u8; 3];
    let mut sink = StdoutSink::new(room.as_mut_slice());
    takes(&mut sink, b"abcd", 3) && sink.fault_count() == 1
}

/// Tests sources and sinks, in memory and over std.
pub(crate) fn are_right(alloc: Global) -> Result<bool, AllocError> {
    let are_limited = are_limited(alloc)?;
    let go_on = go_on(alloc)?;
    let have_room = have_room(alloc)?;
    Ok(are_limited && go_on && have_room && are_read(alloc) && are_written())
}

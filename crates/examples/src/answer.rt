//! The answer to a call.

use crate::outside::{AMPLE_ROOM, Outside, PIECE};
use b67_desk::{Status, desk, desk_alone};
use b67_io::{MemorySink, MemorySource};
use b67_list::discard;
use b67_processors::Gate;
use case_sheet::Case;
use std::alloc::{AllocError, Global};
use std::sync::Wait;
use std::thread::Threads;

/// The exit status of a call, and the bytes that it wrote.
#[derive(Drop)]
pub(crate) struct Told {
    pub(crate) status: u8,
    pub(crate) bytes: Vec<u8>,
}

/// What a sink was given under a status.
fn written(alloc: Global, status: Status, sink: &MemorySink) -> Result<Told, AllocError> {
    Ok(Told {
        status: status.exit_status(),
        bytes: Vec::from_slice(alloc, sink.bytes())?,
    })
}

/// What the words and a source of these bytes are answered by.
pub(crate) fn answered(
    alloc: Global,
    words: &[String],
    mut bytes: Vec<u8>,
    outside: Outside,
) -> Result<Told, AllocError> {
    let Outside {
        reads,
        writes,
        piece,
        left,
        room,
    } = outside;
    bytes.truncate(left);
    let mut sink = MemorySink::new(alloc, room, writes)?;
    let mut source = MemorySource::new(bytes, piece.max(1), reads);
    let status = desk_alone(alloc, words, &mut source, &mut sink);
    let told = written(alloc, status, &sink);
    discard(source);
    discard(sink);
    told
}

/// What a case is answered by.
pub(crate) fn call_told(alloc: Global, case: &Case) -> Result<Told, AllocError> {
    let input = Vec::from_slice(alloc, case.input.as_slice())?;
    let outside = Outside::of(alloc, case.setting.as_str())?;
    answered(alloc, case.words.as_slice(), input, outside)
}

/// The same by processors that share the work and pass a gate, where nothing fails outside.
pub(crate) fn shared<R: Threads + Wait + Sync, G: Gate + Sync>(
    rt: &R,
    alloc: Global,
    case: &Case,
    gate: &G,
) -> Result<Told, AllocError> {
    let input = Vec::from_slice(alloc, case.input.as_slice())?;
    let mut sink = MemorySink::new(alloc, AMPLE_ROOM, Vec::new(alloc))?;
    let mut source = MemorySource::new(input, PIECE, Vec::new(alloc));
    let status = desk(
        rt,
        alloc,
        case.words.as_slice(),
        &mut source,
        &mut sink,
        gate,
    );
    let told = written(alloc, status, &sink);
    discard(source);
    discard(sink);
    told
}

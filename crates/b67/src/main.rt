//! The program `b67`: the words of the command line and standard input go to the desk, its answer goes to standard
//! output, and the exit status is that of the answer.
#![tactic(auto)]

use b67_desk::{Status, desk};
use b67_io::{StdinSource, StdoutSink};
use b67_processors::Open;
use std::alloc::AllocError;
use std::env::{Env, FillError};
use std::process::ExitCode;

/// The room, in bytes, in which a word is first looked for.
const FIRST_ROOM: usize = 256;

/// The word with this number, where 0 is the program's name, or none after the last. What is not UTF-8 in it is replaced:
/// no word of a command has such bytes, nor the mark that stands for them.
fn word_at(rt: &HostRuntime, number: usize) -> Result<Option<String>, AllocError> {
    let mut room = FIRST_ROOM;
    for _ in 0..usize::BITS {
        let mut bytes = vec![in rt.alloc(); 0u8; room]?;
        match rt.arg(number, bytes.as_mut_slice()) {
            Ok(length) => {
                return Ok(Some(String::from_utf8_lossy(rt.alloc(), &bytes[..length])?));
            }
            Err(FillError::NotPresent) => return Ok(None),
            Err(FillError::TooLong) => room = room.saturating_add(room),
        }
    }
    Err(AllocError)
}

/// The words after the program's name.
fn words_of(rt: &HostRuntime) -> Result<Vec<String>, AllocError> {
    let mut words = Vec::new(rt.alloc());
    for number in 1..usize::MAX {
        let Some(word) = word_at(rt, number)? else {
            break;
        };
        words.push(word)?;
    }
    Ok(words)
}

fn main(rt: HostRuntime) -> ExitCode {
    let Ok(words) = words_of(&rt) else {
        return ExitCode::from(Status::NoMemory.exit_status());
    };
    let mut source = StdinSource::new(rt.stdin());
    let mut sink = StdoutSink::new(rt.stdout());
    let status = desk(
        &rt,
        rt.alloc(),
        words.as_slice(),
        &mut source,
        &mut sink,
        &Open,
    );
    ExitCode::from(status.exit_status())
}

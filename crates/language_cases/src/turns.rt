//! The entries of a schedule.

use std::alloc::{AllocError, Global};

/// A process, and how many entries it has one after the other.
fn turn(word: &str) -> (usize, u32) {
    match word.split_once('*') {
        Some((process, count)) => (process.parse().unwrap_or(0), count.parse().unwrap_or(0)),
        None => (0, 0),
    }
}

/// The processes of the entries, one after the other: a word `p*n` is n entries of process p.
pub(crate) fn entries_of(alloc: Global, words: &[String]) -> Result<Vec<usize>, AllocError> {
    let mut processes = Vec::new(alloc);
    for word in words {
        let (process, count) = turn(word.as_str());
        for _ in 0..count {
            processes.push(process)?;
        }
    }
    Ok(processes)
}

//! What holds outside the call: which reads and writes fail, how many bytes a read gives, how many there are, and for how many the sink
//! has room.

use std::alloc::{AllocError, Global};

/// The room where nothing is said of it.
pub(crate) const AMPLE_ROOM: usize = 1_048_576;

/// How many bytes a read gives at most where nothing is said of it.
pub(crate) const PIECE: usize = 7;

/// The numbers of the reads and writes that fail, counted from 0, how many bytes a read gives at most, how many bytes of the input
/// there are, and the room of the sink.
#[derive(Drop)]
pub(crate) struct Outside {
    pub(crate) reads: Vec<u32>,
    pub(crate) writes: Vec<u32>,
    pub(crate) piece: usize,
    pub(crate) left: usize,
    pub(crate) room: usize,
}

impl Outside {
    /// Nothing fails, all is there, and there is room.
    pub(crate) fn whole(alloc: Global) -> Outside {
        Outside {
            reads: Vec::new(alloc),
            writes: Vec::new(alloc),
            piece: PIECE,
            left: usize::MAX,
            room: AMPLE_ROOM,
        }
    }

    /// What the setting of a case says.
    pub(crate) fn of(alloc: Global, setting: &str) -> Result<Outside, AllocError> {
        let mut words = setting.split_whitespace();
        let what = words.next().unwrap_or("");
        let number = words.next().unwrap_or("").parse::<u32>().unwrap_or(0);
        Outside::at(alloc, what, number)
    }

    /// Where the read or the write of this number fails, or the room or the bytes of the input are so many.
    pub(crate) fn at(alloc: Global, what: &str, number: u32) -> Result<Outside, AllocError> {
        let mut outside = Outside::whole(alloc);
        match what {
            "read" => outside.reads.push(number)?,
            "write" => outside.writes.push(number)?,
            "room" => outside.room = number as usize,
            "cut" => outside.left = number as usize,
            _ => {}
        }
        Ok(outside)
    }
}

//! Bytes in and out: sources and sinks that count their faults, in memory and over the standard streams, and the
//! calls that read or write all. A fault of reading or writing is never made up: each answer that tells of one comes
//! only where the count of the source or sink rose in the call. The rules are this project's profile.
#![tactic(auto)]

mod calls;
mod memory;
mod outside;
mod reading;
mod standard;
mod writing;

pub use memory::{MemorySink, MemorySource};
pub use outside::{Failed, Sink, Source};
pub use reading::{PIECE_BYTES, ReadAll, read_all};
pub use standard::{StdinSource, StdoutSink};
pub use writing::{WriteAll, write_all};

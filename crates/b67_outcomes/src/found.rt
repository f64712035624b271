// What a search has found.

/// The most steps that are kept: fewer than a schedule may have entries.
pub const MOST_STEPS: usize = 900_000_000;

/// The most states that a search may be told to keep: with so many there are no more steps than that.
pub const MOST_KEPT: u32 = 299_000_000;

/// The most entries that are performed on a machine after it was begun: those of a history that is kept, and of a path that goes on from it.
pub const MOST_ENTRIES: usize = 900_001_000;

/// An entry of `process` after the history of number `before`. The history without entries has the number 0, and the step at place k is the
/// last entry of the history of number k + 1.
#[derive(Clone, Copy)]
pub struct Step {
    pub before: u32,
    pub process: u32,
}

/// A state: an image that is kept, to which this history leads.
#[derive(Clone, Copy)]
pub struct State {
    pub number: u32,
    /// How many states there were up to the one that was kept last before this one in the same bucket, and 0 where there was none.
    pub older: u32,
    /// The number by which its image is looked for.
    pub hash: u64,
}

/// A process that comes to the stack limit in its next entry after the history of a state, which has this number.
#[derive(Clone, Copy)]
pub struct Limit {
    pub state: u32,
    pub process: u32,
}

/// The entries that were performed, by the numbers of their histories from 1; the states that are kept; where a process comes to the stack limit; and
/// whether there was a state that was not kept.
#[derive(Drop)]
pub struct Found {
    pub steps: Vec<Step>,
    pub states: Vec<State>,
    pub limits: Vec<Limit>,
    pub cut: bool,
}

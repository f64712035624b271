// Where to look for a state. Nothing is said of it: what is found by it is compared.
use std::alloc::{AllocError, Global};

/// How many buckets there are.
pub const BUCKETS: usize = 1_048_576;

/// For each bucket how many states there were when its last one was kept, and 0 where there is none.
#[derive(Drop)]
pub struct Buckets {
    newest: Vec<u32>,
}

impl Buckets {
    /// Empty buckets.
    pub fn new(alloc: Global) -> Result<Buckets, AllocError> {
        Ok(Buckets {
            newest: vec![in alloc; 0; BUCKETS]?,
        })
    }

    /// How many states there were when the last one was kept in the bucket of this number.
    pub fn newest(&self, hash: u64) -> u32 {
        match self.newest.get((hash % BUCKETS as u64) as usize) {
            Some(state) => *state,
            None => 0,
        }
    }

    /// The last of so many states is the newest in the bucket of this number.
    pub fn put(&mut self, hash: u64, states: u32) {
        if let Some(newest) = self.newest.get_mut((hash % BUCKETS as u64) as usize) {
            *newest = states;
        }
    }
}

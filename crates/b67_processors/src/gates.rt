//! Gates, which a processor passes between its work and its landing.

use std::sync::Wait;
use std::sync::atomic::{AtomicBool, Ordering};
use std::thread;
use std::thread::Threads;

/// A processor passes it outside of every lock before each landing. It answers nothing, and changes no result.
pub trait Gate {
    /// `turn` is how often this processor passed before, up to the greatest number.
    fn pass<R: Threads + Wait + Sync>(&self, rt: &R, processor: u32, turn: u64);
}

/// The gate that never holds.
#[derive(Clone, Copy, Drop)]
pub struct Open;

impl Gate for Open {
    fn pass<R: Threads + Wait + Sync>(&self, _rt: &R, _processor: u32, _turn: u64) {}
}

/// The gate that holds processor 1's first landing until processor 2 has passed, or until it has looked so many times.
#[derive(Drop)]
pub struct Meeting {
    looks: u64,
    passed: AtomicBool,
}

impl Meeting {
    /// A gate that looks so many times.
    pub fn new(looks: u64) -> Meeting {
        Meeting {
            looks,
            passed: AtomicBool::new(false),
        }
    }
}

impl Gate for Meeting {
    fn pass<R: Threads + Wait + Sync>(&self, _rt: &R, processor: u32, turn: u64) {
        if processor == 2 {
            self.passed.store(true, Ordering::SeqCst);
        }
        if processor == 1 && turn == 0 {
            'looks: for _ in 0..self.looks {
                if self.passed.load(Ordering::SeqCst) {
                    return;
                }
                thread::yield_now();
            }
        }
    }
}

//! Runs that processors share, each in a thread of its own.

use crate::answer::shared;
use crate::replays::is_replayed;
use crate::told::push_case;
use b67_processors::Gate;
use case_sheet::{Case, cases_of};
use std::alloc::{AllocError, Global};
use std::sync::Wait;
use std::sync::atomic::{AtomicBool, AtomicU64, Ordering};
use std::thread;
use std::thread::Threads;

/// How often the gate looks in one passing.
const LOOKS: u64 = 20_000_000;

/// So many pass before the gate holds anyone: in these passings the first process starts another.
const FREE: u64 = 4;

/// A gate that holds each who comes until another stands in it too, and so for a number of meetings, after which it lets all pass. It is right
/// where there were so many meetings, and nobody left before another came.
#[derive(Drop)]
struct Meetings {
    wanted: u64,
    passed: AtomicU64,
    met: AtomicU64,
    left: AtomicBool,
}

impl Meetings {
    /// The gate with as many meetings as the setting of a case says by `meet N`, and else none.
    fn of(setting: &str) -> Meetings {
        Meetings {
            wanted: match setting.strip_prefix("meet ") {
                Some(number) => number.parse().unwrap_or(0),
                None => 0,
            },
            passed: AtomicU64::new(0),
            met: AtomicU64::new(0),
            left: AtomicBool::new(false),
        }
    }

    /// Whether there were as many meetings as were wanted.
    fn is_right(&self) -> bool {
        self.met.load(Ordering::SeqCst) == self.wanted && !self.left.load(Ordering::SeqCst)
    }
}

impl Gate for Meetings {
    fn pass<R: Threads + Wait + Sync>(&self, _rt: &R, _processor: u32, _turn: u64) {
        let passed = self.passed.fetch_add(1, Ordering::SeqCst);
        if passed < FREE || (passed - FREE) / 2 >= self.wanted {
            return;
        }
        let before = (passed - FREE) / 2;
        if (passed - FREE) % 2 == 1 {
            self.met.fetch_add(1, Ordering::SeqCst);
            return;
        }
        for _ in 0..LOOKS {
            if self.met.load(Ordering::SeqCst) > before {
                return;
            }
            thread::yield_now();
        }
        self.left.store(true, Ordering::SeqCst);
    }
}

/// Appends whether a case has its answer, where processors share the work, and whether a replay of the schedule that was printed has it too.
fn push_shared<R: Threads + Wait + Sync>(
    text: &mut Vec<u8>,
    rt: &R,
    alloc: Global,
    case: &Case,
) -> Result<(), AllocError> {
    let gate = Meetings::of(case.setting.as_str());
    let told = shared(rt, alloc, case, &gate)?;
    let is_met = case.is_met(told.status, told.bytes.as_slice());
    let is_met = is_replayed(alloc, case, &told)? && is_met && gate.is_right();
    push_case(text, "shared", case, is_met, &told);
    Ok(())
}

/// Whether the cases of a sheet have their answers, a line for each, where processors share the work of the top call.
pub(crate) fn shared_text<R: Threads + Wait + Sync>(
    rt: &R,
    alloc: Global,
    sheet: &[u8],
) -> Result<Vec<u8>, AllocError> {
    let mut text = Vec::new(alloc);
    let cases = cases_of(alloc, str::from_utf8(sheet).unwrap_or(""))?;
    for case in &cases {
        push_shared(&mut text, rt, alloc, case)?;
    }
    Ok(text)
}

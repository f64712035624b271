//! Whether what a report says of a source is so, by the source's meaning alone.
#![tactic(auto)]

ghost use Rattle.b67_judge.specs.Laws.{ReportsHaveOneVerdict};

mod comparing;
mod ending;
mod judging;
mod texts;
mod walking;

pub use judging::{first, judge, lows_of};
pub use texts::verdict_line;
pub use walking::{Walked, go_on, walk};

/// What is found of a report.
#[derive(Clone, Copy)]
pub enum Verdict {
    /// What it says of the source is so.
    Just,
    /// The entry of this number, from 1, is the first that is not able or follows an end.
    BadEntry { entry: u64 },
    /// This line, from 1, is the first in which the outputs differ, or that only one has.
    BadLine { line: u32 },
    /// The end is not that of the source.
    BadEnd,
}

/// Law: a report has one verdict, so that each of them is found exactly where it is so.
pub fn reports_have_one_verdict()
    ensures { ReportsHaveOneVerdict }
{}

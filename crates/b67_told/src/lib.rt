//! What is told of everything that a source can print: its outcomes, each with a schedule, and their text.
//!
//! An outcome is what was printed and how the run ended ([`Outcome`]). It is told once ([`is_told`]), with a schedule that a replay follows to
//! it ([`Told`], [`schedule_of`]).
#![tactic(auto)]

mod comparing;
mod schedule;
mod text;

ghost use Rattle.std.specs.Prelude.{◌≡◌};
ghost use Rattle.b67_told.specs.declared.TheConstants.{MOST_TEXT_BYTES};

use b67_list::{Line, List};
use b67_report::EndWords;
use b67_schedule::Given;
pub use comparing::is_told;
pub use schedule::schedule_of;
pub use text::{head_of, text_of};

/// The most bytes that the outcomes have in a text.
pub const MOST_TEXT_BYTES: usize = 67_108_864;

/// What was printed, line by line and without LF, and how the run ended.
#[derive(Drop)]
pub struct Outcome {
    pub output: List<Line>,
    pub end: EndWords,
}

/// An outcome, with a schedule of it.
#[derive(Drop)]
pub struct Told {
    pub outcome: Outcome,
    pub schedule: Given,
}

/// Law: the number of this crate, which the text is cut by: the outcomes have at most 64 MiB, by this project's profile.
pub fn numbers_are_told()
    ensures { MOST_TEXT_BYTES ≡ 67108864 }
{}

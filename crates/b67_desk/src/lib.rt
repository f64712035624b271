//! The top call: words and a source in, an answer and a status out.
#![tactic(auto)]

mod asking;
mod consoling;
mod exec;
mod exploring;
mod following;
mod form;
mod judging;
mod running;
mod status;
mod texts;
mod top;
mod tree;

ghost use Rattle.std.specs.Prelude.{◌≡◌, ℕ, List};
ghost use Rattle.b67_desk.specs.declared.status.Status.{Status};
ghost use Rattle.b67_desk.specs.Answers.{Execs};
ghost use Rattle.b67_desk.specs.JudgedJust.{RunsAreJudgedJust, ReplaysAreJudgedJust};

pub use status::{Code, Status};
pub use top::{desk, desk_alone};

/// Law: a text of code has one answer under a budget: what is printed, and the status.
pub fn texts_of_code_have_one_answer()
    ensures { (budget : ℕ) (bytes one other : List ℕ) (s t : Status) → Execs budget bytes one s → Execs budget bytes other t → (one ≡ other) × (s ≡ t) }
{}

/// Law: every text that a run is answered by, or one that follows a schedule, is judged to be just, where it stands beside the source.
pub fn reports_are_judged_just()
    ensures runs { RunsAreJudgedJust }
    ensures replays { ReplaysAreJudgedJust }
{}

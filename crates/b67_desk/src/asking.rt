//! What a call asks for: an answer, or a run whose report is the answer.

ghost use Rattle.std.specs.Prelude.{◌≡◌};
ghost use Rattle.b67_desk.specs.declared.asking.Unanswered.TheVariants.{NoMemory};
ghost use Rattle.b67_desk.specs.Calls.{settled};

use crate::status::Status;
use algol_front::Checked;
use b67_segment::Code;
use b67_words::Rule;
use std::alloc::AllocError;

/// What is to be written, and the status that it is written under.
#[derive(Drop)]
pub struct Answer {
    pub text: Vec<u8>,
    pub status: Status,
}

/// Why there is nothing to be written.
#[derive(Clone, Copy)]
pub enum Unanswered {
    ReadFault,
    NoMemory,
}

impl From<AllocError> for Unanswered {
    ghost from_gives = { λ _ why. why ≡ NoMemory };

    fn from(_error: AllocError) -> Unanswered {
        Unanswered::NoMemory
    }
}

/// A run that is to be made: of a code, on so many processors, within a budget and under a rule.
#[derive(Drop)]
pub struct Job {
    pub processors: u32,
    pub budget: u64,
    pub rule: Rule,
    pub code: Code,
}

/// What a call asks for.
#[derive(Drop)]
pub enum Asked {
    /// An answer, which is there.
    Settled(Answer),
    /// A run, whose report is the answer.
    Run(Job),
}

/// What a source is found to be.
#[derive(Drop)]
pub enum Found {
    /// It is accepted.
    Accepted(Checked),
    /// It is not, and this is the answer.
    Refused(Answer),
}

/// What is asked for where the answer is there.
pub fn settled(answer: Result<Answer, AllocError>) -> Result<Asked, AllocError>
    ensures { result ≡ settled answer }
{
    match answer {
        Ok(answer) => Ok(Asked::Settled(answer)),
        Err(error) => Err(error),
    }
}

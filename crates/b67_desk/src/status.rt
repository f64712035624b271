//! How a call of the desk ended.

ghost use Rattle.std.specs.Prelude.{◌≡◌};
ghost use Rattle.b67_desk.specs.Exits.{exit_status};

use algol_tree::{Code as SourceCode, Spot};
use b67_asm::Rule;
use b67_judge::Verdict;
use b67_num::FaultKind;
use b67_table::InterruptKind;
use b67_words::UsageKind;

/// Why a text is refused: a source by a rule of its language, or a text of code by one of the assembler's.
#[derive(Clone, Copy)]
pub enum Code {
    OfSource(SourceCode),
    OfText(Rule),
}

/// How a call of the desk ended.
#[derive(Clone, Copy)]
pub enum Status {
    /// The run came to the end of process 1.
    Finished,
    /// The source, or the text of code, is refused: the place and the reason.
    Refused { place: Spot, code: Code },
    /// The words are no command: the first word that breaks the grammar, counted from 1, and what is wrong with it.
    Usage { word: u32, kind: UsageKind },
    /// A process came to a fault.
    Fault { kind: FaultKind, process: u32 },
    /// Every process that lives waits.
    AllWaiting,
    /// The operators came to the budget.
    BudgetSpent,
    /// The source could not be read.
    ReadFault,
    /// The answer could not be written whole.
    WriteFault,
    /// There was not enough memory, and nothing was written.
    NoMemory,
    /// The stack of a process would have too many words. It has `words` of them.
    StackLimit { process: u32, words: u32 },
    /// The source has too many bytes.
    TooLong,
    /// The entry of this number of the schedule to be followed, counted from 1, can not be performed.
    Illegal { entry: u64 },
    /// The schedule to be followed has no more entries, and the run goes on.
    ScheduleEnded,
    /// The schedule text is no schedule from this byte on.
    BadSchedule { byte: u64 },
    /// The entry of this number of the schedule to be followed, counted from 1, was performed with another letter than the given one.
    Differs { entry: u64 },
    /// The next operator of a process can not be performed.
    Interrupt { kind: InterruptKind, process: u32 },
    /// What the report says is not so of the source, and this is what is wrong with it.
    Unjust { verdict: Verdict },
    /// The report text is no report from this byte on.
    BadReport { byte: u64 },
    /// This line of the commands after a schedule, counted from 1, is the first that is no command, or one more than there may be.
    BadConsole { line: u32 },
    /// Outcomes are told, and some may be missing.
    Cut,
}

impl Status {
    /// The exit status of the program.
    pub fn exit_status(self) -> u8
        ensures { result ≡ exit_status self }
    {
        match self {
            Status::Finished => 0,
            Status::Refused { .. } => 1,
            Status::Usage { .. } => 2,
            Status::Fault { .. } => 3,
            Status::AllWaiting => 4,
            Status::BudgetSpent => 5,
            Status::ReadFault => 6,
            Status::WriteFault => 7,
            Status::NoMemory => 8,
            Status::StackLimit { .. } => 9,
            Status::TooLong => 10,
            Status::Illegal { .. } => 11,
            Status::ScheduleEnded => 12,
            Status::BadSchedule { .. } => 13,
            Status::Differs { .. } => 14,
            Status::Interrupt { .. } => 15,
            Status::Unjust { .. } => 16,
            Status::BadReport { .. } => 17,
            Status::BadConsole { .. } => 18,
            Status::Cut => 20,
        }
    }
}

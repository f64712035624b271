//! How a report says that a run ended.

ghost use Rattle.std.specs.Prelude.{◌≡◌};
ghost use Rattle.b67_report.specs.Reading.{IsEnd};
ghost use Rattle.b67_explain.specs.Telling.{words_of_end, CanBeTold, EndTells};

use b67_machine::{End, Replayed};
use b67_report::EndWords;

/// How a report says that a machine has an end.
fn words_of_end(end: End) -> EndWords
    ensures value { result ≡ words_of_end end }
    ensures fits { IsEnd result }
{
    match end {
        End::Finished => EndWords::Finished,
        End::Fault { kind, process } => EndWords::Fault { kind, process },
        End::AllWaiting => EndWords::AllWaiting,
        End::StackLimit { process, words } => EndWords::StackLimit { process, words },
    }
}

/// How a report says that a run ended so on a machine with this end.
pub fn words_of(answer: Replayed, end: Option<End>) -> EndWords
    requires { CanBeTold answer end }
    ensures tells { EndTells answer end result }
    ensures fits { IsEnd result }
{
    match answer {
        Replayed::Ended => match end {
            Some(end) => words_of_end(end),
            None => unreachable!(),
        },
        Replayed::Ran => EndWords::ScheduleEnded,
        Replayed::Illegal { entry } => EndWords::Illegal { entry },
        Replayed::BudgetSpent => EndWords::BudgetSpent,
        Replayed::NoMemory => unreachable!(),
        Replayed::Differs { entry } => EndWords::Differs { entry },
    }
}

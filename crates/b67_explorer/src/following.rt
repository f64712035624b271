//! The machine, as it follows a schedule.
ghost use Rattle.std.specs.Prelude.{◌≡◌, ℕ, Some};
ghost use Rattle.b67_machine.specs.declared.reads.End.TheVariants as ends;
ghost use Rattle.b67_explorer.specs.Entries.{IsLimitEnd};
ghost use Rattle.b67_explorer.specs.Following.{words_of_ends};

use crate::Explorer;
use b67_again::Again;
use b67_explain::{acts_of, report_of};
use b67_limits::MOST_BUDGET;
use b67_list::{Line, List};
use b67_listing::listing;
use b67_machine::{End, Replayed};
use b67_report::{EndWords, Report};
use b67_schedule::{Given, Schedule};
use b67_teller::Teller;
use b67_told::Outcome;
use std::alloc::{AllocError, Global};
use std::mem;

// How a report says that an image has an end.
fn words_of_end(end: Option<End>) -> Option<EndWords>
    ensures { result ≡ words_of_ends end }
{
    match end {
        None => None,
        Some(End::Finished) => Some(EndWords::Finished),
        Some(End::Fault { kind, process }) => Some(EndWords::Fault { kind, process }),
        Some(End::AllWaiting) => Some(EndWords::AllWaiting),
        Some(End::StackLimit { process, words }) => Some(EndWords::StackLimit { process, words }),
    }
}

// How many words the stack has where the end is the stack limit.
fn words_at(end: Option<End>) -> u32
    requires { IsLimitEnd end }
    ensures { (process words : ℕ) → end ≡ Some (ends.StackLimit process words) → result ≡ words }
{
    match end {
        Some(End::StackLimit { process: _, words }) => words,
        Some(End::Finished | End::Fault { .. } | End::AllWaiting) | None => unreachable!(),
    }
}

// The outcome that a report says.
fn outcome_of(alloc: Global, report: Report) -> Outcome
    ensures output { result.output ≡ report.output }
    ensures end { result.end ≡ report.end }
{
    let mut report = report;
    let end = report.end;
    let output = mem::replace(&mut report.output, List::of(Vec::new(alloc)));
    Outcome { output, end }
}

impl<C: Again> Teller for Explorer<C> {
    ghost use Rattle.std.specs.Prelude.{◌≡◌};
    ghost use Rattle.algol_tree.specs.Plain.{PProgram};
    ghost use Rattle.b67_faithful.specs.Faithful.{Faithful};
    ghost use Rattle.b67_outcomes_all.specs.Outcomes.{IsReplayed};

    ghost Explained = { λ code given o. (tree : PProgram) → Faithful tree code → IsReplayed tree given o };

    fn end(&self) -> Option<EndWords> {
        words_of_end(self.machine.image_end())
    }

    fn output(&self) -> &[Line] {
        self.machine.output()
    }

    fn stop(&mut self, process: u32) -> Result<u32, AllocError> {
        if self.go(process)? {
            unreachable!();
        }
        Ok(words_at(self.machine.end()))
    }

    fn replay(&mut self, alloc: Global, given: &Given) -> Result<Outcome, AllocError> {
        let lines = listing(alloc, self.machine.code())?;
        let entries = given.len().min(MOST_BUDGET) as usize;
        let mut done = Schedule::with_room(alloc, entries)?;
        self.machine.restart()?;
        let answer = self.machine.replay(given, MOST_BUDGET as u32, &mut done);
        let _performed = done.runs().len();
        let acts = acts_of(alloc, 1, done.len())?;
        if let Replayed::NoMemory = answer {
            return Err(AllocError);
        }
        let report = report_of(alloc, acts, &self.machine, answer, lines, done)?;
        Ok(outcome_of(alloc, report))
    }
}

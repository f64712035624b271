// Whole schedules.
ghost use Rattle.std.specs.Prelude.{◌≡◌, ◌+◌, ◌≤◌, ◌⊎◌, [], length, option_copied, replicate, IfSome};
ghost use Rattle.b67_schedule.specs.Giving.{given_entries};
ghost use Rattle.b67_schedule.specs.Schedules.{most_in_schedule, entries};
ghost use Rattle.b67_table.specs.Sound.{Sound};
ghost use Rattle.b67_machine.specs.Replaying.{Advances, AdvancesBy, LettersAgree, AgreesBy, Between, Compares, EndsAfter, NoneDiffers, Replays, ReplaysRuns, StopsBefore, first_of, rest_of, within_entry};
ghost use Rattle.b67_machine.specs.declared.replay.TheConstants.{NOTES};
ghost use Rattle.b67_machine.specs.Beginning.{IsFresh};

use crate::Machine;
use b67_action::Done;
use b67_deeds::Letter;
use b67_schedule::{Given, Run, Schedule};
use b67_store::Core;

// As many letters are noted at once where none are given.
const NOTES: usize = 1_024;

/// How a replay ended.
#[derive(Clone, Copy)]
pub enum Replayed {
    /// The machine has an end: the run's after the last entry, or the stack limit within the next one.
    Ended,
    /// All entries were performed, and the run goes on.
    Ran,
    /// The entry of this number, from 1, can not be performed: its process is not able, or the run has an end.
    Illegal { entry: u64 },
    /// The operators are as many as the budget, and the run has no end.
    BudgetSpent,
    /// There is no memory for what the next entry's action makes.
    NoMemory,
    /// The entry of this number, from 1, was performed with another letter than the given one.
    Differs { entry: u64 },
}

impl<C: Core> Machine<C> {
    /// Performs the entries of a given schedule up to the first that can not be performed, or the first whose letter is another than the
    /// given one, or until the operators are as many as the budget, the stack limit comes, or memory lacks; `done` gets those that were
    /// performed, each with its own letter. Before an entry it looks at the end of the run, then at the budget, then at the entry, and after
    /// an entry's action at its letter first. Where the budget, the stack limit or want of memory ends an entry, its plain operators stay
    /// performed.
    pub fn replay(&mut self, given: &Given, budget: u32, done: &mut Schedule) -> Replayed
        requires sound { Sound self.old.code }
        requires fresh { IsFresh self.old }
        requires empty { (done.old.runs ≡ []) × (done.old.letters ≡ []) }
        requires room { (length (given_entries given.now) ≤ done.old.room) ⊎ (budget ≤ done.old.room) }
        requires few { (length (given_entries given.now) ≤ most_in_schedule) ⊎ (budget ≤ most_in_schedule) }
        ensures replays { Replays self.old.code given.now budget done.new self.new result }
    {
        match given {
            Given::One(old) => self.replay_runs(old.runs.items().as_slice(), None, budget, done),
            Given::Two(schedule) => {
                let letters = Some(schedule.letters());
                self.replay_runs(schedule.runs(), letters, budget, done)
            }
        }
    }

    // The entries of runs, with their letters where these are given.
    fn replay_runs(
        &mut self,
        runs: &[Run],
        letters: Option<&[Letter]>,
        budget: u32,
        done: &mut Schedule,
    ) -> Replayed
        requires sound { Sound self.old.code }
        requires fresh { IsFresh self.old }
        requires each { IfSome (option_copied letters) (λ ls. length ls ≡ length (entries runs.now)) }
        requires empty { (done.old.runs ≡ []) × (done.old.letters ≡ []) }
        requires room { (length (entries runs.now) ≤ done.old.room) ⊎ (budget ≤ done.old.room) }
        requires few { (length (entries runs.now) ≤ most_in_schedule) ⊎ (budget ≤ most_in_schedule) }
        ensures replays { ReplaysRuns self.old.code (entries runs.now) (option_copied letters.entry) budget done.new self.new result }
    {
        let mut notes = [Letter::Read; NOTES];
        let mut spent = 0;
        let mut left = letters;
        'runs: for run in runs {
            let (theirs, more) = split(left, run.times);
            if let Some(answer) = self.replay_run(
                run, theirs, budget, &mut notes, &mut spent, done,
            ) {
                return answer;
            }
            left = more;
        }
        self.after_all(budget, spent)
    }

    /// Performs so many entries of a process after those that `done` has, as [`replay`](Machine::replay) does where no letters are given: up to
    /// the first that can not be performed, or until the operators are as many as the budget, the stack limit comes, or memory lacks.
    /// `spent` is how many operators were performed. None comes where all these entries were.
    pub fn advance(
        &mut self,
        run: &Run,
        budget: u32,
        spent: &mut u32,
        done: &mut Schedule,
    ) -> Option<Replayed>
        requires sound { Sound self.old.code }
        requires between { Between self.old.code (entries done.old.runs) done.old.letters spent.old self.old }
        requires within { spent.old ≤ budget }
        requires room { (length done.old.letters + run.now.times ≤ done.old.room) ⊎ (budget ≤ done.old.room) }
        requires few { (length done.old.letters + run.now.times ≤ most_in_schedule) ⊎ (budget ≤ most_in_schedule) }
        ensures entries { Advances self.old.code budget (entries done.old.runs) (replicate run.now.times run.now.process) spent.new (entries done.new.runs) done.new.letters self.new result }
        ensures agrees { IfSome result NoneDiffers }
        ensures room { done.old.room ≤ done.new.room }
    {
        let mut notes = [Letter::Read; NOTES];
        self.replay_run(run, None, budget, &mut notes, spent, done)
    }

    // The entries of a run, with their letters where these are given.
    fn replay_run(
        &mut self,
        run: &Run,
        letters: Option<&[Letter]>,
        budget: u32,
        notes: &mut [Letter],
        spent: &mut u32,
        done: &mut Schedule,
    ) -> Option<Replayed>
        requires sound { Sound self.old.code }
        requires between { Between self.old.code (entries done.old.runs) done.old.letters spent.old self.old }
        requires within { spent.old ≤ budget }
        requires notes { length notes.old ≡ NOTES }
        requires each { IfSome (option_copied letters) (λ ls. length ls ≡ run.now.times) }
        requires room { (length done.old.letters + run.now.times ≤ done.old.room) ⊎ (budget ≤ done.old.room) }
        requires few { (length done.old.letters + run.now.times ≤ most_in_schedule) ⊎ (budget ≤ most_in_schedule) }
        ensures entries { Advances self.old.code budget (entries done.old.runs) (replicate run.now.times run.now.process) spent.new (entries done.new.runs) done.new.letters self.new result }
        ensures letters { LettersAgree (option_copied letters.entry) done.old.letters done.new.letters result }
        ensures notes { length notes.new ≡ NOTES }
        ensures room { done.old.room ≤ done.new.room }
    {
        let mut times = 0;
        let mut left = letters;
        'times: while times < run.times {
            let most = run.times - times;
            match self.replay_entries(run.process, most, left, budget, notes, spent, done) {
                Ok(entries) => {
                    times += entries;
                    left = split(left, entries).1;
                }
                Err(answer) => return Some(answer),
            }
        }
        None
    }

    // Entries of a process, at most so many and one at least, and what ends the replay there. Where letters are given, it is one, whose
    // letter is compared.
    fn replay_entries(
        &mut self,
        process: u32,
        times: u32,
        letters: Option<&[Letter]>,
        budget: u32,
        notes: &mut [Letter],
        spent: &mut u32,
        done: &mut Schedule,
    ) -> Result<u32, Replayed>
        requires sound { Sound self.old.code }
        requires between { Between self.old.code (entries done.old.runs) done.old.letters spent.old self.old }
        requires within { spent.old ≤ budget }
        requires some { 1 ≤ times }
        requires notes { length notes.old ≡ NOTES }
        requires each { IfSome (option_copied letters) (λ ls. length ls ≡ times) }
        requires room { (length done.old.letters + times ≤ done.old.room) ⊎ (budget ≤ done.old.room) }
        requires few { (length done.old.letters + times ≤ most_in_schedule) ⊎ (budget ≤ most_in_schedule) }
        ensures entries { AdvancesBy self.old.code budget (entries done.old.runs) process times spent.new (entries done.new.runs) done.new.letters self.new result }
        ensures letters { AgreesBy (option_copied letters.entry) done.old.letters done.new.letters result }
        ensures notes { length notes.new ≡ NOTES }
        ensures room { done.old.room ≤ done.new.room }
    {
        if let Some(answer) = self.before_entry(process, budget, *spent, done.len() + 1) {
            return Err(answer);
        }
        let most = most_at_once(letters, times);
        let entered = self.perform_entries(process, &mut notes[..most], budget - *spent);
        let entries = entered.entries as usize;
        *spent += entered.operators + entered.last.plain;
        done.push_many(process, &notes[..entries]);
        if let Some(answer) = within_entry(entered.last.done) {
            return Err(answer);
        }
        *spent += 1;
        done.push(process, notes[entries]);
        if differs(letters, notes[0]) {
            return Err(Replayed::Differs { entry: done.len() });
        }
        Ok(entered.entries + 1)
    }

    // What ends a replay before an entry of this number.
    fn before_entry(&self, process: u32, budget: u32, spent: u32, entry: u64) -> Option<Replayed>
        ensures { StopsBefore self.now process budget spent entry result }
    {
        if self.end().is_some() {
            return Some(Replayed::Illegal { entry });
        }
        if spent >= budget {
            return Some(Replayed::BudgetSpent);
        }
        if !self.is_able(process) {
            return Some(Replayed::Illegal { entry });
        }
        None
    }

    // What a replay comes to after all entries.
    fn after_all(&self, budget: u32, spent: u32) -> Replayed
        ensures { EndsAfter self.now budget spent result }
    {
        if self.end().is_some() {
            Replayed::Ended
        } else if spent >= budget {
            Replayed::BudgetSpent
        } else {
            Replayed::Ran
        }
    }
}

// So many letters, and those after them, where there are letters.
fn split(letters: Option<&[Letter]>, count: u32) -> (Option<&[Letter]>, Option<&[Letter]>)
    requires { IfSome (option_copied letters) (λ ls. count ≤ length ls) }
    ensures first { option_copied result.0 ≡ first_of count (option_copied letters.entry) }
    ensures rest { option_copied result.1 ≡ rest_of count (option_copied letters.entry) }
{
    match letters {
        Some(letters) => {
            let (first, rest) = letters.split_at(count as usize);
            (Some(first), Some(rest))
        }
        None => (None, None),
    }
}

// How many of so many entries are performed at once: one, where its letter is given.
fn most_at_once(letters: Option<&[Letter]>, times: u32) -> usize
    requires { 1 ≤ times }
    ensures some { 1 ≤ result }
    ensures most { (result ≤ NOTES) × (result ≤ times) }
    ensures one { IfSome (option_copied letters.entry) (λ ls. result ≡ 1) }
{
    match letters {
        Some(_) => 1,
        None => NOTES.min(times as usize),
    }
}

// Tests that another letter is given first than the one that was noted.
fn differs(letters: Option<&[Letter]>, noted: Letter) -> bool
    requires { IfSome (option_copied letters) (λ ls. 1 ≤ length ls) }
    ensures { Compares (option_copied letters.entry) noted result }
{
    match letters {
        Some(letters) => letters[0] != noted,
        None => false,
    }
}

/// What ends a run within an entry, by what the operator after its plain ones came to. In sound code no interrupt comes.
pub fn within_entry(done: Option<Done>) -> Option<Replayed>
    ensures { result ≡ within_entry done }
{
    match done {
        None => Some(Replayed::BudgetSpent),
        Some(Done::StackLimit) => Some(Replayed::Ended),
        Some(Done::NoMemory) => Some(Replayed::NoMemory),
        Some(Done::Went | Done::Waits | Done::Ended | Done::Fault(_) | Done::Interrupt(_)) => None,
    }
}

//! The machine, as it is searched.
ghost use Rattle.std.specs.Prelude.{◌≡◌, ℕ, suc, ◌+◌, ◌≤◌, true, false, Some, IfOk};
ghost use Rattle.algol_tree.specs.Plain.{PProgram};
ghost use Rattle.b67_table.specs.Ending.{may_act};
ghost use Rattle.b67_table.specs.Image.{Image};
ghost use Rattle.b67_faithful.specs.Faithful.{Faithful};
ghost use Rattle.b67_outcomes.specs.Entering.{ProcessEnters, IsProcessNumber, IsReached, Repeats};
ghost use Rattle.b67_explorer.specs.Entries.{entered_by, EntriesFit, HasCome, IsAtLimit};

use crate::local::is_own;
use b67_action::Done;
use b67_again::Again;
use b67_deeds::Letter;
use b67_machine::Machine;
use b67_outcomes::Walker;
use b67_table::Private;
use std::alloc::AllocError;

/// A machine that is begun again for each schedule.
#[derive(Drop)]
pub struct Explorer<C: Again> {
    pub machine: Machine<C>,
    /// The private part of a process, as its plain operators leave it.
    pub part: Private,
}

// So many entries are performed at once at most.
const MOST_AT_ONCE: usize = 256;

// Whether an entry was performed, or the process came to the stack limit, by what the operator after its plain ones came to. `Err` comes where
// memory lacks.
fn entered_by(done: Option<Done>) -> Result<bool, AllocError>
    requires { HasCome done }
    ensures { IfOk result (λ entered. entered_by done ≡ Some entered) }
{
    match done {
        Some(Done::Went | Done::Waits | Done::Ended | Done::Fault(_)) => Ok(true),
        Some(Done::StackLimit) => Ok(false),
        Some(Done::NoMemory) => Err(AllocError),
        Some(Done::Interrupt(_)) | None => unreachable!(),
    }
}

impl<C: Again> Explorer<C> {
    /// Performs an entry of the process, which may act. It answers whether the entry was performed; it is not where the process comes to the
    /// stack limit before its action. `Err` comes where memory runs out.
    ///
    /// An entry has no more plain operators than its segment has syllables, and no operator is ill-tagged, since the code is that of a source.
    pub fn go(&mut self, process: u32) -> Result<bool, AllocError>
        requires may { may_act self.old.machine.image process ≡ true }
        requires known { (tree : PProgram) × Faithful tree self.old.machine.code }
        requires reached { IsReached self.old.machine.code self.old.machine.image }
        requires room { (k : ℕ) × EntriesFit self.old.machine (suc k) }
        ensures code { self.new.machine.code ≡ self.old.machine.code }
        ensures number { IsProcessNumber process }
        ensures entered { IfOk result (λ entered. ProcessEnters self.old.machine.code process self.old.machine.image entered self.new.machine.image) }
        ensures room { IfOk result (λ entered. entered ≡ true → (k : ℕ) → EntriesFit self.old.machine (suc k) → EntriesFit self.new.machine k) }
        ensures limit { IfOk result (λ entered. entered ≡ false → IsAtLimit self.new.machine process) }
    {
        let _last = self.machine.last_process();
        let performed = self.machine.perform_entry(process, u32::MAX);
        entered_by(performed.done)
    }

    // Performs entries of the process, one after another, where it has so many: at most these, and one at least. It answers how many.
    fn go_some(&mut self, process: u32, most: usize) -> Result<usize, AllocError>
        requires some { 1 ≤ most }
        requires has { (img : Image) × Repeats self.old.machine.code process most self.old.machine.image img }
        requires known { (tree : PProgram) × Faithful tree self.old.machine.code }
        requires reached { IsReached self.old.machine.code self.old.machine.image }
        requires room { (k : ℕ) × EntriesFit self.old.machine (most + k) }
        ensures code { self.new.machine.code ≡ self.old.machine.code }
        ensures some { IfOk result (λ count. 1 ≤ count) }
        ensures within { IfOk result (λ count. count ≤ most) }
        ensures entered { IfOk result (λ count. Repeats self.old.machine.code process count self.old.machine.image self.new.machine.image) }
        ensures room { IfOk result (λ count. (k : ℕ) → EntriesFit self.old.machine (count + k) → EntriesFit self.new.machine k) }
    {
        let mut letters = [Letter::Read; MOST_AT_ONCE];
        let room = MOST_AT_ONCE.min(most);
        let entered = self
            .machine
            .perform_entries(process, &mut letters[..room], u32::MAX);
        if entered_by(entered.last.done)? {
            Ok(entered.entries as usize + 1)
        } else {
            unreachable!()
        }
    }
}

impl<C: Again> Walker for Explorer<C> {
    ghost code = { λ e. e.machine.code };

    ghost image = { λ e. e.machine.image };

    ghost use Rattle.algol_tree.specs.Plain.{PProgram};
    ghost use Rattle.b67_faithful.specs.Faithful.{Faithful};
    ghost use Rattle.b67_explorer.specs.Cells.{IsLocalThere};
    ghost use Rattle.b67_explorer.specs.Entries.{EntriesFit};

    ghost Known = { λ code. (tree : PProgram) × Faithful tree code };

    ghost Local = { IsLocalThere };

    ghost Room = { λ e k. EntriesFit e.machine k };

    fn restart(&mut self) -> Result<(), AllocError> {
        self.machine.restart()
    }

    fn processes(&self) -> u32 {
        self.machine.last_process()
    }

    fn may_act(&self, process: u32) -> bool {
        self.machine.image_end().is_none() && self.machine.is_able(process)
    }

    fn enter(&mut self, process: u32) -> Result<bool, AllocError> {
        self.go(process)
    }

    fn enter_run(&mut self, process: u32, count: usize) -> Result<(), AllocError> {
        let _last = self.machine.last_process();
        let mut done = 0;
        'entries: while done < count {
            done += self.go_some(process, count - done)?;
        }
        Ok(())
    }

    fn is_local(&mut self, process: u32) -> Result<bool, AllocError> {
        Ok(is_own(&self.machine, &mut self.part, process))
    }

    fn same(&self, other: &Explorer<C>) -> bool {
        self.machine.same(&other.machine)
    }

    fn hash(&self) -> u64 {
        self.machine.hash()
    }
}

// Operators on words and rows, in a process.
ghost use Rattle.std.specs.Prelude.{◌≡◌, ◌≤◌, ◌+◌, Some, vec_capacity, IfOk, IfSome};
ghost use Rattle.b67_control.specs.Control.{Fits_pcw};
ghost use Rattle.b67_list.specs.Numbered.{numbered};
ghost use Rattle.b67_linkage.specs.Held.{IsLinked};
ghost use Rattle.b67_operators.specs.Leaves.{IsLinkedIn};
ghost use Rattle.b67_reach.specs.Images.{own_of_image};
ghost use Rattle.b67_reach.specs.Answers.{ProgramPerforms};
ghost use Rattle.b67_action.specs.Among.{ActsIn, entry_program};
ghost use Rattle.b67_private.specs.Actions.{words_program, IsHeldWords};
ghost use Rattle.b67_private.specs.Lettered.{words_letter};

use b67_deeds::Letter;
use b67_operators::{
    Called, entry, evaluate, index, index_and_load, index_mother, lettered, load_through,
    load_value, store, turn, value_call,
};
use b67_private::WordsRow;
use b67_reach::{Registers, Stop};
use b67_store::Core;

/// An operator on words and rows is performed, on its process's registers; which letter it has.
pub fn perform<C: Core>(
    core: &mut C,
    regs: &mut Registers,
    row: WordsRow,
    next: u16,
) -> Result<Letter, Stop>
    requires linked { IsLinked (C.Core.stacks core.old) (C.Core.rows core.old) regs.old }
    requires held { IsHeldWords row }
    ensures letter { IfOk result (λ l. words_letter row (C.Core.stacks core.old) regs.old ≡ Some l) }
    ensures performs { ProgramPerforms (words_program row regs.old next) (own_of_image (C.Core.stacks core.old) (C.Core.rows core.old) regs.old) (own_of_image (C.Core.stacks core.new) (C.Core.rows core.new) regs.new) result }
{
    match row {
        WordsRow::ValueCall(couple) => value_call(core, regs, next, couple),
        WordsRow::Turn(kind, target) => {
            lettered(turn(core, regs, next, kind, target), Letter::Turn)
        }
        WordsRow::Evaluate => evaluate(core, regs, next),
        WordsRow::LoadThrough => lettered(load_through(core, regs, next), Letter::Pass),
        WordsRow::LoadValue => load_value(core, regs, next),
        WordsRow::Store(keeps) => store(core, regs, next, keeps),
        WordsRow::Index => lettered(index(core, regs, next), Letter::Index),
        WordsRow::IndexAndLoad => lettered(index_and_load(core, regs, next), Letter::ElementRead),
        WordsRow::IndexMother => lettered(index_mother(core, regs, next), Letter::Index),
    }
}

/// An operator on words and rows is performed in a process; which letter it has.
pub fn perform_words<C: Core>(
    core: &mut C,
    all: &mut Vec<Registers>,
    process: u32,
    row: WordsRow,
    next: u16,
) -> Result<Letter, Stop>
    requires linked { IsLinkedIn (C.Core.stacks core.old) (C.Core.rows core.old) (numbered all.old.items process) }
    requires held { IsHeldWords row }
    ensures letter { IfOk result (λ l. IfSome (numbered all.old.items process) (λ r. words_letter row (C.Core.stacks core.old) r ≡ Some l)) }
    ensures acts { ActsIn (words_program row) next (C.Core.stacks core.old) (C.Core.rows core.old) all.old.items process (C.Core.stacks core.new) (C.Core.rows core.new) all.new.items result }
    ensures room { vec_capacity all.old ≤ vec_capacity all.new }
{
    let regs = &mut all[process as usize - 1];
    perform(core, regs, row, next)
}

/// ENTR on a procedure that is no intrinsic's, in a process.
pub fn enter_procedure<C: Core>(
    core: &mut C,
    all: &mut Vec<Registers>,
    process: u32,
    called: &Called,
    next: u16,
) -> Result<(), Stop>
    requires linked { IsLinkedIn (C.Core.stacks core.old) (C.Core.rows core.old) (numbered all.old.items process) }
    requires above { IfSome (numbered all.old.items process) (λ r. r.f + 2 ≤ r.s) }
    requires procedure { Fits_pcw called.now.pcw }
    ensures acts { ActsIn (entry_program called.now) next (C.Core.stacks core.old) (C.Core.rows core.old) all.old.items process (C.Core.stacks core.new) (C.Core.rows core.new) all.new.items result }
    ensures room { vec_capacity all.old ≤ vec_capacity all.new }
{
    let regs = &mut all[process as usize - 1];
    entry(core, regs, next, called)
}

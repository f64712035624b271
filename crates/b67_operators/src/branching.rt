//! Branches that do not go forward.

ghost use Rattle.std.specs.Prelude.{◌≡◌};
ghost use Rattle.b67_table.specs.PrivateRows.{is_taken};
ghost use Rattle.b67_table.specs.Rows.{branch_turn, turn_by};
ghost use Rattle.b67_reach.specs.Images.{own_of_image};
ghost use Rattle.b67_reach.specs.Answers.{IsReady, ProgramPerforms};

use b67_ops::BranchKind;
use b67_reach::{Registers, Stop, dropped, invalid, is_operand, popped};
use b67_store::Core;
use b67_word::Word;

// Tests by bit 0 of an operand that a branch goes.
fn is_taken(kind: BranchKind, word: Word) -> bool
    ensures { result ≡ is_taken kind word.bits }
{
    match kind {
        BranchKind::Brun => true,
        BranchKind::Brfl => word.bits() % 2 == 0,
        BranchKind::Brtr => word.bits() % 2 == 1,
    }
}

// A branch by the operand on top, which is dropped.
fn turn_by<C: Core>(
    core: &mut C,
    regs: &mut Registers,
    next: u16,
    kind: BranchKind,
    target: u16,
) -> Result<(), Stop>
    requires { IsReady (C.Core.stacks core.old) regs.old }
    ensures { ProgramPerforms (turn_by kind target regs.old next) (own_of_image (C.Core.stacks core.old) (C.Core.rows core.old) regs.old) (own_of_image (C.Core.stacks core.new) (C.Core.rows core.new) regs.new) result }
{
    let word = popped(core, regs)?;
    if !is_operand(word) {
        return Err(invalid());
    }
    let place = if is_taken(kind, word) { target } else { next };
    dropped(core, regs, place, 1);
    Ok(())
}

/// BRUN, BRFL and BRTR to their own place or one before it: the pointer goes there always, or where bit 0 of the
/// operand on top is 0, or 1; that operand is dropped.
pub fn turn<C: Core>(
    core: &mut C,
    regs: &mut Registers,
    next: u16,
    kind: BranchKind,
    target: u16,
) -> Result<(), Stop>
    requires { IsReady (C.Core.stacks core.old) regs.old }
    ensures { ProgramPerforms (branch_turn kind target regs.old next) (own_of_image (C.Core.stacks core.old) (C.Core.rows core.old) regs.old) (own_of_image (C.Core.stacks core.new) (C.Core.rows core.new) regs.new) result }
{
    match kind {
        BranchKind::Brun => {
            regs.place = target;
            Ok(())
        }
        BranchKind::Brfl | BranchKind::Brtr => turn_by(core, regs, next, kind, target),
    }
}

//! Writes that many operators end with. Each does what the table's change of that name does, and none can fail.

ghost use Rattle.std.specs.Prelude.{◌≡◌, ◌+◌, ◌<◌, ◌≤◌, ℕ, Ok};
ghost use Rattle.b67_store.specs.Store.{stack_limit};
ghost use Rattle.b67_table.specs.Program.{answer};
ghost use Rattle.b67_table.specs.Moves.{replaced, dropped};
ghost use Rattle.b67_reach.specs.Images.{own_of_image};
ghost use Rattle.b67_reach.specs.Answers.{IsReady, ProgramPerforms};

use crate::{Registers, Stop};
use b67_store::Core;
use b67_word::Word;

/// A word takes the place of so many on top, and the pointer goes on.
pub fn replaced<C: Core>(core: &mut C, regs: &mut Registers, next: u16, count: u32, word: Word)
    requires ready { IsReady (C.Core.stacks core.old) regs.old }
    requires some { (1 ≤ count) × (count ≤ regs.old.s) }
    ensures { ProgramPerforms (answer (replaced regs.old next count word)) (own_of_image (C.Core.stacks core.old) (C.Core.rows core.old) regs.old) (own_of_image (C.Core.stacks core.new) (C.Core.rows core.new) regs.new) (Ok result) }
{
    let length = regs.s - count;
    core.cut(regs.stack, length).unwrap();
    core.push(regs.stack, word).unwrap();
    regs.s = length + 1;
    regs.place = next;
}

/// So many words on top are dropped, and the pointer goes on.
pub fn dropped<C: Core>(core: &mut C, regs: &mut Registers, next: u16, count: u32)
    requires ready { IsReady (C.Core.stacks core.old) regs.old }
    requires some { count ≤ regs.old.s }
    ensures { ProgramPerforms (answer (dropped regs.old next count)) (own_of_image (C.Core.stacks core.old) (C.Core.rows core.old) regs.old) (own_of_image (C.Core.stacks core.new) (C.Core.rows core.new) regs.new) (Ok result) }
{
    let length = regs.s - count;
    core.cut(regs.stack, length).unwrap();
    regs.s = length;
    regs.place = next;
}

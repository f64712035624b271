// Words of stacks, and rows, where they are known to be there.
ghost use Rattle.std.specs.Prelude.{◌≡◌, ◌<◌, ◌≤◌, length, IsSome};
ghost use Rattle.b67_control.specs.Display.{levels};
ghost use Rattle.b67_store.specs.Store.{stack_at, words_of, word_at, with_word, with_push, with_cut, closed_at, stack_limit};
ghost use Rattle.b67_table.specs.Private.{frame};
ghost use Rattle.b67_linkage.specs.Closing.{AreShort};

use b67_control::Registers;
use b67_store::Core;
use b67_word::{Place, Word};

/// Writes a word over one that is there.
#[tactic(auto, using(crate::proofs::There::there))]
pub fn save_word<C: Core>(core: &mut C, at: Place, word: Word)
    requires { IsSome (word_at (C.Core.stacks core.old) at) }
    ensures stacks { C.Core.stacks core.new ≡ with_word (C.Core.stacks core.old) at word }
    ensures rows { C.Core.rows core.new ≡ C.Core.rows core.old }
{
    let _ = core.write(at, word);
}

/// Pushes a word on a stack that has room for it.
#[tactic(auto, using(crate::proofs::There::there))]
pub fn push_word<C: Core>(core: &mut C, stack: u16, word: Word)
    requires open { IsSome (stack_at (C.Core.stacks core.old) stack) }
    requires room { length (words_of (C.Core.stacks core.old) stack) < stack_limit }
    ensures stacks { C.Core.stacks core.new ≡ with_push (C.Core.stacks core.old) stack word }
    ensures rows { C.Core.rows core.new ≡ C.Core.rows core.old }
{
    let _ = core.push(stack, word);
}

/// Leaves the lowest words of a stack that is open, so many of them.
#[tactic(auto, using(crate::proofs::There::there))]
pub fn cut_words<C: Core>(core: &mut C, stack: u16, length: u32)
    requires { IsSome (stack_at (C.Core.stacks core.old) stack) }
    ensures stacks { C.Core.stacks core.new ≡ with_cut (C.Core.stacks core.old) stack length }
    ensures rows { C.Core.rows core.new ≡ C.Core.rows core.old }
{
    let _ = core.cut(stack, length);
}

#[tactic(auto, using(crate::proofs::There::there))]
pub fn close_stack<C: Core>(core: &mut C, stack: u16)
    requires { IsSome (stack_at (C.Core.stacks core.old) stack) }
    ensures stacks { C.Core.stacks core.new ≡ closed_at (C.Core.stacks core.old) stack }
    ensures rows { C.Core.rows core.new ≡ C.Core.rows core.old }
{
    let _ = core.close_stack(stack);
}

// Closes a row, where it is open.
#[tactic(auto, using(crate::proofs::There::there))]
pub fn close_row<C: Core>(core: &mut C, row: u32)
    requires { AreShort (C.Core.rows core.old) }
    ensures rows { C.Core.rows core.new ≡ closed_at (C.Core.rows core.old) row }
    ensures short { AreShort (C.Core.rows core.new) }
    ensures stacks { C.Core.stacks core.new ≡ C.Core.stacks core.old }
{
    let _ = core.close_row(row);
}

// The displacement of the process's frame.
pub fn frame_of(regs: &Registers) -> u16
    requires { regs.now.ll < levels }
    ensures { result ≡ frame regs.now }
{
    match regs.display.get(regs.ll) {
        Some(place) => place.at,
        None => 0,
    }
}

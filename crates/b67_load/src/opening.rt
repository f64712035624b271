// A stack is opened with all its words.
ghost use Rattle.std.specs.Prelude.{◌≡◌, ◌<◌, ◌≤◌, None, length, IsSome, OnOk, OnErr};
ghost use Rattle.b67_store.specs.Store.{stack_at, words_of, with_push, opened_at, stack_limit};

use b67_store::Core;
use b67_word::Word;
use std::alloc::AllocError;

// Pushes a word on a stack that has room for it.
fn push_word<C: Core>(core: &mut C, stack: u16, word: Word)
    requires open { IsSome (stack_at (C.Core.stacks core.old) stack) }
    requires room { length (words_of (C.Core.stacks core.old) stack) < stack_limit }
    ensures stacks { C.Core.stacks core.new ≡ with_push (C.Core.stacks core.old) stack word }
    ensures rows { C.Core.rows core.new ≡ C.Core.rows core.old }
{
    let _ = core.push(stack, word);
}

/// Opens a stack that is not open, with these words. Without memory the stacks are as before.
pub fn open_with<C: Core>(core: &mut C, stack: u16, words: &[Word]) -> Result<(), AllocError>
    requires free { stack_at (C.Core.stacks core.old) stack ≡ None }
    requires room { length words.now ≤ stack_limit }
    ensures opened { OnOk result (C.Core.stacks core.new ≡ opened_at (C.Core.stacks core.old) stack words.now) }
    ensures unchanged { OnErr result (C.Core.stacks core.new ≡ C.Core.stacks core.old) }
    ensures rows { C.Core.rows core.new ≡ C.Core.rows core.old }
{
    if core.open_stack(stack).is_err() {
        return Err(AllocError);
    }
    let mut index = 0;
    'words: while index < words.len() {
        push_word(core, stack, words[index]);
        index += 1;
    }
    Ok(())
}

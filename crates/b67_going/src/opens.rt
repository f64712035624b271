//! The stack of a new process.

ghost use Rattle.std.specs.Prelude.{◌≡◌, ◌≢◌, ◌+◌, ◌<◌, ◌≤◌, ◌^◌, ◌++◌, ◌∷◌, [], length, IsSome, OnOk, OnErr};
ghost use Rattle.b67_word.specs.Word.{Word};
ghost use Rattle.b67_store.specs.Store.{stack_at, words_of, with_stack, with_push, opened_at, stack_limit};
ghost use Rattle.b67_table.specs.Linkage.{entered_mark, base_control};
ghost use Rattle.b67_table.specs.Starting.{first_words};
ghost use Rattle.b67_going.specs.Paths.{some_words};
ghost use Rattle.b67_going.specs.Starts.{starting_of, StartIsGiven};

use crate::paths::Needs;
use crate::starts::Given;
use b67_control::{Mscw, Rcw};
use b67_store::{Core, OpenFault};
use b67_word::{Place, Word};

// Pushes a word on a stack that has room for it.
fn push_word<C: Core>(core: &mut C, stack: u16, word: Word)
    requires open { IsSome (stack_at (C.Core.stacks core.old) stack) }
    requires room { length (words_of (C.Core.stacks core.old) stack) < stack_limit }
    ensures stacks { C.Core.stacks core.new ≡ with_push (C.Core.stacks core.old) stack word }
    ensures rows { C.Core.rows core.new ≡ C.Core.rows core.old }
{
    let _ = core.push(stack, word);
}

// Pushes the parameters of a new process on its stack.
fn push_parameters<C: Core>(core: &mut C, number: u16, needs: &Needs)
    requires open { IsSome (stack_at (C.Core.stacks core.old) number) }
    requires room { length (words_of (C.Core.stacks core.old) number) + needs.now.count ≤ stack_limit }
    requires other { needs.now.stack ≢ number }
    requires there { needs.now.first + needs.now.count ≤ length (words_of (C.Core.stacks core.old) needs.now.stack) }
    requires low { needs.now.first + needs.now.count ≤ stack_limit }
    ensures stacks { C.Core.stacks core.new ≡ with_stack (C.Core.stacks core.old) number (words_of (C.Core.stacks core.old) number ++ some_words (C.Core.stacks core.old) needs.now.stack needs.now.first needs.now.count) }
    ensures rows { C.Core.rows core.new ≡ C.Core.rows core.old }
{
    let mut index = 0;
    'parameters: while index < needs.count {
        let at = Place {
            stack: needs.stack,
            at: (needs.first + index) as u16,
        };
        let word = core.read(at).unwrap();
        push_word(core, number, word);
        index += 1;
    }
}

/// There is no memory for a new process.
#[derive(Clone, Copy)]
pub struct NoMemory;

// Opens a stack with the mark and the control word of a base frame of a level, which is linked to its home.
fn open_base<C: Core>(core: &mut C, number: u16, home: Place, level: u8) -> Result<(), NoMemory>
    requires free { stack_at (C.Core.stacks core.old) number ≡ None }
    requires home { home.stack < 2 ^ 10 }
    requires level { level < 2 ^ 5 }
    ensures opened { OnOk result (C.Core.stacks core.new ≡ opened_at (C.Core.stacks core.old) number (entered_mark home 0 ∷ base_control level ∷ [])) }
    ensures unchanged { OnErr result (C.Core.stacks core.new ≡ C.Core.stacks core.old) }
    ensures rows { C.Core.rows core.new ≡ C.Core.rows core.old }
{
    match core.open_stack(number) {
        Ok(()) => {}
        Err(_) => return Err(NoMemory),
    }
    let mark = Mscw {
        entered: true,
        stack: home.stack,
        displacement: home.at,
        df: 0,
    };
    let control = Rcw {
        segment: 0,
        psr: 0,
        pir: 0,
        caller_level: 0,
        caller_cells: 0,
        own_level: level,
    };
    push_word(core, number, mark.pack());
    push_word(core, number, control.pack());
    Ok(())
}

/// Opens the stack of a new process, with the mark and the control word of its base frame and its parameters. Without
/// memory nothing changes.
pub fn open_process<C: Core>(core: &mut C, number: u16, start: &Given) -> Result<(), NoMemory>
    requires given { StartIsGiven (C.Core.stacks core.old) start.now }
    requires free { stack_at (C.Core.stacks core.old) number ≡ None }
    requires home { start.now.needs.home.stack < 2 ^ 10 }
    requires other { start.now.needs.stack ≢ number }
    ensures opened { OnOk result (C.Core.stacks core.new ≡ opened_at (C.Core.stacks core.old) number (first_words (starting_of (C.Core.stacks core.old) start.now))) }
    ensures unchanged { OnErr result (C.Core.stacks core.new ≡ C.Core.stacks core.old) }
    ensures rows { C.Core.rows core.new ≡ C.Core.rows core.old }
{
    match open_base(core, number, start.needs.home, start.procedure.level) {
        Ok(()) => {
            push_parameters(core, number, &start.needs);
            Ok(())
        }
        Err(none) => Err(none),
    }
}

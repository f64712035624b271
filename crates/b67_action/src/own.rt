// Private operators of a process, and words of a process that are copied and put back.
ghost use Rattle.std.specs.Prelude.{◌≡◌, ◌⊎◌, ◌+◌, ◌<◌, ◌≤◌, ◌++◌, IfSome, IsSome, drop, length, reverse, take, vec_capacity};
ghost use Rattle.b67_list.specs.Numbered.{numbered};
ghost use Rattle.b67_ops.specs.Spelling.{Fits};
ghost use Rattle.b67_store.specs.Store.{stack_at, words_of, with_stack, stack_limit};
ghost use Rattle.b67_linkage.specs.Held.{IsLinked};
ghost use Rattle.b67_operators.specs.Leaves.{IsLinkedIn};
ghost use Rattle.b67_private.specs.Parts.{IsPrivatePart};
ghost use Rattle.b67_reach.specs.Images.{own_of_image};
ghost use Rattle.b67_action.specs.Own.{part_of_process, stop_by, DoesOwn, DoesOwnIn};

use b67_linkage::{cut_words, push_word};
use b67_ops::Operator;
use b67_private::operate;
use b67_reach::{Registers, Stop};
use b67_store::{Core, MOST_STACK_WORDS};
use b67_table::Words;
use b67_word::Place;

/// The words of a process's stack from a base on are copied.
pub fn take_words<C: Core>(core: &C, regs: &Registers, base: u32, words: &mut Words)
    requires linked { IsLinked (C.Core.stacks core.now) (C.Core.rows core.now) regs.now }
    requires within { base ≤ regs.now.s }
    ensures { words.new ≡ reverse (drop base (words_of (C.Core.stacks core.now) regs.now.stack)) }
{
    words.begin(base);
    let mut at = base;
    'taking: while at < regs.s {
        let place = Place {
            stack: regs.stack,
            at: at as u16,
        };
        words.push(core.read(place).unwrap());
        at += 1;
    }
}

/// Words are put back: those of a stack from a base on give way to them.
pub fn put_words<C: Core>(core: &mut C, stack: u16, base: u32, words: &Words)
    requires open { IsSome (stack_at (C.Core.stacks core.old) stack) }
    requires room { base + length words.now ≤ stack_limit }
    ensures stacks { C.Core.stacks core.new ≡ with_stack (C.Core.stacks core.old) stack (take base (words_of (C.Core.stacks core.old) stack) ++ reverse words.now) }
    ensures rows { C.Core.rows core.new ≡ C.Core.rows core.old }
{
    cut_words(core, stack, base);
    let mut count = words.len();
    'putting: while count > 0 {
        count -= 1;
        let word = words.from_top(count).unwrap();
        push_word(core, stack, word);
    }
}

// A stop of a private operator is one of any operator.
fn stop_by(stop: b67_private::Stop) -> Stop
    ensures { result ≡ stop_by stop }
{
    match stop {
        b67_private::Stop::Fault(kind) => Stop::Fault(kind),
        b67_private::Stop::Interrupt(kind) => Stop::Interrupt(kind),
        b67_private::Stop::StackLimit => Stop::StackLimit,
    }
}

// How many words a room has at least, so that it has a place for one more than S counts: all that a stack may have where there is none.
#[inline(always)]
pub fn room_for(regs: &Registers) -> u32
    requires { regs.now.s ≤ stack_limit }
    ensures place { (regs.now.s < result) ⊎ (result ≡ stack_limit) }
    ensures most { result ≤ stack_limit }
{
    (regs.s + 1).min(MOST_STACK_WORDS as u32)
}

/// A private operator is performed on the words of its stack where they are.
pub fn perform_own<C: Core>(
    core: &mut C,
    regs: &mut Registers,
    op: &Operator,
    next: u16,
) -> Result<(), Stop>
    requires linked { IsLinked (C.Core.stacks core.old) (C.Core.rows core.old) regs.old }
    requires part { IsPrivatePart (part_of_process (C.Core.stacks core.old) regs.old) }
    requires fits { Fits regs.old.ll op.now }
    ensures { DoesOwn op.now next (own_of_image (C.Core.stacks core.old) (C.Core.rows core.old) regs.old) (own_of_image (C.Core.stacks core.new) (C.Core.rows core.new) regs.new) result }
{
    let stack = regs.stack;
    let least = room_for(regs);
    let room = core.room(stack, least);
    let answer = operate(regs, room, op, next);
    cut_words(core, stack, regs.s);
    match answer {
        Ok(()) => Ok(()),
        Err(stop) => Err(stop_by(stop)),
    }
}

/// A private operator is performed in a process.
pub fn perform_own_in<C: Core>(
    core: &mut C,
    all: &mut Vec<Registers>,
    process: u32,
    op: &Operator,
    next: u16,
) -> Result<(), Stop>
    requires linked { IsLinkedIn (C.Core.stacks core.old) (C.Core.rows core.old) (numbered all.old.items process) }
    requires part { IfSome (numbered all.old.items process) (λ r. IsPrivatePart (part_of_process (C.Core.stacks core.old) r)) }
    requires fits { IfSome (numbered all.old.items process) (λ r. Fits r.ll op.now) }
    ensures does { DoesOwnIn op.now next (C.Core.stacks core.old) (C.Core.rows core.old) all.old.items process (C.Core.stacks core.new) (C.Core.rows core.new) all.new.items result }
    ensures room { vec_capacity all.old ≤ vec_capacity all.new }
{
    let regs = &mut all[process as usize - 1];
    perform_own(core, regs, op, next)
}

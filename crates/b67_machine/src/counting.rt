// What is kept of an operator beside the image.
ghost use Rattle.std.specs.Prelude.{◌≡◌, ◌+◌, ◌<◌, ◌≤◌, ◌^◌, [], true, false, length, vec_capacity, IfSome};
ghost use Rattle.b67_action.specs.Done.{is_performed};
ghost use Rattle.b67_machine.specs.Kept.{operators_counted, Counts};
ghost use Rattle.b67_machine.specs.Letters.{or_before, last_or};
ghost use Rattle.b67_machine.specs.Stepping.{failure_of, limit_of, lacks, operators_in};

use crate::Failure;
use b67_action::Done;
use b67_deeds::Letter;

/// So many operators of a process are counted.
pub fn count(counts: &mut Vec<u64>, process: u32, operators: u32)
    requires least { 1 ≤ process }
    requires most { process ≤ length counts.old.items }
    requires room { operators_counted counts.old.items process + operators < 2 ^ 64 }
    ensures counts { Counts counts.old.items process operators counts.new.items }
    ensures length { length counts.new.items ≡ length counts.old.items }
{
    counts[process as usize - 1] += u64::from(operators);
}

/// How many operators are counted of what an operator came to.
pub fn operators_in(done: Done) -> u32
    ensures { result ≡ operators_in done }
{
    match done {
        Done::Went | Done::Waits | Done::Ended | Done::Fault(_) => 1,
        Done::Interrupt(_) | Done::StackLimit | Done::NoMemory => 0,
    }
}

/// The fault that an operator came to.
pub fn failure_of(process: u32, done: Done) -> Option<Failure>
    ensures { result ≡ failure_of process done }
{
    match done {
        Done::Fault(kind) => Some(Failure { kind, process }),
        _ => None,
    }
}

/// The process of an operator that came to the stack limit.
pub fn limit_of(process: u32, done: Done) -> Option<u32>
    ensures { result ≡ limit_of process done }
{
    match done {
        Done::StackLimit => Some(process),
        _ => None,
    }
}

/// Tests that an operator found no memory.
pub fn lacks(done: Done) -> bool
    ensures { result ≡ lacks done }
{
    matches!(done, Done::NoMemory)
}

/// Whom an operator has released stays noted where it was performed, and else nobody does.
pub fn settle(released: &mut Vec<u32>, done: Done)
    ensures kept { is_performed done ≡ true → released.new.items ≡ released.old.items }
    ensures none { is_performed done ≡ false → released.new.items ≡ [] }
    ensures room { vec_capacity released.old ≤ vec_capacity released.new }
{
    match done {
        Done::Went | Done::Waits | Done::Ended => {}
        Done::Fault(_) | Done::Interrupt(_) | Done::StackLimit | Done::NoMemory => released.clear(),
    }
}

/// The letter, where there is one, is that of the last action.
pub fn note(last: &mut Option<Letter>, letter: Option<Letter>)
    ensures { last.new ≡ or_before letter last.old }
{
    if letter.is_some() {
        *last = letter;
    }
}

/// The last of these letters is that of the last action.
pub fn note_last(last: &mut Option<Letter>, letters: &[Letter])
    ensures { last.new ≡ last_or letters.now last.old }
{
    if let Some(letter) = letters.last() {
        *last = Some(*letter);
    }
}

/// The letter, where there is one, is noted in its place.
pub fn write_letter(place: &mut Letter, letter: Option<Letter>)
    ensures { IfSome letter (λ l. place.new ≡ l) }
{
    if let Some(letter) = letter {
        *place = letter;
    }
}

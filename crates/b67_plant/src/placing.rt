// What a processor is answered after an action.
ghost use Rattle.std.specs.Prelude.{◌≡◌, Some, true};
ghost use Rattle.b67_action.specs.declared.done.Done.TheVariants.{Went};
ghost use Rattle.b67_stands.specs.Calls.{done_is_action};
ghost use Rattle.b67_plant.specs.Calls.{lacks_in, refusal, answer_to, acts_in};

use b67_action::Done;
use b67_machine::Replayed;
use b67_processors::Acted;

/// Tests that an action was performed.
#[inline(always)]
pub fn is_action(done: Option<Done>) -> bool
    ensures { result ≡ done_is_action done }
{
    match done {
        Some(Done::Went | Done::Waits | Done::Ended | Done::Fault(_)) => true,
        Some(Done::Interrupt(_) | Done::StackLimit | Done::NoMemory) => false,
        None => false,
    }
}

/// Tests that there was no memory for an action.
#[inline(always)]
pub fn lacks(done: Option<Done>) -> bool
    ensures { result ≡ lacks_in done }
{
    matches!(done, Some(Done::NoMemory))
}

/// Tests that an action went on.
#[inline(always)]
pub fn went(done: Option<Done>) -> bool
    ensures { result ≡ true → done ≡ Some Went }
{
    matches!(done, Some(Done::Went))
}

/// What a processor is answered. In sound code no interrupt comes.
#[inline(always)]
pub fn answer_to(done: Option<Done>) -> Acted
    ensures { result ≡ answer_to done }
{
    match done {
        Some(Done::Waits) => Acted::Waits,
        Some(Done::NoMemory) => Acted::NoMemory,
        Some(Done::Went | Done::Ended | Done::Fault(_)) => Acted::Went,
        Some(Done::Interrupt(_) | Done::StackLimit) => Acted::Over,
        None => Acted::Over,
    }
}

/// How many acts an answer says: one where an action was performed.
#[inline(always)]
pub fn acts_in(acted: Acted) -> u64
    ensures { result ≡ acts_in acted }
{
    match acted {
        Acted::Went | Acted::Waits => 1,
        Acted::NotOut | Acted::Over | Acted::NoMemory => 0,
    }
}

/// What is answered where the run has ended.
#[inline(always)]
pub fn refusal(answer: Option<Replayed>) -> Option<Acted>
    ensures { result ≡ refusal answer }
{
    match answer {
        None => None,
        Some(Replayed::NoMemory) => Some(Acted::NoMemory),
        Some(Replayed::Ended | Replayed::Ran | Replayed::BudgetSpent) => Some(Acted::Over),
        Some(Replayed::Illegal { .. } | Replayed::Differs { .. }) => Some(Acted::Over),
    }
}

//! The text of a console.

ghost use Rattle.std.specs.Prelude.{◌≡◌, ◌≤◌, ℕ, List, length, Some, slice_get, IfOk};
ghost use Rattle.std.specs.List.{flat_map};
ghost use Rattle.algol_tree.specs.Image.{program as plain};
ghost use Rattle.algol_tree.specs.Scopes.{scopes_of};
ghost use Rattle.algol_meaning.specs.World as meaning;
ghost use Rattle.algol_meaning.specs.Run.{run};
ghost use Rattle.b67_schedule.specs.Giving.{HasRuns, given_entries};
ghost use Rattle.b67_schedule.specs.Schedules.{entries};
ghost use Rattle.b67_table.specs.Sound.{Sound};
ghost use Rattle.b67_machine.specs.Beginning.{IsFresh};
ghost use Rattle.b67_faithful.specs.Faithful.{Faithful};
ghost use Rattle.b67_fronts.specs.Fronts.{GoesThrough};
ghost use Rattle.b67_stops.specs.Answering.{AreAnswers};
ghost use Rattle.b67_console.specs.Moments.{CommandIsTold, most_operators};
ghost use Rattle.b67_console.specs.Telling.{ConsoleText, RunsWhole};

use crate::leading::positions_of;
use crate::moment::Moment;
use algol_front::Checked;
use b67_commands::{Command, positions_are_within};
use b67_flat::FlatCore;
use b67_fronts::runs_go_through_alike;
use b67_judge::{first, lows_of};
use b67_list::{Line, List, discard};
use b67_machine::Machine;
use b67_schedule::{Given, Run, Schedule};
use b67_segment::Code;
use b67_stops::answers_of;
use std::alloc::{AllocError, Global};

/// The runs that are given.
fn runs_of(given: &Given) -> &[Run]
    ensures { entries result.now ≡ given_entries given.now }
{
    match given {
        Given::One(old) => old.runs.items().as_slice(),
        Given::Two(schedule) => schedule.runs(),
    }
}

/// Texts one after another.
fn joined(alloc: Global, texts: &[Line]) -> Result<Vec<u8>, AllocError>
    ensures { IfOk result (λ text. text.items ≡ flat_map (λ (one : List ℕ). one) texts.now) }
{
    let mut text = Vec::new(alloc);
    'texts: for one in texts {
        text.extend_from_slice(one.bytes())?;
    }
    Ok(text)
}

/// The answers to commands that are given at these positions of a schedule, by a walk over it from the first entry on.
fn tell_all(
    alloc: Global,
    checked: &Checked,
    machine: Machine<FlatCore>,
    given: &Given,
    commands: &[Command],
    at: &[u64],
) -> Result<Vec<Line>, AllocError>
    requires runs { HasRuns given.now }
    requires fresh { IsFresh machine }
    requires sound { Sound machine.code }
    requires goes { GoesThrough machine.code (given_entries given.now) most_operators }
    requires legal { (after : meaning.World) × (run (plain checked.now.program) (given_entries given.now) ≡ Some after) }
    requires places { length at.now ≡ length commands.now }
    requires within { (place here : ℕ) → slice_get at.now place ≡ Some here → here ≤ length (given_entries given.now) }
    ensures { IfOk result (λ texts. AreAnswers (CommandIsTold (scopes_of (plain checked.now.program)) machine.code) (given_entries given.now) commands.now at.now texts.items) }
{
    runs_go_through_alike();
    let done = Schedule::with_room(alloc, given.len() as usize)?;
    let lows = lows_of(alloc, checked)?;
    let world = first(alloc, checked, &lows)?;
    let mut moment = Moment {
        world,
        machine,
        done,
        spent: 0,
    };
    let told = answers_of(&mut moment, alloc, runs_of(given), commands, at);
    discard(moment);
    told
}

/// The text of a console of an accepted source with its code, for commands in a schedule all entries of which can be performed.
pub fn console(
    alloc: Global,
    checked: &Checked,
    code: Code,
    given: &Given,
    commands: &List<Command>,
) -> Result<Vec<u8>, AllocError>
    requires faithful { Faithful (plain checked.now.program) code }
    requires runs { HasRuns given.now }
    requires whole { RunsWhole code (given_entries given.now) }
    ensures { IfOk result (λ text. ConsoleText (plain checked.now.program) code (given_entries given.now) commands.now text.items) }
{
    runs_go_through_alike();
    positions_are_within();
    let commands = commands.items().as_slice();
    let at = positions_of(alloc, checked, runs_of(given), commands)?;
    let machine = Machine::load(alloc, code, FlatCore::new(alloc))?;
    let texts = tell_all(alloc, checked, machine, given, commands, at.as_slice())?;
    let told = joined(alloc, texts.as_slice());
    discard(texts);
    let text = told?;
    Ok(text)
}

//! What is shown after the first entries of a schedule.

ghost use Rattle.std.specs.Prelude.{◌≡◌, ℕ, List, min, take, IfOk};
ghost use Rattle.algol_tree.specs.Image.{program as plain};
ghost use Rattle.algol_tree.specs.Plain.{PProgram};
ghost use Rattle.algol_tree.specs.Scopes.{scopes_of};
ghost use Rattle.algol_meaning.specs.World as meaning;
ghost use Rattle.algol_meaning.specs.Run.{start};
ghost use Rattle.algol_cells.specs.SeenScope.{scoped};
ghost use Rattle.algol_world.specs.SeenWorld.{world_of};
ghost use Rattle.algol_lean.specs.Beside.{RunsBeside};
ghost use Rattle.b67_schedule.specs.Schedules.{entries};
ghost use Rattle.b67_schedule.specs.Giving.{given_entries};
ghost use Rattle.b67_judge.specs.Walked.{WalksBeside};
ghost use Rattle.b67_dump.specs.Dumps.{Dumps, ShownAfter, dump_text};

use crate::Answer;
use crate::snapshots::snapshot;
use algol_front::Checked;
use algol_world::World;
use b67_judge::{Walked, first, go_on, lows_of};
use b67_list::discard;
use b67_report::{EndWords, push_end, push_lines};
use b67_schedule::{Given, Run};
use std::alloc::{AllocError, Global};

/// The runs that are given.
fn runs_of(given: &Given) -> &[Run]
    ensures { entries result.now ≡ given_entries given.now }
{
    match given {
        Given::One(old) => old.runs.items().as_slice(),
        Given::Two(schedule) => schedule.runs(),
    }
}

/// The lesser of two numbers of entries.
fn lesser(left: u64, times: u32) -> u32
    ensures { result ≡ min left times }
{
    if left < u64::from(times) {
        left as u32
    } else {
        times
    }
}

/// Makes the first so many entries of runs, or all where there are fewer, as far as they are legal. Instances that are left give back their arrays.
fn walk_first<'p>(
    world: &mut World<'p>,
    alloc: Global,
    runs: &[Run],
    most: u64,
) -> Result<Walked, AllocError>
    ensures walked { IfOk result (λ walked. (w : meaning.World) → RunsBeside (scoped world.old.scopes) w (world_of world.old)
        → WalksBeside (scoped world.old.scopes) (take most (entries runs.now)) w (world_of world.new) walked) }
    ensures same { world.new.scopes ≡ world.old.scopes }
{
    let mut left = most;
    'runs: for run in runs {
        let times = lesser(left, run.times);
        let went = go_on(world, alloc, run.process as usize, times)?;
        if went < times {
            return Ok(Walked::Stopped {
                entry: most - left + u64::from(went) + 1,
            });
        }
        left -= u64::from(times);
    }
    Ok(Walked::Whole)
}

/// What is shown of a world to which a walk led from the first world.
fn shown(alloc: Global, world: &World<'_>, walked: Walked) -> Result<Answer, AllocError>
    ensures { IfOk result (λ answer. (tree : PProgram) (done : List ℕ) → scoped world.now.scopes ≡ scopes_of tree
        → WalksBeside (scopes_of tree) done (start (scopes_of tree)) (world_of world.now) walked → ShownAfter tree done answer) }
{
    match walked {
        Walked::Stopped { entry } => Ok(Answer::Illegal { entry }),
        Walked::Whole => Ok(Answer::Shown(snapshot(alloc, world)?)),
    }
}

/// What is shown of an accepted source after the first so many entries that are given, or after all where there are fewer. Their letters are
/// passed over, and what comes after them is not judged.
pub fn dump(
    alloc: Global,
    checked: &Checked,
    given: &Given,
    most: u64,
) -> Result<Answer, AllocError>
    ensures { IfOk result (Dumps (plain checked.now.program) (given_entries given.now) most) }
{
    let lows = lows_of(alloc, checked)?;
    let mut world = first(alloc, checked, &lows)?;
    let walked = walk_first(&mut world, alloc, runs_of(given), most);
    let answer = match walked {
        Ok(walked) => shown(alloc, &world, walked),
        Err(lack) => Err(lack),
    };
    discard(world);
    answer
}

/// The text of what is shown.
pub fn dump_text(alloc: Global, answer: &Answer) -> Result<Vec<u8>, AllocError>
    ensures { IfOk result (λ text. text.items ≡ dump_text answer.now) }
{
    let mut text = Vec::new(alloc);
    match answer {
        Answer::Shown(lines) => push_lines(&mut text, b"DUMP ", lines.items().as_slice())?,
        Answer::Illegal { entry } => {
            push_end(&mut text, &EndWords::Illegal { entry: *entry })?;
            text.extend_from_slice(b"\n")?;
        }
    }
    Ok(text)
}

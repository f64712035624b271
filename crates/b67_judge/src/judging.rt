//! The verdict on a report.

ghost use Rattle.std.specs.Prelude.{◌≡◌, ◌-◌, ◌<◌, ◌^◌, length, IfOk};
ghost use Rattle.algol_tree.specs.declared.token.Spot as token;
ghost use Rattle.algol_tree.specs.Blocks.{blocks_of_program};
ghost use Rattle.algol_tree.specs.Image.{program as plain};
ghost use Rattle.algol_tree.specs.Plain.{PProgram};
ghost use Rattle.algol_tree.specs.Scopes.{scopes_of};
ghost use Rattle.algol_meaning.specs.Run.{start};
ghost use Rattle.algol_paths.specs.Arrays.{lows_at};
ghost use Rattle.algol_lows.specs.Lows.{lows_found_under};
ghost use Rattle.algol_cells.specs.SeenScope.{scoped};
ghost use Rattle.algol_world.specs.SeenWorld.{world_of};
ghost use Rattle.b67_schedule.specs.Schedules.{entries};
ghost use Rattle.b67_judge.specs.Judging.{Judges};
ghost use Rattle.algol_lean.specs.Beside.{RunsBeside};
ghost use Rattle.b67_judge.specs.Walked.{WalksBeside};

use crate::Verdict;
use crate::comparing::first_other;
use crate::ending::end_fits;
use crate::walking::{Walked, walk};
use algol_front::Checked;
use algol_lows::{LowsByPlace, lows_of_program};
use algol_names::scopes_of;
use algol_perform::start;
use algol_world::World;
use b67_list::discard;
use b67_report::Report;
use std::alloc::{AllocError, Global};

/// The lower bounds of the arrays of an accepted source.
pub fn lows_of(alloc: Global, checked: &Checked) -> Result<LowsByPlace, AllocError>
    ensures { IfOk result (λ lows. (spot : token.Spot) → lows_found_under lows spot ≡ lows_at (blocks_of_program (plain checked.now.program)) spot) }
{
    lows_of_program(alloc, &checked.program, &checked.scopes)
}

/// The world in which the run of an accepted source begins.
pub fn first<'p>(
    alloc: Global,
    checked: &'p Checked,
    lows: &'p LowsByPlace,
) -> Result<World<'p>, AllocError>
    requires { (spot : token.Spot) → lows_found_under lows.now spot ≡ lows_at (blocks_of_program (plain checked.now.program)) spot }
    ensures scopes { IfOk result (λ w. scoped w.scopes ≡ scopes_of (plain checked.now.program)) }
    ensures begins { IfOk result (λ w. world_of w ≡ start (scopes_of (plain checked.now.program))) }
    ensures beside { IfOk result (λ w. RunsBeside (scoped w.scopes) (start (scopes_of (plain checked.now.program))) (world_of w)) }
{
    let scopes = scopes_of(alloc, &checked.program, &checked.scopes, lows)?;
    start(alloc, scopes)
}

/// The verdict on a report whose schedule was walked over from the first world to this one.
fn verdict_of(world: &World<'_>, walked: Walked, report: &Report) -> Verdict
    requires few { length report.now.output < 2 ^ 32 - 1 }
    ensures { (tree : PProgram) → scoped world.now.scopes ≡ scopes_of tree
        → WalksBeside (scopes_of tree) (entries report.now.schedule.runs) (start (scopes_of tree)) (world_of world.now) walked → Judges tree report.now result }
{
    match walked {
        Walked::Stopped { entry } => Verdict::BadEntry { entry },
        Walked::Whole => match first_other(report.output.items(), world.output.items()) {
            Some(line) => Verdict::BadLine { line: line as u32 },
            None => {
                if end_fits(world, report.schedule.len(), report.end) {
                    Verdict::Just
                } else {
                    Verdict::BadEnd
                }
            }
        },
    }
}

/// Judges a report of a source: whether its schedule is legal, its output and its end those of the source under it. Listing, counts and acts
/// are not judged.
pub fn judge(alloc: Global, checked: &Checked, report: &Report) -> Result<Verdict, AllocError>
    requires few { length report.now.output < 2 ^ 32 - 1 }
    ensures { IfOk result (Judges (plain checked.now.program) report.now) }
{
    let lows = lows_of(alloc, checked)?;
    let mut world = first(alloc, checked, &lows)?;
    let walked = walk(&mut world, alloc, &report.schedule);
    let verdict = match walked {
        Ok(walked) => Ok(verdict_of(&world, walked, report)),
        Err(lack) => Err(lack),
    };
    discard(world);
    verdict
}

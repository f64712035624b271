//! The races of a source under a schedule.

ghost use Rattle.std.specs.Prelude.{◌≡◌, ◌+◌, ◌<◌, ◌^◌, map, length, Some, IfOk};
ghost use Rattle.algol_tree.specs.Image.{program as plain};
ghost use Rattle.algol_meaning.specs.World as meaning;
ghost use Rattle.algol_meaning.specs.Run.{run};
ghost use Rattle.b67_schedule.specs.Schedules.{entries};
ghost use Rattle.b67_race.specs.Noted as noted;
ghost use Rattle.b67_races.specs.Schedules.{AreRacesOf};
ghost use Rattle.b67_races.specs.Told.{race_of};

use crate::walking::go_all;
use algol_front::Checked;
use b67_judge::{first, lows_of};
use b67_list::{Line, discard};
use b67_race::{Race as Found, begin, races_of};
use b67_schedule::Schedule;
use std::alloc::{AllocError, Global};

/// A cell: its instance, by number from 1, its name, and of an array the number of an element, row by row from 0.
#[derive(Drop)]
pub struct CellName {
    pub instance: usize,
    pub name: Line,
    pub at: Option<usize>,
}

/// Two entries that access a cell, and nothing orders them.
#[derive(Drop)]
pub struct Race {
    pub first: u32,
    pub second: u32,
    pub cell: CellName,
}

/// A race with a name of its own.
fn own(alloc: Global, race: &Found<'_>) -> Result<Race, AllocError>
    ensures { IfOk result (λ r. race_of r ≡ noted.race_of race.now) }
{
    let name = Line::of(Vec::from_slice(alloc, race.cell.name)?);
    Ok(Race {
        first: race.first,
        second: race.second,
        cell: CellName {
            instance: race.cell.instance,
            name,
            at: race.cell.element.checked_sub(1),
        },
    })
}

/// Races with names of their own.
fn all_own(alloc: Global, found: &[Found<'_>]) -> Result<Vec<Race>, AllocError>
    ensures { IfOk result (λ rs. map race_of rs.items ≡ map noted.race_of found.now) }
{
    let mut all = Vec::new(alloc);
    'owning: for race in found {
        let one = own(alloc, race)?;
        all.push(one)?;
    }
    Ok(all)
}

/// The races of an accepted source under a schedule that is legal.
pub fn races(alloc: Global, checked: &Checked, schedule: &Schedule) -> Result<Vec<Race>, AllocError>
    requires few { length (entries schedule.now.runs) + 1 < 2 ^ 32 }
    ensures { IfOk result (λ rs. (after : meaning.World) → run (plain checked.now.program) (entries schedule.now.runs) ≡ Some after
        → AreRacesOf (plain checked.now.program) (entries schedule.now.runs) (map race_of rs.items)) }
{
    let lows = lows_of(alloc, checked)?;
    let mut world = first(alloc, checked, &lows)?;
    let mut walk = begin(alloc);
    let went = go_all(&mut world, &mut walk, alloc, schedule);
    discard(world);
    let found = races_of(walk);
    went?;
    let all = all_own(alloc, found.as_slice())?;
    Ok(all)
}

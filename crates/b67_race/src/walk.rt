//! A walk over the entries of a schedule that finds their races.

ghost use Rattle.std.specs.Prelude.{◌≡◌, ℕ, ◌+◌, ◌<◌, ◌≤◌, ◌==◌, ◌^◌, false, List, [], ◌∷◌, ◌++◌, map, Option, IfOk, OnOk};
ghost use Rattle.b67_race.specs.Entries.{Done};
ghost use Rattle.b67_race.specs.Clocks.{Notes, clock_joined};
ghost use Rattle.b67_race.specs.Times.{time_of};
ghost use Rattle.b67_race.specs.Timed.{event_time, time_in, signal_of};
ghost use Rattle.b67_race.specs.Cells.{standing_in};
ghost use Rattle.b67_race.specs.Races.{AreRaces, RaceFinds};
ghost use Rattle.b67_race.specs.Noted.{StandsAfter, access_of, done_of, race_of};

use crate::cells::{Cells, Key, Past, note_access};
use crate::clock::Clock;
use crate::timing::{Event, Timing, clock_before, note_event, note_processes};
use std::alloc::{AllocError, Global};
use std::collections::BTreeMap;

/// The cell that an entry reads or stores.
#[derive(Clone, Copy)]
pub struct Access<'p> {
    pub cell: Key<'p>,
    pub storing: bool,
}

/// What one entry did.
#[derive(Drop)]
pub struct Entry<'p> {
    pub process: usize,
    pub access: Option<Access<'p>>,
    pub event: Event<'p>,
    pub released: Vec<usize>,
    pub started: Option<usize>,
}

/// Two entries that access a cell, and nothing orders them.
#[derive(Clone, Copy)]
pub struct Race<'p> {
    pub first: u32,
    pub second: u32,
    pub cell: Key<'p>,
}

/// Where a walk stands: how many entries it has noted, their clocks, what is kept of each cell, and the races found.
#[derive(Drop)]
pub struct Walk<'p> {
    pub entries: u32,
    pub timing: Timing<'p>,
    pub cells: Cells<'p>,
    pub found: Vec<Race<'p>>,
}

/// A walk that has noted nothing.
pub fn begin<'p>(alloc: Global) -> Walk<'p>
    ensures { StandsAfter [] result }
{
    Walk {
        entries: 0,
        timing: Timing {
            processes: Vec::new(alloc),
            set: BTreeMap::new(alloc),
            freed: BTreeMap::new(alloc),
        },
        cells: BTreeMap::new(alloc),
        found: Vec::new(alloc),
    }
}

/// Notes the access of an entry: the race that it makes, if it makes one.
fn note_race<'p>(
    cells: &mut Cells<'p>,
    found: &mut Vec<Race<'p>>,
    alloc: Global,
    access: Option<Access<'p>>,
    clock: &Clock,
    now: Past,
) -> Result<(), AllocError>
    ensures { OnOk result (RaceFinds now.entry now.process (access_of access.entry) (time_of clock.now) (standing_in cells.old) (standing_in cells.new) (map race_of found.old.items) (map race_of found.new.items)) }
{
    let Some(access) = access else {
        return Ok(());
    };
    let rival = note_access(cells, alloc, access.cell, clock, access.storing, now)?;
    if rival > 0 {
        found.push(Race {
            first: rival,
            second: now.entry,
            cell: access.cell,
        })?;
    }
    Ok(())
}

/// Notes the clocks after an entry, where its clock before it is that; what its process has in its place is not asked.
fn note_clocks<'p>(
    timing: &mut Timing<'p>,
    alloc: Global,
    entry: u32,
    done: &Entry<'p>,
    clock: Clock,
) -> Result<(), AllocError>
    requires { 1 ≤ done.now.process }
    ensures { OnOk result ((of_process : ℕ → ℕ → ℕ) → ((p q : ℕ) → (done.now.process == p) ≡ false → time_in timing.old.processes.items p q ≡ of_process p q)
        → ((q : ℕ) → time_of clock q ≡ clock_joined (done_of done.now) of_process (event_time timing.old.set) (event_time timing.old.freed) q)
        → Notes entry (done_of done.now) of_process (event_time timing.old.set) (event_time timing.old.freed)
        (time_in timing.new.processes.items) (event_time timing.new.set) (event_time timing.new.freed)) }
{
    let mut own = clock;
    own.set(done.process, entry)?;
    note_event(alloc, &mut timing.set, &mut timing.freed, done.event, &own)?;
    note_processes(
        alloc,
        &mut timing.processes,
        done.process,
        done.released.as_slice(),
        done.started,
        own,
    )?;
    Ok(())
}

/// Notes one entry more.
pub fn note<'p>(walk: &mut Walk<'p>, alloc: Global, done: &Entry<'p>) -> Result<(), AllocError>
    requires process { 1 ≤ done.now.process }
    requires few { walk.old.entries + 1 < 2 ^ 32 }
    ensures noted { OnOk result ((ds : List Done) → StandsAfter ds walk.old → StandsAfter (ds ++ done_of done.now ∷ []) walk.new) }
    ensures entries { OnOk result (walk.new.entries ≡ walk.old.entries + 1) }
{
    let entry = walk.entries + 1;
    let clock = clock_before(&mut walk.timing, alloc, done.process, done.event)?;
    let now = Past {
        entry,
        process: done.process,
    };
    note_race(
        &mut walk.cells,
        &mut walk.found,
        alloc,
        done.access,
        &clock,
        now,
    )?;
    note_clocks(&mut walk.timing, alloc, entry, done, clock)?;
    walk.entries = entry;
    Ok(())
}

/// The races of all entries that a walk has noted.
pub fn races_of(walk: Walk<'_>) -> Vec<Race<'_>>
    ensures { (ds : List Done) → StandsAfter ds walk.entry → AreRaces ds (map race_of result.items) }
{
    walk.found
}

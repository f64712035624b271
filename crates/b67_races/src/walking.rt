//! A walk over a schedule that notes what each entry does.

ghost use Rattle.std.specs.Prelude.{◌≡◌, ℕ, ◌+◌, ◌<◌, ◌≤◌, ◌^◌, true, List, ◌∷◌, [], ◌++◌, length, replicate, IfOk, OnOk};
ghost use Rattle.algol_cells.specs.SeenScope.{scoped};
ghost use Rattle.algol_world.specs.SeenWorld.{world_of};
ghost use Rattle.algol_meaning.specs.World as plain;
ghost use Rattle.algol_seen.specs.Seen as told;
ghost use Rattle.algol_seen.specs.Seen.{cell_name, told_done};
ghost use Rattle.b67_race.specs.Entries.{Done};
ghost use Rattle.b67_race.specs.Cells.{cell_at_key};
ghost use Rattle.b67_race.specs.Timed.{signal_of};
ghost use Rattle.b67_race.specs.Noted.{StandsAfter, access_of, done_of};
ghost use Rattle.b67_schedule.specs.Schedules.{entries};
ghost use Rattle.b67_races.specs.Walking.{WorldGoes, ScheduleStands};

use algol_lean::step_seen_lean;
use algol_seen::{Access as SeenAccess, CellName, Seen, Signal};
use algol_world::World;
use b67_list::discard;
use b67_race::{Access, Entry, Event, Key, Walk, note};
use b67_schedule::Schedule;
use std::alloc::{AllocError, Global};

/// The key of a cell.
fn key_of<'p>(c: CellName<'p>) -> Key<'p>
    ensures { cell_at_key result ≡ cell_name c.entry }
{
    Key {
        instance: c.instance,
        element: c.element,
        name: c.name.bytes(),
    }
}

/// The cell that an entry accesses, by its key.
fn access_by<'p>(access: Option<SeenAccess<'p>>) -> Option<Access<'p>>
    ensures { access_of result ≡ told.access access.entry }
{
    match access {
        None => None,
        Some(a) => Some(Access {
            cell: key_of(a.cell),
            storing: a.storing,
        }),
    }
}

/// What an entry does with an event, by its key.
fn event_by<'p>(signal: Signal<'p>) -> Event<'p>
    ensures { signal_of result ≡ told.signal signal.entry }
{
    match signal {
        Signal::Nothing => Event::Nothing,
        Signal::Sets(c) => Event::Sets(key_of(c)),
        Signal::GoesBy(c) => Event::GoesBy(key_of(c)),
        Signal::Frees(c) => Event::Frees(key_of(c)),
        Signal::Takes(c) => Event::Takes(key_of(c)),
    }
}

/// What an entry of a process did, as a walk notes it.
fn entry_of<'p>(alloc: Global, process: usize, seen: &Seen<'p>) -> Result<Entry<'p>, AllocError>
    ensures done { IfOk result (λ done. done_of done ≡ told_done process seen.now) }
    ensures process { IfOk result (λ done. done.process ≡ process) }
{
    Ok(Entry {
        process,
        access: access_by(seen.access),
        event: event_by(seen.signal),
        released: Vec::from_slice(alloc, seen.released.items())?,
        started: seen.started,
    })
}

/// Notes what an entry of a process did.
fn note_seen<'p>(
    walk: &mut Walk<'p>,
    alloc: Global,
    process: usize,
    seen: &Seen<'p>,
) -> Result<(), AllocError>
    requires process { 1 ≤ process }
    requires few { walk.old.entries + 1 < 2 ^ 32 }
    ensures noted { OnOk result ((ds : List Done) → StandsAfter ds walk.old → StandsAfter (ds ++ told_done process seen.now ∷ []) walk.new) }
    ensures entries { OnOk result (walk.new.entries ≡ walk.old.entries + 1) }
{
    let done = entry_of(alloc, process, seen)?;
    let noted = note(walk, alloc, &done);
    discard(done);
    noted
}

/// Makes an entry of a process and notes it; false where the process may not go. Instances that are left give back their arrays.
fn go<'p>(
    world: &mut World<'p>,
    walk: &mut Walk<'p>,
    alloc: Global,
    process: usize,
) -> Result<bool, AllocError>
    requires process { 1 ≤ process }
    requires few { walk.old.entries + 1 < 2 ^ 32 }
    ensures goes { IfOk result (λ went. (w : plain.World) (given left : List ℕ) → ScheduleStands (scoped world.old.scopes) w given (world_of world.old) walk.old (process ∷ left)
        → WorldGoes (scoped world.old.scopes) w given (world_of world.new) walk.new left went) }
    ensures entries { IfOk result (λ went. went ≡ true → walk.new.entries ≡ walk.old.entries + 1) }
    ensures same { world.new.scopes ≡ world.old.scopes }
{
    match step_seen_lean(world, alloc, process)? {
        None => Ok(false),
        Some(seen) => {
            let noted = note_seen(walk, alloc, process, &seen);
            discard(seen);
            noted?;
            Ok(true)
        }
    }
}

/// Makes so many entries of a process, one after another, and notes them; false where one may not go.
fn go_on<'p>(
    world: &mut World<'p>,
    walk: &mut Walk<'p>,
    alloc: Global,
    process: usize,
    times: u32,
) -> Result<bool, AllocError>
    requires process { 1 ≤ process }
    requires few { walk.old.entries + times + 1 < 2 ^ 32 }
    ensures goes { IfOk result (λ went. (w : plain.World) (given left : List ℕ) → ScheduleStands (scoped world.old.scopes) w given (world_of world.old) walk.old (replicate times process ++ left)
        → WorldGoes (scoped world.old.scopes) w given (world_of world.new) walk.new left went) }
    ensures entries { IfOk result (λ went. went ≡ true → walk.new.entries ≡ walk.old.entries + times) }
    ensures same { world.new.scopes ≡ world.old.scopes }
{
    let mut left = times;
    'going: while left > 0 {
        if !go(world, walk, alloc, process)? {
            return Ok(false);
        }
        left -= 1;
    }
    Ok(true)
}

/// Makes the entries of a schedule and notes them; false where one may not go.
pub fn go_all<'p>(
    world: &mut World<'p>,
    walk: &mut Walk<'p>,
    alloc: Global,
    schedule: &Schedule,
) -> Result<bool, AllocError>
    requires few { walk.old.entries + length (entries schedule.now.runs) + 1 < 2 ^ 32 }
    ensures goes { IfOk result (λ went. (w : plain.World) (given : List ℕ) → ScheduleStands (scoped world.old.scopes) w given (world_of world.old) walk.old (entries schedule.now.runs)
        → WorldGoes (scoped world.old.scopes) w given (world_of world.new) walk.new [] went) }
    ensures same { world.new.scopes ≡ world.old.scopes }
{
    'runs: for run in schedule.runs() {
        if !go_on(world, walk, alloc, run.process as usize, run.times)? {
            return Ok(false);
        }
    }
    Ok(true)
}

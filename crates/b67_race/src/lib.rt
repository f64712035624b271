//! The races of a schedule: accesses of one cell by two processes that nothing orders.
#![tactic(auto)]

mod cells;
mod clock;
mod timing;
mod walk;

ghost use Rattle.b67_race.specs.Clocks.{ClocksTell, ClocksStay};
ghost use Rattle.b67_race.specs.Found.{RacesAreComputed, RacesAreOneList, SchedulesWithRaces};
ghost use Rattle.b67_race.specs.Races.{WalksGoOn, WalksFindAll};
ghost use Rattle.b67_race.specs.Watching.{LatestMakeRaces, WatchesStay, OthersStay, RacesStay, CellsHaveOne};

pub use cells::{Cells, Kept, Key, Past, Watched, note_access};
pub use clock::Clock;
pub use timing::{Event, Events, Timing, clock_before, note_event, note_processes};
pub use walk::{Access, Entry, Race, Walk, begin, note, races_of};

/// Law: the entries that are ordered before the next one are those that the clock of its process and of its event tells.
#[tactic(auto, using(crate::proofs::Tracking::clocks_tell))]
pub fn clocks_tell()
    ensures { ClocksTell }
{}

/// Law: clocks stay clocks when an entry is noted.
#[tactic(auto, using(crate::proofs::Keeping::clocks_stay))]
pub fn clocks_stay()
    ensures { ClocksStay }
{}

/// Law: the greatest access that the clock of the next one does not tell makes the race of a cell; where there is none, what is kept of
/// the cell's accesses covers the next one too; an entry that accesses another cell changes nothing of it; a race stays one, and a cell has
/// no other.
pub fn races_are_found()
    ensures races { LatestMakeRaces }
    ensures watches { WatchesStay }
    ensures others { OthersStay }
    ensures stay { RacesStay }
    ensures once { CellsHaveOne }
{}

/// Law: a walk over entries that keeps clocks and the accesses of each cell finds their races, and no other, in the order of the later ones.
pub fn walks_find_races()
    ensures go_on { WalksGoOn }
    ensures find { WalksFindAll }
{}

/// Law: every list of entries has its races, which a function computes, and no other list is that of its races. Some schedules show what a race is.
pub fn races_are_one_list()
    ensures computed { RacesAreComputed }
    ensures one { RacesAreOneList }
    ensures shown { SchedulesWithRaces }
{}

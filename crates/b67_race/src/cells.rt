//! What is kept of the accesses of each cell.

ghost use Rattle.std.specs.Prelude.{◌≡◌, if◌then◌else◌, Some, false, IfOk, OnOk};
ghost use Rattle.b67_race.specs.Entries.{CellName};
ghost use Rattle.b67_race.specs.Times.{time_of};
ghost use Rattle.b67_race.specs.Watching as watching;
ghost use Rattle.b67_race.specs.Watching.{none_yet, rivals, latest, read_noted, watched};
ghost use Rattle.b67_race.specs.Cells.{quiet, cell_at_key, is_cell, rival_in, standing, standing_after, standing_in, watch_of};

use crate::clock::Clock;
use b67_list::discard;
use std::alloc::{AllocError, Global};
use std::collections::BTreeMap;
use std::mem;

/// A cell: its instance, the number of its element from 1, or 0 where it is no array's, and its name.
#[derive(Clone, Copy, PartialEq, Eq, PartialOrd, Ord)]
pub struct Key<'p> {
    pub instance: usize,
    pub element: usize,
    pub name: &'p [u8],
}

/// An access that is kept: its entry and its process.
#[derive(Clone, Copy)]
pub struct Past {
    pub entry: u32,
    pub process: usize,
}

/// Of a cell the last store, and of each process its last read since then.
#[derive(Drop)]
pub struct Watched {
    pub store: Option<Past>,
    pub reads: Vec<Past>,
}

/// What is kept of a cell: accesses, of which no two conflict, or that its race has been found.
#[derive(Drop)]
pub enum Kept {
    Quiet(Watched),
    Raced,
}

/// Tests that a clock does not tell an access.
fn is_apart(clock: &Clock, x: Past) -> bool
    ensures { result ≡ watching.is_apart (time_of clock.now) x }
{
    clock.of(x.process) < x.entry
}

/// The greatest entry of those that a clock does not tell, 0 where it tells all.
fn latest(clock: &Clock, past: &[Past]) -> u32
    ensures { result ≡ latest (time_of clock.now) past.now }
{
    let mut most = 0;
    'asking: for x in past {
        if is_apart(clock, *x) && most < x.entry {
            most = x.entry;
        }
    }
    most
}

/// A read comes: it takes the place of that of its process, where there is one.
fn keep(reads: &mut Vec<Past>, now: Past) -> Result<(), AllocError>
    ensures { OnOk result (reads.new.items ≡ read_noted now reads.old.items) }
{
    let mut at = 0;
    'seeking: while at < reads.len() {
        if reads[at].process == now.process {
            reads[at] = now;
            return Ok(());
        }
        at += 1;
    }
    reads.push(now)?;
    Ok(())
}

impl Watched {
    /// Nothing yet.
    fn new(alloc: Global) -> Watched
        ensures { watch_of result ≡ none_yet }
    {
        Watched {
            store: None,
            reads: Vec::new(alloc),
        }
    }

    /// The greatest entry of the last store that a clock does not tell.
    fn latest_store(&self, clock: &Clock) -> u32
        ensures { result ≡ latest (time_of clock.now) ((watch_of self.now).stores) }
    {
        match self.store {
            None => 0,
            Some(x) => { if is_apart(clock, x) { x.entry } else { 0 } }
        }
    }

    /// The greatest of the rivals of an access that a clock does not tell, 0 where it tells all.
    fn rival(&self, clock: &Clock, storing: bool) -> u32
        ensures { result ≡ latest (time_of clock.now) (rivals storing (watch_of self.now)) }
    {
        let stored = self.latest_store(clock);
        if storing {
            stored.max(latest(clock, self.reads.as_slice()))
        } else {
            stored
        }
    }

    /// An access comes that is ordered after its rivals.
    fn note(&mut self, storing: bool, now: Past) -> Result<(), AllocError>
        ensures { OnOk result (watch_of self.new ≡ watched storing now (watch_of self.old)) }
    {
        if storing {
            self.store = Some(now);
            self.reads.clear();
            Ok(())
        } else {
            keep(&mut self.reads, now)
        }
    }
}

/// The table of what is kept of cells.
pub type Cells<'p> = BTreeMap<Key<'p>, Kept>;

/// What is kept of a cell becomes that after an access: the greatest rival of that which the clock does not tell, 0 where it tells all, or
/// the race of the cell has been found.
fn settle(kept: &mut Kept, clock: &Clock, storing: bool, now: Past) -> Result<u32, AllocError>
    ensures rival { IfOk result (λ r. r ≡ rival_in storing (time_of clock.now) (standing (Some kept.old))) }
    ensures after { OnOk result (standing (Some kept.new) ≡ standing_after storing (time_of clock.now) now (standing (Some kept.old))) }
{
    match kept {
        Kept::Raced => Ok(0),
        Kept::Quiet(w) => {
            let rival = w.rival(clock, storing);
            if rival == 0 {
                w.note(storing, now)?;
            } else {
                discard(mem::replace(kept, Kept::Raced));
            }
            Ok(rival)
        }
    }
}

/// The first access of a cell is kept.
fn put_first<'p>(
    cells: &mut Cells<'p>,
    alloc: Global,
    key: Key<'p>,
    storing: bool,
    now: Past,
) -> Result<(), AllocError>
    ensures { OnOk result ((c : CellName) → standing_in cells.new c ≡ (if is_cell key.entry c then quiet (watched storing now none_yet) else standing_in cells.old c)) }
{
    let mut w = Watched::new(alloc);
    w.note(storing, now)?;
    cells.insert(key, Kept::Quiet(w))?;
    Ok(())
}

/// Notes an access of a cell, which is this entry: the greatest of its rivals that the clock does not tell, 0 where it tells all, or the race
/// of the cell has been found.
pub fn note_access<'p>(
    cells: &mut Cells<'p>,
    alloc: Global,
    key: Key<'p>,
    clock: &Clock,
    storing: bool,
    now: Past,
) -> Result<u32, AllocError>
    ensures rival { IfOk result (λ r. r ≡ rival_in storing (time_of clock.now) (standing_in cells.old (cell_at_key key.entry))) }
    ensures own { OnOk result (standing_in cells.new (cell_at_key key.entry) ≡ standing_after storing (time_of clock.now) now (standing_in cells.old (cell_at_key key.entry))) }
    ensures others { OnOk result ((c : CellName) → is_cell key.entry c ≡ false → standing_in cells.new c ≡ standing_in cells.old c) }
{
    if let Some(kept) = cells.get_mut(&key) {
        return settle(kept, clock, storing, now);
    }
    put_first(cells, alloc, key, storing, now)?;
    Ok(0)
}

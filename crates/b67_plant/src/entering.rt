// Entries of a process that is out.
ghost use Rattle.std.specs.Prelude.{◌≡◌, ℕ, ◌+◌, ◌<◌, ◌≤◌, ◌^◌, [], true, false, None, length, take};
ghost use Rattle.b67_list.specs.Numbered.{numbered};
ghost use Rattle.b67_table.specs.Image.{is_able};
ghost use Rattle.b67_table.specs.Valid.{IsValid};
ghost use Rattle.b67_machine.specs.Entries.{PerformsEntries};
ghost use Rattle.b67_machine.specs.Kept.{operators_counted};
ghost use Rattle.b67_machine.specs.Reads.{machine_end};
ghost use Rattle.b67_machine.specs.declared.entry.Performed.{Performed as ThePerformed};
ghost use Rattle.b67_processors.specs.Acts.{IsActed};
ghost use Rattle.b67_plant.specs.Calls.{answer_to};
ghost use Rattle.b67_limits.specs.declared.TheConstants.{MOST_LETTERS};
ghost use Rattle.b67_stands.specs.Calls.{ActsOnce};
ghost use Rattle.b67_stands.specs.Placing.{holder_of};
ghost use Rattle.b67_stands.specs.Running.{answer_of};
ghost use Rattle.b67_stands.specs.Turns.{ActsMany};

use crate::placing::{answer_to, is_action, lacks, went};
use crate::{Named, Plant, SHARE, Seat};
use b67_deeds::Letter;
use b67_joining::join_queue;
use b67_limits::MOST_LETTERS;
use b67_machine::{Entered, Machine};
use b67_processors::Acted;
use b67_ready::Rule;
use b67_store::Core;
use std::sync::ledger::Ledger;

// Entries of a process on the machine, of which at most so many letters are noted.
#[inline(always)]
fn perform_most<C: Core>(
    machine: &mut Machine<C>,
    process: u32,
    notes: &mut [Letter],
    most: usize,
    left: u32,
) -> Entered
    requires able { is_able (numbered machine.old.image.states process) ≡ true }
    requires going { machine_end machine.old ≡ None }
    requires count { operators_counted machine.old.counts process + left < 2 ^ 64 }
    requires some { 1 ≤ most }
    requires room { most ≤ length notes.old }
    ensures performs { PerformsEntries machine.old process left result (take most notes.new) machine.new }
    ensures size { length notes.new ≡ length notes.old }
    ensures valid { IsValid machine.new.code machine.new.image }
{
    machine.perform_entries(process, &mut notes[..most], left)
}

impl<N: Named, L: Ledger, C: Core, P: Rule> Plant<N, L, C, P> {
    // Tests that nobody waits.
    #[inline(always)]
    pub fn is_alone(&self) -> bool
        ensures { result ≡ true → self.now.waiting ≡ [] }
    {
        self.ready.len() == 0
    }

    // The entry of a process that is out.
    pub fn enter(&mut self, process: u32, seat: &mut Seat<N, L>) -> Acted
        requires going { answer_of N.budget self.old ≡ None }
        requires out { 1 ≤ holder_of self.old.out process }
        ensures acts { (performed : ThePerformed) × ActsOnce N.budget self.old process performed self.new × (result ≡ answer_to performed.done) }
        ensures count { IsActed result seat.old.count seat.new.count }
        ensures fits { seat.new.count < 2 ^ 64 }
        ensures leaves { seat.new.left ≡ seat.old.left }
        ensures mark { seat.new.mark ≡ seat.old.mark }
    {
        self.enter_many(process, 1, seat).0
    }

    // How many entries a processor that shares the plant may perform beyond one before the others have it: the more, the longer the schedule is.
    #[inline(always)]
    pub fn further(&self) -> u32
        ensures { result < MOST_LETTERS }
    {
        (self.schedule.len() / SHARE).min(MOST_LETTERS as u64 - 1) as u32
    }

    // How many entries of one process are performed at once: where nobody waits, so many beyond one; else one.
    #[inline(always)]
    pub fn at_once(&self, further: u32) -> usize
        requires { further < MOST_LETTERS }
        ensures some { 1 ≤ result }
        ensures few { result ≤ MOST_LETTERS }
        ensures alone { 1 < result → self.now.waiting ≡ [] }
    {
        if self.is_alone() {
            further as usize + 1
        } else {
            1
        }
    }

    // Entries of a process that is out, one after another, at most so many: after each of them but the last it is taken again, since nobody
    // waits. What is answered is what the last one came to, and how many there were before it.
    #[inline]
    pub fn enter_many(&mut self, process: u32, most: usize, seat: &mut Seat<N, L>) -> (Acted, u32)
        requires going { answer_of N.budget self.old ≡ None }
        requires out { 1 ≤ holder_of self.old.out process }
        requires some { 1 ≤ most }
        requires few { most ≤ MOST_LETTERS }
        requires alone { 1 < most → self.old.waiting ≡ [] }
        ensures acts { (performed : ThePerformed) × ActsMany N.pick N.budget self.old process result.1 performed self.new × (result.0 ≡ answer_to performed.done) }
        ensures one { most ≤ 1 → result.1 ≡ 0 }
        ensures count { IsActed result.0 (seat.old.count + result.1) seat.new.count }
        ensures fits { seat.new.count < 2 ^ 64 }
        ensures leaves { seat.new.left ≡ seat.old.left }
        ensures mark { seat.new.mark ≡ seat.old.mark }
    {
        let _count = seat.count;
        let before = self.machine.started();
        let left = self.budget - self.spent;
        let entered = perform_most(&mut self.machine, process, &mut self.notes, most, left);
        let last = entered.last;
        let entries = entered.entries as usize;
        self.spent += entered.operators;
        self.spent += last.plain;
        self.lacked = lacks(last.done);
        self.going = went(last.done);
        self.schedule.push_many(process, &self.notes[..entries]);
        self.ready.take_again(entered.entries);
        self.acts.audit(&mut seat.acts);
        self.acts.add(&mut seat.acts, u64::from(entered.entries));
        seat.count += u64::from(entered.entries);
        let answer = answer_to(last.done);
        if !is_action(last.done) {
            return (answer, entered.entries);
        }
        self.spent += 1;
        self.schedule.push(process, self.notes[entries]);
        self.out[process as usize - 1] = 0;
        join_queue(&self.machine, &mut self.ready, before, process);
        self.acts.add(&mut seat.acts, 1);
        seat.count += 1;
        (answer, entered.entries)
    }
}

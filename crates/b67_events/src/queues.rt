// Those who wait, list by list: how they are found, and how they come and go.
ghost use Rattle.std.specs.Prelude.{◌≡◌, ◌+◌, ◌<◌, ◌≤◌, not, [], ◌++◌, All, filter, length, drop, slice_get, vec_capacity};
ghost use Rattle.b67_events.specs.Events.{same_place, is_from, list_of};
ghost use Rattle.b67_events.specs.Kept.{stands_in, waiters_listed, without_first, is_same, rank_at, below, is_ranked, AreInOrder, stand, stand_all, StandOnce, joiners, is_left, is_named};
ghost use Rattle.b67_events.specs.declared.Queue.TheVariants.{Waiters, Procurers};

use crate::several::{Several, is_among};
use crate::{Queue, Waiting, wake};
use b67_word::Place;

/// The number by which those stand who wait in this list of the event at a place.
pub fn rank_at(queue: Queue, at: Place) -> u64
    ensures { result ≡ rank_at queue at }
{
    let last = match queue {
        Queue::Waiters => 0,
        Queue::Procurers => 1,
    };
    u64::from(at.stack) * 131072 + u64::from(at.at) * 2 + last
}

// The number of those who stand below a rank, and so the position of the first who does not.
fn below(waiting: &Vec<Waiting>, rank: u64) -> usize
    requires { AreInOrder waiting.now.items }
    ensures { result ≡ below rank waiting.now.items }
{
    waiting.partition_point(|one| one.rank() < rank)
}

// The number of those who stand below a rank, found from a position on.
fn below_from(waiting: &Vec<Waiting>, from: usize, rank: u64) -> usize
    requires { from + below rank (drop from waiting.now.items) ≡ below rank waiting.now.items }
    ensures { result ≡ below rank waiting.now.items }
{
    'passing: for index in from..waiting.len() {
        let one = waiting[index];
        if rank <= one.rank() {
            return index;
        }
    }
    waiting.len()
}

/// Puts one who waits after those who wait in the same list.
pub fn enqueue(waiting: &mut Vec<Waiting>, one: Waiting)
    requires order { AreInOrder waiting.old.items }
    requires room { length waiting.old.items < vec_capacity waiting.old }
    ensures items { waiting.new.items ≡ stand one waiting.old.items }
    ensures capacity { vec_capacity waiting.old ≤ vec_capacity waiting.new }
{
    let index = below(waiting, one.rank() + 1);
    waiting.insert(index, one).unwrap();
}

// Takes those out who stand from a rank on, and below another: the first of them stands at this position.
fn cut(waiting: &mut Vec<Waiting>, first: usize, from: u64, to: u64)
    requires order { AreInOrder waiting.old.items }
    requires known { first ≡ below from waiting.old.items }
    requires rise { from ≤ to }
    ensures kept { waiting.new.items ≡ filter (λ w. not (is_ranked from to w)) waiting.old.items }
    ensures capacity { vec_capacity waiting.old ≤ vec_capacity waiting.new }
{
    let mut end = below_from(waiting, first, to);
    'cutting: while first < end {
        end -= 1;
        waiting.remove(end);
    }
}

/// Takes all who wait for the event at a place out.
pub fn forget(waiting: &mut Vec<Waiting>, at: Place)
    requires { AreInOrder waiting.old.items }
    ensures kept { waiting.new.items ≡ filter (λ w. not (same_place w.place at)) waiting.old.items }
    ensures capacity { vec_capacity waiting.old ≤ vec_capacity waiting.new }
{
    let from = rank_at(Queue::Waiters, at);
    let first = below(waiting, from);
    cut(waiting, first, from, from + 2);
}

/// Takes all who wait for the events of a stack at a displacement and above out.
pub fn forget_from(waiting: &mut Vec<Waiting>, stack: u16, at: u32)
    requires { AreInOrder waiting.old.items }
    ensures kept { waiting.new.items ≡ filter (λ w. not (is_from stack at w.place)) waiting.old.items }
    ensures capacity { vec_capacity waiting.old ≤ vec_capacity waiting.new }
{
    let Ok(lowest) = u16::try_from(at) else {
        return;
    };
    let from = rank_at(Queue::Waiters, Place { stack, at: lowest });
    let first = below(waiting, from);
    cut(waiting, first, from, (u64::from(stack) + 1) * 131072);
}

/// Takes those out who wait for the event at a place to happen: the first of them stands at this position.
pub fn dismiss(waiting: &mut Vec<Waiting>, first: usize, at: Place)
    requires order { AreInOrder waiting.old.items }
    requires known { first ≡ below (rank_at Waiters at) waiting.old.items }
    ensures kept { waiting.new.items ≡ filter (λ w. not (stands_in Waiters at w)) waiting.old.items }
    ensures capacity { vec_capacity waiting.old ≤ vec_capacity waiting.new }
{
    let from = rank_at(Queue::Waiters, at);
    cut(waiting, first, from, from + 1);
}

/// Puts those who wait for the event at a place to happen into `woken`, and gives the position at which the first of them stands.
pub fn gather(waiting: &Vec<Waiting>, at: Place, woken: &mut Vec<u32>) -> usize
    requires order { AreInOrder waiting.now.items }
    requires room { length woken.old.items + length (waiters_listed Waiters at waiting.now.items) ≤ vec_capacity woken.old }
    ensures first { result ≡ below (rank_at Waiters at) waiting.now.items }
    ensures woken { woken.new.items ≡ woken.old.items ++ waiters_listed Waiters at waiting.now.items }
    ensures room { vec_capacity woken.old ≤ vec_capacity woken.new }
{
    let from = below(waiting, rank_at(Queue::Waiters, at));
    'waiting: for index in from..waiting.len() {
        let one = waiting[index];
        if !one.is_in(Queue::Waiters, at) {
            return from;
        }
        wake(woken, one.process);
    }
    from
}

// Takes a process out of those who wait for the event at a place to happen.
fn leave(waiting: &mut Vec<Waiting>, at: Place, process: u32)
    requires { AreInOrder waiting.old.items }
    ensures rest { waiting.new.items ≡ without_first (is_same (record { process = process; place = at; queue = Waiters })) waiting.old.items }
    ensures capacity { vec_capacity waiting.old ≤ vec_capacity waiting.new }
{
    let from = below(waiting, rank_at(Queue::Waiters, at));
    'leaving: for index in from..waiting.len() {
        let one = waiting[index];
        if !one.is_in(Queue::Waiters, at) {
            return;
        }
        if one.process == process {
            waiting.remove(index);
            return;
        }
    }
}

// Takes a process out of those who wait for the events at these places to happen.
fn leave_all(waiting: &mut Vec<Waiting>, places: &[Place], process: u32)
    requires order { AreInOrder waiting.old.items }
    requires once { StandOnce waiting.old.items }
    ensures kept { waiting.new.items ≡ filter (λ w. not (is_left process places.now w)) waiting.old.items }
    ensures capacity { vec_capacity waiting.old ≤ vec_capacity waiting.new }
{
    'leaving: for index in 0..places.len() {
        leave(waiting, places[index], process);
    }
}

// Takes a process out of those who wait for the several events that it has listed to happen.
fn withdraw_one(waiting: &mut Vec<Waiting>, lists: &Vec<Several>, process: u32)
    requires order { AreInOrder waiting.old.items }
    requires once { StandOnce waiting.old.items }
    ensures kept { waiting.new.items ≡ filter (λ w. not (is_left process (list_of process lists.now.items) w)) waiting.old.items }
    ensures capacity { vec_capacity waiting.old ≤ vec_capacity waiting.new }
{
    if process == 0 {
        return;
    }
    let index = process as usize - 1;
    if lists.len() <= index {
        return;
    }
    leave_all(waiting, lists[index].places(), process);
}

/// Takes these processes out of those who wait for the several events that each has listed to happen.
pub fn withdraw(waiting: &mut Vec<Waiting>, lists: &Vec<Several>, processes: &Vec<u32>)
    requires order { AreInOrder waiting.old.items }
    requires once { StandOnce waiting.old.items }
    ensures kept { waiting.new.items ≡ filter (λ w. not (is_named processes.now.items lists.now.items w)) waiting.old.items }
    ensures capacity { vec_capacity waiting.old ≤ vec_capacity waiting.new }
{
    'withdrawing: for index in 0..processes.len() {
        withdraw_one(waiting, lists, processes[index]);
    }
}

/// Puts a process after those who wait for each of these events to happen.
pub fn join_all(waiting: &mut Vec<Waiting>, at: &[Place], process: u32)
    requires order { AreInOrder waiting.old.items }
    requires room { length waiting.old.items + length at.now ≤ vec_capacity waiting.old }
    requires low { All (λ place. place.at < 65536) at.now }
    ensures waiting { waiting.new.items ≡ stand_all (joiners process [] at.now) waiting.old.items }
    ensures capacity { vec_capacity waiting.old ≤ vec_capacity waiting.new }
{
    'joining: for index in 0..at.len() {
        let place = at[index];
        if !is_among(&at[..index], place) {
            enqueue(
                waiting,
                Waiting {
                    process,
                    place,
                    queue: Queue::Waiters,
                },
            );
        }
    }
}

/// Takes the first who waits to procure the event at a place out, and gives it.
pub fn serve(waiting: &mut Vec<Waiting>, at: Place) -> Option<u32>
    requires { AreInOrder waiting.old.items }
    ensures first { result ≡ slice_get (waiters_listed Procurers at waiting.old.items) 0 }
    ensures rest { waiting.new.items ≡ without_first (stands_in Procurers at) waiting.old.items }
    ensures capacity { vec_capacity waiting.old ≤ vec_capacity waiting.new }
{
    let index = below(waiting, rank_at(Queue::Procurers, at));
    if index < waiting.len() && waiting[index].is_in(Queue::Procurers, at) {
        return Some(waiting.remove(index).process);
    }
    None
}

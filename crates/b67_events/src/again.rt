// A kernel that is begun again, and compared with another one.
ghost use Rattle.std.specs.Prelude.{◌≡◌, true, []};

use crate::several::Several;
use crate::{Flags, Kernel, Waiting};
use b67_word::Place;
use std::collections::BTreeMap;

// Tests that two maps have the same events, with the same flags.
fn same_flags(ours: &BTreeMap<Place, Flags>, theirs: &BTreeMap<Place, Flags>) -> bool
    ensures { result ≡ true → ours.now.entries ≡ theirs.now.entries }
{
    ours == theirs
}

// Tests that the same processes wait for the same events, in the same order.
fn same_queues(ours: &Vec<Waiting>, theirs: &Vec<Waiting>) -> bool
    ensures { result ≡ true → ours.now.items ≡ theirs.now.items }
{
    if ours.len() != theirs.len() {
        return false;
    }
    'queues: for index in 0..ours.len() {
        let one = ours[index];
        let other = theirs[index];
        if one.process != other.process || !other.is_in(one.queue, one.place) {
            return false;
        }
    }
    true
}

// Tests that each process waits for the same events, where it waits for several.
fn same_lists(ours: &Vec<Several>, theirs: &Vec<Several>) -> bool
    ensures { result ≡ true → ours.now.items ≡ theirs.now.items }
{
    if ours.len() != theirs.len() {
        return false;
    }
    'lists: for index in 0..ours.len() {
        if ours[index].places() != theirs[index].places() {
            return false;
        }
    }
    true
}

impl Kernel {
    /// No event is open, and nobody waits. The kernel keeps its room.
    pub fn clear(&mut self)
        ensures { self.new ≡ record self.old { events = []; lists = [] } }
    {
        self.events.clear();
        self.waiting.clear();
        self.lists.clear();
    }

    /// Tests that two kernels have the same events, with the same processes in the lists of each, and that each process waits for
    /// the same events, where it waits for several. `false` says nothing.
    pub fn same(&self, other: &Kernel) -> bool
        ensures events { result ≡ true → self.now.events ≡ other.now.events }
        ensures lists { result ≡ true → self.now.lists ≡ other.now.lists }
    {
        same_flags(&self.events, &other.events)
            && same_queues(&self.waiting, &other.waiting)
            && same_lists(&self.lists, &other.lists)
    }
}

//! Who joins the queue of those who wait for a turn after an operator of a process: those whom it released, in their order, the one that it
//! started, and the process itself where it is able.
#![tactic(auto)]

ghost use Rattle.std.specs.Prelude.{◌≡◌, ◌+◌, ◌<◌, ◌≤◌, ◌^◌, ◌++◌, length};
ghost use Rattle.b67_joining.specs.Joining.{joining};

use b67_limits::MOST_PROCESSES;
use b67_machine::Machine;
use b67_ready::{Dispatcher, Rule};
use b67_store::Core;

/// For how many processes a queue has room: each may be in it, and before it takes one and one more join it is asked for their room.
pub const ROOM: u32 = MOST_PROCESSES + 2;

// The released join the queue, in their order.
fn join_released<P: Rule>(ready: &mut Dispatcher<P>, released: &[u32])
    requires room { length ready.old.waiting + length released.now ≤ ready.old.room }
    requires few { length ready.old.waiting + length released.now < 2 ^ 32 }
    ensures waiting { ready.new.waiting ≡ ready.old.waiting ++ released.now }
    ensures rule { ready.new.rule ≡ ready.old.rule }
    ensures takes { ready.new.takes ≡ ready.old.takes }
    ensures room { ready.old.room ≤ ready.new.room }
{
    'released: for process in released {
        ready.put(*process);
    }
}

/// After an operator of the actor, before which there were so many processes: those whom it released join the queue, in their order,
/// then the process that it started, where there are more than before, then the actor where it is able.
pub fn join_queue<C: Core, P: Rule>(
    machine: &Machine<C>,
    ready: &mut Dispatcher<P>,
    before: u32,
    actor: u32,
)
    requires room { length ready.old.waiting + length machine.now.released + 2 ≤ ready.old.room }
    requires few { length ready.old.waiting + length machine.now.released + 2 < 2 ^ 32 }
    ensures waiting { ready.new.waiting ≡ ready.old.waiting ++ joining before machine.now.image actor machine.now.released }
    ensures rule { ready.new.rule ≡ ready.old.rule }
    ensures takes { ready.new.takes ≡ ready.old.takes }
    ensures room { ready.old.room ≤ ready.new.room }
{
    join_released(ready, machine.released());
    let started = machine.started();
    if before < started {
        ready.put(started);
    }
    if machine.is_able(actor) {
        ready.put(actor);
    }
}

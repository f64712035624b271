// One turn.
ghost use Rattle.std.specs.Prelude.{◌≡◌, ℕ, ◌+◌, ◌<◌, ◌≤◌, ◌^◌, None, false};
ghost use Rattle.b67_table.specs.Limits.{most_processes};
ghost use Rattle.b67_machine.specs.Kept.{operators_counted};
ghost use Rattle.b67_machine.specs.Reads.{machine_end};
ghost use Rattle.b67_exec.specs.Exec.{stop_of, told_stopped};
ghost use Rattle.b67_joining.specs.Joining.{IsQueue};
ghost use Rattle.b67_exec.specs.Turning.{IsListed, Turned};

use crate::Stopped;
use crate::queue::take_front;
use b67_action::Done;
use b67_joining::join_queue;
use b67_machine::{End, Machine};
use b67_ready::{Dispatcher, Order};
use b67_store::Core;
use std::alloc::AllocError;

// How a run stopped where a machine has that end.
fn stop_of(end: End) -> Stopped
    ensures { result ≡ stop_of end }
{
    match end {
        End::Finished => Stopped::Finished,
        End::Fault { kind, process } => Stopped::Fault { kind, process },
        End::AllWaiting => Stopped::AllWaiting,
        End::StackLimit { process, words } => Stopped::StackLimit { process, words },
    }
}

/// How the run of a machine stopped, where it has an end.
pub fn end_of<C: Core>(machine: &Machine<C>) -> Option<Stopped>
    ensures { result ≡ told_stopped (machine_end machine.now) }
{
    match machine.end() {
        Some(end) => Some(stop_of(end)),
        None => None,
    }
}

/// Performs the next operator of the process at the front, and puts at the rear whom it made able. It answers how the run stopped, where
/// it does.
pub fn turn<C: Core>(
    machine: &mut Machine<C>,
    ready: &mut Dispatcher<Order>,
) -> Result<Option<Stopped>, AllocError>
    requires going { machine_end machine.old ≡ None }
    requires lacked { machine.old.lacked ≡ false }
    requires counts { (p : ℕ) → operators_counted machine.old.counts p + 1 < 2 ^ 64 }
    requires queue { IsQueue machine.old.image ready.old.waiting }
    requires listed { IsListed machine.old.image }
    requires rule { ready.old.rule ≡ Order.Fifo }
    requires room { most_processes + 2 ≤ ready.old.room }
    ensures turned { Turned machine.old ready.old.waiting result machine.new ready.new.waiting }
    ensures rule { ready.new.rule ≡ ready.old.rule }
    ensures room { ready.old.room ≤ ready.new.room }
{
    let process = take_front(ready);
    let before = machine.started();
    match machine.step(process) {
        Done::Interrupt(kind) => Ok(Some(Stopped::Interrupt { kind, process })),
        Done::StackLimit => Ok(end_of(machine)),
        Done::NoMemory => Err(AllocError),
        Done::Went | Done::Waits | Done::Ended | Done::Fault(_) => {
            join_queue(machine, ready, before, process);
            Ok(None)
        }
    }
}

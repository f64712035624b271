// The queue of the processes that are to have a turn.
ghost use Rattle.std.specs.Prelude.{◌≡◌, ◌≢◌, [], ◌∷◌};

use b67_ready::{Dispatcher, Order};

/// Takes the process at the front.
pub fn take_front(ready: &mut Dispatcher<Order>) -> u32
    requires rule { ready.old.rule ≡ Order.Fifo }
    requires some { ready.old.waiting ≢ [] }
    ensures front { ready.old.waiting ≡ result ∷ ready.new.waiting }
    ensures rule { ready.new.rule ≡ ready.old.rule }
    ensures room { ready.new.room ≡ ready.old.room }
{
    match ready.take() {
        Some(process) => process,
        None => unreachable!(),
    }
}

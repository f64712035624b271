//! What one step of a process did.

ghost use Rattle.std.specs.Prelude.{◌≡◌, []};

use algol_instances::no_items;
use algol_tree::List;
use b67_deeds::Letter;
use std::alloc::Global;

/// What a step did: its action, the processes that it released in their order, and the one that it started.
#[derive(Drop)]
pub struct Acted {
    pub action: Letter,
    pub released: List<usize>,
    pub started: Option<usize>,
}

impl Acted {
    /// An action that releases and starts no process.
    pub fn alone(alloc: Global, action: Letter) -> Acted
        ensures { result ≡ record { action = action; released = []; started = None } }
    {
        Acted {
            action,
            released: no_items(alloc),
            started: None,
        }
    }
}

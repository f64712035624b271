// A machine before its first operator.
ghost use Rattle.std.specs.Prelude.{◌≡◌, ◌≤◌, [], All, IfOk, length};
ghost use Rattle.b67_segment.specs.declared.TheConstants.{MOST_SEGMENT_WORDS};
ghost use Rattle.b67_load.specs.Closed.{NoneOpen, first_on};
ghost use Rattle.b67_machine.specs.Beginning.{IsUntried, IsFresh};

use crate::Machine;
use b67_going::MOST_PROCESSES;
use b67_load::load;
use b67_segment::Code;
use b67_store::Core;
use b67_table::first_image_is_valid;
use std::alloc::{AllocError, Global};

impl<C: Core> Machine<C> {
    /// The machine of a code in its first image, on a store in which nothing is open; what was closed in the store has left
    /// empty places in its lists. A segment has at most [`MOST_SEGMENT_WORDS`](b67_segment::MOST_SEGMENT_WORDS) words.
    pub fn load(alloc: Global, code: Code, core: C) -> Result<Machine<C>, AllocError>
        requires stacks { NoneOpen (C.Core.stacks core) }
        requires rows { NoneOpen (C.Core.rows core) }
        requires segments { All (λ segment. length segment.words ≤ MOST_SEGMENT_WORDS) code.segments }
        ensures untried { IfOk result (IsUntried (first_on (C.Core.stacks core) (C.Core.rows core))) }
        ensures fresh { IfOk result (λ machine. C.Core.stacks core ≡ [] → C.Core.rows core ≡ [] → IsFresh machine) }
        ensures code { IfOk result (λ machine. machine.code ≡ code) }
    {
        first_image_is_valid();
        let counts = vec![in alloc; 0; MOST_PROCESSES as usize]?;
        let mut core = core;
        // no store has more rows than it has numbers for
        let _ = core.counted();
        let (kernel, parts) = load(alloc, &mut core, code)?;
        Ok(Machine {
            core,
            kernel,
            parts,
            counts,
            tables: Vec::new(alloc),
            failure: None,
            limit: None,
            lacked: false,
            letter: None,
        })
    }
}

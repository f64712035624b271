//! How what is around a head is changed, and the actuals that are done.
//!
//! Each is a function for one type only, so that who calls it need not go through all forms that the type has.

ghost use Rattle.std.specs.Prelude.{◌≡◌, [], ◌∷◌, ◌++◌, IfOk};

use crate::part::{Frame, Given};
use algol_cells::{Stack, append};
use algol_tree::List;
use std::alloc::{AllocError, Global};

/// This frame is the innermost.
pub fn surround<'p>(frames: &mut Stack<Frame<'p>>, frame: Frame<'p>) -> Result<(), AllocError>
    ensures { IfOk result (λ _. frames.new ≡ frame.entry ∷ frames.old) }
{
    frames.push(frame)
}

/// One more actual is done.
pub fn add_given<'p>(gs: &mut List<Given<'p>>, more: Given<'p>) -> Result<(), AllocError>
    ensures { IfOk result (λ _. gs.new ≡ gs.old ++ more.entry ∷ []) }
{
    append(gs, more)
}

/// No actuals.
pub fn no_givens<'p>(alloc: Global) -> List<Given<'p>>
    ensures { result ≡ [] }
{
    List::of(Vec::new(alloc))
}

/// No subscripts.
pub fn no_subscripts(alloc: Global) -> List<usize>
    ensures { result ≡ [] }
{
    List::of(Vec::new(alloc))
}

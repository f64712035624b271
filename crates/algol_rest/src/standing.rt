//! How a part's work is changed: where it stands, and the values that are there.
//!
//! Each is a function for one type only, so that who calls it need not go through all forms that the type has.

ghost use Rattle.std.specs.Prelude.{◌≡◌, [], ◌∷◌, ◌++◌, IfOk};

use crate::statement::{Last, Point};
use algol_cells::{Value, append};
use algol_tree::List;
use b67_list::discard;
use std::alloc::{AllocError, Global};
use std::mem;

/// The part stands there.
pub fn stand<'p>(at: &mut Box<Point<'p>>, point: Point<'p>)
    ensures { at.new.value ≡ point.entry }
{
    discard(mem::replace(&mut **at, point));
}

/// Where the part stood, which is to stand elsewhere.
pub fn leave<'p>(at: &mut Box<Point<'p>>) -> Point<'p>
    ensures { result ≡ at.old.value }
{
    mem::replace(&mut **at, Point::Last(Last::Over))
}

/// One more value is there.
pub fn add_value(vs: &mut List<Value>, more: Value) -> Result<(), AllocError>
    ensures { IfOk result (λ _. vs.new ≡ vs.old ++ more ∷ []) }
{
    append(vs, more)
}

/// No values.
pub fn no_values(alloc: Global) -> List<Value>
    ensures { result ≡ [] }
{
    List::of(Vec::new(alloc))
}

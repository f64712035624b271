ghost use Rattle.std.specs.Prelude.{◌≡◌};
ghost use Rattle.algol_tree.specs.Sorts as sorts;

use algol_tree::Line;

/// Tests that two names are the same.
pub fn same_name(a: &Line, b: &Line) -> bool
    ensures { result ≡ sorts.same_name a.now b.now }
{
    a.bytes() == b.bytes()
}

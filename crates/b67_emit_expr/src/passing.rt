//! Arrays and events among the actuals of a call.

ghost use Rattle.std.specs.Prelude.{◌≡◌, Some, IsSome, option_copied};
ghost use Rattle.algol_tree.specs.Image.{expr};
ghost use Rattle.b67_emit_expr.specs.Passing.{passed, passed_alone};

use algol_tree::{Expr, Named};
use b67_emitter::{Names, array_of, event_of, name_alone};

/// Whether the array or the event that a name means is a parameter; none where it means neither.
fn passed(names: &Names, name: &Named) -> Option<bool>
    ensures { result ≡ passed names.now name.now }
{
    match event_of(names, name) {
        Some(formal) => Some(formal),
        None => match array_of(names, name) {
            Some(lows) => Some(lows.formal),
            None => None,
        },
    }
}

/// The name of the array or of the event that an actual is; none where it is not the name by itself of one.
pub fn passed_alone<'f>(e: &'f Expr, names: &Names) -> Option<&'f Named>
    ensures { option_copied result ≡ passed_alone names.now (expr e.now) }
{
    match name_alone(e) {
        Some(name) => if passed(names, name).is_some() {
            Some(name)
        } else {
            None
        },
        None => None,
    }
}

/// Tests that the array or the event that a name means is a parameter.
pub fn is_formal(names: &Names, name: &Named) -> bool
    requires { IsSome (passed names.now name.now) }
    ensures { passed names.now name.now ≡ Some result }
{
    match passed(names, name) {
        Some(formal) => formal,
        None => unreachable!(),
    }
}

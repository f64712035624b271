//! Actuals that have a place: those that are subscripted.

ghost use Rattle.std.specs.Prelude.{◌≡◌, option_copied};
ghost use Rattle.algol_tree.specs.Image.{expr, variable};
ghost use Rattle.algol_tree.specs.Plain as tree;
ghost use Rattle.b67_emit_expr.specs.Placing.{element_place_of, plain_of};

use algol_tree::{Expr, Variable};

/// The element that an actual is; none where it is not subscripted.
pub fn place_of(e: &Expr) -> Option<&Variable>
    ensures { plain_of (option_copied result) ≡ element_place_of (expr e.now) }
{
    match e {
        Expr::Variable(v) => element_of(v),
        _ => None,
    }
}

/// The same of a variable.
fn element_of(v: &Variable) -> Option<&Variable>
    ensures { plain_of (option_copied result) ≡ element_place_of (tree.variable (variable v.now)) }
{
    if v.subs.items().is_empty() {
        None
    } else {
        Some(v)
    }
}

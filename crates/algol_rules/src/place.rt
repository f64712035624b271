//! Where an expression stands.

ghost use Rattle.std.specs.Prelude.{◌≡◌};
ghost use Rattle.algol_tree.specs.Image.{expr};
ghost use Rattle.algol_tree.specs.Cells as cells;

use crate::parts::boxed_expr;
use algol_tree::{Expr, Spot};

/// The place of the first token of an expression: that of its leftmost operand.
pub fn first_spot(e: &Expr) -> Spot
    ensures { result ≡ cells.first_spot (expr e.now) }
{
    let mut at = e;
    'operands: loop {
        match at {
            Expr::Number(_, spot) => return *spot,
            Expr::Truth(_, spot) => return *spot,
            Expr::Variable(v) => return v.name.spot,
            Expr::Call(c) => return c.name.spot,
            Expr::Happened(_, spot) => return *spot,
            Expr::Available(_, spot) => return *spot,
            Expr::Fix(_, spot) => return *spot,
            Expr::WaitAny(_, spot) => return *spot,
            Expr::Paren(_, spot) => return *spot,
            Expr::Plus(_, spot) => return *spot,
            Expr::Neg(_, spot) => return *spot,
            Expr::Not(_, spot) => return *spot,
            Expr::Two(_, a, _) => at = boxed_expr(a),
            Expr::If(_, _, _, spot) => return *spot,
        }
    }
}

//! The types of expressions. Each expression has one type, found from below; where a name is not what stands there, there is none.

ghost use Rattle.std.specs.Prelude.{◌≡◌};
ghost use Rattle.algol_tree.specs.Accepted.{noted_all};
ghost use Rattle.algol_tree.specs.Image.{expr, exprs};
ghost use Rattle.algol_tree.specs.Surroundings.{Surroundings};
ghost use Rattle.algol_tree.specs.Types as rules;
ghost use Rattle.algol_sites.specs.Seen.{class_seen};
ghost use Rattle.algol_sites.specs.Seeing.{TellsEach, TellsIn};
ghost use Rattle.algol_sites.specs.Noting.{differs, mistyped, mistyped_for, mistyped_list, broken_if, type_by};
ghost use Rattle.algol_tree.specs.declared.refusal.Code.TheVariants as codes;
ghost use Rattle.algol_tree.specs.Cells as cells;

use crate::told::sort_at;
use algol_frames::Scopes;
use algol_rules::{Faults, boxed_expr, exprs_in, first_spot};
use algol_sorts::Sort;
use algol_tree::{Code, Expr, Kind, Op, Variable};

/// The type of what an operator gives.
fn given_by(op: Op) -> Kind
    ensures { result ≡ rules.given_by op }
{
    match op {
        Op::Add | Op::Sub | Op::Mul | Op::Over | Op::Div | Op::Mod => Kind::Number,
        Op::Lss | Op::Leq | Op::Eql | Op::Neq | Op::Geq | Op::Gtr => Kind::Truth,
        Op::And | Op::Or | Op::Imp | Op::Eqv => Kind::Truth,
    }
}

/// The type of an operator's operands.
pub fn taken_by(op: Op) -> Kind
    ensures { result ≡ rules.taken_by op }
{
    match op {
        Op::And | Op::Or | Op::Imp | Op::Eqv => Kind::Truth,
        Op::Add | Op::Sub | Op::Mul | Op::Over | Op::Div | Op::Mod => Kind::Number,
        Op::Lss | Op::Leq | Op::Eql | Op::Neq | Op::Geq | Op::Gtr => Kind::Number,
    }
}

/// The type of a name that is read.
pub fn read_type(sort: Sort) -> Option<Kind>
    ensures { result ≡ rules.read_type (class_seen sort) }
{
    match sort {
        Sort::Variable(kind) => Some(kind),
        Sort::ByName(kind) => Some(kind),
        Sort::Procedure(kind) => kind,
        _ => None,
    }
}

/// The type of an array's elements.
pub fn element_type(sort: Sort) -> Option<Kind>
    ensures { result ≡ rules.element_type (class_seen sort) }
{
    match sort {
        Sort::Array(kind, _) => Some(kind),
        Sort::FormalArray(kind, _) => Some(kind),
        _ => None,
    }
}

/// The type of the result of a call.
fn result_type(sort: Sort) -> Option<Kind>
    ensures { result ≡ rules.result_type (class_seen sort) }
{
    match sort {
        Sort::Procedure(kind) => kind,
        _ => None,
    }
}

/// The type of a variable whose name is declared as this.
fn variable_type(sort: Sort, v: &Variable) -> Option<Kind>
    ensures { result ≡ type_by (class_seen sort) (exprs v.now.subs) }
{
    match exprs_in(&v.subs).split_first() {
        None => read_type(sort),
        Some(_) => element_type(sort),
    }
}

/// The type of an expression, none where a name in it is not what stands there.
pub fn type_of(scopes: &Scopes, e: &Expr) -> Option<Kind>
    ensures { (a : Surroundings) → TellsIn scopes.now a (expr e.now) → result ≡ rules.type_of (expr e.now) a }
{
    match e {
        Expr::Number(_, _) => Some(Kind::Number),
        Expr::Truth(_, _) => Some(Kind::Truth),
        Expr::Variable(v) => variable_type(sort_at(scopes, &v.name), v),
        Expr::Call(c) => result_type(sort_at(scopes, &c.name)),
        Expr::Happened(_, _) => Some(Kind::Truth),
        Expr::Available(_, _) => Some(Kind::Truth),
        Expr::Fix(_, _) => Some(Kind::Truth),
        Expr::WaitAny(_, _) => Some(Kind::Number),
        Expr::Paren(e, _) => type_of(scopes, boxed_expr(e)),
        Expr::Plus(_, _) => Some(Kind::Number),
        Expr::Neg(_, _) => Some(Kind::Number),
        Expr::Not(_, _) => Some(Kind::Truth),
        Expr::Two(op, _, _) => Some(given_by(*op)),
        Expr::If(_, x, _, _) => type_of(scopes, boxed_expr(x)),
    }
}

/// Notes where something of a type that may be known stands where another type is wanted.
fn want_type(kind: Kind, found: Option<Kind>, e: &Expr, faults: &mut Faults)
    ensures { faults.new.first ≡ noted_all faults.old.first (broken_if codes.WrongType (differs kind found) (cells.first_spot (expr e.now))) }
{
    match found {
        None => {}
        Some(found) => {
            if found != kind {
                faults.note(first_spot(e), Code::WrongType);
            }
        }
    }
}

/// Notes where an expression has another type than the one that is wanted.
pub fn want(scopes: &Scopes, kind: Kind, e: &Expr, faults: &mut Faults)
    ensures { (a : Surroundings) → TellsIn scopes.now a (expr e.now) → faults.new.first ≡ noted_all faults.old.first (mistyped kind (expr e.now) a) }
{
    want_type(kind, type_of(scopes, e), e, faults);
}

/// The same where nothing may be wanted.
pub fn want_if(scopes: &Scopes, kind: Option<Kind>, e: &Expr, faults: &mut Faults)
    ensures { (a : Surroundings) → TellsIn scopes.now a (expr e.now) → faults.new.first ≡ noted_all faults.old.first (mistyped_for kind (expr e.now) a) }
{
    match kind {
        None => {}
        Some(kind) => want(scopes, kind, e, faults),
    }
}

/// Notes which of these expressions are no numbers.
pub fn want_numbers(scopes: &Scopes, es: &[Expr], faults: &mut Faults)
    ensures { (a : Surroundings) → TellsEach scopes.now a (exprs es.now) → faults.new.first ≡ noted_all faults.old.first (mistyped_list (exprs es.now) a) }
{
    'expressions: for e in es {
        want(scopes, Kind::Number, e, faults);
    }
}

//! The rules of expressions, of calls and of their actuals.

ghost use Rattle.std.specs.Prelude.{◌≡◌, ◌&&◌, is_some, length, option_copied, slice_get};
ghost use Rattle.algol_tree.specs.Accepted.{noted_all};
ghost use Rattle.algol_tree.specs.Image.{expr, exprs, variable};
ghost use Rattle.algol_tree.specs.Plain as tree;
ghost use Rattle.algol_tree.specs.Sites as sites;
ghost use Rattle.algol_tree.specs.Surroundings as around;
ghost use Rattle.algol_tree.specs.Surroundings.{Surroundings};
ghost use Rattle.algol_told.specs.Telling.{ScopesTell};
ghost use Rattle.algol_sites.specs.declared.wanted.Wanted.TheVariants as wants;
ghost use Rattle.algol_sites.specs.Seen.{class_seen, others_taken, value_of};
ghost use Rattle.algol_sites.specs.Seeing.{TellsEach, TellsIn};
ghost use Rattle.algol_sites.specs.Noting.{noted_in};
ghost use Rattle.algol_sites.specs.Wanting.{is_met};
ghost use Rattle.algol_sites.specs.Expressing as rules;
ghost use Rattle.algol_sites.specs.Expressing.{is_alone, miscounted_actuals, miscounted_subscripts, misplaced, misplaced_if, noted_actual, noted_call, noted_element, noted_here, noted_name, reference_of};

use crate::told::{parameters_as, parameters_at, sort_at};
use crate::types::{taken_by, type_of, want, want_if, want_numbers};
use crate::wanted::{Wanted, is_unfit, note_if, want_event, want_events, want_name};
use algol_frames::Scopes;
use algol_rules::{Faults, boxed_expr, exprs_in, first_spot};
use algol_sorts::Sort;
use algol_tree::{Call, Code, Expr, Kind, Named, Variable};

// ---- counts

/// Whether it is an array with another number of subscripts.
fn has_others(sort: Sort, count: usize) -> bool
    ensures { result ≡ rules.has_others (class_seen sort) count }
{
    match sort {
        Sort::Array(_, subscripts) => subscripts != count,
        Sort::FormalArray(_, subscripts) => subscripts != count,
        _ => false,
    }
}

/// Notes where an array has another number of subscripts.
pub fn count_subscripts(scopes: &Scopes, name: &Named, count: usize, faults: &mut Faults)
    ensures { (a : Surroundings) → ScopesTell scopes.now a name.now → faults.new.first ≡ noted_all faults.old.first (miscounted_subscripts name.now count a) }
{
    note_if(
        has_others(sort_at(scopes, name), count),
        name.spot,
        Code::WrongCount,
        faults,
    );
}

/// Whether it is a procedure, with so many parameters, that takes another number of actuals.
fn takes_others(sort: Sort, parameters: usize, count: usize) -> bool
    ensures { result ≡ others_taken sort parameters count }
{
    match sort {
        Sort::Procedure(_) => parameters != count,
        _ => false,
    }
}

/// Notes where a procedure takes another number of actuals.
pub fn count_actuals(scopes: &Scopes, name: &Named, count: usize, faults: &mut Faults)
    ensures { (a : Surroundings) → ScopesTell scopes.now a name.now → faults.new.first ≡ noted_all faults.old.first (miscounted_actuals name.now count a) }
{
    let parameters = parameters_at(scopes, name).len();
    note_if(
        takes_others(sort_at(scopes, name), parameters, count),
        name.spot,
        Code::WrongCount,
        faults,
    );
}

// ---- names

/// Whether it is a typed procedure, with so many parameters, that takes actuals.
fn takes_some(sort: Sort, parameters: usize) -> bool
    ensures { result ≡ (is_met wants.Function (class_seen sort) && others_taken sort parameters 0) }
{
    match sort {
        Sort::Procedure(Some(_)) => parameters != 0,
        _ => false,
    }
}

/// A name by itself that is read: the name of a typed procedure is a call without actuals.
fn read_name(scopes: &Scopes, name: &Named, faults: &mut Faults)
    ensures { (a : Surroundings) → ScopesTell scopes.now a name.now → faults.new.first ≡ noted_name faults.old.first name.now a }
{
    let sort = sort_at(scopes, name);
    note_if(
        is_unfit(Wanted::Read, sort),
        name.spot,
        Code::WrongType,
        faults,
    );
    let parameters = parameters_as(scopes, sort, name).len();
    note_if(
        takes_some(sort, parameters),
        name.spot,
        Code::WrongCount,
        faults,
    );
}

/// An array's name with its subscripts, without what is in these.
pub fn element(scopes: &Scopes, name: &Named, subs: &[Expr], faults: &mut Faults)
    ensures { (a : Surroundings) → ScopesTell scopes.now a name.now → TellsEach scopes.now a (exprs subs.now) → faults.new.first ≡ noted_element faults.old.first name.now (exprs subs.now) (length subs.now) a }
{
    want_name(scopes, name, Wanted::Array, Code::WrongType, faults);
    want_numbers(scopes, subs, faults);
    count_subscripts(scopes, name, subs.len(), faults);
}

/// A variable that is read, without what is in its subscripts.
fn read_variable(scopes: &Scopes, v: &Variable, faults: &mut Faults)
    ensures { (a : Surroundings) → ScopesTell scopes.now a v.now.name → TellsEach scopes.now a (exprs v.now.subs) → faults.new.first ≡ noted_here faults.old.first (tree.variable (variable v.now)) a }
{
    let subs = exprs_in(&v.subs);
    match subs.split_first() {
        None => read_name(scopes, &v.name, faults),
        Some(_) => element(scopes, &v.name, subs, faults),
    }
}

// ---- actuals

/// The name, where the expression is a name by itself.
fn name_alone(e: &Expr) -> Option<&Named>
    ensures { option_copied result ≡ tree.name_alone (expr e.now) }
{
    match e {
        Expr::Variable(v) => match exprs_in(&v.subs).split_first() {
            None => Some(&v.name),
            Some(_) => None,
        },
        _ => None,
    }
}

/// An array or an event that is wanted of an actual: its name by itself.
fn want_reference(scopes: &Scopes, e: &Expr, wanted: Wanted, faults: &mut Faults)
    ensures { (a : Surroundings) → TellsIn scopes.now a (expr e.now) → faults.new.first ≡ noted_all faults.old.first (misplaced wanted (expr e.now) a) }
{
    match name_alone(e) {
        None => faults.note(first_spot(e), Code::WrongType),
        Some(name) => want_name(scopes, name, wanted, Code::WrongType, faults),
    }
}

/// The same where nothing may be wanted.
fn want_reference_if(scopes: &Scopes, e: &Expr, wanted: Option<Wanted>, faults: &mut Faults)
    ensures { (a : Surroundings) → TellsIn scopes.now a (expr e.now) → faults.new.first ≡ noted_all faults.old.first (misplaced_if wanted (expr e.now) a) }
{
    match wanted {
        None => {}
        Some(wanted) => want_reference(scopes, e, wanted, faults),
    }
}

/// The type of the value that is wanted of an actual for such a parameter.
fn value_wanted(formal: Option<Sort>) -> Option<Kind>
    ensures { result ≡ value_of formal }
{
    match formal {
        Some(Sort::Variable(kind)) => Some(kind),
        Some(Sort::ByName(kind)) => Some(kind),
        _ => None,
    }
}

/// What is wanted of the name that has to be the actual for such a parameter.
fn reference_wanted(formal: Option<Sort>) -> Option<Wanted>
    ensures { result ≡ reference_of formal }
{
    match formal {
        Some(Sort::Array(kind, subscripts)) => Some(Wanted::SuchArray(kind, subscripts)),
        Some(Sort::FormalArray(kind, subscripts)) => Some(Wanted::SuchArray(kind, subscripts)),
        Some(Sort::Event) => Some(Wanted::Event),
        Some(Sort::FormalEvent) => Some(Wanted::Event),
        _ => None,
    }
}

/// What a parameter wants of its actual.
fn want_actual(scopes: &Scopes, e: &Expr, formal: Option<Sort>, faults: &mut Faults)
    ensures { (a : Surroundings) → TellsIn scopes.now a (expr e.now) → faults.new.first ≡ noted_actual faults.old.first (expr e.now) formal a }
{
    want_if(scopes, value_wanted(formal), e, faults);
    want_reference_if(scopes, e, reference_wanted(formal), faults);
}

/// Whether the actual is a name by itself that no value is wanted of.
fn is_name_alone(e: &Expr, formal: Option<Sort>) -> bool
    ensures { result ≡ is_alone (expr e.now) formal }
{
    name_alone(e).is_some() && value_wanted(formal).is_none()
}

/// What stands in the subscripts of a variable.
#[cycle(expressions)]
pub fn subscripts(scopes: &Scopes, v: &Variable, faults: &mut Faults)
    ensures { (a : Surroundings) → TellsEach scopes.now a (exprs v.now.subs) → faults.new.first ≡ noted_in faults.old.first (sites.inside_list (exprs v.now.subs) a) }
{
    let subs = exprs_in(&v.subs);
    'subscripts: for e in subs {
        expression(scopes, e, faults);
    }
}

/// The parameter for the actual with that number.
fn formal_at(formals: &[Sort], at: usize) -> Option<Sort>
    ensures { result ≡ slice_get formals.now at }
{
    formals.get(at).copied()
}

/// The actuals of a call.
#[cycle(expressions)]
pub fn actuals(scopes: &Scopes, c: &Call, faults: &mut Faults)
    ensures { (a : Surroundings) → ScopesTell scopes.now a c.now.name → TellsEach scopes.now a (exprs c.now.actuals) → faults.new.first ≡ noted_in faults.old.first (sites.inside_actuals (exprs c.now.actuals) (around.formals_at a c.now.name) a) }
{
    let formals = parameters_at(scopes, &c.name);
    let given = exprs_in(&c.actuals);
    'actuals: for (at, e) in given.iter().enumerate() {
        let formal = formal_at(formals, at);
        want_actual(scopes, e, formal, faults);
        if !is_name_alone(e, formal) {
            expression(scopes, e, faults);
        }
    }
}

/// A call of what is wanted, without what is in its actuals.
pub fn called(scopes: &Scopes, c: &Call, wanted: Wanted, faults: &mut Faults)
    ensures { (a : Surroundings) → ScopesTell scopes.now a c.now.name → faults.new.first ≡ noted_call faults.old.first wanted c.now.name (length c.now.actuals) a }
{
    want_name(scopes, &c.name, wanted, Code::WrongType, faults);
    count_actuals(scopes, &c.name, exprs_in(&c.actuals).len(), faults);
}

/// Expressions in a list.
pub fn expressions(scopes: &Scopes, es: &[Expr], faults: &mut Faults)
    ensures { (a : Surroundings) → TellsEach scopes.now a (exprs es.now) → faults.new.first ≡ noted_in faults.old.first (sites.inside_list (exprs es.now) a) }
{
    'expressions: for e in es {
        expression(scopes, e, faults);
    }
}

/// An expression. Its last part, the left operand of two, is gone over in its place, so that the length of a sum needs no room on
/// the stack: which fault is the first does not depend on which part is gone over first.
#[cycle(expressions)]
pub fn expression(scopes: &Scopes, e: &Expr, faults: &mut Faults)
    ensures { (a : Surroundings) → TellsIn scopes.now a (expr e.now) → faults.new.first ≡ noted_in faults.old.first (sites.sites (expr e.now) a) }
{
    let mut at = e;
    'parts: loop {
        match at {
            Expr::Number(_, _) => return,
            Expr::Truth(_, _) => return,
            Expr::Variable(v) => {
                read_variable(scopes, v, faults);
                return subscripts(scopes, v, faults);
            }
            Expr::Call(c) => {
                called(scopes, c, Wanted::Function, faults);
                return actuals(scopes, c, faults);
            }
            Expr::Happened(event, _) => return want_event(scopes, event, faults),
            Expr::Available(event, _) => return want_event(scopes, event, faults),
            Expr::Fix(event, _) => return want_event(scopes, event, faults),
            Expr::WaitAny(events, spot) => return want_events(
                scopes,
                events.items(),
                *spot,
                faults,
            ),
            Expr::Paren(e, _) => at = boxed_expr(e),
            Expr::Plus(e, _) => {
                let operand = boxed_expr(e);
                want(scopes, Kind::Number, operand, faults);
                at = operand;
            }
            Expr::Neg(e, _) => {
                let operand = boxed_expr(e);
                want(scopes, Kind::Number, operand, faults);
                at = operand;
            }
            Expr::Not(e, _) => {
                let operand = boxed_expr(e);
                want(scopes, Kind::Truth, operand, faults);
                at = operand;
            }
            Expr::Two(op, x, y) => {
                let left = boxed_expr(x);
                let right = boxed_expr(y);
                want(scopes, taken_by(*op), left, faults);
                want(scopes, taken_by(*op), right, faults);
                expression(scopes, right, faults);
                at = left;
            }
            Expr::If(c, x, y, _) => {
                let condition = boxed_expr(c);
                let yes = boxed_expr(x);
                let otherwise = boxed_expr(y);
                want(scopes, Kind::Truth, condition, faults);
                want_if(scopes, type_of(scopes, yes), otherwise, faults);
                expression(scopes, condition, faults);
                expression(scopes, yes, faults);
                at = otherwise;
            }
        }
    }
}

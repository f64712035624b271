//! What names mean where they are given for parameters by name or where GO TO names them, which actuals have cells, and which names are
//! those of events.

ghost use Rattle.std.specs.Prelude.{◌≡◌, false, Some, IsSome, option_copied};
ghost use Rattle.algol_tree.specs.Image.{expr};
ghost use Rattle.algol_tree.specs.Cells.{first_spot};
ghost use Rattle.algol_tree.specs.Plain.{name_alone};
ghost use Rattle.b67_templates.specs.Fitting.{meant_is_name};
ghost use Rattle.b67_templates.specs.Paying.{mode_at, stands, actual_has_cell};
ghost use Rattle.b67_emitter.specs.Values.{couples, meant, actuals, meanings, labels, target_told, meant_event_in, given_as, given_alone, given};

use crate::expressions::couple_of;
use crate::names::{Names, Target};
use algol_rules::{exprs_in, first_spot};
use algol_scope::Declared;
use algol_sorts::Sort;
use algol_tree::{Expr, Named};
use b67_ops::Couple;

/// What is given for a parameter by name: the couple of a cell, and whether that has the reference to what is given.
pub struct Given {
    pub couple: Couple,
    pub loads: bool,
}

/// Tests that a name is that of a parameter by name.
pub fn is_name(names: &Names, name: &Named) -> bool
    ensures { result ≡ meant_is_name (meant names.now name.now.spot) }
{
    match names.scopes.declaration(name.spot) {
        Some(declared) => declared.sort.is_by_name(),
        None => false,
    }
}

/// Tests that the parameter with this number of the procedure that a name means is by name.
pub fn takes_name(names: &Names, callee: &Named, number: usize) -> bool
    ensures { result ≡ mode_at (meant names.now callee.now.spot) number }
{
    match names.scopes.declaration(callee.spot) {
        Some(
            Declared {
                sort: Sort::Procedure(_),
                spot,
                ..
            },
        ) => match names.scopes.parameters(*spot) {
            Some(sorts) => match sorts.items().get(number) {
                Some(sort) => sort.is_by_name(),
                None => false,
            },
            None => false,
        },
        _ => false,
    }
}

/// Whether the event that a name means is a parameter; none where it means no event.
pub fn event_of(names: &Names, name: &Named) -> Option<bool>
    ensures { result ≡ meant_event_in (meant names.now name.now.spot) }
{
    match names.scopes.declaration(name.spot) {
        Some(declared) => match declared.sort {
            Sort::Event => Some(false),
            Sort::Task => Some(false),
            Sort::FormalEvent => Some(true),
            _ => None,
        },
        None => None,
    }
}

/// Where GO TO leads that names this label.
pub fn target_of(names: &Names, name: &Named) -> Target
    requires { IsSome (labels names.now name.now.spot) }
    ensures { labels names.now name.now.spot ≡ target_told (Some result) }
{
    match names.scopes.declaration(name.spot) {
        Some(declared) => match names.labels.get(&declared.spot) {
            Some(target) => *target,
            None => unreachable!(),
        },
        None => unreachable!(),
    }
}

/// The name that an expression is, none where it is no name by itself.
pub fn name_alone(e: &Expr) -> Option<&Named>
    ensures { option_copied result ≡ name_alone (expr e.now) }
{
    match e {
        Expr::Variable(v) => match exprs_in(&v.subs).split_first() {
            None => Some(&v.name),
            Some(_) => None,
        },
        _ => None,
    }
}

/// Tests that an actual that is given for a parameter by name has a cell: it is no variable or parameter by itself.
pub fn has_cell(names: &Names, e: &Expr) -> bool
    ensures { result ≡ actual_has_cell (meanings names.now) (expr e.now) }
{
    match name_alone(e) {
        Some(name) => !is_simple(names, name),
        None => true,
    }
}

/// Tests that a name is that of a simple variable or parameter.
fn is_simple(names: &Names, name: &Named) -> bool
    ensures { result ≡ stands (meant names.now name.now.spot) }
{
    match names.scopes.declaration(name.spot) {
        Some(declared) => declared.sort.is_simple(),
        None => false,
    }
}

/// What is given for a parameter by name where that is an actual that has a cell.
fn given_cell(names: &Names, e: &Expr) -> Given
    requires { IsSome (actuals names.now (first_spot (expr e.now))) }
    ensures { given_as false (actuals names.now (first_spot (expr e.now))) ≡ Some result }
{
    match names.scopes.actual(first_spot(e)) {
        Some(couple) => Given {
            couple: Couple {
                level: couple.level,
                index: couple.index,
            },
            loads: false,
        },
        None => unreachable!(),
    }
}

/// .. where that is a name by itself.
fn given_alone(names: &Names, name: &Named, e: &Expr) -> Given
    requires { IsSome (given_alone (meant names.now name.now.spot) (couples names.now name.now.spot) (actuals names.now (first_spot (expr e.now)))) }
    ensures { given_alone (meant names.now name.now.spot) (couples names.now name.now.spot) (actuals names.now (first_spot (expr e.now))) ≡ Some result }
{
    let loads = is_name(names, name);
    if loads || is_simple(names, name) {
        Given {
            couple: couple_of(names, name),
            loads,
        }
    } else {
        given_cell(names, e)
    }
}

/// What is given for a parameter by name.
pub fn given_of(names: &Names, e: &Expr) -> Given
    requires { IsSome (given names.now (expr e.now)) }
    ensures { given names.now (expr e.now) ≡ Some result }
{
    match name_alone(e) {
        Some(name) => given_alone(names, name, e),
        None => given_cell(names, e),
    }
}

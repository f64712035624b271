//! Statements, without the statements in them.

ghost use Rattle.std.specs.Prelude.{◌≡◌, ◌++◌, if◌then◌else◌, Bool, List, None, length};
ghost use Rattle.b67_deeds.specs.declared.EventAct.{EventAct};
ghost use Rattle.algol_tree.specs.Plain as tree;
ghost use Rattle.algol_tree.specs.Plain.{PStmt};
ghost use Rattle.algol_tree.specs.Image as image;
ghost use Rattle.algol_tree.specs.Image.{call, expr, exprs, variable};
ghost use Rattle.algol_tree.specs.Accepted.{noted_all};
ghost use Rattle.algol_tree.specs.Blocks.{Block};
ghost use Rattle.algol_tree.specs.Sites as sites;
ghost use Rattle.algol_tree.specs.Surroundings as rules;
ghost use Rattle.algol_tree.specs.Surroundings.{Surroundings};
ghost use Rattle.algol_told.specs.Telling.{ScopesTell, TellsAll};
ghost use Rattle.algol_sites.specs.Assigning.{can_take};
ghost use Rattle.algol_sites.specs.Noting.{broken_if, mistyped, noted_along, noted_at};
ghost use Rattle.algol_sites.specs.Seen.{class_seen};
ghost use Rattle.algol_sites.specs.Seeing.{Notes, NotesAt, TellsEach, TellsIn, TellsTask, for_site, stmt_parts};
ghost use Rattle.algol_sites.specs.Stating.{is_truth, noted_control, noted_element_side, noted_left, noted_name_side, noted_process, unfit_task};

use crate::expression::{
    actuals, called, count_actuals, count_subscripts, expression, expressions, subscripts,
};
use crate::line::check_line;
use crate::place::Place;
use crate::told::{sort_at, told_at};
use crate::types::{element_type, read_type, want, want_if, want_numbers};
use crate::wanted::{Wanted, note_if, want_event, want_name};
use algol_frames::Scopes;
use algol_rules::{Faults, exprs_in};
use algol_sorts::Sort;
use algol_tree::{Call, Code, EventName, Expr, Kind, Named, Pair, PhraseText, Spot, Variable};

/// The type where the answer is yes, else none.
fn kind_if(answer: bool, kind: Option<Kind>) -> Option<Kind>
    ensures { result ≡ (if answer then kind else None) }
{
    if answer { kind } else { None }
}

/// A name without subscripts on the left, and the type of its value.
fn name_side(scopes: &Scopes, place: &Place, name: &Named, value: &Expr, faults: &mut Faults)
    ensures { (a : Surroundings) → ScopesTell scopes.now a name.now → TellsIn scopes.now a (expr value.now) → faults.new.first ≡ noted_name_side faults.old.first (can_take place.now.block place.now.around.items (rules.class_of a name.now)) name.now (expr value.now) a }
{
    let (sort, declared) = told_at(scopes, name);
    let is_taken = place.is_assignable(sort, declared);
    want_if(scopes, kind_if(is_taken, read_type(sort)), value, faults);
    note_if(!is_taken, name.spot, Code::NotAssignable, faults);
}

/// An element on the left, and the type of its value, without what is in its subscripts.
fn element_side(scopes: &Scopes, name: &Named, subs: &[Expr], value: &Expr, faults: &mut Faults)
    ensures { (a : Surroundings) → ScopesTell scopes.now a name.now → TellsEach scopes.now a (exprs subs.now) → TellsIn scopes.now a (expr value.now) → faults.new.first ≡ noted_element_side faults.old.first name.now (exprs subs.now) (length subs.now) (expr value.now) a }
{
    want_name(scopes, name, Wanted::Array, Code::WrongType, faults);
    want_numbers(scopes, subs, faults);
    want_if(scopes, element_type(sort_at(scopes, name)), value, faults);
    count_subscripts(scopes, name, subs.len(), faults);
}

/// A left side, and the type of its value, without what is in its subscripts.
fn left_side(scopes: &Scopes, place: &Place, v: &Variable, value: &Expr, faults: &mut Faults)
    ensures { (a : Surroundings) → ScopesTell scopes.now a v.now.name → TellsEach scopes.now a (exprs v.now.subs) → TellsIn scopes.now a (expr value.now) → faults.new.first ≡ noted_left faults.old.first (can_take place.now.block place.now.around.items) (variable v.now) (length v.now.subs) (expr value.now) a }
{
    let subs = exprs_in(&v.subs);
    match subs.split_first() {
        None => name_side(scopes, place, &v.name, value, faults),
        Some(_) => element_side(scopes, &v.name, subs, value, faults),
    }
}

/// An assignment.
pub fn assign(scopes: &Scopes, place: &Place, v: &Variable, value: &Expr, faults: &mut Faults)
    ensures { (listed : Bool) → NotesAt scopes.now place.now faults.old.first faults.new.first (stmt_parts (tree.assign (variable v.now) (expr value.now)) listed) }
{
    left_side(scopes, place, v, value, faults);
    subscripts(scopes, v, faults);
    expression(scopes, value, faults);
}

/// A call that is a statement.
pub fn call(scopes: &Scopes, c: &Call, faults: &mut Faults)
    ensures { (listed : Bool) → Notes scopes.now faults.old.first faults.new.first (stmt_parts (tree.call_of (call c.now)) listed) }
{
    called(scopes, c, Wanted::Procedure, faults);
    actuals(scopes, c, faults);
}

/// GO TO.
pub fn go_to(scopes: &Scopes, name: &Named, faults: &mut Faults)
    ensures { (listed : Bool) → Notes scopes.now faults.old.first faults.new.first (stmt_parts (tree.go_to name.now) listed) }
{
    want_name(scopes, name, Wanted::Label, Code::WrongType, faults);
}

/// A statement on an event.
pub fn event(scopes: &Scopes, e: &EventName, faults: &mut Faults)
    ensures { (act : EventAct) (listed : Bool) → Notes scopes.now faults.old.first faults.new.first (stmt_parts (tree.event act e.now) listed) }
{
    want_event(scopes, e, faults);
}

/// The task of a process, where it has one.
fn want_task(scopes: &Scopes, task: &Option<Named>, faults: &mut Faults)
    ensures { (a : Surroundings) → TellsTask scopes.now a task.now → faults.new.first ≡ noted_all faults.old.first (unfit_task task.now a) }
{
    match task {
        None => {}
        Some(task) => want_name(scopes, task, Wanted::Task, Code::WrongType, faults),
    }
}

/// A process that is started, without what is in its actuals.
fn started(scopes: &Scopes, c: &Call, task: &Option<Named>, faults: &mut Faults)
    ensures { (a : Surroundings) → ScopesTell scopes.now a c.now.name → TellsTask scopes.now a task.now → faults.new.first ≡ noted_process faults.old.first c.now.name task.now (length c.now.actuals) a }
{
    want_name(scopes, &c.name, Wanted::Untyped, Code::WrongType, faults);
    want_task(scopes, task, faults);
    count_actuals(scopes, &c.name, exprs_in(&c.actuals).len(), faults);
}

/// PROCESS.
pub fn process(scopes: &Scopes, c: &Call, task: &Option<Named>, faults: &mut Faults)
    ensures { (listed : Bool) → Notes scopes.now faults.old.first faults.new.first (stmt_parts (tree.process (call c.now) task.now) listed) }
{
    started(scopes, c, task, faults);
    actuals(scopes, c, faults);
}

/// WRITE.
pub fn write(
    scopes: &Scopes,
    file: &Named,
    spot: Spot,
    phrases: &[PhraseText],
    items: &[Expr],
    faults: &mut Faults,
)
    ensures { (listed : Bool) → Notes scopes.now faults.old.first faults.new.first (stmt_parts (tree.write file.now spot phrases.now (exprs items.now)) listed) }
{
    want_name(scopes, file, Wanted::File, Code::WrongType, faults);
    want_numbers(scopes, items, faults);
    check_line(spot, phrases, items.len(), faults);
    expressions(scopes, items, faults);
}

/// An expression of which this type is wanted.
pub fn typed(scopes: &Scopes, kind: Kind, e: &Expr, faults: &mut Faults)
    ensures { (blocks : List Block) (a : Surroundings) → TellsAll scopes.now (sites.sites (expr e.now) a) → faults.new.first ≡ noted_along blocks (noted_all faults.old.first (mistyped kind (expr e.now) a)) (sites.sites (expr e.now) a) }
{
    want(scopes, kind, e, faults);
    expression(scopes, e, faults);
}

/// Whether the name is a simple variable of type BOOLEAN.
fn is_truth(sort: Sort) -> bool
    ensures { result ≡ is_truth (class_seen sort) }
{
    matches!(
        sort,
        Sort::Variable(Kind::Truth) | Sort::ByName(Kind::Truth)
    )
}

/// The control variable of FOR, its first value, the step and the limit, without what is in them.
fn control(scopes: &Scopes, v: &Named, x: &Expr, step: &Expr, last: &Expr, faults: &mut Faults)
    ensures { (a : Surroundings) → ScopesTell scopes.now a v.now → TellsIn scopes.now a (expr x.now) → TellsIn scopes.now a (expr step.now) → TellsIn scopes.now a (expr last.now) → faults.new.first ≡ noted_control faults.old.first v.now (expr x.now) (expr step.now) (expr last.now) a }
{
    note_if(
        is_truth(sort_at(scopes, v)),
        v.spot,
        Code::WrongType,
        faults,
    );
    want(scopes, Kind::Number, x, faults);
    want(scopes, Kind::Number, step, faults);
    want(scopes, Kind::Number, last, faults);
    want_name(scopes, v, Wanted::Simple, Code::NotAssignable, faults);
}

/// FOR, without its statement.
pub fn counting(scopes: &Scopes, v: &Named, x: &Expr, step: &Expr, last: &Expr, faults: &mut Faults)
    ensures { (blocks : List Block) (a : Surroundings) (s : PStmt) (listed : Bool) → ScopesTell scopes.now a v.now → TellsAll scopes.now (sites.sites (expr x.now) a ++ sites.sites (expr step.now) a ++ sites.sites (expr last.now) a) → faults.new.first ≡ noted_along blocks (noted_at blocks faults.old.first (for_site v.now (expr x.now) (expr step.now) (expr last.now) s listed a)) (sites.sites (expr x.now) a ++ sites.sites (expr step.now) a ++ sites.sites (expr last.now) a) }
{
    control(scopes, v, x, step, last, faults);
    expression(scopes, x, faults);
    expression(scopes, step, faults);
    expression(scopes, last, faults);
}

/// The upper bounds of an array.
pub fn bounds(scopes: &Scopes, pairs: &[Pair], faults: &mut Faults)
    ensures { (blocks : List Block) (a : Surroundings) → TellsAll scopes.now (sites.sites_in_pairs (image.pairs pairs.now) a) → faults.new.first ≡ noted_along blocks faults.old.first (sites.sites_in_pairs (image.pairs pairs.now) a) }
{
    'pairs: for pair in pairs {
        typed(scopes, Kind::Number, &pair.high, faults);
    }
}

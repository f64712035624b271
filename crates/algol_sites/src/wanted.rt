//! What a name has to be where it stands.

ghost use Rattle.std.specs.Prelude.{◌≡◌, ◌==◌, ◌&&◌, ◌||◌, nat_lt, not};
ghost use Rattle.b67_limits.specs.declared.TheConstants.{MOST_EVENTS};
ghost use Rattle.algol_tree.specs.declared.refusal.Code.TheVariants as codes;
ghost use Rattle.algol_tree.specs.Accepted.{noted_all};
ghost use Rattle.algol_tree.specs.Classes.{is_unspecified};
ghost use Rattle.algol_tree.specs.Surroundings.{Surroundings};
ghost use Rattle.algol_told.specs.Telling.{ScopesTell};
ghost use Rattle.algol_sites.specs.Noting.{broken_if};
ghost use Rattle.algol_sites.specs.Seen.{class_seen};
ghost use Rattle.algol_sites.specs.Wanting as rules;
ghost use Rattle.algol_sites.specs.Seeing.{TellsEvents};
ghost use Rattle.algol_sites.specs.Wanting.{are_miscounted, is_met, unfit, unfit_event, unfit_events};
ghost use Rattle.algol_sites.specs.declared.wanted.Wanted.TheVariants as wants;

use crate::told::sort_at;
use crate::types::read_type;
use algol_frames::Scopes;
use algol_rules::Faults;
use algol_sorts::Sort;
use algol_tree::{Code, EventName, Kind, Named, Spot};
use b67_limits::MOST_EVENTS;

/// What a name has to be where it stands.
#[derive(Clone, Copy)]
pub enum Wanted {
    /// A name that is read: a simple variable or parameter, or a typed procedure.
    Read,
    Simple,
    Array,
    /// An array with elements of this kind and so many subscripts.
    SuchArray(Kind, usize),
    Event,
    Task,
    Label,
    File,
    Procedure,
    /// A typed procedure.
    Function,
    /// A procedure without a type.
    Untyped,
}

/// Whether it is such an array.
fn is_such_array(sort: Sort, kind: Kind, subscripts: usize) -> bool
    ensures { result ≡ is_met (wants.SuchArray kind subscripts) (class_seen sort) }
{
    match sort {
        Sort::Array(other, count) => kind == other && count == subscripts,
        Sort::FormalArray(other, count) => kind == other && count == subscripts,
        _ => false,
    }
}

impl Wanted {
    /// Whether what is declared so is what is wanted. Nothing is known of [`Sort::Unspecified`], and the answer is no.
    pub fn is_met_by(self, sort: Sort) -> bool
        ensures { result ≡ is_met self (class_seen sort) }
    {
        match self {
            Wanted::Read => read_type(sort).is_some(),
            Wanted::Simple => matches!(sort, Sort::Variable(_) | Sort::ByName(_)),
            Wanted::Array => matches!(sort, Sort::Array(_, _) | Sort::FormalArray(_, _)),
            Wanted::SuchArray(kind, subscripts) => is_such_array(sort, kind, subscripts),
            Wanted::Event => matches!(sort, Sort::Event | Sort::FormalEvent),
            Wanted::Task => matches!(sort, Sort::Task),
            Wanted::Label => matches!(sort, Sort::Label),
            Wanted::File => matches!(sort, Sort::File),
            Wanted::Procedure => matches!(sort, Sort::Procedure(_)),
            Wanted::Function => matches!(sort, Sort::Procedure(Some(_))),
            Wanted::Untyped => matches!(sort, Sort::Procedure(None)),
        }
    }
}

/// Notes the rule where it is broken.
pub fn note_if(is_broken: bool, spot: Spot, code: Code, faults: &mut Faults)
    ensures { faults.new.first ≡ noted_all faults.old.first (broken_if code is_broken spot) }
{
    if is_broken {
        faults.note(spot, code);
    }
}

/// Whether something is declared, and not what is wanted.
pub fn is_unfit(wanted: Wanted, sort: Sort) -> bool
    ensures { result ≡ (not (is_met wanted (class_seen sort)) && not (is_unspecified (class_seen sort))) }
{
    !wanted.is_met_by(sort) && !matches!(sort, Sort::Unspecified)
}

/// Notes the rule where the name is known and is not what is wanted.
pub fn want_name(scopes: &Scopes, name: &Named, wanted: Wanted, code: Code, faults: &mut Faults)
    ensures { (a : Surroundings) → ScopesTell scopes.now a name.now → faults.new.first ≡ noted_all faults.old.first (unfit wanted code name.now a) }
{
    note_if(
        is_unfit(wanted, sort_at(scopes, name)),
        name.spot,
        code,
        faults,
    );
}

/// What an event's name or a task's name has to be.
fn event_wanted(is_task: bool) -> Wanted
    ensures { result ≡ rules.event_wanted is_task }
{
    if is_task { Wanted::Task } else { Wanted::Event }
}

/// Notes where an event's name is none, or a task's name is no task.
pub fn want_event(scopes: &Scopes, event: &EventName, faults: &mut Faults)
    ensures { (a : Surroundings) → ScopesTell scopes.now a event.now.name → faults.new.first ≡ noted_all faults.old.first (unfit_event event.now a) }
{
    want_name(
        scopes,
        &event.name,
        event_wanted(event.task),
        Code::WrongType,
        faults,
    );
}

/// Whether so many events are none, or more than something can be done with at once.
fn is_miscount(count: usize) -> bool
    ensures { result ≡ ((count == 0) || nat_lt MOST_EVENTS count) }
{
    count == 0 || count > MOST_EVENTS as usize
}

/// Notes which of these names are no events, and, at the place of the wait, where they are too many or there is none.
pub fn want_events(scopes: &Scopes, events: &[EventName], spot: Spot, faults: &mut Faults)
    ensures { (a : Surroundings) → TellsEvents scopes.now a events.now → faults.new.first ≡ noted_all (noted_all faults.old.first (unfit_events events.now a)) (broken_if codes.WrongCount (are_miscounted events.now) spot) }
{
    'events: for event in events {
        want_event(scopes, event, faults);
    }
    note_if(is_miscount(events.len()), spot, Code::WrongCount, faults);
}

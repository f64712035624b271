//! The front end as one call: a text to the program that it is, with its scopes, or the first place at which it breaks a rule.
//!
//! The text is read first, then its tokens, then names and limits are looked at, and at last types, counts, lines and labels.
#![tactic(auto)]

mod checked;
mod whole;

ghost use Rattle.algol_front.specs.Refusing.{OneRefusal, SourcesNotRefused};

pub use checked::Checked;
pub use whole::front;

/// Law: a text is refused at one place and for one reason at most.
pub fn texts_are_refused_once()
    ensures { OneRefusal }
{}

/// Law: an accepted source is refused nowhere.
pub fn sources_are_not_refused()
    ensures { SourcesNotRefused }
{}

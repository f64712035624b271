//! The first rule that is broken.

ghost use Rattle.std.specs.Prelude.{◌≡◌, IsTrue, None, Ok, Err, Result};
ghost use Rattle.algol_tree.specs.Accepted as rules;
ghost use Rattle.algol_tree.specs.declared.refusal.Fault.{Fault};
ghost use Rattle.algol_rules.specs.Refusing.{refusing};

use algol_tree::{Code, Fault, Refusal, Spot, rule_number};

/// The first of the faults that were found, in text order, and at one place that of the rule with the lowest number.
#[derive(Drop)]
pub struct Faults {
    pub first: Option<Fault>,
}

impl Faults {
    /// No fault.
    pub fn none() -> Faults
        ensures { result.first ≡ None }
    {
        Faults { first: None }
    }

    /// One more fault.
    pub fn note(&mut self, spot: Spot, code: Code)
        ensures { self.new.first ≡ rules.fault_noted self.old.first (record { spot = spot; code = code }) }
    {
        let fault = Fault { spot, code };
        match self.first {
            None => self.first = Some(fault),
            Some(first) => {
                if is_earlier(fault, first) {
                    self.first = Some(fault);
                }
            }
        }
    }

    /// The refusal, where there is a fault.
    pub fn refusal(&self) -> Result<(), Refusal>
        ensures { result ≡ refusing self.now.first }
    {
        match self.first {
            None => Ok(()),
            Some(fault) => Err(Refusal::At {
                spot: fault.spot,
                code: fault.code,
            }),
        }
    }
}

/// Whether the first fault comes before the second.
fn is_earlier(fault: Fault, other: Fault) -> bool
    ensures { result ≡ rules.is_earlier fault other }
{
    is_before(fault.spot, other.spot)
        || (fault.spot.line == other.spot.line
            && fault.spot.column == other.spot.column
            && rule_number(fault.code) < rule_number(other.code))
}

/// Whether the first place comes before the second in the text.
fn is_before(spot: Spot, other: Spot) -> bool
    ensures { result ≡ rules.is_before spot other }
{
    spot.line < other.line || (spot.line == other.line && spot.column < other.column)
}

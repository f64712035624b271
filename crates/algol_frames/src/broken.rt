//! Faults of rules that are broken.

ghost use Rattle.std.specs.Prelude.{◌≡◌};
ghost use Rattle.algol_tree.specs.Accepted.{broken, noted_all};
ghost use Rattle.algol_tree.specs.Names.{if_so};

use algol_rules::Faults;
use algol_tree::{Code, Spot};

/// Notes a fault there where the rule is broken.
pub fn note_if(is_broken: bool, spot: Spot, code: Code, faults: &mut Faults)
    ensures { faults.new.first ≡ noted_all faults.old.first (broken code (if_so is_broken spot)) }
{
    if is_broken {
        faults.note(spot, code);
    }
}

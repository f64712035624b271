//! What the names of a program mean to its code.

ghost use Rattle.std.specs.Prelude.{◌≡◌};

use algol_lows::Lows;
use algol_scope::Scopes;
use algol_tree::Spot;
use std::collections::BTreeMap;

/// Where GO TO leads that names a label: the level of the label's block, the segment of its text, and the place of the label's branch in
/// the table there.
#[derive(Clone, Copy)]
pub struct Target {
    pub level: u8,
    pub segment: u16,
    pub entry: u16,
}

/// Where the labels lead, by the places of their declarations.
pub type TargetsByPlace = BTreeMap<Spot, Target>;

/// What the names of a program mean to its code: where the cells lie, the lower bounds of each array by the place of its declaration, and
/// where each label leads, by the place of its declaration.
#[derive(Drop)]
pub struct Names<'a> {
    pub scopes: &'a Scopes,
    pub lows: BTreeMap<Spot, Lows>,
    pub labels: TargetsByPlace,
}

impl<'a> Names<'a> {
    /// The names of a program that has these scopes, arrays with these lower bounds, and labels that lead there.
    pub fn new(scopes: &'a Scopes, lows: BTreeMap<Spot, Lows>, labels: TargetsByPlace) -> Names<'a>
        ensures scopes { result.scopes.now ≡ scopes.now }
        ensures lows { result.lows ≡ lows }
        ensures labels { result.labels ≡ labels }
    {
        Names {
            scopes,
            lows,
            labels,
        }
    }
}

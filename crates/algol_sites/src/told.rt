//! What the scopes tell of a name where it stands.

ghost use Rattle.std.specs.Prelude.{◌≡◌, option_copied};
ghost use Rattle.algol_frames.specs.Answers.{parameters_of};
ghost use Rattle.algol_sites.specs.Seen.{of_procedure, parameters_there, sort_there, sorts_or, spot_there};

use algol_frames::Scopes;
use algol_sorts::Sort;
use algol_tree::{List, Named, Spot};

/// What the name is declared as.
pub fn sort_at(scopes: &Scopes, name: &Named) -> Sort
    ensures { result ≡ sort_there scopes.now name.now.spot }
{
    match scopes.declaration(name.spot) {
        None => Sort::Unspecified,
        Some(declared) => declared.sort,
    }
}

/// Where it is declared, a procedure by its heading with the body.
fn spot_at(scopes: &Scopes, name: &Named) -> Spot
    ensures { result ≡ spot_there scopes.now name.now.spot }
{
    match scopes.declaration(name.spot) {
        None => name.spot,
        Some(declared) => declared.spot,
    }
}

/// What the name is declared as, and where.
pub fn told_at(scopes: &Scopes, name: &Named) -> (Sort, Spot)
    ensures { result ≡ (sort_there scopes.now name.now.spot, spot_there scopes.now name.now.spot) }
{
    match scopes.declaration(name.spot) {
        None => (Sort::Unspecified, name.spot),
        Some(declared) => (declared.sort, declared.spot),
    }
}

/// The items of a list that may be missing.
fn sorts_of(sorts: Option<&List<Sort>>) -> &[Sort]
    ensures { result.now ≡ sorts_or (option_copied sorts.entry) }
{
    match sorts {
        None => &[],
        Some(sorts) => sorts.items().as_slice(),
    }
}

/// What the parameters of the procedure of that name are declared as, in their order.
pub fn parameters_at<'s>(scopes: &'s Scopes, name: &Named) -> &'s [Sort]
    ensures { result.now ≡ parameters_there scopes.now name.now.spot }
{
    parameters_as(scopes, sort_at(scopes, name), name)
}

/// The same of the name that is declared as this.
pub fn parameters_as<'s>(scopes: &'s Scopes, sort: Sort, name: &Named) -> &'s [Sort]
    ensures { result.now ≡ of_procedure sort (sorts_or (parameters_of scopes.now (spot_there scopes.now name.now.spot))) }
{
    match sort {
        Sort::Procedure(_) => sorts_of(scopes.parameters(spot_at(scopes, name))),
        _ => &[],
    }
}

//! The uses of names, from what the scopes of the tree tell of them.

ghost use Rattle.std.specs.Prelude.{◌≡◌, ◌++◌, ℕ, ℤ, List, map, true, IfOk, OnOk};
ghost use Rattle.algol_tree.specs.declared.token.Spot as token;
ghost use Rattle.algol_tree.specs.Blocks.{number_at};
ghost use Rattle.algol_tree.specs.Sorts as plain;
ghost use Rattle.algol_cells.specs.SeenScope.{sort_as, used};
ghost use Rattle.algol_scope.specs.Resolved.{declaration_of};
ghost use Rattle.algol_names.specs.Blocks.{blocks_in};
ghost use Rattle.algol_names.specs.Meant.{left_or, use_told, used_by, uses_told};

use crate::found::Found;
use algol_cells::{Blocks, Use};
use algol_scope::Scopes;
use algol_sorts::Sort;
use algol_tree::Kind;
use std::alloc::{AllocError, Global};

/// What the name of a procedure is on the left of an assignment: its result.
fn result_sort(of: Option<Kind>) -> Sort
    ensures { (lows : List ℤ) (number : ℕ) → sort_as result lows number ≡ plain.variable }
{
    match of {
        None => Sort::Unspecified,
        Some(kind) => Sort::Variable(kind),
    }
}

/// The use of a name on the left of an assignment: a typed procedure's name is its result, a cell of its own block.
fn left_use(u: Use, blocks: &Blocks<'_>) -> Use
    ensures { (lows : token.Spot → List ℤ) → used lows (number_at (blocks_in blocks.now)) result ≡ left_or true (used lows (number_at (blocks_in blocks.now)) u) }
{
    match u.sort {
        Sort::Procedure(kind) => Use {
            spot: u.spot,
            block: blocks.number_at(u.declared),
            up: u.up.saturating_sub(1),
            sort: result_sort(kind),
            declared: u.declared,
        },
        _ => u,
    }
}

/// The same of a name that stands on the left, or not.
fn left_if(is_left: bool, u: Use, blocks: &Blocks<'_>) -> Use
    ensures { (lows : token.Spot → List ℤ) → used lows (number_at (blocks_in blocks.now)) result ≡ left_or is_left (used lows (number_at (blocks_in blocks.now)) u) }
{
    if is_left { left_use(u, blocks) } else { u }
}

/// The use of a name that is found in a tree, none where the scopes tell no declaration of it. The block of level n has n - 1 blocks around
/// what stands in it.
fn use_of(found: Found, scopes: &Scopes, blocks: &Blocks<'_>) -> Option<Use>
    ensures { (lows : token.Spot → List ℤ) → used_by lows (number_at (blocks_in blocks.now)) result ≡ use_told (declaration_of scopes.now) lows (blocks_in blocks.now) found }
{
    match scopes.declaration(found.spot) {
        None => None,
        Some(declared) => {
            let around = (declared.level as usize).saturating_sub(1);
            let own = Use {
                spot: found.spot,
                block: declared.block,
                up: found.around.saturating_sub(around),
                sort: declared.sort,
                declared: declared.spot,
            };
            Some(left_if(found.is_left, own, blocks))
        }
    }
}

/// A use, if there is one, after others.
fn push(uses: &mut Vec<Use>, u: Option<Use>) -> Result<(), AllocError>
    ensures { OnOk result ((lows : token.Spot → List ℤ) (number : token.Spot → ℕ) → map (used lows number) uses.new.items ≡ map (used lows number) uses.old.items ++ used_by lows number u) }
{
    if let Some(u) = u {
        uses.push(u)?;
    }
    Ok(())
}

/// The uses of names that are found in a tree.
pub fn uses_of(
    alloc: Global,
    names: &[Found],
    scopes: &Scopes,
    blocks: &Blocks<'_>,
) -> Result<Vec<Use>, AllocError>
    ensures { IfOk result (λ uses. (lows : token.Spot → List ℤ) → map (used lows (number_at (blocks_in blocks.now))) uses.items ≡ uses_told (declaration_of scopes.now) lows (blocks_in blocks.now) names.now) }
{
    let mut uses = Vec::new(alloc);
    'names: for found in names {
        push(&mut uses, use_of(*found, scopes, blocks))?;
    }
    Ok(uses)
}

//! The lower bounds of the parameters for arrays that are used, by the places where these are declared.

ghost use Rattle.std.specs.Prelude.{◌≡◌, ℕ, map, OnOk, IfOk};
ghost use Rattle.algol_tree.specs.declared.token.Spot as token;
ghost use Rattle.algol_cells.specs.SeenScope.{lows_under, used};
ghost use Rattle.algol_names.specs.Kept.{NamesAdd, kept, lows_there, lows_used};

use algol_cells::{LowerBounds, Use};
use algol_lows::LowsByPlace;
use algol_sorts::Sort;
use algol_tree::Spot;
use std::alloc::{AllocError, Global};
use std::collections::BTreeMap;

/// The lower bounds that are kept of what is declared there, none where none are.
fn kept_at<'p>(lows: &'p LowsByPlace, spot: Spot) -> &'p [i64]
    ensures { result.now ≡ kept lows.now spot }
{
    match lows.get(&spot) {
        None => &[],
        Some(found) => found.list.items().as_slice(),
    }
}

/// These stand under the place, unless some stand there already.
fn add<'p>(table: &mut LowerBounds<'p>, spot: Spot, lows: &'p [i64]) -> Result<(), AllocError>
    ensures { OnOk result (NamesAdd table.old table.new (lows_there spot lows.now)) }
{
    table.entry(spot)?.or_insert(lows);
    Ok(())
}

/// The same of those of a parameter for an array, if it is one that is used.
fn add_used<'p>(
    table: &mut LowerBounds<'p>,
    lows: &'p LowsByPlace,
    u: Use,
) -> Result<(), AllocError>
    ensures { OnOk result (NamesAdd table.old table.new (lows_used (kept lows.now) u)) }
{
    match u.sort {
        Sort::FormalArray(_, _) => add(table, u.declared, kept_at(lows, u.declared)),
        _ => Ok(()),
    }
}

/// The lower bounds of the parameters for arrays that are used.
pub fn lower_bounds<'p>(
    alloc: Global,
    uses: &[Use],
    lows: &'p LowsByPlace,
) -> Result<LowerBounds<'p>, AllocError>
    ensures { IfOk result (λ table. (number : token.Spot → ℕ) → map (used (lows_under table) number) uses.now ≡ map (used (kept lows.now) number) uses.now) }
{
    let mut table = BTreeMap::new(alloc);
    'uses: for u in uses {
        add_used(&mut table, lows, *u)?;
    }
    Ok(table)
}

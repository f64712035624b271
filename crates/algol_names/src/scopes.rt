//! The scopes of a program.

ghost use Rattle.std.specs.Prelude.{◌≡◌, ℕ, ℤ, List, map, IfOk};
ghost use Rattle.algol_tree.specs.declared.token.Spot as token;
ghost use Rattle.algol_tree.specs.Ascending.{IsInOrder};
ghost use Rattle.algol_tree.specs.Blocks.{blocks_of_program, number_at};
ghost use Rattle.algol_tree.specs.Image.{body, program};
ghost use Rattle.algol_tree.specs.Scopes as scoping;
ghost use Rattle.algol_scope.specs.Resolved.{AreOf, declaration_of};
ghost use Rattle.algol_paths.specs.Arrays.{lows_at};
ghost use Rattle.algol_lows.specs.Lows.{lows_found_under};
ghost use Rattle.algol_cells.specs.SeenScope.{lows_under, scoped, used};
ghost use Rattle.algol_names.specs.Blocks.{blocks_in};
ghost use Rattle.algol_names.specs.Found.{in_body};
ghost use Rattle.algol_names.specs.Kept.{kept};
ghost use Rattle.algol_names.specs.Meant.{uses_told};

use crate::blocks::blocks_of;
use crate::bounds::lower_bounds;
use crate::statements::names_of;
use crate::uses::uses_of;
use algol_cells::{Blocks, LowerBounds, Scopes, Use, Uses};
use algol_lows::LowsByPlace;
use algol_scope::Scopes as Resolved;
use algol_tree::Program;
use std::alloc::{AllocError, Global};

/// The blocks of a program, each to be found by its place.
fn placed_blocks<'p>(alloc: Global, p: &'p Program) -> Result<Blocks<'p>, AllocError>
    ensures { IfOk result (λ blocks. blocks_in blocks ≡ blocks_of_program (program p.now)) }
{
    let list = blocks_of(alloc, p)?;
    Blocks::of(alloc, list)
}

/// The uses of the names of a program.
fn program_uses(
    alloc: Global,
    p: &Program,
    resolved: &Resolved,
    blocks: &Blocks<'_>,
) -> Result<Vec<Use>, AllocError>
    ensures { IfOk result (λ uses. (lows : token.Spot → List ℤ) → map (used lows (number_at (blocks_in blocks.now))) uses.items ≡ uses_told (declaration_of resolved.now) lows (blocks_in blocks.now) (in_body (body (p.now).body) 1)) }
{
    let names = names_of(alloc, &p.body)?;
    uses_of(alloc, names.as_slice(), resolved, blocks)
}

/// The lower bounds of the parameters for arrays that are used, and these uses, each to be found by its place.
fn placed_uses<'p>(
    alloc: Global,
    found: Vec<Use>,
    lows: &'p LowsByPlace,
) -> Result<(Uses, LowerBounds<'p>), AllocError>
    ensures { IfOk result (λ placed. (number : token.Spot → ℕ) → map (used (lows_under placed.1) number) placed.0.list.items ≡ map (used (kept lows.now) number) found.items) }
{
    let bounds = lower_bounds(alloc, found.as_slice(), lows)?;
    let uses = Uses::of(alloc, found)?;
    Ok((uses, bounds))
}

/// The scopes of a program, as a run looks them up: its blocks in the order of the text, and the uses of names. What each name means is told
/// by the scopes that the rules were looked at by, and the lower bounds of parameters that stand for arrays by their table.
///
/// # Errors
///
/// Want of memory.
pub fn scopes_of<'p>(
    alloc: Global,
    p: &'p Program,
    resolved: &Resolved,
    lows: &'p LowsByPlace,
) -> Result<Scopes<'p>, AllocError>
    requires are { AreOf (program p.now) resolved.now }
    requires order { IsInOrder (program p.now) }
    requires bounds { (spot : token.Spot) → lows_found_under lows.now spot ≡ lows_at (blocks_of_program (program p.now)) spot }
    ensures { IfOk result (λ scopes. scoped scopes ≡ scoping.scopes_of (program p.now)) }
{
    let blocks = placed_blocks(alloc, p)?;
    let found = program_uses(alloc, p, resolved, &blocks)?;
    let placed = placed_uses(alloc, found, lows)?;
    Ok(Scopes {
        blocks,
        uses: placed.0,
        lows: placed.1,
    })
}

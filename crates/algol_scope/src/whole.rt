//! Scopes, from the walk over a tree.

ghost use Rattle.std.specs.Prelude.{◌≡◌, ℕ, ◌<◌, ◌≤◌, length, IfErr, IfOk, OnOk};
ghost use Rattle.algol_tree.specs.Accepted.{broken, noted_all};
ghost use Rattle.algol_tree.specs.Ascending.{IsInOrder};
ghost use Rattle.algol_tree.specs.Image as image;
ghost use Rattle.algol_tree.specs.Names.{program_segment};
ghost use Rattle.algol_tree.specs.declared.TheConstants.{MOST_BLOCK_CELLS};
ghost use Rattle.algol_tree.specs.declared.refusal.Code.TheVariants as codes;
ghost use Rattle.algol_tree.specs.declared.refusal.Refusal.TheVariants as refusals;
ghost use Rattle.algol_scope.specs.Finding.{WalkHolds, IsNew, limit_faults};
ghost use Rattle.algol_frames.specs.Framing.{framed_cells_in};
ghost use Rattle.algol_frames.specs.Laying.{AreLaid};
ghost use Rattle.algol_scope.specs.Noting.{long_segment};
ghost use Rattle.algol_scope.specs.Resolved.{AreOf, TreeIsRefused};

use crate::resolver::Resolver;
use algol_frames::{
    Cells, Scopes, by_block, note_cells, note_if, note_levels, note_procedures, scopes_laid,
};
use algol_rules::{Faults, program_tokens};
use algol_tree::{Code, MOST_SEGMENT_TOKENS, Program, Refusal};
use b67_list::discard;
use std::alloc::{AllocError, Global};

/// What is found in a whole program.
fn found_in<'p>(alloc: Global, program: &'p Program) -> Result<Resolver<'p>, AllocError>
    requires { IsInOrder (image.program program.now) }
    ensures { IfOk result (λ found. WalkHolds found (image.program program.now)) }
{
    let mut resolver = Resolver::new(alloc);
    match walk(program, &mut resolver) {
        Ok(()) => Ok(resolver),
        Err(error) => {
            discard(resolver);
            Err(error)
        }
    }
}

/// The walk over a whole program, from before its outer block.
fn walk<'p>(program: &'p Program, resolver: &mut Resolver<'p>) -> Result<(), AllocError>
    requires order { IsInOrder (image.program program.now) }
    requires fresh { IsNew resolver.old }
    ensures { OnOk result (WalkHolds resolver.new (image.program program.now)) }
{
    resolver.begun(program.body.spot, false)?;
    resolver.body(&program.body)
}

/// Notes whether the text of the program itself is too long.
fn note_program(program: &Program, faults: &mut Faults)
    ensures { faults.new.first ≡ noted_all faults.old.first (broken codes.SegmentTooLong (long_segment (program_segment (image.program program.now)))) }
{
    note_if(
        program_tokens(program) > MOST_SEGMENT_TOKENS,
        program.body.spot,
        Code::SegmentTooLong,
        faults,
    );
}

/// Notes the limits that are passed by blocks with these cells, and by the program's text.
fn note_limits(
    alloc: Global,
    program: &Program,
    found: &mut Resolver,
    cells: &Cells,
) -> Result<(), AllocError>
    ensures faults { OnOk result (found.new.findings.faults.first ≡ noted_all found.old.findings.faults.first (limit_faults (image.program program.now) found.old.blocks.items cells.now)) }
    ensures kept_blocks { found.new.blocks ≡ found.old.blocks }
    ensures kept_cells { found.new.findings.cells ≡ found.old.findings.cells }
    ensures kept_uses { found.new.findings.uses ≡ found.old.findings.uses }
{
    let blocks = found.blocks.as_slice();
    let faults = &mut found.findings.faults;
    note_levels(blocks, faults);
    note_cells(blocks, cells, faults);
    note_procedures(alloc, blocks, faults)?;
    note_program(program, faults);
    Ok(())
}

/// The scopes of a program whose places are in the order of the text, so that no two blocks begin at one place.
///
/// # Errors
/// The first fault by the rules of names and limits in the order of the text, and at one place that of the rule with the
/// lowest number; or want of memory.
pub fn resolve(alloc: Global, program: &Program) -> Result<Scopes, Refusal>
    requires { IsInOrder (image.program program.now) }
    ensures refused { IfErr result (TreeIsRefused (image.program program.now)) }
    ensures are { IfOk result (AreOf (image.program program.now)) }
{
    let mut found = found_in(alloc, program)?;
    let scopes = scopes_found(alloc, program, &mut found);
    discard(found);
    scopes
}

/// The scopes of a program that the walk has gone over, or its refusal.
fn scopes_found(alloc: Global, program: &Program, found: &mut Resolver) -> Result<Scopes, Refusal>
    requires order { IsInOrder (image.program program.now) }
    requires found { WalkHolds found.old (image.program program.now) }
    ensures refused { IfErr result (TreeIsRefused (image.program program.now)) }
    ensures are { IfOk result (AreOf (image.program program.now)) }
{
    let cells = by_block(alloc, found.findings.cells.as_slice())?;
    note_limits(alloc, program, found, &cells)?;
    match found.findings.faults.refusal() {
        Err(refusal) => Err(refusal),
        Ok(()) => scopes_of(alloc, found, &cells),
    }
}

/// The scopes that the walk found, of blocks with these cells.
fn scopes_of(alloc: Global, found: &Resolver, cells: &Cells) -> Result<Scopes, Refusal>
    requires { (q : ℕ) → q < length found.now.blocks.items → length (framed_cells_in cells.now q) ≤ MOST_BLOCK_CELLS }
    ensures memory { IfErr result (λ refusal. refusal ≡ refusals.NoMemory) }
    ensures laid { IfOk result (AreLaid found.now.blocks.items cells.now found.now.findings.cells.items found.now.findings.uses.items) }
{
    let blocks = found.blocks.as_slice();
    let uses = found.findings.uses.as_slice();
    let all_cells = found.findings.cells.as_slice();
    let scopes = scopes_laid(alloc, blocks, cells, all_cells, uses)?;
    Ok(scopes)
}

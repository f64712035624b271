//! The limits on blocks, procedures and cells.

ghost use Rattle.std.specs.Prelude.{◌≡◌, ℕ, ◌==◌, ◌++◌, IfOk, OnOk, [], if◌then◌else◌};
ghost use Rattle.std.specs.List.{flat_map};
ghost use Rattle.algol_tree.specs.declared.TheConstants.{MOST_BLOCK_CELLS, MOST_PROCEDURES};
ghost use Rattle.algol_tree.specs.declared.refusal.Code.TheVariants as codes;
ghost use Rattle.algol_tree.specs.Accepted.{broken, noted_all};
ghost use Rattle.algol_tree.specs.Names.{place_beyond};
ghost use Rattle.algol_frames.specs.Framing.{beyond_from, framed_cells_in, deep_place, places_of, procedure_place, those_in};

use crate::broken::note_if;
use crate::found::{Block, Cell};
use algol_rules::Faults;
use algol_tree::{Code, MOST_BLOCK_CELLS, MOST_LEVEL, MOST_PROCEDURES, Spot};
use std::alloc::{AllocError, Global};
use std::collections::BTreeMap;

/// The cells of blocks, by the numbers of these.
pub type Cells = BTreeMap<usize, Vec<Cell>>;

/// Notes which blocks are too deep.
pub fn note_levels(blocks: &[Block], faults: &mut Faults)
    ensures { faults.new.first ≡ noted_all faults.old.first (broken codes.TooManyLevels (flat_map deep_place blocks.now)) }
{
    'each: for block in blocks {
        note_if(
            block.level > MOST_LEVEL,
            block.spot,
            Code::TooManyLevels,
            faults,
        );
    }
}

/// One more place, where the block is a procedure's.
fn push_procedure(spots: &mut Vec<Spot>, block: &Block) -> Result<(), AllocError>
    ensures { OnOk result (spots.new.items ≡ spots.old.items ++ procedure_place block.now) }
{
    if block.is_procedure {
        spots.push(block.spot)?;
    }
    Ok(())
}

/// Notes the first of these places of procedures that is beyond the limit.
fn note_place(spots: &[Spot], faults: &mut Faults)
    ensures { faults.new.first ≡ noted_all faults.old.first (broken codes.TooManyProcedures (place_beyond MOST_PROCEDURES spots.now)) }
{
    if let Some(spot) = spots.get(MOST_PROCEDURES) {
        faults.note(*spot, Code::TooManyProcedures);
    }
}

/// Notes the first procedure beyond the limit.
pub fn note_procedures(
    alloc: Global,
    blocks: &[Block],
    faults: &mut Faults,
) -> Result<(), AllocError>
    ensures { OnOk result (faults.new.first ≡ noted_all faults.old.first (broken codes.TooManyProcedures (place_beyond MOST_PROCEDURES (flat_map procedure_place blocks.now)))) }
{
    let mut spots = Vec::new(alloc);
    'procedures: for block in blocks {
        push_procedure(&mut spots, block)?;
    }
    note_place(spots.as_slice(), faults);
    Ok(())
}

// ---- cells

/// The cells of a block, which are taken out of the table.
fn taken(alloc: Global, table: &mut Cells, block: usize) -> Vec<Cell>
    ensures cells { result.items ≡ framed_cells_in table.old block }
    ensures others { (q : ℕ) → framed_cells_in table.new q ≡ (if block == q then [] else framed_cells_in table.old q) }
{
    match table.remove(&block) {
        None => Vec::new(alloc),
        Some(cells) => cells,
    }
}

/// The cells of a block are put into the table.
fn put(table: &mut Cells, block: usize, cells: Vec<Cell>) -> Result<(), AllocError>
    ensures { OnOk result ((q : ℕ) → framed_cells_in table.new q ≡ (if block == q then cells.items else framed_cells_in table.old q)) }
{
    table.insert(block, cells)?;
    Ok(())
}

/// The cells of each block, in the order of the text.
pub fn by_block(alloc: Global, cells: &[Cell]) -> Result<Cells, AllocError>
    ensures { IfOk result (λ table. (q : ℕ) → framed_cells_in table q ≡ those_in cells.now q) }
{
    let mut table: Cells = BTreeMap::new(alloc);
    'cells: for cell in cells {
        let mut those = taken(alloc, &mut table, cell.block);
        those.push(*cell)?;
        put(&mut table, cell.block, those)?;
    }
    Ok(table)
}

/// The cells of the block with this number.
pub fn cells_of(table: &Cells, block: usize) -> &[Cell]
    ensures { result.now ≡ framed_cells_in table.now block }
{
    match table.get(&block) {
        None => &[],
        Some(cells) => cells.as_slice(),
    }
}

/// Notes the first of these cells of a block that is beyond the limit.
fn note_beyond(cells: &[Cell], faults: &mut Faults)
    ensures { faults.new.first ≡ noted_all faults.old.first (broken codes.TooManyCells (place_beyond MOST_BLOCK_CELLS (places_of cells.now))) }
{
    if let Some(cell) = cells.get(MOST_BLOCK_CELLS) {
        faults.note(cell.spot, Code::TooManyCells);
    }
}

/// Notes of each block the first cell beyond the limit.
pub fn note_cells(blocks: &[Block], table: &Cells, faults: &mut Faults)
    ensures { faults.new.first ≡ noted_all faults.old.first (broken codes.TooManyCells (beyond_from table.now 0 blocks.now)) }
{
    'each: for at in 0..blocks.len() {
        note_beyond(cells_of(table, at), faults);
    }
}

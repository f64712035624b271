//! The layout of frames.

ghost use Rattle.std.specs.Prelude.{◌≡◌, ℕ, ◌+◌, ◌<◌, ◌≤◌, ◌^◌, length, OnOk, IfOk};
ghost use Rattle.std.specs.Option.{option_or};
ghost use Rattle.std.specs.BTreeMap.{get};
ghost use Rattle.algol_tree.specs.declared.TheConstants.{MOST_BLOCK_CELLS};
ghost use Rattle.algol_tree.specs.declared.token.Spot as token;
ghost use Rattle.algol_tree.specs.contracts.token.SpotOrd.TheImpl.{ghosts};
ghost use Rattle.algol_frames.specs.ByLine.{placed_in};
ghost use Rattle.algol_frames.specs.Framing.{framed_cells_in};
ghost use Rattle.algol_frames.specs.Laying.{PlaceAdds, AreLaid, actual_from, couple_from, declared_from, framed_in, laid_in, laid_out, levels_of, number_from, parameters_from, result_from, those_holding};

use crate::by_line::ByLine;
use crate::found::{Block, Cell, Content, Use};
use crate::limits::{Cells, cells_of};
use crate::scopes::{Couple, Declared, Scopes};
use algol_sorts::Sort;
use algol_tree::{List, Spot};
use std::alloc::{AllocError, Global};
use std::collections::BTreeMap;

/// The couples of the cells of one block, by their places.
type Frame = BTreeMap<Spot, Couple>;

/// The index of the first cell of a frame: a mark and the place to return to stand before it.
const FIRST_INDEX: u16 = 2;

/// The couple stands under the place, unless one stands there already.
fn add(frame: &mut Frame, spot: Spot, couple: Couple) -> Result<(), AllocError>
    ensures { OnOk result (PlaceAdds frame.old frame.new spot (Some couple)) }
{
    frame.entry(spot)?.or_insert(couple);
    Ok(())
}

/// The same of a couple that may be missing.
fn add_found(frame: &mut Frame, spot: Spot, couple: Option<Couple>) -> Result<(), AllocError>
    ensures { OnOk result (PlaceAdds frame.old frame.new spot couple) }
{
    match couple {
        None => Ok(()),
        Some(couple) => add(frame, spot, couple),
    }
}

// ---- frames

/// The cells that hold this lie next in the frame, from the index on. Answers the index after them.
fn lay_out_those(
    frame: &mut Frame,
    cells: &[Cell],
    content: Content,
    level: u8,
    first: u16,
) -> Result<u16, AllocError>
    requires { first + length cells.now < 2 ^ 16 }
    ensures index { IfOk result (λ index. index ≡ first + length (those_holding content cells.now)) }
    ensures frame { OnOk result ((q : token.Spot) → get ghosts.cmp frame.new q ≡ option_or (get ghosts.cmp frame.old q) (couple_from level first (those_holding content cells.now) q)) }
{
    let mut index = first;
    'cells: for cell in cells {
        if cell.content == content {
            add(frame, cell.spot, Couple { level, index })?;
            index += 1;
        }
    }
    Ok(index)
}

/// The frame of a block of this level with these cells: first those that need no action, then those that actions make.
fn lay_out(alloc: Global, cells: &[Cell], level: u8) -> Result<Frame, AllocError>
    requires { length cells.now ≤ MOST_BLOCK_CELLS }
    ensures { IfOk result (λ frame. (q : token.Spot) → get ghosts.cmp frame q ≡ couple_from level FIRST_INDEX (laid_out cells.now) q) }
{
    let mut frame = BTreeMap::new(alloc);
    let index = lay_out_those(&mut frame, cells, Content::Parameter, level, FIRST_INDEX)?;
    let index = lay_out_those(&mut frame, cells, Content::Result, level, index)?;
    let index = lay_out_those(&mut frame, cells, Content::Variable, level, index)?;
    let index = lay_out_those(&mut frame, cells, Content::Procedure, level, index)?;
    let index = lay_out_those(&mut frame, cells, Content::Actual, level, index)?;
    lay_out_those(&mut frame, cells, Content::Made, level, index)?;
    Ok(frame)
}

/// The frames of these blocks, which have these cells.
fn frames_of(alloc: Global, blocks: &[Block], cells: &Cells) -> Result<Vec<Frame>, AllocError>
    requires { (q : ℕ) → q < length blocks.now → length (framed_cells_in cells.now q) ≤ MOST_BLOCK_CELLS }
    ensures { IfOk result (λ frames. (q : ℕ) (spot : token.Spot) → framed_in frames.items q spot ≡ laid_in blocks.now cells.now q spot) }
{
    let mut frames = Vec::new(alloc);
    'each: for at in 0..blocks.len() {
        frames.push(lay_out(alloc, cells_of(cells, at), blocks[at].level)?)?;
    }
    Ok(frames)
}

/// The couple of the cell of this block that stands there.
fn couple_in(frames: &[Frame], block: usize, spot: Spot) -> Option<Couple>
    ensures { result ≡ framed_in frames.now block spot }
{
    frames.get(block)?.get(&spot).copied()
}

// ---- what is found in frames

/// The declaration that each name means, by the place of the name.
fn declared(alloc: Global, frames: &[Frame], uses: &[Use]) -> Result<ByLine, AllocError>
    ensures { IfOk result (λ table. (q : token.Spot) → placed_in table q ≡ declared_from (framed_in frames.now) uses.now q) }
{
    let mut declared = ByLine::new(alloc);
    'uses: for found in uses {
        let declaration = Declared {
            spot: found.declared,
            block: found.block,
            level: found.level,
            sort: found.sort,
            couple: couple_in(frames, found.block, found.declared),
        };
        declared.add(alloc, found.spot, declaration)?;
    }
    Ok(declared)
}

/// The couples of actuals, by the places of their first tokens.
fn actuals(
    alloc: Global,
    frames: &[Frame],
    cells: &[Cell],
) -> Result<BTreeMap<Spot, Couple>, AllocError>
    ensures { IfOk result (λ table. (q : token.Spot) → get ghosts.cmp table q ≡ actual_from (framed_in frames.now) cells.now q) }
{
    let mut actuals = BTreeMap::new(alloc);
    'cells: for cell in cells {
        if cell.content == Content::Actual {
            let couple = couple_in(frames, cell.block, cell.spot);
            add_found(&mut actuals, cell.spot, couple)?;
        }
    }
    Ok(actuals)
}

/// The couples of results, by the places of the names of their procedures.
fn results(
    alloc: Global,
    frames: &[Frame],
    blocks: &[Block],
) -> Result<BTreeMap<Spot, Couple>, AllocError>
    ensures { IfOk result (λ table. (q : token.Spot) → get ghosts.cmp table q ≡ result_from (framed_in frames.now) 0 blocks.now q) }
{
    let mut results = BTreeMap::new(alloc);
    'each: for at in 0..blocks.len() {
        let spot = blocks[at].spot;
        let couple = couple_in(frames, at, spot);
        add_found(&mut results, spot, couple)?;
    }
    Ok(results)
}

/// The list stands under the place, unless one stands there already.
fn add_list(
    table: &mut BTreeMap<Spot, List<Sort>>,
    spot: Spot,
    list: List<Sort>,
) -> Result<(), AllocError>
    ensures { OnOk result (PlaceAdds table.old table.new spot (Some list)) }
{
    table.entry(spot)?.or_insert(list);
    Ok(())
}

/// The same list.
fn copied(list: &List<Sort>) -> Result<List<Sort>, AllocError>
    ensures { IfOk result (λ copy. copy ≡ list.now) }
{
    Ok(List::of(list.items().clone()?))
}

/// The same of a list that may be missing.
fn add_told(
    table: &mut BTreeMap<Spot, List<Sort>>,
    spot: Spot,
    list: &Option<List<Sort>>,
) -> Result<(), AllocError>
    ensures { OnOk result (PlaceAdds table.old table.new spot list.now) }
{
    match list {
        None => Ok(()),
        Some(list) => add_list(table, spot, copied(list)?),
    }
}

/// What the parameters of procedures are declared as, by the places of the names of these.
fn parameters(alloc: Global, uses: &[Use]) -> Result<BTreeMap<Spot, List<Sort>>, AllocError>
    ensures { IfOk result (λ table. (q : token.Spot) → get ghosts.cmp table q ≡ parameters_from uses.now q) }
{
    let mut parameters = BTreeMap::new(alloc);
    'uses: for found in uses {
        add_told(&mut parameters, found.spot, &found.parameters)?;
    }
    Ok(parameters)
}

/// The number stands under the place, unless one stands there already.
fn add_number(
    table: &mut BTreeMap<Spot, usize>,
    spot: Spot,
    number: usize,
) -> Result<(), AllocError>
    ensures { OnOk result (PlaceAdds table.old table.new spot (Some number)) }
{
    table.entry(spot)?.or_insert(number);
    Ok(())
}

/// The numbers of the blocks, by the places where these begin.
fn numbers(alloc: Global, blocks: &[Block]) -> Result<BTreeMap<Spot, usize>, AllocError>
    ensures { IfOk result (λ table. (q : token.Spot) → get ghosts.cmp table q ≡ number_from 0 blocks.now q) }
{
    let mut numbers = BTreeMap::new(alloc);
    'each: for at in 0..blocks.len() {
        add_number(&mut numbers, blocks[at].spot, at)?;
    }
    Ok(numbers)
}

/// The levels of the blocks.
fn levels(alloc: Global, blocks: &[Block]) -> Result<Vec<u8>, AllocError>
    ensures { IfOk result (λ levels. levels.items ≡ levels_of blocks.now) }
{
    let mut levels = Vec::new(alloc);
    'each: for block in blocks {
        levels.push(block.level)?;
    }
    Ok(levels)
}

/// The scopes of these blocks, which have these cells by the table, and of all cells and names.
pub fn scopes_laid(
    alloc: Global,
    blocks: &[Block],
    table: &Cells,
    cells: &[Cell],
    uses: &[Use],
) -> Result<Scopes, AllocError>
    requires { (q : ℕ) → q < length blocks.now → length (framed_cells_in table.now q) ≤ MOST_BLOCK_CELLS }
    ensures { IfOk result (AreLaid blocks.now table.now cells.now uses.now) }
{
    let framed = frames_of(alloc, blocks, table)?;
    let frames = framed.as_slice();
    Ok(Scopes {
        declared: declared(alloc, frames, uses)?,
        actuals: actuals(alloc, frames, cells)?,
        results: results(alloc, frames, blocks)?,
        levels: levels(alloc, blocks)?,
        parameters: parameters(alloc, uses)?,
        numbers: numbers(alloc, blocks)?,
    })
}

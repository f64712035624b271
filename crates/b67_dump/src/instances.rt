//! The lines of an instance.

ghost use Rattle.std.specs.Prelude.{◌≡◌, ◌++◌, IfOk, OnOk};
ghost use Rattle.algol_tree.specs.Blocks.{block_numbered};
ghost use Rattle.algol_cells.specs.SeenScope.{block_or_none, scoped};
ghost use Rattle.algol_instances.specs.SeenInstance.{instance};
ghost use Rattle.b67_dump.specs.Snapshots.{head_line, instance_lines, unless_left};

use crate::blocks::push_block;
use crate::parts::push_spot;
use algol_cells::{Block, Scopes};
use algol_instances::Instance;
use algol_tree::Spot;
use b67_list::{Line, push_number};
use std::alloc::{AllocError, Global};

/// Where a block begins, and 0:0 where there is none.
fn spot_of(block: Option<&Block<'_>>) -> Spot
    ensures { result ≡ (block_or_none block.entry).spot }
{
    match block {
        None => Spot { line: 0, column: 0 },
        Some(block) => block.spot,
    }
}

/// The line of an instance of that number.
fn head_line(
    alloc: Global,
    number: usize,
    x: &Instance<'_>,
    block: Option<&Block<'_>>,
) -> Result<Line, AllocError>
    ensures { IfOk result (λ line. line ≡ head_line number (instance x.now) (block_or_none block.entry)) }
{
    let mut text = Vec::new(alloc);
    push_number(&mut text, b"INSTANCE ", number)?;
    push_number(&mut text, b" PROCESS ", x.process)?;
    push_number(&mut text, b" PARENT ", x.parent)?;
    text.extend_from_slice(b" AT ")?;
    push_spot(&mut text, spot_of(block))?;
    Ok(Line::of(text))
}

/// Appends the lines of an instance of that number: of its cells too where its block is there.
fn push_instance(
    alloc: Global,
    lines: &mut Vec<Line>,
    number: usize,
    x: &Instance<'_>,
    block: Option<&Block<'_>>,
) -> Result<(), AllocError>
    ensures { OnOk result (lines.new.items ≡ lines.old.items ++ instance_lines number (instance x.now) (block_or_none block.entry)) }
{
    lines.push(head_line(alloc, number, x, block)?)?;
    match block {
        None => Ok(()),
        Some(block) => push_block(alloc, lines, x.cells.items(), block),
    }
}

/// Appends the lines of an instance of that number, unless it is left.
pub fn push_unless_left(
    alloc: Global,
    lines: &mut Vec<Line>,
    scopes: &Scopes<'_>,
    number: usize,
    x: &Instance<'_>,
) -> Result<(), AllocError>
    ensures { OnOk result (lines.new.items ≡ lines.old.items
        ++ unless_left x.now.left (instance_lines number (instance x.now) (block_numbered (scoped scopes.now).blocks x.now.block))) }
{
    if x.left {
        Ok(())
    } else {
        push_instance(alloc, lines, number, x, scopes.blocks.get(x.block))
    }
}

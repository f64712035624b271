//! The cells of an instance, in the order of declaration.

ghost use Rattle.std.specs.Prelude.{◌≡◌, ◌++◌, map, OnOk};
ghost use Rattle.algol_meaning.specs.SeenTree.{decl, decls};
ghost use Rattle.algol_cells.specs.SeenScope as scope;
ghost use Rattle.algol_instances.specs.SeenInstance.{named_cells};
ghost use Rattle.b67_dump.specs.Seen.{cell_found};
ghost use Rattle.b67_dump.specs.Snapshots.{cell_named, lines_named, named_lines, texts_of_names, texts_in_declaration, declared_in, parameter_names, result_names, shown_names};

use crate::cells::push_cell;
use algol_cells::{Block, Cell, Owner, Parameter};
use algol_instances::NamedCell;
use algol_meaning::same_name;
use algol_tree::{Decl, Named};
use b67_list::Line;
use std::alloc::{AllocError, Global};

/// The cell of that name, none where it has not come to be.
fn cell_named<'a, 'p>(cells: &'a [NamedCell<'p>], name: &Line) -> Option<&'a Cell<'p>>
    ensures { cell_found result ≡ cell_named (named_cells cells.now) name.now }
{
    'searching: for c in cells {
        if same_name(c.name, name) {
            return Some(&c.cell);
        }
    }
    None
}

/// Appends the lines of the cell of that name, if it has come to be.
fn push_named(
    alloc: Global,
    lines: &mut Vec<Line>,
    cells: &[NamedCell<'_>],
    name: &Line,
) -> Result<(), AllocError>
    ensures { OnOk result (lines.new.items ≡ lines.old.items ++ lines_named (named_cells cells.now) name.now) }
{
    match cell_named(cells, name) {
        None => Ok(()),
        Some(cell) => push_cell(alloc, lines, name, cell),
    }
}

/// Appends the lines of the cells of these names.
fn push_names(
    alloc: Global,
    lines: &mut Vec<Line>,
    cells: &[NamedCell<'_>],
    names: &[Named],
) -> Result<(), AllocError>
    ensures { OnOk result (lines.new.items ≡ lines.old.items ++ named_lines (named_cells cells.now) (texts_of_names names.now)) }
{
    'names: for n in names {
        push_named(alloc, lines, cells, &n.name)?;
    }
    Ok(())
}

/// Appends the lines of the cells of parameters.
fn push_parameters(
    alloc: Global,
    lines: &mut Vec<Line>,
    cells: &[NamedCell<'_>],
    parameters: &[Parameter<'_>],
) -> Result<(), AllocError>
    ensures { OnOk result (lines.new.items ≡ lines.old.items ++ named_lines (named_cells cells.now) (parameter_names (map scope.parameter parameters.now))) }
{
    'parameters: for p in parameters {
        push_named(alloc, lines, cells, p.name)?;
    }
    Ok(())
}

/// Appends the line of the result of a typed procedure.
fn push_result(
    alloc: Global,
    lines: &mut Vec<Line>,
    cells: &[NamedCell<'_>],
    owner: Option<Owner<'_>>,
) -> Result<(), AllocError>
    ensures { OnOk result (lines.new.items ≡ lines.old.items ++ named_lines (named_cells cells.now) (result_names (scope.result_of_owner owner.entry) (scope.name_of owner.entry))) }
{
    match owner {
        None => Ok(()),
        Some(owner) => {
            if owner.result.is_some() {
                push_named(alloc, lines, cells, owner.name)
            } else {
                Ok(())
            }
        }
    }
}

/// Appends the lines of the cells that a declaration has.
fn push_declared(
    alloc: Global,
    lines: &mut Vec<Line>,
    cells: &[NamedCell<'_>],
    d: &Decl,
) -> Result<(), AllocError>
    ensures { OnOk result (lines.new.items ≡ lines.old.items ++ named_lines (named_cells cells.now) (texts_in_declaration (decl d.now))) }
{
    match d {
        Decl::Simple(_, names) => push_names(alloc, lines, cells, names.items()),
        Decl::Events(names) => push_names(alloc, lines, cells, names.items()),
        Decl::Tasks(names) => push_names(alloc, lines, cells, names.items()),
        Decl::Arrays(_, names, _) => push_names(alloc, lines, cells, names.items()),
        Decl::Files(_) | Decl::Labels(_) | Decl::Forward(_) | Decl::Procedure(_, _) => Ok(()),
    }
}

/// Appends the lines of the cells that declarations have.
fn push_declarations(
    alloc: Global,
    lines: &mut Vec<Line>,
    cells: &[NamedCell<'_>],
    ds: &[Decl],
) -> Result<(), AllocError>
    ensures { OnOk result (lines.new.items ≡ lines.old.items ++ named_lines (named_cells cells.now) (declared_in (decls ds.now))) }
{
    'declarations: for d in ds {
        push_declared(alloc, lines, cells, d)?;
    }
    Ok(())
}

/// Appends the lines of the cells of an instance of a block.
pub fn push_block(
    alloc: Global,
    lines: &mut Vec<Line>,
    cells: &[NamedCell<'_>],
    block: &Block<'_>,
) -> Result<(), AllocError>
    ensures { OnOk result (lines.new.items ≡ lines.old.items ++ named_lines (named_cells cells.now) (shown_names (scope.block block.now))) }
{
    push_parameters(alloc, lines, cells, block.parameters.items())?;
    push_result(alloc, lines, cells, block.owner)?;
    push_declarations(alloc, lines, cells, block.decls)
}

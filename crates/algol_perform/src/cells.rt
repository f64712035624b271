//! The cells of a new instance.

ghost use Rattle.std.specs.Prelude.{◌≡◌, ◌++◌, map, slice_get, IfOk};
ghost use Rattle.algol_meaning.specs.Value.{initial_value};
ghost use Rattle.algol_meaning.specs.Instances as instances;
ghost use Rattle.algol_meaning.specs.SeenTree.{decl, decls};
ghost use Rattle.algol_cells.specs.SeenValue.{value};
ghost use Rattle.algol_cells.specs.Shown.{shown_cell};
ghost use Rattle.algol_cells.specs.SeenCell as seen;
ghost use Rattle.algol_cells.specs.SeenScope.{parameter, block};
ghost use Rattle.algol_instances.specs.SeenInstance.{named_cells};
ghost use Rattle.algol_perform.specs.Making.{declared_cells};

use algol_cells::{Block, Cell, Parameter, Value};
use algol_instances::NamedCell;
use algol_tree::{Decl, Kind, Named, Whole};
use std::alloc::{AllocError, Global};

/// What a variable starts as.
fn initial(kind: Kind) -> Value
    ensures { value result ≡ initial_value kind }
{
    match kind {
        Kind::Number => Value::Number(Whole::zero()),
        Kind::Truth => Value::Truth(false),
    }
}

/// The parameter of that number, none where there are not so many.
fn parameter_at<'a, 'p>(parameters: &'a [Parameter<'p>], number: usize) -> Option<&'a Parameter<'p>>
    ensures { shown_cell result ≡ slice_get parameters.now number }
{
    parameters.get(number)
}

/// The cells of parameters, in their order.
fn parameter_cells<'p>(
    alloc: Global,
    parameters: &[Parameter<'p>],
    cells: Vec<Cell<'p>>,
) -> Result<Vec<NamedCell<'p>>, AllocError>
    ensures { IfOk result (λ named. named_cells named.items ≡ instances.parameter_cells (map parameter parameters.now) (map seen.cell cells.entry.items)) }
{
    let mut named = Vec::new(alloc);
    'giving: for cell in cells {
        match parameter_at(parameters, named.len()) {
            None => return Ok(named),
            Some(parameter) => named.push(NamedCell {
                name: parameter.name,
                cell,
            })?,
        }
    }
    Ok(named)
}

/// The cells of variables that are declared together, after other cells.
#[tactic(auto, using(crate::proofs::Fresh::cell_laws))]
fn add_simple<'p>(
    cells: &mut Vec<NamedCell<'p>>,
    kind: Kind,
    names: &'p [Named],
) -> Result<(), AllocError>
    ensures { IfOk result (λ _. named_cells cells.new.items ≡ named_cells cells.old.items ++ instances.initial_cells kind names.now) }
{
    'naming: for n in names {
        cells.push(NamedCell {
            name: &n.name,
            cell: Cell::Simple(initial(kind)),
        })?;
    }
    Ok(())
}

/// The cells that a declaration brings, after other cells.
#[tactic(auto, using(crate::proofs::Fresh::cell_laws))]
fn add_declared<'p>(cells: &mut Vec<NamedCell<'p>>, d: &'p Decl) -> Result<(), AllocError>
    ensures { IfOk result (λ _. named_cells cells.new.items ≡ named_cells cells.old.items ++ declared_cells (decl d.now)) }
{
    match d {
        Decl::Simple(kind, ns) => add_simple(cells, *kind, ns.items()),
        Decl::Files(_) => Ok(()),
        Decl::Events(_) => Ok(()),
        Decl::Tasks(_) => Ok(()),
        Decl::Labels(_) => Ok(()),
        Decl::Arrays(_, _, _) => Ok(()),
        Decl::Forward(_) => Ok(()),
        Decl::Procedure(_, _) => Ok(()),
    }
}

/// The cells of the variables that are declared, after other cells.
#[tactic(auto, using(crate::proofs::Fresh::cell_laws))]
fn add_variables<'p>(cells: &mut Vec<NamedCell<'p>>, all: &'p [Decl]) -> Result<(), AllocError>
    ensures { IfOk result (λ _. named_cells cells.new.items ≡ named_cells cells.old.items ++ instances.variable_cells (decls all.now)) }
{
    'declaring: for d in all {
        add_declared(cells, d)?;
    }
    Ok(())
}

/// The cell of a typed procedure's result, after other cells.
#[tactic(auto, using(crate::proofs::Fresh::cell_laws))]
fn add_result<'p>(cells: &mut Vec<NamedCell<'p>>, of: &Block<'p>) -> Result<(), AllocError>
    ensures { IfOk result (λ _. named_cells cells.new.items ≡ named_cells cells.old.items ++ instances.result_cells ((block of.now).result) ((block of.now).name)) }
{
    if let Some(owner) = of.owner {
        if let Some(kind) = owner.result {
            cells.push(NamedCell {
                name: owner.name,
                cell: Cell::Simple(initial(kind)),
            })?;
        }
    }
    Ok(())
}

/// The cells of a new instance of a block, whose parameters hold these: parameters, the result, simple variables.
#[tactic(auto, using(crate::proofs::Fresh::cell_laws))]
pub fn fresh_cells<'p>(
    alloc: Global,
    of: &Block<'p>,
    given: Vec<Cell<'p>>,
) -> Result<Vec<NamedCell<'p>>, AllocError>
    ensures { IfOk result (λ cells. named_cells cells.items ≡ instances.fresh_cells (block of.now) (map seen.cell given.entry.items)) }
{
    let mut cells = parameter_cells(alloc, of.parameters.items(), given)?;
    add_result(&mut cells, of)?;
    add_variables(&mut cells, of.decls)?;
    Ok(cells)
}

//! The scopes of a tree, as they are looked up while it runs.

ghost use Rattle.std.specs.Prelude.{◌≡◌, ℕ, ℤ, List, map, slice_get};
ghost use Rattle.algol_tree.specs.Sorts as sorts;
ghost use Rattle.algol_tree.specs.Scopes as scoping;
ghost use Rattle.algol_meaning.specs.Settle as settling;
ghost use Rattle.algol_cells.specs.Shown.{shown_cell};
ghost use Rattle.algol_cells.specs.SeenScope.{sort_as, is_by_value, by_value_or_none, lows_in_sort, lows_under, used_in, scoped, parameter, result_of_owner, block_or_none};

use crate::table::{Blocks, LowerBounds, Uses};
use algol_sorts::Sort;
use algol_tree::{Decl, Heading, Kind, Line, List, Named, Spot, Stmt};

/// A use of a name: where it stands, the number of the block that declares the name, how many static parents
/// up that is, what the name is declared as, and where it is declared.
#[derive(Clone, Copy)]
pub struct Use {
    pub spot: Spot,
    pub block: usize,
    pub up: usize,
    pub sort: Sort,
    pub declared: Spot,
}

/// A parameter: its name, what it is declared as, and the heading that declares it, whose specifications have its lower
/// bounds where it stands for an array.
#[derive(Clone, Copy)]
pub struct Parameter<'p> {
    pub name: &'p Line,
    pub sort: Sort,
    pub heading: &'p Heading,
}

/// The statements of a block: a list, or the one that is a procedure's body.
#[derive(Clone, Copy)]
pub enum BlockStatements<'p> {
    All(&'p [Stmt]),
    One(&'p Stmt),
}

/// The procedure whose block it is: its name, and the type of its result where it has one.
#[derive(Clone, Copy)]
pub struct Owner<'p> {
    pub name: &'p Line,
    pub result: Option<Kind>,
}

/// A block of the text: where it stands, and where the blocks around it stand, the innermost first. The outer
/// block and that of a BEGIN have no owner.
#[derive(Drop)]
pub struct Block<'p> {
    pub spot: Spot,
    pub outer: List<Spot>,
    pub owner: Option<Owner<'p>>,
    pub parameters: List<Parameter<'p>>,
    pub decls: &'p [Decl],
    pub stmts: BlockStatements<'p>,
}

/// The blocks of a tree in the order of the text, the uses of names, and the lower bounds of the parameters for arrays
/// that are used.
#[derive(Drop)]
pub struct Scopes<'p> {
    pub blocks: Blocks<'p>,
    pub uses: Uses,
    pub lows: LowerBounds<'p>,
}

/// Tests that what is so declared is a parameter that stands for something else.
fn is_formal(sort: Sort) -> bool
    ensures { (lows : List ℤ) (number : ℕ) → result ≡ sorts.is_formal (sort_as sort lows number) }
{
    match sort {
        Sort::ByName(_) => true,
        Sort::FormalArray(_, _) => true,
        Sort::FormalEvent => true,
        _ => false,
    }
}

/// Tests that a parameter that is so declared is by value.
fn is_by_value(sort: Sort) -> bool
    ensures { result ≡ is_by_value sort }
{
    match sort {
        Sort::Variable(_) => true,
        Sort::Unspecified => true,
        _ => false,
    }
}

impl<'p> Scopes<'p> {
    /// What the use of a name means, a variable of the same block where it is no use of the tree.
    #[tactic(auto, unfolding(crate::specs::SeenScope::uses_by))]
    pub fn use_of(&self, n: &Named) -> Use
        ensures { used_in self.now result ≡ scoping.use_of (scoped self.now) n.now }
    {
        match self.uses.first_at(n.spot) {
            Some(found) => found,
            None => Use {
                spot: n.spot,
                block: 0,
                up: 0,
                sort: Sort::Unspecified,
                declared: n.spot,
            },
        }
    }

    /// The number of the block of the procedure that is used, none where it is no procedure.
    fn procedure_of(&self, found: Use) -> Option<usize>
        ensures { result ≡ sorts.procedure_in ((used_in self.now found).sort) }
    {
        match found.sort {
            Sort::Procedure(_) => Some(self.blocks.number_at(found.declared)),
            _ => None,
        }
    }

    /// The lower bounds of the parameter that is declared there, none where none are known.
    fn lows_at(&self, spot: Spot) -> &'p [i64]
        ensures { result.now ≡ lows_under self.now.lows spot }
    {
        match self.lows.get(&spot) {
            None => &[],
            Some(lows) => *lows,
        }
    }

    /// The lower bounds of the parameter for an array that is used, none where it is no such parameter.
    fn lows_of(&self, found: Use) -> Option<&'p [i64]>
        ensures { shown_cell result ≡ lows_in_sort ((used_in self.now found).sort) }
    {
        match found.sort {
            Sort::FormalArray(_, _) => Some(self.lows_at(found.declared)),
            _ => None,
        }
    }

    /// The number of the block of the procedure that a name is, none where it is no procedure.
    pub fn procedure(&self, n: &Named) -> Option<usize>
        ensures { result ≡ sorts.procedure_in (settling.sort_at (scoped self.now) n.now) }
    {
        self.procedure_of(self.use_of(n))
    }

    /// The lower bounds from which the subscripts of a parameter for an array count, none where a name is no such
    /// parameter.
    pub fn lows(&self, n: &Named) -> Option<&'p [i64]>
        ensures { shown_cell result ≡ lows_in_sort (settling.sort_at (scoped self.now) n.now) }
    {
        self.lows_of(self.use_of(n))
    }

    /// Tests that a name is a parameter that stands for something else.
    pub fn is_formal(&self, n: &Named) -> bool
        ensures { result ≡ sorts.is_formal (settling.sort_at (scoped self.now) n.now) }
    {
        is_formal(self.use_of(n).sort)
    }

    /// Tests that a name is a name parameter.
    pub fn is_by_name(&self, n: &Named) -> bool
        ensures { result ≡ sorts.is_by_name (settling.sort_at (scoped self.now) n.now) }
    {
        self.use_of(n).sort.is_by_name()
    }

    /// The block of the procedure that is called, none where there is no such block.
    pub fn callee(&self, n: &Named) -> Option<&Block<'p>>
        ensures { block_or_none result ≡ settling.callee (scoped self.now) n.now }
    {
        let number = self.procedure(n).unwrap_or(0);
        self.blocks.get(number)
    }

    /// Tests that a parameter of the procedure that is called is by value, none where it has not so many.
    pub fn is_by_value(&self, callee: &Named, number: usize) -> Option<bool>
        ensures { result ≡ by_value_or_none (slice_get (settling.sorts_of ((settling.callee (scoped self.now) callee.now).parameters)) number) }
    {
        match self.callee(callee) {
            None => None,
            Some(block) => block.is_by_value(number),
        }
    }

    /// Tests that the procedure that is called has a result.
    pub fn is_typed(&self, callee: &Named) -> bool
        ensures { result ≡ settling.is_typed (scoped self.now) callee.now }
    {
        match self.callee(callee) {
            None => false,
            Some(block) => block.has_result(),
        }
    }
}

impl<'p> Block<'p> {
    /// Tests that it is the block of a procedure that has a result.
    pub fn has_result(&self) -> bool
        ensures { result ≡ settling.has_result (result_of_owner self.now.owner) }
    {
        match self.owner {
            None => false,
            Some(owner) => owner.result.is_some(),
        }
    }

    /// Tests that a parameter is by value, none where there are not so many.
    #[tactic(auto, using(crate::proofs::Scoping::parameter_laws))]
    pub fn is_by_value(&self, number: usize) -> Option<bool>
        ensures { result ≡ by_value_or_none (slice_get (settling.sorts_of (map parameter self.now.parameters)) number) }
    {
        match self.parameters.items().get(number) {
            None => None,
            Some(parameter) => Some(is_by_value(parameter.sort)),
        }
    }
}

//! What is known around a place in the text.

ghost use Rattle.std.specs.Prelude.{◌≡◌, List, [], ◌∷◌, ◌++◌, Option, None, OnOk, IfOk, map, reverse, not, slice_get};
ghost use Rattle.algol_tree.specs.Classes as classes;
ghost use Rattle.algol_tree.specs.Classes.{Formal};
ghost use Rattle.algol_tree.specs.Sorts as plain;
ghost use Rattle.algol_tree.specs.Sorts.{formals_of};
ghost use Rattle.algol_tree.specs.declared.tree.Heading.{Heading};
ghost use Rattle.algol_tree.specs.Cells as cells;
ghost use Rattle.algol_tree.specs.Image.{expr};
ghost use Rattle.algol_tree.specs.Surroundings.{Surroundings, outermost};
ghost use Rattle.algol_known.specs.declared.known.Seen.{Seen};
ghost use Rattle.algol_known.specs.declared.known.Seen.TheVariants as seens;
ghost use Rattle.algol_known.specs.declared.known.Names.{Names};
ghost use Rattle.algol_known.specs.Looking.{looked_up, open_blocks, modes_in, parameter_sorts_in, level_within, is_announced, class_for, procedure_class};
ghost use Rattle.algol_known.specs.Widening.{Admits, SortStandsFor, Widens, declaring, parameters_so};
ghost use Rattle.algol_known.specs.Seeing.{Sees, KnownHolds, Declares, Introduces, Extends, KnownOpens, IsClass, mode_of, mode_given, name_parameter};

use crate::known::{Class, Entry, Names, Seen};
use algol_sorts::Sort;
use algol_tree::{Expr, Heading, List, Named, Spot};
use std::alloc::{AllocError, Global};
use std::mem;

/// The lexical level of the outer block.
const OUTER_LEVEL: u8 = b67_limits::OUTER_LEVEL;

/// A procedure as its calls see it: what its parameters are declared as.
#[derive(Drop)]
pub struct Procedure {
    pub modes: Vec<Sort>,
}

impl Procedure {
    /// What its parameters are declared as, as a list.
    fn told(&self) -> Result<List<Sort>, AllocError>
        ensures { IfOk result (λ told. told ≡ self.now.modes.items) }
    {
        Ok(List::of(self.modes.clone()?))
    }
}

/// The names of the innermost open block, those of the blocks around it, the innermost last, and the procedures so far, by
/// their numbers.
#[derive(Drop)]
pub struct Around<'p> {
    pub innermost: Names<'p>,
    pub outer: Vec<Names<'p>>,
    pub procedures: Vec<Procedure>,
}

/// Whether there is such a parameter, and it is by name.
fn is_by_name(mode: Option<Sort>) -> bool
    ensures { (f : Option Formal) → mode ≡ mode_given f → result ≡ cells.formal_is_by_name f }
{
    match mode {
        None => false,
        Some(sort) => sort.is_by_name(),
    }
}

/// The declaration of the name in these blocks.
fn look_up<'p>(blocks: &[Names<'p>], name: &'p [u8]) -> Option<Entry>
    ensures { result ≡ looked_up (reverse blocks.now) seens.All name.now }
{
    let (innermost, outer) = blocks.split_last()?;
    if let Some(entry) = innermost.here(name, Seen::All) {
        return Some(entry);
    }
    look_up(outer, name)
}

impl<'p> Around<'p> {
    /// The outer block.
    pub fn new(alloc: Global) -> Around<'p>
        ensures sees { (seen : Seen) → Sees result seen outermost }
        ensures holds { KnownHolds result outermost }
        ensures typed { result.innermost.typed ≡ None }
        ensures outer { result.outer.items ≡ [] }
        ensures procedures { result.procedures.items ≡ [] }
    {
        Around {
            innermost: Names::new(alloc, 0, None),
            outer: Vec::new(alloc),
            procedures: Vec::new(alloc),
        }
    }

    /// The block with this number begins, which is the procedure's that has a result of this name.
    pub fn open(
        &mut self,
        alloc: Global,
        block: usize,
        typed: Option<&'p [u8]>,
    ) -> Result<(), AllocError>
        ensures opens { OnOk result (KnownOpens self.old self.new block) }
        ensures typed { OnOk result (self.new.innermost.typed ≡ typed.entry) }
    {
        let outer = mem::replace(&mut self.innermost, Names::new(alloc, block, typed));
        self.outer.push(outer)?;
        Ok(())
    }

    /// The innermost block ends.
    pub fn close(&mut self)
        ensures outside { (names : Names) (rest : List Names) → self.old.outer.items ≡ rest ++ names ∷ [] → (self.new.innermost ≡ names) × (self.new.outer.items ≡ rest) }
        ensures procedures { self.new.procedures ≡ self.old.procedures }
    {
        if let Some(names) = self.outer.pop() {
            self.innermost = names;
        }
    }

    /// The innermost block declares the name.
    pub fn declare(&mut self, name: &'p [u8], entry: Entry) -> Result<(), AllocError>
        ensures known { OnOk result (Declares self.old self.new name.now entry) }
        ensures before { (a : Surroundings) → Sees self.old seens.BeforeDeclarations a → Sees self.new seens.BeforeDeclarations a }
        ensures outer { self.new.outer ≡ self.old.outer }
        ensures procedures { self.new.procedures ≡ self.old.procedures }
        ensures typed { self.new.innermost.typed ≡ self.old.innermost.typed }
    {
        self.innermost.declare(name, entry)
    }

    /// The innermost block, which declares nothing yet, has a parameter of the name.
    pub fn declare_parameter(&mut self, name: &'p [u8], entry: Entry) -> Result<(), AllocError>
        ensures known { OnOk result (Introduces self.old self.new name.now entry) }
        ensures declared { self.new.innermost.declared ≡ self.old.innermost.declared }
        ensures outer { self.new.outer ≡ self.old.outer }
        ensures procedures { self.new.procedures ≡ self.old.procedures }
        ensures typed { self.new.innermost.typed ≡ self.old.innermost.typed }
    {
        self.innermost.declare_parameter(name, entry)
    }

    /// One more procedure. Answers its number.
    pub fn add(&mut self, modes: Vec<Sort>) -> Result<usize, AllocError>
        ensures more { OnOk result (Extends self.old.procedures.items self.new.procedures.items) }
        ensures class { IfOk result (λ number. (h : Heading) → modes.items ≡ map mode_of (formals_of h) → IsClass self.new.procedures.items (procedure_class number) (classes.procedure h)) }
        ensures innermost { self.new.innermost ≡ self.old.innermost }
        ensures outer { self.new.outer ≡ self.old.outer }
    {
        let number = self.procedures.len();
        self.procedures.push(Procedure { modes })?;
        Ok(number)
    }

    /// The number of the innermost block.
    pub fn block(&self) -> usize
        ensures { result ≡ self.now.innermost.block }
    {
        self.innermost.block
    }

    /// A declaration of the innermost block.
    pub fn entry(&self, spot: Spot, class: Class) -> Entry
        ensures { result ≡ record { spot = spot; block = self.now.innermost.block; level = level_within self.now; class = class } }
    {
        Entry {
            spot,
            block: self.innermost.block,
            level: self.level(),
            class,
        }
    }

    /// The level of the innermost block, or the greatest number of a byte where it is beyond that.
    pub fn level(&self) -> u8
        ensures { result ≡ level_within self.now }
    {
        match u8::try_from(self.outer.len()) {
            Ok(outer) => outer.saturating_add(OUTER_LEVEL),
            Err(_) => u8::MAX,
        }
    }

    /// The declaration that a use of the name sees.
    pub fn find(&self, name: &'p [u8], seen: Seen) -> Option<Entry>
        ensures { result ≡ looked_up (open_blocks self.now) seen name.now }
    {
        match self.innermost.here(name, seen) {
            Some(entry) => Some(entry),
            None => look_up(self.outer.as_slice(), name),
        }
    }

    /// What the parameters of what is declared so are declared as.
    pub fn modes(&self, class: Class) -> &[Sort]
        ensures { result.now ≡ modes_in self.now.procedures.items class }
    {
        match class.sort {
            Sort::Procedure(_) => match self.procedures.get(class.procedure) {
                None => &[],
                Some(procedure) => procedure.modes.as_slice(),
            },
            _ => &[],
        }
    }

    /// The same where it is a procedure.
    pub fn parameters(&self, class: Class) -> Result<Option<List<Sort>>, AllocError>
        ensures { IfOk result (λ told. told ≡ parameter_sorts_in self.now.procedures.items class) }
    {
        match class.sort {
            Sort::Procedure(_) => match self.procedures.get(class.procedure) {
                None => Ok(None),
                Some(procedure) => Ok(Some(procedure.told()?)),
            },
            _ => Ok(None),
        }
    }

    /// Whether what is known under the name of this heading is its FORWARD, in the innermost block.
    pub fn is_announced(&self, h: &'p Heading) -> bool
        ensures { result ≡ is_announced (looked_up (open_blocks self.now) seens.All h.now.name.name) self.now.innermost.block h.now.name.spot }
    {
        match self.find(h.name.name.bytes(), Seen::All) {
            None => false,
            Some(entry) => entry.block == self.innermost.block && entry.spot == h.name.spot,
        }
    }

    /// What the parameter with this index, of the procedure with this number, is in the procedure.
    pub fn class_of_parameter(&self, procedure: usize, at: usize) -> Class
        ensures { result ≡ class_for (slice_get (modes_in self.now.procedures.items (procedure_class procedure)) at) }
    {
        let class = Class {
            sort: Sort::Procedure(None),
            procedure,
        };
        match self.modes(class).get(at) {
            None => Class {
                sort: Sort::Unspecified,
                procedure: 0,
            },
            Some(sort) => Class {
                sort: *sort,
                procedure: 0,
            },
        }
    }

    /// Whether the actual is the name of a simple variable or parameter.
    fn is_plain(&self, e: &'p Expr, seen: Seen) -> bool
        ensures { (a : Surroundings) → Sees self.now seen a → cells.has_cell (expr e.now) name_parameter a ≡ not result }
    {
        match e {
            Expr::Variable(v) => {
                if !v.subs.items().as_slice().is_empty() {
                    return false;
                }
                match self.find(v.name.name.bytes(), seen) {
                    None => false,
                    Some(entry) => entry.class.sort.is_simple(),
                }
            }
            _ => false,
        }
    }

    /// Whether an actual for such a parameter has a cell: it is by name, and not the name of a simple variable or parameter.
    pub fn has_cell(&self, e: &'p Expr, mode: Option<Sort>, seen: Seen) -> bool
        ensures { (f : Option Formal) (a : Surroundings) → Sees self.now seen a → mode ≡ mode_given f → result ≡ cells.has_cell (expr e.now) f a }
    {
        is_by_name(mode) && !self.is_plain(e, seen)
    }
}

impl<'p> Around<'p> {
    /// The innermost block declares these names, of which the first counts where two are the same.
    pub fn declare_all(&mut self, ns: &'p [Named], sort: Sort) -> Result<(), AllocError>
        ensures { OnOk result ((s : plain.Sort) (c : classes.Class) → SortStandsFor sort s c → Widens self.old self.new (declaring s c ns.now)) }
    {
        let class = Class { sort, procedure: 0 };
        'names: for at in (0..ns.len()).rev() {
            let entry = self.entry(ns[at].spot, class);
            self.declare(ns[at].name.bytes(), entry)?;
        }
        Ok(())
    }

    /// The innermost block, which declares nothing yet, is that of the procedure with this number, which has this heading.
    pub fn declare_parameters(&mut self, h: &'p Heading, procedure: usize) -> Result<(), AllocError>
        ensures { OnOk result (modes_in self.old.procedures.items (procedure_class procedure) ≡ map mode_of (formals_of h.now) → Admits self.old self.new (parameters_so h.now)) }
    {
        let ns = h.params.items().as_slice();
        'parameters: for at in (0..ns.len()).rev() {
            let class = self.class_of_parameter(procedure, at);
            let entry = self.entry(ns[at].spot, class);
            self.declare_parameter(ns[at].name.bytes(), entry)?;
        }
        Ok(())
    }
}

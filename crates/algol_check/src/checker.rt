//! What a walk over a tree keeps, and the steps of the walk that lead into no statement.

ghost use Rattle.std.specs.Prelude.{◌≡◌, None, [], ◌∷◌, ◌++◌, Bool, List, OnOk, IfOk};
ghost use Rattle.b67_deeds.specs.declared.EventAct.{EventAct};
ghost use Rattle.algol_tree.specs.Accepted.{noted_all};
ghost use Rattle.algol_tree.specs.Blocks as blocks;
ghost use Rattle.algol_tree.specs.Blocks.{Block, number_at};
ghost use Rattle.algol_tree.specs.Image.{body, call, expr, exprs, variable};
ghost use Rattle.algol_tree.specs.Plain as tree;
ghost use Rattle.algol_tree.specs.Plain.{PStmt};
ghost use Rattle.algol_tree.specs.Sites.{has_decls};
ghost use Rattle.algol_tree.specs.Surroundings.{Surroundings};
ghost use Rattle.algol_sites.specs.declared.place.Place.{Place};
ghost use Rattle.algol_sites.specs.Labelling.{bad_in, label_site};
ghost use Rattle.algol_sites.specs.Placing.{BlockIsFound, SiteIsPlaced};
ghost use Rattle.algol_check.specs.Walking.{IsCounted, IsTyped, CheckWalks, WalksStmt, begin_as, no_blocks};
ghost use Rattle.algol_check.specs.Declaring.{PlaceEnters, BlockOpens, begins, decls_in};

use algol_frames::Scopes;
use algol_rules::Faults;
use algol_sites::{
    Place, Standing, Wanted, assign, call, check_labels, counting, event, go_to, process,
    standing_at, typed, want_name, write,
};
use algol_tree::{Body, Call, Code, EventName, Expr, Kind, Named, PhraseText, Spot, Variable};
use std::alloc::{AllocError, Global};

/// Whose a BEGIN is. The declarations of a procedure's body belong to the procedure's own block.
#[derive(Clone, Copy)]
pub enum Begin {
    OfStatement,
    OfProcedure,
}

/// What a walk over a tree keeps.
#[derive(Drop)]
pub struct Checker {
    pub alloc: Global,
    pub place: Place,
    /// Where labels are declared.
    pub labels: Vec<Spot>,
    pub standings: Vec<Standing>,
    pub faults: Faults,
}

/// Whether a body has declarations.
pub fn has_declarations(b: &Body) -> bool
    ensures { result ≡ has_decls (decls_in (body b.now)) }
{
    !b.decls.items().as_slice().is_empty()
}

/// Whether a block begins at a BEGIN: it has declarations, and is no procedure's.
fn begins_block(b: &Body, begin: Begin) -> bool
    ensures { result ≡ begins (begin_as begin) (body b.now) }
{
    match begin {
        Begin::OfProcedure => false,
        Begin::OfStatement => has_declarations(b),
    }
}

impl Checker {
    /// The checks of a program whose BEGIN stands there.
    pub fn new(alloc: Global, begin: Spot) -> Checker
        ensures block { result.place.block ≡ begin }
        ensures around { result.place.around.items ≡ [] }
        ensures placed { (blocks : List Block) (b : Block) (a : Surroundings) → BlockIsFound blocks b → b.spot ≡ begin → b.outer ≡ [] → a.block ≡ number_at blocks begin → SiteIsPlaced blocks result.place a }
        ensures labels { result.labels.items ≡ [] }
        ensures standings { result.standings.items ≡ [] }
        ensures faults { result.faults.first ≡ None }
    {
        Checker {
            alloc,
            place: Place::outermost(alloc, begin),
            labels: Vec::new(alloc),
            standings: Vec::new(alloc),
            faults: Faults::none(),
        }
    }

    // ---- statements without statements in them

    /// A label before a statement, which is in the list of statements of its block or is not.
    pub fn label(&mut self, scopes: &Scopes, name: &Named, listed: bool) -> Result<(), AllocError>
        ensures { OnOk result ((s : PStmt) → CheckWalks scopes.now self.old self.new no_blocks (λ blocks a. label_site name.now s listed a ∷ [])) }
    {
        want_name(
            scopes,
            name,
            Wanted::Label,
            Code::WrongType,
            &mut self.faults,
        );
        match standing_at(scopes, &self.place, name, listed) {
            None => Ok(()),
            Some(standing) => {
                self.standings.push(standing)?;
                Ok(())
            }
        }
    }

    /// An assignment.
    pub fn assign(&mut self, scopes: &Scopes, v: &Variable, value: &Expr)
        ensures { (begin : blocks.Begin) (listed : Bool) → WalksStmt scopes.now self.old self.new (tree.assign (variable v.now) (expr value.now)) begin listed }
    {
        assign(scopes, &self.place, v, value, &mut self.faults);
    }

    /// A call that is a statement.
    pub fn call(&mut self, scopes: &Scopes, c: &Call)
        ensures { (begin : blocks.Begin) (listed : Bool) → WalksStmt scopes.now self.old self.new (tree.call_of (call c.now)) begin listed }
    {
        call(scopes, c, &mut self.faults);
    }

    /// GO TO.
    pub fn go_to(&mut self, scopes: &Scopes, name: &Named)
        ensures { (begin : blocks.Begin) (listed : Bool) → WalksStmt scopes.now self.old self.new (tree.go_to name.now) begin listed }
    {
        go_to(scopes, name, &mut self.faults);
    }

    /// A statement on an event.
    pub fn event(&mut self, scopes: &Scopes, e: &EventName)
        ensures { (act : EventAct) (begin : blocks.Begin) (listed : Bool) → WalksStmt scopes.now self.old self.new (tree.event act e.now) begin listed }
    {
        event(scopes, e, &mut self.faults);
    }

    /// PROCESS.
    pub fn process(&mut self, scopes: &Scopes, c: &Call, task: &Option<Named>)
        ensures { (begin : blocks.Begin) (listed : Bool) → WalksStmt scopes.now self.old self.new (tree.process (call c.now) task.now) begin listed }
    {
        process(scopes, c, task, &mut self.faults);
    }

    /// WRITE.
    pub fn write(
        &mut self,
        scopes: &Scopes,
        file: &Named,
        spot: Spot,
        phrases: &[PhraseText],
        items: &[Expr],
    )
        ensures { (begin : blocks.Begin) (listed : Bool) → WalksStmt scopes.now self.old self.new (tree.write file.now spot phrases.now (exprs items.now)) begin listed }
    {
        write(scopes, file, spot, phrases, items, &mut self.faults);
    }

    // ---- parts of statements

    /// An expression of which this type is wanted.
    pub fn typed(&mut self, scopes: &Scopes, kind: Kind, e: &Expr)
        ensures typed { IsTyped scopes.now self.old self.new.faults kind (expr e.now) }
        ensures rest { self.new ≡ record self.old { faults = self.new.faults } }
    {
        typed(scopes, kind, e, &mut self.faults);
    }

    /// What stands before the statement of FOR.
    pub fn counting(&mut self, scopes: &Scopes, v: &Named, x: &Expr, step: &Expr, last: &Expr)
        ensures counted { IsCounted scopes.now self.old self.new.faults v.now (expr x.now) (expr step.now) (expr last.now) }
        ensures rest { self.new ≡ record self.old { faults = self.new.faults } }
    {
        counting(scopes, v, x, step, last, &mut self.faults);
    }

    // ---- blocks

    /// A BEGIN, with which a block begins or not.
    pub fn begin(&mut self, b: &Body, begin: Begin) -> Result<bool, AllocError>
        ensures opens { IfOk result (λ opened. BlockOpens opened self.old.place self.new.place) }
        ensures enters { OnOk result (PlaceEnters self.old.place self.new.place (body b.now) (begin_as begin)) }
        ensures rest { self.new ≡ record self.old { place = self.new.place } }
    {
        let opened = begins_block(b, begin);
        if opened {
            self.place.open(b.spot)?;
        }
        Ok(opened)
    }

    /// The END, of a block or not.
    pub fn end(&mut self, opened: bool)
        ensures ends { (before : Place) → BlockOpens opened before self.old.place → (self.new.place.block ≡ before.block) × (self.new.place.around.items ≡ before.around.items) }
        ensures rest { self.new ≡ record self.old { place = self.new.place } }
    {
        if opened {
            self.place.close();
        }
    }

    // ---- labels

    /// The labels, after the walk over the whole tree.
    pub fn finish(&mut self) -> Result<(), AllocError>
        ensures { OnOk result (self.new.faults.first ≡ noted_all self.old.faults.first (bad_in self.old.standings.items self.old.labels.items)) }
    {
        check_labels(
            self.alloc,
            self.labels.as_slice(),
            self.standings.as_slice(),
            &mut self.faults,
        )
    }
}

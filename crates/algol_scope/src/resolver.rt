//! What the walk over statements and declarations keeps, and statements with no statement in them.

ghost use Rattle.std.specs.Prelude.{◌≡◌, OnOk, Bool, List, [], ◌∷◌, ◌++◌, length};
ghost use Rattle.algol_tree.specs.declared.token.Spot.{Spot};
ghost use Rattle.algol_tree.specs.declared.tree.PhraseText.{PhraseText};
ghost use Rattle.algol_tree.specs.Plain as tree;
ghost use Rattle.algol_tree.specs.Plain.{PStmt};
ghost use Rattle.algol_tree.specs.Image.{call, expr, exprs, variable};
ghost use Rattle.algol_tree.specs.Surroundings.{formals_at};
ghost use Rattle.algol_tree.specs.Sites.{here_stmt, inside_list, inside_actuals, sites};
ghost use Rattle.algol_scope.specs.Finding.{IsNew};
ghost use Rattle.algol_known.specs.Looking.{level_within};
ghost use Rattle.algol_scope.specs.Noting.{at_name};
ghost use Rattle.algol_known.specs.Seeing.{KnownOpens};
ghost use Rattle.algol_scope.specs.Stating.{Visits, no_blocks, stmt_parts};

use crate::findings::Findings;
use algol_frames::Block;
use algol_known::{Around, Seen};
use algol_tree::{Call, Expr, List, Named, Spot, Variable};
use std::alloc::{AllocError, Global};

/// What is known around the place that the walk has come to, and what is found before it: also the blocks, in the order of
/// the text.
#[derive(Drop)]
pub struct Resolver<'p> {
    pub alloc: Global,
    pub around: Around<'p>,
    pub findings: Findings,
    pub blocks: Vec<Block>,
}

impl<'p> Resolver<'p> {
    /// Before the outer block.
    pub fn new(alloc: Global) -> Resolver<'p>
        ensures { IsNew result }
    {
        Resolver {
            alloc,
            around: Around::new(alloc),
            findings: Findings::new(alloc),
            blocks: Vec::new(alloc),
        }
    }

    /// A block has begun, and is the innermost.
    pub fn begun(&mut self, spot: Spot, is_procedure: bool) -> Result<(), AllocError>
        ensures begins { OnOk result (self.new.blocks.items ≡ self.old.blocks.items ++ record { spot = spot; level = level_within self.old.around; is_procedure = is_procedure } ∷ []) }
        ensures around { self.new.around ≡ self.old.around }
        ensures findings { self.new.findings ≡ self.old.findings }
    {
        self.blocks.push(Block {
            spot,
            level: self.around.level(),
            is_procedure,
        })?;
        Ok(())
    }

    /// A block begins, which is the procedure's that has a result of this name.
    pub fn open(
        &mut self,
        spot: Spot,
        typed: Option<&'p [u8]>,
        is_procedure: bool,
    ) -> Result<(), AllocError>
        ensures opens { OnOk result (KnownOpens self.old.around self.new.around (length self.old.blocks.items)) }
        ensures typed { OnOk result (self.new.around.innermost.typed ≡ typed.entry) }
        ensures begins { OnOk result (self.new.blocks.items ≡ self.old.blocks.items ++ record { spot = spot; level = level_within self.new.around; is_procedure = is_procedure } ∷ []) }
        ensures findings { self.new.findings ≡ self.old.findings }
    {
        let number = self.blocks.len();
        self.around.open(self.alloc, number, typed)?;
        self.begun(spot, is_procedure)
    }

    // ---- statements with no statement in them, and their parts

    /// A use of the name.
    pub fn name(&mut self, n: &'p Named) -> Result<(), AllocError>
        ensures { OnOk result (Visits self.old self.new (λ blocks a. at_name n.now a ∷ []) no_blocks) }
    {
        self.findings.name(n, &self.around, Seen::All)?;
        Ok(())
    }

    pub fn expr(&mut self, e: &'p Expr) -> Result<(), AllocError>
        ensures { OnOk result (Visits self.old self.new (λ blocks. sites (expr e.now)) no_blocks) }
    {
        self.findings.expr(e, &self.around, Seen::All)
    }

    fn list(&mut self, es: &'p List<Expr>) -> Result<(), AllocError>
        ensures { OnOk result (Visits self.old self.new (λ blocks. inside_list (exprs es.now)) no_blocks) }
    {
        self.findings.list(es, &self.around, Seen::All)
    }

    pub fn call(&mut self, c: &'p Call) -> Result<(), AllocError>
        ensures { OnOk result (Visits self.old self.new (λ blocks a. at_name c.now.name a ∷ inside_actuals (exprs c.now.actuals) (formals_at a c.now.name) a) no_blocks) }
    {
        self.findings.call(c, &self.around, Seen::All)
    }

    pub fn assign(&mut self, v: &'p Variable, e: &'p Expr) -> Result<(), AllocError>
        ensures { OnOk result ((listed : Bool) → Visits self.old self.new (stmt_parts (tree.assign (variable v.now) (expr e.now)) listed) no_blocks) }
    {
        self.name(&v.name)?;
        self.list(&v.subs)?;
        self.expr(e)
    }

    /// PROCESS.
    pub fn process(&mut self, c: &'p Call, task: &'p Option<Named>) -> Result<(), AllocError>
        ensures { OnOk result ((listed : Bool) → Visits self.old self.new (stmt_parts (tree.process (call c.now) task.now) listed) no_blocks) }
    {
        self.findings.process(c, task, &self.around)
    }

    pub fn write(&mut self, file: &'p Named, items: &'p List<Expr>) -> Result<(), AllocError>
        ensures { OnOk result ((spot : Spot) (phrases : List PhraseText) (listed : Bool) → Visits self.old self.new (stmt_parts (tree.write file.now spot phrases (exprs items.now)) listed) no_blocks) }
    {
        self.name(file)?;
        self.list(items)
    }

    /// The control variable of FOR, its first value, the step and the limit.
    pub fn counting(
        &mut self,
        v: &'p Named,
        first: &'p Expr,
        step: &'p Expr,
        last: &'p Expr,
    ) -> Result<(), AllocError>
        ensures { OnOk result ((s : PStmt) (listed : Bool) → Visits self.old self.new (λ blocks a. here_stmt (tree.for v.now (expr first.now) (expr step.now) (expr last.now) s) listed a ∷ (sites (expr first.now) a ++ sites (expr step.now) a ++ sites (expr last.now) a)) no_blocks) }
    {
        self.name(v)?;
        self.expr(first)?;
        self.expr(step)?;
        self.expr(last)
    }
}

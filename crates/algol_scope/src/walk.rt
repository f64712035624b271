//! The walk over statements and declarations, in the order of the text.

ghost use Rattle.std.specs.Prelude.{◌≡◌, OnOk, Bool, false, List, ◌∷◌, ◌++◌};
ghost use Rattle.algol_tree.specs.Plain as tree;
ghost use Rattle.algol_tree.specs.Plain.{PDecls};
ghost use Rattle.algol_tree.specs.Blocks as blocks_of;
ghost use Rattle.algol_tree.specs.Blocks.{own_block, own_outer, blocks_in_body, blocks_in_decl, blocks_in_decls, blocks_in_stmts};
ghost use Rattle.algol_tree.specs.Image.{expr, stmt, stmts, decl, decls, body, branched};
ghost use Rattle.algol_tree.specs.Sites.{here_stmt, inside_stmt, sites, sites_in_body, sites_in_decls, sites_in_stmts};
ghost use Rattle.algol_tree.specs.Surroundings.{inside_begin, knowing, knowing_all};
ghost use Rattle.algol_scope.specs.Declaring.{IsAhead, decl_parts};
ghost use Rattle.algol_scope.specs.Stating.{WalkEnters, Fills, Visits, stmt_blocks, stmt_parts};

use crate::declaration::Ahead;
use crate::resolver::Resolver;
use algol_rules::{boxed_stmt, decls_in, is_compound, stmts_in};
use algol_tree::{Body, Decl, Expr, Heading, Named, Stmt};
use std::alloc::AllocError;

impl<'p> Resolver<'p> {
    #[cycle(statements)]
    fn stmt(&mut self, s: &'p Stmt) -> Result<(), AllocError>
        ensures { OnOk result ((listed : Bool) → Visits self.old self.new (stmt_parts (stmt s.now) listed) (stmt_blocks (stmt s.now))) }
    {
        match s {
            Stmt::Empty => Ok(()),
            Stmt::Label(n, s) => self.labelled(n, boxed_stmt(s)),
            Stmt::Assign(v, e) => self.assign(v, e),
            Stmt::Call(c) => self.call(c),
            Stmt::GoTo(n) => self.name(n),
            Stmt::Block(b) => self.begin(b),
            Stmt::If(c, a, b) => {
                self.guarded(boxed_stmt(a), c)?;
                match b {
                    None => Ok(()),
                    Some(b) => self.stmt(boxed_stmt(b)),
                }
            }
            Stmt::While(c, b) => self.guarded(boxed_stmt(b), c),
            Stmt::Until(b, c) => self.until(boxed_stmt(b), c),
            Stmt::For(v, a, s, l, b) => self.counted(boxed_stmt(b), v, a, s, l),
            Stmt::Thru(e, b) => self.guarded(boxed_stmt(b), e),
            Stmt::Case(e, ss) => self.case(stmts_in(ss), e),
            Stmt::Process(c, task) => self.process(c, task),
            Stmt::Event(_, event) => self.name(&event.name),
            Stmt::Write(n, _, _, items) => self.write(n, items),
        }
    }

    #[cycle(statements)]
    fn labelled(&mut self, n: &'p Named, s: &'p Stmt) -> Result<(), AllocError>
        ensures { OnOk result ((listed : Bool) → Visits self.old self.new (stmt_parts (tree.label n.now (stmt s.now)) listed) (stmt_blocks (stmt s.now))) }
    {
        self.name(n)?;
        self.stmt(s)
    }

    /// A statement after its condition or its count.
    #[cycle(statements)]
    fn guarded(&mut self, s: &'p Stmt, c: &'p Expr) -> Result<(), AllocError>
        ensures { OnOk result (Visits self.old self.new (λ blocks a. sites (expr c.now) a ++ stmt_parts (stmt s.now) false blocks a) (stmt_blocks (stmt s.now))) }
    {
        self.expr(c)?;
        self.stmt(s)
    }

    #[cycle(statements)]
    fn until(&mut self, s: &'p Stmt, c: &'p Expr) -> Result<(), AllocError>
        ensures { OnOk result ((listed : Bool) → Visits self.old self.new (stmt_parts (tree.until (stmt s.now) (expr c.now)) listed) (stmt_blocks (stmt s.now))) }
    {
        self.stmt(s)?;
        self.expr(c)
    }

    #[cycle(statements)]
    fn counted(
        &mut self,
        s: &'p Stmt,
        v: &'p Named,
        first: &'p Expr,
        step: &'p Expr,
        last: &'p Expr,
    ) -> Result<(), AllocError>
        ensures { OnOk result ((listed : Bool) → Visits self.old self.new (stmt_parts (tree.for v.now (expr first.now) (expr step.now) (expr last.now) (stmt s.now)) listed) (stmt_blocks (stmt s.now))) }
    {
        self.counting(v, first, step, last)?;
        self.stmt(s)
    }

    #[cycle(statements)]
    fn case(&mut self, ss: &'p [Stmt], e: &'p Expr) -> Result<(), AllocError>
        ensures { OnOk result ((listed : Bool) → Visits self.old self.new (stmt_parts (tree.case (expr e.now) (stmts ss.now)) listed) (blocks_in_stmts (stmts ss.now))) }
    {
        self.expr(e)?;
        self.stmts(ss)
    }

    #[cycle(statements)]
    fn stmts(&mut self, ss: &'p [Stmt]) -> Result<(), AllocError>
        ensures { OnOk result ((listed : Bool) → Visits self.old self.new (λ blocks. sites_in_stmts blocks (stmts ss.now) listed) (blocks_in_stmts (stmts ss.now))) }
    {
        'statements: for s in ss {
            self.stmt(s)?;
        }
        Ok(())
    }

    /// A BEGIN, which is a block of its own where it has declarations.
    #[cycle(statements)]
    fn begin(&mut self, b: &'p Body) -> Result<(), AllocError>
        ensures { OnOk result ((listed : Bool) → Visits self.old self.new (stmt_parts (tree.block (body b.now)) listed) (stmt_blocks (tree.block (body b.now)))) }
    {
        if is_compound(b) {
            return self.stmts(stmts_in(&b.stmts));
        }
        self.open(b.spot, None, false)?;
        self.body(b)?;
        self.around.close();
        Ok(())
    }

    /// The declarations and the statements of the innermost block, which has just begun.
    #[cycle(statements)]
    pub fn body(&mut self, b: &'p Body) -> Result<(), AllocError>
        ensures { OnOk result (Fills self.old self.new (λ blocks. sites_in_body blocks (body b.now)) (blocks_in_body (body b.now))) }
    {
        self.decls(decls_in(&b.decls))?;
        self.stmts(stmts_in(&b.stmts))
    }

    #[cycle(statements)]
    fn decls(&mut self, ds: &'p [Decl]) -> Result<(), AllocError>
        ensures { OnOk result (WalkEnters self.old self.new (λ blocks. sites_in_decls blocks (decls ds.now)) (blocks_in_decls (decls ds.now)) (λ blocks. knowing_all blocks (decls ds.now))) }
    {
        let ahead = self.look_ahead(ds)?;
        'declarations: for at in 0..ds.len() {
            self.decl(&ds[at], ahead[at])?;
        }
        Ok(())
    }

    #[cycle(statements)]
    fn decl(&mut self, d: &'p Decl, ahead: Ahead) -> Result<(), AllocError>
        ensures { OnOk result ((later : PDecls) → IsAhead self.old.around.procedures.items (decl d.now) later ahead → WalkEnters self.old self.new (decl_parts (decl d.now) later) (blocks_in_decl (decl d.now)) (λ blocks. knowing blocks (decl d.now) later)) }
    {
        match d {
            Decl::Simple(kind, ns) => self.simple(*kind, ns),
            Decl::Files(ns) => self.files(ns),
            Decl::Events(ns) => self.events(ns),
            Decl::Tasks(ns) => self.tasks(ns),
            Decl::Labels(ns) => self.labels(ns),
            Decl::Arrays(kind, ns, pairs) => self.arrays(*kind, ns, pairs),
            Decl::Forward(h) => self.forward(h, ahead),
            Decl::Procedure(h, s) => self.procedure(h, boxed_stmt(s), ahead),
        }
    }

    #[cycle(statements)]
    fn procedure(&mut self, h: &'p Heading, s: &'p Stmt, ahead: Ahead) -> Result<(), AllocError>
        ensures { OnOk result ((later : PDecls) → IsAhead self.old.around.procedures.items (tree.procedure h.now (stmt s.now)) later ahead → WalkEnters self.old self.new (decl_parts (tree.procedure h.now (stmt s.now)) later) (blocks_in_decl (tree.procedure h.now (stmt s.now))) (λ blocks. knowing blocks (tree.procedure h.now (stmt s.now)) later)) }
    {
        self.declare_procedure(h, s, ahead)?;
        self.begin_procedure(h, ahead)?;
        self.procedure_body(s)?;
        self.around.close();
        Ok(())
    }

    /// The body of a procedure. Where it is a BEGIN, its declarations are those of the procedure's own block.
    #[cycle(statements)]
    fn procedure_body(&mut self, s: &'p Stmt) -> Result<(), AllocError>
        ensures { OnOk result (Fills self.old self.new (λ blocks a. here_stmt (stmt s.now) false a ∷ inside_stmt blocks (stmt s.now) blocks_of.of_procedure false a) (blocks_of.blocks_of (stmt s.now) blocks_of.of_procedure)) }
    {
        match s {
            Stmt::Block(b) => self.body(b),
            _ => self.stmt(s),
        }
    }
}

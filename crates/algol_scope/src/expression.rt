//! The names, the levels and the cells of expressions.

ghost use Rattle.std.specs.Prelude.{◌≡◌, OnOk, IfOk, List, Option, true, [], ◌∷◌};
ghost use Rattle.algol_tree.specs.Classes.{Formal};
ghost use Rattle.algol_tree.specs.Blocks.{Block};
ghost use Rattle.algol_tree.specs.Surroundings.{Surroundings, class_of, formals_at};
ghost use Rattle.algol_tree.specs.Sites.{sites, inside_list, inside_actuals, sites_in_pairs, actual};
ghost use Rattle.algol_tree.specs.Cells as cells;
ghost use Rattle.algol_tree.specs.Image.{expr, exprs, pairs};
ghost use Rattle.algol_known.specs.declared.known.Seen.{Seen};
ghost use Rattle.algol_known.specs.declared.known.Seen.TheVariants as seens;
ghost use Rattle.algol_tree.specs.Sorts.{Declared};
ghost use Rattle.algol_known.specs.Seeing.{Sees, IsClass, IsEntry, mode_given};
ghost use Rattle.algol_scope.specs.Noting.{ScopeFinds, Knows, ScopeWalks, ActualsPass, at_events, at_name, parameters_here, process_parts, task_parts};
ghost use Rattle.algol_tree.specs.Couples.{known_names};

use crate::findings::Findings;
use algol_frames::{Cell, Content, Use};
use algol_known::{Around, Class, Entry, Seen};
use algol_rules::{boxed_expr, first_spot};
use algol_sorts::Sort;
use algol_tree::{Call, Code, EventName, Expr, List, MOST_LEVEL, Named, Pair, Spot, Variable};
use std::alloc::AllocError;

/// What is told of parameters with a name that stands there and means this declaration: those of a procedure, with the name of the
/// heading that declares it.
fn parameters_told<'p>(
    spot: Spot,
    entry: Entry,
    around: &Around<'p>,
) -> Result<Option<List<Sort>>, AllocError>
    ensures { IfOk result (λ told. (d : Declared) → IsEntry around.now.procedures.items entry d → told ≡ parameters_here spot d) }
{
    if spot != entry.spot {
        return Ok(None);
    }
    around.parameters(entry.class)
}

/// A name that stands there and means this declaration.
fn use_by(spot: Spot, entry: Entry, parameters: Option<List<Sort>>) -> Use
    ensures { result ≡ record { spot = spot; declared = entry.spot; block = entry.block; level = entry.level; sort = entry.class.sort; parameters = parameters } }
{
    Use {
        spot,
        declared: entry.spot,
        block: entry.block,
        level: entry.level,
        sort: entry.class.sort,
        parameters,
    }
}

impl Findings {
    /// A use of the name, and what the name is declared as.
    pub fn name<'p>(
        &mut self,
        n: &'p Named,
        around: &Around<'p>,
        seen: Seen,
    ) -> Result<Class, AllocError>
        ensures walks { OnOk result (ScopeWalks around.now seen self.old self.new (λ a. at_name n.now a ∷ [])) }
        ensures class { IfOk result (λ class. (a : Surroundings) → Sees around.now seen a → IsClass around.now.procedures.items class (class_of a n.now)) }
    {
        match around.find(n.name.bytes(), seen) {
            None => {
                self.faults.note(n.spot, Code::UnknownName);
                Ok(Class {
                    sort: Sort::Unspecified,
                    procedure: 0,
                })
            }
            Some(entry) => {
                let parameters = parameters_told(n.spot, entry, around)?;
                self.uses.push(use_by(n.spot, entry, parameters))?;
                Ok(entry.class)
            }
        }
    }

    /// The names of events, one after the other.
    fn events<'p>(
        &mut self,
        events: &'p List<EventName>,
        around: &Around<'p>,
        seen: Seen,
    ) -> Result<(), AllocError>
        ensures { OnOk result (ScopeWalks around.now seen self.old self.new (at_events events.now)) }
    {
        'events: for event in events.items() {
            self.name(&event.name, around, seen)?;
        }
        Ok(())
    }

    /// A name that stands there, and what it means where it is known.
    pub fn known<'p>(&mut self, n: &'p Named, around: &Around<'p>) -> Result<(), AllocError>
        ensures { OnOk result (Knows around.now self.old self.new (λ a. known_names a (n.now ∷ []))) }
    {
        if let Some(entry) = around.find(n.name.bytes(), Seen::All) {
            let parameters = parameters_told(n.spot, entry, around)?;
            self.uses.push(use_by(n.spot, entry, parameters))?;
        }
        Ok(())
    }

    /// An actual for such a parameter: where it has a cell, its code is one level deeper than where it stands.
    fn actual<'p>(
        &mut self,
        e: &'p Expr,
        mode: Option<Sort>,
        around: &Around<'p>,
        seen: Seen,
    ) -> Result<(), AllocError>
        ensures { OnOk result ((blocks : List Block) (a : Surroundings) (f : Option Formal) → Sees around.now seen a → mode ≡ mode_given f → ScopeFinds blocks self.old (record { part = actual (expr e.now) f; around = a } ∷ []) self.new) }
    {
        if !around.has_cell(e, mode, seen) {
            return Ok(());
        }
        let spot = first_spot(e);
        if around.level() >= MOST_LEVEL {
            self.faults.note(spot, Code::TooManyLevels);
        }
        self.cells.push(Cell {
            block: around.block(),
            spot,
            content: Content::Actual,
        })?;
        Ok(())
    }

    #[cycle(expressions)]
    fn actuals<'p>(
        &mut self,
        es: &'p List<Expr>,
        modes: &[Sort],
        around: &Around<'p>,
        seen: Seen,
    ) -> Result<(), AllocError>
        ensures { OnOk result (ActualsPass around.now seen self.old self.new modes.now (exprs es.now)) }
    {
        'actuals: for (at, e) in es.items().iter().enumerate() {
            self.actual(e, modes.get(at).copied(), around, seen)?;
            self.expr(e, around, seen)?;
        }
        Ok(())
    }

    #[cycle(expressions)]
    pub fn call<'p>(
        &mut self,
        c: &'p Call,
        around: &Around<'p>,
        seen: Seen,
    ) -> Result<(), AllocError>
        ensures { OnOk result (ScopeWalks around.now seen self.old self.new (λ a. at_name c.now.name a ∷ inside_actuals (exprs c.now.actuals) (formals_at a c.now.name) a)) }
    {
        let class = self.name(&c.name, around, seen)?;
        self.actuals(&c.actuals, around.modes(class), around, seen)
    }

    #[cycle(expressions)]
    pub fn variable<'p>(
        &mut self,
        v: &'p Variable,
        around: &Around<'p>,
        seen: Seen,
    ) -> Result<(), AllocError>
        ensures { OnOk result (ScopeWalks around.now seen self.old self.new (λ a. at_name v.now.name a ∷ inside_list (exprs v.now.subs) a)) }
    {
        self.name(&v.name, around, seen)?;
        self.list(&v.subs, around, seen)
    }

    #[cycle(expressions)]
    pub fn list<'p>(
        &mut self,
        es: &'p List<Expr>,
        around: &Around<'p>,
        seen: Seen,
    ) -> Result<(), AllocError>
        ensures { OnOk result (ScopeWalks around.now seen self.old self.new (inside_list (exprs es.now))) }
    {
        'expressions: for e in es.items() {
            self.expr(e, around, seen)?;
        }
        Ok(())
    }

    /// An expression, part by part in the order of the text. The right operand of two waits while the left one is gone over in its
    /// place, so that the length of a sum needs no room on the stack.
    #[cycle(expressions)]
    pub fn expr<'p>(
        &mut self,
        e: &'p Expr,
        around: &Around<'p>,
        seen: Seen,
    ) -> Result<(), AllocError>
        ensures { OnOk result (ScopeWalks around.now seen self.old self.new (sites (expr e.now))) }
    {
        let mut waiting = Vec::new(*self.cells.allocator());
        let mut at = e;
        'parts: loop {
            match at {
                Expr::Number(_, _) => break,
                Expr::Truth(_, _) => break,
                Expr::Variable(v) => {
                    self.variable(v, around, seen)?;
                    break;
                }
                Expr::Call(c) => {
                    self.call(c, around, seen)?;
                    break;
                }
                Expr::Happened(event, _) => {
                    self.name(&event.name, around, seen)?;
                    break;
                }
                Expr::Available(event, _) => {
                    self.name(&event.name, around, seen)?;
                    break;
                }
                Expr::Fix(event, _) => {
                    self.name(&event.name, around, seen)?;
                    break;
                }
                Expr::WaitAny(events, _) => {
                    self.events(events, around, seen)?;
                    break;
                }
                Expr::Paren(e, _) => at = boxed_expr(e),
                Expr::Plus(e, _) => at = boxed_expr(e),
                Expr::Neg(e, _) => at = boxed_expr(e),
                Expr::Not(e, _) => at = boxed_expr(e),
                Expr::Two(_, a, b) => {
                    waiting.push(boxed_expr(b))?;
                    at = boxed_expr(a);
                }
                Expr::If(c, a, b, _) => {
                    self.expr(boxed_expr(c), around, seen)?;
                    self.expr(boxed_expr(a), around, seen)?;
                    at = boxed_expr(b);
                }
            }
        }
        'waiting: while let Some(right) = waiting.pop() {
            self.expr(right, around, seen)?;
        }
        Ok(())
    }

    /// The name of a task, where there is one.
    fn task<'p>(&mut self, task: &'p Option<Named>, around: &Around<'p>) -> Result<(), AllocError>
        ensures { OnOk result (ScopeWalks around.now seens.All self.old self.new (task_parts task.now)) }
    {
        match task {
            None => Ok(()),
            Some(n) => {
                self.name(n, around, Seen::All)?;
                Ok(())
            }
        }
    }

    /// PROCESS: the procedure's name, the task's, and the actuals.
    pub fn process<'p>(
        &mut self,
        c: &'p Call,
        task: &'p Option<Named>,
        around: &Around<'p>,
    ) -> Result<(), AllocError>
        ensures { OnOk result (ScopeWalks around.now seens.All self.old self.new (process_parts c.now.name task.now (exprs c.now.actuals))) }
    {
        let class = self.name(&c.name, around, Seen::All)?;
        self.task(task, around)?;
        self.actuals(&c.actuals, around.modes(class), around, Seen::All)
    }

    /// A bound sees what is known before the declarations of its block.
    pub fn bounds<'p>(&mut self, ps: &'p List<Pair>, around: &Around<'p>) -> Result<(), AllocError>
        ensures { OnOk result (ScopeWalks around.now seens.BeforeDeclarations self.old self.new (sites_in_pairs (pairs ps.now))) }
    {
        'pairs: for pair in ps.items() {
            self.expr(&pair.high, around, Seen::BeforeDeclarations)?;
        }
        Ok(())
    }
}

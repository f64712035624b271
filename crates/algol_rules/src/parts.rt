//! What lies in the boxes and the lists of a tree.
//!
//! A call of a function for any type spells the whole type that it is called for. So boxes and lists of statements,
//! declarations and expressions are opened here, and each of these functions is proved once.

ghost use Rattle.std.specs.Prelude.{◌≡◌, ◌==◌, length};

use algol_tree::{Body, Decl, Expr, List, Stmt};

/// The statement in a box.
pub fn boxed_stmt(s: &Box<Stmt>) -> &Stmt
    ensures { result.now ≡ s.now.value }
{
    s
}

/// The statements in a list.
pub fn stmts_in(ss: &List<Stmt>) -> &[Stmt]
    ensures { result.now ≡ ss.now }
{
    ss.items().as_slice()
}

/// The declarations in a list.
pub fn decls_in(ds: &List<Decl>) -> &[Decl]
    ensures { result.now ≡ ds.now }
{
    ds.items().as_slice()
}

/// The expression in a box.
pub fn boxed_expr(e: &Box<Expr>) -> &Expr
    ensures { result.now ≡ e.now.value }
{
    e
}

/// The expressions in a list.
pub fn exprs_in(es: &List<Expr>) -> &[Expr]
    ensures { result.now ≡ es.now }
{
    es.items().as_slice()
}

/// Whether a BEGIN has no declarations.
pub fn is_compound(b: &Body) -> bool
    ensures { result ≡ (length b.now.decls == 0) }
{
    decls_in(&b.decls).is_empty()
}

//! The labels that the blocks of a text declare, and where they lead.

ghost use Rattle.std.specs.Prelude.{◌≡◌, ◌++◌, map, Some, IfOk, OnOk, option_copied};
ghost use Rattle.algol_tree.specs.Image as plain;
ghost use Rattle.b67_templates.specs.Labels.{label_before, label_in, labels_in};
ghost use Rattle.b67_emit_text.specs.Entries.{AreLow, AllLow, entries_in_stmt, entries_in_stmts, entries_of, entry_of, leads, own_entries, label_place_in};

use algol_meaning::same_name;
use algol_tree::{Decl, Named, Spot, Stmt};
use b67_emit_stmt::Label;
use std::alloc::{AllocError, Global};

/// A label that a block declares: the level of the block, the name, and the block's own statements, before one of which it stands.
#[derive(Clone, Copy)]
pub struct Declared<'a> {
    pub level: u8,
    pub name: &'a Named,
    pub stmts: &'a [Stmt],
}

/// Those of one declaration.
fn add<'a>(
    ns: &'a [Named],
    ss: &'a [Stmt],
    level: u8,
    to: &mut Vec<Declared<'a>>,
) -> Result<(), AllocError>
    ensures { OnOk result (map entry_of to.new.items ≡ map entry_of to.old.items ++ own_entries level (plain.stmts ss.now) ns.now) }
{
    'names: for name in ns {
        to.push(Declared {
            level,
            name,
            stmts: ss,
        })?;
    }
    Ok(())
}

/// Those of a block of this level with these declarations and statements.
fn own<'a>(
    ds: &'a [Decl],
    ss: &'a [Stmt],
    level: u8,
    to: &mut Vec<Declared<'a>>,
) -> Result<(), AllocError>
    ensures { OnOk result (map entry_of to.new.items ≡ map entry_of to.old.items ++ own_entries level (plain.stmts ss.now) (labels_in (plain.decls ds.now))) }
{
    'decls: for d in ds {
        if let Decl::Labels(ns) = d {
            add(ns.items(), ss, level, to)?;
        }
    }
    Ok(())
}

/// Those of the blocks within a statement at a level.
#[cycle(entries)]
fn within<'a>(s: &'a Stmt, level: u8, to: &mut Vec<Declared<'a>>) -> Result<(), AllocError>
    requires { AreLow level (plain.stmt s.now) }
    ensures { OnOk result (map entry_of to.new.items ≡ map entry_of to.old.items ++ entries_in_stmt level (plain.stmt s.now)) }
{
    match s {
        Stmt::Label(_, s) => within(s, level, to),
        Stmt::Block(b) => {
            if b.decls.items().is_empty() {
                within_all(b.stmts.items(), level, to)
            } else {
                in_block(b.stmts.items(), b.decls.items(), level + 1, to)
            }
        }
        Stmt::If(_, x, other) => {
            within(x, level, to)?;
            match other {
                None => Ok(()),
                Some(y) => within(y, level, to),
            }
        }
        Stmt::While(_, b) => within(b, level, to),
        Stmt::Until(b, _) => within(b, level, to),
        Stmt::For(_, _, _, _, b) => within(b, level, to),
        Stmt::Thru(_, b) => within(b, level, to),
        Stmt::Case(_, ss) => within_all(ss.items(), level, to),
        Stmt::Empty => Ok(()),
        Stmt::Assign(_, _) => Ok(()),
        Stmt::Call(_) => Ok(()),
        Stmt::GoTo(_) => Ok(()),
        Stmt::Process(_, _) => Ok(()),
        Stmt::Event(_, _) => Ok(()),
        Stmt::Write(_, _, _, _) => Ok(()),
    }
}

/// .. within statements.
#[cycle(entries)]
fn within_all<'a>(ss: &'a [Stmt], level: u8, to: &mut Vec<Declared<'a>>) -> Result<(), AllocError>
    requires { AllLow level (plain.stmts ss.now) }
    ensures { OnOk result (map entry_of to.new.items ≡ map entry_of to.old.items ++ entries_in_stmts level (plain.stmts ss.now)) }
{
    'statements: for s in ss {
        within(s, level, to)?;
    }
    Ok(())
}

/// .. of a block of this level and of the blocks within it.
#[cycle(entries)]
fn in_block<'a>(
    ss: &'a [Stmt],
    ds: &'a [Decl],
    level: u8,
    to: &mut Vec<Declared<'a>>,
) -> Result<(), AllocError>
    requires { AllLow level (plain.stmts ss.now) }
    ensures { OnOk result (map entry_of to.new.items ≡ map entry_of to.old.items ++ entries_of level (plain.decls ds.now) (plain.stmts ss.now)) }
{
    own(ds, ss, level, to)?;
    within_all(ss, level, to)
}

/// Those of a text whose block has this level, in the order of the text.
pub(crate) fn entries_of<'a>(
    alloc: Global,
    ds: &'a [Decl],
    ss: &'a [Stmt],
    level: u8,
) -> Result<Vec<Declared<'a>>, AllocError>
    requires { AllLow level (plain.stmts ss.now) }
    ensures { IfOk result (λ found. map entry_of found.items ≡ entries_of level (plain.decls ds.now) (plain.stmts ss.now)) }
{
    let mut to = Vec::new(alloc);
    in_block(ss, ds, level, &mut to)?;
    Ok(to)
}

/// The label of that name before a statement.
fn label_before<'a>(s: &'a Stmt, name: &Named) -> Option<&'a Named>
    ensures { option_copied result ≡ label_before (plain.stmt s.now) name.now.name }
{
    match s {
        Stmt::Label(n, s) => {
            if same_name(&n.name, &name.name) {
                Some(n)
            } else {
                label_before(s, name)
            }
        }
        _ => None,
    }
}

/// .. in a list.
fn label_in<'a>(ss: &'a [Stmt], name: &Named) -> Option<&'a Named>
    ensures { option_copied result ≡ label_in (plain.stmts ss.now) name.now.name }
{
    'statements: for s in ss {
        let found = label_before(s, name);
        if found.is_some() {
            return found;
        }
    }
    None
}

/// Where the statement begins before which the label at this place stands.
fn place_in(labels: &[Label], spot: Spot) -> Option<u16>
    ensures { result ≡ label_place_in labels.now spot }
{
    'labels: for label in labels {
        if label.spot == spot {
            return Some(label.place);
        }
    }
    None
}

/// Where a label leads that a block declares: to the statement before which it stands in the block's list.
pub(crate) fn leads(labels: &[Label], declared: &Declared) -> Option<u16>
    ensures { result ≡ leads labels.now (entry_of declared.now) }
{
    match label_in(declared.stmts, declared.name) {
        Some(label) => place_in(labels, label.spot),
        None => None,
    }
}

//! Where the labels of a program lead.

ghost use Rattle.std.specs.Prelude.{◌≡◌, ◌+◌, ◌≤◌, ◌∷◌, length, map, OnOk, IfOk};
ghost use Rattle.algol_tree.specs.declared.TheConstants.{MOST_PROCEDURES, MOST_SEGMENT_TOKENS};
ghost use Rattle.algol_tree.specs.Image as plain;
ghost use Rattle.b67_ops.specs.declared.TheConstants as machine;
ghost use Rattle.b67_emit_text.specs.Entries.{AllLow, entries_of, entry_of};
ghost use Rattle.b67_emit_text.specs.Targets.{TargetAdds, AreSmall, AreTargets, target_there, targets_from};
ghost use Rattle.b67_emit_text.specs.Texts.{HaveLevelsBody, texts};

use crate::entries::{Declared, entries_of};
use crate::program::parts;
use crate::texts::within_body;
use algol_tree::{Body, Decl, Spot, Stmt};
use b67_emitter::{Target, TargetsByPlace};
use b67_ops::OUTER_LEVEL;
use std::alloc::{AllocError, Global};
use std::collections::BTreeMap;

/// A label that is declared at this place leads there, unless one stands there already.
fn add(table: &mut TargetsByPlace, spot: Spot, target: Target) -> Result<(), AllocError>
    ensures { OnOk result (TargetAdds table.old table.new (target_there spot target)) }
{
    table.entry(spot)?.or_insert(target);
    Ok(())
}

/// The same of the labels that the blocks of the text with this number declare.
fn add_entries(
    table: &mut TargetsByPlace,
    entries: &[Declared],
    text: u16,
) -> Result<(), AllocError>
    requires few { length entries.now ≤ MOST_SEGMENT_TOKENS }
    ensures { OnOk result (TargetAdds table.old table.new (targets_from text 0 (map entry_of entries.now))) }
{
    'entries: for number in 0..entries.len() {
        let entry = &entries[number];
        add(
            table,
            entry.name.spot,
            Target {
                level: entry.level,
                segment: text,
                entry: 3 + 3 * number as u16,
            },
        )?;
    }
    Ok(())
}

/// The same, where the text's block has this level, these declarations and these statements.
fn add_text(
    table: &mut TargetsByPlace,
    alloc: Global,
    ds: &[Decl],
    ss: &[Stmt],
    level: u8,
    text: u16,
) -> Result<(), AllocError>
    requires low { AllLow level (plain.stmts ss.now) }
    requires few { length (entries_of level (plain.decls ds.now) (plain.stmts ss.now)) ≤ MOST_SEGMENT_TOKENS }
    ensures { OnOk result (TargetAdds table.old table.new (targets_from text 0 (entries_of level (plain.decls ds.now) (plain.stmts ss.now)))) }
{
    let entries = entries_of(alloc, ds, ss, level)?;
    add_entries(table, &entries, text)
}

/// Where the labels of a program with this body lead, by the places where they are declared.
pub fn targets_of(alloc: Global, body: &Body) -> Result<TargetsByPlace, AllocError>
    requires levels { HaveLevelsBody (plain.body body.now) machine.OUTER_LEVEL }
    requires many { length (texts (plain.body body.now)) ≤ 1 + MOST_PROCEDURES }
    requires small { AreSmall (texts (plain.body body.now)) }
    ensures { IfOk result (AreTargets (texts (plain.body body.now))) }
{
    let mut table = BTreeMap::new(alloc);
    let mut procedures = Vec::new(alloc);
    within_body(body, OUTER_LEVEL, &mut procedures)?;
    add_text(
        &mut table,
        alloc,
        body.decls.items(),
        body.stmts.items(),
        OUTER_LEVEL,
        0,
    )?;
    'procedures: for number in 0..procedures.len() {
        let procedure = &procedures[number];
        let (ds, ss) = parts(procedure.body);
        add_text(
            &mut table,
            alloc,
            ds,
            ss,
            procedure.level,
            number as u16 + 1,
        )?;
    }
    Ok(table)
}

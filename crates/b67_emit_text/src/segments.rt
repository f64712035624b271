//! The code of a text, in a segment of its own.

ghost use Rattle.std.specs.Prelude.{◌≡◌, ℕ, ◌+◌, ◌*◌, ◌≤◌, ◌<◌, [], ◌++◌, length, map, IfOk, OnOk, IsSome, IsTrue};
ghost use Rattle.std.specs.List.{All};
ghost use Rattle.algol_tree.specs.declared.TheConstants.{MOST_BLOCK_CELLS, MOST_PROCEDURES};
ghost use Rattle.algol_tree.specs.Image as plain;
ghost use Rattle.b67_ops.specs.declared.TheConstants as machine;
ghost use Rattle.b67_segment.specs.declared.TheConstants.{MOST_SEGMENT_SYLLABLES};
ghost use Rattle.b67_segment.specs.Operators.{size};
ghost use Rattle.b67_segment.specs.Building.{level_set};
ghost use Rattle.b67_templates.specs.Emitting.{Emitted};
ghost use Rattle.b67_emitter.specs.Values.{AreNear, meanings};
ghost use Rattle.b67_faithful.specs.Lines.{formats_for, stmts_lines};
ghost use Rattle.b67_emit_stmt.specs.Actuals.{AreInner, images};
ghost use Rattle.b67_emit_stmt.specs.Bodies.{HaveInside, IsSmallBlock};
ghost use Rattle.b67_emit_stmt.specs.Drafts.{AddsStmts, FormatsCanBeListed, DraftIsAt, IsReady};
ghost use Rattle.b67_emit_stmt.specs.Lengths.{celled_in};
ghost use Rattle.b67_emit_text.specs.Entries.{entries_of, entry_of};
ghost use Rattle.b67_emit_text.specs.Codes.{AddsWhole, CanBegin, EmitsText, EmitsTextEnd, EndingAt, CodeIsMade, IsNear, segment_syllables, text_end_syllables, text_syllables, zeros_for};

use crate::entries::{Declared, entries_of};
use crate::heads::{aim_head, append_head};
use algol_tree::{Decl, Expr, Stmt};
use b67_emit_stmt::{Draft, StmtEmitter, actuals_of, variables_of};
use b67_emitter::{ExprEmitter, append_plain, append_reading};
use b67_ops::{Couple, PlainKind};
use b67_segment::{Builder, Format, Segment};
use std::alloc::{AllocError, Global};

/// How many cells of 0 a text has: one for its result, if it has any, and its simple variables.
fn zeros(returned: Option<u16>, ds: &[Decl]) -> usize
    requires { zeros_for returned (plain.decls ds.now) ≤ MOST_BLOCK_CELLS }
    ensures { result ≡ zeros_for returned (plain.decls ds.now) }
{
    match returned {
        None => variables_of(ds),
        Some(_) => 1 + variables_of(ds),
    }
}

/// EXIT, or the result, whose cell has this index, is given back.
fn append_end(level: u8, returned: Option<u16>, out: &mut Builder) -> Result<(), AllocError>
    requires set { IsSome out.old.level }
    requires level { level ≡ level_set out.old }
    requires near { IsNear returned }
    requires room { size out.old.operators + 3 ≤ MOST_SEGMENT_SYLLABLES }
    ensures code { OnOk result (Emitted out.old out.new (λ qs. EndingAt returned qs level (size out.old.operators))) }
    ensures size { OnOk result (size out.new.operators ≤ size out.old.operators + 3) }
{
    match returned {
        None => append_plain(out, PlainKind::Exit),
        Some(index) => {
            append_reading(out, Couple { level, index })?;
            append_plain(out, PlainKind::Retn)
        }
    }
}

/// The code of a text the code of whose actuals begins at these places, with its end.
fn text_end<E: ExprEmitter>(
    emitter: &StmtEmitter<E>,
    returned: Option<u16>,
    ds: &[Decl],
    ss: &[Stmt],
    actuals: &[&Expr],
    places: &[u16],
    to: &mut Draft,
) -> Result<(), AllocError>
    requires cell { IsNear returned }
    requires level { DraftIsAt emitter.now.level to.old }
    requires ready { IsReady emitter.now.known.now to.old (text_end_syllables emitter.now.known.now returned (plain.decls ds.now) (plain.stmts ss.now) (images actuals.now)) }
    requires few { IsSmallBlock (zeros_for returned (plain.decls ds.now)) (plain.decls ds.now) (images actuals.now) }
    requires inner { 1 ≤ length actuals.now → emitter.now.level + 1 ≤ machine.MOST_LEVEL }
    requires placed { length places.now ≡ length actuals.now }
    requires places { All (λ (at : ℕ). at < MOST_SEGMENT_SYLLABLES) places.now }
    requires fits { HaveInside emitter.now.known.now emitter.now.level (plain.decls ds.now) (plain.stmts ss.now) }
    ensures code { OnOk result (EmitsTextEnd emitter.now.known.now emitter.now.level to.old to.new returned (plain.decls ds.now) (plain.stmts ss.now) (images actuals.now) places.now) }
    ensures exits { OnOk result (to.new.exits.items ≡ to.old.exits.items) }
    ensures lines { OnOk result (AddsStmts to.old to.new (plain.stmts ss.now)) }
{
    emitter.inside(ss, ds, zeros(returned, ds), actuals, places, to)?;
    append_end(emitter.level, returned, &mut to.out)
}

/// The code of a text and of its actuals, which stands before its block; and where the block begins.
fn text_code<E: ExprEmitter>(
    emitter: &StmtEmitter<E>,
    returned: Option<u16>,
    ds: &[Decl],
    ss: &[Stmt],
    actuals: &[&Expr],
    to: &mut Draft,
) -> Result<u16, AllocError>
    requires cell { IsNear returned }
    requires level { DraftIsAt emitter.now.level to.old }
    requires ready { IsReady emitter.now.known.now to.old (text_syllables emitter.now.known.now returned (plain.decls ds.now) (plain.stmts ss.now)) }
    requires own { images actuals.now ≡ celled_in emitter.now.known.now (plain.decls ds.now) (plain.stmts ss.now) }
    requires few { IsSmallBlock (zeros_for returned (plain.decls ds.now)) (plain.decls ds.now) (celled_in emitter.now.known.now (plain.decls ds.now) (plain.stmts ss.now)) }
    requires fits { HaveInside emitter.now.known.now emitter.now.level (plain.decls ds.now) (plain.stmts ss.now) }
    ensures code { IfOk result (EmitsText emitter.now.known.now emitter.now.level to.old to.new returned (plain.decls ds.now) (plain.stmts ss.now)) }
    ensures exits { IfOk result (λ begin. to.new.exits.items ≡ to.old.exits.items) }
    ensures lines { IfOk result (λ begin. AddsStmts to.old to.new (plain.stmts ss.now)) }
{
    let places = emitter.routines(actuals, to)?;
    let begin = to.out.place();
    text_end(emitter, returned, ds, ss, actuals, &places, to)?;
    Ok(begin)
}

/// Tests that nothing stands before the block of a text: it has no labels, and no actual of it has a cell.
fn is_bare(entries: &[Declared], actuals: &[&Expr]) -> bool
    ensures { IsTrue result → (length entries.now ≡ 0) × (length actuals.now ≡ 0) }
{
    entries.is_empty() && actuals.is_empty()
}

/// All the code of a text before whose block nothing stands.
fn bare_text<E: ExprEmitter>(
    emitter: &StmtEmitter<E>,
    returned: Option<u16>,
    ds: &[Decl],
    ss: &[Stmt],
    actuals: &[&Expr],
    to: &mut Draft,
) -> Result<(), AllocError>
    requires begins { CanBegin emitter.now.known.now emitter.now.level to.old returned (plain.decls ds.now) (plain.stmts ss.now) }
    requires own { images actuals.now ≡ celled_in emitter.now.known.now (plain.decls ds.now) (plain.stmts ss.now) }
    requires bare { (entries_of emitter.now.level (plain.decls ds.now) (plain.stmts ss.now) ≡ []) × (length actuals.now ≡ 0) }
    ensures { OnOk result (AddsWhole emitter.now.known.now emitter.now.level to.old to.new returned (plain.decls ds.now) (plain.stmts ss.now)) }
{
    let _begin = text_code(emitter, returned, ds, ss, actuals, to)?;
    Ok(())
}

/// .. of a text with labels, or with such actuals: a branch over them and the table of the labels, and the code of the text. When that is
/// there, the branches are aimed.
fn headed_text<E: ExprEmitter>(
    emitter: &StmtEmitter<E>,
    returned: Option<u16>,
    ds: &[Decl],
    ss: &[Stmt],
    entries: &[Declared],
    actuals: &[&Expr],
    to: &mut Draft,
) -> Result<(), AllocError>
    requires begins { CanBegin emitter.now.known.now emitter.now.level to.old returned (plain.decls ds.now) (plain.stmts ss.now) }
    requires found { map entry_of entries.now ≡ entries_of emitter.now.level (plain.decls ds.now) (plain.stmts ss.now) }
    requires own { images actuals.now ≡ celled_in emitter.now.known.now (plain.decls ds.now) (plain.stmts ss.now) }
    ensures { OnOk result (AddsWhole emitter.now.known.now emitter.now.level to.old to.new returned (plain.decls ds.now) (plain.stmts ss.now)) }
{
    append_head(entries, emitter.level, &mut to.out)?;
    let begin = text_code(emitter, returned, ds, ss, actuals, to)?;
    aim_head(entries, begin, &to.labels, &mut to.out);
    Ok(())
}

/// All the code of a text with these labels.
fn text_with<E: ExprEmitter>(
    alloc: Global,
    emitter: &StmtEmitter<E>,
    returned: Option<u16>,
    ds: &[Decl],
    ss: &[Stmt],
    entries: &[Declared],
    to: &mut Draft,
) -> Result<(), AllocError>
    requires begins { CanBegin emitter.now.known.now emitter.now.level to.old returned (plain.decls ds.now) (plain.stmts ss.now) }
    requires found { map entry_of entries.now ≡ entries_of emitter.now.level (plain.decls ds.now) (plain.stmts ss.now) }
    ensures { OnOk result (AddsWhole emitter.now.known.now emitter.now.level to.old to.new returned (plain.decls ds.now) (plain.stmts ss.now)) }
{
    let actuals = actuals_of(alloc, ds, ss, emitter.known.names)?;
    if is_bare(entries, &actuals) {
        bare_text(emitter, returned, ds, ss, &actuals, to)
    } else {
        headed_text(emitter, returned, ds, ss, entries, &actuals, to)
    }
}

/// All the code of a text.
fn text_whole<E: ExprEmitter>(
    alloc: Global,
    emitter: &StmtEmitter<E>,
    returned: Option<u16>,
    ds: &[Decl],
    ss: &[Stmt],
    to: &mut Draft,
) -> Result<(), AllocError>
    requires { CanBegin emitter.now.known.now emitter.now.level to.old returned (plain.decls ds.now) (plain.stmts ss.now) }
    ensures { OnOk result (AddsWhole emitter.now.known.now emitter.now.level to.old to.new returned (plain.decls ds.now) (plain.stmts ss.now)) }
{
    let entries = entries_of(alloc, ds, ss, emitter.level)?;
    text_with(alloc, emitter, returned, ds, ss, &entries, to)
}

/// The code of a text whose block has this level, in a segment of its own, and the formats with those of its lines.
pub(crate) fn emit_text<E: ExprEmitter>(
    alloc: Global,
    emitter: &StmtEmitter<E>,
    returned: Option<u16>,
    ds: &[Decl],
    ss: &[Stmt],
    formats: Vec<Format>,
) -> Result<(Segment, Vec<Format>), AllocError>
    requires near { AreNear emitter.now.known.now.names.now }
    requires inner { AreInner (meanings emitter.now.known.now.names.now) }
    requires cell { IsNear returned }
    requires many { length emitter.now.known.now.procedures.now ≤ MOST_PROCEDURES }
    requires segment { emitter.now.known.now.segment ≤ MOST_PROCEDURES }
    requires formats { length formats.items ≤ MOST_SEGMENT_SYLLABLES * emitter.now.known.now.segment }
    requires outer { machine.OUTER_LEVEL ≤ emitter.now.level }
    requires most { emitter.now.level ≤ machine.MOST_LEVEL }
    requires small { IsSmallBlock (zeros_for returned (plain.decls ds.now)) (plain.decls ds.now) (celled_in emitter.now.known.now (plain.decls ds.now) (plain.stmts ss.now)) }
    requires fits { HaveInside emitter.now.known.now emitter.now.level (plain.decls ds.now) (plain.stmts ss.now) }
    requires room { segment_syllables emitter.now.known.now emitter.now.level returned (plain.decls ds.now) (plain.stmts ss.now) + 5 ≤ MOST_SEGMENT_SYLLABLES }
    ensures code { IfOk result (λ made. CodeIsMade emitter.now.known.now emitter.now.level returned (plain.decls ds.now) (plain.stmts ss.now) made.0 made.1.items) }
    ensures listed { IfOk result (λ made. FormatsCanBeListed formats.items → FormatsCanBeListed made.1.items) }
    ensures few { IfOk result (λ made. length made.1.items ≤ length formats.items + MOST_SEGMENT_SYLLABLES) }
    ensures lines { IfOk result (λ made. made.1.items ≡ formats.items ++ formats_for (stmts_lines (plain.stmts ss.now))) }
    ensures short { IfOk result (λ made. 6 * length made.0.words ≤ segment_syllables emitter.now.known.now emitter.now.level returned (plain.decls ds.now) (plain.stmts ss.now) + 5) }
{
    let mut to = Draft {
        out: Builder::new(alloc),
        exits: Vec::new(alloc),
        formats,
        labels: Vec::new(alloc),
    };
    to.out.level(emitter.level)?;
    text_whole(alloc, emitter, returned, ds, ss, &mut to)?;
    let Draft {
        out,
        exits: _,
        formats,
        labels: _,
    } = to;
    Ok((out.finish()?, formats))
}

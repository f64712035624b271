//! The segments of a program: one for each text.

ghost use Rattle.std.specs.Prelude.{◌≡◌, ◌+◌, ◌*◌, ◌≤◌, ◌++◌, length, map, IfOk};
ghost use Rattle.algol_tree.specs.declared.TheConstants.{MOST_BLOCK_CELLS, MOST_PROCEDURES};
ghost use Rattle.algol_tree.specs.Blocks.{decls_of, stmts_of};
ghost use Rattle.algol_tree.specs.Image as plain;
ghost use Rattle.algol_tree.specs.Scopes as scoped;
ghost use Rattle.b67_ops.specs.declared.TheConstants as machine;
ghost use Rattle.b67_segment.specs.declared.TheConstants.{MOST_SEGMENT_SYLLABLES};
ghost use Rattle.b67_emitter.specs.Values.{AreNear, meanings};
ghost use Rattle.b67_faithful.specs.Lines.{formats_for, lines_in, stmts_lines};
ghost use Rattle.b67_emit_stmt.specs.Actuals.{AreInner};
ghost use Rattle.b67_emit_stmt.specs.Drafts.{FormatsCanBeListed};
ghost use Rattle.b67_emit_text.specs.Codes.{result_index};
ghost use Rattle.b67_emit_text.specs.Programs.{AreDue, AreShort, Coded};
ghost use Rattle.b67_emit_text.specs.Segments.{TextCanStand, IsMadeOf, code_syllables};
ghost use Rattle.b67_emit_text.specs.Texts.{StandOnce, outer_text, places_of, text_of_procedure, texts, texts_in_body, texts_lines};

use crate::segments::emit_text;
use crate::texts::{Procedure, places_of_names, within_body};
use algol_places::Places;
use algol_tree::{Body, Decl, Heading, Stmt};
use b67_emit_stmt::{Known, StmtEmitter};
use b67_emitter::{ExprEmitter, Names};
use b67_ops::OUTER_LEVEL;
use b67_segment::{Format, Segment};
use std::alloc::{AllocError, Global};

/// The declarations and the statements of a procedure with this body.
pub(crate) fn parts(body: &Stmt) -> (&[Decl], &[Stmt])
    ensures decls { plain.decls result.0.now ≡ decls_of (plain.stmt body.now) }
    ensures stmts { plain.stmts result.1.now ≡ stmts_of (plain.stmt body.now) }
{
    match body {
        Stmt::Block(b) => (b.decls.items(), b.stmts.items()),
        s => (&[], std::slice::from_ref(s)),
    }
}

/// The index of the cell of its result, where a procedure with this heading has one: it lies after the frame's two words and the
/// parameters.
fn returned_by(heading: &Heading) -> Option<u16>
    requires { length heading.now.params ≤ MOST_BLOCK_CELLS }
    ensures { result ≡ result_index heading.now.kind (length heading.now.params) }
{
    match heading.kind {
        None => None,
        Some(_) => Some(2 + heading.params.items().len() as u16),
    }
}

/// The code of the outer block, in the first segment, and the formats of its lines.
fn emit_outer<E: ExprEmitter>(
    alloc: Global,
    exprs: &E,
    known: &Known,
    body: &Body,
) -> Result<(Segment, Vec<Format>), AllocError>
    requires near { AreNear known.now.names.now }
    requires inner { AreInner (meanings known.now.names.now) }
    requires many { length known.now.procedures.now ≤ MOST_PROCEDURES }
    requires segment { known.now.segment ≡ 0 }
    requires text { TextCanStand known.now (outer_text (plain.body body.now)) }
    ensures code { IfOk result (λ made. IsMadeOf known.now (outer_text (plain.body body.now)) made.0 made.1.items) }
    ensures listed { IfOk result (λ made. FormatsCanBeListed made.1.items) }
    ensures few { IfOk result (λ made. length made.1.items ≤ MOST_SEGMENT_SYLLABLES) }
    ensures lines { IfOk result (λ made. made.1.items ≡ formats_for (stmts_lines (outer_text (plain.body body.now)).stmts)) }
    ensures short { IfOk result (λ made. 6 * length made.0.words ≤ code_syllables known.now (outer_text (plain.body body.now)) + 5) }
{
    let emitter = StmtEmitter {
        exprs,
        known,
        level: OUTER_LEVEL,
    };
    let none = Vec::new(alloc);
    emit_text(
        alloc,
        &emitter,
        None,
        body.decls.items(),
        body.stmts.items(),
        none,
    )
}

/// The code of a procedure, in the segment that is known, and the formats with those of its lines.
fn emit_procedure<E: ExprEmitter>(
    alloc: Global,
    exprs: &E,
    known: &Known,
    procedure: &Procedure,
    formats: Vec<Format>,
) -> Result<(Segment, Vec<Format>), AllocError>
    requires near { AreNear known.now.names.now }
    requires inner { AreInner (meanings known.now.names.now) }
    requires many { length known.now.procedures.now ≤ MOST_PROCEDURES }
    requires segment { known.now.segment ≤ MOST_PROCEDURES }
    requires formats { length formats.items ≤ MOST_SEGMENT_SYLLABLES * known.now.segment }
    requires text { TextCanStand known.now (text_of_procedure procedure.now) }
    ensures code { IfOk result (λ made. IsMadeOf known.now (text_of_procedure procedure.now) made.0 made.1.items) }
    ensures listed { IfOk result (λ made. FormatsCanBeListed formats.items → FormatsCanBeListed made.1.items) }
    ensures few { IfOk result (λ made. length made.1.items ≤ length formats.items + MOST_SEGMENT_SYLLABLES) }
    ensures lines { IfOk result (λ made. made.1.items ≡ formats.items ++ formats_for (stmts_lines (text_of_procedure procedure.now).stmts)) }
    ensures short { IfOk result (λ made. 6 * length made.0.words ≤ code_syllables known.now (text_of_procedure procedure.now) + 5) }
{
    let emitter = StmtEmitter {
        exprs,
        known,
        level: procedure.level,
    };
    let (ds, ss) = parts(procedure.body);
    let returned = returned_by(procedure.heading);
    emit_text(alloc, &emitter, returned, ds, ss, formats)
}

/// The segments of a program whose procedures and the places of whose names are these, and the formats of all its lines.
fn emit_texts<E: ExprEmitter>(
    alloc: Global,
    exprs: &E,
    names: &Names,
    body: &Body,
    procedures: &[Procedure],
    places: &Places,
) -> Result<(Vec<Segment>, Vec<Format>), AllocError>
    requires near { AreNear names.now }
    requires inner { AreInner (meanings names.now) }
    requires few { length (texts (plain.body body.now)) ≤ 1 + MOST_PROCEDURES }
    requires due { (sc : scoped.Scopes) × AreDue sc names.now (texts (plain.body body.now)) }
    requires once { StandOnce (texts (plain.body body.now)) }
    requires found { map text_of_procedure procedures.now ≡ texts_in_body (plain.body body.now) machine.OUTER_LEVEL }
    requires places { places.now ≡ places_of (texts_in_body (plain.body body.now) machine.OUTER_LEVEL) }
    ensures code { IfOk result (λ made. (sc : scoped.Scopes) → AreDue sc names.now (texts (plain.body body.now)) → Coded sc made.1.items made.0.items (texts (plain.body body.now))) }
    ensures formats { IfOk result (λ made. FormatsCanBeListed made.1.items) }
    ensures lines { IfOk result (λ made. made.1.items ≡ formats_for (texts_lines (texts (plain.body body.now)))) }
    ensures short { IfOk result (λ made. AreShort made.0.items (texts (plain.body body.now))) }
{
    let outer = Known {
        names: &*names,
        procedures: &*places,
        segment: 0,
    };
    let (first, mut formats) = emit_outer(alloc, exprs, &outer, body)?;
    let mut segments = Vec::new(alloc);
    segments.push(first)?;
    'procedures: for procedure in procedures {
        let known = Known {
            names: &*names,
            procedures: &*places,
            segment: segments.len() as u16,
        };
        let (segment, more) = emit_procedure(alloc, exprs, &known, procedure, formats)?;
        segments.push(segment)?;
        formats = more;
    }
    Ok((segments, formats))
}

/// The segments of a program: that of its outer block, and those of its procedures in the order of the text; and the formats of all
/// their lines.
pub fn emit_program<E: ExprEmitter>(
    alloc: Global,
    exprs: &E,
    names: &Names,
    body: &Body,
) -> Result<(Vec<Segment>, Vec<Format>), AllocError>
    requires near { AreNear names.now }
    requires inner { AreInner (meanings names.now) }
    requires few { length (texts (plain.body body.now)) ≤ 1 + MOST_PROCEDURES }
    requires due { (sc : scoped.Scopes) × AreDue sc names.now (texts (plain.body body.now)) }
    requires once { StandOnce (texts (plain.body body.now)) }
    ensures code { IfOk result (λ made. (sc : scoped.Scopes) → AreDue sc names.now (texts (plain.body body.now)) → Coded sc made.1.items made.0.items (texts (plain.body body.now))) }
    ensures formats { IfOk result (λ made. FormatsCanBeListed made.1.items) }
    ensures lines { IfOk result (λ made. made.1.items ≡ formats_for (lines_in (plain.body body.now))) }
    ensures short { IfOk result (λ made. AreShort made.0.items (texts (plain.body body.now))) }
{
    let mut procedures = Vec::new(alloc);
    within_body(body, OUTER_LEVEL, &mut procedures)?;
    let places = places_of_names(alloc, &procedures)?;
    emit_texts(alloc, exprs, names, body, &procedures, &places)
}

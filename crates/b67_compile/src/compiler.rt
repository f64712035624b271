//! The code of a source.

ghost use Rattle.std.specs.Prelude.{IfOk};
ghost use Rattle.algol_tree.specs.Accepted.{Accepted};
ghost use Rattle.algol_tree.specs.Ascending.{IsInOrder};
ghost use Rattle.algol_tree.specs.Image as plain;
ghost use Rattle.algol_scope.specs.Resolved.{AreOf};
ghost use Rattle.b67_listing.specs.Listings.{IsListable};
ghost use Rattle.b67_templates.specs.Programs.{ProgramAt};
ghost use Rattle.b67_templates.specs.Names.{HasNames};
ghost use Rattle.b67_fitting.specs.Texts.{HasPlainTexts};
ghost use Rattle.b67_fitting.specs.Wholes.{HasWholeNumbers};
ghost use Rattle.b67_faithful.specs.Faithful.{Faithful, HasFormats, IsShortSegment};
ghost use Rattle.b67_settling.specs.Local.{StacksStayOwn};

use algol_front::Checked;
use algol_lows::lows_of_program;
use algol_scope::Scopes;
use algol_tree::Program;
use b67_emit_expr::Exprs;
use b67_emit_text::{emit_program, targets_of};
use b67_emitter::{ExprEmitter, Names};
use b67_list::List;
use b67_segment::Code;
use std::alloc::{AllocError, Global};

/// The code of a program: a segment for the program's text and one for each procedure in the order of the text, and a
/// format for each line that is written, in order.
fn code_of<E: ExprEmitter>(
    alloc: Global,
    exprs: &E,
    program: &Program,
    scopes: &Scopes,
) -> Result<Code, AllocError>
    requires resolved { AreOf (plain.program program.now) scopes.now }
    requires accepted { Accepted (plain.program program.now) }
    requires order { IsInOrder (plain.program program.now) }
    requires whole { HasWholeNumbers (plain.program program.now) }
    requires texts { HasPlainTexts (plain.program program.now) }
    requires named { HasNames (plain.program program.now) }
    ensures code { IfOk result (λ code. ProgramAt code (plain.program program.now)) }
    ensures formats { IfOk result (HasFormats (plain.program program.now)) }
    ensures short { IfOk result (IsShortSegment (plain.program program.now)) }
    ensures listable { IfOk result IsListable }
{
    let lows = lows_of_program(alloc, program, scopes)?;
    let labels = targets_of(alloc, &program.body)?;
    let names = Names::new(scopes, lows, labels);
    let (segments, formats) = emit_program(alloc, exprs, &names, &program.body)?;
    Ok(Code {
        segments: List::of(segments),
        formats: List::of(formats),
    })
}

/// The code of an accepted source. For every list of choices it does what the source does, and its listing tells it; and no process of it touches the
/// stack of another on which nobody depends.
pub fn compile(alloc: Global, checked: &Checked) -> Result<Code, AllocError>
    ensures faithful { IfOk result (Faithful (plain.program checked.now.program)) }
    ensures stacks { IfOk result StacksStayOwn }
{
    code_of(alloc, &Exprs { alloc }, &checked.program, &checked.scopes)
}

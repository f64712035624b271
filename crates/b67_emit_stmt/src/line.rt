//! Lines: their formats, and the statement that writes one.

ghost use Rattle.std.specs.Prelude.{◌≡◌, ◌+◌, ◌≤◌, List, IsSome, IfOk, OnOk};
ghost use Rattle.algol_tree.specs.declared.TheConstants.{MOST_LINE_WIDTH};
ghost use Rattle.algol_tree.specs.Image.{exprs};
ghost use Rattle.b67_emit_stmt.specs.Places.{Later, Place, LineAt, WriteListAt};
ghost use Rattle.algol_tree.specs.Spelling.{value_of};
ghost use Rattle.b67_segment.specs.declared.TheConstants.{MOST_SEGMENT_SYLLABLES};
ghost use Rattle.b67_segment.specs.declared.code.Format.{Format};
ghost use Rattle.b67_segment.specs.Operators.{size};
ghost use Rattle.b67_segment.specs.Building.{level_set};
ghost use Rattle.b67_templates.specs.Code.{AreParts, IsCodePart, word_part};
ghost use Rattle.b67_templates.specs.Fitting.{IsNarrowWord, PhraseFits, PhrasesFit};
ghost use Rattle.b67_emit_stmt.specs.Fits.{LineFits, WriteFits};
ghost use Rattle.b67_templates.specs.Emitting.{Emitted};
ghost use Rattle.b67_emitter.specs.Values.{AreNear};
ghost use Rattle.b67_emit_stmt.specs.Drafts.{AddsLine, Emits, IsReady};
ghost use Rattle.b67_emit_stmt.specs.Lengths.{items_syllables, write_syllables};

use crate::draft::{Draft, StmtEmitter};
use algol_tree::{Expr, PhraseText, Whole};
use b67_emitter::{ExprEmitter, append_intrinsic, append_number, append_plain};
use b67_list::{Line, List};
use b67_ops::{Intrinsic, PlainKind};
use b67_segment::{Builder, Format, Phrase};
use std::alloc::{AllocError, Global};

/// The number of decimal digits.
fn width_of(digits: &[u8]) -> u32
    requires { value_of digits.now ≤ MOST_LINE_WIDTH }
    ensures { result ≡ value_of digits.now }
{
    let mut width: u32 = 0;
    'digits: for digit in digits {
        width = width * 10 + u32::from(digit.saturating_sub(b'0'));
    }
    width
}

/// `Iw` is a number in w columns, `Xw` are w blanks.
fn word_phrase(word: &[u8]) -> Phrase
    requires { IsNarrowWord word.now }
    ensures { result ≡ word_part word.now }
{
    match word.split_first() {
        None => Phrase::Blanks(0),
        Some((letter, digits)) => match *letter {
            b'I' => Phrase::Number(width_of(digits)),
            _ => Phrase::Blanks(width_of(digits)),
        },
    }
}

fn phrase_of(alloc: Global, text: &PhraseText) -> Result<Phrase, AllocError>
    requires { PhraseFits text.now }
    ensures { IfOk result (IsCodePart text.now) }
{
    match text {
        PhraseText::Text(line) => Ok(Phrase::Text(Line::of(Vec::from_slice(alloc, line.bytes())?))),
        PhraseText::Word(word) => Ok(word_phrase(word.bytes())),
    }
}

/// The format of a line of these phrases.
fn format_of(alloc: Global, texts: &[PhraseText]) -> Result<Format, AllocError>
    requires { PhrasesFit texts.now }
    ensures { IfOk result (λ format. AreParts texts.now format.phrases) }
{
    let mut phrases = Vec::with_capacity(alloc, texts.len())?;
    'texts: for text in texts {
        phrases.push(phrase_of(alloc, text)?)?;
    }
    Ok(Format {
        phrases: List::of(phrases),
    })
}

impl<'a, E: ExprEmitter> StmtEmitter<'a, E> {
    /// The values of items.
    fn items(&self, items: &[Expr], out: &mut Builder) -> Result<(), AllocError>
        requires set { IsSome out.old.level }
        requires near { AreNear self.now.known.now.names.now }
        requires fits { (sc : Place) × LineFits sc self.now.known.now (level_set out.old) (exprs items.now) }
        requires room { size out.old.operators + items_syllables self.now.known.now (exprs items.now) ≤ MOST_SEGMENT_SYLLABLES }
        ensures code { OnOk result ((sc : Place) (later : Later) → LineFits sc self.now.known.now (level_set out.old) (exprs items.now) → Emitted out.old out.new (λ qs. LineAt sc later qs (level_set out.old) (exprs items.now) (size out.old.operators) (size out.new.operators))) }
        ensures level { OnOk result (out.new.level ≡ out.old.level) }
        ensures size { OnOk result (size out.new.operators ≤ size out.old.operators + items_syllables self.now.known.now (exprs items.now)) }
    {
        'items: for item in items {
            self.exprs.value(item, self.known.names, out)?;
        }
        Ok(())
    }

    /// WRITE: a mark, the reference of the intrinsic, the format's number, the items, the entry.
    pub(crate) fn write(
        &self,
        phrases: &[PhraseText],
        items: &[Expr],
        to: &mut Draft,
    ) -> Result<(), AllocError>
        requires ready { IsReady self.now.known.now to.old (write_syllables self.now.known.now (exprs items.now)) }
        requires fits { (sc : Place) × WriteFits sc self.now.known.now (level_set to.old.out) phrases.now (exprs items.now) }
        ensures code { OnOk result ((sc : Place) → WriteFits sc self.now.known.now (level_set to.old.out) phrases.now (exprs items.now) → Emits (write_syllables self.now.known.now (exprs items.now)) to.old to.new (λ later qs target. WriteListAt sc later qs (level_set to.old.out) phrases.now (exprs items.now) (size to.old.out.operators) (size to.new.out.operators))) }
        ensures lines { OnOk result (AddsLine to.old to.new phrases.now) }
    {
        let number = to.formats.len();
        append_intrinsic(&mut to.out, Intrinsic::Write)?;
        append_number(&mut to.out, Whole::fitting(number as i64))?;
        self.items(items, &mut to.out)?;
        append_plain(&mut to.out, PlainKind::Entr)?;
        let format = format_of(*to.formats.allocator(), phrases)?;
        to.formats.push(format)?;
        Ok(())
    }
}

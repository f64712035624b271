//! The assembler: the code of a text, or the first line of the text that breaks a rule.
//!
//! What the lines of a text are stands with `b67_asm_text`. `SEGMENT` begins the next segment, at the level of the outer block;
//! operators stand one after another at the level that was set last, and NOOPs fill the last word of a segment. A label is the place of
//! the next syllable, in its own segment only, and may stand after the branches to it.
#![tactic(auto)]

mod assembler;
mod label;
mod refusal;
mod rule;
mod segment;

ghost use Rattle.std.specs.Prelude.{◌≡◌, ℕ, List};
ghost use Rattle.b67_segment.specs.declared.code.Code.{Code};
ghost use Rattle.b67_asm.specs.declared.refusal.Refusal.{Refusal};
ghost use Rattle.b67_asm.specs.Assembling.{Assembles, IsRefusedText};
ghost use Rattle.b67_asm.specs.Formats.{FormatsAreListed};
ghost use Rattle.b67_asm.specs.Writable.{IsWritable};

pub use assembler::assemble;
pub use refusal::{NotAssembled, Refusal, Rule};

/// A text has one code; one that has a code is not refused, and a text is refused in one way.
pub fn texts_have_one_code()
    ensures one { (bytes : List ℕ) (code other : Code) → Assembles bytes code → Assembles bytes other → code ≡ other }
    ensures apart { (bytes : List ℕ) (code : Code) (refusal : Refusal) → Assembles bytes code → IsRefusedText bytes refusal → ⊥ }
    ensures refused { (bytes : List ℕ) (refusal other : Refusal) → IsRefusedText bytes refusal → IsRefusedText bytes other → refusal ≡ other }
{}

/// The code of a text can be listed, has a segment, and its formats have phrases that fit a line.
pub fn codes_of_texts_can_be_written()
    ensures { (bytes : List ℕ) (code : Code) → Assembles bytes code → IsWritable code }
{}

/// Law: the phrases of a format that fits a line are read exactly where they stand as in a listing: after the word FORMAT, between
/// brackets, with commas between them, and with blanks wherever no phrase is cut.
pub fn formats_are_listed()
    ensures { FormatsAreListed }
{}

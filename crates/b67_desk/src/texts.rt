//! The lines of the answers that are no report.

ghost use Rattle.std.specs.Prelude.{◌≡◌, ◌++◌, IfOk, OnOk};
ghost use Rattle.b67_desk.specs.Answers.{usage_words, usage_text, code_words, refused_text, accepted_text, too_long_text, bad_schedule_text, listing_text, trial_text};
ghost use Rattle.b67_desk.specs.Consoling.{bad_console_text};

use crate::status::Code;
use algol_tree::{Spot, rule_letter, rule_number};
use b67_list::{Line, List, push_number};
use b67_report::{Report, push_end, push_lines};
use b67_words::UsageKind;
use std::alloc::{AllocError, Global};

/// The words of what is wrong with a word.
fn usage_words(kind: UsageKind) -> &'static [u8]
    ensures { result.now ≡ usage_words kind }
{
    match kind {
        UsageKind::Missing => b"MISSING",
        UsageKind::Unknown => b"UNKNOWN",
        UsageKind::BadNumber => b"BAD NUMBER",
        UsageKind::BadRule => b"BAD RULE",
        UsageKind::Extra => b"EXTRA",
    }
}

/// The line that names the word that breaks the grammar.
pub fn usage_line(alloc: Global, word: u32, kind: UsageKind) -> Result<Vec<u8>, AllocError>
    ensures { IfOk result (λ text. text.items ≡ usage_text word kind) }
{
    let mut text = Vec::new(alloc);
    push_number(&mut text, b"USAGE ", word)?;
    text.extend_from_slice(b" ")?;
    text.extend_from_slice(usage_words(kind))?;
    text.extend_from_slice(b"\n")?;
    Ok(text)
}

/// Appends the letter and the number of a refusal.
fn push_code(text: &mut Vec<u8>, code: Code) -> Result<(), AllocError>
    ensures { OnOk result (text.new.items ≡ text.old.items ++ code_words code) }
{
    match code {
        Code::OfSource(code) => push_number(text, &[rule_letter(code)], rule_number(code)),
        Code::OfText(rule) => push_number(text, b"A", rule.number()),
    }
}

/// The line of a text that is refused at a place.
pub fn refused_line(alloc: Global, place: Spot, code: Code) -> Result<Vec<u8>, AllocError>
    ensures { IfOk result (λ text. text.items ≡ refused_text place code) }
{
    let mut text = Vec::from_slice(alloc, b"REFUSED ")?;
    push_code(&mut text, code)?;
    push_number(&mut text, b" ", place.line)?;
    push_number(&mut text, b":", place.column)?;
    text.extend_from_slice(b"\n")?;
    Ok(text)
}

/// The line of a source that is accepted.
pub fn accepted_line(alloc: Global) -> Result<Vec<u8>, AllocError>
    ensures { IfOk result (λ text. text.items ≡ accepted_text) }
{
    Vec::from_slice(alloc, b"ACCEPTED\n")
}

/// The line of a source that has too many bytes.
pub fn too_long_line(alloc: Global) -> Result<Vec<u8>, AllocError>
    ensures { IfOk result (λ text. text.items ≡ too_long_text) }
{
    Vec::from_slice(alloc, b"TOO LONG\n")
}

/// The line of a schedule text that is bad from a byte on.
pub fn bad_schedule_line(alloc: Global, byte: u64) -> Result<Vec<u8>, AllocError>
    ensures { IfOk result (λ text. text.items ≡ bad_schedule_text byte) }
{
    let mut text = Vec::new(alloc);
    push_number(&mut text, b"BAD SCHEDULE ", byte)?;
    text.extend_from_slice(b"\n")?;
    Ok(text)
}

/// The line of a text of commands that is bad at a line.
pub fn bad_console_line(alloc: Global, line: u32) -> Result<Vec<u8>, AllocError>
    ensures { IfOk result (λ text. text.items ≡ bad_console_text line) }
{
    let mut text = Vec::new(alloc);
    push_number(&mut text, b"BAD CONSOLE ", line)?;
    text.extend_from_slice(b"\n")?;
    Ok(text)
}

/// The lines of a listing, with their number before them.
pub fn listing_lines(alloc: Global, lines: &List<Line>) -> Result<Vec<u8>, AllocError>
    ensures { IfOk result (λ text. text.items ≡ listing_text lines.now) }
{
    let mut text = Vec::new(alloc);
    push_lines(&mut text, b"LISTING ", lines.items().as_slice())?;
    Ok(text)
}

/// The lines of a trial: how many bytes its source has, the output of its run, and how that ended.
pub fn trial_lines(alloc: Global, bytes: usize, report: &Report) -> Result<Vec<u8>, AllocError>
    ensures { IfOk result (λ text. text.items ≡ trial_text bytes report.now) }
{
    let mut text = Vec::new(alloc);
    push_number(&mut text, b"SOURCE ", bytes)?;
    text.extend_from_slice(b"\n")?;
    push_lines(&mut text, b"OUTPUT ", report.output.items().as_slice())?;
    push_end(&mut text, &report.end)?;
    text.extend_from_slice(b"\n")?;
    Ok(text)
}

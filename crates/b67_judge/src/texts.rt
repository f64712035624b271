//! The line of a verdict.

ghost use Rattle.std.specs.Prelude.{◌≡◌, ◌++◌, IfOk, OnOk};
ghost use Rattle.b67_judge.specs.Texts.{verdict_words, verdict_text};

use crate::Verdict;
use b67_list::push_number;
use std::alloc::{AllocError, Global};

/// Appends the words of a verdict.
fn push_verdict(text: &mut Vec<u8>, verdict: Verdict) -> Result<(), AllocError>
    ensures { OnOk result (text.new.items ≡ text.old.items ++ verdict_words verdict) }
{
    match verdict {
        Verdict::Just => text.extend_from_slice(b"JUST"),
        Verdict::BadEntry { entry } => push_number(text, b"UNJUST ENTRY ", entry),
        Verdict::BadLine { line } => push_number(text, b"UNJUST LINE ", line),
        Verdict::BadEnd => text.extend_from_slice(b"UNJUST END"),
    }
}

/// The line of a verdict.
pub fn verdict_line(alloc: Global, verdict: Verdict) -> Result<Vec<u8>, AllocError>
    ensures { IfOk result (λ text. text.items ≡ verdict_text verdict) }
{
    let mut text = Vec::new(alloc);
    push_verdict(&mut text, verdict)?;
    text.extend_from_slice(b"\n")?;
    Ok(text)
}

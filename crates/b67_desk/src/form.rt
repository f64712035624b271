//! The forms of the commands' inputs: how each is divided, and how long it may be.

ghost use Rattle.std.specs.Prelude.{◌≡◌, Some, option_copied};
ghost use Rattle.b67_parts.specs.declared.TheConstants.{MOST_INPUT_BYTES};
ghost use Rattle.b67_desk.specs.Answers.{DividedBy, form_of};

use algol_tree::MOST_SOURCE_BYTES;
use b67_parts::{MOST_INPUT_BYTES, divided};
use b67_words::{Task, Words};

/// How the input of a command is divided, and how many bytes it may have.
#[derive(Clone, Copy)]
pub struct Form {
    /// The record that stands between a source and the text after it, where the input has both.
    pub mark: Option<&'static [u8]>,
    /// The most bytes.
    pub most: usize,
}

/// The form of an input that has a text after a source.
fn with_text(mark: &'static [u8]) -> Form
    ensures mark { option_copied result.mark ≡ Some mark.now }
    ensures most { result.most ≡ MOST_INPUT_BYTES }
{
    Form {
        mark: Some(mark),
        most: MOST_INPUT_BYTES,
    }
}

/// The form of a command's input.
pub fn form_of(command: Words) -> Form
    ensures mark { option_copied result.mark ≡ (form_of command).mark }
    ensures most { result.most ≡ (form_of command).most }
{
    match command {
        Words::OnSource(Task::Replay { .. } | Task::Dump { .. } | Task::Console) => {
            with_text(b"%%SCHEDULE")
        }
        Words::OnSource(Task::Judge | Task::Race) => with_text(b"%%REPORT"),
        Words::OnSource(Task::Run { .. } | Task::Check | Task::List | Task::Outcomes { .. })
        | Words::Exec { .. }
        | Words::Trial { .. } => Form {
            mark: None,
            most: MOST_SOURCE_BYTES,
        },
    }
}

/// The source in bytes that were read, and the text after it.
pub fn divide<'a>(mark: Option<&[u8]>, bytes: &'a [u8]) -> (&'a [u8], Option<&'a [u8]>)
    ensures { DividedBy (option_copied mark.entry) bytes.now result.0.now (option_copied result.1) }
{
    match mark {
        Some(mark) => divided(mark, bytes),
        None => (bytes, None),
    }
}

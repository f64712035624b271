//! The labels of a segment.

ghost use Rattle.std.specs.Prelude.{◌≡◌, ◌+◌, ◌^◌, ◌<◌, ◌≤◌, ℕ, List, drop, length, false, IfOk, OnOk};
ghost use Rattle.b67_asm.specs.Labels.{found_in, kind_written, labels_from, label_named, place_after, width_of};
ghost use Rattle.b67_asm.specs.Rules.{is_segment};
ghost use Rattle.b67_asm.specs.Steps.{LabelAdds, Gathers, LabelPuts};

use b67_asm_text::{Reading, Written};
use b67_ops::OperatorKind;
use std::alloc::{AllocError, Global};
use std::collections::BTreeMap;

/// Where a label stands: its line, and the place of the next syllable.
#[derive(Clone, Copy)]
pub struct Standing {
    pub line: u32,
    pub place: usize,
}

/// The labels of a segment, by their names.
pub type Labels<'t> = BTreeMap<&'t [u8], Standing>;

/// How many syllables an operator has that begins at this place.
fn width_of(at: usize, kind: OperatorKind) -> usize
    ensures value { result ≡ width_of at kind }
    ensures most { result ≤ 12 }
{
    match kind {
        OperatorKind::Valc | OperatorKind::Namc | OperatorKind::Lt8 => 2,
        OperatorKind::Lt16 | OperatorKind::Branch(_) => 3,
        OperatorKind::Lt48 | OperatorKind::Mpcw => 12 - at % 6,
        OperatorKind::Plain(_) => 1,
    }
}

/// A written operator without its operand.
fn kind_written(written: &Written) -> OperatorKind
    ensures { result ≡ kind_written written.now }
{
    match written {
        Written::Whole(operator) => operator.kind(),
        Written::ToLabel(kind, _) => OperatorKind::Branch(*kind),
        Written::TooGreat(kind) => *kind,
    }
}

/// The place after a written operator.
pub(crate) fn place_after(at: usize, written: &Written) -> usize
    requires { at < 2 ^ 60 }
    ensures value { result ≡ place_after at written.now }
    ensures most { result ≤ at + 12 }
{
    at + width_of(at, kind_written(written))
}

/// The label of a name.
pub(crate) fn found_in(labels: &Labels<'_>, name: &[u8]) -> Option<Standing>
    ensures { result ≡ found_in labels.now name.now }
{
    labels.get(name).copied()
}

/// A label of a name goes into a table that has none of it.
#[tactic(auto, using(crate::proofs::Tables::puts))]
fn insert<'t>(labels: &mut Labels<'t>, name: &'t [u8], standing: Standing) -> Result<(), AllocError>
    ensures { OnOk result (LabelPuts labels.old labels.new name.now standing) }
{
    labels.insert(name, standing)?;
    Ok(())
}

/// A label goes after those that a table has: the first of a name stays.
fn put<'t>(labels: &mut Labels<'t>, name: &'t [u8], standing: Standing) -> Result<(), AllocError>
    ensures { OnOk result (LabelAdds labels.old labels.new name.now standing) }
{
    if labels.contains_key(name) {
        return Ok(());
    }
    insert(labels, name, standing)?;
    Ok(())
}

/// What a line has for a table of labels, and the place after the line.
fn gather<'t>(
    labels: &mut Labels<'t>,
    line: u32,
    at: usize,
    reading: &'t Reading,
) -> Result<usize, AllocError>
    requires at { at < 2 ^ 60 }
    requires inside { is_segment reading.now ≡ false }
    ensures gathers { IfOk result (Gathers labels.old labels.new line at reading.now) }
    ensures most { IfOk result (λ next. next ≤ at + 12) }
{
    match reading {
        Reading::Label(name) => {
            put(labels, name.bytes(), Standing { line, place: at })?;
            Ok(at)
        }
        Reading::Operator(written) => Ok(place_after(at, written)),
        _ => Ok(at),
    }
}

/// Tests that a line is SEGMENT.
pub(crate) fn is_segment(reading: &Reading) -> bool
    ensures { result ≡ is_segment reading.now }
{
    matches!(reading, Reading::Segment)
}

/// The labels of a segment whose lines stand from here to the next SEGMENT.
pub(crate) fn labels_of<'t>(
    alloc: Global,
    lines: &'t [Reading],
    from: usize,
) -> Result<Labels<'t>, AllocError>
    requires few { length lines.now < 2 ^ 32 }
    requires from { from ≤ length lines.now }
    ensures { IfOk result (λ labels. (name : List ℕ) → found_in labels name ≡ label_named (labels_from (from + 1) 0 (drop from lines.now)) name) }
{
    let mut labels = BTreeMap::new(alloc);
    let mut at = 0;
    let mut next = from;
    'lines: while next < lines.len() {
        let reading = &lines[next];
        if is_segment(reading) {
            return Ok(labels);
        }
        at = gather(&mut labels, next as u32 + 1, at, reading)?;
        next += 1;
    }
    Ok(labels)
}

//! The start of the code of a text: a branch over what stands before its block, and the table of its labels.

ghost use Rattle.std.specs.Prelude.{◌≡◌, ℕ, ◌+◌, ◌*◌, ◌≤◌, Some, length, map, OnOk};
ghost use Rattle.std.specs.List.{AllByRecursion};
ghost use Rattle.b67_ops.specs.declared.TheConstants as machine;
ghost use Rattle.b67_segment.specs.declared.TheConstants.{MOST_SEGMENT_SYLLABLES};
ghost use Rattle.b67_segment.specs.Operators.{size};
ghost use Rattle.b67_emit_text.specs.Entries.{HeadAt, HeadAimed, IsLeveled, entry_of};

use crate::entries::{Declared, leads};
use b67_emit_stmt::Label;
use b67_emitter::append_operator;
use b67_ops::{BranchKind, Operator};
use b67_segment::Builder;
use std::alloc::AllocError;

/// The syllables of a branch, and so of an entry of the table.
const ENTRY: u16 = 3;

/// A branch, and after it one for each label at the level of its block. None is aimed yet.
pub(crate) fn append_head(
    entries: &[Declared],
    level: u8,
    out: &mut Builder,
) -> Result<(), AllocError>
    requires start { size out.old.operators ≡ 0 }
    requires set { out.old.level ≡ Some level }
    requires outer { machine.OUTER_LEVEL ≤ level }
    requires most { level ≤ machine.MOST_LEVEL }
    requires levels { AllByRecursion IsLeveled (map entry_of entries.now) }
    requires room { 3 + 3 * length entries.now ≤ MOST_SEGMENT_SYLLABLES }
    ensures head { OnOk result (HeadAt out.new.operators level (map entry_of entries.now)) }
    ensures level { OnOk result (out.new.level ≡ Some level) }
    ensures size { OnOk result (size out.new.operators ≡ 3 + 3 * length entries.now) }
{
    append_operator(out, &Operator::Branch(BranchKind::Brun, 0))?;
    'entries: for entry in entries {
        out.level(entry.level)?;
        append_operator(out, &Operator::Branch(BranchKind::Brun, 0))?;
    }
    out.level(level)
}

/// The first branch goes to this place, and the branch of each label to where that leads.
pub(crate) fn aim_head(entries: &[Declared], begin: u16, labels: &[Label], out: &mut Builder)
    requires head { (level : ℕ) × HeadAt out.old.operators level (map entry_of entries.now) }
    requires room { 3 + 3 * length entries.now ≤ MOST_SEGMENT_SYLLABLES }
    ensures { HeadAimed (map entry_of entries.now) begin labels.now out.old out.new }
{
    out.patch(0, begin);
    let mut branch = ENTRY;
    'entries: for entry in entries {
        if let Some(place) = leads(labels, entry) {
            out.patch(branch, place);
        }
        branch += ENTRY;
    }
}

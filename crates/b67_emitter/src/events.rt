//! An intrinsic on events, and the task of a process.

ghost use Rattle.std.specs.Prelude.{◌≡◌, ◌+◌, ◌*◌, ◌≤◌, length, IsSome, OnOk};
ghost use Rattle.b67_segment.specs.declared.TheConstants.{MOST_SEGMENT_SYLLABLES};
ghost use Rattle.b67_segment.specs.Operators.{size};
ghost use Rattle.b67_segment.specs.Building.{level_set};
ghost use Rattle.b67_emitter.specs.Values.{AreNear, HasEvents, EventsEmitted, HasTask, TaskEmitted};

use crate::appending::{append_number, append_plain, append_reference};
use crate::calling::append_intrinsic;
use crate::expressions::couple_of;
use crate::names::Names;
use algol_tree::{EventName, Named, Whole};
use b67_ops::{Intrinsic, PlainKind};
use b67_segment::Builder;
use std::alloc::AllocError;

/// Appends an intrinsic on events: its beginning, the references of the events' cells, or of the parameters that stand for them, in the
/// order in which the events are named, and the entry.
pub fn append_on_events(
    intrinsic: Intrinsic,
    events: &[EventName],
    names: &Names,
    out: &mut Builder,
) -> Result<(), AllocError>
    requires set { IsSome out.old.level }
    requires near { AreNear names.now }
    requires code { HasEvents names.now (level_set out.old) events.now }
    requires room { size out.old.operators + 4 + 2 * length events.now ≤ MOST_SEGMENT_SYLLABLES }
    ensures code { OnOk result (EventsEmitted names.now (level_set out.old) out.old out.new intrinsic events.now) }
    ensures level { OnOk result (out.new.level ≡ out.old.level) }
    ensures size { OnOk result (size out.new.operators ≡ size out.old.operators + 4 + 2 * length events.now) }
{
    append_intrinsic(out, intrinsic)?;
    'events: for event in events {
        append_reference(out, couple_of(names, &event.name))?;
    }
    append_plain(out, PlainKind::Entr)
}

/// Appends the task of a process: the reference of its event's cell, or 0 where it has none.
pub fn append_task(task: &Option<Named>, names: &Names, out: &mut Builder) -> Result<(), AllocError>
    requires set { IsSome out.old.level }
    requires near { AreNear names.now }
    requires code { HasTask names.now (level_set out.old) task.now }
    requires room { size out.old.operators + 12 ≤ MOST_SEGMENT_SYLLABLES }
    ensures code { OnOk result (TaskEmitted names.now (level_set out.old) out.old out.new task.now) }
    ensures level { OnOk result (out.new.level ≡ out.old.level) }
    ensures size { OnOk result (size out.new.operators ≤ size out.old.operators + 12) }
{
    match task {
        None => append_number(out, Whole::fitting(0)),
        Some(name) => append_reference(out, couple_of(names, name)),
    }
}

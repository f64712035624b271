// What an operator of a row does in a process.
ghost use Rattle.std.specs.Prelude.{◌≡◌, ◌≢◌, ◌≤◌, ℕ, Err, IfSome, OnOk, vec_capacity};
ghost use Rattle.b67_list.specs.Numbered.{numbered};
ghost use Rattle.b67_ops.specs.Spelling.{Fits};
ghost use Rattle.b67_table.specs.Effect.{Effect};
ghost use Rattle.b67_table.specs.Image.{Image};
ghost use Rattle.b67_private.specs.Parts.{IsPrivatePart};
ghost use Rattle.b67_intrinsics.specs.declared.hindrance.Hindrance.TheVariants.{NoMemory};
ghost use Rattle.b67_reach.specs.Images.{image_of};
ghost use Rattle.b67_reach.specs.Woken.{KeepsPlaces};
ghost use Rattle.b67_action.specs.declared.rows.Row.TheVariants.{Enter};
ghost use Rattle.b67_action.specs.Acting.{IsActing, row_effect, ComesOrNot, CallsMaker, RowReleases};
ghost use Rattle.b67_action.specs.Among.{EffectComes};
ghost use Rattle.b67_action.specs.Lettered.{row_letter};
ghost use Rattle.b67_action.specs.Own.{part_of_process};
ghost use Rattle.b67_action.specs.Rows.{IsHeldRow};

use crate::entering::{enter, hindered};
use crate::letters::row_letter;
use crate::own::perform_own_in;
use crate::rows::Row;
use crate::words::perform_words;
use b67_deeds::Letter;
use b67_events::Kernel;
use b67_intrinsics::Hindrance;
use b67_operators::{exit, return_value};
use b67_ops::Operator;
use b67_reach::{Parts, Stop, invalid};
use b67_store::Core;

// The answer of an operator, without its letter.
fn plainly(answer: Result<Letter, Stop>) -> Result<(), Stop>
    ensures comes { (p : ℕ) (effect : Effect Image) (old new : Image) → EffectComes p effect old new answer → EffectComes p effect old new result }
{
    match answer {
        Ok(_) => Ok(()),
        Err(stop) => Err(stop),
    }
}

// An operator that takes no memory; ENTR is none.
fn perform_plainly<C: Core>(
    core: &mut C,
    kernel: &mut Kernel,
    parts: &mut Parts,
    process: u32,
    row: Row,
    op: &Operator,
    next: u16,
) -> Result<(), Stop>
    requires acting { IsActing (C.Core.stacks core.old) (C.Core.rows core.old) kernel.old parts.old process }
    requires part { IfSome (numbered parts.old.regs.items process) (λ r. IsPrivatePart (part_of_process (C.Core.stacks core.old) r)) }
    requires fits { IfSome (numbered parts.old.regs.items process) (λ r. Fits r.ll op.now) }
    requires held { IsHeldRow row }
    requires plain { row ≢ Enter }
    ensures comes { EffectComes process (row_effect row parts.old.code op.now next process (numbered parts.old.regs.items process) (image_of (C.Core.stacks core.old) (C.Core.rows core.old) kernel.old parts.old)) (image_of (C.Core.stacks core.old) (C.Core.rows core.old) kernel.old parts.old) (image_of (C.Core.stacks core.new) (C.Core.rows core.new) kernel.new parts.new) result }
    ensures woken { OnOk result (RowReleases row (image_of (C.Core.stacks core.old) (C.Core.rows core.old) kernel.old parts.old) (numbered parts.old.regs.items process) parts.old.woken.processes.items parts.new.woken.processes.items) }
    ensures capacity { KeepsPlaces parts.old.woken parts.new.woken }
    ensures processes { kernel.new.room ≡ kernel.old.room }
    ensures code { parts.new.code ≡ parts.old.code }
{
    match row {
        Row::Own => perform_own_in(core, &mut parts.regs, process, op, next),
        Row::Words(kind) => { plainly(perform_words(core, &mut parts.regs, process, kind, next)) }
        Row::Exit => exit(core, kernel, parts, process, next),
        Row::ReturnValue => return_value(core, kernel, parts, process, next),
        Row::Enter => Err(invalid()),
    }
}

/// An operator of this row is performed in a process, and its letter noted: ENTR notes its own, and that of any other is asked before it is
/// performed.
pub fn perform<C: Core>(
    core: &mut C,
    kernel: &mut Kernel,
    parts: &mut Parts,
    process: u32,
    row: Row,
    op: &Operator,
    next: u16,
    letter: &mut Option<Letter>,
) -> Result<(), Hindrance>
    requires acting { IsActing (C.Core.stacks core.old) (C.Core.rows core.old) kernel.old parts.old process }
    requires part { IfSome (numbered parts.old.regs.items process) (λ r. IsPrivatePart (part_of_process (C.Core.stacks core.old) r)) }
    requires fits { IfSome (numbered parts.old.regs.items process) (λ r. Fits r.ll op.now) }
    requires held { IsHeldRow row }
    ensures comes { ComesOrNot process (row_effect row parts.old.code op.now next process (numbered parts.old.regs.items process) (image_of (C.Core.stacks core.old) (C.Core.rows core.old) kernel.old parts.old)) (image_of (C.Core.stacks core.old) (C.Core.rows core.old) kernel.old parts.old) (image_of (C.Core.stacks core.new) (C.Core.rows core.new) kernel.new parts.new) result }
    ensures letter { OnOk result (IfSome (numbered parts.old.regs.items process) (λ r. letter.new ≡ row_letter row (image_of (C.Core.stacks core.old) (C.Core.rows core.old) kernel.old parts.old) r)) }
    ensures making { result ≡ Err NoMemory → (row ≡ Enter) × CallsMaker (C.Core.stacks core.old) (numbered parts.old.regs.items process) }
    ensures woken { OnOk result (RowReleases row (image_of (C.Core.stacks core.old) (C.Core.rows core.old) kernel.old parts.old) (numbered parts.old.regs.items process) parts.old.woken.processes.items parts.new.woken.processes.items) }
    ensures capacity { KeepsPlaces parts.old.woken parts.new.woken }
    ensures processes { kernel.new.room ≡ kernel.old.room }
    ensures code { parts.new.code ≡ parts.old.code }
{
    match row {
        Row::Enter => enter(core, kernel, parts, process, next, letter),
        _ => {
            *letter = row_letter(core, parts, process, row);
            hindered(perform_plainly(core, kernel, parts, process, row, op, next))
        }
    }
}

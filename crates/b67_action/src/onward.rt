// Actions that nothing stops, each by its row that was made ready.
ghost use Rattle.std.specs.Prelude.{◌≡◌, ◌≤◌, IfSome, [], Ok, Some, None, true, false, vec_capacity};
ghost use Rattle.b67_list.specs.Numbered.{numbered};
ghost use Rattle.b67_segment.specs.declared.code.Code.{Code};
ghost use Rattle.b67_segment.specs.Decoded.{AreDecoded};
ghost use Rattle.b67_table.specs.Image.{is_able};
ghost use Rattle.b67_table.specs.Rows.{enter};
ghost use Rattle.b67_table.specs.Valid.{IsValid};
ghost use Rattle.b67_display.specs.Shown.{IsShown};
ghost use Rattle.b67_operators.specs.Leaves.{IsLinkedIn};
ghost use Rattle.b67_letters.specs.Letters.{letter};
ghost use Rattle.b67_private.specs.Actions.{IsHeldRow};
ghost use Rattle.b67_private.specs.Lettered.{row_letter};
ghost use Rattle.b67_reach.specs.Images.{image_of};
ghost use Rattle.b67_reach.specs.Woken.{KeepsPlaces};
ghost use Rattle.b67_action.specs.Acting.{EntersPlainly};
ghost use Rattle.b67_action.specs.Among.{ActsIn};
ghost use Rattle.b67_action.specs.Onward.{HasGone, GoesBy, action_of};

use crate::room::if_went;
use crate::words::perform_words;
use b67_deeds::Letter;
use b67_events::Kernel;
use b67_intrinsics::registers;
use b67_operators::{enter_at_once, exit_at_once, return_at_once};
use b67_private::{Prepared, Row, row_at};
use b67_reach::{Parts, Registers};
use b67_store::Core;

// ENTR of a procedure at once, in a process.
fn enter_in<C: Core>(core: &mut C, all: &mut Vec<Registers>, process: u32, next: u16) -> bool
    requires linked { IsLinkedIn (C.Core.stacks core.old) (C.Core.rows core.old) (numbered all.old.items process) }
    requires shown { IfSome (numbered all.old.items process) (λ r. IsShown r.ll r.display) }
    ensures entered { result ≡ true → (code : Code) → ActsIn (enter code) next (C.Core.stacks core.old) (C.Core.rows core.old) all.old.items process (C.Core.stacks core.new) (C.Core.rows core.new) all.new.items (Ok (tt {0})) }
    ensures calls { result ≡ true → EntersPlainly (C.Core.stacks core.old) (numbered all.old.items process) }
    ensures stays { result ≡ false → (C.Core.stacks core.new ≡ C.Core.stacks core.old) × (C.Core.rows core.new ≡ C.Core.rows core.old) × (all.new.items ≡ all.old.items) }
    ensures room { vec_capacity all.old ≤ vec_capacity all.new }
{
    let regs = &mut all[process as usize - 1];
    enter_at_once(core, regs, next)
}

// The operator of a row that was made ready is performed in a process, where it is an action and nothing stops it; and its letter.
fn perform_ready<C: Core>(
    core: &mut C,
    kernel: &mut Kernel,
    parts: &mut Parts,
    process: u32,
    row: Row,
    next: u16,
) -> Option<Letter>
    requires linked { IsLinkedIn (C.Core.stacks core.old) (C.Core.rows core.old) (numbered parts.old.regs.items process) }
    requires shown { IfSome (numbered parts.old.regs.items process) (λ r. IsShown r.ll r.display) }
    requires held { IsHeldRow row }
    ensures goes { IfSome result (λ l. GoesBy (action_of row) parts.old.code next process (numbered parts.old.regs.items process) (image_of (C.Core.stacks core.old) (C.Core.rows core.old) kernel.old parts.old) (image_of (C.Core.stacks core.new) (C.Core.rows core.new) kernel.new parts.new)) }
    ensures letter { IfSome result (λ l. IfSome (numbered parts.old.regs.items process) (λ r. row_letter row (image_of (C.Core.stacks core.old) (C.Core.rows core.old) kernel.old parts.old) r ≡ Some l)) }
    ensures stays { result ≡ None → image_of (C.Core.stacks core.new) (C.Core.rows core.new) kernel.new parts.new ≡ image_of (C.Core.stacks core.old) (C.Core.rows core.old) kernel.old parts.old }
    ensures states { parts.new.states ≡ parts.old.states }
    ensures started { parts.new.started ≡ parts.old.started }
    ensures processes { kernel.new.room ≡ kernel.old.room }
    ensures code { parts.new.code ≡ parts.old.code }
    ensures woken { parts.new.woken ≡ parts.old.woken }
{
    match row {
        Row::Words(kind) => perform_words(core, &mut parts.regs, process, kind, next).ok(),
        Row::Enter => {
            let went = enter_in(core, &mut parts.regs, process, next);
            if_went(went, Letter::Enter)
        }
        Row::Exit => if_went(exit_at_once(core, kernel, parts, process), Letter::Leave),
        Row::ReturnValue => {
            let went = return_at_once(core, kernel, parts, process);
            if_went(went, Letter::Leave)
        }
        _ => None,
    }
}

/// Performs the next operator of a process where it is an action whose row was made ready, and nothing stops it; and answers its
/// letter. Then it did what [`action`](crate::action) does, and released nobody. Else all is as it was. The general way is left with what an
/// intrinsic does, with leaving a base frame, and with entries and leavings after which the display has to be rebuilt.
pub fn go_on<C: Core>(
    core: &mut C,
    kernel: &mut Kernel,
    parts: &mut Parts,
    process: u32,
    table: Option<&Prepared>,
) -> Option<Letter>
    requires valid { IsValid parts.old.code (image_of (C.Core.stacks core.old) (C.Core.rows core.old) kernel.old parts.old) }
    requires able { is_able (numbered parts.old.states.items process) ≡ true }
    requires table { IfSome (numbered parts.old.regs.items process) (λ r. IfSome table (λ t. AreDecoded parts.old.code r.segment r.ll t.now)) }
    ensures went { IfSome result (λ l. HasGone parts.old.code (image_of (C.Core.stacks core.old) (C.Core.rows core.old) kernel.old parts.old) process (image_of (C.Core.stacks core.new) (C.Core.rows core.new) kernel.new parts.new) parts.new.woken.processes.items) }
    ensures letter { IfSome result (λ l. letter parts.old.code (image_of (C.Core.stacks core.old) (C.Core.rows core.old) kernel.old parts.old) process ≡ Some l) }
    ensures calm { IfSome result (λ l. (parts.new.states ≡ parts.old.states) × (parts.new.started ≡ parts.old.started) × (parts.new.woken.processes.items ≡ [])) }
    ensures stays { result ≡ None → image_of (C.Core.stacks core.new) (C.Core.rows core.new) kernel.new parts.new ≡ image_of (C.Core.stacks core.old) (C.Core.rows core.old) kernel.old parts.old }
    ensures woken { result ≡ None → parts.new.woken ≡ parts.old.woken }
    ensures room { KeepsPlaces parts.old.woken parts.new.woken }
    ensures processes { kernel.new.room ≡ kernel.old.room }
    ensures code { parts.new.code ≡ parts.old.code }
{
    let regs = registers(&parts.regs, process);
    let Some((row, next)) = row_at(table, regs.place) else {
        return None;
    };
    let Some(letter) = perform_ready(core, kernel, parts, process, row, next) else {
        return None;
    };
    parts.woken.processes.clear();
    // no store has more rows than it has numbers for
    let _ = core.counted();
    Some(letter)
}

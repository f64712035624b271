// The next operator of a process.
ghost use Rattle.std.specs.Prelude.{◌≡◌, IfSome, [], true, false};
ghost use Rattle.b67_list.specs.Numbered.{numbered};
ghost use Rattle.b67_segment.specs.Decoded.{AreDecoded};
ghost use Rattle.b67_table.specs.Image.{is_able};
ghost use Rattle.b67_table.specs.Valid.{IsValid};
ghost use Rattle.b67_letters.specs.Letters.{letter};
ghost use Rattle.b67_letters.specs.Releases.{releases};
ghost use Rattle.b67_reach.specs.Images.{image_of};
ghost use Rattle.b67_action.specs.Able.{AbleAfter};
ghost use Rattle.b67_action.specs.Done.{is_performed, Came, KernelHasRoom};
ghost use Rattle.b67_action.specs.Lettered.{letter_in};

use crate::acting::perform;
use crate::done::{Done, hindered_by, letter_by, went};
use crate::rows::row_of;
use b67_deeds::Letter;
use b67_events::Kernel;
use b67_intrinsics::registers;
use b67_private::{Prepared, next_operator};
use b67_reach::{InterruptKind, Parts};
use b67_segment::Pointer;
use b67_store::Core;

/// Performs the next operator of a process, whatever its class, as the operator table says, and answers what it came to, and its letter: of
/// a private operator that is not at fault, and of what is not performed, there is none.
/// Where the process's segment was decoded at its level, the table of its operators saves the decoding. After an operator that was performed `woken` has the processes that it
/// released, in their order, and after any other nobody. NoMemory comes only from an intrinsic that makes something: arrays, an
/// event, a process or a line; then the image is as it was.
pub fn action<C: Core>(
    core: &mut C,
    kernel: &mut Kernel,
    parts: &mut Parts,
    process: u32,
    table: Option<&Prepared>,
) -> (Done, Option<Letter>)
    requires valid { IsValid parts.old.code (image_of (C.Core.stacks core.old) (C.Core.rows core.old) kernel.old parts.old) }
    requires able { is_able (numbered parts.old.states.items process) ≡ true }
    requires room { KernelHasRoom kernel.old parts.old }
    requires table { IfSome (numbered parts.old.regs.items process) (λ r. IfSome table (λ t. AreDecoded parts.old.code r.segment r.ll t.now)) }
    ensures came { Came parts.old.code (image_of (C.Core.stacks core.old) (C.Core.rows core.old) kernel.old parts.old) process result.0 (image_of (C.Core.stacks core.new) (C.Core.rows core.new) kernel.new parts.new) }
    ensures letter { result.1 ≡ letter_in result.0 (letter parts.old.code (image_of (C.Core.stacks core.old) (C.Core.rows core.old) kernel.old parts.old) process) }
    ensures woken { is_performed result.0 ≡ true → parts.new.woken.processes.items ≡ releases parts.old.code (image_of (C.Core.stacks core.old) (C.Core.rows core.old) kernel.old parts.old) process }
    ensures nobody { is_performed result.0 ≡ false → parts.new.woken.processes.items ≡ [] }
    ensures able { is_performed result.0 ≡ true → AbleAfter (image_of (C.Core.stacks core.old) (C.Core.rows core.old) kernel.old parts.old) (image_of (C.Core.stacks core.new) (C.Core.rows core.new) kernel.new parts.new) process parts.new.woken.processes.items }
    ensures valid { IsValid parts.old.code (image_of (C.Core.stacks core.new) (C.Core.rows core.new) kernel.new parts.new) }
    ensures room { KernelHasRoom kernel.new parts.new }
    ensures processes { kernel.new.room ≡ kernel.old.room }
    ensures code { parts.new.code ≡ parts.old.code }
{
    parts.woken.processes.clear();
    let regs = registers(&parts.regs, process);
    let at = Pointer {
        segment: regs.segment,
        place: regs.place,
    };
    let Some((op, next)) = next_operator(&parts.code, table, at, regs.ll) else {
        return (Done::Interrupt(InterruptKind::BadCode), None);
    };
    let row = row_of(&op, at.place);
    let mut letter = None;
    let answer = perform(core, kernel, parts, process, row, &op, next, &mut letter);
    // no store has more rows than it has numbers for
    let _ = core.counted();
    match answer {
        Ok(()) => (went(parts.states[process as usize - 1]), letter),
        Err(hindrance) => {
            parts.woken.processes.clear();
            let done = hindered_by(hindrance);
            (done, letter_by(done))
        }
    }
}

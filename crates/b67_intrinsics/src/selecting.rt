//! SELECT: the place of a case by its index.

ghost use Rattle.std.specs.Prelude.{◌≡◌, ◌+◌, ◌*◌, ◌≤◌, ◌<◌, ◌^◌, ℕ, Ok, unsigned_abs, IfSome};
ghost use Rattle.b67_word.specs.Word.{most_mantissa};
ghost use Rattle.b67_segment.specs.declared.code.Code.{Code};
ghost use Rattle.b67_store.specs.Store.{Stacks};
ghost use Rattle.b67_table.specs.Intrinsics.{case_in, case_place, gone_to_case, select};
ghost use Rattle.b67_table.specs.Look.{look_seen};
ghost use Rattle.b67_reach.specs.Images.{own_of_image};
ghost use Rattle.b67_reach.specs.Answers.{looked, IsReady, ProgramPerforms};
ghost use Rattle.b67_intrinsics.specs.Called.{intrinsic_called};

use crate::marks::{chained, finish, three_arguments};
use b67_control::Mscw;
use b67_num::FaultKind;
use b67_reach::{Registers, Stop, invalid};
use b67_segment::MOST_SEGMENT_SYLLABLES;
use b67_store::Core;

// The index, where it is from 0 to one below the count.
fn case_in(index: i64, count: i64) -> Option<u64>
    requires { unsigned_abs index ≤ most_mantissa }
    ensures value { result ≡ case_in index count }
    ensures bound { IfSome result (λ n. n ≤ most_mantissa) }
{
    if index < 0 || index >= count {
        None
    } else {
        Some(index as u64)
    }
}

// Where the place for an index lies, and none where there is no such case. InvalidOperand comes exactly where that is no
// place of a segment.
fn case_place(first: i64, index: Option<u64>) -> Result<Option<u16>, Stop>
    requires first { unsigned_abs first ≤ most_mantissa }
    requires index { IfSome index (λ n. n ≤ most_mantissa) }
    ensures { (stacks : Stacks) → result ≡ looked (look_seen stacks (case_place first index)) }
{
    let Some(index) = index else {
        return Ok(None);
    };
    let place = first + 3 * index as i64;
    if 0 <= place && place <= MOST_SEGMENT_SYLLABLES as i64 {
        Ok(Some(place as u16))
    } else {
        Err(invalid())
    }
}

// The pointer goes to the case's place; without one it is a fault.
fn go_to_case<C: Core>(
    core: &mut C,
    regs: &mut Registers,
    mark: &Mscw,
    to: Option<u16>,
) -> Result<(), Stop>
    requires ready { IsReady (C.Core.stacks core.old) regs.old }
    requires above { regs.old.f + 2 ≤ regs.old.s }
    requires within { mark.now.df ≤ regs.old.f }
    ensures { ProgramPerforms (gone_to_case regs.old mark.now to) (own_of_image (C.Core.stacks core.old) (C.Core.rows core.old) regs.old) (own_of_image (C.Core.stacks core.new) (C.Core.rows core.new) regs.new) result }
{
    match to {
        Some(place) => {
            finish(core, regs, mark, place);
            Ok(())
        }
        None => Err(Stop::Fault(FaultKind::CaseIndex)),
    }
}

/// SELECT: given an index, a count and the place of the first case, the pointer goes three syllables on for each case
/// before the index's. CaseIndex comes exactly where the index is below 0, or not below the count.
pub fn select<C: Core>(core: &mut C, regs: &mut Registers, mark: &Mscw) -> Result<(), Stop>
    requires ready { IsReady (C.Core.stacks core.old) regs.old }
    requires above { regs.old.f + 2 ≤ regs.old.s }
    ensures { (code : Code) (next : ℕ) → ProgramPerforms (intrinsic_called select code regs.old next mark.now) (own_of_image (C.Core.stacks core.old) (C.Core.rows core.old) regs.old) (own_of_image (C.Core.stacks core.new) (C.Core.rows core.new) regs.new) result }
{
    let (index, count, first) = three_arguments(core, regs)?;
    let to = case_place(first, case_in(index, count))?;
    chained(core, regs, mark)?;
    go_to_case(core, regs, mark, to)
}

//! What GOTO goes to.

ghost use Rattle.std.specs.Prelude.{◌≡◌, ◌≤◌, ◌<◌, ◌^◌, unsigned_abs, Ok, Some, IfOk, IfSome};
ghost use Rattle.b67_control.specs.Display.{levels};
ghost use Rattle.b67_store.specs.Store.{Stacks};
ghost use Rattle.b67_table.specs.Arguments.{argument_number_in};
ghost use Rattle.b67_table.specs.GoingTo.{level_in, target_of};
ghost use Rattle.b67_table.specs.Look.{look_seen};
ghost use Rattle.b67_table.specs.Private.{display_at};
ghost use Rattle.b67_reach.specs.Answers.{looked};
ghost use Rattle.b67_going.specs.Targets.{target_in};

use b67_reach::{Registers, Stop, frame_at, invalid};
use b67_segment::MOST_SEGMENT_SYLLABLES;
use b67_word::Place;

// The greatest number of a segment that a control word can hold.
const LAST_SEGMENT: u32 = b67_limits::MOST_PROCEDURES as u32;

/// A number from 0 to a greatest one.
pub fn number_in(value: i64, most: u32) -> Option<u32>
    requires { unsigned_abs value < 2 ^ 63 }
    ensures value { result ≡ argument_number_in value most }
    ensures bound { IfSome result (λ n. n ≤ most) }
{
    if 0 <= value && value <= i64::from(most) {
        Some(value as u32)
    } else {
        None
    }
}

/// A level from 2 to the process's.
pub fn level_in(regs: &Registers, value: i64) -> Option<u8>
    requires small { unsigned_abs value < 2 ^ 63 }
    requires level { regs.now.ll < levels }
    ensures value { result ≡ level_in regs.now value }
    ensures low { IfSome result (λ n. 2 ≤ n) }
    ensures high { IfSome result (λ n. n ≤ regs.now.ll) }
{
    if 2 <= value && value <= i64::from(regs.ll) {
        Some(value as u8)
    } else {
        None
    }
}

/// What GOTO goes to.
#[derive(Clone, Copy)]
pub struct Target {
    /// The frame that stays.
    pub frame: Place,
    /// Its level.
    pub level: u8,
    /// The segment of the place to go on at.
    pub segment: u16,
    /// The place to go on at.
    pub pointer: u16,
}

/// What GOTO goes to by three whole numbers. InvalidOperand comes exactly where they are no level from 2 to the process's
/// whose frame the display names, no segment, or no place of one.
pub fn target_of(regs: &Registers, level: i64, segment: i64, pointer: i64) -> Result<Target, Stop>
    requires first { unsigned_abs level < 2 ^ 63 }
    requires second { unsigned_abs segment < 2 ^ 63 }
    requires third { unsigned_abs pointer < 2 ^ 63 }
    requires level { regs.now.ll < levels }
    ensures value { (stacks : Stacks) → result ≡ looked (target_in (look_seen stacks (target_of regs.now (record { first = level; second = segment; third = pointer })))) }
    ensures low { IfOk result (λ t. 2 ≤ t.level) }
    ensures high { IfOk result (λ t. t.level ≤ regs.now.ll) }
    ensures frame { IfOk result (λ t. display_at regs.now t.level ≡ Some t.frame) }
{
    let Some(level) = level_in(regs, level) else {
        return Err(invalid());
    };
    let Some(frame) = frame_at(regs, level) else {
        return Err(invalid());
    };
    let Some(segment) = number_in(segment, LAST_SEGMENT) else {
        return Err(invalid());
    };
    let Some(pointer) = number_in(pointer, MOST_SEGMENT_SYLLABLES as u32) else {
        return Err(invalid());
    };
    Ok(Target {
        frame,
        level,
        segment: segment as u16,
        pointer: pointer as u16,
    })
}

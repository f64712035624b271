//! Where the private part of a process begins, from its registers.

ghost use Rattle.std.specs.Prelude.{◌≡◌, ◌<◌, ◌≤◌, ◌^◌};
ghost use Rattle.b67_control.specs.Display.{levels};
ghost use Rattle.b67_table.specs.Private.{floor, frame};

use b67_control::Registers;

/// The same number, as wide as S.
#[inline(always)]
pub fn wide(value: u16) -> u32
    ensures value { result ≡ value }
    ensures bound { result < 2 ^ 16 }
{
    u32::from(value)
}

/// The displacement of the frame, 0 where the display names none.
#[inline(always)]
pub fn frame(regs: &Registers) -> u32
    requires { regs.now.ll < levels }
    ensures value { result ≡ frame regs.now }
    ensures bound { result < 2 ^ 16 }
{
    match regs.display.get(regs.ll) {
        Some(place) => wide(place.at),
        None => 0,
    }
}

/// The displacement at which the cells end and the private part begins.
#[inline(always)]
pub fn floor(regs: &Registers) -> u32
    requires { regs.now.ll < levels }
    ensures value { result ≡ floor regs.now }
    ensures bound { result ≤ 2 ^ 17 }
{
    frame(regs) + 2 + wide(regs.cells)
}

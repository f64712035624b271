// The words that stand in the first image.
ghost use Rattle.std.specs.Prelude.{◌≡◌, ◌<◌, ◌≤◌, ◌^◌};
ghost use Rattle.b67_table.specs.Linkage.{base_control};
ghost use Rattle.b67_table.specs.Beginning.{base_mark, system_stack, base_frame, intrinsic_pcw, first_registers};

use b67_control::{Display, Mscw, Pcw, Rcw, Registers};
use b67_ops::{INTRINSICS, Intrinsic, OUTER_LEVEL};
use b67_word::{Place, Word};

// The base mark of a stack, linked to the bottom of stack 0.
fn base_mark() -> Word
    ensures { result ≡ base_mark }
{
    let mark = Mscw {
        entered: true,
        stack: 0,
        displacement: 0,
        df: 0,
    };
    mark.pack()
}

// The control word of a base frame of a level.
fn base_control(level: u8) -> Word
    requires { level < 2 ^ 5 }
    ensures { result ≡ base_control level }
{
    let control = Rcw {
        segment: 0,
        psr: 0,
        pir: 0,
        caller_level: 0,
        caller_cells: 0,
        own_level: level,
    };
    control.pack()
}

// The word of an intrinsic.
fn intrinsic_word(number: u16) -> Word
    requires { number < 2 ^ 15 }
    ensures { result ≡ intrinsic_pcw number }
{
    let word = Pcw {
        intrinsic: true,
        names: false,
        segment: 0,
        psr: 0,
        pir: 0,
        level: 0,
        number,
    };
    word.pack()
}

/// Stack 0: a mark, its control word, and the intrinsics at their numbers.
pub fn system_words() -> [Word; 2 + INTRINSICS]
    ensures { result ≡ system_stack }
{
    [
        base_mark(),
        base_control(0),
        intrinsic_word(Intrinsic::GoTo.number()),
        intrinsic_word(Intrinsic::Select.number()),
        intrinsic_word(Intrinsic::Arrays.number()),
        intrinsic_word(Intrinsic::Event.number()),
        intrinsic_word(Intrinsic::Start.number()),
        intrinsic_word(Intrinsic::Write.number()),
        intrinsic_word(Intrinsic::Wait.number()),
        intrinsic_word(Intrinsic::Cause.number()),
        intrinsic_word(Intrinsic::Reset.number()),
        intrinsic_word(Intrinsic::Happened.number()),
        intrinsic_word(Intrinsic::Procure.number()),
        intrinsic_word(Intrinsic::Liberate.number()),
        intrinsic_word(Intrinsic::WaitAny.number()),
        intrinsic_word(Intrinsic::CauseAndReset.number()),
        intrinsic_word(Intrinsic::Available.number()),
        intrinsic_word(Intrinsic::Fix.number()),
    ]
}

/// The base frame of process 1.
pub fn base_words() -> [Word; 2]
    ensures { result ≡ base_frame }
{
    [base_mark(), base_control(OUTER_LEVEL)]
}

/// The registers of process 1.
pub fn first_registers() -> Registers
    ensures { result ≡ first_registers }
{
    let mut display = Display::new();
    display.set(0, Some(Place { stack: 0, at: 0 }));
    display.set(OUTER_LEVEL, Some(Place { stack: 1, at: 0 }));
    Registers {
        stack: 1,
        s: 2,
        f: 0,
        ll: OUTER_LEVEL,
        display,
        cells: 0,
        segment: 0,
        place: 0,
        task: None,
        critical: None,
    }
}

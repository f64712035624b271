//! The limits that the language and the machine share, and those of a run: each is one constant, which all sides read.
#![tactic(auto)]

ghost use Rattle.std.specs.Prelude.{◌≡◌};
ghost use Rattle.b67_limits.specs.declared.TheConstants.{OUTER_LEVEL, MOST_LEVEL, MOST_BLOCK_CELLS, MOST_FRAME_CELLS, MOST_PROCEDURES, MOST_ELEMENTS, MOST_PROCESSES, MOST_EVENTS, MOST_BUDGET, MOST_STRETCH, MOST_PROCESSORS, MOST_LETTERS, MOST_OWN_WORDS, MOST_RUN};

/// The level of the outer block: the program's own, under which level 0 is the system's.
pub const OUTER_LEVEL: u8 = 2;

/// The deepest lexical level of a block, as the five bits of a level in a control word of the B6700 have it.
pub const MOST_LEVEL: u8 = 31;

/// The most cells that the declarations of a block take in its frame, by this project's profile; so the most arrays that are made at once.
pub const MOST_BLOCK_CELLS: u16 = 400;

/// The most cells of a frame: the nine bits that a control word has for their number.
pub const MOST_FRAME_CELLS: u16 = 511;

/// The most procedures of a program, each with a segment of code of its own beside the program's: the ten bits that a control word has
/// for the number of a segment.
pub const MOST_PROCEDURES: u16 = 1_023;

/// The most elements of one array, and of all live arrays together, by this project's profile.
pub const MOST_ELEMENTS: u32 = 1_048_576;

/// The most processes of a run, the first among them, by this project's profile.
pub const MOST_PROCESSES: u32 = 256;

/// The most events for which a process waits at once, by this project's profile.
pub const MOST_EVENTS: u8 = 8;

/// The greatest budget of a run, in operators.
pub const MOST_BUDGET: u64 = 4_194_304;

/// A run whose budget is spent has performed fewer operators than its budget and these together. Every other end of a run comes with at
/// most as many operators as the budget.
pub const MOST_STRETCH: u64 = 64;

/// The greatest number of processors of a run.
pub const MOST_PROCESSORS: u64 = 8;

/// The most entries of a parcel, which a processor works on outside the lock, and the most turns that it takes under one hold of the lock.
pub const MOST_LETTERS: usize = 1_024;

/// The most words of a stack of which a parcel has a copy whole.
pub const MOST_OWN_WORDS: u32 = 1_024;

/// The most operators of a parcel that may have entries.
pub const MOST_RUN: u32 = 4_096;

/// Law: the numbers of this crate, which the language and the machine are defined with. The deepest level, the cells of a frame and the procedures
/// are as many as five, nine and ten bits of a control word have; the level of the outer block is 2, above the system's; the others are this
/// project's profile. docs/LANGUAGE.md and docs/MACHINE.md have them.
pub fn numbers_are_told()
    ensures outer { OUTER_LEVEL ≡ 2 }
    ensures level { MOST_LEVEL ≡ 31 }
    ensures block { MOST_BLOCK_CELLS ≡ 400 }
    ensures frame { MOST_FRAME_CELLS ≡ 511 }
    ensures procedures { MOST_PROCEDURES ≡ 1023 }
    ensures elements { MOST_ELEMENTS ≡ 1048576 }
    ensures processes { MOST_PROCESSES ≡ 256 }
    ensures events { MOST_EVENTS ≡ 8 }
    ensures budget { MOST_BUDGET ≡ 4194304 }
    ensures stretch { MOST_STRETCH ≡ 64 }
    ensures processors { MOST_PROCESSORS ≡ 8 }
    ensures letters { MOST_LETTERS ≡ 1024 }
    ensures own { MOST_OWN_WORDS ≡ 1024 }
    ensures run { MOST_RUN ≡ 4096 }
{}

//! The operator table: what each operator does to an image of the machine, as definitions, the runs of a code under it, and
//! what holds of every operator at once.
//!
//! The operators are modelled on the Burroughs B6700's (Organick 1973); their effects, interrupts and limits are this
//! project's profile. `specs/Rows.antt` has one row for each operator, `specs/Intrinsics.antt` one for each intrinsic.
#![tactic(auto)]

ghost use Rattle.std.specs.Prelude.{◌≡◌};
ghost use Rattle.b67_table.specs.Rows.{plain_row};
ghost use Rattle.b67_table.specs.Table.{class_at, class_by};

mod floors;
mod laws;

pub use b67_control::Registers;
use b67_control::{Display, Rcw};
use b67_ops::{Operator, PlainKind};
pub use b67_store::Words;
use b67_word::{Place, Word};
pub use floors::{floor, frame, wide};
pub use laws::{
    first_image_is_valid, limit_comes_last, operators_keep_validity, others_stay_apart,
    plain_operators_commute, private_operators_stay_private, reading_decides,
    refusals_write_nothing, rows_at_work, valid_processes_stand,
};

/// Why an operator can not be performed. Of an operator's interrupts `BadCode` comes first, then `StackUnderflow`,
/// `InvalidOperand`, `BrokenChain`; faults come after interrupts (this project's profile).
#[derive(Clone, Copy, PartialEq, Eq)]
pub enum InterruptKind {
    /// A word has a tag, kind or range that the operator does not name, or what it refers to is not there.
    InvalidOperand,
    /// A word that is popped does not lie in the private part.
    StackUnderflow,
    /// A chain of marks down a stack, or of static links, does not lead where it has to.
    BrokenChain,
    /// No operator stands at the place, or the place after an entry can not be held by a control word.
    BadCode,
}

/// The state of a process.
#[derive(Clone, Copy, PartialEq, Eq)]
pub enum ProcessState {
    /// It can go on.
    Able,
    /// It waits for the event at a place to happen.
    WaitsFor(Place),
    /// It waits for several events; the kernel has their places.
    WaitsAny,
    /// It waits to procure the event at a place.
    Procures(Place),
    /// It has ended.
    Ended,
}

/// The class of an operator at its place.
#[derive(Clone, Copy)]
pub enum Class {
    /// It only goes forward, and reads and writes the private part of its own process only.
    Private,
    /// Every other operator.
    Action,
}

fn class_of_plain(kind: PlainKind) -> Class
    ensures { result ≡ class_by (plain_row kind) }
{
    match kind {
        PlainKind::Exit
        | PlainKind::Nxln
        | PlainKind::Indx
        | PlainKind::Retn
        | PlainKind::Entr
        | PlainKind::Eval
        | PlainKind::Nxlv
        | PlainKind::Stod
        | PlainKind::Ston
        | PlainKind::Lodt
        | PlainKind::Load => Class::Action,
        _ => Class::Private,
    }
}

/// The class of an operator at a place of a segment. A branch is private where it goes forward.
#[tactic(auto, unfolding(crate::specs::Table::class_at, crate::specs::Rows::row))]
pub fn class_of(op: &Operator, place: u16) -> Class
    ensures { result ≡ class_at op.now place }
{
    match op {
        Operator::Valc(_) => Class::Action,
        Operator::Namc(_)
        | Operator::Lt8(_)
        | Operator::Lt16(_)
        | Operator::Lt48(_)
        | Operator::Mpcw(_) => Class::Private,
        Operator::Branch(_, target) => {
            if place < *target {
                Class::Private
            } else {
                Class::Action
            }
        }
        Operator::Plain(kind) => class_of_plain(*kind),
    }
}

/// A cell of a frame, wherever it is read.
#[derive(Clone, Copy)]
pub struct Cell {
    /// The place of the frame's MSCW.
    pub frame: Place,
    /// The index of the cell in that frame, 0 at the MSCW.
    pub index: u16,
}

/// A word, and the cell in which it lies.
#[derive(Clone, Copy)]
pub struct Reached {
    pub word: Word,
    pub cell: Cell,
}

/// What is there to come back to where a frame that is no base frame is left.
#[derive(Clone, Copy)]
pub struct Below {
    /// The displacement of the mark below the frame.
    pub mark: u16,
    /// The displacement of the frame below: of the first entered mark from there on along DF.
    pub frame: u16,
    /// The control word of the frame that is left.
    pub control: Rcw,
}

/// What an entry finds.
#[derive(Clone, Copy)]
pub struct Entry {
    /// The frame to which the new one is linked.
    pub home: Place,
    /// The display of the new frame.
    pub display: Display,
}

/// What leaving a frame that is no base frame finds.
#[derive(Clone, Copy)]
pub struct Leaving {
    pub below: Below,
    /// The display of the frame below.
    pub display: Display,
}

/// The private part of a process: its registers, and the words at its floor and above.
#[derive(Drop)]
pub struct Private {
    pub regs: Registers,
    pub words: Words,
}

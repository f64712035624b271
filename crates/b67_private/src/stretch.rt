// Stretches of plain operators.
ghost use Rattle.std.specs.Prelude.{◌≡◌, ℕ, ◌<◌, ◌≤◌, All, length, IfSome, false};
ghost use Rattle.b67_ops.specs.declared.TheConstants.{MOST_LEVEL};
ghost use Rattle.b67_ops.specs.Spelling.{Fits};
ghost use Rattle.b67_segment.specs.declared.TheConstants.{MOST_SEGMENT_WORDS};
ghost use Rattle.b67_segment.specs.declared.code.Code.{Code};
ghost use Rattle.b67_segment.specs.Decoded.{found, AreDecoded};
ghost use Rattle.b67_store.specs.Store.{stack_limit};
ghost use Rattle.b67_table.specs.Privacy.{RegistersStay};
ghost use Rattle.b67_private.specs.Parts.{AreReady, HasRoom, HasPart, IsPrivatePart, PlainParts, is_plain, own_next, part_in};
ghost use Rattle.b67_private.specs.Performing.{Steps};
ghost use Rattle.b67_private.specs.Prepared.{IsFlatRowOf, IsRowOf};

use crate::flat::FlatRow;
use crate::operators::{Row, operate, perform};
use crate::prepared::Prepared;
use b67_ops::Operator;
use b67_segment::{Code, Pointer, fetch};
use b67_store::MOST_STACK_WORDS;
use b67_table::{Private, Registers};
use b67_word::Word;

/// The operator at a place, and the place after it: from the table of the segment's operators at this level, where there is
/// one. None comes exactly where no operator stands there.
#[inline(always)]
pub fn next_operator(
    code: &Code,
    table: Option<&Prepared>,
    at: Pointer,
    level: u8,
) -> Option<(Operator, u16)>
    requires level { level ≤ MOST_LEVEL }
    requires segments { All (λ segment. length segment.words ≤ MOST_SEGMENT_WORDS) code.now.segments }
    requires table { IfSome table (λ t. AreDecoded code.now at.segment level t.now) }
    ensures value { result ≡ found code.now at.segment level at.place }
    ensures fits { IfSome result (λ operator. Fits level operator.0) }
{
    match table {
        Some(operators) => operators.at(at.place),
        None => match fetch(code, at, level) {
            Ok(found) => Some(found),
            Err(_) => None,
        },
    }
}

/// The flat row of the operator at a place, and the place after it, where they are made ready.
#[inline(always)]
pub fn flat_at(table: Option<&Prepared>, place: u16) -> Option<(FlatRow, u16)>
    ensures { (code : Code) (segment level : ℕ) → IfSome table.entry (λ t. AreDecoded code segment level t.now) → IfSome result (λ r. IsFlatRowOf place (found code segment level place) r) }
{
    match table {
        Some(operators) => operators.flat(place),
        None => None,
    }
}

/// The row of the operator at a place, and the place after it, where they are made ready.
#[inline(always)]
pub fn row_at(table: Option<&Prepared>, place: u16) -> Option<(Row, u16)>
    ensures { (code : Code) (segment level : ℕ) → IfSome table.entry (λ t. AreDecoded code segment level t.now) → IfSome result (λ r. IsRowOf place (found code segment level place) r) }
{
    match table {
        Some(operators) => operators.row(place),
        None => None,
    }
}

/// Performs the next operator of a private part in the room of its stack where it is plain, whether a row of it is made ready or not, and answers
/// whether it did. Else nothing is done.
#[cold]
pub fn perform_fetched(
    regs: &mut Registers,
    room: &mut [Word],
    code: &Code,
    table: Option<&Prepared>,
) -> bool
    requires ready { AreReady regs.old }
    requires room { HasRoom regs.old room.old }
    requires segments { All (λ segment. length segment.words ≤ MOST_SEGMENT_WORDS) code.now.segments }
    requires table { IfSome table (λ t. AreDecoded code.now regs.old.segment regs.old.ll t.now) }
    ensures { Steps (length room.old) (own_next code.now (part_in regs.old room.old)) (part_in regs.old room.old) result (part_in regs.new room.new) }
{
    let at = Pointer {
        segment: regs.segment,
        place: regs.place,
    };
    match next_operator(code, table, at, regs.ll) {
        Some((operator, next)) => operate(regs, room, &operator, next).is_ok(),
        None => false,
    }
}

// Performs the next operator where it is plain.
#[inline(always)]
fn perform_next(
    regs: &mut Registers,
    room: &mut [Word],
    code: &Code,
    table: Option<&Prepared>,
) -> bool
    requires ready { AreReady regs.old }
    requires room { HasRoom regs.old room.old }
    requires segments { All (λ segment. length segment.words ≤ MOST_SEGMENT_WORDS) code.now.segments }
    requires table { IfSome table (λ t. AreDecoded code.now regs.old.segment regs.old.ll t.now) }
    ensures { Steps (length room.old) (own_next code.now (part_in regs.old room.old)) (part_in regs.old room.old) result (part_in regs.new room.new) }
{
    match row_at(table, regs.place) {
        Some((row, next)) => perform(regs, room, row, next).is_ok(),
        None => perform_fetched(regs, room, code, table),
    }
}

// What [`burst_in_place`] does, where nothing is known of the words below the part.
fn perform_many(
    regs: &mut Registers,
    room: &mut [Word],
    code: &Code,
    table: Option<&Prepared>,
    most: u32,
) -> u32
    requires part { HasPart (part_in regs.old room.old) }
    requires room { length room.old ≡ stack_limit }
    requires segments { All (λ segment. length segment.words ≤ MOST_SEGMENT_WORDS) code.now.segments }
    requires table { IfSome table (λ t. AreDecoded code.now regs.old.segment regs.old.ll t.now) }
    ensures plain { PlainParts code.now (part_in regs.old room.old) result (part_in regs.new room.new) }
    ensures most { result ≤ most }
    ensures stops { result < most → is_plain code.now (part_in regs.new room.new) ≡ false }
{
    let mut count = 0;
    'plain: while count < most {
        if perform_next(regs, room, code, table) {
            count += 1;
        } else {
            return count;
        }
    }
    count
}

/// What [`burst`] does, on registers and in the room of their stack, which are lent apart: the lowest S words of the room are
/// the stack's, before and after.
#[inline(always)]
pub fn burst_in_place(
    regs: &mut Registers,
    room: &mut [Word],
    code: &Code,
    table: Option<&Prepared>,
    most: u32,
) -> u32
    requires part { IsPrivatePart (part_in regs.old room.old) }
    requires room { length room.old ≡ stack_limit }
    requires segments { All (λ segment. length segment.words ≤ MOST_SEGMENT_WORDS) code.now.segments }
    requires table { IfSome table (λ t. AreDecoded code.now regs.old.segment regs.old.ll t.now) }
    ensures plain { PlainParts code.now (part_in regs.old room.old) result (part_in regs.new room.new) }
    ensures most { result ≤ most }
    ensures stops { result < most → is_plain code.now (part_in regs.new room.new) ≡ false }
    ensures kept { IsPrivatePart (part_in regs.new room.new) }
    ensures keeps { RegistersStay regs.old regs.new }
{
    perform_many(regs, room, code, table, most)
}

/// Performs the plain operators that come next in a private part, at most so many, and answers how many it performed. It
/// stops exactly before an operator that is not plain: an action, one that the table faults or interrupts, or one that comes
/// to the stack limit. It takes no memory.
///
/// The operators are those of the code. Where the part's segment was decoded at the part's level, the table of its
/// operators saves the decoding.
pub fn burst(p: &mut Private, code: &Code, table: Option<&Prepared>, most: u32) -> u32
    requires part { IsPrivatePart p.old }
    requires segments { All (λ segment. length segment.words ≤ MOST_SEGMENT_WORDS) code.now.segments }
    requires table { IfSome table (λ t. AreDecoded code.now p.old.regs.segment p.old.regs.ll t.now) }
    ensures plain { PlainParts code.now p.old result p.new }
    ensures most { result ≤ most }
    ensures stops { result < most → is_plain code.now p.new ≡ false }
    ensures kept { IsPrivatePart p.new }
    ensures keeps { RegistersStay p.old.regs p.new.regs }
{
    let base = p.regs.s - p.words.len();
    let room = p.words.room(base);
    let performed = perform_many(&mut p.regs, room, code, table, most);
    p.words.cut(MOST_STACK_WORDS as u32 - p.regs.s);
    performed
}

// Which row an operator has, and what it does.
ghost use Rattle.std.specs.Prelude.{◌≡◌, ◌<◌, ◌^◌, length};
ghost use Rattle.b67_word.specs.Word.{word};
ghost use Rattle.b67_ops.specs.Spelling.{Fits, FitsAs};
ghost use Rattle.b67_ops.specs.declared.Operator.TheVariants.{Plain};
ghost use Rattle.b67_ops.specs.declared.PlainKind.TheVariants.{Entr};
ghost use Rattle.b67_table.specs.Outcome.{limited};
ghost use Rattle.b67_private.specs.Parts.{AreReady, HasRoom, length_of, own_outcome, part_in};
ghost use Rattle.b67_private.specs.Performing.{PrivatePerforms};
ghost use Rattle.b67_private.specs.Actions.{IsRow, IsPlainRow, IsHeldRow};
ghost use Rattle.b67_private.specs.declared.operators.Row.TheVariants.{Enter};
ghost use Rattle.b67_private.specs.Operating.{effect_by, top_effect, PrivateHasRow, HasRowOf, IsHeldCouple};
ghost use Rattle.b67_private.specs.Lettered.{HasLetter, HasLetterOf};

use crate::Stop;
use crate::rows::{
    Logic, branch_to, calculate_two, combine_two, compare_two, complement_top, double, drop_top,
    exchange, go_on, make_cells, mark_stack, negate, push_word, stuff_top,
};
use b67_control::Irw;
use b67_num::{Calculation, Relation};
use b67_ops::{BranchKind, Couple, Operator, PlainKind};
use b67_table::{InterruptKind, Registers};
use b67_word::{Word, make_word, operand};

/// What is done to the words on top only.
#[derive(Clone, Copy)]
pub enum TopRow {
    Negate,
    Complement,
    Drop,
    Exchange,
    Double,
    Stuff,
}

/// What reads and writes words and rows, and no more than the registers of its own process beside them.
#[derive(Clone, Copy)]
pub enum WordsRow {
    ValueCall(Couple),
    /// A branch that does not go forward.
    Turn(BranchKind, u16),
    Evaluate,
    LoadThrough,
    LoadValue,
    /// Stores, and keeps the operand on the stack or not.
    Store(bool),
    Index,
    IndexAndLoad,
    IndexMother,
}

/// What an operator does: to a private part, with the word that it pushes made ready; or that it is an action, and which.
#[derive(Clone, Copy)]
pub enum Row {
    Push(Word),
    Calculate(Calculation),
    Compare(Relation),
    Combine(Logic),
    Top(TopRow),
    Mark,
    MakeCells,
    GoOn,
    Branch(BranchKind, u16),
    // What follows are actions, which are no operators of a private part.
    Words(WordsRow),
    Exit,
    ReturnValue,
    Enter,
}

/// What an action is to a private part.
pub const FOREIGN: Stop = Stop::Interrupt(InterruptKind::BadCode);

// The row of an operator without an operand.
fn row_of_plain(kind: PlainKind) -> Row
    ensures part { HasRowOf kind result }
    ensures row { IsPlainRow kind result }
    ensures letter { HasLetterOf kind result }
    ensures held { IsHeldRow result }
    ensures enters { result ≡ Enter → kind ≡ Entr }
{
    match kind {
        PlainKind::Add => Row::Calculate(Calculation::Sum),
        PlainKind::Subt => Row::Calculate(Calculation::Difference),
        PlainKind::Mult => Row::Calculate(Calculation::Product),
        PlainKind::Divd => Row::Calculate(Calculation::WholeQuotient),
        PlainKind::Idiv => Row::Calculate(Calculation::TruncatedQuotient),
        PlainKind::Rdiv => Row::Calculate(Calculation::Remainder),
        PlainKind::Less => Row::Compare(Relation::Less),
        PlainKind::Greq => Row::Compare(Relation::GreaterOrEqual),
        PlainKind::Grtr => Row::Compare(Relation::Greater),
        PlainKind::Lseq => Row::Compare(Relation::LessOrEqual),
        PlainKind::Equl => Row::Compare(Relation::Equal),
        PlainKind::Neql => Row::Compare(Relation::NotEqual),
        PlainKind::Land => Row::Combine(Logic::Both),
        PlainKind::Lor => Row::Combine(Logic::Either),
        PlainKind::Leqv => Row::Combine(Logic::Agreement),
        PlainKind::Chsn => Row::Top(TopRow::Negate),
        PlainKind::Lnot => Row::Top(TopRow::Complement),
        PlainKind::Dlet => Row::Top(TopRow::Drop),
        PlainKind::Exch => Row::Top(TopRow::Exchange),
        PlainKind::Dupl => Row::Top(TopRow::Double),
        PlainKind::Stff => Row::Top(TopRow::Stuff),
        PlainKind::Zero => Row::Push(operand(0)),
        PlainKind::One => Row::Push(operand(1)),
        PlainKind::Mkst => Row::Mark,
        PlainKind::Push => Row::MakeCells,
        PlainKind::Noop => Row::GoOn,
        PlainKind::Eval => Row::Words(WordsRow::Evaluate),
        PlainKind::Lodt => Row::Words(WordsRow::LoadThrough),
        PlainKind::Load => Row::Words(WordsRow::LoadValue),
        PlainKind::Stod => Row::Words(WordsRow::Store(false)),
        PlainKind::Ston => Row::Words(WordsRow::Store(true)),
        PlainKind::Indx => Row::Words(WordsRow::Index),
        PlainKind::Nxlv => Row::Words(WordsRow::IndexAndLoad),
        PlainKind::Nxln => Row::Words(WordsRow::IndexMother),
        PlainKind::Exit => Row::Exit,
        PlainKind::Retn => Row::ReturnValue,
        PlainKind::Entr => Row::Enter,
    }
}

// A word of these bits.
#[inline(always)]
fn literal(tag: u8, bits: u64) -> Word
    requires tag { tag < 8 }
    requires bits { bits < 2 ^ 48 }
    ensures { result ≡ word tag bits }
{
    make_word(tag, bits).unwrap()
}

/// The row of an operator at its place.
#[tactic(auto, unfolding(b67_table::specs::Rows::row))]
#[inline(always)]
pub fn row_of(op: &Operator, place: u16) -> Row
    requires { FitsAs IsHeldCouple op.now }
    ensures part { PrivateHasRow op.now place result }
    ensures row { IsRow op.now place result }
    ensures letter { HasLetter op.now place result }
    ensures held { IsHeldRow result }
    ensures enters { result ≡ Enter → op.now ≡ Plain Entr }
{
    match *op {
        Operator::Valc(couple) => Row::Words(WordsRow::ValueCall(couple)),
        Operator::Namc(couple) => {
            let reference = Irw {
                level: couple.level,
                index: couple.index,
            };
            Row::Push(reference.pack())
        }
        Operator::Lt8(value) => Row::Push(operand(i64::from(value))),
        Operator::Lt16(value) => Row::Push(operand(i64::from(value))),
        Operator::Lt48(bits) => Row::Push(literal(0, bits)),
        Operator::Mpcw(bits) => Row::Push(literal(7, bits)),
        Operator::Branch(kind, target) => {
            if place < target {
                Row::Branch(kind, target)
            } else {
                Row::Words(WordsRow::Turn(kind, target))
            }
        }
        Operator::Plain(kind) => row_of_plain(kind),
    }
}

#[inline(always)]
fn change_top(regs: &mut Registers, room: &mut [Word], row: TopRow, next: u16) -> Result<(), Stop>
    requires ready { AreReady regs.old }
    requires room { HasRoom regs.old room.old }
    ensures { PrivatePerforms (length room.old) (limited length_of (top_effect row next (part_in regs.old room.old))) (part_in regs.old room.old) result (part_in regs.new room.new) }
{
    match row {
        TopRow::Negate => negate(regs, room, next),
        TopRow::Complement => complement_top(regs, room, next),
        TopRow::Drop => drop_top(regs, room, next),
        TopRow::Exchange => exchange(regs, room, next),
        TopRow::Double => double(regs, room, next),
        TopRow::Stuff => stuff_top(regs, room, next),
    }
}

/// Does to a private part, in the room of its stack, what a row says, given the place after the operator; or stops, and changes
/// nothing. An action is `BadCode`: it is no operator of a private part.
#[inline(always)]
pub fn perform(regs: &mut Registers, room: &mut [Word], row: Row, next: u16) -> Result<(), Stop>
    requires ready { AreReady regs.old }
    requires room { HasRoom regs.old room.old }
    ensures { PrivatePerforms (length room.old) (limited length_of (effect_by row next (part_in regs.old room.old))) (part_in regs.old room.old) result (part_in regs.new room.new) }
{
    match row {
        Row::Push(word) => push_word(regs, room, word, next),
        Row::Calculate(calculation) => calculate_two(regs, room, calculation, next),
        Row::Compare(relation) => compare_two(regs, room, relation, next),
        Row::Combine(kind) => combine_two(regs, room, kind, next),
        Row::Top(row) => change_top(regs, room, row, next),
        Row::Mark => mark_stack(regs, room, next),
        Row::MakeCells => make_cells(regs, next),
        Row::GoOn => {
            go_on(regs, next);
            Ok(())
        }
        Row::Branch(kind, target) => branch_to(regs, room, kind, target, next),
        Row::Words(_) | Row::Exit | Row::ReturnValue | Row::Enter => Err(FOREIGN),
    }
}

/// Performs an operator that stands at the pointer of a private part, in the room of its stack, given the place after it: what
/// the table says, or the stop that it gives, which changes nothing. An action is `BadCode`: it is no operator of a private part.
pub fn operate(
    regs: &mut Registers,
    room: &mut [Word],
    op: &Operator,
    next: u16,
) -> Result<(), Stop>
    requires ready { AreReady regs.old }
    requires room { HasRoom regs.old room.old }
    requires fits { Fits regs.old.ll op.now }
    ensures { PrivatePerforms (length room.old) (own_outcome op.now next (part_in regs.old room.old)) (part_in regs.old room.old) result (part_in regs.new room.new) }
{
    let row = row_of(op, regs.place);
    perform(regs, room, row, next)
}

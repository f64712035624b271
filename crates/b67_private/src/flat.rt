// Rows in one piece: one jump finds what a row does, where the kinds of a row take two or three.
ghost use Rattle.std.specs.Prelude.{◌≡◌, IfSome, length};
ghost use Rattle.b67_table.specs.Outcome.{limited};
ghost use Rattle.b67_private.specs.Parts.{AreReady, HasRoom, length_of, part_in};
ghost use Rattle.b67_private.specs.Performing.{PrivatePerforms};
ghost use Rattle.b67_private.specs.Operating.{effect_by};
ghost use Rattle.b67_private.specs.Flat.{row_from};
ghost use Rattle.b67_private.specs.declared.operators.Row.TheVariants.{Calculate, Compare, Combine, Top, Branch, Words};

use crate::Stop;
use crate::operators::{FOREIGN, Row, TopRow, WordsRow};
use crate::rows::{
    Logic, branch_to, calculate_two, combine_two, compare_two, complement_top, double, drop_top,
    exchange, go_on, make_cells, mark_stack, negate, push_word, stuff_top,
};
use b67_num::{Calculation, Relation};
use b67_ops::{BranchKind, Couple};
use b67_table::Registers;
use b67_word::Word;

/// What an operator does, as a [`Row`] says it, with all kinds side by side.
#[derive(Clone, Copy)]
pub enum FlatRow {
    Push(Word),
    Sum,
    Difference,
    Product,
    WholeQuotient,
    TruncatedQuotient,
    Remainder,
    Less,
    LessOrEqual,
    Equal,
    NotEqual,
    GreaterOrEqual,
    Greater,
    BothBits,
    EitherBits,
    AgreeingBits,
    Negate,
    Complement,
    Drop,
    Exchange,
    Double,
    Stuff,
    Mark,
    MakeCells,
    GoOn,
    Always(u16),
    IfFalse(u16),
    IfTrue(u16),
    // What follows are actions, which are no operators of a private part.
    ValueCall(Couple),
    /// A store that keeps nothing.
    Store,
    /// A branch back that goes always.
    Turn(u16),
    Index,
    /// What reads and writes words and rows in another way.
    Words(WordsRow),
    Exit,
    ReturnValue,
    Enter,
}

// The flat row of a calculation.
fn of_calculation(calculation: Calculation) -> FlatRow
    ensures { row_from result ≡ Calculate calculation }
{
    match calculation {
        Calculation::Sum => FlatRow::Sum,
        Calculation::Difference => FlatRow::Difference,
        Calculation::Product => FlatRow::Product,
        Calculation::WholeQuotient => FlatRow::WholeQuotient,
        Calculation::TruncatedQuotient => FlatRow::TruncatedQuotient,
        Calculation::Remainder => FlatRow::Remainder,
    }
}

// The flat row of a relation.
fn of_relation(relation: Relation) -> FlatRow
    ensures { row_from result ≡ Compare relation }
{
    match relation {
        Relation::Less => FlatRow::Less,
        Relation::LessOrEqual => FlatRow::LessOrEqual,
        Relation::Equal => FlatRow::Equal,
        Relation::NotEqual => FlatRow::NotEqual,
        Relation::GreaterOrEqual => FlatRow::GreaterOrEqual,
        Relation::Greater => FlatRow::Greater,
    }
}

// The flat row of what is made of bits.
fn of_logic(kind: Logic) -> FlatRow
    ensures { row_from result ≡ Combine kind }
{
    match kind {
        Logic::Both => FlatRow::BothBits,
        Logic::Either => FlatRow::EitherBits,
        Logic::Agreement => FlatRow::AgreeingBits,
    }
}

// The flat row of what is done to the words on top.
fn of_top(row: TopRow) -> FlatRow
    ensures { row_from result ≡ Top row }
{
    match row {
        TopRow::Negate => FlatRow::Negate,
        TopRow::Complement => FlatRow::Complement,
        TopRow::Drop => FlatRow::Drop,
        TopRow::Exchange => FlatRow::Exchange,
        TopRow::Double => FlatRow::Double,
        TopRow::Stuff => FlatRow::Stuff,
    }
}

// The flat row of a branch forward.
fn of_branch(kind: BranchKind, target: u16) -> FlatRow
    ensures { row_from result ≡ Branch kind target }
{
    match kind {
        BranchKind::Brfl => FlatRow::IfFalse(target),
        BranchKind::Brtr => FlatRow::IfTrue(target),
        BranchKind::Brun => FlatRow::Always(target),
    }
}

// The flat row of what reads and writes words and rows.
fn of_words(kind: WordsRow) -> FlatRow
    ensures { row_from result ≡ Words kind }
{
    match kind {
        WordsRow::ValueCall(couple) => FlatRow::ValueCall(couple),
        WordsRow::Store(false) => FlatRow::Store,
        WordsRow::Turn(BranchKind::Brun, target) => FlatRow::Turn(target),
        WordsRow::Index => FlatRow::Index,
        _ => FlatRow::Words(kind),
    }
}

/// The flat row of a row.
pub fn flat_of(row: Row) -> FlatRow
    ensures { row_from result ≡ row }
{
    match row {
        Row::Push(word) => FlatRow::Push(word),
        Row::Calculate(calculation) => of_calculation(calculation),
        Row::Compare(relation) => of_relation(relation),
        Row::Combine(kind) => of_logic(kind),
        Row::Top(row) => of_top(row),
        Row::Mark => FlatRow::Mark,
        Row::MakeCells => FlatRow::MakeCells,
        Row::GoOn => FlatRow::GoOn,
        Row::Branch(kind, target) => of_branch(kind, target),
        Row::Words(kind) => of_words(kind),
        Row::Exit => FlatRow::Exit,
        Row::ReturnValue => FlatRow::ReturnValue,
        Row::Enter => FlatRow::Enter,
    }
}

/// The row that a flat row is.
#[inline(always)]
pub fn row_from(flat: FlatRow) -> Row
    ensures { result ≡ row_from flat }
{
    match flat {
        FlatRow::Push(word) => Row::Push(word),
        FlatRow::Sum => Row::Calculate(Calculation::Sum),
        FlatRow::Difference => Row::Calculate(Calculation::Difference),
        FlatRow::Product => Row::Calculate(Calculation::Product),
        FlatRow::WholeQuotient => Row::Calculate(Calculation::WholeQuotient),
        FlatRow::TruncatedQuotient => Row::Calculate(Calculation::TruncatedQuotient),
        FlatRow::Remainder => Row::Calculate(Calculation::Remainder),
        FlatRow::Less => Row::Compare(Relation::Less),
        FlatRow::LessOrEqual => Row::Compare(Relation::LessOrEqual),
        FlatRow::Equal => Row::Compare(Relation::Equal),
        FlatRow::NotEqual => Row::Compare(Relation::NotEqual),
        FlatRow::GreaterOrEqual => Row::Compare(Relation::GreaterOrEqual),
        FlatRow::Greater => Row::Compare(Relation::Greater),
        FlatRow::BothBits => Row::Combine(Logic::Both),
        FlatRow::EitherBits => Row::Combine(Logic::Either),
        FlatRow::AgreeingBits => Row::Combine(Logic::Agreement),
        FlatRow::Negate => Row::Top(TopRow::Negate),
        FlatRow::Complement => Row::Top(TopRow::Complement),
        FlatRow::Drop => Row::Top(TopRow::Drop),
        FlatRow::Exchange => Row::Top(TopRow::Exchange),
        FlatRow::Double => Row::Top(TopRow::Double),
        FlatRow::Stuff => Row::Top(TopRow::Stuff),
        FlatRow::Mark => Row::Mark,
        FlatRow::MakeCells => Row::MakeCells,
        FlatRow::GoOn => Row::GoOn,
        FlatRow::Always(target) => Row::Branch(BranchKind::Brun, target),
        FlatRow::IfFalse(target) => Row::Branch(BranchKind::Brfl, target),
        FlatRow::IfTrue(target) => Row::Branch(BranchKind::Brtr, target),
        FlatRow::ValueCall(couple) => Row::Words(WordsRow::ValueCall(couple)),
        FlatRow::Store => Row::Words(WordsRow::Store(false)),
        FlatRow::Turn(target) => Row::Words(WordsRow::Turn(BranchKind::Brun, target)),
        FlatRow::Index => Row::Words(WordsRow::Index),
        FlatRow::Words(kind) => Row::Words(kind),
        FlatRow::Exit => Row::Exit,
        FlatRow::ReturnValue => Row::ReturnValue,
        FlatRow::Enter => Row::Enter,
    }
}

/// What reads and writes words and rows, where a flat row is one of the four that come most often.
#[inline(always)]
pub fn frequent_words(flat: FlatRow) -> Option<WordsRow>
    ensures { IfSome result (λ kind. row_from flat ≡ Words kind) }
{
    match flat {
        FlatRow::ValueCall(couple) => Some(WordsRow::ValueCall(couple)),
        FlatRow::Store => Some(WordsRow::Store(false)),
        FlatRow::Turn(target) => Some(WordsRow::Turn(BranchKind::Brun, target)),
        FlatRow::Index => Some(WordsRow::Index),
        _ => None,
    }
}

/// Does to a private part, in the room of its stack, what a flat row says, as [`perform`](crate::perform) does it by a row.
#[inline(always)]
pub fn perform_flat(
    regs: &mut Registers,
    room: &mut [Word],
    flat: FlatRow,
    next: u16,
) -> Result<(), Stop>
    requires ready { AreReady regs.old }
    requires room { HasRoom regs.old room.old }
    ensures { PrivatePerforms (length room.old) (limited length_of (effect_by (row_from flat) next (part_in regs.old room.old))) (part_in regs.old room.old) result (part_in regs.new room.new) }
{
    match flat {
        FlatRow::Push(word) => push_word(regs, room, word, next),
        FlatRow::Sum => calculate_two(regs, room, Calculation::Sum, next),
        FlatRow::Difference => calculate_two(regs, room, Calculation::Difference, next),
        FlatRow::Product => calculate_two(regs, room, Calculation::Product, next),
        FlatRow::WholeQuotient => calculate_two(regs, room, Calculation::WholeQuotient, next),
        FlatRow::TruncatedQuotient => calculate_two(
            regs,
            room,
            Calculation::TruncatedQuotient,
            next,
        ),
        FlatRow::Remainder => calculate_two(regs, room, Calculation::Remainder, next),
        FlatRow::Less => compare_two(regs, room, Relation::Less, next),
        FlatRow::LessOrEqual => compare_two(regs, room, Relation::LessOrEqual, next),
        FlatRow::Equal => compare_two(regs, room, Relation::Equal, next),
        FlatRow::NotEqual => compare_two(regs, room, Relation::NotEqual, next),
        FlatRow::GreaterOrEqual => compare_two(regs, room, Relation::GreaterOrEqual, next),
        FlatRow::Greater => compare_two(regs, room, Relation::Greater, next),
        FlatRow::BothBits => combine_two(regs, room, Logic::Both, next),
        FlatRow::EitherBits => combine_two(regs, room, Logic::Either, next),
        FlatRow::AgreeingBits => combine_two(regs, room, Logic::Agreement, next),
        FlatRow::Negate => negate(regs, room, next),
        FlatRow::Complement => complement_top(regs, room, next),
        FlatRow::Drop => drop_top(regs, room, next),
        FlatRow::Exchange => exchange(regs, room, next),
        FlatRow::Double => double(regs, room, next),
        FlatRow::Stuff => stuff_top(regs, room, next),
        FlatRow::Mark => mark_stack(regs, room, next),
        FlatRow::MakeCells => make_cells(regs, next),
        FlatRow::GoOn => {
            go_on(regs, next);
            Ok(())
        }
        FlatRow::Always(target) => branch_to(regs, room, BranchKind::Brun, target, next),
        FlatRow::IfFalse(target) => branch_to(regs, room, BranchKind::Brfl, target, next),
        FlatRow::IfTrue(target) => branch_to(regs, room, BranchKind::Brtr, target, next),
        FlatRow::ValueCall(_)
        | FlatRow::Store
        | FlatRow::Turn(_)
        | FlatRow::Index
        | FlatRow::Words(_)
        | FlatRow::Exit
        | FlatRow::ReturnValue
        | FlatRow::Enter => Err(FOREIGN),
    }
}

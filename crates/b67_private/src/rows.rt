// What the private operators do, each by its row of the table.
ghost use Rattle.std.specs.Prelude.{◌≡◌, ◌<◌, ◌≤◌, ◌^◌, ◌∷◌, List, Option, Some, None, Ok, IfSome, length};
ghost use Rattle.b67_num.specs.Whole.{calculated, related};
ghost use Rattle.b67_word.specs.Word.{word, Word};
ghost use Rattle.b67_control.specs.Display.{levels};
ghost use Rattle.b67_store.specs.Store.{stack_limit};
ghost use Rattle.b67_table.specs.Effect.{gives};
ghost use Rattle.b67_table.specs.Outcome.{limited};
ghost use Rattle.b67_table.specs.Private.{push};
ghost use Rattle.b67_table.specs.PrivateRows.{complement, by_bit, arithmetic, relation as relations, negated, logic, complemented, dropped, exchanged, doubled, stuffed, stuff, mark, make_cells, branch, is_taken};
ghost use Rattle.b67_private.specs.Parts.{AreReady, HasRoom, length_of, part_in};
ghost use Rattle.b67_private.specs.Performing.{PrivatePerforms, own_row, bits_by, Stuffs, OperandHolds, AreSeen, stuffed_in};

use crate::Stop;
use crate::taking::{UNDERFLOW, lower, put_two, replace, top, two};
use b67_control::{Irw, Mscw, Registers, Sirw};
use b67_num::{Calculation, Relation, calculate, compare, neg};
use b67_ops::BranchKind;
use b67_table::{InterruptKind, frame, wide};
use b67_word::{Word, make_word, operand, truth};

// The most cells of a frame, which a control word can hold.
const MOST_CELLS: u16 = b67_limits::MOST_FRAME_CELLS;

const INVALID: Stop = Stop::Interrupt(InterruptKind::InvalidOperand);

/// What is made of the bits of two operands.
#[derive(Clone, Copy)]
pub enum Logic {
    /// The bits that both have.
    Both,
    /// The bits that either has.
    Either,
    /// The bits in which they agree.
    Agreement,
}

// Whole y and x are replaced by what is calculated of them.
#[tactic(auto, using(crate::proofs::Underflow::wholes_stop))]
#[inline(always)]
pub fn calculate_two(
    regs: &mut Registers,
    room: &mut [Word],
    calculation: Calculation,
    next: u16,
) -> Result<(), Stop>
    requires ready { AreReady regs.old }
    requires room { HasRoom regs.old room.old }
    ensures { PrivatePerforms (length room.old) (own_row (arithmetic (calculated calculation)) next (part_in regs.old room.old)) (part_in regs.old room.old) result (part_in regs.new room.new) }
{
    let Some((x, y)) = two(regs, room) else {
        return Err(UNDERFLOW);
    };
    let Some(a) = y.as_whole() else {
        return Err(INVALID);
    };
    let Some(b) = x.as_whole() else {
        return Err(INVALID);
    };
    let z = calculate(calculation, a, b)?;
    replace(regs, room, 2, operand(z), next);
    Ok(())
}

// Whole y and x are replaced by the truth of a relation.
#[tactic(auto, using(crate::proofs::Underflow::wholes_stop))]
#[inline(always)]
pub fn compare_two(
    regs: &mut Registers,
    room: &mut [Word],
    relation: Relation,
    next: u16,
) -> Result<(), Stop>
    requires ready { AreReady regs.old }
    requires room { HasRoom regs.old room.old }
    ensures { PrivatePerforms (length room.old) (own_row (relations (related relation)) next (part_in regs.old room.old)) (part_in regs.old room.old) result (part_in regs.new room.new) }
{
    let Some((x, y)) = two(regs, room) else {
        return Err(UNDERFLOW);
    };
    let Some(a) = y.as_whole() else {
        return Err(INVALID);
    };
    let Some(b) = x.as_whole() else {
        return Err(INVALID);
    };
    replace(regs, room, 2, truth(compare(relation, a, b)), next);
    Ok(())
}

// Whole x is replaced by its negation.
#[inline(always)]
pub fn negate(regs: &mut Registers, room: &mut [Word], next: u16) -> Result<(), Stop>
    requires ready { AreReady regs.old }
    requires room { HasRoom regs.old room.old }
    ensures { PrivatePerforms (length room.old) (own_row negated next (part_in regs.old room.old)) (part_in regs.old room.old) result (part_in regs.new room.new) }
{
    let x = top(regs, room)?;
    let Some(a) = x.as_whole() else {
        return Err(INVALID);
    };
    replace(regs, room, 1, operand(neg(a)), next);
    Ok(())
}

// A word is pushed.
#[inline(always)]
pub fn push_word(regs: &mut Registers, room: &mut [Word], word: Word, next: u16) -> Result<(), Stop>
    requires ready { AreReady regs.old }
    requires room { HasRoom regs.old room.old }
    ensures { PrivatePerforms (length room.old) (own_row (λ q. gives (push word q)) next (part_in regs.old room.old)) (part_in regs.old room.old) result (part_in regs.new room.new) }
{
    if regs.s as usize >= room.len() {
        return Err(Stop::StackLimit);
    }
    replace(regs, room, 0, word, next);
    Ok(())
}

// The word on top goes.
#[inline(always)]
pub fn drop_top(regs: &mut Registers, room: &mut [Word], next: u16) -> Result<(), Stop>
    requires ready { AreReady regs.old }
    requires room { HasRoom regs.old room.old }
    ensures { PrivatePerforms (length room.old) (own_row dropped next (part_in regs.old room.old)) (part_in regs.old room.old) result (part_in regs.new room.new) }
{
    let _x = top(regs, room)?;
    lower(regs, room, 1, next);
    Ok(())
}

// The two words on top change places.
#[tactic(auto, using(crate::proofs::Underflow::exchanged_stops))]
#[inline(always)]
pub fn exchange(regs: &mut Registers, room: &mut [Word], next: u16) -> Result<(), Stop>
    requires ready { AreReady regs.old }
    requires room { HasRoom regs.old room.old }
    ensures { PrivatePerforms (length room.old) (own_row exchanged next (part_in regs.old room.old)) (part_in regs.old room.old) result (part_in regs.new room.new) }
{
    let Some((x, y)) = two(regs, room) else {
        return Err(UNDERFLOW);
    };
    put_two(regs, room, x, y);
    regs.place = next;
    Ok(())
}

// The word on top is pushed again.
#[inline(always)]
pub fn double(regs: &mut Registers, room: &mut [Word], next: u16) -> Result<(), Stop>
    requires ready { AreReady regs.old }
    requires room { HasRoom regs.old room.old }
    ensures { PrivatePerforms (length room.old) (own_row doubled next (part_in regs.old room.old)) (part_in regs.old room.old) result (part_in regs.new room.new) }
{
    let x = top(regs, room)?;
    push_word(regs, room, x, next)
}

// Only the pointer goes on.
#[inline(always)]
pub fn go_on(regs: &mut Registers, next: u16)
    requires { regs.old.s ≤ stack_limit }
    ensures { (room : List Word) → regs.old.s ≤ length room → PrivatePerforms (length room) (own_row gives next (part_in regs.old room)) (part_in regs.old room) (Ok tt) (part_in regs.new room) }
{
    regs.place = next;
}

// The bits of an operand.
#[inline(always)]
fn bits_of(word: Word) -> Option<u64>
    ensures value { OperandHolds word result }
    ensures bound { IfSome result (λ bits. bits < 2 ^ 48) }
{
    if word.tag() == 0 {
        Some(word.bits())
    } else {
        None
    }
}

// The bits that these do not have.
#[inline(always)]
fn complement(bits: u64) -> u64
    requires { bits < 2 ^ 48 }
    ensures value { result ≡ complement bits }
    ensures bound { result < 2 ^ 48 }
{
    (1u64 << 48) - 1 - bits
}

#[tactic(auto, using(crate::proofs::BitBounds::bits_fit))]
#[inline(always)]
fn combined(kind: Logic, a: u64, b: u64) -> u64
    requires left { a < 2 ^ 48 }
    requires right { b < 2 ^ 48 }
    ensures value { result ≡ bits_by kind a b }
    ensures bound { result < 2 ^ 48 }
{
    match kind {
        Logic::Both => a & b,
        Logic::Either => a | b,
        Logic::Agreement => complement(a ^ b),
    }
}

// The operand of these bits.
#[inline(always)]
fn operand_of(bits: u64) -> Word
    requires { bits < 2 ^ 48 }
    ensures { result ≡ word 0 bits }
{
    make_word(0, bits).unwrap()
}

// The operands y and x are replaced by what is made of their bits.
#[tactic(auto, using(crate::proofs::Underflow::logic_stops))]
#[inline(always)]
pub fn combine_two(
    regs: &mut Registers,
    room: &mut [Word],
    kind: Logic,
    next: u16,
) -> Result<(), Stop>
    requires ready { AreReady regs.old }
    requires room { HasRoom regs.old room.old }
    ensures { PrivatePerforms (length room.old) (own_row (logic (bits_by kind)) next (part_in regs.old room.old)) (part_in regs.old room.old) result (part_in regs.new room.new) }
{
    let Some((x, y)) = two(regs, room) else {
        return Err(UNDERFLOW);
    };
    let Some(a) = bits_of(y) else {
        return Err(INVALID);
    };
    let Some(b) = bits_of(x) else {
        return Err(INVALID);
    };
    replace(regs, room, 2, operand_of(combined(kind, a, b)), next);
    Ok(())
}

// The operand x is replaced by the bits that it does not have.
#[inline(always)]
pub fn complement_top(regs: &mut Registers, room: &mut [Word], next: u16) -> Result<(), Stop>
    requires ready { AreReady regs.old }
    requires room { HasRoom regs.old room.old }
    ensures { PrivatePerforms (length room.old) (own_row complemented next (part_in regs.old room.old)) (part_in regs.old room.old) result (part_in regs.new room.new) }
{
    let x = top(regs, room)?;
    let Some(a) = bits_of(x) else {
        return Err(INVALID);
    };
    replace(regs, room, 1, operand_of(complement(a)), next);
    Ok(())
}

// A reference that is read in the display as one that is read anywhere.
fn stuffed(regs: &Registers, word: Word) -> Result<Word, Stop>
    requires { AreSeen regs.now }
    ensures { Stuffs (stuffed_in regs.now word) result }
{
    if let Some(irw) = Irw::unpack(word) {
        let Some(frame) = regs.display.get(irw.level) else {
            return Err(INVALID);
        };
        let cell = Sirw {
            stack: frame.stack,
            displacement: frame.at,
            index: irw.index,
        };
        return Ok(cell.pack());
    }
    match Sirw::unpack(word) {
        Some(cell) => Ok(cell.pack()),
        None => Err(INVALID),
    }
}

// The reference on top is stuffed.
#[inline(always)]
pub fn stuff_top(regs: &mut Registers, room: &mut [Word], next: u16) -> Result<(), Stop>
    requires ready { AreReady regs.old }
    requires room { HasRoom regs.old room.old }
    ensures { PrivatePerforms (length room.old) (own_row stuff next (part_in regs.old room.old)) (part_in regs.old room.old) result (part_in regs.new room.new) }
{
    let x = top(regs, room)?;
    let word = stuffed(regs, x)?;
    replace(regs, room, 1, word, next);
    Ok(())
}

// A mark is pushed, which is not entered, with the distance to the mark below it.
#[inline(always)]
pub fn mark_stack(regs: &mut Registers, room: &mut [Word], next: u16) -> Result<(), Stop>
    requires ready { AreReady regs.old }
    requires room { HasRoom regs.old room.old }
    ensures { PrivatePerforms (length room.old) (own_row mark next (part_in regs.old room.old)) (part_in regs.old room.old) result (part_in regs.new room.new) }
{
    let below = wide(regs.f);
    if below >= regs.s {
        return Err(INVALID);
    }
    if regs.s as usize >= room.len() {
        return Err(Stop::StackLimit);
    }
    let word = Mscw {
        entered: false,
        stack: 0,
        displacement: 0,
        df: (regs.s - below) as u16,
    };
    regs.f = regs.s as u16;
    replace(regs, room, 0, word.pack(), next);
    Ok(())
}

// The words up to here become cells.
#[inline(always)]
pub fn make_cells(regs: &mut Registers, next: u16) -> Result<(), Stop>
    requires level { regs.old.ll < levels }
    requires room { regs.old.s ≤ stack_limit }
    ensures { (room : List Word) → regs.old.s ≤ length room → PrivatePerforms (length room) (own_row make_cells next (part_in regs.old room)) (part_in regs.old room) result (part_in regs.new room) }
{
    let cells = regs.s.saturating_sub(frame(regs) + 2);
    if cells > u32::from(MOST_CELLS) {
        return Err(INVALID);
    }
    regs.cells = cells as u16;
    regs.place = next;
    Ok(())
}

// Bit 0 of the operand on top, which is taken off, says whether the branch goes.
#[inline(always)]
fn branch_by(
    regs: &mut Registers,
    room: &mut [Word],
    kind: BranchKind,
    target: u16,
    next: u16,
) -> Result<(), Stop>
    requires ready { AreReady regs.old }
    requires room { HasRoom regs.old room.old }
    ensures { PrivatePerforms (length room.old) (limited length_of (by_bit kind target next (part_in regs.old room.old))) (part_in regs.old room.old) result (part_in regs.new room.new) }
{
    let x = top(regs, room)?;
    let Some(bits) = bits_of(x) else {
        return Err(INVALID);
    };
    let goes = match kind {
        BranchKind::Brfl => bits % 2 == 0,
        BranchKind::Brtr => bits % 2 == 1,
        BranchKind::Brun => true,
    };
    lower(regs, room, 1, if goes { target } else { next });
    Ok(())
}

// The pointer goes to the place, always or by bit 0 of the operand on top.
#[inline(always)]
pub fn branch_to(
    regs: &mut Registers,
    room: &mut [Word],
    kind: BranchKind,
    target: u16,
    next: u16,
) -> Result<(), Stop>
    requires ready { AreReady regs.old }
    requires room { HasRoom regs.old room.old }
    ensures { PrivatePerforms (length room.old) (limited length_of (branch kind target next (part_in regs.old room.old))) (part_in regs.old room.old) result (part_in regs.new room.new) }
{
    match kind {
        BranchKind::Brun => {
            regs.place = target;
            Ok(())
        }
        _ => branch_by(regs, room, kind, target, next),
    }
}

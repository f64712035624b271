ghost use Rattle.std.specs.Prelude.{◌≡◌, ◌≢◌, ◌+◌, ◌-◌, ◌*◌, ◌/◌, ◌%◌, ◌^◌, replicate, All, ◌<◌, ◌≤◌, ◌++◌, Some, None, [], ◌∷◌, length, vec_len, vec_capacity, IsSome, IfOk, OnOk, OnErr};
ghost use Rattle.std.specs.Int.{bytes_high_first};
ghost use Rattle.b67_segment.specs.declared.TheConstants.{MOST_SEGMENT_WORDS};
ghost use Rattle.b67_ops.specs.declared.TheConstants.{OUTER_LEVEL, MOST_LEVEL};
ghost use Rattle.b67_ops.specs.Spelling.{spelling, Fits};
ghost use Rattle.b67_segment.specs.Operators.{is_level, size, aimed_from, missing, filler, filled};
ghost use Rattle.b67_segment.specs.Building.{level_set, appended, level_marked, marks_with, spliced, IsBranchAt};
ghost use Rattle.b67_segment.specs.Syllables.{syllables, Spells};

use crate::code::{Mark, Segment};
use b67_list::List;
use b67_ops::{Operator, OperatorKind, PlainKind, encode};
use std::alloc::{AllocError, Global};
use std::marker::Model;

/// Builds a segment: operators one after another, each at the level that was set before it.
///
/// Contracts see a builder as the list of its operators with their levels, and the level that was set
/// last.
#[derive(Drop)]
pub struct Builder {
    syllables: Vec<u8>,
    marks: Vec<Mark>,
    level: Option<u8>,
}

impl Model for Builder {
    ghost use Rattle.std.specs.Prelude.{◌-◌, vec_len, vec_capacity};
    ghost use Rattle.b67_segment.specs.Building.{Built, IsBuilt, operators_of};

    ghost Value = { Built };

    ghost view = { λ b. record {
      operators = operators_of b.syllables.items b.marks.items;
      level = b.level;
    } };

    ghost invariant = { λ b.
        IsBuilt b.syllables.items b.marks.items b.level (vec_capacity b.marks - vec_len b.marks) };
}

/// Tests that the operators that these marks are of end at this level.
fn is_at(marks: &[Mark], level: u8) -> bool
    ensures { result ≡ is_level (level_marked None marks.now) level }
{
    match marks.last() {
        Some(mark) => mark.level == level,
        None => false,
    }
}

/// Appends an operator's syllables, and a mark where its level is new.
fn append_to(
    op: &Operator,
    level: u8,
    syllables: &mut Vec<u8>,
    marks: &mut Vec<Mark>,
) -> Result<u16, AllocError>
    requires level { level ≤ MOST_LEVEL }
    requires fits { Fits level op.now }
    requires room { length syllables.old.items
        + length (spelling (length syllables.old.items) level op.now) ≤ 6 * MOST_SEGMENT_WORDS }
    requires marking { level_marked None marks.old.items ≢ Some level
        → vec_len marks.old < vec_capacity marks.old }
    ensures place { IfOk result (λ place. place ≡ length syllables.old.items) }
    ensures ok { OnOk result (syllables.new.items
        ≡ syllables.old.items ++ spelling (length syllables.old.items) level op.now) }
    ensures marks { OnOk result (marks.new.items
        ≡ marks_with marks.old.items (length syllables.old.items) level) }
    ensures err { OnErr result (
        (syllables.new.items ≡ syllables.old.items) × (marks.new.items ≡ marks.old.items)
        × (vec_capacity marks.new - vec_len marks.new ≡ vec_capacity marks.old - vec_len marks.old)) }
{
    let place = syllables.len() as u16;
    encode(op, level, syllables)?;
    if !is_at(marks, level) {
        marks.push(Mark { place, level })?;
    }
    Ok(place)
}

/// Writes the target of a branch.
fn aim(code: &mut Vec<u8>, branch: usize, target: u16)
    requires { branch + 2 < length code.old.items }
    ensures { code.new.items ≡ spliced code.old.items branch target }
{
    code[branch + 1..branch + 3].copy_from_slice(&target.to_be_bytes());
}

/// Fills the last word of code with NOOPs.
#[tactic(auto, using(crate::proofs::Filling::noops))]
fn fill(code: &mut Vec<u8>) -> Result<(), AllocError>
    ensures { OnOk result (code.new.items
        ≡ code.old.items ++ replicate (missing (length code.old.items)) filler) }
{
    let missing = (6 - code.len() % 6) % 6;
    code.extend_from_slice(&[OperatorKind::Plain(PlainKind::Noop).code(); 5][..missing])
}

/// The word of six syllables, the first one highest.
#[tactic(auto, using(crate::proofs::Filling::word_of))]
fn word(code: &[u8]) -> u64
    requires { length code.now ≡ 6 }
    ensures code { bytes_high_first 6 result ≡ code.now }
    ensures small { result < 2 ^ 48 }
{
    match code {
        [a, b, c, d, e, f] => u64::from_be_bytes([0, 0, *a, *b, *c, *d, *e, *f]),
        _ => unreachable!(),
    }
}

/// The words of code.
fn words_of(alloc: Global, code: &[u8]) -> Result<Vec<u64>, AllocError>
    requires { length code.now % 6 ≡ 0 }
    ensures code { IfOk result (λ words. syllables words.items ≡ code.now) }
    ensures small { IfOk result (λ words. All (λ word. word < 2 ^ 48) words.items) }
{
    let count = code.len() / 6;
    let mut words = Vec::with_capacity(alloc, count)?;
    for index in 0..count {
        words.push(word(&code[6 * index..6 * index + 6]))?;
    }
    Ok(words)
}

impl Builder {
    /// A builder of nothing yet, at no level.
    #[tactic(auto, using(crate::proofs::Builds::built_of_nothing))]
    pub fn new(alloc: Global) -> Builder
        ensures { result ≡ record { operators = []; level = None } }
    {
        Builder {
            syllables: Vec::new(alloc),
            marks: Vec::new(alloc),
            level: None,
        }
    }

    /// Sets the level of the operators that follow, that of a block, and makes room for its mark. On `Err` nothing
    /// changes.
    pub fn level(&mut self, level: u8) -> Result<(), AllocError>
        requires outer { OUTER_LEVEL ≤ level }
        requires most { level ≤ MOST_LEVEL }
        ensures ok { OnOk result (self.new ≡ record self.old { level = Some level }) }
        ensures err { OnErr result (self.new ≡ self.old) }
    {
        self.marks.reserve(1)?;
        self.level = Some(level);
        Ok(())
    }

    /// The place where the next operator will stand, in syllables from the segment's start.
    pub fn place(&self) -> u16
        ensures { result ≡ size self.now.operators }
    {
        self.syllables.len() as u16
    }

    /// Appends an operator at the level that was set last, and gives its place. On `Err` nothing
    /// changes.
    pub fn append(&mut self, op: &Operator) -> Result<u16, AllocError>
        // A level was set, which the operator fits, and the segment stays within its most words,
        // which are of six syllables.
        requires set { IsSome self.old.level }
        requires fits { Fits (level_set self.old) op.now }
        requires room { size self.old.operators
            + length (spelling (size self.old.operators) (level_set self.old) op.now) ≤ 6 * MOST_SEGMENT_WORDS }
        ensures place { IfOk result (λ place. place ≡ size self.old.operators) }
        ensures ok { OnOk result (self.new ≡ appended self.old op.now) }
        ensures err { OnErr result (self.new ≡ self.old) }
    {
        append_to(
            op,
            self.level.unwrap(),
            &mut self.syllables,
            &mut self.marks,
        )
    }

    /// Changes the target of the branch that stands at this place, and nothing else.
    pub fn patch(&mut self, branch: u16, target: u16)
        requires { IsBranchAt self.old.operators branch }
        ensures { self.new ≡ record self.old {
          operators = aimed_from 0 branch target self.old.operators;
        } }
    {
        aim(&mut self.syllables, usize::from(branch), target);
    }

    /// The segment of the operators, with NOOPs up to a whole word.
    pub fn finish(self) -> Result<Segment, AllocError>
        ensures { IfOk result (Spells (filled self.operators)) }
    {
        let Builder {
            mut syllables,
            marks,
            level: _,
        } = self;
        fill(&mut syllables)?;
        let words = words_of(*syllables.allocator(), &syllables)?;
        Ok(Segment {
            words: List::of(words),
            marks: List::of(marks),
        })
    }
}

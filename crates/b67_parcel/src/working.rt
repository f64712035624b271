// What a processor works on: a part of a process as it was taken, and what was performed on a copy of it.
ghost use Rattle.std.specs.Prelude.{◌≡◌, ◌+◌, ◌≤◌, ℕ, [], All, IfOk, IfSome, true, false, length, take, Some};
ghost use Rattle.b67_list.specs.Numbered.{numbered};
ghost use Rattle.b67_segment.specs.declared.TheConstants.{MOST_SEGMENT_WORDS};
ghost use Rattle.b67_segment.specs.Decoded.{AreDecoded};
ghost use Rattle.b67_table.specs.Beginning.{first_registers};
ghost use Rattle.b67_table.specs.Image.{Image, is_able};
ghost use Rattle.b67_table.specs.Privacy.{RegistersStay};
ghost use Rattle.b67_table.specs.Valid.{IsValid};
ghost use Rattle.b67_machine.specs.Chaining.{RunsTo};
ghost use Rattle.b67_machine.specs.Parts.{whole_part, IsFull};
ghost use Rattle.b67_limits.specs.declared.TheConstants.{MOST_LETTERS, MOST_RUN as MOST};
ghost use Rattle.b67_parcel.specs.Parcels.{IsStretch, IsWorked, IsCopied, no_operators};

use crate::copying::{copy_part, take_part};
use crate::{Ahead, Named};
use b67_action::Ran;
use b67_deeds::Letter;
use b67_limits::{MOST_LETTERS, MOST_RUN, MOST_STRETCH};
use b67_load::first_registers;
use b67_machine::{Levels, Machine, decoded, prepare, run_part};
use b67_private::{Prepared, burst};
use b67_segment::Code;
use b67_store::Core;
use b67_table::{Private, Words, first_image_is_valid};
use std::alloc::{AllocError, Global};
use std::marker::{Model, PhantomData};

/// What a processor works on: a part of a process as it was taken, and as operators of the code leave it that no other process has to do with.
#[derive(Drop)]
pub struct Parcel<N: Named> {
    process: u32,
    // How many entries it may have: where none, the part is the private one; else the whole stack.
    room: u32,
    start: Private,
    end: Private,
    // What was performed, and the letters of its entries.
    ran: Ran,
    letters: Vec<Letter>,
    // The operators of the code's segments, as far as it came to them.
    tables: Vec<Levels>,
    run: PhantomData<N>,
}

impl<N: Named> Model for Parcel<N> {
    ghost use Rattle.std.specs.Prelude.{◌≡◌, ◌≤◌, length, take};
    ghost use Rattle.b67_machine.specs.Tables.{AreTables};
    ghost use Rattle.b67_limits.specs.declared.TheConstants.{MOST_LETTERS};
    ghost use Rattle.b67_parcel.specs.Parcels.{Stretch, IsStretch};

    ghost Value = { Stretch };

    ghost view = { λ p. record { process = p.process; room = p.room; start = p.start; end = p.end; ran = p.ran; noted = take p.room p.letters.items } };

    ghost invariant = { λ p.
        IsStretch N.code (record { process = p.process; room = p.room; start = p.start; end = p.end; ran = p.ran; noted = take p.room p.letters.items })
        × AreTables N.code p.tables.items
        × (length p.letters.items ≡ MOST_LETTERS)
        × (p.room ≤ MOST_LETTERS) };
}

// The private part of process 1 before its first operator.
pub fn first_part(alloc: Global) -> Result<Private, AllocError>
    ensures { IfOk result (λ part. (part.regs ≡ first_registers) × (part.words ≡ [])) }
{
    let words = Words::new(alloc)?;
    Ok(Private {
        regs: first_registers(),
        words,
    })
}

// Nothing was performed.
fn no_operators() -> Ran
    ensures { result ≡ no_operators }
{
    Ran {
        entries: 0,
        operators: 0,
        plain: 0,
    }
}

// A run on a copy of a whole stack, with so many entries at most.
fn run_most(
    part: &mut Private,
    code: &Code,
    table: Option<&Prepared>,
    letters: &mut [Letter],
    room: u32,
) -> Ran
    requires full { IsFull part.old }
    requires taken { (img : Image) × (p : ℕ) × IsValid code.now img × (is_able (numbered img.states p) ≡ true) × (whole_part img p ≡ Some part.old) }
    requires table { IfSome table (λ t. AreDecoded code.now part.old.regs.segment part.old.regs.ll t.now) }
    requires room { room ≤ length letters.old }
    ensures runs { (p : ℕ) → RunsTo code.now p MOST part.old result (take room letters.new) part.new }
    ensures full { IsFull part.new }
    ensures keeps { RegistersStay part.old.regs part.new.regs }
    ensures counted { result.entries ≤ result.operators }
    ensures size { length letters.new ≡ length letters.old }
    ensures most { result.operators + result.plain ≤ MOST }
{
    run_part(part, code, table, &mut letters[..room as usize], MOST_RUN)
}

impl<N: Named> Parcel<N> {
    /// The parcel of process 1 before its first operator, with the room for that of any other.
    pub fn new(alloc: Global) -> Result<Parcel<N>, AllocError>
        requires { All (λ segment. length segment.words ≤ MOST_SEGMENT_WORDS) N.code.segments }
    {
        first_image_is_valid();
        let start = first_part(alloc)?;
        let end = first_part(alloc)?;
        let letters = vec![in alloc; Letter::Read; MOST_LETTERS]?;
        Ok(Parcel {
            process: 1,
            room: 0,
            start,
            end,
            ran: no_operators(),
            letters,
            tables: Vec::new(alloc),
            run: PhantomData,
        })
    }

    /// A part of a process that is able goes into the parcel, which may have so many entries: the private part where it may have none, else the
    /// whole stack.
    pub fn fill<C: Core>(&mut self, machine: &Machine<C>, process: u32, room: u32)
        requires code { machine.now.code ≡ N.code }
        requires valid { IsValid N.code machine.now.image }
        requires able { is_able (numbered machine.now.image.states process) ≡ true }
        requires room { room ≤ MOST_LETTERS }
        ensures process { self.new.process ≡ process }
        ensures room { self.new.room ≡ room }
        ensures copied { IsCopied machine.now.image self.new }
    {
        take_part(machine, process, room, &mut self.start);
        copy_part(&self.start, &mut self.end);
        self.process = process;
        self.room = room;
        self.ran = no_operators();
    }

    /// The parcel begins with a process that was taken ahead, and with the part of it as it was taken.
    pub fn begin(&mut self, ahead: &mut Ahead<N>)
        requires there { ahead.old.is_there ≡ true }
        ensures process { (self.new.process ≡ ahead.old.process) × (self.new.room ≡ ahead.old.room) }
        ensures start { (self.new.start ≡ ahead.old.part) × (self.new.end ≡ ahead.old.part) × (self.new.ran ≡ no_operators) }
        ensures begun { ahead.new ≡ record ahead.old { is_there = false } }
    {
        copy_part(ahead.part(), &mut self.start);
        copy_part(&self.start, &mut self.end);
        self.process = ahead.process();
        self.room = ahead.room();
        self.ran = no_operators();
        ahead.clear();
    }

    // Performs the plain operators that come next at the end of the private part, so that there are at most as many of them as a stretch has.
    fn stretch(&mut self, code: &Code)
        requires code { code.now ≡ N.code }
        requires room { self.old.room ≡ 0 }
        ensures worked { IsWorked N.code self.new }
        ensures process { (self.new.process ≡ self.old.process) × (self.new.room ≡ self.old.room) }
        ensures start { self.new.start ≡ self.old.start }
    {
        let table = decoded(&self.tables, self.end.regs.segment, self.end.regs.ll);
        let most = MOST_STRETCH as u32 - self.ran.plain;
        self.ran.plain += burst(&mut self.end, code, table, most);
    }

    // Performs what comes next in the process on its own stack, from the start on.
    fn run(&mut self, code: &Code)
        requires code { code.now ≡ N.code }
        requires room { 1 ≤ self.old.room }
        ensures worked { IsWorked N.code self.new }
        ensures process { (self.new.process ≡ self.old.process) × (self.new.room ≡ self.old.room) }
        ensures start { self.new.start ≡ self.old.start }
    {
        copy_part(&self.start, &mut self.end);
        let table = decoded(&self.tables, self.end.regs.segment, self.end.regs.ll);
        self.ran = run_most(&mut self.end, code, table, &mut self.letters, self.room);
    }

    /// Performs operators of the code that come next, and answers how many were performed. On a private part these are plain operators, at most
    /// [`MOST_STRETCH`](b67_limits::MOST_STRETCH) of them. On a whole stack they are plain ones and actions that go on and read and write this
    /// stack only, at most as many of these as the parcel may have entries, and at most [`MOST_RUN`](b67_limits::MOST_RUN) in all. Takes no memory that
    /// it needs.
    pub fn work(&mut self, code: &Code) -> u32
        requires { code.now ≡ N.code }
        ensures worked { IsWorked N.code self.new }
        ensures count { result ≡ self.new.ran.operators + self.new.ran.plain }
        ensures process { (self.new.process ≡ self.old.process) × (self.new.room ≡ self.old.room) }
        ensures start { self.new.start ≡ self.old.start }
    {
        prepare(
            &mut self.tables,
            code,
            self.start.regs.segment,
            self.start.regs.ll,
        );
        if self.room == 0 {
            self.stretch(code);
        } else {
            self.run(code);
        }
        self.count()
    }

    /// The process that was taken.
    pub fn process(&self) -> u32
        ensures { result ≡ self.now.process }
    {
        self.process
    }

    /// How many entries the parcel may have.
    pub fn room(&self) -> u32
        ensures { result ≡ self.now.room }
    {
        self.room
    }

    /// How many operators were performed.
    pub fn count(&self) -> u32
        ensures { result ≡ self.now.ran.operators + self.now.ran.plain }
    {
        self.ran.operators + self.ran.plain
    }

    /// What was performed.
    pub fn ran(&self) -> Ran
        ensures { result ≡ self.now.ran }
    {
        self.ran
    }

    /// The letters of as many entries as the parcel may have, those of the entries that were performed first.
    pub fn letters(&self) -> &[Letter]
        ensures { result.now ≡ self.now.noted }
    {
        &self.letters[..self.room as usize]
    }

    /// The part as it was taken.
    pub fn start(&self) -> &Private
        ensures value { result.now ≡ self.now.start }
        ensures kept { IsStretch N.code self.now }
    {
        &self.start
    }

    /// The part after the operators that were performed.
    pub fn end(&self) -> &Private
        ensures value { result.now ≡ self.now.end }
        ensures kept { IsStretch N.code self.now }
    {
        &self.end
    }
}

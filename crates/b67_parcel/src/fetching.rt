// What a processor takes ahead: a process, of which a part stands apart until a parcel begins with it.
ghost use Rattle.std.specs.Prelude.{◌≡◌, ◌≤◌, All, IfOk, Some, true, false, length};
ghost use Rattle.b67_list.specs.Numbered.{numbered};
ghost use Rattle.b67_segment.specs.declared.TheConstants.{MOST_SEGMENT_WORDS};
ghost use Rattle.b67_table.specs.Image.{is_able};
ghost use Rattle.b67_table.specs.Valid.{IsValid};
ghost use Rattle.b67_limits.specs.declared.TheConstants.{MOST_LETTERS};
ghost use Rattle.b67_parcel.specs.Parcels.{part_for, IsFetched};

use crate::Named;
use crate::copying::take_part;
use crate::working::first_part;
use b67_machine::Machine;
use b67_store::Core;
use b67_table::{Private, first_image_is_valid};
use std::alloc::{AllocError, Global};
use std::marker::{Model, PhantomData};

/// Room for a process that is taken before its parcel is made: the part of it that the parcel is to have, as it was taken.
#[derive(Drop)]
pub struct Ahead<N: Named> {
    is_there: bool,
    process: u32,
    room: u32,
    part: Private,
    run: PhantomData<N>,
}

impl<N: Named> Model for Ahead<N> {
    ghost use Rattle.std.specs.Prelude.{◌≤◌};
    ghost use Rattle.b67_limits.specs.declared.TheConstants.{MOST_LETTERS};
    ghost use Rattle.b67_parcel.specs.Parcels.{Fetched, IsFetched};

    ghost Value = { Fetched };

    ghost view = { λ a. record { is_there = a.is_there; process = a.process; room = a.room; part = a.part } };

    ghost invariant = { λ a.
        IsFetched N.code (record { is_there = a.is_there; process = a.process; room = a.room; part = a.part })
        × (a.room ≤ MOST_LETTERS) };
}

impl<N: Named> Ahead<N> {
    /// Nobody was taken, and there is room for the part of any process.
    pub fn new(alloc: Global) -> Result<Ahead<N>, AllocError>
        requires { All (λ segment. length segment.words ≤ MOST_SEGMENT_WORDS) N.code.segments }
        ensures { IfOk result (λ ahead. ahead.is_there ≡ false) }
    {
        first_image_is_valid();
        let part = first_part(alloc)?;
        Ok(Ahead {
            is_there: false,
            process: 1,
            room: 0,
            part,
            run: PhantomData,
        })
    }

    /// Tests that a process was taken, and that no parcel has begun with it.
    pub fn is_there(&self) -> bool
        ensures { result ≡ self.now.is_there }
    {
        self.is_there
    }

    /// A process that is able is taken: the part of it is copied that a parcel has which may have so many entries.
    pub fn fetch<C: Core>(&mut self, machine: &Machine<C>, process: u32, room: u32)
        requires code { machine.now.code ≡ N.code }
        requires valid { IsValid N.code machine.now.image }
        requires able { is_able (numbered machine.now.image.states process) ≡ true }
        requires room { room ≤ MOST_LETTERS }
        ensures there { self.new.is_there ≡ true }
        ensures process { self.new.process ≡ process }
        ensures room { self.new.room ≡ room }
        ensures part { part_for room machine.now.image process ≡ Some self.new.part }
    {
        take_part(machine, process, room, &mut self.part);
        self.process = process;
        self.room = room;
        self.is_there = true;
    }

    // The process.
    pub fn process(&self) -> u32
        ensures { result ≡ self.now.process }
    {
        self.process
    }

    // How many entries its parcel may have.
    pub fn room(&self) -> u32
        ensures value { result ≡ self.now.room }
        ensures most { result ≤ MOST_LETTERS }
    {
        self.room
    }

    // The part of it as it was taken.
    pub fn part(&self) -> &Private
        ensures value { result.now ≡ self.now.part }
        ensures kept { IsFetched N.code self.now }
    {
        &self.part
    }

    // A parcel has begun with the process.
    pub fn clear(&mut self)
        ensures { self.new ≡ record self.old { is_there = false } }
    {
        self.is_there = false;
    }
}

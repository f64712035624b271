//! The control words of the machine, packed and unpacked, and the registers of a process.
//!
//! The kinds of word, their tags and what they are for are the B6700's (Organick 1973). The places of their
//! fields in the word are this project's profile: `specs/Control.antt` has the table.
#![tactic(auto)]

ghost use Rattle.std.specs.Prelude.{◌≡◌, ◌<◌, length, slice_set, SomeIff, IfSome};
ghost use Rattle.b67_control.specs.Control.{Fits_irw, irw_word, as_irw, Fits_sirw, sirw_word, as_sirw, Fits_mscw, mscw_word, as_mscw, Fits_rcw, rcw_word, as_rcw, Fits_segment, segment_word, as_segment, Fits_event, event_word, as_event, Fits_descriptor, descriptor_word, as_descriptor, Fits_pcw, pcw_word, as_pcw};
ghost use Rattle.b67_control.specs.Display.{levels, no_places, place_at};
ghost use Rattle.b67_control.specs.Kind as kind;
ghost use Rattle.b67_control.specs.Laws.{ReadsBack, OperandsAreApart};
ghost use Rattle.b67_word.specs.Word.{word, field};

use b67_word::{Place, Word, make_word};
use std::marker::Model;

/// An indirect reference word: a couple, read in the display.
#[derive(Clone, Copy)]
pub struct Irw {
    /// The level of the block, 5 bits.
    pub level: u8,
    /// The index of the cell in its frame, 14 bits.
    pub index: u16,
}

/// A stuffed indirect reference word: a cell of a frame, wherever it is read.
#[derive(Clone, Copy, PartialEq, Eq)]
pub struct Sirw {
    /// The number of the stack, 10 bits.
    pub stack: u16,
    /// The displacement of the frame's MSCW, 16 bits.
    pub displacement: u16,
    /// The index of the cell in that frame, 14 bits.
    pub index: u16,
}

/// A mark stack control word: the bottom of a frame.
#[derive(Clone, Copy)]
pub struct Mscw {
    /// Whether the frame was entered.
    pub entered: bool,
    /// The stack of the static link, 10 bits.
    pub stack: u16,
    /// The displacement of the static link, 16 bits.
    pub displacement: u16,
    /// The distance to the MSCW below, 16 bits, and 0 in the base frame.
    pub df: u16,
}

/// A return control word: where the caller of a frame goes on.
#[derive(Clone, Copy)]
pub struct Rcw {
    /// The caller's segment, 10 bits.
    pub segment: u16,
    /// The syllable in a word of code, from 0 to 5.
    pub psr: u8,
    /// The word of code, 13 bits. The place in the segment is 6 * PIR + PSR.
    pub pir: u16,
    /// The caller's level, 5 bits.
    pub caller_level: u8,
    /// The caller's cells, 9 bits.
    pub caller_cells: u16,
    /// The level of this frame, 5 bits.
    pub own_level: u8,
}

/// A segment descriptor: a segment of code.
#[derive(Clone, Copy)]
pub struct SegmentWord {
    /// The number of the segment, 10 bits.
    pub segment: u16,
    /// Its length in words, 14 bits.
    pub length: u16,
}

/// An event word: it marks the place of an event.
#[derive(Clone, Copy)]
pub struct EventWord;

/// A data descriptor: a row of an array, or one element of it.
#[derive(Clone, Copy)]
pub struct Descriptor {
    /// Whether the row is there.
    pub presence: bool,
    /// Whether this is a copy of the array's own descriptor.
    pub copy: bool,
    /// Whether it names one element.
    pub indexed: bool,
    /// Whether the row holds descriptors.
    pub mother: bool,
    /// The length of the row, or the index where it is indexed, 22 bits.
    pub length: u32,
    /// The number of the row, 22 bits.
    pub address: u32,
}

/// A program control word: a procedure, a name parameter's code, or an intrinsic.
#[derive(Clone, Copy)]
pub struct Pcw {
    /// Whether it is an intrinsic.
    pub intrinsic: bool,
    /// Whether its code can leave a reference, so that the name parameter may be stored to.
    pub names: bool,
    /// The segment, 10 bits.
    pub segment: u16,
    /// The syllable in a word of code, from 0 to 5.
    pub psr: u8,
    /// The word of code, 13 bits. The place in the segment is 6 * PIR + PSR.
    pub pir: u16,
    /// The level at which its frame runs, 5 bits.
    pub level: u8,
    /// The number of the intrinsic, 15 bits.
    pub number: u16,
}

// The word of a tag whose bits are all 0.
fn blank(tag: u8) -> Word
    requires { tag < 8 }
    ensures { result ≡ word tag 0 }
{
    make_word(tag, 0).unwrap()
}

// The PSR of an RCW or a PCW. None comes exactly where it is above 5.
fn syllable(word: Word) -> Option<u8>
    ensures { SomeIff result (field 35 3 word.bits < 6) (field 35 3 word.bits) }
{
    let psr = word.field(35, 3) as u8;
    if psr > 5 { None } else { Some(psr) }
}

impl Irw {
    /// The word that holds these fields. The condition is that they fit.
    pub fn pack(&self) -> Word
        requires { Fits_irw self.now }
        ensures { result ≡ irw_word self.now }
    {
        blank(1)
            .with_field(18, 5, u64::from(self.level))
            .with_field(13, 14, u64::from(self.index))
    }

    /// What an IRW holds. None comes exactly where the word is none.
    #[tactic(auto, unfolding(crate::specs::Control::as_irw))]
    pub fn unpack(word: Word) -> Option<Self>
        ensures value { result ≡ as_irw word }
        ensures fits { IfSome result Fits_irw }
    {
        if word.tag() != 1 {
            return None;
        }
        if word.field(47, 1) != 0 {
            return None;
        }
        if word.field(46, 28) != 0 {
            return None;
        }
        Some(Irw {
            level: word.field(18, 5) as u8,
            index: word.field(13, 14) as u16,
        })
    }
}

impl Sirw {
    /// The word that holds these fields. The condition is that they fit.
    pub fn pack(&self) -> Word
        requires { Fits_sirw self.now }
        ensures { result ≡ sirw_word self.now }
    {
        blank(1)
            .with_field(47, 1, 1)
            .with_field(46, 10, u64::from(self.stack))
            .with_field(36, 16, u64::from(self.displacement))
            .with_field(13, 14, u64::from(self.index))
    }

    /// What a SIRW holds. None comes exactly where the word is none.
    #[tactic(auto, unfolding(crate::specs::Control::as_sirw))]
    pub fn unpack(word: Word) -> Option<Self>
        ensures value { result ≡ as_sirw word }
        ensures fits { IfSome result Fits_sirw }
    {
        if word.tag() != 1 {
            return None;
        }
        if word.field(47, 1) != 1 {
            return None;
        }
        if word.field(20, 7) != 0 {
            return None;
        }
        Some(Sirw {
            stack: word.field(46, 10) as u16,
            displacement: word.field(36, 16) as u16,
            index: word.field(13, 14) as u16,
        })
    }
}

impl Mscw {
    /// The word that holds these fields. The condition is that they fit.
    pub fn pack(&self) -> Word
        requires { Fits_mscw self.now }
        ensures { result ≡ mscw_word self.now }
    {
        blank(3)
            .with_field(45, 1, u64::from(self.entered))
            .with_field(44, 10, u64::from(self.stack))
            .with_field(34, 16, u64::from(self.displacement))
            .with_field(18, 16, u64::from(self.df))
    }

    /// What an MSCW holds. None comes exactly where the word is none.
    #[tactic(auto, unfolding(crate::specs::Control::as_mscw))]
    pub fn unpack(word: Word) -> Option<Self>
        ensures value { result ≡ as_mscw word }
        ensures fits { IfSome result Fits_mscw }
    {
        if word.tag() != 3 {
            return None;
        }
        if word.field(47, 2) != 0 {
            return None;
        }
        if word.field(2, 3) != 0 {
            return None;
        }
        Some(Mscw {
            entered: word.field(45, 1) == 1,
            stack: word.field(44, 10) as u16,
            displacement: word.field(34, 16) as u16,
            df: word.field(18, 16) as u16,
        })
    }
}

impl Rcw {
    /// The word that holds these fields. The condition is that they fit.
    pub fn pack(&self) -> Word
        requires { Fits_rcw self.now }
        ensures { result ≡ rcw_word self.now }
    {
        blank(3)
            .with_field(47, 2, 1)
            .with_field(45, 10, u64::from(self.segment))
            .with_field(35, 3, u64::from(self.psr))
            .with_field(32, 13, u64::from(self.pir))
            .with_field(19, 5, u64::from(self.caller_level))
            .with_field(14, 9, u64::from(self.caller_cells))
            .with_field(5, 5, u64::from(self.own_level))
    }

    /// What an RCW holds. None comes exactly where the word is none.
    #[tactic(auto, unfolding(crate::specs::Control::as_rcw))]
    pub fn unpack(word: Word) -> Option<Self>
        ensures value { result ≡ as_rcw word }
        ensures fits { IfSome result Fits_rcw }
    {
        if word.tag() != 3 {
            return None;
        }
        if word.field(47, 2) != 1 {
            return None;
        }
        let psr = syllable(word)?;
        if word.field(0, 1) != 0 {
            return None;
        }
        Some(Rcw {
            segment: word.field(45, 10) as u16,
            psr,
            pir: word.field(32, 13) as u16,
            caller_level: word.field(19, 5) as u8,
            caller_cells: word.field(14, 9) as u16,
            own_level: word.field(5, 5) as u8,
        })
    }
}

impl SegmentWord {
    /// The word that holds these fields. The condition is that they fit.
    pub fn pack(&self) -> Word
        requires { Fits_segment self.now }
        ensures { result ≡ segment_word self.now }
    {
        blank(3)
            .with_field(47, 2, 2)
            .with_field(45, 10, u64::from(self.segment))
            .with_field(13, 14, u64::from(self.length))
    }

    /// What a segment descriptor holds. None comes exactly where the word is none.
    #[tactic(auto, unfolding(crate::specs::Control::as_segment))]
    pub fn unpack(word: Word) -> Option<Self>
        ensures value { result ≡ as_segment word }
        ensures fits { IfSome result Fits_segment }
    {
        if word.tag() != 3 {
            return None;
        }
        if word.field(47, 2) != 2 {
            return None;
        }
        if word.field(35, 22) != 0 {
            return None;
        }
        Some(SegmentWord {
            segment: word.field(45, 10) as u16,
            length: word.field(13, 14) as u16,
        })
    }
}

impl EventWord {
    /// The word that holds these fields. The condition is that they fit.
    pub fn pack(&self) -> Word
        requires { Fits_event self.now }
        ensures { result ≡ event_word self.now }
    {
        blank(3).with_field(47, 2, 3)
    }

    /// What an event word holds. None comes exactly where the word is none.
    #[tactic(auto, unfolding(crate::specs::Control::as_event))]
    pub fn unpack(word: Word) -> Option<Self>
        ensures { result ≡ as_event word }
    {
        if word.tag() != 3 {
            return None;
        }
        if word.field(47, 2) != 3 {
            return None;
        }
        if word.field(45, 46) != 0 {
            return None;
        }
        Some(EventWord)
    }
}

impl Descriptor {
    /// The word that holds these fields. The condition is that they fit.
    pub fn pack(&self) -> Word
        requires { Fits_descriptor self.now }
        ensures { result ≡ descriptor_word self.now }
    {
        blank(5)
            .with_field(47, 1, u64::from(self.presence))
            .with_field(46, 1, u64::from(self.copy))
            .with_field(45, 1, u64::from(self.indexed))
            .with_field(44, 1, u64::from(self.mother))
            .with_field(43, 22, u64::from(self.length))
            .with_field(21, 22, u64::from(self.address))
    }

    /// What a data descriptor holds. None comes exactly where the word is none.
    #[tactic(auto, unfolding(crate::specs::Control::as_descriptor))]
    pub fn unpack(word: Word) -> Option<Self>
        ensures value { result ≡ as_descriptor word }
        ensures fits { IfSome result Fits_descriptor }
    {
        if word.tag() != 5 {
            return None;
        }
        Some(Descriptor {
            presence: word.field(47, 1) == 1,
            copy: word.field(46, 1) == 1,
            indexed: word.field(45, 1) == 1,
            mother: word.field(44, 1) == 1,
            length: word.field(43, 22) as u32,
            address: word.field(21, 22) as u32,
        })
    }
}

impl Pcw {
    /// The word that holds these fields. The condition is that they fit.
    pub fn pack(&self) -> Word
        requires { Fits_pcw self.now }
        ensures { result ≡ pcw_word self.now }
    {
        blank(7)
            .with_field(47, 1, u64::from(self.intrinsic))
            .with_field(46, 1, u64::from(self.names))
            .with_field(45, 10, u64::from(self.segment))
            .with_field(35, 3, u64::from(self.psr))
            .with_field(32, 13, u64::from(self.pir))
            .with_field(19, 5, u64::from(self.level))
            .with_field(14, 15, u64::from(self.number))
    }

    /// What a PCW holds. None comes exactly where the word is none.
    #[tactic(auto, unfolding(crate::specs::Control::as_pcw))]
    pub fn unpack(word: Word) -> Option<Self>
        ensures value { result ≡ as_pcw word }
        ensures fits { IfSome result Fits_pcw }
    {
        if word.tag() != 7 {
            return None;
        }
        let psr = syllable(word)?;
        Some(Pcw {
            intrinsic: word.field(47, 1) == 1,
            names: word.field(46, 1) == 1,
            segment: word.field(45, 10) as u16,
            psr,
            pir: word.field(32, 13) as u16,
            level: word.field(19, 5) as u8,
            number: word.field(14, 15) as u16,
        })
    }
}

/// For each level from 0 to 31 the place of the frame that runs at that level, where there is one.
#[derive(Clone, Copy)]
pub struct Display {
    places: [Option<Place>; 32],
}

impl Model for Display {
    ghost use Rattle.std.specs.Prelude.{◌≡◌, List, Option, length};
    ghost use Rattle.b67_word.specs.declared.Place.{Place};

    ghost Value = { List (Option Place) };

    ghost view = { λ d. d.places };

    ghost inverse = { λ places. record { places = places } };
}

impl Display {
    /// A display that names nothing.
    pub fn new() -> Self
        ensures { result ≡ no_places }
    {
        Display { places: [None; 32] }
    }

    /// The place at a level.
    pub fn get(&self, level: u8) -> Option<Place>
        requires { level < levels }
        ensures value { result ≡ place_at self.now level }
        ensures len { length self.now ≡ levels }
    {
        self.places[usize::from(level)]
    }

    /// Names a place at a level, or none.
    pub fn set(&mut self, level: u8, place: Option<Place>)
        requires { level < levels }
        ensures value { self.new ≡ slice_set self.old level place }
        ensures len { length self.new ≡ levels }
    {
        self.places[usize::from(level)] = place;
    }
}

/// The registers of a process.
#[derive(Clone, Copy)]
pub struct Registers {
    /// The number of its stack.
    pub stack: u16,
    /// S: the length of its stack.
    pub s: u32,
    /// F: the displacement of its newest MSCW.
    pub f: u16,
    /// LL: the level at which it runs.
    pub ll: u8,
    /// D: the frames that its addresses see.
    pub display: Display,
    /// How many cells its frame has.
    pub cells: u16,
    /// The segment of its next operator.
    pub segment: u16,
    /// The place of its next operator in that segment.
    pub place: u16,
    /// Its task, where it has one.
    pub task: Option<Place>,
    /// The frame of its critical instance, where it has one.
    pub critical: Option<Place>,
}

/// Law: each kind of control word is read back as what was packed, is read from that word only, and no word
/// is of two kinds.
pub fn control_words_are_read_back()
    ensures irw { ReadsBack kind.irw Fits_irw irw_word as_irw }
    ensures sirw { ReadsBack kind.sirw Fits_sirw sirw_word as_sirw }
    ensures mscw { ReadsBack kind.mscw Fits_mscw mscw_word as_mscw }
    ensures rcw { ReadsBack kind.rcw Fits_rcw rcw_word as_rcw }
    ensures segment { ReadsBack kind.segment Fits_segment segment_word as_segment }
    ensures event { ReadsBack kind.event Fits_event event_word as_event }
    ensures descriptor { ReadsBack kind.descriptor Fits_descriptor descriptor_word as_descriptor }
    ensures pcw { ReadsBack kind.pcw Fits_pcw pcw_word as_pcw }
    ensures operands { OperandsAreApart }
{}

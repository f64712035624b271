//! The names that a block makes known.

ghost use Rattle.std.specs.Prelude.{◌≡◌, OnOk, Some};
ghost use Rattle.algol_known.specs.Naming.{IsBare, NamePuts, entry_in, seen_under, has_name};

use algol_sorts::{Key, Sort, found};
use algol_tree::Spot;
use std::alloc::{AllocError, Global};
use std::collections::BTreeMap;

/// What a name is declared as, and of a procedure its number among the headings.
#[derive(Clone, Copy)]
pub struct Class {
    pub sort: Sort,
    pub procedure: usize,
}

/// A declaration: where it stands (of a procedure, the heading with its body), the number and the level of its block, and what
/// it declares.
#[derive(Clone, Copy)]
pub struct Entry {
    pub spot: Spot,
    pub block: usize,
    pub level: u8,
    pub class: Class,
}

/// How much of the innermost block is seen: all, or for a bound what stands before its declarations.
#[derive(Clone, Copy)]
pub enum Seen {
    All,
    BeforeDeclarations,
}

/// The names of the block with this number: that of the typed procedure whose block it is, its parameters, and what its
/// declarations declare. Of two declarations of a name the later counts.
#[derive(Drop)]
pub struct Names<'p> {
    pub block: usize,
    pub typed: Option<&'p [u8]>,
    pub parameters: BTreeMap<Key<'p>, Entry>,
    pub declared: BTreeMap<Key<'p>, Entry>,
}

impl<'p> Names<'p> {
    pub fn new(alloc: Global, block: usize, typed: Option<&'p [u8]>) -> Names<'p>
        ensures parameters { IsBare result.parameters }
        ensures declared { IsBare result.declared }
        ensures block { result.block ≡ block }
        ensures typed { result.typed ≡ typed.entry }
    {
        Names {
            block,
            typed,
            parameters: BTreeMap::new(alloc),
            declared: BTreeMap::new(alloc),
        }
    }

    /// A declaration of the name.
    pub fn declare(&mut self, name: &'p [u8], entry: Entry) -> Result<(), AllocError>
        ensures puts { OnOk result (NamePuts self.old.declared self.new.declared name.now entry) }
        ensures parameters { self.new.parameters ≡ self.old.parameters }
        ensures block { self.new.block ≡ self.old.block }
        ensures typed { self.new.typed ≡ self.old.typed }
    {
        self.declared.insert(Key::of(name), entry)?;
        Ok(())
    }

    /// A parameter of the name.
    pub fn declare_parameter(&mut self, name: &'p [u8], entry: Entry) -> Result<(), AllocError>
        ensures puts { OnOk result (NamePuts self.old.parameters self.new.parameters name.now entry) }
        ensures declared { self.new.declared ≡ self.old.declared }
        ensures block { self.new.block ≡ self.old.block }
        ensures typed { self.new.typed ≡ self.old.typed }
    {
        self.parameters.insert(Key::of(name), entry)?;
        Ok(())
    }

    /// The parameter of that name.
    pub fn parameter(&self, name: &'p [u8]) -> Option<Entry>
        ensures { result ≡ entry_in self.now.parameters name.now }
    {
        found(&self.parameters, name).copied()
    }

    /// The declaration of that name, also as a parameter, that the block has.
    pub fn here(&self, name: &'p [u8], seen: Seen) -> Option<Entry>
        ensures { result ≡ seen_under self.now.declared self.now.parameters seen name.now }
    {
        match seen {
            Seen::BeforeDeclarations => self.parameter(name),
            Seen::All => match found(&self.declared, name) {
                Some(entry) => Some(*entry),
                None => self.parameter(name),
            },
        }
    }

    /// Whether the block has the name: as a declaration, or as its result.
    pub fn has(&self, name: &'p [u8]) -> bool
        ensures { result ≡ has_name self.now.typed self.now.declared self.now.parameters name.now }
    {
        match self.typed {
            Some(typed) if typed == name => true,
            _ => self.here(name, Seen::All).is_some(),
        }
    }
}

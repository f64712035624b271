//! What the heading of a procedure says of its parameters.

ghost use Rattle.std.specs.Prelude.{◌≡◌, ℕ, List, OnOk, IfOk, if◌then◌else◌};
ghost use Rattle.algol_tree.specs.Sorts.{specified_by};
ghost use Rattle.algol_sorts.specs.Specified.{AreNamed, SaysAll, Specifies, sort_under, specified_as, told_sort};

use crate::key::{Key, found};
use crate::sort::Sort;
use algol_rules::names_of;
use algol_tree::{Heading, Named, Spec};
use std::alloc::{AllocError, Global};
use std::collections::BTreeMap;

/// Sorts by names.
type Sorts<'p> = BTreeMap<Key<'p>, Sort>;

/// What the parameters of a heading are declared as, by their names: what the specifications say, and which names are in VALUE.
#[derive(Drop)]
pub struct Specified<'p> {
    sorts: Sorts<'p>,
    values: Sorts<'p>,
}

/// What a specification says of a parameter that is not by value.
fn specified_as(spec: &Spec) -> Sort
    ensures { result ≡ specified_as spec.now }
{
    match spec {
        Spec::Simple(kind, _) => Sort::ByName(*kind),
        Spec::Events(_) => Sort::FormalEvent,
        Spec::Arrays(kind, _, lows) => Sort::FormalArray(*kind, lows.items().len()),
    }
}

/// What a specification says of its names goes before what stands in the table.
fn specify<'p>(table: &mut Sorts<'p>, spec: &'p Spec) -> Result<(), AllocError>
    ensures { OnOk result ((name : List ℕ) → sort_under table.new name ≡ (if specified_by spec.now name then specified_as spec.now else sort_under table.old name)) }
{
    'names: for named in names_of(spec) {
        table.insert(Key::of(named.name.bytes()), specified_as(spec))?;
    }
    Ok(())
}

/// What the specifications say, where the first that speaks of a name counts.
fn specifications<'p>(alloc: Global, specs: &'p [Spec]) -> Result<Sorts<'p>, AllocError>
    ensures { IfOk result (λ table. Specifies table specs.now) }
{
    let mut table: Sorts<'p> = BTreeMap::new(alloc);
    'specs: for at in (0..specs.len()).rev() {
        specify(&mut table, &specs[at])?;
    }
    Ok(table)
}

/// A table of these names.
fn names_in<'p>(alloc: Global, names: &'p [Named]) -> Result<Sorts<'p>, AllocError>
    ensures { IfOk result (λ table. AreNamed table names.now) }
{
    let mut table: Sorts<'p> = BTreeMap::new(alloc);
    'names: for named in names {
        table.insert(Key::of(named.name.bytes()), Sort::Unspecified)?;
    }
    Ok(table)
}

impl<'p> Specified<'p> {
    /// What a heading says.
    pub fn of(alloc: Global, heading: &'p Heading) -> Result<Specified<'p>, AllocError>
        ensures { IfOk result (λ specified. SaysAll specified heading.now) }
    {
        let sorts = specifications(alloc, heading.specs.items().as_slice())?;
        let values = names_in(alloc, heading.values.items().as_slice())?;
        Ok(Specified { sorts, values })
    }

    /// What the specifications say of the name.
    fn said(&self, name: &'p [u8]) -> Sort
        ensures { result ≡ sort_under self.now.sorts name.now }
    {
        match found(&self.sorts, name) {
            None => Sort::Unspecified,
            Some(sort) => *sort,
        }
    }

    /// What the parameter of that name is declared as.
    pub fn sort(&self, name: &'p [u8]) -> Sort
        ensures { result ≡ told_sort self.now name.now }
    {
        let said = self.said(name);
        if found(&self.values, name).is_some() {
            said.by_value()
        } else {
            said
        }
    }
}

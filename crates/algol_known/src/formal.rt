//! Parameters, as a call sees them.

ghost use Rattle.std.specs.Prelude.{◌≡◌, ℕ, List, false, is_some, map, None, IfOk, OnOk};
ghost use Rattle.std.specs.Str.{bytes_eq};
ghost use Rattle.algol_tree.specs.Sorts.{is_named_in, formals_of};
ghost use Rattle.algol_sorts.specs.Specified.{SaysAll};
ghost use Rattle.algol_known.specs.Naming.{sort_named};
ghost use Rattle.algol_known.specs.Passing.{kept, said};
ghost use Rattle.algol_known.specs.Seeing.{mode_of};

use algol_sorts::{Key, Sort, Specified, found};
use algol_tree::{Heading, Named};
use std::alloc::{AllocError, Global};
use std::collections::BTreeMap;

/// A table of names, with what is said of each.
pub type Said<'p> = BTreeMap<Key<'p>, bool>;

/// The name has this, unless something is said of it before. Answers whether something is.
pub fn say<'p>(table: &mut Said<'p>, name: &'p [u8], value: bool) -> Result<bool, AllocError>
    ensures said { OnOk result ((q : List ℕ) → sort_named table.new q ≡ kept (sort_named table.old q) (bytes_eq name.now q) value) }
    ensures before { IfOk result (λ before. before ≡ is_some (sort_named table.old name.now)) }
{
    let key = Key::of(name);
    match table.insert(key, value)? {
        None => Ok(false),
        Some(before) => {
            table.insert(key, before)?;
            Ok(true)
        }
    }
}

/// The same of each name of a list.
pub fn say_all<'p>(table: &mut Said<'p>, names: &'p [Named], value: bool) -> Result<(), AllocError>
    ensures { OnOk result ((q : List ℕ) → sort_named table.new q ≡ kept (sort_named table.old q) (is_named_in names.now q) value) }
{
    'names: for n in names {
        say(table, n.name.bytes(), value)?;
    }
    Ok(())
}

/// A table of these names.
pub fn named_in<'p>(alloc: Global, names: &'p [Named]) -> Result<Said<'p>, AllocError>
    ensures { IfOk result (λ table. (q : List ℕ) → said (sort_named table q) false ≡ is_named_in names.now q) }
{
    let mut table = BTreeMap::new(alloc);
    say_all(&mut table, names, true)?;
    Ok(table)
}

/// No names.
pub fn no_names<'p>(alloc: Global) -> Said<'p>
    ensures { (q : List ℕ) → sort_named result q ≡ None }
{
    BTreeMap::new(alloc)
}

/// What is said of the name, `false` where nothing is.
pub fn is_said<'p>(table: &Said<'p>, name: &'p [u8]) -> bool
    ensures { result ≡ said (sort_named table.now name.now) false }
{
    match found(table, name) {
        None => false,
        Some(value) => *value,
    }
}

/// What the parameters of a heading are declared as, in their order.
pub fn modes(alloc: Global, heading: &Heading) -> Result<Vec<Sort>, AllocError>
    ensures { IfOk result (λ found. found.items ≡ map mode_of (formals_of heading.now)) }
{
    let specified = Specified::of(alloc, heading)?;
    modes_by(alloc, heading, &specified)
}

/// The same, by what is said of their names.
fn modes_by<'p>(
    alloc: Global,
    heading: &'p Heading,
    specified: &Specified<'p>,
) -> Result<Vec<Sort>, AllocError>
    requires { SaysAll specified.now heading.now }
    ensures { IfOk result (λ found. found.items ≡ map mode_of (formals_of heading.now)) }
{
    let mut found = Vec::new(alloc);
    'params: for n in heading.params.items() {
        found.push(specified.sort(n.name.bytes()))?;
    }
    Ok(found)
}

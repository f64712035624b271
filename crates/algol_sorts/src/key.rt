//! Names as keys of tables.

ghost use Rattle.std.specs.Prelude.{◌≡◌, option_copied};
ghost use Rattle.algol_sorts.specs.Tables.{end_of, sort_named};

use std::collections::BTreeMap;

/// A name as a key of tables: the last eight of its bytes as one number, by which most names differ, and its bytes.
#[derive(Clone, Copy, PartialEq, Eq, PartialOrd, Ord)]
pub struct Key<'p> {
    pub end: u64,
    pub bytes: &'p [u8],
}

/// The last eight bytes of a name as one number.
fn end_of(name: &[u8]) -> u64
    ensures { result ≡ end_of name.now }
{
    let mut end: u64 = 0;
    'bytes: for byte in name {
        end = end.wrapping_mul(256).wrapping_add(u64::from(*byte));
    }
    end
}

impl<'p> Key<'p> {
    /// The key of the name.
    pub fn of(name: &'p [u8]) -> Key<'p>
        ensures { result ≡ record { end = end_of name.now; bytes = name.entry } }
    {
        Key {
            end: end_of(name),
            bytes: name,
        }
    }
}

/// What a table has under a name.
pub fn found<'a, 'p, X>(table: &'a BTreeMap<Key<'p>, X>, name: &'p [u8]) -> Option<&'a X>
    ensures { option_copied result ≡ sort_named table.now name.now }
{
    table.get(&Key::of(name))
}

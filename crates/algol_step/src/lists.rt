//! Lists, as they are read.

ghost use Rattle.std.specs.Prelude.{◌≡◌, length, nat_lt};

use algol_tree::List;

/// Tests that a list has items.
pub fn has_items<T>(list: &List<T>) -> bool
    ensures { result ≡ nat_lt 0 (length list.now) }
{
    list.items().len() > 0
}

/// A slice, out of what holds it. It is generic because the items may hold references of their own.
pub fn held<'a, T>(slice: &&'a [T]) -> &'a [T]
    ensures { result.now ≡ slice.now.now }
{
    *slice
}

//! Lists, as they are read and copied.

ghost use Rattle.std.specs.Prelude.{◌≡◌, [], ◌∷◌, slice_get, IfOk};
ghost use Rattle.algol_cells.specs.SeenStack.{Popped};
ghost use Rattle.algol_cells.specs.Shown.{shown_cell};

use algol_tree::List;
use std::alloc::{AllocError, Global};

/// The item at that place.
pub fn item<T>(list: &List<T>, place: usize) -> Option<&T>
    ensures { shown_cell result ≡ slice_get list.now place }
{
    list.items().get(place)
}

/// A list without items.
pub fn no_items<T>(alloc: Global) -> List<T>
    ensures { result ≡ [] }
{
    List::of(Vec::new(alloc))
}

/// The first item, out of its list.
pub fn take_first(list: &mut List<usize>) -> Option<usize>
    ensures { Popped result list.old list.new }
{
    if list.items().is_empty() {
        None
    } else {
        Some(list.items_mut().remove(0))
    }
}

/// A list of one item.
pub fn one_item(alloc: Global, item: usize) -> Result<List<usize>, AllocError>
    ensures { IfOk result (λ list. list ≡ item ∷ []) }
{
    let mut list = Vec::new(alloc);
    list.push(item)?;
    Ok(List::of(list))
}

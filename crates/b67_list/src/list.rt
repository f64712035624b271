ghost use Rattle.std.specs.Prelude.{◌≡◌, List};

use std::marker::Model;

/// A `Vec` that contracts see as the list of its items, so that two equal lists are one value.
#[derive(Drop)]
pub struct List<T> {
    items: Vec<T>,
}

impl<T> Model for List<T> {
    ghost use Rattle.std.specs.Prelude.{List};
    ghost use Rattle.std.specs.Coded.{coded_list};

    ghost Value = { List T };

    ghost coded = { coded_list T.code };

    ghost view = { λ list. list.items.items };
}

impl<T> List<T> {
    /// The list of these items.
    pub fn of(items: Vec<T>) -> List<T>
        ensures { result ≡ items.items }
    {
        List { items }
    }

    /// The items, in their order.
    pub fn items(&self) -> &Vec<T>
        ensures { result.now.items ≡ self.now }
    {
        &self.items
    }
}

impl<T> List<T> {
    ghost use Rattle.std.specs.Borrow.{sem};
    ghost use Rattle.b67_list.specs.Lending.{LendsItems};

    /// The items, to be changed.
    pub fn items_mut(&mut self) -> &mut Vec<T>
        ensures* writes_back { sem 𝓛 (LendsItems T.row self.entry result) }
        ensures shows { result.now.items ≡ self.old }
    {
        &mut self.items
    }
}

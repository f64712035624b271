ghost use Rattle.std.specs.Prelude.{◌≡◌, [], ◌∷◌, ◌++◌, slice_get, reverse, IfOk};
ghost use Rattle.algol_cells.specs.SeenStack.{Popped};
ghost use Rattle.algol_cells.specs.Shown.{shown_cell};

use b67_list::{List, discard};
use std::alloc::{AllocError, Global};
use std::marker::Model;
use std::mem;

/// A stack, which contracts see as the list of its items with the newest first.
#[derive(Drop)]
pub struct Stack<T> {
    items: Vec<T>,
}

impl<T> Model for Stack<T> {
    ghost use Rattle.std.specs.Prelude.{List, reverse};
    ghost use Rattle.std.specs.Coded.{coded_list};

    ghost Value = { List T };

    ghost coded = { coded_list T.code };

    ghost view = { λ s. reverse s.items.items };
}

impl<T> Stack<T> {
    /// A stack without items.
    pub fn new(alloc: Global) -> Stack<T>
        ensures { result ≡ [] }
    {
        Stack {
            items: Vec::new(alloc),
        }
    }

    /// One more item.
    pub fn push(&mut self, item: T) -> Result<(), AllocError>
    where
        T: Drop,
        ensures { IfOk result (λ _. self.new ≡ item ∷ self.old) }
    {
        self.items.push(item)?;
        Ok(())
    }

    /// The newest item.
    pub fn pop(&mut self) -> Option<T>
        ensures { Popped result self.old self.new }
    {
        self.items.pop()
    }

    /// The item before which so many newer ones stand.
    pub fn under(&self, newer: usize) -> Option<&T>
        ensures { shown_cell result ≡ slice_get self.now newer }
    {
        let place = self.items.len().checked_sub(newer)?.checked_sub(1)?;
        self.items.get(place)
    }

    /// The stack of these items, of which the last is the newest.
    pub fn of(items: Vec<T>) -> Stack<T>
        ensures { result ≡ reverse items.items }
    {
        Stack { items }
    }

    /// The items, the oldest first.
    pub fn oldest_first(&self) -> &[T]
        ensures { reverse result.now ≡ self.now }
    {
        self.items.as_slice()
    }

    /// A stack of its own with the same items.
    pub fn copy(&self, alloc: Global) -> Result<Stack<T>, AllocError>
    where
        T: Copy,
        ensures { IfOk result (λ copy. copy ≡ self.now) }
    {
        Ok(Stack {
            items: Vec::from_slice(alloc, self.items.as_slice())?,
        })
    }

    /// The stack is that one.
    pub fn set(&mut self, to: Stack<T>)
    where
        T: Drop,
        ensures { self.new ≡ to }
    {
        discard(mem::replace(self, to));
    }

    /// No items.
    pub fn clear(&mut self)
    where
        T: Drop,
        ensures { self.new ≡ [] }
    {
        self.items.clear();
    }
}

/// One more item at the end of a list.
pub fn append<T>(list: &mut List<T>, item: T) -> Result<(), AllocError>
where
    T: Drop,
    ensures { IfOk result (λ _. list.new ≡ list.old ++ item ∷ []) }
{
    list.items_mut().push(item)?;
    Ok(())
}

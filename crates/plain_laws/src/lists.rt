//! The list types of rows and of parts of journeys.
ghost use Rattle.std.specs.Prelude.{◌≡◌, [], ◌∷◌, ◌++◌, length, OnOk, OnErr};
ghost use Rattle.plain_laws.specs.Ascending.{IsAscending, IsPastLast};

use smallvec::SmallVec;
use std::alloc::{AllocError, Global};
use std::marker::Model;

/// A list of items that grows at its end. Contracts see it as a list.
pub struct ItemList<T> {
    items: Vec<T>,
}

// Written out, so that what holds one needn't look into it to let go of it.
impl<T: Drop> Drop for ItemList<T> {
    fn drop(self) {
        let ItemList { items: _ } = self;
    }
}

impl<T> Model for ItemList<T> {
    ghost use Rattle.std.specs.Prelude.{List};

    ghost Value = { List T };

    ghost view = { λ s. s.items.items };
}

impl<T: Drop> ItemList<T> {
    /// The empty list.
    pub fn empty(alloc: Global) -> Self
        ensures { result ≡ [] }
    {
        ItemList {
            items: Vec::new(alloc),
        }
    }

    /// Appends the item. After a refusal the list is as before.
    ///
    /// # Errors
    /// Want of memory.
    pub fn push(&mut self, item: T) -> Result<(), AllocError>
        ensures ok { OnOk result (self.new ≡ self.old ++ item ∷ []) }
        ensures err { OnErr result (self.new ≡ self.old) }
    {
        self.items.push(item)?;
        Ok(())
    }

    /// The items, in order.
    pub fn items(&self) -> &[T]
        ensures value { result.now ≡ self.now }
        ensures len { length result.now ≡ length self.now }
    {
        self.items.as_slice()
    }
}

/// A list in which each item is greater than the one before it, so none stands twice. Short lists need no allocation.
/// Contracts see it as a list.
pub struct AscendingList<T: Ord> {
    kept: SmallVec<T, 4>,
}

// Written out, so that what holds one needn't look into it to let go of it.
impl<T: Ord + Drop> Drop for AscendingList<T> {
    fn drop(self) {
        let AscendingList { kept: _ } = self;
    }
}

impl<T: Ord> Model for AscendingList<T> {
    ghost use Rattle.std.specs.Prelude.{List};
    ghost use Rattle.plain_laws.specs.Ascending.{IsAscending};

    ghost Value = { List T };

    ghost view = { λ s. s.kept.items };

    ghost invariant = { λ s. IsAscending T.cmp s.kept.items };
}

impl<T: Ord + Copy + Default + Drop> AscendingList<T> {
    /// The empty list.
    pub fn empty(alloc: Global) -> Self
        ensures { result ≡ [] }
    {
        AscendingList {
            kept: SmallVec::new(alloc),
        }
    }

    /// Appends an item that is greater than the last. After a refusal the list is as before.
    ///
    /// # Errors
    /// Want of memory.
    pub fn push(&mut self, item: T) -> Result<(), AllocError>
        requires greater { IsPastLast T.cmp self.old item }
        ensures ok { OnOk result (self.new ≡ self.old ++ item ∷ []) }
        ensures err { OnErr result (self.new ≡ self.old) }
    {
        self.kept.push(item)?;
        Ok(())
    }

    /// Removes all items. The room for them is kept for others.
    pub fn clear(&mut self)
        ensures { self.new ≡ [] }
    {
        self.kept.clear();
    }

    /// The items, in order.
    pub fn items(&self) -> &[T]
        ensures value { result.now ≡ self.now }
        ensures len { length result.now ≡ length self.now }
        ensures ascending { IsAscending T.cmp self.now }
    {
        self.kept.as_slice()
    }
}

//! The table of what is kept.
ghost use Rattle.std.specs.Prelude.{◌≡◌, ◌==◌, ◌≤◌, ◌∷◌, [], ◌++◌, ℕ, true, length};
ghost use Rattle.std.specs.Prelude.{IfOk, IfSome, IfNone, IsSome, OnErr};
ghost use Rattle.std.specs.List.{insert};
ghost use Rattle.leg_kinds.specs.Kinds.{rank, kept_for, items_at, IsForOther, IsInOrder, IsOfKind, IsPlaceFor};

use crate::kept::KeptList;
use feed_rows::LegFacts;
use std::alloc::{AllocError, Global};
use std::marker::Model;

/// What was kept, in the order in which it came, and found by what decides it.
struct KeptTable<T> {
    kept: Vec<KeptList<T>>,
    /// Numbers of what is kept, by network, areas and timeframe groups.
    order: Vec<usize>,
}

// Written out, so that what holds one needn't look into it to let go of it.
impl<T: Drop> Drop for KeptTable<T> {
    fn drop(self) {
        let KeptTable { kept: _, order: _ } = self;
    }
}

impl<T: Drop> KeptTable<T> {
    /// Where what is kept for the leg stands in the order, or would stand: behind all that comes before it.
    fn place_of(&self, leg: &LegFacts) -> usize
        requires { IsInOrder self.now.kept.items self.now.order.items }
        ensures bound { result ≤ length self.now.order.items }
        ensures place { IsPlaceFor self.now.kept.items self.now.order.items leg.now result }
    {
        self.order
            .partition_point(|number| self.is_before(*number, leg))
    }

    /// Whether what is kept under the number comes before what is kept for the leg.
    fn is_before(&self, number: usize, leg: &LegFacts) -> bool
        ensures { result ≡ (rank self.now.kept.items leg.now number == 0) }
    {
        match self.kept.get(number) {
            Some(kept) => kept.order(leg).is_lt(),
            None => false,
        }
    }

    /// Whether what is kept under the number is kept for the leg.
    fn is_for(&self, number: usize, leg: &LegFacts) -> bool
        ensures { result ≡ (rank self.now.kept.items leg.now number == 1) }
    {
        match self.kept.get(number) {
            Some(kept) => kept.order(leg).is_eq(),
            None => false,
        }
    }

    /// The number at this place of the order, where what is kept under it is kept for the leg.
    fn number_at(&self, place: usize, leg: &LegFacts) -> Option<usize>
        ensures some { IfSome result (λ number. (rank self.now.kept.items leg.now number == 1) ≡ true) }
        ensures none { IfNone result (IsForOther self.now.kept.items self.now.order.items leg.now place) }
    {
        if place >= self.order.len() {
            return None;
        }
        let number = self.order[place];
        if self.is_for(number, leg) {
            Some(number)
        } else {
            None
        }
    }

    /// Keeps it, at this place of the order. After a refusal all is as before.
    fn keep(&mut self, place: usize, kept: KeptList<T>) -> Result<usize, AllocError>
        requires { place ≤ length self.old.order.items }
        ensures number { IfOk result (λ number. number ≡ length self.old.kept.items) }
        ensures kept { IfOk result (λ number. self.new.kept.items ≡ self.old.kept.items ++ kept ∷ []) }
        ensures order { IfOk result (λ number. self.new.order.items ≡ insert self.old.order.items place number) }
        ensures same_kept { OnErr result (self.new.kept.items ≡ self.old.kept.items) }
        ensures same_order { OnErr result (self.new.order.items ≡ self.old.order.items) }
    {
        let number = self.kept.len();
        self.kept.push(kept)?;
        if self.order.insert(place, number).is_err() {
            self.kept.pop();
            return Err(AllocError);
        }
        Ok(number)
    }
}

/// Lists that are kept by the kind of a leg: its network, the areas of its stops, and the timeframe groups that hold at its
/// departure and at its arrival. Contracts see the lists, each with the leg for which it is kept, in the order in which they came.
pub struct KindTable<T> {
    table: KeptTable<T>,
}

// Written out, so that what holds one needn't look into it to let go of it.
impl<T: Drop> Drop for KindTable<T> {
    fn drop(self) {
        let KindTable { table: _ } = self;
    }
}

impl<T> Model for KindTable<T> {
    ghost use Rattle.std.specs.Prelude.{List};
    ghost use Rattle.leg_kinds.specs.Kinds.{KindList, kind_lists, IsInOrder};

    ghost Value = { List (KindList T) };

    ghost view = { λ s. kind_lists s.table.kept.items };

    ghost invariant = { λ s. IsInOrder s.table.kept.items s.table.order.items };
}

impl<T: Drop> KindTable<T> {
    /// Nothing is kept.
    pub fn empty(alloc: Global) -> KindTable<T>
        ensures { result ≡ [] }
    {
        KindTable {
            table: KeptTable {
                kept: Vec::new(alloc),
                order: Vec::new(alloc),
            },
        }
    }

    /// The number of a list that is kept for a leg which differs from this one in its moments at most; none exactly where
    /// there is no such list.
    pub fn find(&self, leg: &LegFacts) -> Option<usize>
        ensures kept { IfSome result (IsOfKind self.now leg.now) }
        ensures known { (number : ℕ) → IsOfKind self.now leg.now number → IsSome result }
    {
        let place = self.table.place_of(leg);
        self.table.number_at(place, leg)
    }

    /// Whether the list under the number is kept for a leg that differs from this one in its moments at most.
    pub fn is_kept_for(&self, number: usize, leg: &LegFacts) -> bool
        ensures { result ≡ true → IsOfKind self.now leg.now number }
    {
        self.table.is_for(number, leg)
    }

    /// Keeps the list for all legs that differ from this one in their moments at most, and gives its number. After a refusal all
    /// is as before.
    ///
    /// # Errors
    /// Want of memory.
    pub fn keep(
        &mut self,
        alloc: Global,
        leg: &LegFacts,
        items: Vec<T>,
    ) -> Result<usize, AllocError>
        ensures number { IfOk result (λ number. number ≡ length self.old) }
        ensures kept { IfOk result (λ number. self.new ≡ self.old ++ kept_for leg.now items.items ∷ []) }
        ensures err { OnErr result (self.new ≡ self.old) }
    {
        let kept = KeptList::of(alloc, leg, items)?;
        let place = self.table.place_of(leg);
        let number = self.table.keep(place, kept)?;
        Ok(number)
    }

    /// The list with this number; none where there is no such list.
    pub fn list(&self, number: usize) -> &[T]
        ensures { result.now ≡ items_at self.now number }
    {
        match self.table.kept.get(number) {
            Some(kept) => &kept.items,
            None => &[],
        }
    }
}

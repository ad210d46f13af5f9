//! Lists in which none is as good as another.
ghost use Rattle.std.specs.Prelude.{◌≡◌, ◌⊎◌, ℕ, ◌<◌, ◌≤◌, Bool, true, false, not, [], length, filter, slice_index_or, All, Contains, OnOk, OnErr};
ghost use Rattle.pareto_front.specs.Fronts.{has_as_good, CoversAll, IsFront};

use std::alloc::{AllocError, Global};
use std::marker::Model;

/// What can be compared twice: whether one is as good as another, and which stands first in a list.
pub trait Ranked: Drop {
    ghost use Rattle.pareto_front.specs.Ranks.{RankLaws};

    ghost at_most: { Self → Self → Bool };

    ghost before: { Self → Self → Bool };

    /// Whether it is as good as the other, or better.
    fn is_at_most(&self, other: &Self) -> bool
        ensures { result ≡ at_most self.now other.now };

    /// Whether it stands before the other in a list.
    fn is_before(&self, other: &Self) -> bool
        ensures { result ≡ before self.now other.now };

    ghost laws: { RankLaws at_most before };
}

/// What is best of all that was offered: no member is at most another, and they stand in order. Contracts see it as a list.
#[derive(Drop)]
pub struct Front<E: Ranked> {
    kept: Vec<E>,
}

impl<E: Ranked> Model for Front<E> {
    ghost use Rattle.std.specs.Prelude.{List};
    ghost use Rattle.pareto_front.specs.Fronts.{IsFront};

    ghost Value = { List E };

    ghost view = { λ s. s.kept.items };

    ghost invariant = { λ s. IsFront E.at_most E.before s.kept.items };
}

impl<E: Ranked> Front<E> {
    /// Nothing was offered yet.
    pub fn empty(alloc: Global) -> Self
        ensures { result ≡ [] }
    {
        Front {
            kept: Vec::new(alloc),
        }
    }

    /// Whether some member is at most the item.
    pub fn covers(&self, item: &E) -> bool
        ensures { result ≡ has_as_good E.at_most self.now item.now }
    {
        self.kept.iter().any(|member| member.is_at_most(item))
    }

    // The place at which the item stands in order.
    fn place(&self, item: &E) -> usize
        ensures inside { result ≤ length self.now }
        ensures earlier { (k : ℕ) (d : E) → k < result → E.before item.now (slice_index_or self.now k d) ≡ false }
        ensures later { (d : E) → result < length self.now → E.before item.now (slice_index_or self.now result d) ≡ true }
    {
        for (i, member) in self.kept.iter().enumerate() {
            if item.is_before(member) {
                return i;
            }
        }
        self.kept.len()
    }

    // Lets go the members that the item is at most.
    fn thin(&mut self, item: &E)
        ensures { self.new ≡ filter (λ member. not (E.at_most item.now member)) self.old }
    {
        self.kept.retain(|member| !item.is_at_most(member));
    }

    /// Takes the item in, unless a member is at most it; the members that it is at most go. After a refusal the item is gone,
    /// and members that it is at most may be too.
    ///
    /// # Errors
    /// Want of memory.
    pub fn offer(&mut self, item: E) -> Result<(), AllocError>
        ensures covered { OnOk result (has_as_good E.at_most self.new item ≡ true) }
        ensures still { OnOk result (CoversAll E.at_most self.old self.new) }
        ensures from { OnOk result (All (λ x. Contains self.old x ⊎ (x ≡ item)) self.new) }
        ensures err { OnErr result (All (Contains self.old) self.new) }
    {
        if self.covers(&item) {
            return Ok(());
        }
        self.thin(&item);
        let place = self.place(&item);
        self.kept.insert(place, item)?;
        Ok(())
    }

    /// The members, in order.
    pub fn items(&self) -> &[E]
        ensures value { result.now ≡ self.now }
        ensures front { IsFront E.at_most E.before self.now }
    {
        self.kept.as_slice()
    }

    /// The members, in order.
    pub fn into_items(self) -> Vec<E>
        ensures value { result.items ≡ self }
        ensures front { IsFront E.at_most E.before self }
    {
        self.kept
    }
}

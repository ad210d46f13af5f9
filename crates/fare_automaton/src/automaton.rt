//! The automaton of a feed and a buyer.
ghost use Rattle.std.specs.Prelude.{◌≡◌, slice_get, IfOk, IfSome};
ghost use Rattle.std.specs.Option.{option_copied};
ghost use Rattle.feed_rows.specs.FareChoices.{open_rows};
ghost use Rattle.feed_rows.specs.FareFloor.{fare_floor};
ghost use Rattle.feed_rows.specs.SoundFeed.{IsSoundFeed};
ghost use Rattle.fare_transfer_rules.specs.BuiltTransferRules.{AreRowsBetween};
ghost use Rattle.feed_rows.specs.Amounts.{IsLow};
ghost use Rattle.fare_automaton.specs.Compiled.{reads_of};
ghost use Rattle.fare_automaton.specs.Terms.{terms};

use crate::floor::floor_of;
use crate::opened::open_rows;
use crate::pairs::{place_of, rows_of_pairs};
use crate::reads::{GroupReads, reads_of, reads_of_groups};
use fare_leg_rules::LegRules;
use fare_transfer_rules::{ClassedRow, XferRules};
use feed_rows::{Buyer, Feed, LegRuleRow, ProductRow, TransferRuleRow};
use item_groups::Groups;
use std::alloc::{AllocError, Global};
use std::marker::Model;
use transit_base::{LegGroupId, Money, ProductId, ProductRowId, RuleId, XferId};

/// The fare rules of a feed for one buyer, as moves from fare state to fare state. Contracts see it as the feed and the buyer.
pub struct Automaton<'f> {
    feed: &'f Feed,
    pub(crate) buyer: Buyer,
    pub(crate) leg_rules: LegRules,
    pub(crate) transfer_rules: XferRules,
    /// What transfer rows read of changes from each leg group.
    reads: Vec<GroupReads>,
    /// The rows for changes between each two leg groups.
    pairs: Groups<ClassedRow>,
    /// The rows of each product that are open to the buyer, in file order.
    opened: Groups<ProductRowId>,
    floor: Money,
}

// Written out, so that what holds one needn't look into it to let go of it.
impl<'f> Drop for Automaton<'f> {
    fn drop(self) {
        let Automaton {
            feed: _,
            buyer: _,
            leg_rules: _,
            transfer_rules: _,
            reads: _,
            pairs: _,
            opened: _,
            floor: _,
        } = self;
    }
}

impl<'f> Model for Automaton<'f> {
    ghost use Rattle.fare_automaton.specs.Compiled.{AreOpenRows, ArePairRows, AreReads};
    ghost use Rattle.fare_automaton.specs.Terms.{FareTerms, terms};
    ghost use Rattle.fare_leg_rules.specs.BuiltLegRules.{AreLegRulesOf};
    ghost use Rattle.fare_transfer_rules.specs.BuiltTransferRules.{AreXferRulesOf};
    ghost use Rattle.std.specs.Prelude.{◌≡◌};
    ghost use Rattle.feed_rows.specs.FareFloor.{fare_floor};

    ghost Value = { FareTerms };

    ghost view = { λ s. terms s.feed.now s.buyer };

    ghost invariant = { λ s. AreLegRulesOf s.feed.now s.leg_rules × AreXferRulesOf s.feed.now s.transfer_rules × AreReads s.feed.now s.reads.items × AreOpenRows s.feed.now s.buyer s.opened × (s.floor.0 ≡ fare_floor s.feed.now s.buyer) × ArePairRows s.feed.now s.pairs };
}

impl<'f> Automaton<'f> {
    /// The automaton of the feed for the buyer.
    ///
    /// # Errors
    /// Want of memory.
    pub fn compile(alloc: Global, feed: &'f Feed, buyer: Buyer) -> Result<Automaton<'f>, AllocError>
        ensures { IfOk result (λ automaton. automaton ≡ terms feed.now buyer) }
    {
        let leg_rules = LegRules::build(alloc, feed)?;
        let transfer_rules = XferRules::build(alloc, feed)?;
        let reads = reads_of_groups(alloc, feed, &transfer_rules)?;
        let pairs = rows_of_pairs(alloc, feed, &transfer_rules)?;
        let opened = open_rows(alloc, feed, buyer)?;
        let floor = floor_of(feed, buyer);
        Ok(Automaton {
            feed,
            buyer,
            leg_rules,
            transfer_rules,
            reads,
            pairs,
            opened,
            floor,
        })
    }

    /// How little a leg with the change to it can cost: the lesser of 0 and the least amount open for a leg rule, plus the
    /// same for a transfer rule.
    pub fn floor(&self) -> Money
        ensures { result.0 ≡ fare_floor self.now.feed self.now.buyer }
    {
        self.floor
    }

    /// The feed.
    pub fn feed(&self) -> &'f Feed
        ensures value { result.now ≡ self.now.feed }
        ensures sound { IsSoundFeed self.now.feed }
    {
        let feed = self.feed;
        let _rows = &feed.products;
        feed
    }

    /// The row of `fare_leg_rules.txt` with this number.
    pub(crate) fn leg_row(&self, rule: RuleId) -> Option<&'f LegRuleRow>
        ensures { option_copied result ≡ slice_get self.now.feed.leg_rules rule.0 }
    {
        self.feed().leg_rules.items().get(rule.0 as usize)
    }

    /// The row of `fare_transfer_rules.txt` with this number.
    pub(crate) fn transfer_row(&self, rule: XferId) -> Option<&'f TransferRuleRow>
        ensures { option_copied result ≡ slice_get self.now.feed.transfer_rules rule.0 }
    {
        self.feed().transfer_rules.items().get(rule.0 as usize)
    }

    /// The row of `fare_products.txt` with this number.
    pub(crate) fn product_row(&self, row: ProductRowId) -> Option<&'f ProductRow>
        ensures value { option_copied result ≡ slice_get self.now.feed.products row.0 }
        ensures low { IfSome result (λ row. IsLow row.now.amount.0) }
    {
        self.feed().products.items().get(row.0 as usize)
    }

    /// The rows of the product that are open to the buyer, in file order.
    pub(crate) fn open_rows(&self, product: ProductId) -> &[ProductRowId]
        ensures { result.now ≡ open_rows self.now.feed product self.now.buyer }
    {
        self.opened.get(product.0 as usize)
    }

    /// What transfer rows read of changes from the leg group.
    pub(crate) fn reads(&self, group: LegGroupId) -> GroupReads
        ensures { result ≡ reads_of self.now.feed group }
    {
        match self.reads.get(group.0 as usize) {
            Some(reads) => *reads,
            None => reads_of(self.feed, &self.transfer_rules, group),
        }
    }

    /// The rows for changes from the one leg group to the other, in file order.
    pub(crate) fn rows_between(&self, from: LegGroupId, to: LegGroupId) -> &[ClassedRow]
        ensures { AreRowsBetween self.now.feed from to result.now }
    {
        match place_of(from, to) {
            Some(place) if place < self.pairs.count() => self.pairs.group(place),
            _ => self.transfer_rules.rows_between(from, to),
        }
    }
}

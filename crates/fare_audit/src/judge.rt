//! What an audit looks at, and how it judges a ride.
ghost use Rattle.std.specs.Prelude.{◌≡◌, ◌≤◌, ◌<◌, ◌||◌, ℕ, true, pos, negsuc, ◌≤ℤ◌, ◌^◌, length, Contains, IfOk, OnOk};
ghost use Rattle.feed_rows.specs.declared.journeys.RideFacts.{RideFacts};
ghost use Rattle.feed_calendar.specs.BuiltCalendar.{IsCalendarOf};
ghost use Rattle.feed_rows.specs.SoundFeed.{IsSoundFeed};
ghost use Rattle.std.specs.List.{list_any};
ghost use Rattle.feed_rows.specs.FareGaps.{has_option};
ghost use Rattle.feed_rows.specs.LegRules.{is_selected_rule, selected_rules};
ghost use Rattle.feed_rows.specs.Legs.{leg_facts, frames_at, stop_areas};
ghost use Rattle.plain_laws.specs.Plain.{at_and};
ghost use Rattle.fare_audit.specs.Found.{GrowsTo, HasLike, HasRide, IsCovered, IsFound, MarksAll, StandsFor, is_marked, opens_rule};

use crate::ends::End;
use crate::found::Found;
use fare_leg_rules::LegRules;
use fare_products::Products;
use fare_timeframes::Timeframes;
use feed_calendar::Calendar;
use feed_rows::{Buyer, Feed, Pair, RideFacts, RuleList};
use std::alloc::{AllocError, Global};
use std::marker::Model;
use transit_base::{Day, Moment, NetworkId, RuleId, StopId};

/// A feed with its fare rules, a buyer, and the service days whose rides are looked at. Contracts see these.
pub struct Audit<'f> {
    feed: &'f Feed,
    buyer: Buyer,
    first: Day,
    /// How many days there are.
    count: u32,
    timeframes: Timeframes<'f>,
    rules: LegRules,
    products: Products,
}

// Written out, so that what holds one needn't look into it to let go of it.
impl<'f> Drop for Audit<'f> {
    fn drop(self) {
        let Audit {
            feed: _,
            buyer: _,
            first: _,
            count: _,
            timeframes: _,
            rules: _,
            products: _,
        } = self;
    }
}

impl<'f> Model for Audit<'f> {
    ghost use Rattle.fare_audit.specs.Found.{AuditOf};

    ghost Value = { AuditOf };

    ghost use Rattle.fare_audit.specs.Audits.{audit_inside, IsBuilt};

    ghost view = { audit_inside };

    ghost invariant = { IsBuilt };
}

impl<'f> Audit<'f> {
    /// The audit of so many days from the first.
    ///
    /// # Errors
    /// Want of memory.
    pub fn build(
        alloc: Global,
        feed: &'f Feed,
        calendar: &'f Calendar,
        buyer: Buyer,
        first: Day,
        count: u32,
    ) -> Result<Audit<'f>, AllocError>
        requires calendar { IsCalendarOf feed.now calendar.now }
        requires low { negsuc 799_999 ≤ℤ first.0 }
        requires high { first.0 ≤ℤ pos 2_000_000 }
        requires few { count ≤ 366 }
        ensures { IfOk result (λ audit. audit ≡ record { feed = feed.now; buyer = buyer; first = first.0; count = count }) }
    {
        let _rows = &feed.trips;
        let products = Products::build(alloc, feed)?;
        let rules = LegRules::build(alloc, feed)?;
        match Timeframes::build(alloc, feed, calendar) {
            Ok(timeframes) => Ok(Audit {
                feed,
                buyer,
                first,
                count,
                timeframes,
                rules,
                products,
            }),
            Err(AllocError) => Err(AllocError),
        }
    }

    /// The feed.
    pub fn feed(&self) -> &'f Feed
        ensures value { result.now ≡ self.now.feed }
        ensures sound { IsSoundFeed self.now.feed }
    {
        let feed = self.feed;
        let _rows = &feed.trips;
        feed
    }

    /// The first of the days.
    pub fn first(&self) -> Day
        ensures value { result.0 ≡ self.now.first }
        ensures low { negsuc 799_999 ≤ℤ result.0 }
        ensures high { result.0 ≤ℤ pos 2_000_000 }
        ensures few { self.now.count ≤ 366 }
    {
        self.first
    }

    /// Whether a row of the rule's product is open to the buyer.
    fn opens(&self, rule: RuleId) -> bool
        ensures { result ≡ opens_rule self.now rule }
    {
        match self.feed().leg_rules.items().get(rule.0 as usize) {
            Some(row) => self.products.least(row.product, self.buyer).is_some(),
            None => false,
        }
    }

    /// Whether the ride's leg has an option; marks the rules that it selects.
    ///
    /// # Errors
    /// Want of memory.
    fn judge(&self, alloc: Global, ride: &RideFacts, used: &mut [bool]) -> Result<bool, AllocError>
        requires { length used.old ≡ length self.now.feed.leg_rules }
        ensures value { IfOk result (λ has. has ≡ has_option self.now.feed self.now.buyer (leg_facts self.now.feed ride.now)) }
        ensures marks { OnOk result (MarksAll (selected_rules self.now.feed (leg_facts self.now.feed ride.now)) used.old used.new) }
    {
        let leg = self.timeframes.leg_facts(alloc, ride)?;
        let rules = self.rules.selected(alloc, &leg)?;
        mark(used, rules.items());
        Ok(self.opens_any(rules.items()))
    }

    /// Whether a row of the product of one of the rules is open to the buyer.
    fn opens_any(&self, rules: &[RuleId]) -> bool
        ensures { result ≡ list_any (opens_rule self.now) rules.now }
    {
        rules.iter().any(|rule| self.opens(*rule))
    }

    /// Whether the ride's leg has an option; marks the rules that it selects. What was judged once is kept.
    ///
    /// # Errors
    /// Want of memory.
    fn has_option(
        &self,
        alloc: Global,
        found: &mut Found,
        ride: &RideFacts,
    ) -> Result<bool, AllocError>
        requires like { HasLike self.now ride.now }
        requires found { IsFound self.now found.old }
        ensures value { IfOk result (λ has. has ≡ has_option self.now.feed self.now.buyer (leg_facts self.now.feed ride.now)) }
        ensures found { OnOk result (IsFound self.now found.new) }
        ensures grows { OnOk result (GrowsTo found.old found.new) }
        ensures marks { OnOk result ((i : ℕ) → at_and self.now.feed.leg_rules i (is_selected_rule self.now.feed (leg_facts self.now.feed ride.now)) ≡ true → is_marked found.new.used.items i ≡ true) }
    {
        if let Some(has_option) = found.verdicts.get(ride) {
            return Ok(has_option);
        }
        let has_option = self.judge(alloc, ride, &mut found.used)?;
        found.verdicts.put(ride, has_option);
        Ok(has_option)
    }

    /// Adds a ride between these ends.
    ///
    /// # Errors
    /// Want of memory.
    pub fn add_ride(
        &self,
        alloc: Global,
        found: &mut Found,
        network: Option<NetworkId>,
        from: &End,
        to: &End,
    ) -> Result<(), AllocError>
        requires ride { HasRide self.now network from.now to.now }
        requires found { IsFound self.now found.old }
        ensures found { OnOk result (IsFound self.now found.new) }
        ensures grows { OnOk result (GrowsTo found.old found.new) }
        ensures covers { OnOk result ((facts : RideFacts) → StandsFor self.now network from.now to.now facts → IsCovered self.now found.new facts) }
    {
        let ride = RideFacts {
            from: from.like,
            to: to.like,
            network,
            departure: from.departure,
            arrival: to.arrival,
        };
        if !self.has_option(alloc, found, &ride)? {
            found.note(Pair {
                from: from.stop,
                to: to.stop,
            })?;
        }
        Ok(())
    }

    /// A stop with the same areas.
    pub fn like_stop(&self, stop: StopId) -> StopId
        ensures { stop_areas self.now.feed result ≡ stop_areas self.now.feed stop }
    {
        self.timeframes.like_stop(stop)
    }

    /// A moment at which the same timeframe groups hold.
    pub fn like_moment(&self, at: Moment) -> Moment
        ensures { frames_at self.now.feed result ≡ frames_at self.now.feed at }
    {
        self.timeframes.like_moment(at)
    }
}

/// Marks the rules.
fn mark(used: &mut [bool], rules: &[RuleId])
    ensures many { length used.new ≡ length used.old }
    ensures marks { MarksAll rules.now used.old used.new }
{
    for rule in rules {
        if (rule.0 as usize) < used.len() {
            used[rule.0 as usize] = true;
        }
    }
}

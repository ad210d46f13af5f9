//! How little further rides cost.
ghost use Rattle.std.specs.Prelude.{◌≡◌, ◌⊎◌, ◌<◌, ◌≤ℤ◌, ℤ, IfOk, IfSome, None, Some, true};
ghost use Rattle.plan_rides.specs.Spans.{AreSpans};
ghost use Rattle.round_terms.specs.Labels.{facts_of};
ghost use Rattle.fare_tariff.specs.FareTerms.{label_facts};
ghost use Rattle.fare_tariff.specs.Prices.{AreLeastPrices, IsLateSince, far, least_on};

use crate::fare::Fare;
use crate::lasts::last_groups;
use fare_bounds::FareBounds;
use feed_rows::Move;
use plan_rides::{Rides, Spans};
use round_terms::Label;
use std::alloc::{AllocError, Global};
use transit_base::Moment;

/// More than any journey costs, in minor units.
const FAR: i128 = 500_000_000_000_000;

/// How little further rides cost by the fare rules, for journeys that end with a leg of one of these groups, which are marked by their
/// places.
pub struct LeastPrices {
    pub(crate) bounds: FareBounds,
    pub(crate) lasts: Vec<bool>,
}

// Written out, so that what holds one needn't look into it to let go of it.
impl Drop for LeastPrices {
    fn drop(self) {
        let LeastPrices {
            bounds: _,
            lasts: _,
        } = self;
    }
}

/// The moment; within these two.
fn clamped(at: i128, first: Moment, last: Moment) -> Moment
    ensures { (at ≤ℤ result.0) ⊎ (last.0 ≤ℤ result.0) }
{
    if i128::from(last.0) <= at {
        return last;
    }
    if at <= i128::from(first.0) {
        return first;
    }
    Moment(at as i64)
}

impl LeastPrices {
    /// Those of the query of these rides, by the least seconds to its journeys' ends.
    ///
    /// # Errors
    /// Want of memory.
    pub fn of(alloc: Global, rides: &Rides, spans: &Spans) -> Result<LeastPrices, AllocError>
        requires { AreSpans rides.now.feed rides.now.query spans.now }
        ensures { IfOk result (AreLeastPrices rides.now.feed rides.now.query) }
    {
        let query = rides.query();
        let lasts = last_groups(alloc, rides, spans)?;
        let feed = rides.timetable().feed();
        let bounds = FareBounds::of(alloc, feed, query.buyer, query.rides, &lasts)?;
        Ok(LeastPrices { bounds, lasts })
    }

    /// How little a journey costs that goes on from the label by a ride, a late one where that is asked, and so many more.
    pub(crate) fn least_on(&self, label: &Label<Fare, Move>, behind: u8, late: bool) -> i128
        requires { behind < 255 }
        ensures { result ≡ least_on self.now.bounds late behind (label_facts (facts_of label.now)) }
    {
        let fare = &label.fare;
        if late {
            self.bounds
                .least_late(behind + 1, &fare.state, fare.paid, fare.held)
        } else {
            self.bounds
                .least_more(behind + 1, &fare.state, fare.paid, fare.held)
        }
    }

    /// A moment of those between the two such that rides which depart later are late after the fare; none where each ride is.
    pub(crate) fn late_since(&self, fare: &Fare, first: Moment, last: Moment) -> Option<Moment>
        ensures { IfSome result (IsLateSince self.now.bounds fare.now.state last.0) }
    {
        match self.bounds.late_after(&fare.state) {
            Some(at) => Some(clamped(at, first, last)),
            None => None,
        }
    }
}

/// Whether no journey costs so much.
pub(crate) fn is_far(price: i128) -> bool
    ensures { result ≡ true → far ≤ℤ price }
{
    FAR <= price
}

//! Changes between two legs, and which limits hold for them.
ghost use Rattle.std.specs.Prelude.{◌≡◌};
ghost use Rattle.feed_rows.specs.TransferRules.{asked_change, limit_holds, elapsed, counted_from, counted_to};
ghost use Rattle.feed_rows.specs.FareStates.{counts_from_departure};
ghost use Rattle.feed_rows.specs.FareSteps.{has_clock};
ghost use Rattle.fare_transfer_rules.specs.Changes.{clocks_of, facts_of, asked_of};

use feed_rows::{Limit, TransferFacts};
use transit_base::{LegGroupId, Moment};

/// A change from a run of legs to the next leg.
#[derive(Clone, Copy)]
pub struct Change {
    /// The leg group of the run before.
    pub from: LegGroupId,
    /// The leg group of the next leg.
    pub to: LegGroupId,
    /// How many changes the run has with this one, where both groups are one; otherwise 1.
    pub count: u64,
    /// The departure of the run's first leg, where it is known.
    pub departure: Option<Moment>,
    /// The arrival of the run's first leg, where it is known.
    pub arrival: Option<Moment>,
    /// The departure of the next leg.
    pub next_departure: Moment,
    /// The arrival of the next leg.
    pub next_arrival: Moment,
}

/// The change with these facts: the moments of the run's first leg are known.
pub fn known_change(facts: &TransferFacts) -> Change
    ensures { asked_of result ≡ asked_change facts.now }
{
    Change {
        from: facts.from,
        to: facts.to,
        count: u64::from(facts.count),
        departure: Some(facts.first_departure),
        arrival: Some(facts.first_arrival),
        next_departure: facts.next_departure,
        next_arrival: facts.next_arrival,
    }
}

impl Change {
    /// Whether the limit holds; one that reads a moment which isn't known doesn't.
    #[tactic(auto, unfolding(feed_rows::specs::TransferRules::limit_holds))]
    pub fn holds(&self, limit: Limit) -> bool
        ensures { result ≡ (asked_of self.now).holds limit }
    {
        self.has_clock(limit.kind) && self.elapsed(limit.kind) <= i128::from(limit.seconds)
    }

    /// Whether the moment from which limits of this type count is known.
    fn has_clock(&self, kind: u8) -> bool
        ensures { result ≡ has_clock (clocks_of self.now) kind }
    {
        if counts_from_departure(kind) {
            self.departure.is_some()
        } else {
            self.arrival.is_some()
        }
    }

    /// The seconds that a limit of this type looks at, where the moment from which it counts is known.
    fn elapsed(&self, kind: u8) -> i128
        ensures { result ≡ elapsed kind (facts_of self.now) }
    {
        i128::from(self.counted_to(kind).0) - i128::from(self.counted_from(kind).0)
    }

    /// The moment from which a limit of this type counts.
    fn counted_from(&self, kind: u8) -> Moment
        ensures { result.0 ≡ counted_from kind (facts_of self.now) }
    {
        if counts_from_departure(kind) {
            self.departure.unwrap_or(Moment(0))
        } else {
            self.arrival.unwrap_or(Moment(0))
        }
    }

    /// The moment to which a limit of this type counts.
    fn counted_to(&self, kind: u8) -> Moment
        ensures { result.0 ≡ counted_to kind (facts_of self.now) }
    {
        if kind == DEPARTURE_TO_ARRIVAL || kind == ARRIVAL_TO_ARRIVAL {
            self.next_arrival
        } else {
            self.next_departure
        }
    }
}

/// Whether limits of this type count from the departure of the run's first leg; the others count from its arrival.
pub fn counts_from_departure(kind: u8) -> bool
    ensures { result ≡ counts_from_departure kind }
{
    kind == DEPARTURE_TO_ARRIVAL || kind == DEPARTURE_TO_DEPARTURE
}

/// The `duration_limit_type` from the departure of the run's first leg to the arrival of the leg after the change.
const DEPARTURE_TO_ARRIVAL: u8 = 0;
/// From the departure of the one to the departure of the other.
const DEPARTURE_TO_DEPARTURE: u8 = 1;
/// From the arrival of the one to the arrival of the other.
const ARRIVAL_TO_ARRIVAL: u8 = 3;

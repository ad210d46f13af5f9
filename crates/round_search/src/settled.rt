//! Labels behind which rides from a position needn't be tried, since they lead on from others as well.
ghost use Rattle.std.specs.Prelude.{◌≡◌, ◌⊎◌, ◌≤◌, ◌≤ℤ◌, [], IfSome, OnOk};
ghost use Rattle.feed_rows.specs.Limits.{most_rides};
ghost use Rattle.round_search.specs.Settled.{AddsLabel, HasCheaper, IsSettledAt};
ghost use Rattle.round_terms.specs.Tasks.{task_of};

use crate::bounds::later;
use crate::search::Search;
use plan_rides::Reached;
use round_terms::{Label, Tariff};
use std::alloc::{AllocError, Global};
use transit_base::{Moment, Money};

/// A label from which the rides from a position were tried: since when they are settled after it, and what a journey costs that ends
/// with it.
#[derive(Clone, Copy)]
pub struct SettledLabel {
    pub(crate) since: Moment,
    pub(crate) price: Money,
}

/// The labels from which the rides from a position were tried, and are settled some time.
pub struct Settled {
    pub(crate) labels: Vec<SettledLabel>,
}

// Written out, so that what holds one needn't look into it to let go of it.
impl Drop for Settled {
    fn drop(self) {
        let Settled { labels: _ } = self;
    }
}

/// The moment; or an earlier one behind which rides are settled after both labels, where the other is as cheap.
fn sooner(passed: Moment, own: &SettledLabel, other: &SettledLabel) -> Moment
    ensures { (result ≡ passed) ⊎ ((other.now.price.0 ≤ℤ own.now.price.0) × (own.now.since.0 ≤ℤ result.0) × (other.now.since.0 ≤ℤ result.0)) }
{
    let since = later(own.since, other.since);
    if other.price.0 <= own.price.0 && since.0 < passed.0 {
        since
    } else {
        passed
    }
}

impl Settled {
    /// No labels.
    pub(crate) fn none(alloc: Global) -> Settled
        ensures { result.labels.items ≡ [] }
    {
        Settled {
            labels: Vec::new(alloc),
        }
    }

    /// Lets go of the labels.
    pub(crate) fn clear(&mut self)
        ensures { self.new.labels.items ≡ [] }
    {
        self.labels.clear();
    }

    /// A moment behind which no ride need be tried from the label: one from which they were tried is as cheap, and they are settled after
    /// both; or the last moment.
    pub(crate) fn passed(&self, own: Option<SettledLabel>, last: Moment) -> Moment
        ensures { (result ≡ last) ⊎ HasCheaper self.now.labels.items own result.0 }
    {
        let Some(label) = own else {
            return last;
        };
        let mut passed = last;
        for other in &self.labels {
            passed = sooner(passed, &label, other);
        }
        passed
    }

    /// Adds the label, where rides are settled after it some time, unless they are after another as early, which is as cheap.
    pub(crate) fn add(&mut self, own: Option<SettledLabel>) -> Result<(), AllocError>
        ensures { OnOk result (AddsLabel own self.old.labels.items self.new.labels.items) }
    {
        let Some(label) = own else {
            return Ok(());
        };
        if self.labels.iter().any(|other| other.since.0 <= label.since.0
            && other.price.0 <= label.price.0)
        {
            return Ok(());
        }
        self.labels.push(label)?;
        Ok(())
    }
}

impl<'s, 'l, T: Tariff> Search<'s, 'l, T> {
    /// Since when the rides from the position are settled after the label that reaches it, and what it costs; none where they aren't
    /// before the last moment.
    pub(crate) fn settled_label(
        &self,
        label: &Label<T::Fare, T::Move>,
        legs: &T::Legs,
        reached: &Reached,
    ) -> Option<SettledLabel>
        requires fare { (T.terms self.now.tariff).IsFare label.now.rides label.now.fare }
        requires few { label.now.rides ≤ most_rides }
        ensures { IfSome result (IsSettledAt (task_of T.Fare.at_most T.terms self.now) (T.IsKnown self.now.tariff legs.now) label.now reached.now) }
    {
        let _limit = self.limit();
        match self
            .tariff
            .settled_since(label, legs, reached.earliest, self.last_end())
        {
            Some(since) => Some(SettledLabel {
                since,
                price: self.tariff.price(label),
            }),
            None => None,
        }
    }
}

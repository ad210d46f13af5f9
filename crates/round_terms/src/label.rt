//! What a search by rounds keeps of a partial journey.
ghost use Rattle.std.specs.Prelude.{◌≡◌};
ghost use Rattle.round_terms.specs.Labels.{covers, comes_no_later};

use feed_rows::Ride;
use label_order::{LabelOrder, Stair};
use transit_base::{Moment, StopId};

/// Where and since when one stands, after how many rides, and what is kept of fares; with the number of the label before the last
/// ride, that ride, and what pays it.
#[derive(Clone, Copy)]
pub struct Label<F: Copy, M: Copy> {
    /// Where one stands.
    pub stop: StopId,
    /// Since when.
    pub arrival: Moment,
    /// How many rides it has.
    pub rides: u8,
    /// What is kept of fares.
    pub fare: F,
    /// The number of the label without the last ride.
    pub parent: Option<u32>,
    /// The last ride.
    pub ride: Option<Ride>,
    /// What pays it.
    pub taken: Option<M>,
}

impl<F: LabelOrder + Copy, M: Copy> LabelOrder for Label<F, M> {
    ghost use Rattle.round_terms.specs.Labels.{covers};
    ghost use Rattle.round_terms.specs.CoverLaws.{cover_laws};

    ghost at_most = { covers F.at_most };

    #[tactic(auto, unfolding(crate::specs::Labels::covers))]
    fn leq(&self, other: &Self) -> bool {
        comes_no_later(self, other) && self.fare.leq(&other.fare)
    }

    ghost laws = { cover_laws F.at_most F.laws };
}

/// One class: labels of each stop and class stand in a bag of their own.
impl<F: LabelOrder + Copy, M: Copy> Stair for Label<F, M> {
    ghost use Rattle.std.specs.Prelude.{refl};
    ghost use Rattle.round_terms.specs.CoverLaws.{cover_rises};

    type Class = u8;

    ghost class_of = { λ label. 0 };

    ghost height_of = { λ label. label.arrival.0 };

    fn class(&self) -> u8 {
        0
    }

    fn height(&self) -> i64 {
        self.arrival.0
    }

    ghost stairs = { record { class = λ a b h. refl; height = cover_rises F.at_most } };
}

/// Whether the one stands where the other does, since no later, after no more rides, and without any where the other has none.
#[inline(always)]
#[tactic(auto, unfolding(crate::specs::Labels::comes_no_later))]
fn comes_no_later<F: Copy, M: Copy>(a: &Label<F, M>, b: &Label<F, M>) -> bool
    ensures { result ≡ comes_no_later a.now b.now }
{
    a.stop == b.stop
        && a.arrival.0 <= b.arrival.0
        && a.rides <= b.rides
        && (a.rides != 0 || b.rides == 0)
}

//! What is found: triples of journeys, each with the label that leads to it.
use feed_rows::Triple;
use pareto_front::{Ranked, is_at_most, is_before};
use transit_base::StopId;

/// A triple that is found, and the label whose journey has it, where that ends at this stop.
#[derive(Clone, Copy)]
pub struct Final {
    pub triple: Triple,
    /// The number of the label.
    pub label: u32,
    pub last: StopId,
}

impl Ranked for Final {
    ghost use Rattle.feed_rows.specs.ParetoTriples.{at_most, is_before};
    ghost use Rattle.round_terms.specs.declared.finals.Final.{Final};
    ghost use Rattle.pareto_front.specs.TripleLaws.{triple_laws};

    ghost at_most = { λ a b. at_most a.triple b.triple };

    ghost before = { λ a b. is_before a.triple b.triple };

    fn is_at_most(&self, other: &Self) -> bool {
        is_at_most(self.triple, other.triple)
    }

    fn is_before(&self, other: &Self) -> bool {
        is_before(self.triple, other.triple)
    }

    ghost laws = { triple_laws (λ (found : Final). found.triple) };
}

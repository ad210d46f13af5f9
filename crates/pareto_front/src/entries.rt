//! Entries of an answer, by their triples.
use crate::front::Ranked;
use crate::triples::{is_at_most, is_before};
use feed_rows::Entry;

impl Ranked for Entry {
    ghost use Rattle.feed_rows.specs.ParetoTriples.{at_most, is_before};
    ghost use Rattle.feed_rows.specs.declared.fares.Entry.{Entry};
    ghost use Rattle.pareto_front.specs.TripleLaws.{triple_laws};

    ghost at_most = { λ a b. at_most a.triple b.triple };

    ghost before = { λ a b. is_before a.triple b.triple };

    fn is_at_most(&self, other: &Self) -> bool {
        is_at_most(self.triple, other.triple)
    }

    fn is_before(&self, other: &Self) -> bool {
        is_before(self.triple, other.triple)
    }

    ghost laws = { triple_laws (λ (entry : Entry). entry.triple) };
}

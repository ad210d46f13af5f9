//! What of the options of a leg is enough for a search of the cheapest.
ghost use Rattle.std.specs.Prelude.{◌≡◌, true, IfOk};
ghost use Rattle.fare_automaton.specs.Fewest.{AreFewer, HasLesser, IsLesserPick, group_of};

use crate::automaton::Automaton;
use feed_rows::LegChoice;
use std::alloc::{AllocError, Global};
use transit_base::LegGroupId;

impl<'f> Automaton<'f> {
    /// The options without those beside which another, by a rule of the same leg group, costs no more: it allows the same
    /// changes. Passed over from either end, so that a dear one is left out wherever it stands.
    ///
    /// # Errors
    /// Want of memory.
    pub(crate) fn fewest(
        &self,
        alloc: Global,
        options: &[LegChoice],
    ) -> Result<Vec<LegChoice>, AllocError>
        ensures { IfOk result (λ fewer. AreFewer self.now.feed options.now fewer.items) }
    {
        let fewer = self.fewer(alloc, options)?;
        self.fewer(alloc, &fewer)
    }

    /// The options, from the last one on, without those beside which one that is taken costs no more.
    ///
    /// # Errors
    /// Want of memory.
    fn fewer(&self, alloc: Global, options: &[LegChoice]) -> Result<Vec<LegChoice>, AllocError>
        ensures { IfOk result (λ fewer. AreFewer self.now.feed options.now fewer.items) }
    {
        let mut fewer = Vec::new(alloc);
        for number in 0..options.len() {
            let option = &options[options.len() - 1 - number];
            if !self.has_lesser(&fewer, option) {
                fewer.push(*option)?;
            }
        }
        Ok(fewer)
    }

    /// Whether one of the options is by a rule of the same leg group as this one, and costs no more.
    fn has_lesser(&self, options: &[LegChoice], option: &LegChoice) -> bool
        ensures { result ≡ true → HasLesser self.now.feed options.now option.now }
    {
        for number in 0..options.len() {
            if self.is_lesser(&options[number], option) {
                return true;
            }
        }
        false
    }

    /// Whether both options are by rules of one leg group, and the first costs no more.
    fn is_lesser(&self, one: &LegChoice, other: &LegChoice) -> bool
        ensures { result ≡ true → IsLesserPick self.now.feed one.now other.now }
    {
        is_same(self.group_of(one), self.group_of(other))
            && self.amount_of(one.product) <= self.amount_of(other.product)
    }

    /// The leg group of the option's rule; none where there is no such rule.
    fn group_of(&self, option: &LegChoice) -> Option<Option<LegGroupId>>
        ensures { result ≡ group_of self.now.feed option.now }
    {
        match self.leg_row(option.rule) {
            Some(rule) => Some(rule.group),
            None => None,
        }
    }
}

/// Whether both are known, and are the same leg group or none.
fn is_same(one: Option<Option<LegGroupId>>, other: Option<Option<LegGroupId>>) -> bool
    ensures { result ≡ true → one ≡ other }
{
    match (one, other) {
        (Some(Some(one)), Some(Some(other))) => one.0 == other.0,
        (Some(None), Some(None)) => true,
        _ => false,
    }
}

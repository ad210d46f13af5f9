//! From what some further rides add at least to what one ride more adds.
ghost use Rattle.std.specs.Prelude.{◌≡◌, ℕ, ◌+◌, ◌*◌, ◌<◌, ◌≤ℤ◌, IfOk, length, vec_len};
ghost use Rattle.fare_bounds.specs.Amounts.{floor_of, IsAmount, row_place};
ghost use Rattle.fare_bounds.specs.Levels.{costs_by, AreLegCosts, AreLesserCosts, AreCosts, AreCostsTo, IsLevelBelow, IsFilled, counts, added_by, IsChangeAbove, IsNextLevel};

use crate::amounts::{NEVER, amount_at, at_place, lower, place_of, row_place};
use crate::least::LeastAmounts;
use crate::level::{LegCosts, Level};
use feed_rows::{CHANGE_ALONE, Feed, TransferRuleRow, includes_leg_after};
use std::alloc::{AllocError, Global};
use transit_base::LegGroupId;

impl LegCosts {
    /// Where there is no leg.
    fn never() -> LegCosts
        ensures { (count : ℕ) → AreCosts count result }
    {
        LegCosts {
            free: NEVER,
            charged: NEVER,
            apart: NEVER,
        }
    }

    /// The lesser of both, each by itself.
    fn lesser(&self, other: &LegCosts) -> LegCosts
        ensures first { AreLesserCosts result self.now }
        ensures second { AreLesserCosts result other.now }
        ensures amounts { (count : ℕ) → AreCosts count self.now → AreCosts count other.now → AreCosts count result }
    {
        LegCosts {
            free: self.free.min(other.free),
            charged: self.charged.min(other.charged),
            apart: self.apart.min(other.apart),
        }
    }
}

impl Level {
    /// The level for so many rides at most, which add this.
    ///
    /// # Errors
    /// Want of memory.
    pub fn filled(alloc: Global, rides: u8, places: usize, amount: i64) -> Result<Level, AllocError>
        requires { IsAmount (2 * rides) amount }
        ensures { IfOk result (IsFilled rides places amount) }
    {
        Ok(Level {
            rides,
            with_held: vec![in alloc; amount; places]?,
            without_held: vec![in alloc; NEVER; places]?,
        })
    }

    /// What a leg of the group at the place and what follows it add.
    fn leg_costs(&self, amounts: &LeastAmounts, place: usize) -> LegCosts
        requires { self.now.rides < 255 }
        ensures costs { AreLegCosts amounts.now self.now place result }
        ensures amounts { AreCosts (2 * self.now.rides + 1) result }
    {
        let least = amount_at(&amounts.legs, place);
        if least >= NEVER {
            return LegCosts::never();
        }
        let with_held = at_place(&self.with_held, place);
        let without_held = at_place(&self.without_held, place);
        let end = amount_at(&amounts.ends, place);
        costs_by(least, with_held, without_held, end)
    }

    /// The least that a leg and what follows it add.
    fn least_costs(&self, amounts: &LeastAmounts) -> LegCosts
        requires { self.now.rides < 255 }
        ensures costs { (place : ℕ) → AreLegCosts amounts.now self.now place result }
        ensures amounts { AreCosts (2 * self.now.rides + 1) result }
    {
        let mut least = LegCosts::never();
        for place in 0..amounts.legs.len() {
            least = least.lesser(&self.leg_costs(amounts, place));
        }
        least
    }

    /// What a leg and what follows it add, where its group is one that the field matches; `least` is that of all
    /// groups.
    fn costs_to(&self, to: Option<LegGroupId>, amounts: &LeastAmounts, least: &LegCosts) -> LegCosts
        requires rides { self.now.rides < 255 }
        requires all { (place : ℕ) → AreLegCosts amounts.now self.now place least.now }
        requires least { AreCosts (2 * self.now.rides + 1) least.now }
        ensures costs { AreCostsTo amounts.now self.now to result }
        ensures amounts { AreCosts (2 * self.now.rides + 1) result }
    {
        match to {
            Some(_) => self.leg_costs(amounts, place_of(to)),
            None => *least,
        }
    }

    /// Lowers what stands for the groups before a change of the row to what the change with all that follows adds.
    fn take_change(&mut self, row: &TransferRuleRow, added: i64)
        requires place { row_place row.now.from < vec_len self.old.with_held }
        requires same { vec_len self.old.without_held ≡ vec_len self.old.with_held }
        requires added { floor_of (2 * self.old.rides) ≤ℤ added }
        ensures below { IsLevelBelow self.new self.old }
        ensures row { IsChangeAbove self.new row.now added }
    {
        let place = row_place(row.from);
        if row.kind == CHANGE_ALONE {
            lower(&mut self.without_held, place, added);
        } else {
            lower(&mut self.with_held, place, added);
        }
    }

    /// The level for one ride more; a late one tells of next rides to which no transfer rule with a limit can arrange a
    /// change.
    ///
    /// # Errors
    /// Want of memory.
    pub fn next(
        &self,
        alloc: Global,
        feed: &Feed,
        amounts: &LeastAmounts,
        late: bool,
    ) -> Result<Level, AllocError>
        requires rides { self.now.rides < 255 }
        requires places { vec_len amounts.now.legs ≡ length feed.now.group_names + 2 }
        ensures { IfOk result (IsNextLevel feed.now late amounts.now self.now) }
    {
        let least = self.least_costs(amounts);
        let mut level = Level::filled(alloc, self.rides + 1, amounts.legs.len(), least.apart)?;
        for row in feed.transfer_rules.items() {
            if counts(row, late) {
                let costs = self.costs_to(row.to, amounts, &least);
                level.take_change(row, added_by(row.kind, amounts.charge(row.product), &costs));
            }
        }
        Ok(level)
    }
}

/// Whether a level is made by this row: a late one only by rows without limit.
fn counts(row: &TransferRuleRow, late: bool) -> bool
    ensures { result ≡ counts late row.now }
{
    !late || row.limit.is_none()
}

/// What a change of this type adds with the leg and what follows it, where it costs this and they that.
fn added_by(kind: u8, charge: i64, costs: &LegCosts) -> i64
    requires charge { IsAmount 1 charge }
    requires costs { AreCosts 600 costs.now }
    ensures { result ≡ added_by kind charge costs.now.free costs.now.charged }
{
    if includes_leg_after(kind) {
        charge + costs.free
    } else {
        charge + costs.charged
    }
}

/// What a leg and what follows it add, where legs cost no less than this, and by what further rides and the end add.
fn costs_by(least: i64, with_held: i64, without_held: i64, end: i64) -> LegCosts
    requires least { IsAmount 1 least }
    requires with_held { IsAmount 600 with_held }
    requires without_held { IsAmount 600 without_held }
    requires end { IsAmount 600 end }
    ensures { result ≡ costs_by least with_held without_held end }
{
    let rest = with_held.min(without_held).min(end);
    let kept = with_held.min(end);
    let charged = (least + rest).min(NEVER);
    let apart = (least + kept).min(without_held);
    LegCosts {
        free: rest,
        charged,
        apart,
    }
}

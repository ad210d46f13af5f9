//! The kinds of the legs that rides are, and the leg groups that these can be of.
ghost use Rattle.std.specs.Prelude.{◌≡◌, All, Contains, OnOk, true};
ghost use Rattle.fare_automaton.specs.Known.{KnownPicks};
ghost use Rattle.round_terms.specs.Legs.{AreKnown};
ghost use Rattle.ride_kinds.specs.RideKinds.{StayKnown};
ghost use Rattle.fare_tariff.specs.FareTerms.{IsKnown};
ghost use Rattle.fare_tariff.specs.Groups.{AreGroupsOf, AreKinds, HasGroup, StayGroups};

use crate::legs::FareLegs;
use fare_bounds::LastChanges;
use feed_rows::{Feed, LegChoice};
use plan_rides::CaughtRide;
use ride_kinds::LegKinds;
use std::alloc::{AllocError, Global};
use transit_base::LegGroupId;

/// Replaces the numbers by those of the kinds of the legs that are these rides.
fn find_kinds(
    alloc: Global,
    known: &mut LegKinds<'_, '_>,
    rides: &[CaughtRide],
    kinds: &mut Vec<usize>,
) -> Result<(), AllocError>
    ensures kinds { OnOk result (AreKinds known.old.terms.feed known.new rides.now kinds.new.items) }
    ensures terms { known.new.terms ≡ known.old.terms }
    ensures still { StayKnown known.old known.new }
{
    kinds.clear();
    for k in 0..rides.len() {
        let kind = known.kind_of(alloc, &rides[k].facts)?;
        kinds.push(kind)?;
    }
    Ok(())
}

/// Whether the group is among these.
fn has_group(groups: &[Option<LegGroupId>], group: Option<LegGroupId>) -> bool
    ensures { result ≡ true → Contains groups.now group }
{
    groups.contains(&group)
}

/// Adds the group, unless it is there.
fn add_group(
    groups: &mut Vec<Option<LegGroupId>>,
    group: Option<LegGroupId>,
) -> Result<(), AllocError>
    ensures there { OnOk result (Contains groups.new.items group) }
    ensures still { OnOk result (StayGroups groups.old.items groups.new.items) }
{
    if has_group(groups, group) {
        return Ok(());
    }
    groups.push(group)?;
    Ok(())
}

/// Adds the group of the option's rule.
fn add_group_of(
    feed: &Feed,
    pick: &LegChoice,
    groups: &mut Vec<Option<LegGroupId>>,
) -> Result<(), AllocError>
    ensures there { OnOk result (HasGroup feed.now groups.new.items pick.now) }
    ensures still { OnOk result (StayGroups groups.old.items groups.new.items) }
{
    match feed.leg_rules.items().get(pick.rule.0 as usize) {
        Some(rule) => add_group(groups, rule.group),
        None => Ok(()),
    }
}

/// Adds the groups of the rules of these options.
fn add_groups(
    feed: &Feed,
    options: &[LegChoice],
    groups: &mut Vec<Option<LegGroupId>>,
) -> Result<(), AllocError>
    ensures there { OnOk result (All (HasGroup feed.now groups.new.items) options.now) }
    ensures still { OnOk result (StayGroups groups.old.items groups.new.items) }
{
    for pick in options {
        add_group_of(feed, pick, groups)?;
    }
    Ok(())
}

/// Replaces the groups by those of which the rides can be, whose legs' kinds have these numbers.
fn find_groups(
    feed: &Feed,
    known: &LegKinds<'_, '_>,
    rides: &[CaughtRide],
    kinds: &[usize],
    groups: &mut Vec<Option<LegGroupId>>,
) -> Result<(), AllocError>
    requires feed { known.now.terms.feed ≡ feed.now }
    requires kinds { AreKinds feed.now known.now rides.now kinds.now }
    ensures { OnOk result (AreGroupsOf feed.now known.now.terms.buyer rides.now groups.new.items) }
{
    groups.clear();
    for k in 0..rides.len() {
        add_groups(feed, known.options(kinds[k]), groups)?;
    }
    Ok(())
}

impl<'l> FareLegs<'l> {
    /// Replaces what is known by what is known of these rides, but which of them are repeated.
    ///
    /// # Errors
    /// Want of memory.
    pub(crate) fn find(
        &mut self,
        alloc: Global,
        feed: &Feed,
        rides: &[CaughtRide],
    ) -> Result<(), AllocError>
        requires { self.old.known.terms.feed ≡ feed.now }
        ensures terms { self.new.known.terms ≡ self.old.known.terms }
        ensures known { OnOk result (AreKnown (IsKnown feed.now self.old.known.terms.buyer self.new) rides.now) }
    {
        find_kinds(alloc, &mut self.known, rides, &mut self.kinds)?;
        find_groups(feed, &self.known, rides, &self.kinds, &mut self.groups)?;
        self.changes = LastChanges::to(alloc, feed, &self.groups)?;
        Ok(())
    }
}

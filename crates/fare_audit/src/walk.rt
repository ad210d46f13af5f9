//! The rides of an audit, trip by trip.
ghost use Rattle.std.specs.Prelude.{◌≡◌, ◌≤◌, ◌<◌, ◌≤ℤ◌, ◌<ℤ◌, ◌+ℤ◌, ℕ, ℤ, true, pos, negsuc, length, All, Contains, IfOk, OnOk, Some, slice_get};
ghost use Rattle.transit_base.specs.Limits.{most_time};
ghost use Rattle.feed_rows.specs.declared.journeys.Call.{Call};
ghost use Rattle.fare_audit.specs.declared.ends.End.{End};
ghost use Rattle.feed_rows.specs.Limits.{least_shift, most_shift};
ghost use Rattle.feed_rows.specs.Calls.{calls_of};
ghost use Rattle.feed_rows.specs.Rides.{runs_on, trip_network};
ghost use Rattle.feed_rows.specs.Shifts.{shifts_of};
ghost use Rattle.fare_audit.specs.Days.{AreDaysOf, AreWithin, EndsBefore};
ghost use Rattle.fare_audit.specs.Found.{CoversPair, GrowsTo, IsFound};
ghost use Rattle.fare_audit.specs.Runs.{AreEndsOf, CoversRun, CoversShift, CoversTrip, IsAuditedRun, IsEndOf, IsNearRun};

use crate::days::{AuditDays, Reach, day_after};
use crate::ends::End;
use crate::found::Found;
use crate::judge::Audit;
use feed_rows::Call;
use feed_trips::{Calls, Trips};
use std::alloc::{AllocError, Global};
use transit_base::{Day, Moment, NetworkId, TripId};

/// A trip on a service day, so many seconds later than its stop times say.
#[derive(Clone, Copy)]
pub struct Run {
    pub trip: TripId,
    pub day: Day,
    pub shift: i64,
    /// The fare network of its route.
    pub network: Option<NetworkId>,
}

impl<'f> Audit<'f> {
    /// Adds the rides of all trips.
    ///
    /// # Errors
    /// Want of memory.
    pub fn add_trips(
        &self,
        alloc: Global,
        found: &mut Found,
        trips: &Trips,
        days: &AuditDays,
    ) -> Result<(), AllocError>
        requires trips { trips.now ≡ self.now.feed }
        requires days { AreDaysOf self.now.feed self.now.first self.now.count days.now }
        requires found { IsFound self.now found.old }
        ensures found { OnOk result (IsFound self.now found.new) }
        ensures covers { OnOk result ((trip : ℕ) → trip < length self.now.feed.trips → CoversTrip self.now found.new (record { 0 = trip })) }
    {
        let count = self.feed().trips.items().len() as u32;
        for number in 0..count {
            self.add_trip(alloc, found, trips, days, TripId(number))?;
        }
        Ok(())
    }

    /// Adds the rides of a trip.
    fn add_trip(
        &self,
        alloc: Global,
        found: &mut Found,
        trips: &Trips,
        days: &AuditDays,
        trip: TripId,
    ) -> Result<(), AllocError>
        requires trips { trips.now ≡ self.now.feed }
        requires days { AreDaysOf self.now.feed self.now.first self.now.count days.now }
        requires trip { trip.0 < length self.now.feed.trips }
        requires found { IsFound self.now found.old }
        ensures found { OnOk result (IsFound self.now found.new) }
        ensures grows { OnOk result (GrowsTo found.old found.new) }
        ensures covers { OnOk result (CoversTrip self.now found.new trip) }
    {
        let shifts = trips.shifts_of(alloc, trip)?;
        for shift in shifts.items() {
            self.add_shift(alloc, found, trips, days, trip, *shift)?;
        }
        Ok(())
    }

    /// Adds the rides of a trip with a shift.
    fn add_shift(
        &self,
        alloc: Global,
        found: &mut Found,
        trips: &Trips,
        days: &AuditDays,
        trip: TripId,
        shift: i64,
    ) -> Result<(), AllocError>
        requires trips { trips.now ≡ self.now.feed }
        requires days { AreDaysOf self.now.feed self.now.first self.now.count days.now }
        requires trip { trip.0 < length self.now.feed.trips }
        requires shift { Contains (shifts_of self.now.feed trip) shift }
        requires found { IsFound self.now found.old }
        ensures found { OnOk result (IsFound self.now found.new) }
        ensures grows { OnOk result (GrowsTo found.old found.new) }
        ensures covers { OnOk result (CoversShift self.now found.new trip shift) }
    {
        let calls = trips.calls_of(trip);
        let network = trips.network(trip);
        let service = self.feed().trips.items()[trip.0 as usize].service;
        let mut ends = Vec::new(alloc);
        for number in days.of(service, reach_of(&calls, shift)) {
            let day = day_after(self.first(), *number);
            let run = Run {
                trip,
                day,
                shift,
                network,
            };
            self.ends_of(&mut ends, &run, &calls)?;
            self.add_run(alloc, found, &run, &ends)?;
        }
        Ok(())
    }

    /// Replaces the ends by those of the run.
    fn ends_of(&self, ends: &mut Vec<End>, run: &Run, calls: &Calls) -> Result<(), AllocError>
        requires run { IsNearRun run.now }
        requires times { All (λ (c : Call). (c.arrival ≤ most_time) × (c.departure ≤ most_time)) calls.now }
        ensures { OnOk result (AreEndsOf self.now.feed run.now calls.now ends.new.items) }
    {
        ends.clear();
        for position in 0..calls.len() {
            ends.push(self.end_of(run, &calls.at(position)))?;
        }
        Ok(())
    }

    /// The call of a run, as fare rules see it.
    fn end_of(&self, run: &Run, call: &Call) -> End
        requires run { IsNearRun run.now }
        requires arrival { call.now.arrival ≤ most_time }
        requires departure { call.now.departure ≤ most_time }
        ensures { IsEndOf self.now.feed run.now call.now result }
    {
        let arrival = Moment::at(run.day, run.shift + i64::from(call.arrival));
        let departure = Moment::at(run.day, run.shift + i64::from(call.departure));
        End {
            stop: call.stop,
            like: self.like_stop(call.stop),
            arrival: self.like_moment(arrival),
            departure: self.like_moment(departure),
            pickup: call.pickup,
            drop_off: call.drop_off,
        }
    }

    /// Adds the rides of a run, unless those of one that fare rules see alike were added lately.
    fn add_run(
        &self,
        alloc: Global,
        found: &mut Found,
        run: &Run,
        ends: &[End],
    ) -> Result<(), AllocError>
        requires run { IsAuditedRun self.now run.now }
        requires ends { AreEndsOf self.now.feed run.now (calls_of self.now.feed run.now.trip) ends.now }
        requires found { IsFound self.now found.old }
        ensures found { OnOk result (IsFound self.now found.new) }
        ensures grows { OnOk result (GrowsTo found.old found.new) }
        ensures covers { OnOk result (CoversRun self.now found.new run.now) }
    {
        if found.is_walked(run.network, ends) {
            return Ok(());
        }
        for to in 0..ends.len() {
            if ends[to].drop_off {
                self.add_rides_to(alloc, found, run, ends, to)?;
            }
        }
        found.keep_walk(alloc, run.network, ends)?;
        Ok(())
    }

    /// Adds the rides of a run that alight at the position.
    fn add_rides_to(
        &self,
        alloc: Global,
        found: &mut Found,
        run: &Run,
        ends: &[End],
        to: usize,
    ) -> Result<(), AllocError>
        requires run { IsAuditedRun self.now run.now }
        requires ends { AreEndsOf self.now.feed run.now (calls_of self.now.feed run.now.trip) ends.now }
        requires to { to < length ends.now }
        requires drop_off { (f : End) → slice_get ends.now to ≡ Some f → f.drop_off ≡ true }
        requires found { IsFound self.now found.old }
        ensures found { OnOk result (IsFound self.now found.new) }
        ensures grows { OnOk result (GrowsTo found.old found.new) }
        ensures covers { OnOk result ((from : ℕ) → from < to → CoversPair self.now found.new run.now.network ends.now from to) }
    {
        for from in 0..to {
            if ends[from].pickup {
                self.add_ride(alloc, found, run.network, &ends[from], &ends[to])?;
            }
        }
        Ok(())
    }
}

/// How far the moments of these calls reach, so many seconds later than their times say.
fn reach_of(calls: &Calls, shift: i64) -> Reach
    requires low { least_shift ≤ℤ shift }
    requires high { shift ≤ℤ most_shift }
    requires times { All (λ (c : Call). (c.arrival ≤ most_time) × (c.departure ≤ most_time)) calls.now }
    ensures { AreWithin result shift calls.now }
{
    if end_before(calls, shift, 86_400) {
        return Reach::OneDay;
    }
    if end_before(calls, shift, 172_800) {
        return Reach::TwoDays;
    }
    Reach::Longer
}

/// Whether all moments of the calls lie from the start of the service day to before so many seconds later.
fn end_before(calls: &Calls, shift: i64, end: i64) -> bool
    requires low { least_shift ≤ℤ shift }
    requires high { shift ≤ℤ most_shift }
    requires times { All (λ (c : Call). (c.arrival ≤ most_time) × (c.departure ≤ most_time)) calls.now }
    ensures { result ≡ true → All (EndsBefore shift end) calls.now }
{
    for position in 0..calls.len() {
        if !ends_before(&calls.at(position), shift, end) {
            return false;
        }
    }
    true
}

/// Whether both moments of the call do.
fn ends_before(call: &Call, shift: i64, end: i64) -> bool
    requires low { least_shift ≤ℤ shift }
    requires high { shift ≤ℤ most_shift }
    requires arrival { call.now.arrival ≤ most_time }
    requires departure { call.now.departure ≤ most_time }
    ensures { result ≡ true → EndsBefore shift end call.now }
{
    is_between(shift + i64::from(call.arrival), end)
        && is_between(shift + i64::from(call.departure), end)
}

/// Whether the number lies from 0 to before the end.
fn is_between(seconds: i64, end: i64) -> bool
    ensures { result ≡ true → (pos 0 ≤ℤ seconds) × (seconds <ℤ end) }
{
    0 <= seconds && seconds < end
}

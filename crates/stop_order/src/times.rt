//! What is wrong with a stop time, as its neighbours tell it in an order: that of the file, or of sorted keys.
ghost use Rattle.std.specs.Prelude.{◌≡◌, ◌<◌, ◌+◌, List, length, map, OnOk};
ghost use Rattle.feed_faults.specs.StopTimeRelations.{is_earlier};
ghost use Rattle.stop_order.specs.declared.times.TripTime.{TripTime};
ghost use Rattle.stop_order.specs.Numbered.{numbered_at, time_of_row};
ghost use Rattle.stop_order.specs.Order.{row_at, continues_trip, ArePlaced, AreTold};

use crate::keys::PlaceKey;
use feed_rows::{CallTime, StopTimeRow};
use std::alloc::AllocError;
use transit_base::TripId;

/// A stop time among those of its trip, which may not be there.
#[derive(Clone, Copy)]
pub struct TripTime {
    pub trip: Option<TripId>,
    /// The `stop_sequence`.
    pub sequence: u32,
    pub arrival: CallTime,
    pub departure: CallTime,
}

/// The stop times of a file, in its order.
pub trait StopTimes {
    /// All of them.
    ghost times: { Self → List TripTime };

    /// How many there are.
    fn len(&self) -> usize
        ensures { result ≡ length (times self.now) };

    /// The stop time of a row.
    fn time(&self, row: usize) -> TripTime
        requires { row < length (times self.now) }
        ensures { result ≡ numbered_at (times self.now) row };
}

// Rows, whose trips are all there.
impl<'t> StopTimes for &'t [StopTimeRow] {
    ghost times = { λ rows. map time_of_row rows.now };

    #[inline(always)]
    fn len(&self) -> usize {
        <[StopTimeRow]>::len(self)
    }

    #[inline(always)]
    fn time(&self, row: usize) -> TripTime {
        let row = self[row];
        TripTime {
            trip: Some(row.trip),
            sequence: row.sequence,
            arrival: row.arrival,
            departure: row.departure,
        }
    }
}

/// What is wrong with a stop time among those of its trip.
#[derive(Clone, Copy, Default, PartialEq, Eq)]
pub struct OrderFaults {
    /// An earlier row has its trip and its sequence.
    pub is_repeated: bool,
    /// It is the first or the last of its trip, and has neither time.
    pub is_end_time_missing: bool,
    /// Its last time is less than its first, or its first less than the last time of the nearest timed one before it.
    pub do_times_decrease: bool,
}

// Both times are there, and the first is less than the second.
fn is_earlier(a: Option<u32>, b: Option<u32>) -> bool
    ensures { result ≡ is_earlier a b }
{
    match (a, b) {
        (Some(x), Some(y)) => x < y,
        _ => false,
    }
}

/// Stop times in the order of keys, or of their file where there are no keys.
#[derive(Drop)]
pub struct OrderedTimes<'t, T: StopTimes> {
    pub times: &'t T,
    pub keys: &'t [PlaceKey],
    ghost placed: { ArePlaced (length (T.times times.now)) (row_at keys.now) },
}

impl<'t, T: StopTimes> OrderedTimes<'t, T> {
    // The row at a place.
    #[inline(always)]
    fn row(&self, place: usize) -> usize
        ensures { result ≡ row_at self.now.keys.now place }
    {
        match self.keys.get(place) {
            Some(key) => key.row as usize,
            None => place,
        }
    }

    // The stop time at a place.
    #[inline(always)]
    fn time(&self, place: usize) -> TripTime
        requires { place < length (T.times self.now.times.now) }
        ensures { result ≡ numbered_at (T.times self.now.times.now) (row_at self.now.keys.now place) }
    {
        self.times.time(self.row(place))
    }

    /// Whether a place goes on with the trip of the one before it.
    #[inline(always)]
    #[tactic(auto, unfolding(crate::specs::Order::continues_trip))]
    pub fn goes_on(&self, place: usize) -> bool
        ensures { result ≡ continues_trip (T.times self.now.times.now) (row_at self.now.keys.now) place }
    {
        place > 0 && place < self.times.len() && self.time(place - 1).trip == self.time(place).trip
    }

    /// Puts what is wrong at a place into the list, at its row, if anything is. The latest time is that of the trip of the
    /// place before, and then that of this place's trip.
    ///
    /// # Errors
    /// Want of memory.
    #[inline(always)]
    #[tactic(auto, unfolding(crate::specs::Order::continues_trip, crate::specs::Order::place_faults))]
    pub fn judge(
        &self,
        place: usize,
        latest: &mut Option<u32>,
        faults: &mut Vec<OrderFaults>,
    ) -> Result<(), AllocError>
        requires within { place < length (T.times self.now.times.now) }
        requires told { AreTold (T.times self.now.times.now) (row_at self.now.keys.now) place latest.old faults.old.items }
        ensures { OnOk result (AreTold (T.times self.now.times.now) (row_at self.now.keys.now) (place + 1) latest.new faults.new.items) }
    {
        let count = self.times.len();
        let time = self.time(place);
        let first = time.arrival.seconds().or(time.departure.seconds());
        let last = time.departure.seconds().or(time.arrival.seconds());
        let does_go_on = self.goes_on(place);
        let before = if does_go_on { *latest } else { None };
        let found = OrderFaults {
            is_repeated: does_go_on && self.time(place - 1).sequence == time.sequence,
            is_end_time_missing: first.is_none() && !(does_go_on && self.goes_on(place + 1)),
            do_times_decrease: is_earlier(last, first) || is_earlier(first, before),
        };
        if found != OrderFaults::default() {
            faults.resize(count, OrderFaults::default())?;
            faults[self.row(place)] = found;
        }
        *latest = last.or(before);
        Ok(())
    }
}

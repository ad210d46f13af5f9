//! Stop times as they are read: a trip or a stop that one names may not be there.
ghost use Rattle.std.specs.Prelude.{◌≡◌, ◌<◌, ◌++◌, ◌∷◌, [], map, length, get_or, Any, OnOk, IfSome, IfNone};
ghost use Rattle.feed_tables.specs.ReadCalls.{call_of, IsStray};

use feed_rows::{CallTime, StopTimeRow, StopTimeRows};
use std::alloc::{AllocError, Global};
use std::marker::Model;
use transit_base::{StopId, TripId};

/// A stop time whose trip and stop may not be there.
#[derive(Clone, Copy)]
pub struct ReadCall {
    /// The trip, where a row of trips.txt has its id.
    pub trip: Option<TripId>,
    /// The stop, where a row of stops.txt has its id.
    pub stop: Option<StopId>,
    /// The `stop_sequence`.
    pub sequence: u32,
    pub arrival: CallTime,
    pub departure: CallTime,
    /// Whether riders may board here.
    pub pickup: bool,
    /// Whether riders may alight here.
    pub drop_off: bool,
}

impl ReadCall {
    /// A row, whose trip and stop are there.
    #[inline(always)]
    pub fn of(row: StopTimeRow) -> ReadCall
        ensures { result ≡ call_of row }
    {
        ReadCall {
            trip: Some(row.trip),
            stop: Some(row.stop),
            sequence: row.sequence,
            arrival: row.arrival,
            departure: row.departure,
            pickup: row.pickup,
            drop_off: row.drop_off,
        }
    }

    // The row, where its trip and its stop are there.
    #[inline(always)]
    fn row(&self) -> Option<StopTimeRow>
        ensures there { IfSome result (λ row. call_of row ≡ self.now) }
        ensures stray { IfNone result (IsStray self.now) }
    {
        match (self.trip, self.stop) {
            (Some(trip), Some(stop)) => Some(StopTimeRow {
                trip,
                stop,
                sequence: self.sequence,
                arrival: self.arrival,
                departure: self.departure,
                pickup: self.pickup,
                drop_off: self.drop_off,
            }),
            _ => None,
        }
    }
}

/// The stop times of a file, in its order. Those before the first whose trip or stop isn't there are kept as rows, so that
/// a feed without a fault has rows alone. Contracts see them as a list of what was read.
pub struct ReadCalls {
    rows: StopTimeRows,
    // From the first on whose trip or stop isn't there.
    rest: Vec<ReadCall>,
}

// Written out, so that what holds one needn't look into it to let go of it.
impl Drop for ReadCalls {
    fn drop(self) {
        let ReadCalls { rows: _, rest: _ } = self;
    }
}

impl Model for ReadCalls {
    ghost use Rattle.std.specs.Prelude.{◌≡◌, ◌++◌, [], List, map, Any, ◌⊎◌};
    ghost use Rattle.feed_tables.specs.declared.calls.ReadCall.{ReadCall};
    ghost use Rattle.feed_tables.specs.ReadCalls.{call_of, IsStray};

    ghost Value = { List ReadCall };

    ghost view = { λ c. map call_of c.rows ++ c.rest.items };

    ghost invariant = { λ c. (c.rest.items ≡ []) ⊎ Any IsStray c.rest.items };
}

impl ReadCalls {
    /// None yet.
    pub fn empty(alloc: Global) -> ReadCalls
        ensures { result ≡ [] }
    {
        ReadCalls {
            rows: StopTimeRows::empty(alloc),
            rest: Vec::new(alloc),
        }
    }

    /// Appends what was read of a stop time.
    ///
    /// # Errors
    /// Want of memory.
    #[inline(always)]
    pub fn push(&mut self, call: ReadCall) -> Result<(), AllocError>
        ensures { OnOk result (self.new ≡ self.old ++ call ∷ []) }
    {
        let row = if self.rest.is_empty() {
            call.row()
        } else {
            None
        };
        match row {
            Some(row) => self.rows.push(row)?,
            None => self.rest.push(call)?,
        }
        Ok(())
    }

    /// What was read of a row.
    #[inline(always)]
    pub fn get(&self, row: usize) -> ReadCall
        requires { row < length self.now }
        ensures { (none : ReadCall) → result ≡ get_or self.now row none }
    {
        let rows = self.rows.items();
        if row < rows.len() {
            ReadCall::of(rows[row])
        } else {
            self.rest[row - rows.len()]
        }
    }

    /// How many there are.
    pub fn len(&self) -> usize
        ensures { result ≡ length self.now }
    {
        self.rows.items().len() + self.rest.len()
    }

    /// The rows, where all trips and stops are there.
    pub fn rows(&self) -> Option<&[StopTimeRow]>
        ensures there { IfSome result (λ rows. map call_of rows.now ≡ self.now) }
        ensures stray { IfNone result (Any IsStray self.now) }
    {
        if !self.rest.is_empty() {
            return None;
        }
        Some(self.rows.items())
    }

    /// The rows alone, where all trips and stops are there.
    pub fn into_rows(self) -> Option<StopTimeRows>
        ensures there { IfSome result (λ rows. map call_of rows ≡ self) }
        ensures stray { IfNone result (Any IsStray self) }
    {
        let ReadCalls { rows, rest } = self;
        if !rest.is_empty() {
            return None;
        }
        Some(rows)
    }
}

//! Trips whose stop times stand together in the file and in order, as they mostly do: where the rows
//! of each stand, and the times that are filled in there.
ghost use Rattle.std.specs.Prelude.{◌≡◌, ◌<◌, ◌≤◌, ◌^◌, length, All, IfOk, OnOk, IfNone, IfSome, [], true, slice_range};
ghost use Rattle.std.specs.Bool.{OnFalse, OnTrue};
ghost use Rattle.std.specs.List.{list_all};
ghost use Rattle.feed_rows.specs.declared.rows.StopTimeRow.{StopTimeRow};
ghost use Rattle.feed_rows.specs.Calls.{is_timed as is_row_timed};
ghost use Rattle.feed_trips.specs.Filled.{AreFilledUp, AreKept, AreLaid, IsLaid};
ghost use Rattle.feed_trips.specs.Stretches.{AreStretches, GoesOn, IsAnew, IsApart, IsPiece, IsPutAt, IsScattered, IsStretchBefore};

use crate::passes::fill_times;
use feed_rows::StopTimeRow;
use std::alloc::{AllocError, Global};
use trip_order::is_timed;

/// Where the rows of a trip stand: from a place, and up to the place after the last.
#[derive(Clone, Copy)]
pub struct Stretch {
    pub from: u32,
    pub to: u32,
}

/// Where the rows of each trip stand, and the times that are filled in beside them.
#[derive(Drop)]
pub struct Together {
    pub stretches: Vec<Stretch>,
    /// Beside each row without a time the one that is filled in, and 0 beside others; empty where each
    /// row has a time.
    pub times: Vec<u32>,
}

// Whether the row at a place goes on with the row before it: it is of the same trip, and its sequence isn't less. The
// first row does.
fn goes_on(rows: &[StopTimeRow], place: usize) -> bool
    requires { place < length rows.now }
    ensures on { OnTrue result (GoesOn rows.now place) }
    ensures anew { OnFalse result (IsAnew rows.now place) }
{
    if place == 0 {
        return true;
    }
    let before = rows[place - 1];
    let row = rows[place];
    before.trip.0 == row.trip.0 && before.sequence <= row.sequence
}

// Where the rows of a row's trip stand, as far as they were put.
fn stretch_of(stretches: &[Stretch], rows: &[StopTimeRow], place: usize, trips: usize) -> Stretch
    requires within { All (λ (r : StopTimeRow). r.trip.0 < trips) rows.now }
    requires inside { place < length rows.now }
    requires count { length stretches.now ≡ trips }
    ensures { IsStretchBefore rows.now place stretches.now result }
{
    stretches[rows[place].trip.0 as usize]
}

// Puts a piece of rows, from a place and up to another, as the stretch of their trip, which was this one before. False where
// the trip has rows before.
fn put_piece(
    stretches: &mut Vec<Stretch>,
    rows: &[StopTimeRow],
    from: usize,
    to: usize,
    trips: usize,
    stretch: Stretch,
) -> bool
    requires within { All (λ (r : StopTimeRow). r.trip.0 < trips) rows.now }
    requires few { length rows.now < 2 ^ 32 }
    requires piece { IsPiece rows.now from to }
    requires before { AreStretches rows.now from trips stretches.old.items }
    requires stretch { IsStretchBefore rows.now from stretches.old.items stretch }
    ensures put { OnTrue result (AreStretches rows.now to trips stretches.new.items) }
    ensures set { OnTrue result (IsPutAt rows.now from to stretches.old.items stretches.new.items) }
    ensures apart { OnFalse result (IsApart rows.now from stretches.old.items) }
{
    if stretch.from != stretch.to {
        return false;
    }
    stretches[rows[from].trip.0 as usize] = Stretch {
        from: from as u32,
        to: to as u32,
    };
    true
}

// Whether each row has a time.
fn are_timed(rows: &[StopTimeRow]) -> bool
    ensures { result ≡ list_all is_row_timed rows.now }
{
    rows.iter().all(|row| is_timed(*row))
}

// Lays the times of a piece beside it, and none where each of its rows has one.
fn lay_piece(
    times: &mut Vec<u32>,
    rows: &[StopTimeRow],
    from: usize,
    to: usize,
) -> Result<(), AllocError>
    requires forward { from ≤ to }
    requires within { to ≤ length rows.now }
    requires few { length rows.now < 2 ^ 32 }
    requires before { length times.old.items ≤ from }
    ensures { OnOk result (IsLaid rows.now from to times.old.items times.new.items) }
{
    let piece = &rows[from..to];
    if are_timed(piece) {
        return Ok(());
    }
    // Room for all rows at once, as most later pieces need some too.
    times.reserve(rows.len() - times.len())?;
    times.resize(to, 0)?;
    fill_times(times, from, piece);
    Ok(())
}

impl Together {
    // Puts a piece of rows, from a place and up to another, with its times, where its trip had this stretch before. False where
    // the trip has rows before.
    fn put(
        &mut self,
        rows: &[StopTimeRow],
        from: usize,
        to: usize,
        trips: usize,
        stretch: Stretch,
    ) -> Result<bool, AllocError>
        requires within { All (λ (r : StopTimeRow). r.trip.0 < trips) rows.now }
        requires few { length rows.now < 2 ^ 32 }
        requires piece { IsPiece rows.now from to }
        requires before { AreStretches rows.now from trips self.old.stretches.items }
        requires laid { AreLaid rows.now from self.old.stretches.items self.old.times.items }
        requires stretch { IsStretchBefore rows.now from self.old.stretches.items stretch }
        ensures put { IfOk result (λ is_put. OnTrue is_put (AreStretches rows.now to trips self.new.stretches.items)) }
        ensures beside { IfOk result (λ is_put. OnTrue is_put (AreLaid rows.now to self.new.stretches.items self.new.times.items)) }
        ensures apart { IfOk result (λ is_put. OnFalse is_put (IsApart rows.now from self.old.stretches.items)) }
    {
        if !put_piece(&mut self.stretches, rows, from, to, trips, stretch) {
            return Ok(false);
        }
        lay_piece(&mut self.times, rows, from, to)?;
        Ok(true)
    }

    // Puts the rows in pieces, each as the stretch of its trip, of which none has one yet. False where some row doesn't follow
    // those of its trip before it.
    fn put_all(&mut self, rows: &[StopTimeRow], trips: usize) -> Result<bool, AllocError>
        requires within { All (λ (r : StopTimeRow). r.trip.0 < trips) rows.now }
        requires few { length rows.now < 2 ^ 32 }
        requires before { AreStretches rows.now 0 trips self.old.stretches.items }
        requires laid { AreLaid rows.now 0 self.old.stretches.items self.old.times.items }
        requires first { IsStretchBefore rows.now 0 self.old.stretches.items (record { from = 0; to = 0 }) }
        ensures put { IfOk result (λ is_put. OnTrue is_put (AreStretches rows.now (length rows.now) trips self.new.stretches.items)) }
        ensures beside { IfOk result (λ is_put. OnTrue is_put (AreLaid rows.now (length rows.now) self.new.stretches.items self.new.times.items)) }
        ensures scattered { IfOk result (λ is_put. OnFalse is_put (IsScattered rows.now trips)) }
    {
        let mut from = 0;
        // What is asked of a piece as it ends is read as it begins, so that no memory is waited for.
        let mut stretch = Stretch { from: 0, to: 0 };
        for place in 0..rows.len() {
            if !goes_on(rows, place) {
                if !self.put(rows, from, place, trips, stretch)? {
                    return Ok(false);
                }
                from = place;
                stretch = stretch_of(&self.stretches, rows, from, trips);
            }
        }
        if from == rows.len() {
            return Ok(true);
        }
        self.put(rows, from, rows.len(), trips, stretch)
    }
}

// Fills the times up, so that there is one beside each row, where there are any.
fn fill_up(times: &mut Vec<u32>, rows: usize) -> Result<(), AllocError>
    requires { length times.old.items ≤ rows }
    ensures { OnOk result (AreFilledUp rows times.old.items times.new.items) }
{
    if !times.is_empty() {
        times.resize(rows, 0)?;
    }
    Ok(())
}

/// Where the rows of each trip stand, if those of each stand together and in order of their sequence, and the times that are
/// filled in there; none only where some row doesn't follow those of its trip before it.
///
/// # Errors
/// Want of memory.
pub fn together_of(
    alloc: Global,
    rows: &[StopTimeRow],
    trips: usize,
) -> Result<Option<Together>, AllocError>
    requires within { All (λ (r : StopTimeRow). r.trip.0 < trips) rows.now }
    requires few { length rows.now < 2 ^ 32 }
    ensures together { IfOk result (λ found. IfSome found (λ found. AreStretches rows.now (length rows.now) trips found.stretches.items)) }
    ensures kept { IfOk result (λ found. IfSome found (λ found. AreKept rows.now found.stretches.items found.times.items)) }
    ensures none { IfOk result (λ found. IfSome found (λ found. list_all is_row_timed rows.now ≡ true → found.times.items ≡ [])) }
    ensures scattered { IfOk result (λ found. IfNone found (IsScattered rows.now trips)) }
{
    let mut found = Together {
        stretches: vec![in alloc; Stretch { from: 0, to: 0 }; trips]?,
        times: Vec::new(alloc),
    };
    if !found.put_all(rows, trips)? {
        return Ok(None);
    }
    fill_up(&mut found.times, rows.len())?;
    Ok(Some(found))
}

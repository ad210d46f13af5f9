//! Stop times, read record by record.
ghost use Rattle.std.specs.Prelude.{◌≡◌, ◌<◌, ◌++◌, ◌∷◌, [], List, ℕ, Option, None, Some, length, not, true, ◌==◌, IfOk, IfErr, OnOk};
ghost use Rattle.feed_files.specs.declared.names.FileName.TheVariants as file;
ghost use Rattle.feed_faults.specs.FieldValues.{nat_of};
ghost use Rattle.feed_faults.specs.FormFaults.{fault_of_field};
ghost use Rattle.feed_faults.specs.Records.{header};
ghost use Rattle.feed_faults.specs.RowKeys.{row_of};
ghost use Rattle.feed_text.specs.Reader.{StandsBehind, is_going, last_record};
ghost use Rattle.feed_text.specs.RowLimits.{row_limit};
ghost use Rattle.feed_tables.specs.IdRows.{IsBegun};
ghost use Rattle.feed_tables.specs.ReadCalls.{read_call};
ghost use Rattle.feed_calls.specs.CallRows.{call_fault, fields_behind, AreCallsOf, IsCallError, HasCalls};

use feed_faults::{ColumnRule, Grammar, rule_of};
use feed_files::{ColumnName, FaultKind, FeedFault, FileName};
use feed_rows::CallTime;
use feed_tables::{CallIds, IdIndex, IdStart, MOST_ROWS, ReadCall, ReadCalls};
use feed_text::{
    Fields, RecordError, RecordRow, Records, SeenTable, Table, file_fault, header_fault, nat_of,
    natural, read_found, row_fault,
};
use std::alloc::{AllocError, Global};
use std::io::Read;
use transit_base::{StopId, TripId};

// The `pickup_type` or `drop_off_type` of a stop where riders may not board, or alight.
const NOT_AVAILABLE: i64 = 1;

/// What was read of stop_times.txt, and its table, of which nothing is kept.
#[derive(Drop)]
pub struct StopTimes {
    pub calls: ReadCalls,
    pub table: SeenTable,
}

/// Why stop_times.txt gives no stop times.
#[derive(Clone, Copy, PartialEq, Eq)]
pub enum CallError {
    /// The first fault of the file by itself, but that it isn't UTF-8.
    Fault(FeedFault),
    /// No more records were read.
    Record(RecordError),
}

impl From<RecordError> for CallError {
    ghost use Rattle.std.specs.Prelude.{◌≡◌};
    ghost use Rattle.feed_calls.specs.declared.calls.CallError.TheVariants as error;

    ghost from_gives = { λ e f. f ≡ error.Record e };

    fn from(error: RecordError) -> CallError {
        CallError::Record(error)
    }
}

impl From<AllocError> for CallError {
    ghost use Rattle.std.specs.Prelude.{◌≡◌};
    ghost use Rattle.feed_text.specs.declared.records.RecordError.TheVariants.{Stopped};
    ghost use Rattle.feed_calls.specs.declared.calls.CallError.TheVariants as error;

    ghost from_gives = { λ e f. f ≡ error.Record Stopped };

    fn from(_error: AllocError) -> CallError {
        CallError::Record(RecordError::Stopped)
    }
}

// The stop times that were read, up to the first fault.
#[derive(Drop)]
struct CallRows {
    header: Table,
    // Where the trip of the row before was looked for.
    last_trip: usize,
    read: StopTimes,
    // The first fault of the header and of the rows.
    fault: Option<FeedFault>,
}

// Whether a stop of this `pickup_type` or `drop_off_type` lets riders board or alight.
fn permits(kind: Option<i64>) -> bool
    ensures { result ≡ not (nat_of kind == 1) }
{
    kind != Some(NOT_AVAILABLE)
}

// The row with the id that a stop time has in a column of ids, or the fault of the field. An id that is found where a look-up
// begins is one by the grammar, and is judged no more.
#[inline(always)]
#[tactic(auto, using(crate::proofs::CallLaws::found_sound))]
fn read_id<F: Fields>(
    index: &IdIndex,
    start: IdStart,
    row: u32,
    fields: &F,
    rule: ColumnRule,
    id: &[u8],
) -> Result<Option<u32>, FeedFault>
    requires few { row < row_limit }
    requires begun { IsBegun index.now.table index.now.name start id.now }
    requires text { id.now ≡ F.at fields.now rule.name }
    requires grammar { rule.grammar ≡ Grammar.Id }
    ensures fault { IfErr result (λ fault. fault_of_field file.StopTimes row (F.at fields.now) rule ≡ Some fault) }
    ensures sound { OnOk result (fault_of_field file.StopTimes row (F.at fields.now) rule ≡ None) }
    ensures row { IfOk result (λ found. found ≡ row_of index.now.table index.now.name id.now) }
{
    let found = index.row_at(start, id);
    if found.is_some() {
        return Ok(found);
    }
    read_found(FileName::StopTimes, row, fields, rule, id)?;
    Ok(index.row_from(start, id))
}

// The stop time that a record makes, judged as it is read, or its fault. Column by column and not in a loop, so that each is
// judged by its own rule alone: a feed has more fields of stop times than of all else.
fn read_call<R: Read>(
    ids: &CallIds,
    last_trip: &mut usize,
    row: u32,
    fields: &RecordRow<R>,
) -> Result<ReadCall, FeedFault>
    requires { row < row_limit }
    ensures fault { IfErr result (λ fault. call_fault (header fields.now.header) row fields.now.fields ≡ Some fault) }
    ensures sound { OnOk result (call_fault (header fields.now.header) row fields.now.fields ≡ None) }
    ensures row { IfOk result (λ call. call ≡ read_call ids.now (fields_behind (header fields.now.header) fields.now.fields)) }
{
    let file = FileName::StopTimes;
    let trip_id = fields.field(ColumnName::TripId);
    let stop_id = fields.field(ColumnName::StopId);
    // Both look-ups are begun before either is ended, which was measured to be quicker.
    let trip_start = ids.trips.start_at(*last_trip, trip_id);
    *last_trip = trip_start.slot;
    let stop_start = ids.stops.start(stop_id);
    if fields.is_long() {
        return Err(row_fault(file, row, FaultKind::LongRow));
    }
    let &[trip, stop, sequence, arrival, departure, pickup, drop_off] = rule_of(file).columns else {
        unreachable!();
    };
    let trip = read_id(&ids.trips, trip_start, row, fields, trip, trip_id)?;
    let stop = read_id(&ids.stops, stop_start, row, fields, stop, stop_id)?;
    let sequence = read_found(file, row, fields, sequence, fields.field(sequence.name))?;
    let arrival = read_found(file, row, fields, arrival, fields.field(arrival.name))?;
    let departure = read_found(file, row, fields, departure, fields.field(departure.name))?;
    let pickup = read_found(file, row, fields, pickup, fields.field(pickup.name))?;
    let drop_off = read_found(file, row, fields, drop_off, fields.field(drop_off.name))?;
    Ok(ReadCall {
        trip: trip.map(TripId),
        stop: stop.map(StopId),
        sequence: nat_of(sequence),
        arrival: CallTime::of(natural(arrival)),
        departure: CallTime::of(natural(departure)),
        pickup: permits(pickup),
        drop_off: permits(drop_off),
    })
}

impl CallRows {
    // None yet, behind the header that was read last.
    fn behind<R: Read>(alloc: Global, records: &Records<R>) -> Result<CallRows, AllocError>
        ensures { IfOk result (λ calls. (ids : CallIds) → HasCalls ids (last_record records.now) [] calls) }
    {
        let header = Table::of_record(alloc, records)?;
        let fault = header_fault(FileName::StopTimes, &header);
        let mut table = SeenTable::none(alloc);
        table.see(records)?;
        Ok(CallRows {
            header,
            last_trip: 0,
            read: StopTimes {
                calls: ReadCalls::empty(alloc),
                table,
            },
            fault,
        })
    }

    // Takes the record that was read last as the next row; where a fault was found before, the row isn't looked at.
    fn take<R: Read>(
        &mut self,
        ids: &CallIds,
        row: u32,
        records: &Records<R>,
    ) -> Result<(), AllocError>
        requires { row < row_limit }
        ensures { OnOk result ((head : List (List ℕ)) (rows : List (List (List ℕ))) → row ≡ length rows → HasCalls ids.now head rows self.old → HasCalls ids.now head (rows ++ last_record records.now ∷ []) self.new) }
    {
        self.read.table.see(records)?;
        if self.fault.is_some() {
            return Ok(());
        }
        let record = RecordRow::of(&self.header, records);
        match read_call(ids, &mut self.last_trip, row, &record) {
            Ok(call) => self.read.calls.push(call)?,
            Err(fault) => self.fault = Some(fault),
        }
        Ok(())
    }
}

/// The stop times that all records of a text tell, by the ids of trips and stops. Behind the last record, and behind an error,
/// nothing is asked of the source any more.
///
/// # Errors
/// The first fault of the text's table, as a whole, then of the header, then row by row and in a row column by column; a
/// record that isn't UTF-8; that of the source; want of memory.
pub fn read_stop_times<R: Read>(
    alloc: Global,
    records: &mut Records<R>,
    ids: &CallIds,
) -> Result<StopTimes, CallError>
    requires { is_going records.old ≡ true }
    ensures rows { IfOk result (λ calls. (start : Option (List ℕ)) → StandsBehind R.remaining start [] records.old → AreCallsOf start ids.now calls) }
    ensures why { IfErr result (λ error. (start : Option (List ℕ)) → StandsBehind R.remaining start [] records.old → IsCallError start error) }
{
    if !records.next()? {
        return Err(CallError::Fault(file_fault(FileName::StopTimes, FaultKind::MissingFile)));
    }
    let mut calls = CallRows::behind(alloc, records)?;
    let mut row = 0;
    while records.next()? {
        if row == MOST_ROWS {
            return Err(CallError::Fault(file_fault(FileName::StopTimes, FaultKind::TooManyRows)));
        }
        calls.take(ids, row, records)?;
        row += 1;
    }
    match calls.fault {
        Some(fault) => Err(CallError::Fault(fault)),
        None => Ok(calls.read),
    }
}

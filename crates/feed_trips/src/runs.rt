//! The runs of frequency rows.
ghost use Rattle.std.specs.Prelude.{◌≡◌, ◌≤◌, ◌++◌, map, pos, ◌-ℤ◌, ◌+ℤ◌, All, IfOk, OnOk};
ghost use Rattle.std.specs.List.{list_any};
ghost use Rattle.std.specs.Ordering.{int_cmp};
ghost use Rattle.plain_laws.specs.Plain.{IsAscending};
ghost use Rattle.feed_rows.specs.Shifts.{is_run_start, run_starts, run_count, ascending_of};
ghost use Rattle.feed_trips.specs.Runs.{IsSoundRun, shifts_against};

use feed_rows::{FrequencyRow, Shifts};
use std::alloc::{AllocError, Global};

/// Whether a run of the row departs from the first stop at this second of the service day.
#[tactic(auto, unfolding(feed_rows::specs::Shifts::is_run_start))]
fn is_run_at(row: &FrequencyRow, second: i64) -> bool
    ensures { result ≡ is_run_start row.now second }
{
    row.headway > 0
        && row.start as i64 <= second
        && second < row.end as i64
        && (second.unsigned_abs() - row.start as u64) % row.headway as u64 == 0
}

/// Whether a run of one of the rows departs from the first stop at this second of the service day.
pub fn has_run_at(rows: &[FrequencyRow], second: i64) -> bool
    ensures { result ≡ list_any (λ f. is_run_start f second) rows.now }
{
    rows.iter().any(|row| is_run_at(row, second))
}

// How many runs a row has.
fn runs_in(row: &FrequencyRow) -> u32
    requires { IsSoundRun row.now }
    ensures { result ≡ run_count row.now }
{
    (row.end.saturating_sub(row.start) + row.headway - 1) / row.headway
}

// The shift of a run that departs at this second against the first departure, in seconds.
fn shift_of(start: u32, first: u32) -> i64
    ensures { result ≡ pos start -ℤ pos first }
{
    i64::from(start) - i64::from(first)
}

// Appends the shifts of a row's runs against the first departure, in seconds.
fn push_shifts(shifts: &mut Vec<i64>, row: &FrequencyRow, first: u32) -> Result<(), AllocError>
    requires { IsSoundRun row.now }
    ensures { OnOk result (shifts.new.items ≡ shifts.old.items ++ map (λ start. pos start -ℤ pos first) (run_starts row.now)) }
{
    for run in 0..runs_in(row) {
        shifts.push(shift_of(row.start + run * row.headway, first))?;
    }
    Ok(())
}

// The shifts of the rows' runs against the first departure, in seconds.
fn shifts_against(alloc: Global, rows: &[FrequencyRow], first: u32) -> Result<Vec<i64>, AllocError>
    requires { All IsSoundRun rows.now }
    ensures { IfOk result (λ shifts. shifts.items ≡ shifts_against first rows.now) }
{
    let mut shifts = Vec::new(alloc);
    for row in rows {
        push_shifts(&mut shifts, row, first)?;
    }
    Ok(shifts)
}

// Puts the numbers in ascending order, each once.
fn put_in_order(numbers: &mut Vec<i64>)
    ensures { numbers.new.items ≡ ascending_of numbers.old.items }
{
    numbers.sort_unstable();
    numbers.dedup();
}

// The numbers, which ascend.
fn kept(alloc: Global, numbers: &[i64]) -> Result<Shifts, AllocError>
    requires { IsAscending int_cmp numbers.now }
    ensures { IfOk result (λ shifts. shifts ≡ numbers.now) }
{
    let mut shifts = Shifts::empty(alloc);
    for i in 0..numbers.len() {
        shifts.push(numbers[i])?;
    }
    Ok(shifts)
}

/// The shifts of the rows' runs against the first departure, in seconds, ascending, each once.
///
/// # Errors
/// Want of memory.
#[tactic(auto, using(crate::proofs::RunLaws::ascending_runs))]
pub fn shifts_of_runs(
    alloc: Global,
    rows: &[FrequencyRow],
    first: u32,
) -> Result<Shifts, AllocError>
    requires { All IsSoundRun rows.now }
    ensures { IfOk result (λ shifts. shifts ≡ ascending_of (shifts_against first rows.now)) }
{
    let mut numbers = shifts_against(alloc, rows, first)?;
    put_in_order(&mut numbers);
    kept(alloc, numbers.as_slice())
}

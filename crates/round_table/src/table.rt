//! The labels of a table by round and stop.
ghost use Rattle.std.specs.Prelude.{◌≡◌, ◌<◌, ◌^◌, length, slice_get, IfOk, Some};
ghost use Rattle.plain_laws.specs.Plain.{ids_where};
ghost use Rattle.round_table.specs.Finals.{finals_of};
ghost use Rattle.round_table.specs.Labels.{label_of, labels_of};
ghost use Rattle.round_table.specs.Tables.{is_at, table_by, table_in};

use fare_tariff::Fare;
use feed_rows::Move;
use round_terms::{Final, Label};
use std::alloc::{AllocError, Global};
use std::marker::Model;
use transit_base::StopId;

/// The labels of a search by number, and what is found. Contracts see it as such a table, with the numbers of the labels of each
/// round at each stop.
pub struct RoundTable {
    labels: Vec<Label<Fare, Move>>,
    finals: Vec<Final>,
}

// Written out, so that what holds one needn't look into it to let go of it.
impl Drop for RoundTable {
    fn drop(self) {
        let RoundTable {
            labels: _,
            finals: _,
        } = self;
    }
}

impl Model for RoundTable {
    ghost use Rattle.std.specs.Prelude.{◌<◌, ◌^◌, length};
    ghost use Rattle.round_table.specs.Tables.{TableParts};

    ghost Value = { TableParts };

    ghost view = { λ s. record { labels = s.labels.items; finals = s.finals.items } };

    ghost invariant = { λ s. length s.labels.items < 2 ^ 32 };
}

/// Whether the label has so many rides and is at the stop.
fn is_at(label: &Label<Fare, Move>, rides: u8, stop: StopId) -> bool
    ensures { result ≡ is_at rides stop label.now }
{
    label.rides == rides && label.stop.0 == stop.0
}

/// The label with this number.
pub(crate) fn label_at(labels: &[Label<Fare, Move>], number: usize) -> &Label<Fare, Move>
    requires { number < length labels.now }
    ensures { slice_get labels.now number ≡ Some result.now }
{
    &labels[number]
}

/// The numbers of the labels that have so many rides and are at the stop, ascending.
fn numbers_at(
    alloc: Global,
    labels: &[Label<Fare, Move>],
    rides: u8,
    stop: StopId,
) -> Result<Vec<u32>, AllocError>
    requires { length labels.now < 2 ^ 32 }
    ensures { IfOk result (λ numbers. numbers.items ≡ ids_where (λ i. i) (is_at rides stop) labels.now) }
{
    let mut numbers = Vec::new(alloc);
    for number in 0..labels.len() {
        if is_at(label_at(labels, number), rides, stop) {
            numbers.push(number as u32)?;
        }
    }
    Ok(numbers)
}

impl RoundTable {
    /// The table of these labels and finals.
    pub fn of(labels: Vec<Label<Fare, Move>>, finals: Vec<Final>) -> RoundTable
        requires { length labels.items < 2 ^ 32 }
        ensures { table_by result ≡ table_in labels.items finals.items }
    {
        RoundTable { labels, finals }
    }

    /// The label with this number.
    pub fn label(&self, number: usize) -> &Label<Fare, Move>
        requires { number < length self.now.labels }
        ensures { slice_get (table_by self.now).labels number ≡ Some (label_of result.now) }
    {
        label_at(&self.labels, number)
    }

    /// All labels, by number.
    pub(crate) fn labels(&self) -> &[Label<Fare, Move>]
        ensures { labels_of result.now ≡ (table_by self.now).labels }
    {
        self.labels.as_slice()
    }

    /// How many labels there are.
    pub fn size(&self) -> usize
        ensures { result ≡ length (table_by self.now).labels }
    {
        self.labels.len()
    }

    /// The numbers of the labels that have so many rides and are at the stop, ascending. Each label is looked at.
    ///
    /// # Errors
    /// Want of memory.
    pub fn bag(&self, alloc: Global, rides: u8, stop: StopId) -> Result<Vec<u32>, AllocError>
        ensures { IfOk result (λ numbers. numbers.items ≡ (table_by self.now).bag rides stop) }
    {
        numbers_at(alloc, &self.labels, rides, stop)
    }

    /// What is found, in order.
    pub fn finals(&self) -> &[Final]
        ensures { finals_of result.now ≡ (table_by self.now).finals }
    {
        self.finals.as_slice()
    }
}

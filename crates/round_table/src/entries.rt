//! The entries of an answer, read off the labels that lead to them.
ghost use Rattle.std.specs.Prelude.{◌≡◌, IfOk, IsSome, OnOk, Some};
ghost use Rattle.feed_rows.specs.FareSteps.{place_taken};
ghost use Rattle.feed_rows.specs.RoundTables.{entries_of, entry_of_final, start_at, traced, with_ride};
ghost use Rattle.round_table.specs.Entries.{part_of};
ghost use Rattle.round_table.specs.Finals.{final_of};
ghost use Rattle.round_table.specs.Labels.{labels_of};
ghost use Rattle.round_table.specs.Tables.{table_by};

use crate::table::{RoundTable, label_at};
use fare_tariff::Fare;
use feed_rows::{
    ChangeChoice, ChangeChoices, Choice, Entry, Journey, LegChoice, LegChoices, Move, Ride,
    RideList,
};
use round_terms::{Final, Label};
use std::alloc::{AllocError, Global};
use transit_base::StopId;

/// A partial journey: its first stop, its rides, and how they are paid.
#[derive(Drop)]
pub struct Part {
    pub first: StopId,
    pub rides: RideList,
    pub choice: Choice,
}

impl Part {
    /// That without rides from a stop.
    fn start(alloc: Global, first: StopId) -> Part
        ensures { part_of result ≡ start_at first }
    {
        Part {
            first,
            rides: RideList::empty(alloc),
            choice: Choice {
                legs: LegChoices::empty(alloc),
                changes: ChangeChoices::empty(alloc),
            },
        }
    }

    /// Adds one more ride, and what pays it.
    fn push(&mut self, ride: Ride, taken: &Move) -> Result<(), AllocError>
        ensures { OnOk result (part_of self.new ≡ with_ride (part_of self.old) ride taken.now) }
    {
        if !self.choice.legs.items().is_empty() || taken.xfer.is_some() {
            self.choice.changes.push(place_of(taken))?;
        }
        self.rides.push(ride)?;
        self.choice.legs.push(LegChoice {
            rule: taken.rule,
            product: taken.product,
        })
    }

    /// The partial journey of the label with this number, which has so many rides.
    ///
    /// # Errors
    /// Want of memory.
    pub fn of(
        alloc: Global,
        labels: &[Label<Fare, Move>],
        number: u32,
        rides: u8,
    ) -> Result<Part, AllocError>
        requires { IsSome (traced (labels_of labels.now) rides number) }
        ensures { IfOk result (λ part. traced (labels_of labels.now) rides number ≡ Some (part_of part)) }
    {
        let label = label_at(labels, number as usize);
        if rides == 0 {
            return Ok(Part::start(alloc, label.stop));
        }
        match (label.parent, label.ride, &label.taken) {
            (Some(parent), Some(ride), Some(taken)) => {
                let mut part = Part::of(alloc, labels, parent, rides - 1)?;
                part.push(ride, taken)?;
                Ok(part)
            }
            _ => unreachable!(),
        }
    }
}

/// What fills the place of the change to the leg.
fn place_of(taken: &Move) -> Option<ChangeChoice>
    ensures { result ≡ place_taken taken.now }
{
    taken.xfer.map(|rule| ChangeChoice {
        rule,
        product: taken.xfer_product,
    })
}

impl RoundTable {
    /// The entry by which a final ends.
    ///
    /// # Errors
    /// Want of memory.
    pub fn entry(&self, alloc: Global, end: &Final) -> Result<Entry, AllocError>
        requires { IsSome (entry_of_final (table_by self.now) (final_of end.now)) }
        ensures { IfOk result (λ entry. entry_of_final (table_by self.now) (final_of end.now) ≡ Some entry) }
    {
        let part = Part::of(alloc, self.labels(), end.label, end.triple.rides)?;
        Ok(Entry {
            triple: end.triple,
            journey: Journey {
                first: part.first,
                last: end.last,
                rides: part.rides,
            },
            choice: part.choice,
        })
    }

    /// The entries by which all finals end.
    ///
    /// # Errors
    /// Want of memory.
    pub fn entries(&self, alloc: Global) -> Result<Vec<Entry>, AllocError>
        requires { IsSome (entries_of (table_by self.now)) }
        ensures { IfOk result (λ entries. entries_of (table_by self.now) ≡ Some entries.items) }
    {
        let finals = self.finals();
        let mut entries = Vec::with_capacity(alloc, finals.len())?;
        for number in 0..finals.len() {
            entries.push(self.entry(alloc, &finals[number])?)?;
        }
        Ok(entries)
    }
}

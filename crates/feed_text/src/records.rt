//! The records of a text, one after another.
ghost use Rattle.std.specs.Prelude.{◌≡◌, ◌++◌, ◌∷◌, [], List, ℕ, Option, length, get_or, true, false, IfOk, IfErr, OnErr, OnOk};
ghost use Rattle.feed_faults.specs.Records.{FileTable, cut};
ghost use Rattle.csv.specs.Reading.{reader_source};
ghost use Rattle.feed_text.specs.Reader.{StandsBehind, GoesOn, Explains, is_going, last_record};

use csv::{ErrorKind, Reader, ReaderBuilder, StringRecord};
use std::alloc::{AllocError, Global};
use std::io::Read;
use std::marker::Model;
use std::snapshot::Snapshot;

// The text without the blanks at both ends.
#[cold]
#[inline(never)]
#[tactic(auto, unfolding(feed_faults::specs::Records::cut))]
fn trimmed(mut text: &[u8]) -> &[u8]
    ensures { result.now ≡ cut text.now }
{
    'start: while let [b' ' | b'\t', rest @ ..] = text {
        text = rest;
    }
    'end: while let [rest @ .., b' ' | b'\t'] = text {
        text = rest;
    }
    text
}

// The text without the blanks at both ends. Few texts have any, so that mostly two bytes are read, with one comparison each.
#[inline(always)]
#[tactic(auto, using(crate::proofs::CutLaws::cut_none, crate::proofs::CutLaws::cut_whole))]
fn cut_of(text: &[u8]) -> &[u8]
    ensures { result.now ≡ cut text.now }
{
    if text.is_empty() || (text[0] > b' ' && text[text.len() - 1] > b' ') {
        return text;
    }
    trimmed(text)
}

/// Why no record was read.
#[derive(Clone, Copy, PartialEq, Eq)]
pub enum RecordError {
    /// A record isn't UTF-8.
    NotText,
    /// The source failed, or memory is wanting.
    Stopped,
}

/// The records that csv reads from a source behind one byte order mark, of any length each, one at a time.
#[derive(Drop)]
pub struct Records<R> {
    reader: Reader<R>,
    row: StringRecord,
    going: bool,
}

impl<R: Read> Records<R> {
    /// Those of all that a source gives.
    pub fn of(alloc: Global, source: R) -> Records<R>
        ensures begins { StandsBehind R.remaining (R.remaining source) [] result }
        ensures going { is_going result ≡ true }
    {
        Records {
            reader: ReaderBuilder::new()
                .has_headers(false)
                .flexible(true)
                .from_reader(alloc, source),
            row: StringRecord::new(alloc),
            going: true,
        }
    }

    /// Reads the next record. Answers whether there is one. Behind the last one, and behind an error, nothing is asked of the
    /// source any more.
    ///
    /// # Errors
    /// The record isn't UTF-8; those of the source; want of memory.
    pub fn next(&mut self) -> Result<bool, RecordError>
        requires { is_going self.old ≡ true }
        ensures going { IfOk result (λ found. is_going self.new ≡ found) }
        ensures over { OnErr result (is_going self.new ≡ false) }
        ensures goes_on { IfOk result (λ found. (start : Option (List ℕ)) (table : FileTable) → StandsBehind R.remaining start table self.old → GoesOn R.remaining start table found self.new) }
        ensures why { IfErr result (λ error. (start : Option (List ℕ)) (table : FileTable) → StandsBehind R.remaining start table self.old → Explains start error) }
    {
        self.going = false;
        match self.reader.read_record(&mut self.row) {
            Ok(found) => {
                self.going = found;
                Ok(found)
            }
            Err(error) => match error.kind() {
                ErrorKind::Utf8 { .. } => Err(RecordError::NotText),
                _ => Err(RecordError::Stopped),
            },
        }
    }

    /// Gives the source back, from which as much was taken as the reading wanted.
    pub fn into_source(self) -> R
        ensures { result ≡ reader_source self.reader }
    {
        let Records {
            reader,
            row: _,
            going: _,
        } = self;
        reader.into_inner()
    }

    /// How many fields the last record has; one without a field counts as one with an empty field.
    pub fn len(&self) -> usize
        ensures { result ≡ length (last_record self.now) }
    {
        self.row.len().max(1)
    }

    /// A field of the last record, without the blanks at its ends; empty past its last one.
    #[inline(always)]
    pub fn field(&self, place: usize) -> &[u8]
        ensures { result.now ≡ get_or (last_record self.now) place [] }
    {
        match self.row.get(place) {
            Some(field) => cut_of(field.as_bytes()),
            None => &[],
        }
    }
}

/// The table of the records that were seen, of which nothing is kept: it is there for contracts alone, which see it as the
/// table.
#[derive(Drop)]
pub struct SeenTable {
    // A snapshot takes no bytes.
    records: Vec<Snapshot<StringRecord>>,
}

impl Model for SeenTable {
    ghost use Rattle.std.specs.Prelude.{map};
    ghost use Rattle.csv.specs.Records.{fields_of};
    ghost use Rattle.feed_faults.specs.Records.{FileTable};
    ghost use Rattle.feed_text.specs.Reader.{cut_record};

    ghost Value = { FileTable };

    ghost view = { λ seen. map (λ r. cut_record (fields_of r.value)) seen.records.items };
}

impl SeenTable {
    /// No record was seen yet.
    pub fn none(alloc: Global) -> SeenTable
        ensures { result ≡ [] }
    {
        SeenTable {
            records: Vec::new(alloc),
        }
    }

    /// Sees the last record that was read.
    ///
    /// # Errors
    /// More records than can be counted.
    pub fn see<R: Read>(&mut self, records: &Records<R>) -> Result<(), AllocError>
        ensures { OnOk result (self.new ≡ self.old ++ last_record records.now ∷ []) }
    {
        Ok(self.records.push(Snapshot::of(&records.row))?)
    }
}

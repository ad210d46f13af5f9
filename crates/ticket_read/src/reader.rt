//! The entries of a query that the lines of a text tell.
ghost use Rattle.std.specs.Prelude.{◌≡◌, ◌≤◌, length, map, option_map, IfOk, IfSome, List, Some};
ghost use Rattle.feed_rows.specs.JourneyEntries.{rides_price};
ghost use Rattle.feed_rows.specs.SoundFeed.{IsSoundFeed};
ghost use Rattle.plain_laws.specs.Plain.{when};
ghost use Rattle.transit_base.specs.declared.moments.Money.{Money};
ghost use Rattle.fare_timeframes.specs.BuiltTimeframes.{AreTimeframesOf};
ghost use Rattle.feed_rows.specs.Journeys.{asked};
ghost use Rattle.ticket_read.specs.Judgement.{IsNearQuery, judged, entry_of};
ghost use Rattle.feed_rows.specs.declared.fares.Entry.{Entry};
ghost use Rattle.ticket_read.specs.EntryTexts.{IsTextOf};
ghost use Rattle.ticket_read.specs.Readings.{start, closed, begun, told, read_line, read_entries};

use crate::drafts::{Draft, Item};
use crate::items::item_in;
use crate::journeys::{arrival_of, legs_of};
use crate::texts::is_text_of;
use fare_price::{Fares, verify};
use fare_timeframes::Timeframes;
use feed_rows::{Choice, Entries, Entry, Journey, Query, Ride, Triple};
use feed_timetable::Timetable;
use line_cuts::{field, line_parts};
use std::alloc::{AllocError, Global};
use std::marker::Model;
use transit_base::Money;

/// How far a text is read.
pub struct Reading {
    /// The entries whose lines all are read.
    pub done: Entries,
    /// What the lines of the entry after them tell.
    pub draft: Option<Draft>,
}

// Written out, so that what holds one needn't look into it to let go of it.
impl Drop for Reading {
    fn drop(self) {
        let Reading { done: _, draft: _ } = self;
    }
}

impl Reading {
    // The entries whose lines all are read.
    fn into_done(self) -> Entries
        ensures { result ≡ self.done }
    {
        let Reading { done, draft: _ } = self;
        done
    }
}

/// A query over a timetable, with what judges its entries. Contracts see it as the feed and the query.
pub struct Reader<'s, 'f> {
    timetable: &'s Timetable<'f>,
    query: &'s Query,
    timeframes: &'s Timeframes<'s>,
    fares: &'s Fares<'f>,
}

// Written out, so that what holds one needn't look into it to let go of it.
impl<'s, 'f> Drop for Reader<'s, 'f> {
    fn drop(self) {
        let Reader {
            timetable: _,
            query: _,
            timeframes: _,
            fares: _,
        } = self;
    }
}

impl<'s, 'f> Model for Reader<'s, 'f> {
    ghost use Rattle.std.specs.Prelude.{◌≡◌};
    ghost use Rattle.fare_timeframes.specs.BuiltTimeframes.{AreTimeframesOf};
    ghost use Rattle.feed_rows.specs.Journeys.{Asked, asked};
    ghost use Rattle.ticket_read.specs.Judgement.{IsNearQuery};

    ghost Value = { Asked };

    ghost view = { λ s. asked s.timetable.now s.query.now };

    ghost invariant = { λ s. IsNearQuery s.query.now × AreTimeframesOf s.timetable.now s.timeframes.now × (s.fares.now ≡ s.timetable.now) };
}

impl<'s, 'f> Reader<'s, 'f> {
    /// The reader for the query over the timetable, with its timeframes and fares.
    pub fn new(
        timetable: &'s Timetable<'f>,
        query: &'s Query,
        timeframes: &'s Timeframes<'s>,
        fares: &'s Fares<'f>,
    ) -> Reader<'s, 'f>
        requires near { IsNearQuery query.now }
        requires timeframes { AreTimeframesOf timetable.now timeframes.now }
        requires fares { fares.now ≡ timetable.now }
        ensures { result ≡ asked timetable.now query.now }
    {
        Reader {
            timetable,
            query,
            timeframes,
            fares,
        }
    }

    // The price of rides by a choice; none where one is no ride of the feed, or the choice doesn't pay them.
    fn price(
        &self,
        alloc: Global,
        rides: &[Ride],
        choice: &Choice,
    ) -> Result<Option<Money>, AllocError>
        requires few { length rides.now ≤ self.now.query.rides }
        ensures { IfOk result (λ price. option_map (λ (m : Money). m.0) price ≡ rides_price self.now.feed rides.now choice.now self.now.query.buyer) }
    {
        let Some(legs) = legs_of(alloc, self.timetable, self.timeframes, rides)? else {
            return Ok(None);
        };
        Ok(verify(self.fares, legs.as_slice(), choice, self.query.buyer))
    }

    // The entry of a journey and a choice; none where they are none of the query.
    #[tactic(auto, unfolding(crate::specs::Judgement::judged))]
    fn judge(
        &self,
        alloc: Global,
        journey: Journey,
        choice: Choice,
    ) -> Result<Option<Entry>, AllocError>
        ensures { IfOk result (λ entry. entry ≡ judged self.now.feed self.now.query journey choice) }
    {
        let Some(arrival) = arrival_of(self.timetable, self.query, &journey) else {
            return Ok(None);
        };
        let Some(price) = self.price(alloc, journey.rides.items(), &choice)? else {
            return Ok(None);
        };
        let triple = Triple {
            arrival,
            rides: journey.rides.items().len() as u8,
            price,
        };
        Ok(Some(Entry {
            triple,
            journey,
            choice,
        }))
    }

    // The entry that its lines tell; none where they tell none of the query.
    #[tactic(auto, unfolding(crate::specs::Judgement::entry_of))]
    fn entry_of(&self, alloc: Global, draft: Draft) -> Result<Option<Entry>, AllocError>
        ensures { IfOk result (λ entry. entry ≡ entry_of self.now.feed self.now.query draft) }
    {
        let Some(first) = draft.first else {
            return Ok(None);
        };
        let Some(last) = draft.last else {
            return Ok(None);
        };
        let journey = Journey {
            first,
            last,
            rides: draft.rides,
        };
        let choice = Choice {
            legs: draft.legs,
            changes: draft.changes,
        };
        self.judge(alloc, journey, choice)
    }

    // Closes the entry whose lines were read last, if there is one; whether it is one of the query.
    #[tactic(auto, unfolding(crate::specs::Readings::closed))]
    fn close(&self, alloc: Global, reading: &mut Reading) -> Result<bool, AllocError>
        ensures { IfOk result (λ is. when is reading.new ≡ closed self.now.feed self.now.query reading.old) }
    {
        let Some(draft) = reading.draft.take() else {
            return Ok(true);
        };
        let Some(entry) = self.entry_of(alloc, draft)? else {
            return Ok(false);
        };
        reading.done.push(entry)?;
        Ok(true)
    }

    // Goes on with the next entry; whether the one before it is one of the query.
    #[tactic(auto, unfolding(crate::specs::Readings::begun))]
    fn begin(&self, alloc: Global, reading: &mut Reading) -> Result<bool, AllocError>
        ensures { IfOk result (λ is. when is reading.new ≡ begun self.now.feed self.now.query reading.old) }
    {
        if !self.close(alloc, reading)? {
            return Ok(false);
        }
        reading.draft = Some(Draft::empty(alloc));
        Ok(true)
    }

    // Takes what a line tells; whether it can stand there.
    fn take(&self, alloc: Global, reading: &mut Reading, item: Item) -> Result<bool, AllocError>
        ensures { IfOk result (λ is. when is reading.new ≡ told self.now.feed self.now.query reading.old item) }
    {
        if let Item::Head = item {
            return self.begin(alloc, reading);
        }
        let Some(draft) = &mut reading.draft else {
            return Ok(false);
        };
        draft.add(item)?;
        Ok(true)
    }

    // Reads a line; not where it is no line of an entry, or ends the lines of what is no entry.
    #[tactic(auto, unfolding(crate::specs::Readings::read_line))]
    fn read_line(
        &self,
        alloc: Global,
        reading: &mut Reading,
        line: &[u8],
    ) -> Result<bool, AllocError>
        ensures { IfOk result (λ is. when is reading.new ≡ read_line self.now.feed self.now.query reading.old line.now) }
    {
        let Some(item) = item_in(self.timetable, alloc, line)? else {
            return Ok(false);
        };
        self.take(alloc, reading, item)
    }

    // The entries that the lines of a text tell; none where they tell none, or others than those of the query. Only what
    // the entries need is read, so a text that is not theirs may tell them too.
    #[tactic(auto, unfolding(crate::specs::Readings::read_entries))]
    fn read(&self, alloc: Global, text: &[u8]) -> Result<Option<Entries>, AllocError>
        ensures { IfOk result (λ entries. entries ≡ read_entries self.now.feed self.now.query text.now) }
    {
        let lines = line_parts(alloc, text)?;
        let mut reading = Reading {
            done: Entries::empty(alloc),
            draft: None,
        };
        for k in 1..lines.len() {
            let line = field(lines.as_slice(), k - 1);
            if !self.read_line(alloc, &mut reading, line)? {
                return Ok(None);
            }
        }
        if !self.close(alloc, &mut reading)? {
            return Ok(None);
        }
        Ok(Some(reading.into_done()))
    }

    /// The entries whose text this is, byte by byte. None exactly where it is the text of no list of entries of the query.
    ///
    /// # Errors
    /// Want of memory.
    pub fn entries(&self, alloc: Global, text: &[u8]) -> Result<Option<Entries>, AllocError>
        requires { IsSoundFeed self.now.feed }
        ensures told { IfOk result (λ read. IfSome read (λ entries. IsTextOf self.now.feed self.now.query entries text.now)) }
        ensures only { IfOk result (λ read. (entries : List Entry) → IsTextOf self.now.feed self.now.query entries text.now → read ≡ Some entries) }
    {
        let Some(entries) = self.read(alloc, text)? else {
            return Ok(None);
        };
        if is_text_of(alloc, self.timetable, entries.items(), text)? {
            return Ok(Some(entries));
        }
        Ok(None)
    }
}

//! A text read as an answer, line by line.
ghost use Rattle.std.specs.Prelude.{◌≡◌, ◌==◌, ◌+◌, Ok, IfOk, IfErr};
ghost use Rattle.answer_page.specs.Readings.{start, begun, has_rides, rides_in, riders_in, fares_sum, fare_units, leg_number, is_change, last_leg, is_changing, fits_fares, fits_steps, is_whole, follows_step, with_step, with_fare, framed, told, closed, read_line, answer_of, read_answer, IsRefusal};
ghost use Rattle.plain_laws.specs.Plain.{when};

use crate::answer::{Answer, AnswerLine, Entry, Fare, Frame, Head, Step};
use crate::lines::line_in;
use line_cuts::{field, line_parts};
use plain_laws::ItemList;
use std::alloc::{AllocError, Global};

/// Why a text wasn't read.
#[derive(Clone, Copy, PartialEq, Eq)]
pub enum ReadingError {
    /// It is no answer: this is the number of its first wrong line, counted from 1.
    Line(u64),
    /// Want of memory.
    NoMemory,
}

impl From<AllocError> for ReadingError {
    ghost use Rattle.std.specs.Prelude.{◌≡◌};
    ghost use Rattle.answer_page.specs.declared.reading.ReadingError.TheVariants.{NoMemory};

    ghost from_gives = { λ _ error. error ≡ NoMemory };

    fn from(_error: AllocError) -> ReadingError {
        ReadingError::NoMemory
    }
}

/// How far a text is read.
pub struct Reading<'t> {
    /// The entries whose lines all are read.
    pub entries: ItemList<Entry<'t>>,
    /// The entry whose lines are being read.
    pub current: Option<Entry<'t>>,
    /// What the line behind all entries told.
    pub labels: Option<u64>,
    /// Whether the text has ended.
    pub ended: bool,
}

// Written out, so that what holds one needn't look into it to let go of it.
impl Drop for Reading<'_> {
    fn drop(self) {
        let Reading {
            entries: _,
            current: _,
            labels: _,
            ended: _,
        } = self;
    }
}

// How many rides there are among the steps.
fn rides_in(steps: &[Step<'_>]) -> usize
    ensures { result ≡ rides_in steps.now }
{
    steps
        .iter()
        .filter(|step| matches!(step, Step::Ride(_)))
        .count()
}

// What a line of the tickets adds to the price.
fn fare_units(fare: &Fare<'_>) -> i64
    ensures { result ≡ fare_units fare.now }
{
    match fare {
        Fare::Rider(_) => 0,
        Fare::Bought(ticket) | Fare::Included(ticket) | Fare::Change(ticket) => ticket.amount.units,
    }
}

// What all tickets cost.
fn fares_sum(fares: &[Fare<'_>]) -> i128
    ensures { result ≡ fares_sum fares.now }
{
    let mut sum = 0i128;
    for fare in fares {
        sum += i128::from(fare_units(fare));
    }
    sum
}

// How many riders there are among the tickets.
fn riders_in(fares: &[Fare<'_>]) -> usize
    ensures { result ≡ riders_in fares.now }
{
    fares
        .iter()
        .filter(|fare| matches!(fare, Fare::Rider(_)))
        .count()
}

// The number of the leg whose line this is, or of the leg before the change; 0 of a rider.
fn leg_number(fare: &Fare<'_>) -> u64
    ensures { result ≡ leg_number fare.now }
{
    match fare {
        Fare::Rider(_) => 0,
        Fare::Bought(ticket) | Fare::Included(ticket) | Fare::Change(ticket) => ticket.number,
    }
}

// Whether the line is that of a change.
fn is_change(fare: &Fare<'_>) -> bool
    ensures { result ≡ is_change fare.now }
{
    matches!(fare, Fare::Change(_))
}

// The number of the last leg, if there is one.
fn last_leg(fares: &[Fare<'_>]) -> u64
    ensures { result ≡ last_leg fares.now }
{
    fares.last().map_or(0, leg_number)
}

// Whether the last line is that of a change, behind which a leg must stand.
fn is_changing(fares: &[Fare<'_>]) -> bool
    ensures { result ≡ is_changing fares.now }
{
    fares.last().is_some_and(is_change)
}

// Whether a number is the one behind another.
fn is_next(number: u64, before: u64) -> bool
    ensures { result ≡ (number == before + 1) }
{
    number != 0 && number - 1 == before
}

// Whether a line of the tickets may stand behind these: riders and legs count from 1, and a change stands between its leg and
// the next one.
fn fits_fares(fares: &[Fare<'_>], fare: &Fare<'_>) -> bool
    ensures { result ≡ fits_fares fares.now fare.now }
{
    match fare {
        Fare::Rider(rider) => {
            !is_changing(fares) && is_next(rider.number, riders_in(fares) as u64)
        }
        Fare::Bought(ticket) | Fare::Included(ticket) => { is_next(ticket.number, last_leg(fares)) }
        Fare::Change(ticket) => {
            !is_changing(fares) && ticket.number == last_leg(fares) && ticket.number != 0
        }
    }
}

// Whether a part of the way may stand behind another: nothing behind a stay, and no walk behind a walk.
fn follows_step(before: &Step<'_>, step: &Step<'_>) -> bool
    ensures { result ≡ follows_step before.now step.now }
{
    match before {
        Step::Stay(_) => false,
        Step::Walk(_) => matches!(step, Step::Ride(_)),
        Step::Ride(_) => !matches!(step, Step::Stay(_)),
    }
}

// Whether a part of the way may stand behind these.
fn fits_steps(steps: &[Step<'_>], step: &Step<'_>) -> bool
    ensures { result ≡ fits_steps steps.now step.now }
{
    match steps.last() {
        None => true,
        Some(before) => follows_step(before, step),
    }
}

impl<'t> Entry<'t> {
    // The entry of which the head alone is read.
    fn begun(alloc: Global, head: Head<'t>) -> Entry<'t>
        ensures { result ≡ begun head.entry }
    {
        Entry {
            head,
            steps: ItemList::empty(alloc),
            fares: ItemList::empty(alloc),
        }
    }

    // Whether all rides are read that its head tells.
    fn has_rides(&self) -> bool
        ensures { result ≡ has_rides self.now }
    {
        rides_in(self.steps.items()) as u64 == self.head.rides
    }

    // Whether all its lines are read: there is a way with as many rides as its head tells, and the tickets cost the price.
    #[tactic(auto, unfolding(crate::specs::Readings::is_whole))]
    fn is_whole(&self) -> bool
        ensures { result ≡ is_whole self.now }
    {
        let fares = self.fares.items();
        !self.steps.items().is_empty()
            && self.has_rides()
            && !is_changing(fares)
            && fares_sum(fares) == i128::from(self.head.price.units)
    }

    // Takes a part of the way; whether it may stand there.
    #[tactic(auto, unfolding(crate::specs::Readings::with_step))]
    fn take_step(&mut self, step: Step<'t>) -> Result<bool, AllocError>
        ensures { IfOk result (λ may. when may self.new ≡ with_step self.old step.entry) }
    {
        if !self.fares.items().is_empty() || !fits_steps(self.steps.items(), &step) {
            return Ok(false);
        }
        self.steps.push(step)?;
        Ok(true)
    }

    // Takes a line of the tickets; whether it may stand there.
    #[tactic(auto, unfolding(crate::specs::Readings::with_fare))]
    fn take_fare(&mut self, fare: Fare<'t>) -> Result<bool, AllocError>
        ensures { IfOk result (λ may. when may self.new ≡ with_fare self.old fare.entry) }
    {
        if !self.has_rides() || !fits_fares(self.fares.items(), &fare) {
            return Ok(false);
        }
        self.fares.push(fare)?;
        Ok(true)
    }
}

impl<'t> Reading<'t> {
    // Before any line.
    fn start(alloc: Global) -> Reading<'t>
        ensures { result ≡ start }
    {
        Reading {
            entries: ItemList::empty(alloc),
            current: None,
            labels: None,
            ended: false,
        }
    }

    // Closes the entry whose lines are read, if there is one; whether all its lines are.
    #[tactic(auto, unfolding(crate::specs::Readings::closed))]
    fn close(&mut self) -> Result<bool, AllocError>
        ensures { IfOk result (λ may. when may self.new ≡ closed self.old) }
    {
        let Some(entry) = self.current.take() else {
            return Ok(true);
        };
        if !entry.is_whole() {
            return Ok(false);
        }
        self.entries.push(entry)?;
        Ok(true)
    }

    // Takes a line that stands in no entry; whether it may stand there.
    #[tactic(auto, unfolding(crate::specs::Readings::framed))]
    fn take_frame(&mut self, alloc: Global, frame: Frame<'t>) -> Result<bool, AllocError>
        ensures { IfOk result (λ may. when may self.new ≡ framed self.old frame.entry) }
    {
        if !self.close()? {
            return Ok(false);
        }
        match frame {
            Frame::Head(head) => self.current = Some(Entry::begun(alloc, head)),
            Frame::Labels(labels) => self.labels = Some(labels),
            Frame::End => self.ended = true,
        }
        Ok(true)
    }

    // Takes a line; whether it may stand there. Nothing but the end stands behind what the search kept, and nothing behind the end.
    #[tactic(auto, unfolding(crate::specs::Readings::told))]
    fn take(&mut self, alloc: Global, line: AnswerLine<'t>) -> Result<bool, AllocError>
        ensures { IfOk result (λ may. when may self.new ≡ told self.old line.entry) }
    {
        if self.ended || (self.labels.is_some() && !matches!(line, AnswerLine::Frame(Frame::End))) {
            return Ok(false);
        }
        match line {
            AnswerLine::Step(step) => match &mut self.current {
                Some(entry) => entry.take_step(step),
                None => Ok(false),
            },
            AnswerLine::Fare(fare) => match &mut self.current {
                Some(entry) => entry.take_fare(fare),
                None => Ok(false),
            },
            AnswerLine::Frame(frame) => self.take_frame(alloc, frame),
        }
    }

    // Reads a line; whether it is one that may stand there.
    #[tactic(auto, unfolding(crate::specs::Readings::read_line))]
    fn read_line(&mut self, alloc: Global, line: &'t [u8]) -> Result<bool, AllocError>
        ensures { IfOk result (λ may. when may self.new ≡ read_line self.old line.now) }
    {
        match line_in(alloc, line)? {
            Some(told) => self.take(alloc, told),
            None => Ok(false),
        }
    }

    // What was read.
    fn into_answer(self) -> Answer<'t>
        ensures { result ≡ answer_of self.entry }
    {
        let Reading {
            entries,
            current: _,
            labels,
            ended: _,
        } = self;
        Answer { entries, labels }
    }
}

/// The answer whose text this is.
///
/// # Errors
/// The number of the first line that isn't one of an answer, or may not stand there, counted from 1; where the text ends too early,
/// that of the line behind its last line feed. Want of memory.
pub fn read_answer(alloc: Global, text: &[u8]) -> Result<Answer<'_>, ReadingError>
    ensures ok { IfOk result (λ answer. read_answer text.now ≡ Ok answer) }
    ensures err { IfErr result (IsRefusal (read_answer text.now)) }
{
    let lines = line_parts(alloc, text)?;
    let mut reading = Reading::start(alloc);
    for place in 0..lines.len() {
        if !reading.read_line(alloc, field(lines.as_slice(), place))? {
            return Err(ReadingError::Line(place as u64 + 1));
        }
    }
    if !reading.ended {
        return Err(ReadingError::Line(lines.len() as u64));
    }
    Ok(reading.into_answer())
}

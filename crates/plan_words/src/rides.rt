//! The words that name the rides of `price`.
ghost use Rattle.std.specs.Prelude.{◌≡◌, ◌<◌, ◌≤◌, IfOk, IfSome, Ok, Some, is_none, length, option_map, slice_get};
ghost use Rattle.plain_laws.specs.Plain.{find_below};
ghost use Rattle.feed_rows.specs.Limits.{most_rides};
ghost use Rattle.commands.specs.CommandWords.{word_at};
ghost use Rattle.commands.specs.NumberedItems.{read_at, read_each};
ghost use Rattle.feed_rows.specs.RideWords.{comma_before, ride_parts, sequence_value, ride_word};
ghost use Rattle.commands.specs.UsageFaults.{unless_fault};
ghost use Rattle.commands.specs.declared.usage.UsageFault.TheVariants as usage;
ghost use Rattle.plan_words.specs.Rides.{ride_of, parts_of, texts_of, rides_of, IsUsualRide, AreUsualRides};

use crate::values::{date_in, number_in};
use commands::UsageFault;
use feed_text::start_in;
use transit_base::Day;

/// A ride, as its word names it.
#[derive(Clone, Copy)]
pub struct RideWord<'a> {
    /// The id of its trip.
    pub trip: &'a [u8],
    /// Its service day.
    pub day: Day,
    /// The first departure of its run, in seconds of the service day, where the word gives one.
    pub start: Option<u32>,
    /// The stop_sequence of its boarding.
    pub from: u32,
    /// The stop_sequence of its alighting.
    pub to: u32,
}

// The greatest stop_sequence.
const MOST_SEQUENCE: u32 = 2_147_483_647;

/// The rides of `price`, in order, each read of its word where it is asked for.
#[derive(Drop)]
pub struct RideWords<'a> {
    texts: Vec<&'a str>,
}

impl<'a> RideWords<'a> {
    /// How many rides there are.
    pub fn count(&self) -> usize
        requires { AreUsualRides self.now }
        ensures { result ≡ length (rides_of self.now) }
    {
        self.texts.len()
    }

    /// A ride.
    pub fn ride(&self, number: usize) -> RideWord<'a>
        requires { number < length (rides_of self.now) }
        ensures value { slice_get (rides_of self.now) number ≡ Some (ride_of result) }
        ensures usual { IsUsualRide result }
    {
        match ride_at(self.texts.as_slice(), number) {
            Some(ride) => ride,
            None => unreachable!(),
        }
    }
}

// The parts of a ride's word.
#[derive(Clone, Copy)]
struct RideParts<'a> {
    trip: &'a [u8],
    date: &'a [u8],
    start: &'a [u8],
    from: &'a [u8],
    to: &'a [u8],
}

// The place of the last comma before place `end`.
#[tactic(auto, using(crate::proofs::RideLaws::last_below_next))]
fn comma_before(word: &[u8], end: usize) -> Option<usize>
    requires { end ≤ length word.now }
    ensures value { result ≡ comma_before word.now end }
    ensures within { IfSome result (λ comma. comma < end) }
{
    let mut comma = None;
    for i in 0..end {
        if word[i] == b',' {
            comma = Some(i);
        }
    }
    comma
}

// The parts of a word, which its last four commas part.
fn parts_of(word: &[u8]) -> Option<RideParts<'_>>
    ensures { option_map parts_of result ≡ ride_parts word.now }
{
    let fourth = comma_before(word, word.len())?;
    let third = comma_before(word, fourth)?;
    let second = comma_before(word, third)?;
    let first = comma_before(word, second)?;
    Some(RideParts {
        trip: &word[..first],
        date: &word[first + 1..second],
        start: &word[second + 1..third],
        from: &word[third + 1..fourth],
        to: &word[fourth + 1..],
    })
}

// A stop_sequence.
fn sequence_in(text: &[u8]) -> Option<u32>
    ensures value { result ≡ sequence_value text.now }
    ensures high { IfSome result (λ n. n ≤ 2_147_483_647) }
{
    number_in(text, 0, MOST_SEQUENCE)
}

// The ride that a word names.
#[tactic(auto, unfolding(feed_rows::specs::RideWords::ride_word))]
fn ride_in(word: &[u8]) -> Option<RideWord<'_>>
    ensures value { option_map ride_of result ≡ ride_word word.now }
    ensures usual { IfSome result IsUsualRide }
{
    let parts = parts_of(word)?;
    let day = date_in(parts.date)?;
    let start = start_in(parts.start)?;
    let from = sequence_in(parts.from)?;
    let to = sequence_in(parts.to)?;
    if parts.trip.is_empty() {
        return None;
    }
    Some(RideWord {
        trip: parts.trip,
        day,
        start,
        from,
        to,
    })
}

// The ride that the word of that number names.
fn ride_at<'a>(texts: &[&'a str], number: usize) -> Option<RideWord<'a>>
    requires { number < length texts.now }
    ensures value { option_map ride_of result ≡ ride_word (word_at (texts_of texts.now) number) }
    ensures usual { IfSome result IsUsualRide }
{
    ride_in(texts[number].as_bytes())
}

// The first word that names no ride.
fn first_unread(texts: &[&str]) -> Option<usize>
    ensures { result ≡ find_below (length (texts_of texts.now)) (λ i. is_none (read_at ride_word (texts_of texts.now) i)) }
{
    for i in 0..texts.len() {
        match ride_at(texts, i) {
            Some(_) => {}
            None => return Some(i),
        }
    }
    None
}

/// The rides that one to eight words name, or the first word that names none, counted from 1.
pub(crate) fn rides_in(texts: Vec<&str>) -> Result<RideWords<'_>, UsageFault>
    requires some { 1 ≤ length texts.items }
    requires few { length texts.items ≤ most_rides }
    ensures value { unless_fault result (λ rides. Ok (rides_of rides)) ≡ read_each ride_word usage.BadRide (texts_of texts.entry.items) }
    ensures usual { IfOk result AreUsualRides }
{
    match first_unread(texts.as_slice()) {
        Some(place) => Err(UsageFault::BadRide(place as u32 + 1)),
        None => Ok(RideWords { texts }),
    }
}

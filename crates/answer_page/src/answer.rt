//! Answers: journeys with their tickets.
use crate::excerpt::Excerpt;
use crate::stamps::Stamp;
use plain_laws::ItemList;

/// An amount of money, and how many thousandths it is.
#[derive(Drop)]
pub struct Amount<'t> {
    pub text: Excerpt<'t>,
    pub units: i64,
}

/// The first line of an entry.
#[derive(Drop)]
pub struct Head<'t> {
    /// Of a range: when one leaves.
    pub leave: Option<Stamp<'t>>,
    pub arrival: Stamp<'t>,
    pub rides: u64,
    pub price: Amount<'t>,
    pub currency: Excerpt<'t>,
}

/// A walk between two stops.
#[derive(Drop)]
pub struct Walk<'t> {
    pub from: Excerpt<'t>,
    pub to: Excerpt<'t>,
    pub seconds: i64,
}

/// A ride between two stops.
#[derive(Drop)]
pub struct Ride<'t> {
    pub trip: Excerpt<'t>,
    pub from: Excerpt<'t>,
    pub departure: Stamp<'t>,
    pub to: Excerpt<'t>,
    pub arrival: Stamp<'t>,
}

/// A part of the way.
#[derive(Drop)]
pub enum Step<'t> {
    /// The stop is the first and the last.
    Stay(Excerpt<'t>),
    Walk(Walk<'t>),
    Ride(Ride<'t>),
}

/// What is paid for a leg or a change.
#[derive(Drop)]
pub struct Ticket<'t> {
    /// That of the leg, or of the leg before the change.
    pub number: u64,
    /// Empty where a change has no product.
    pub product: Excerpt<'t>,
    /// Empty where the product names none.
    pub medium: Excerpt<'t>,
    pub amount: Amount<'t>,
}

/// Whose tickets follow.
#[derive(Drop)]
pub struct Rider<'t> {
    pub number: u64,
    /// The category, or `.` for none.
    pub category: Excerpt<'t>,
    pub sum: Amount<'t>,
}

/// A line of the tickets.
#[derive(Drop)]
pub enum Fare<'t> {
    Rider(Rider<'t>),
    /// A leg whose ticket is bought.
    Bought(Ticket<'t>),
    /// A leg that is included.
    Included(Ticket<'t>),
    Change(Ticket<'t>),
}

/// A journey with its tickets.
pub struct Entry<'t> {
    pub head: Head<'t>,
    pub steps: ItemList<Step<'t>>,
    pub fares: ItemList<Fare<'t>>,
}

// Written out, so that what holds one needn't look into it to let go of it.
impl Drop for Entry<'_> {
    fn drop(self) {
        let Entry {
            head: _,
            steps: _,
            fares: _,
        } = self;
    }
}

/// The journeys of an answer, in order.
pub struct Answer<'t> {
    pub entries: ItemList<Entry<'t>>,
    /// How many partial journeys the search kept, where that is told.
    pub labels: Option<u64>,
}

// Written out, so that what holds one needn't look into it to let go of it.
impl Drop for Answer<'_> {
    fn drop(self) {
        let Answer {
            entries: _,
            labels: _,
        } = self;
    }
}

/// A line that stands in no way and among no tickets.
#[derive(Drop)]
pub enum Frame<'t> {
    /// Another entry begins.
    Head(Head<'t>),
    /// How many partial journeys the search kept.
    Labels(u64),
    /// What stands behind the last line feed: nothing.
    End,
}

/// A line of an answer.
#[derive(Drop)]
pub enum AnswerLine<'t> {
    Frame(Frame<'t>),
    Step(Step<'t>),
    Fare(Fare<'t>),
}

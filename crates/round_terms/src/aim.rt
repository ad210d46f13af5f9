//! What the labels of a search are to cover.
use feed_rows::Triple;
use transit_base::Moment;

/// What the labels of a search are to cover. One that is to be whole is not loose, and no triples are given to it.
#[derive(Clone, Copy)]
pub struct Aim<'g> {
    /// All partial journeys but those that something found cuts off, in place of those alone that matter for the answer.
    pub whole: bool,
    /// Nothing: any finals will do.
    pub loose: bool,
    /// Triples of journeys that are known; whatever one of these is at most needs no label.
    pub given: &'g [Triple],
    /// How late a loose search looks.
    pub horizon: Option<Moment>,
}

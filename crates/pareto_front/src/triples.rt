//! The order in which triples are minimal, and the comparison of answers by their triples.
ghost use Rattle.std.specs.Prelude.{◌≡◌, List, map, true};
ghost use Rattle.std.specs.Bool.{Decides};
ghost use Rattle.feed_rows.specs.FeedRows.{FeedRows};
ghost use Rattle.feed_rows.specs.declared.journeys.Query.{Query};
ghost use Rattle.feed_rows.specs.declared.fares.Entry.{Entry};
ghost use Rattle.feed_rows.specs.ParetoTriples.{at_most, is_before};
ghost use Rattle.feed_rows.specs.JourneyEntries.{IsMinimal, IsExactAnswer};

use feed_rows::Triple;

// Whether each part of the one is at most the other's.
fn has_parts_at_most(one: Triple, other: Triple) -> bool
    ensures { result ≡ at_most one other }
{
    one.arrival <= other.arrival && one.rides <= other.rides && one.price <= other.price
}

/// Whether each part of the one is at most the other's: it arrives no later, needs no more rides and costs no more. Of two
/// minimal triples of one query that is so only where they are the same.
pub fn is_at_most(one: Triple, other: Triple) -> bool
    ensures value { result ≡ at_most one other }
    ensures minimal { (feed : FeedRows) (query : Query) → IsMinimal feed query one → IsMinimal feed query other → result ≡ true → one ≡ other }
{
    has_parts_at_most(one, other)
}

/// Whether the one stands before the other in an answer: by arrival, then rides, then price.
pub fn is_before(one: Triple, other: Triple) -> bool
    ensures { result ≡ is_before one other }
{
    one.arrival < other.arrival
        || (one.arrival == other.arrival
            && (one.rides < other.rides || (one.rides == other.rides && one.price < other.price)))
}

// Whether two lists of triples are the same.
fn are_equal(one: &[Triple], other: &[Triple]) -> bool
    ensures { Decides result (one.now ≡ other.now) }
{
    one == other
}

/// Whether two lists of triples are the same. Those of any two exact answers of one query are.
pub fn are_same_triples(one: &[Triple], other: &[Triple]) -> bool
    ensures value { Decides result (one.now ≡ other.now) }
    ensures exact { (feed : FeedRows) (query : Query) (xs ys : List Entry) → IsExactAnswer feed query xs → IsExactAnswer feed query ys → one.now ≡ map (λ e. e.triple) xs → other.now ≡ map (λ e. e.triple) ys → result ≡ true }
{
    are_equal(one, other)
}

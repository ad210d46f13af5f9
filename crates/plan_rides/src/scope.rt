//! For which queries runs are held.
ghost use Rattle.std.specs.Prelude.{◌≡◌};
ghost use Rattle.plan_patterns.specs.Spans.{IsUsualSpan};
ghost use Rattle.plan_rides.specs.InTime.{IsUsualQuery, deadline};
ghost use Rattle.plan_rides.specs.Scopes.{IsInScope, scope_of};

use feed_rows::Query;
use plan_patterns::Span;
use transit_base::{Moment, Secs, StopId};

/// For which queries runs are held: those from this stop, of so many rides at most, whose window lies within the span.
#[derive(Clone, Copy)]
pub struct Scope {
    pub from: StopId,
    /// The greatest number of rides.
    pub rides: u8,
    pub span: Span,
}

/// The latest moment at which a journey of the query may end.
pub fn deadline(query: &Query) -> Moment
    requires usual { IsUsualQuery query.now }
    ensures { result.0 ≡ deadline query.now }
{
    query.departure.plus(Secs(query.window))
}

impl Scope {
    /// For this query alone.
    pub fn of(query: &Query) -> Scope
        requires usual { IsUsualQuery query.now }
        ensures value { result ≡ scope_of query.now }
        ensures usual { IsUsualSpan result.span }
        ensures within { IsInScope result query.now }
    {
        Scope {
            from: query.from,
            rides: query.rides,
            span: Span {
                from: query.departure,
                until: deadline(query),
            },
        }
    }
}

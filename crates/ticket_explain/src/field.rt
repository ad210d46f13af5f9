//! The fields of a line.
ghost use Rattle.std.specs.Prelude.{◌≡◌, ◌≤◌, ◌+ℤ◌, pos};
ghost use Rattle.transit_base.specs.Limits.{most_time};
ghost use Rattle.feed_rows.specs.EntryText.{service_time_text};
ghost use Rattle.ticket_explain.specs.Fields.{field_text};

use transit_base::{Day, MOST_TIME, Moment, Money};

/// A field of a line, by what its text says. What has no text is an empty field.
#[derive(Clone, Copy)]
pub enum Field<'t> {
    Text(&'t [u8]),
    Number(u64),
    /// An amount of a currency with so many decimals.
    Amount(Money, u8),
    Date(Day),
    Moment(Moment),
    /// A second of the service day, as a time.
    Second(i64),
}

/// The second of the service day that is so many seconds after the first, as a time.
#[tactic(auto, using(crate::proofs::LineLaws::far_before, crate::proofs::LineLaws::far_past))]
pub fn start_time<'t>(shift: i64, first: u32) -> Field<'t>
    requires { first ≤ most_time }
    ensures { field_text result ≡ service_time_text (shift +ℤ pos first) }
{
    if shift < -i64::from(MOST_TIME) || shift > i64::from(MOST_TIME) {
        return Field::Text(b"");
    }
    Field::Second(shift + i64::from(first))
}

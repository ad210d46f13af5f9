//! The picture of all journeys by arrival and price.
ghost use Rattle.std.specs.Prelude.{◌≡◌, ◌++◌, OnOk};
ghost use Rattle.answer_page.specs.Charts.{arrivals, prices, start_html, label_html, end_html, mark_html, place_html, chart_html};
ghost use Rattle.answer_page.specs.Threads.{numbered};

use crate::answer::{Entry, Head};
use crate::markup::{CHART_END, CHART_START, MARK_END, MARK_LABEL, MARK_START};
use crate::page::{Page, Value, text};
use crate::scale::Scale;
use crate::stamps::seconds_shown;
use std::alloc::AllocError;

// From the first arrival to the last.
fn arrivals(entries: &[Entry<'_>]) -> Scale
    ensures { result ≡ arrivals entries.now }
{
    let mut scale = Scale::none();
    for entry in entries {
        scale = scale.with(entry.head.arrival.at, entry.head.arrival.at);
    }
    scale
}

// From the least price to the greatest.
fn prices(entries: &[Entry<'_>]) -> Scale
    ensures { result ≡ prices entries.now }
{
    let mut scale = Scale::none();
    for entry in entries {
        scale = scale.with(entry.head.price.units, entry.head.price.units);
    }
    scale
}

// Begins the mark of the journey of this number, so far from the left and from above.
fn write_start(
    page: &mut Page,
    number: u64,
    left: u32,
    above: u32,
    rides: u64,
) -> Result<(), AllocError>
    ensures { OnOk result (page.new ≡ page.old ++ start_html number left above rides) }
{
    page.fill(
        MARK_START,
        &[
            Value::Number(number),
            Value::Share(left),
            Value::Share(above),
            Value::Share(left),
            Value::Share(above),
            Value::Number(rides),
        ],
    )
}

// Adds the label of a mark.
fn write_label<'h>(
    page: &mut Page,
    left: u32,
    above: u32,
    head: &'h Head<'h>,
) -> Result<(), AllocError>
    ensures { OnOk result (page.new ≡ page.old ++ label_html left above head.now) }
{
    page.fill(
        MARK_LABEL,
        &[
            Value::Share(left),
            Value::Share(above),
            text(head.arrival.minute.bytes()),
            text(seconds_shown(&head.arrival.second)),
            text(head.price.text.bytes()),
        ],
    )
}

// Ends the mark of a journey.
fn write_end<'h>(page: &mut Page, number: u64, head: &'h Head<'h>) -> Result<(), AllocError>
    ensures { OnOk result (page.new ≡ page.old ++ end_html number head.now) }
{
    page.fill(
        MARK_END,
        &[
            Value::Number(number),
            text(head.arrival.date.bytes()),
            text(head.arrival.minute.bytes()),
            text(head.arrival.second.bytes()),
            Value::Number(head.rides),
            text(head.price.text.bytes()),
            text(head.currency.bytes()),
        ],
    )
}

// Adds the mark of the journey of this number, so far from the left and from above.
#[tactic(auto, unfolding(crate::specs::Charts::mark_html))]
fn write_mark(
    page: &mut Page,
    number: u64,
    left: u32,
    above: u32,
    head: &Head<'_>,
) -> Result<(), AllocError>
    ensures { OnOk result (page.new ≡ page.old ++ mark_html number left above head.now) }
{
    write_start(page, number, left, above, head.rides)?;
    write_label(page, left, above, head)?;
    write_end(page, number, head)
}

// Adds the mark of a journey: the later it arrives the farther right, and the more it costs the higher.
fn write_place(
    page: &mut Page,
    arrivals: Scale,
    prices: Scale,
    number: u64,
    entry: &Entry<'_>,
) -> Result<(), AllocError>
    ensures { OnOk result (page.new ≡ page.old ++ place_html arrivals prices number entry.now) }
{
    let left = arrivals.share(entry.head.arrival.at);
    let above = prices.rest(entry.head.price.units);
    write_mark(page, number, left, above, &entry.head)
}

// Adds the marks.
fn write_marks(page: &mut Page, entries: &[Entry<'_>]) -> Result<(), AllocError>
    ensures { OnOk result (page.new ≡ page.old ++ numbered (place_html (arrivals entries.now) (prices entries.now)) 1 entries.now) }
{
    let arrivals = arrivals(entries);
    let prices = prices(entries);
    for (place, entry) in entries.iter().enumerate() {
        write_place(page, arrivals, prices, place as u64 + 1, entry)?;
    }
    Ok(())
}

/// Adds the picture.
#[tactic(auto, unfolding(crate::specs::Charts::chart_html))]
pub fn write_chart(page: &mut Page, entries: &[Entry<'_>]) -> Result<(), AllocError>
    ensures { OnOk result (page.new ≡ page.old ++ chart_html entries.now) }
{
    page.fill(CHART_START, &[])?;
    write_marks(page, entries)?;
    page.fill(CHART_END, &[])
}

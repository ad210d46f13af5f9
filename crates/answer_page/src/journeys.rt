//! A journey on the page: its head, its line through time, its way and its tickets.
ghost use Rattle.std.specs.Prelude.{◌≡◌, ◌<◌, ◌++◌, OnOk, length};
ghost use Rattle.answer_page.specs.Journeys.{start_html, leave_html, end_html, head_html, journey_html, journey_at};

use crate::answer::{Entry, Head};
use crate::markup::{ALSO, ARRIVES, HEAD_END, JOURNEY_END, JOURNEY_START, LEAVES};
use crate::names::Names;
use crate::page::{Page, Value, text};
use crate::scale::Scale;
use crate::stamps::{Stamp, write_time};
use crate::tickets::write_tickets;
use crate::ways::{write_bars, write_way};
use std::alloc::AllocError;

// Adds when one leaves, where that is told.
fn write_leave(page: &mut Page, date: &[u8], leave: &Option<Stamp<'_>>) -> Result<(), AllocError>
    ensures { OnOk result (page.new ≡ page.old ++ leave_html date.now leave.now) }
{
    let Some(leave) = leave else {
        return Ok(());
    };
    page.fill(LEAVES, &[])?;
    write_time(page, leave, date)?;
    page.fill(ALSO, &[])
}

// Begins a journey, which is the one of this number.
fn write_start(page: &mut Page, number: u64) -> Result<(), AllocError>
    ensures { OnOk result (page.new ≡ page.old ++ start_html number) }
{
    page.fill(
        JOURNEY_START,
        &[
            Value::Number(number),
            Value::Number(number),
            Value::Number(number),
            Value::Number(number),
        ],
    )
}

// Ends the head: the rides and the price.
fn write_end<'h>(page: &mut Page, head: &'h Head<'h>) -> Result<(), AllocError>
    ensures { OnOk result (page.new ≡ page.old ++ end_html head.now) }
{
    page.fill(
        HEAD_END,
        &[
            Value::Number(head.rides),
            text(head.price.text.bytes()),
            text(head.currency.bytes()),
        ],
    )
}

// Adds the head.
#[tactic(auto, unfolding(crate::specs::Journeys::head_html))]
fn write_head(page: &mut Page, date: &[u8], number: u64, head: &Head<'_>) -> Result<(), AllocError>
    ensures { OnOk result (page.new ≡ page.old ++ head_html date.now number head.now) }
{
    write_start(page, number)?;
    write_leave(page, date, &head.leave)?;
    page.fill(ARRIVES, &[])?;
    write_time(page, &head.arrival, date)?;
    write_end(page, head)
}

/// Adds the journey at a place, whose number counts from 1.
#[tactic(auto, unfolding(crate::specs::Journeys::journey_html))]
pub fn write_journey(
    page: &mut Page,
    names: &Names,
    date: &[u8],
    times: Scale,
    entries: &[Entry<'_>],
    place: usize,
) -> Result<(), AllocError>
    requires { place < length entries.now }
    ensures { OnOk result (page.new ≡ page.old ++ journey_at names.now date.now times entries.now place) }
{
    let Some(entry) = entries.get(place) else {
        return Ok(());
    };
    let number = place as u64 + 1;
    write_head(page, date, number, &entry.head)?;
    write_bars(page, names, times, number, entry)?;
    write_way(page, names, date, entry)?;
    write_tickets(page, entry)?;
    page.fill(JOURNEY_END, &[])
}

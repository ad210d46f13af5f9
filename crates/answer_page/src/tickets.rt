//! The tickets of a journey on the page.
ghost use Rattle.std.specs.Prelude.{◌≡◌, ◌++◌, OnOk};
ghost use Rattle.std.specs.List.{flat_map};
ghost use Rattle.answer_page.specs.Tickets.{change_template, ticket_html, rider_html, fare_html, tickets_html};

use crate::answer::{Entry, Fare, Rider, Ticket};
use crate::markup::{
    BOUGHT, FREE_CHANGE, INCLUDED, PAID_CHANGE, REDUCED, RIDER, TICKETS_END, TICKETS_START,
};
use crate::page::{Page, Value, text};
use std::alloc::AllocError;

// The template of a change, by what it costs.
fn change_template(units: i64) -> &'static str
    ensures { result.now ≡ change_template units }
{
    if units < 0 {
        REDUCED
    } else if units == 0 {
        FREE_CHANGE
    } else {
        PAID_CHANGE
    }
}

// Adds a ticket, by its template.
fn write_ticket<'t>(
    page: &mut Page,
    template: &str,
    currency: &'t [u8],
    ticket: &'t Ticket<'t>,
) -> Result<(), AllocError>
    ensures { OnOk result (page.new ≡ page.old ++ ticket_html template.now currency.now ticket.now) }
{
    page.fill(
        template,
        &[
            Value::Number(ticket.number),
            text(ticket.product.bytes()),
            text(ticket.medium.bytes()),
            text(ticket.amount.text.bytes()),
            text(currency),
        ],
    )
}

// Adds whose tickets follow.
fn write_rider<'t>(
    page: &mut Page,
    currency: &'t [u8],
    rider: &'t Rider<'t>,
) -> Result<(), AllocError>
    ensures { OnOk result (page.new ≡ page.old ++ rider_html currency.now rider.now) }
{
    page.fill(
        RIDER,
        &[
            Value::Number(rider.number),
            text(rider.category.bytes()),
            text(rider.sum.text.bytes()),
            text(currency),
        ],
    )
}

// Adds a line of the tickets.
fn write_fare<'t>(page: &mut Page, currency: &'t [u8], fare: &'t Fare<'t>) -> Result<(), AllocError>
    ensures { OnOk result (page.new ≡ page.old ++ fare_html currency.now fare.now) }
{
    match fare {
        Fare::Rider(rider) => write_rider(page, currency, rider),
        Fare::Bought(ticket) => write_ticket(page, BOUGHT, currency, ticket),
        Fare::Included(ticket) => write_ticket(page, INCLUDED, currency, ticket),
        Fare::Change(ticket) => {
            write_ticket(page, change_template(ticket.amount.units), currency, ticket)
        }
    }
}

// Adds the lines of the tickets.
fn write_fares(page: &mut Page, currency: &[u8], fares: &[Fare<'_>]) -> Result<(), AllocError>
    ensures { OnOk result (page.new ≡ page.old ++ flat_map (fare_html currency.now) fares.now) }
{
    for fare in fares {
        write_fare(page, currency, fare)?;
    }
    Ok(())
}

/// Adds the tickets of a journey and their sum, where it has any.
#[tactic(auto, unfolding(crate::specs::Tickets::tickets_html))]
pub fn write_tickets(page: &mut Page, entry: &Entry<'_>) -> Result<(), AllocError>
    ensures { OnOk result (page.new ≡ page.old ++ tickets_html entry.now) }
{
    if entry.fares.items().is_empty() {
        return Ok(());
    }
    let currency = entry.head.currency.bytes();
    page.fill(TICKETS_START, &[])?;
    write_fares(page, currency, entry.fares.items())?;
    page.fill(
        TICKETS_END,
        &[text(entry.head.price.text.bytes()), text(currency)],
    )
}

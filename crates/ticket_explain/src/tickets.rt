//! The lines of a choice of tickets.
ghost use Rattle.std.specs.Prelude.{◌≡◌, ◌+◌, ◌<◌, ◌^◌, ◌++◌, ◌∷◌, [], IfOk, OnOk, codes, decimal, option_map, pos};
ghost use Rattle.plain_laws.specs.Plain.{when};
ghost use Rattle.feed_rows.specs.Lines.{fields_text};
ghost use Rattle.feed_rows.specs.MoneyText.{money_text};
ghost use Rattle.feed_rows.specs.FareSums.{transfer_kind, starts_chain, is_included_on_entry, is_included_on_leaving, is_charged};
ghost use Rattle.feed_rows.specs.EntryText.{ticket_fields, leg_line, change_fields, change_line, leg_lines, fare_lines};
ghost use Rattle.ticket_explain.specs.LineParts.{ended, kind_text, leg_cost, leg_head, change_head, leg_part, change_part};

use crate::field::Field;
use crate::line::Line;
use crate::lookups::{amount_of, item_at, medium_id, product_name, rule_kind};
use crate::text::Text;
use crate::travel::push_if;
use feed_rows::{CHANGE_ALONE, ChangeChoice, Choice, Feed, LegChoice, includes_leg_after};
use std::alloc::AllocError;
use transit_base::{Money, ProductRowId};

// Adds a product row with an amount, and ends the line; whether the feed has the row and what it names.
fn write_ticket(
    feed: &Feed,
    line: &mut Line,
    id: ProductRowId,
    amount: Money,
) -> Result<bool, AllocError>
    ensures { IfOk result (λ written. when written line.new ≡ ended line.old (ticket_fields feed.now id amount.0)) }
{
    let Some(row) = item_at(&feed.products, id.0 as usize) else {
        return Ok(false);
    };
    let Some(product) = product_name(feed, row) else {
        return Ok(false);
    };
    let Some(medium) = medium_id(feed, row) else {
        return Ok(false);
    };
    let fields = [
        Field::Number(u64::from(id.0) + 1),
        Field::Text(product),
        Field::Text(medium),
        Field::Amount(amount, feed.decimals),
    ];
    line.finish(&fields)?;
    Ok(true)
}

// How a leg is paid.
#[tactic(auto, unfolding(crate::specs::LineParts::kind_text))]
fn kind_text(charged: bool) -> &'static [u8]
    ensures { result.now ≡ kind_text charged }
{
    if charged { b"buy" } else { b"included" }
}

// What a leg's line says that it costs.
#[tactic(auto, unfolding(crate::specs::LineParts::leg_cost))]
fn leg_cost(feed: &Feed, charged: bool, product: ProductRowId) -> Money
    ensures { result.0 ≡ leg_cost feed.now charged product }
{
    if charged {
        amount_of(feed, product)
    } else {
        Money(0)
    }
}

// Writes the front of a leg's line.
#[tactic(auto, unfolding(crate::specs::LineParts::leg_head))]
fn write_leg_head(
    line: &mut Line,
    leg: usize,
    charged: bool,
    pick: LegChoice,
) -> Result<(), AllocError>
    requires { leg + 1 < 2 ^ 64 }
    ensures { OnOk result (line.new ≡ leg_head leg charged pick) }
{
    let fields = [
        Field::Number(leg as u64 + 1),
        Field::Text(kind_text(charged)),
        Field::Number(u64::from(pick.rule.0) + 1),
    ];
    line.begin(b"leg", &fields)
}

// Writes the line of a leg; whether the feed has what it says.
#[tactic(auto, using(crate::proofs::PartLaws::leg_line_of))]
fn write_leg(
    feed: &Feed,
    line: &mut Line,
    leg: usize,
    charged: bool,
    pick: LegChoice,
) -> Result<bool, AllocError>
    requires { leg + 1 < 2 ^ 64 }
    ensures { IfOk result (λ written. when written line.new ≡ leg_line feed.now leg charged pick) }
{
    write_leg_head(line, leg, charged, pick)?;
    write_ticket(
        feed,
        line,
        pick.product,
        leg_cost(feed, charged, pick.product),
    )
}

// Writes the front of a change's line.
#[tactic(auto, unfolding(crate::specs::LineParts::change_head))]
fn write_change_head(
    line: &mut Line,
    change: usize,
    kind: u8,
    pick: ChangeChoice,
) -> Result<(), AllocError>
    requires { change + 1 < 2 ^ 64 }
    ensures { OnOk result (line.new ≡ change_head change kind pick) }
{
    let fields = [
        Field::Number(change as u64 + 1),
        Field::Number(u64::from(kind)),
        Field::Number(u64::from(pick.rule.0) + 1),
    ];
    line.begin(b"change", &fields)
}

// Adds what stands for no product row, and ends the line.
fn write_no_ticket(line: &mut Line, decimals: u8) -> Result<(), AllocError>
    ensures { OnOk result (line.new ≡ line.old ++ fields_text (codes "-" ∷ [] ∷ [] ∷ money_text decimals (pos 0) ∷ [])) }
{
    let fields = [
        Field::Text(b"-"),
        Field::Text(b""),
        Field::Text(b""),
        Field::Amount(Money(0), decimals),
    ];
    line.finish(&fields)
}

// Adds a change's product row, or what stands for none, and ends the line; whether the feed has what it says.
fn write_change_ticket(
    feed: &Feed,
    line: &mut Line,
    product: Option<ProductRowId>,
) -> Result<bool, AllocError>
    ensures { IfOk result (λ written. when written line.new ≡ ended line.old (change_fields feed.now product)) }
{
    match product {
        Some(row) => write_ticket(feed, line, row, amount_of(feed, row)),
        None => {
            write_no_ticket(line, feed.decimals)?;
            Ok(true)
        }
    }
}

// Writes the line of an arranged change; whether the feed has what it says.
#[tactic(auto, using(crate::proofs::PartLaws::change_line_of, crate::proofs::PartLaws::change_line_none))]
fn write_change(
    feed: &Feed,
    line: &mut Line,
    change: usize,
    pick: ChangeChoice,
) -> Result<bool, AllocError>
    requires { change + 1 < 2 ^ 64 }
    ensures { IfOk result (λ written. when written line.new ≡ change_line feed.now change pick) }
{
    let Some(kind) = rule_kind(feed, pick.rule) else {
        return Ok(false);
    };
    write_change_head(line, change, kind, pick)?;
    write_change_ticket(feed, line, pick.product)
}

// The type of the row that is chosen for a change; none where none is.
#[tactic(auto, unfolding(feed_rows::specs::FareSums::transfer_kind))]
fn transfer_kind(feed: &Feed, choice: &Choice, change: usize) -> Option<u8>
    ensures { result ≡ transfer_kind feed.now choice.now change }
{
    let place = item_at(&choice.changes, change)?;
    let pick = (*place)?;
    rule_kind(feed, pick.rule)
}

// Whether the change that leads to a leg includes it.
fn is_included_on_entry(feed: &Feed, choice: &Choice, leg: usize) -> bool
    ensures { result ≡ is_included_on_entry (transfer_kind feed.now choice.now) leg }
{
    if leg == 0 {
        return false;
    }
    match transfer_kind(feed, choice, leg - 1) {
        Some(kind) => includes_leg_after(kind),
        None => false,
    }
}

// Whether a leg is the first of its chain.
#[tactic(auto, unfolding(feed_rows::specs::FareSums::starts_chain))]
fn starts_chain(feed: &Feed, choice: &Choice, leg: usize) -> bool
    ensures { result ≡ starts_chain (transfer_kind feed.now choice.now) leg }
{
    if leg == 0 {
        return true;
    }
    transfer_kind(feed, choice, leg - 1).is_none()
}

// Whether the change that follows a leg includes it, where it is the first of its chain.
fn is_included_on_leaving(feed: &Feed, choice: &Choice, leg: usize) -> bool
    ensures { result ≡ is_included_on_leaving (transfer_kind feed.now choice.now) leg }
{
    match transfer_kind(feed, choice, leg) {
        Some(kind) => kind == CHANGE_ALONE,
        None => false,
    }
}

// Whether a leg is charged.
#[tactic(auto, unfolding(feed_rows::specs::FareSums::is_charged))]
fn is_charged(feed: &Feed, choice: &Choice, leg: usize) -> bool
    ensures { result ≡ is_charged (transfer_kind feed.now choice.now) leg }
{
    !(is_included_on_entry(feed, choice, leg)
        || (starts_chain(feed, choice, leg) && is_included_on_leaving(feed, choice, leg)))
}

// Adds the line of a leg, where there is one.
#[tactic(auto, unfolding(crate::specs::LineParts::leg_part))]
fn push_leg(
    feed: &Feed,
    text: &mut Text,
    line: &mut Line,
    leg: usize,
    charged: bool,
    pick: Option<&LegChoice>,
) -> Result<(), AllocError>
    requires { leg + 1 < 2 ^ 64 }
    ensures { OnOk result (text.new ≡ text.old ++ leg_part feed.now leg charged (option_map (λ p. p.now) pick.entry)) }
{
    match pick {
        Some(pick) => {
            let written = write_leg(feed, line, leg, charged, *pick)?;
            push_if(text, line, written)
        }
        None => Ok(()),
    }
}

// Adds the line of a change, where there is one and it is arranged.
#[tactic(auto, unfolding(crate::specs::LineParts::change_part, crate::specs::LineParts::arranged_part))]
fn push_change(
    feed: &Feed,
    text: &mut Text,
    line: &mut Line,
    change: usize,
    place: Option<&Option<ChangeChoice>>,
) -> Result<(), AllocError>
    requires { change + 1 < 2 ^ 64 }
    ensures { OnOk result (text.new ≡ text.old ++ change_part feed.now change (option_map (λ p. p.now) place.entry)) }
{
    match place {
        Some(Some(pick)) => {
            let written = write_change(feed, line, change, *pick)?;
            push_if(text, line, written)
        }
        _ => Ok(()),
    }
}

// Adds the line of a leg, and that of the change after it, where it is arranged.
#[tactic(auto, unfolding(feed_rows::specs::EntryText::leg_lines, crate::specs::LineParts::leg_part, crate::specs::LineParts::change_part, crate::specs::LineParts::arranged_part))]
fn push_leg_lines(
    feed: &Feed,
    text: &mut Text,
    line: &mut Line,
    choice: &Choice,
    leg: usize,
) -> Result<(), AllocError>
    requires { leg + 1 < 2 ^ 64 }
    ensures { OnOk result (text.new ≡ text.old ++ leg_lines feed.now choice.now leg) }
{
    let charged = is_charged(feed, choice, leg);
    push_leg(feed, text, line, leg, charged, item_at(&choice.legs, leg))?;
    push_change(feed, text, line, leg, item_at(&choice.changes, leg))
}

/// Adds the fare lines of a choice.
///
/// # Errors
/// Want of memory.
#[tactic(auto, unfolding(feed_rows::specs::EntryText::fare_lines))]
pub fn push_fare_lines(
    feed: &Feed,
    text: &mut Text,
    line: &mut Line,
    choice: &Choice,
) -> Result<(), AllocError>
    ensures { OnOk result (text.new ≡ text.old ++ fare_lines feed.now choice.now) }
{
    for leg in 0..choice.legs.items().len() {
        push_leg_lines(feed, text, line, choice, leg)?;
    }
    Ok(())
}

//! The lines of a price.
ghost use Rattle.std.specs.Prelude.{◌≡◌, ◌++◌, ◌∷◌, [], IfOk, OnOk};
ghost use Rattle.std.specs.List.{concat};
ghost use Rattle.feed_rows.specs.Lines.{fields_text};
ghost use Rattle.feed_rows.specs.EntryText.{amount_text, currency_text};
ghost use Rattle.feed_rows.specs.PriceTexts.{price_text, uncovered_text};
ghost use Rattle.ticket_explain.specs.CommandLines.{price_line, price_lines, uncovered_lines};

use crate::field::Field;
use crate::line::Line;
use crate::lookups::currency;
use crate::text::Text;
use crate::tickets::push_fare_lines;
use feed_rows::{Choice, Feed};
use std::alloc::{AllocError, Global};
use transit_base::Money;

/// Adds an amount and the feed's currency, and ends the line.
///
/// # Errors
/// Want of memory.
pub fn write_sum(feed: &Feed, line: &mut Line, sum: Money) -> Result<(), AllocError>
    ensures { OnOk result (line.new ≡ line.old ++ fields_text (amount_text feed.now sum.0 ∷ currency_text feed.now ∷ [])) }
{
    let amount = Field::Amount(sum, feed.decimals);
    line.finish(&[amount, Field::Text(currency(feed))])
}

// Writes the line of the price of so many rides.
fn write_price(feed: &Feed, line: &mut Line, rides: usize, price: Money) -> Result<(), AllocError>
    ensures { OnOk result (line.new ≡ price_line feed.now rides price.0) }
{
    line.begin(b"price", &[Field::Number(rides as u64)])?;
    write_sum(feed, line, price)
}

// Adds the line of the price of so many rides, and those of the tickets of the choice that pays them.
fn push_price_lines(
    feed: &Feed,
    text: &mut Text,
    line: &mut Line,
    rides: usize,
    choice: &Choice,
    price: Money,
) -> Result<(), AllocError>
    ensures { OnOk result (text.new ≡ text.old ++ price_lines feed.now rides choice.now price.0) }
{
    write_price(feed, line, rides, price)?;
    text.push(line.bytes())?;
    push_fare_lines(feed, text, line, choice)
}

/// The lines of the price of so many rides, and of the tickets of the choice that pays them.
///
/// # Errors
/// Want of memory.
#[tactic(auto, using(crate::proofs::CommandLaws::price_joined))]
pub fn price_lines_of(
    alloc: Global,
    feed: &Feed,
    rides: usize,
    choice: &Choice,
    price: Money,
) -> Result<Text, AllocError>
    ensures lines { IfOk result (λ text. text ≡ price_lines feed.now rides choice.now price.0) }
    ensures text { IfOk result (λ text. concat text ≡ price_text feed.now rides choice.now price.0) }
{
    let mut text = Text::empty(alloc);
    let mut line = Line::empty(alloc);
    push_price_lines(feed, &mut text, &mut line, rides, choice, price)?;
    Ok(text)
}

/// The line of rides that no choice pays.
///
/// # Errors
/// Want of memory.
pub fn uncovered_lines_of(alloc: Global) -> Result<Text, AllocError>
    ensures lines { IfOk result (λ text. text ≡ uncovered_lines) }
    ensures text { IfOk result (λ text. concat text ≡ uncovered_text) }
{
    let mut text = Text::empty(alloc);
    text.push(b"uncovered\n")?;
    Ok(text)
}

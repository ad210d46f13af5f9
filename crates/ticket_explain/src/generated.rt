//! The lines of a plan over a generated feed.
ghost use Rattle.std.specs.Prelude.{◌≡◌, ◌++◌, ◌∷◌, [], IfOk, OnOk, codes, decimal, map};
ghost use Rattle.std.specs.List.{concat};
ghost use Rattle.transit_base.specs.DateTexts.{moment_text};
ghost use Rattle.feed_rows.specs.Lines.{line as line_text};
ghost use Rattle.feed_rows.specs.MoneyText.{money_text};
ghost use Rattle.feed_rows.specs.GeneratedTexts.{gen_line, triple_line, gen_text};
ghost use Rattle.ticket_explain.specs.CommandLines.{gen_lines};

use crate::field::Field;
use crate::line::Line;
use crate::text::Text;
use feed_rows::{Entry, Feed, Triple};
use std::alloc::{AllocError, Global};

// Writes the line of a generated feed.
fn write_gen(feed: &Feed, line: &mut Line) -> Result<(), AllocError>
    ensures { OnOk result (line.new ≡ gen_line feed.now) }
{
    let counts = [
        Field::Number(feed.stops.items().len() as u64),
        Field::Number(feed.routes.items().len() as u64),
        Field::Number(feed.trips.items().len() as u64),
        Field::Number(feed.stop_times.items().len() as u64),
    ];
    line.write(b"gen", &counts)
}

// Writes the line of a triple, whose price is in a currency with so many decimals.
fn write_triple(line: &mut Line, triple: Triple, decimals: u8) -> Result<(), AllocError>
    ensures { OnOk result (line.new ≡ line_text (codes "triple") (moment_text triple.arrival.0 ∷ decimal triple.rides ∷ money_text decimals triple.price.0 ∷ [])) }
{
    let fields = [
        Field::Moment(triple.arrival),
        Field::Number(u64::from(triple.rides)),
        Field::Amount(triple.price, decimals),
    ];
    line.write(b"triple", &fields)
}

// Adds the line of a triple.
#[tactic(auto, unfolding(feed_rows::specs::GeneratedTexts::triple_line))]
fn push_triple(
    feed: &Feed,
    text: &mut Text,
    line: &mut Line,
    triple: Triple,
) -> Result<(), AllocError>
    ensures { OnOk result (text.new ≡ text.old ++ triple_line feed.now triple ∷ []) }
{
    write_triple(line, triple, feed.decimals)?;
    text.push(line.bytes())
}

// Adds the lines of the entries' triples.
fn push_triples(
    feed: &Feed,
    text: &mut Text,
    line: &mut Line,
    entries: &[Entry],
) -> Result<(), AllocError>
    ensures { OnOk result (text.new ≡ text.old ++ map (triple_line feed.now) (map (λ entry. entry.triple) entries.now)) }
{
    for entry in entries {
        push_triple(feed, text, line, entry.triple)?;
    }
    Ok(())
}

// Adds the line of a generated feed, and those of the entries' triples.
fn push_gen_lines(
    feed: &Feed,
    text: &mut Text,
    line: &mut Line,
    entries: &[Entry],
) -> Result<(), AllocError>
    ensures { OnOk result (text.new ≡ text.old ++ gen_lines feed.now (map (λ entry. entry.triple) entries.now)) }
{
    write_gen(feed, line)?;
    text.push(line.bytes())?;
    push_triples(feed, text, line, entries)
}

/// The lines of a plan over a generated feed: how many rows its main files have, and the triples of the entries.
///
/// # Errors
/// Want of memory.
#[tactic(auto, using(crate::proofs::CommandLaws::gen_joined))]
pub fn gen_lines_of(alloc: Global, feed: &Feed, entries: &[Entry]) -> Result<Text, AllocError>
    ensures lines { IfOk result (λ text. text ≡ gen_lines feed.now (map (λ entry. entry.triple) entries.now)) }
    ensures text { IfOk result (λ text. concat text ≡ gen_text feed.now (map (λ entry. entry.triple) entries.now)) }
{
    let mut text = Text::empty(alloc);
    let mut line = Line::empty(alloc);
    push_gen_lines(feed, &mut text, &mut line, entries)?;
    Ok(text)
}

//! The lines of an audit.
ghost use Rattle.std.specs.Prelude.{◌≡◌, ◌++◌, ◌∷◌, [], IfOk, OnOk, map};
ghost use Rattle.std.specs.List.{flat_map};
ghost use Rattle.std.specs.Option.{option_to_list};
ghost use Rattle.plain_laws.specs.Plain.{when};
ghost use Rattle.ticket_explain.specs.CommandLines.{audit_lines, gap_line, idle_line};

use crate::field::Field;
use crate::line::Line;
use crate::lookups::stop_id;
use crate::text::Text;
use crate::travel::push_if;
use feed_rows::{Feed, Pair};
use std::alloc::{AllocError, Global};
use transit_base::RuleId;

// Writes the line of a pair of stops; whether the feed has them.
#[tactic(auto, unfolding(crate::specs::CommandLines::gap_line))]
fn write_gap(feed: &Feed, line: &mut Line, pair: Pair) -> Result<bool, AllocError>
    ensures { IfOk result (λ written. when written line.new ≡ gap_line feed.now pair) }
{
    let Some(from) = stop_id(feed, pair.from) else {
        return Ok(false);
    };
    let Some(to) = stop_id(feed, pair.to) else {
        return Ok(false);
    };
    line.write(b"gap", &[Field::Text(from), Field::Text(to)])?;
    Ok(true)
}

// Adds the line of a pair of stops.
fn push_gap(feed: &Feed, text: &mut Text, line: &mut Line, pair: Pair) -> Result<(), AllocError>
    ensures { OnOk result (text.new ≡ text.old ++ option_to_list (gap_line feed.now pair)) }
{
    let written = write_gap(feed, line, pair)?;
    push_if(text, line, written)
}

// Adds the lines of pairs of stops.
fn push_gaps(
    feed: &Feed,
    text: &mut Text,
    line: &mut Line,
    pairs: &[Pair],
) -> Result<(), AllocError>
    ensures { OnOk result (text.new ≡ text.old ++ flat_map (λ pair. option_to_list (gap_line feed.now pair)) pairs.now) }
{
    for pair in pairs {
        push_gap(feed, text, line, *pair)?;
    }
    Ok(())
}

// Adds the line of a rule.
fn push_idle(text: &mut Text, line: &mut Line, rule: RuleId) -> Result<(), AllocError>
    ensures { OnOk result (text.new ≡ text.old ++ idle_line rule ∷ []) }
{
    line.write(b"idle", &[Field::Number(u64::from(rule.0) + 1)])?;
    text.push(line.bytes())
}

// Adds the lines of rules.
fn push_idles(text: &mut Text, line: &mut Line, rules: &[RuleId]) -> Result<(), AllocError>
    ensures { OnOk result (text.new ≡ text.old ++ map idle_line rules.now) }
{
    for rule in rules {
        push_idle(text, line, *rule)?;
    }
    Ok(())
}

/// The lines of an audit: one for each pair of stops between which a ride can't be paid, and then one for each rule that no
/// ride selects.
///
/// # Errors
/// Want of memory.
pub fn audit_lines_of(
    alloc: Global,
    feed: &Feed,
    pairs: &[Pair],
    rules: &[RuleId],
) -> Result<Text, AllocError>
    ensures { IfOk result (λ text. text ≡ audit_lines feed.now pairs.now rules.now) }
{
    let mut text = Text::empty(alloc);
    let mut line = Line::empty(alloc);
    push_gaps(feed, &mut text, &mut line, pairs)?;
    push_idles(&mut text, &mut line, rules)?;
    Ok(text)
}

//! The lines that are written.
ghost use Rattle.std.specs.Prelude.{◌≡◌, IfOk, OnOk, string_bytes};
ghost use Rattle.commands.specs.CommandTexts.{usage_line, refused_line, place_text, check_text, stats_line};
ghost use Rattle.command_answers.specs.Written.{WritesLines};

use commands::{CommandOption, UsageFault, WordKind};
use feed_files::{ColumnName, FeedFault};
use feed_rows::Feed;
use folder_io::{Sink, Wrote};
use std::alloc::{AllocError, Global};
use ticket_explain::{Field, Line, Text};

/// The line of a usage fault.
pub fn usage_line_of(alloc: Global, fault: UsageFault) -> Result<String, AllocError>
    ensures { IfOk result (λ line. string_bytes line ≡ usage_line fault) }
{
    let name = fault.text();
    let argument = match fault {
        UsageFault::WrongWords => "-",
        UsageFault::BadDate => WordKind::Date.text(),
        UsageFault::BadTime => WordKind::Time.text(),
        UsageFault::BadRides => CommandOption::Rides.text(),
        UsageFault::BadWindow => CommandOption::Within.text(),
        UsageFault::BadFirst => WordKind::First.text(),
        UsageFault::BadLast => WordKind::Last.text(),
        UsageFault::BadSeed => WordKind::Seed.text(),
        UsageFault::BadLines => WordKind::Lines.text(),
        UsageFault::UnknownStop(word) | UsageFault::WrongStopKind(word) => {
            WordKind::Stop(word).text()
        }
        UsageFault::UnknownRider | UsageFault::RiderNeeded => CommandOption::Rider.text(),
        UsageFault::BadRide(k) | UsageFault::NoSuchRide(k) | UsageFault::NoChange(k) => {
            return format!(in alloc; "usage\t{name}\t{k}\n");
        }
    };
    format!(in alloc; "usage\t{name}\t{argument}\n")
}

// The column of a fault, as it is printed.
fn column_text(column: Option<ColumnName>) -> &'static str
    ensures { result.now ≡ place_text column }
{
    match column {
        None => "-",
        Some(column) => column.text(),
    }
}

/// The line of a fault of the feed.
pub fn refused_line_of(alloc: Global, fault: FeedFault) -> Result<String, AllocError>
    ensures { IfOk result (λ line. string_bytes line ≡ refused_line fault) }
{
    let number = fault.kind.number();
    let name = fault.kind.text();
    let file = fault.file.text();
    let row = fault.row;
    let column = column_text(fault.column);
    format!(in alloc; "refused\t{number}\t{name}\t{file}\t{row}\t{column}\n")
}

// Makes the line tell how many rows the main files of an accepted feed have.
fn write_counts(line: &mut Line, feed: &Feed) -> Result<(), AllocError>
    ensures { OnOk result (line.new ≡ check_text feed.now) }
{
    let counts = [
        Field::Number(feed.stops.items().len() as u64),
        Field::Number(feed.routes.items().len() as u64),
        Field::Number(feed.trips.items().len() as u64),
        Field::Number(feed.stop_times.items().len() as u64),
        Field::Number(feed.leg_rules.items().len() as u64),
        Field::Number(feed.transfer_rules.items().len() as u64),
    ];
    line.write(b"accepted", &counts)
}

/// The line of `check` for an accepted feed: how many rows its main files have.
pub fn check_line_of(alloc: Global, feed: &Feed) -> Result<Line, AllocError>
    ensures { IfOk result (λ line. line ≡ check_text feed.now) }
{
    let mut line = Line::empty(alloc);
    write_counts(&mut line, feed)?;
    Ok(line)
}

/// The last line of a plan with statistics: how many labels its table has.
pub fn stats_line_of(alloc: Global, labels: usize) -> Result<Line, AllocError>
    ensures { IfOk result (λ line. line ≡ stats_line labels) }
{
    let mut line = Line::empty(alloc);
    line.write(b"stats", &[Field::Number(labels as u64)])?;
    Ok(line)
}

/// Writes the lines of a text, each by one write, up to the first that fails.
pub fn write_text<S: Sink>(sink: &mut S, text: &Text) -> Wrote
    ensures { WritesLines (S.state sink.old) text.now (S.state sink.new) result }
{
    for number in 0..text.lines() {
        match sink.write(text.line(number)) {
            Wrote::Failed => return Wrote::Failed,
            Wrote::All => {}
        }
    }
    Wrote::All
}

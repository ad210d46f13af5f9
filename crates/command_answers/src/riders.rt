//! The rider category and the buyer that a query is for.
ghost use Rattle.std.specs.Prelude.{◌≡◌, ◌<◌, length, Some, None, count_by, option_map};
ghost use Rattle.std.specs.Option.{option_copied};
ghost use Rattle.plain_laws.specs.Plain.{find_below};
ghost use Rattle.feed_rows.specs.RowsById.{find_rider, is_default_rider};
ghost use Rattle.commands.specs.Queries.{chosen_buyer, chosen_rider};

use commands::UsageFault;
use feed_rows::{Buyer, Feed, RiderRow};
use transit_base::RiderId;

/// Who pays for the rider category that is chosen.
///
/// # Errors
/// As for the category.
pub fn chosen_buyer(feed: &Feed, id: Option<&[u8]>) -> Result<Buyer, UsageFault>
    ensures { result ≡ chosen_buyer feed.now (option_copied id.entry) }
{
    let rider = chosen_rider(feed, id)?;
    Ok(Buyer { rider })
}

/// The rider category with this id; where none is named, the one that is marked as default, or none where none is
/// marked.
///
/// # Errors
/// No category has the id; or none is named, and two or more are marked as default.
pub fn chosen_rider(feed: &Feed, id: Option<&[u8]>) -> Result<Option<RiderId>, UsageFault>
    ensures { result ≡ chosen_rider feed.now (option_copied id.entry) }
{
    match id {
        Some(named) => named_rider(feed, named),
        None => default_rider(feed),
    }
}

/// The rider category with this id.
fn named_rider(feed: &Feed, id: &[u8]) -> Result<Option<RiderId>, UsageFault>
    ensures { result ≡ chosen_rider feed.now (Some id.now) }
{
    match find_rider(feed, id) {
        Some(rider) => Ok(Some(rider)),
        None => Err(UsageFault::UnknownRider),
    }
}

/// The first rider category with this id.
fn find_rider(feed: &Feed, id: &[u8]) -> Option<RiderId>
    ensures { result ≡ find_rider feed.now id.now }
{
    let riders = feed.riders.items();
    for number in 0..riders.len() {
        if riders[number].id.bytes() == id {
            return Some(RiderId(number as u32));
        }
    }
    None
}

/// The rider category that is marked as default, if one is.
fn default_rider(feed: &Feed) -> Result<Option<RiderId>, UsageFault>
    ensures { result ≡ chosen_rider feed.now None }
{
    if marked_count(feed.riders.items()) > 1 {
        Err(UsageFault::RiderNeeded)
    } else {
        Ok(first_marked(feed))
    }
}

/// How many are marked as default.
fn marked_count(riders: &[RiderRow]) -> usize
    ensures { result ≡ count_by (λ (row : RiderRow). row.default) riders.now }
{
    riders.iter().filter(|row| row.default).count()
}

/// The first that is marked as default.
fn first_marked(feed: &Feed) -> Option<RiderId>
    ensures { result ≡ option_map (λ i. record { 0 = i }) (find_below (length feed.now.riders) (is_default_rider feed.now)) }
{
    let riders = feed.riders.items();
    for number in 0..riders.len() {
        if riders[number].default {
            return Some(RiderId(number as u32));
        }
    }
    None
}

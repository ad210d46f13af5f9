//! What it is enough to pay for each of some legs.
ghost use Rattle.std.specs.Prelude.{◌≡◌, IfOk};
ghost use Rattle.fare_price.specs.Known.{AreKnown};

use fare_automaton::KnownOptions;
use feed_rows::LegFacts;
use std::alloc::{AllocError, Global};

/// The numbers under which is kept what it is enough to pay for each leg.
///
/// # Errors
/// Want of memory.
pub fn know_all(
    alloc: Global,
    legs: &[LegFacts],
    known: &mut KnownOptions,
) -> Result<Vec<usize>, AllocError>
    ensures numbers { IfOk result (λ numbers. AreKnown known.new.lists legs.now numbers.items) }
    ensures terms { known.new.terms ≡ known.old.terms }
{
    let mut numbers = Vec::with_capacity(alloc, legs.len())?;
    for leg in legs {
        let number = known.know(alloc, leg)?;
        numbers.push(number)?;
    }
    Ok(numbers)
}

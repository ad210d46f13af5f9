//! Moves that a search needn't try beside another of the same ride.
ghost use Rattle.std.specs.Prelude.{◌≡◌, ◌<◌, true, length, ◌+ℤ◌, OnOk};
ghost use Rattle.fare_automaton.specs.Fewest.{AreFewerMoves};
ghost use Rattle.feed_rows.specs.SameStates.{same_parts};
ghost use Rattle.fare_tariff.specs.Moves.{HasBetter, betters};

use feed_rows::{FareState, Move};
use std::alloc::AllocError;

/// Whether each part of the states is the same.
#[inline(always)]
#[tactic(auto, unfolding(feed_rows::specs::SameStates::same_parts))]
fn same_parts(a: &FareState, b: &FareState) -> bool
    ensures { result ≡ same_parts a.now b.now }
{
    *a == *b
}

/// Whether the one leads to the same state of fares as the other, and neither pays more nor costs more.
#[tactic(auto, unfolding(crate::specs::Moves::betters, feed_rows::specs::Amounts::is_no_dearer))]
fn betters(a: &Move, b: &Move) -> bool
    ensures { result ≡ betters a.now b.now }
{
    a.paid.0 <= b.paid.0 && price(a) <= price(b) && same_parts(&a.state, &b.state)
}

/// What the move adds to the price, with what is held.
fn price(taken: &Move) -> i128
    ensures { result ≡ taken.now.paid.0 +ℤ taken.now.held.0 }
{
    i128::from(taken.paid.0) + i128::from(taken.held.0)
}

/// Whether a move before this one is as good as it.
fn is_bettered(moves: &[Move], number: usize) -> bool
    requires { number < length moves.now }
    ensures better { result ≡ true → HasBetter moves.now number }
    ensures none { HasBetter moves.now number → result ≡ true }
{
    for earlier in 0..number {
        if betters(&moves[earlier], &moves[number]) {
            return true;
        }
    }
    false
}

/// Replaces the moves by those of all that none before them is as good as.
///
/// # Errors
/// Want of memory.
pub(crate) fn best_into(all: &[Move], moves: &mut Vec<Move>) -> Result<(), AllocError>
    ensures { OnOk result (AreFewerMoves all.now moves.new.items) }
{
    moves.clear();
    for number in 0..all.len() {
        if !is_bettered(all, number) {
            moves.push(all[number])?;
        }
    }
    Ok(())
}

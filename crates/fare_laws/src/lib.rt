//! Laws of fares leg by leg: what a fare state of legs decides of the change to the next leg, and that the moves after it
//! are exactly what extends a choice that pays those legs. What the crate holds is definitions, in `specs/`, and lemmas,
//! in `proofs/`, and these are its interface.
#![tactic(auto)]

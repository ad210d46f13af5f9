//! Laws of searches by rounds: how partial journeys go on by one ride and end, told by their labels alone, and that tables
//! whose labels are closed under such steps answer a query exactly. What the crate holds is definitions, in `specs/`, and
//! lemmas, in `proofs/`, and these are its interface.
#![tactic(auto)]

//! Laws about the definitions of `feed_rows`, as those who prove by them need them. What the crate holds is lemmas, in
//! `proofs/`, and these are its interface.
#![tactic(auto)]

//! Worked examples of the definitions of `feed_rows`: a wrong reading of one line of a definition is refused by one of them.
#![tactic(auto)]

//! Laws about searches that go on step by step, whatever they look for: what labels of ways cover, what they end in, and what a
//! search needn't look at.
#![tactic(auto)]

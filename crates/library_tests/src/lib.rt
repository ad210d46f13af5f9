//! Tests of what no case of the whole program reaches: of how arguments and files are read, where calls of the system fail, in
//! short pieces, and at limits; of labels and bags; of calls that only libraries take; and of plans by rounds beside those of a
//! plainer search.
#![tactic(auto)]

#[cfg(test)]
mod arguments;
#[cfg(test)]
mod bags;
#[cfg(test)]
mod drawn;
#[cfg(test)]
mod feeds;
#[cfg(test)]
mod folders;
#[cfg(test)]
mod labels;
#[cfg(test)]
mod loads;
#[cfg(test)]
mod moves;
#[cfg(test)]
mod pieces;
#[cfg(test)]
mod readings;
#[cfg(test)]
mod searches;
#[cfg(test)]
mod tables;

// What sequences of atomic patterns and patterns in round brackets make, for patterns and for the heads of functions.
#![tactic(auto)]

pub mod low_lists;
pub mod pattern_sequences;
pub mod round_patterns;

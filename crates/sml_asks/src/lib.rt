// The solver's calls for types of which it isn't known that they speak of its unknowns.
#![tactic(auto)]

pub mod asks;
mod known;
pub mod laws;
pub mod outcomes;

// The readings of modules, and what holds of them. Nothing here runs.
#![tactic(auto)]

pub mod laws;

// The readings of the core of the language, and what holds of them. Nothing here runs.
#![tactic(auto)]

pub mod laws;

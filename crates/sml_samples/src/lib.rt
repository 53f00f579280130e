// For each form of declaration one that is accepted and one that is refused. Nothing here runs.
#![tactic(auto)]

pub mod laws;

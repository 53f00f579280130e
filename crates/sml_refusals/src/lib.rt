// Where refusals stand, and which codes they have: definitions and laws. Nothing here runs.
#![tactic(auto)]

pub mod laws;

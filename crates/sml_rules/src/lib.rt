// The rules of the static semantics, and what a declaration is answered. Nothing here runs.
#![tactic(auto)]

pub mod laws;

// The bare declarations that a unit's tokens spell.
#![tactic(auto)]

pub mod laws;
pub mod parse;

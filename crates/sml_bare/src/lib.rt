// The bare declarations of a derivation.
#![tactic(auto)]

pub mod rules;
pub mod source;
pub mod whole;

// The warnings of matches and bindings, where what identifiers mean is what scopes tell.
#![tactic(auto)]

pub mod matches;
pub mod sorted;

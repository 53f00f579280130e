// The initial basis.
#![tactic(auto)]

pub mod initial;
mod table;

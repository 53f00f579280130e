//! Which new datatypes admit equality (the Definition, section 4.9).
#![tactic(auto)]

pub mod largest;
pub mod laws;
pub mod needs;
pub mod runs;
mod users;

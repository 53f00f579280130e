// What identifiers mean in the scopes that are open over a basis.
#![tactic(auto)]

pub mod laws;
pub mod scopes;
mod table;
pub mod values;

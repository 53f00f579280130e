// The derivations that a unit's tokens spell.
#![tactic(auto)]

mod alternatives;
mod cells;
mod core_sides;
pub mod grammar;
pub mod laws;
mod module_sides;
pub mod phrases;
pub mod read;
pub mod table;
pub mod tokens;

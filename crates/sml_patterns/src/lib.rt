// Redundant rules, and matches and bindings that aren't exhaustive, found by narrowing rows of patterns.
#![tactic(auto)]

mod apart;
mod column;
pub mod judge;
mod keys;
pub mod names;
mod plain;
mod search;
mod table;

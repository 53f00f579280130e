// Declarations of the first piece of the language, as trees of their own.
#![tactic(auto)]

mod expressions;
mod names;
pub mod pieces;
mod specifications;
mod types;

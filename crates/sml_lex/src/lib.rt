// The tokens of a unit, and the faults, places and warnings that every layer speaks of.
#![tactic(auto)]

mod bytes;
pub mod constants;
pub mod fault;
mod items;
pub mod laws;
pub mod lexer;
mod longest;
mod machine;
mod numbers;
mod pieces;
mod strings;
pub mod token;
mod words;

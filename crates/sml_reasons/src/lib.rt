// Why declarations are refused, in words.
#![tactic(auto)]

mod datatypes;
pub mod reasons;
mod words;

// The text of names, types and environments, version 1 of the replies.
#![tactic(auto)]

pub mod numerals;
pub mod texts;

// Replies: the text of what a declaration is answered, and the sinks that take it.
#![tactic(auto)]

pub mod form;
pub mod layer;
mod lines;
pub mod paths;
pub mod piece;
pub mod reply;
pub mod sink;
pub mod wording;

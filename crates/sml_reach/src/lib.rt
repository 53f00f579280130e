// What each sequence of expressions and patterns stands for: the directives in whose reach it stands, and the tree that obeys them.
#![tactic(auto)]

pub mod event;
pub mod fitted;
pub mod found;
pub mod laws;
pub mod names;
pub mod place;
pub mod reach;
pub mod sense;

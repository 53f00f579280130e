// What the phrases of a declaration make, each within the limit of heights, and the stack where they wait for the phrase that they are part of.
#![tactic(auto)]

pub mod lists;
pub mod low;
pub mod phrase;
pub mod puts;
pub mod raise;
pub mod stack;

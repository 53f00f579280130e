// Structures, functors and top-level declarations (the Definition, section 5.7).
#![tactic(auto)]

mod counts;
pub mod explain;
mod functors;
pub mod modules;
mod settled;
mod structures;

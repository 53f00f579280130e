// Environments, signatures, functors and bases of the whole language, and what identifiers mean in them.
#![tactic(auto)]

pub mod bases;
pub mod environments;
pub mod ground;
pub mod objects;
pub mod summaries;

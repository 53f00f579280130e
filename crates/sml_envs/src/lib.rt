// What is done with environments, signatures, functors and bases: replaced, numbered, compared.
#![tactic(auto)]

pub mod canonical;
pub mod comparisons;
pub mod extents;
pub mod mapping;
pub mod renaming;
pub mod sizes;

// The semantic objects of the static semantics (the Definition, sections 4.2 and 5.1).
#![tactic(auto)]

pub mod applications;
pub mod bases;
pub mod canonical;
pub mod canonical_laws;
pub mod comparisons;
pub mod environments;
pub mod equality;
pub mod fates;
pub mod labels;
pub mod laws;
pub mod named;
mod names;
pub mod objects;
mod renames;
pub mod renamings;
mod replacements;
pub mod schemes;
pub mod sizes;

// The trees of a unit: bare trees, in which every derived form is written out.
#![tactic(auto)]

pub mod bare;
pub mod clauses;
mod depths;
pub mod expressions;
pub mod height;
pub mod heights;
pub mod names;
pub mod patterns;
mod sides;
pub mod signatures;
pub mod structures;
pub mod types;
pub mod withtype;

// Rows of patterns, narrowed to those whose first pattern covers one constructor, row or value.
#![tactic(auto)]

pub mod constructors;
pub mod narrow;
pub mod pattern;

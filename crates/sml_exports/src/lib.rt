// What units export: whether it is the same as before, and the same at other places in the project file.
#![tactic(auto)]

pub mod comparison;
pub mod exports;
pub mod moved;
pub mod moves;
pub mod so_far;

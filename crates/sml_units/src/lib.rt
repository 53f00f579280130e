// Projects: their units in order, what their declarations are answered, and runs.
#![tactic(auto)]

pub mod again;
pub mod isolation;
pub mod laws;
mod needs;
pub mod project;
pub mod recheck;
pub mod run;
mod whole;

// Elaboration of the core (the Definition, sections 4.6 to 4.10).
#![tactic(auto)]

pub mod context;
pub mod declarations;
mod explicit;
mod expressions;
pub mod laws;
mod patterns;
pub mod recorder;
pub mod values;

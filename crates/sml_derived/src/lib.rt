// Derived forms: the bare tree that each of them stands for. (The Definition, appendix A.)
#![tactic(auto)]

pub mod constraint;
mod copies;
pub mod expander;
pub mod expressions;
pub mod functions;
pub mod laws;
pub mod modules;
pub mod patterns;
mod withtype;

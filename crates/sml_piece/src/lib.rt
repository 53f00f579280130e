// Elaboration: what a top-level declaration binds, or its first fault.
#![tactic(auto)]

mod expressions;
mod instances;
mod locals;
mod lookups;
mod matching;
pub mod modules;
mod realisations;
mod signatures;
pub mod top_fault;
mod types;

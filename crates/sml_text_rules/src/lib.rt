// What is printed of a basis, and under which names: definitions, samples of them, and laws. Nothing here runs.
#![tactic(auto)]

pub mod laws;

// Schemes of types that were read back from a graph of types.
#![tactic(auto)]

pub mod closing;

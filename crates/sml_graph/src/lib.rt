// The graph of types: nodes, the equations between them, what is asked of each, and their order.
#![tactic(auto)]

pub mod cell;
pub mod change;
pub mod demand;
pub mod fields;
mod finite;
pub mod graph;
mod intern;
pub mod laws;
pub mod limit_table;
pub mod limits;
pub mod merge;
pub mod node;
pub mod orders;
pub mod variables;

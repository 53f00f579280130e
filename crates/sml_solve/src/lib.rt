// Unification: what a declaration asks of its unknown types, and the types that meet it.
#![tactic(auto)]

pub use sml_graph::demand;
pub use sml_layers::{class, layer, variable};

mod read;
pub mod solver;

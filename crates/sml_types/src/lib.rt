// Type expressions, and bindings of types and datatypes (the Definition, sections 4.10 and 4.9, rules 27 to 30, 44 to 49).
#![tactic(auto)]

pub mod bindings;
pub mod datatypes;
pub mod fault;
pub mod rows;
pub mod scope;
pub mod sides;
pub mod sizes;
pub mod types;
pub mod variables;
pub mod written;

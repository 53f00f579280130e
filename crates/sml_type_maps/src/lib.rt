// Type functions, what maps make of types and schemes, the limit on sizes, and new type names.
#![tactic(auto)]

pub mod functions;
pub mod mapping;
pub mod new_names;
pub mod order;
pub mod realisation;
pub mod sizes;

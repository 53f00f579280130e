// What the closing of value declarations looks at in trees (the Definition, sections 4.6 and 4.7).
#![tactic(auto)]

pub mod expansive;
pub mod functions;
pub mod places;
pub mod unguarded;

// Signature expressions and specifications (the Definition, section 5.7, rules 62 to 84).
#![tactic(auto)]

mod asked;
mod bound;
pub mod counts;
mod draft;
mod layers;
mod mentions;
mod reading;
mod sharing;
pub mod sigs;
mod specs;
mod wheres;

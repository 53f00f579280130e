// Demands on a graph of types, and what they leave: levels, sizes, and types read back.
#![tactic(auto)]

pub mod count;
pub mod demands;
pub mod levels;
pub mod reach;
pub mod reading;
pub mod settling;

// The layers in which demands are met, the classes, and the explicit type variables. specs/ has the demands.
#![tactic(auto)]

pub mod class;
pub mod layer;
pub mod variable;

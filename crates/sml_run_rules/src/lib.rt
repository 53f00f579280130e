// What a project may be replied, and what is claimed of it: definitions. Nothing here runs.
#![tactic(auto)]

pub mod laws;

// Laws of what phrases of the core are answered. Nothing here runs.
#![tactic(auto)]

pub mod laws;

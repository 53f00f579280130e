// Laws of what phrases of modules are answered. Nothing here runs.
#![tactic(auto)]

pub mod laws;

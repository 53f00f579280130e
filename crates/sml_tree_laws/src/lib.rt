// Laws of the trees that parsing gives. Nothing in it runs.
#![tactic(auto)]

pub mod laws;

// Tests of sml_units: projects that are checked again in memory, with no session around them.
// They stand apart: a crate with tests is proved twice, and its wrong bodies wait for its tests.
#![tactic(auto)]

#[cfg(test)]
mod rechecks;

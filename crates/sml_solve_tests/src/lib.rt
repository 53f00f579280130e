// Tests of sml_objects and sml_solve. They stand apart: a crate with tests is proved twice, and its wrong bodies wait for
// its tests.
#![tactic(auto)]

#[cfg(test)]
mod objects;
#[cfg(test)]
mod script;
#[cfg(test)]
mod solver;

// Tests of the crates from sml_derived to sml_parse, and of sml_tree, whose trees are written as units.
// They stand apart: a crate with tests is proved twice, and its wrong bodies wait for its tests.
#![tactic(auto)]

#[cfg(test)]
mod derived_forms;
#[cfg(test)]
mod heights;
#[cfg(test)]
mod trees;
#[cfg(test)]
mod whole_forms;

// Tests of the crates from sml_lex to sml_read. They stand apart: a crate with tests is proved twice, and its wrong
// bodies wait for its tests.
#![tactic(auto)]

#[cfg(test)]
mod constants;
#[cfg(test)]
mod grammar;
#[cfg(test)]
mod infix;
#[cfg(test)]
mod tokens;

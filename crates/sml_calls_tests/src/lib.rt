// Tests of the public calls of elaboration over parsed declarations and the initial basis.
// They stand apart: a crate with tests is proved twice.
#![tactic(auto)]

#[cfg(test)]
mod calls;

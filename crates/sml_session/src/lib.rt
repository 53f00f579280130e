// A session: the words of a command line, a source of files and two sinks give a status.
#![tactic(auto)]

pub mod disk;
pub mod files;
pub mod session;
pub mod stops;
#[cfg(test)]
mod tests;

// The language server: from messages to what is checked, and to answers.
#![tactic(auto)]

pub mod board;
pub mod diagnostics;
pub mod files;
pub mod findings;
pub mod hover;
pub mod outline;
pub mod projects;
pub mod server;
pub mod session;
pub mod symbols;
pub mod telling;
pub mod works;

// From the words of a command line to what is shown of a project, and a status.
#![tactic(auto)]

pub mod command_line;
pub mod page;
pub mod records;
pub mod replies;
pub mod session;
pub mod show;

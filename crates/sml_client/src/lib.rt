// What the language server's client says, and what it is told: bytes, frames, messages and JSON.
#![tactic(auto)]

pub mod command_line;
pub mod documents;
pub mod frames;
pub mod heads;
pub mod messages;
pub mod paths;
pub mod positions;
pub mod published;
pub mod settings;
pub mod streams;
pub mod values;
pub mod written;

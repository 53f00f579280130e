//! Sessions over files in memory: what no system brings about.

mod command_lines;
mod fakes;
mod sinks;
mod sources;

// Project files: the units that they list, in which order these come, and the projects that they make.
#![tactic(auto)]

pub mod manifest;
pub mod orders;
pub mod project;
pub mod project_file;

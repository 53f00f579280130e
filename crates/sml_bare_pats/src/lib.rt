// What names, types and patterns make by their rules.
#![tactic(auto)]

pub mod name_rules;
pub mod pattern_parts;
pub mod pattern_rules;
pub mod type_rules;

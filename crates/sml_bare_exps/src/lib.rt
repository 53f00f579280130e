// What expressions make by their rules.
#![tactic(auto)]

pub mod atom_rules;
pub mod expression_rules;
pub mod expression_sequences;
pub mod low_forms;
pub mod rest_rules;

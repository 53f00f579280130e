// What declarations of the core make by their rules.
#![tactic(auto)]

pub mod clause_heads;
pub mod datatype_rules;
pub mod declaration_lists;
pub mod declaration_parts;
pub mod declaration_rules;
pub mod function_rules;
pub mod value_rules;

// What signatures, specifications, structures and units make by their rules.
#![tactic(auto)]

pub mod derived_specifications;
pub mod functor_rules;
pub mod module_stack;
pub mod signature_rules;
pub mod specification_rules;
pub mod structure_rules;
pub mod unit_rules;

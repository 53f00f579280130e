// Infix resolution: the tree that a sequence of operands and operators stands for, by level and side; the scopes of
// fixities; and the heads of clauses. (The Definition, section 2.6 and the grammars of appexp, infexp, pat and fmatch.)
#![tactic(auto)]

pub mod heads;
pub mod laws;
mod patterns;
mod roles;
pub mod scopes;
pub mod sequences;
pub mod shape;
mod table;

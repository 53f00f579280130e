// What a declaration may not bind or name.
#![tactic(auto)]

pub mod flaw;
pub mod flawed;
pub mod known;
pub mod mark;
pub mod role;
pub mod scopes;

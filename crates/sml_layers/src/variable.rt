//! Explicit type variables.

/// An explicit type variable of a declaration: its number there, and whether it admits equality (the Definition,
/// section 4.1).
#[derive(Clone, Copy, PartialEq, Eq)]
pub struct Variable {
    pub number: u32,
    pub equality: bool,
}

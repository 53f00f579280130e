//! What sequences of atomic phrases stand for.

use crate::heads::Head;
use crate::sequences::Operand;

/// What a sequence of atomic phrases stands for.
#[derive(Drop)]
pub enum Shape {
    /// The first atomic phrase alone.
    First,
    /// An expression or a pattern.
    Tree(Operand),
    /// The head of a clause.
    Head(Head),
}

//! What sequences of atomic phrases stand for, by declaration.

use sml_fixity::shape::Shape;

/// A sequence, by its first token.
#[derive(Drop)]
pub struct Fit {
    pub token: usize,
    pub shape: Shape,
}

/// A declaration whose sequences all stand for something: its first token, and what its sequences stand for, in the
/// order of the text.
#[derive(Drop)]
pub struct Fitted {
    pub begun: usize,
    pub fits: Vec<Fit>,
}

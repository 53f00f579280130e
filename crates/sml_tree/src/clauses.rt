//! Clauses of functions.

use crate::expressions::Exp;
use crate::patterns::Pat;
use crate::types::Ty;
use sml_lex::fault::Place;

/// A clause of a function: its place, its arguments, perhaps the type of its result, and its right side.
#[derive(Drop)]
pub struct Clause {
    pub place: Place,
    pub pats: Vec<Pat>,
    pub result: Option<Ty>,
    pub body: Exp,
}

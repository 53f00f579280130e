//! Type expressions.

use crate::bare::{Ident, LongIdent};
use crate::names::Name;
use sml_lex::fault::Place;

/// A type expression (the Definition, section 2.8). Each form begins with the place of its first token.
#[cycle(ty)]
#[derive(Drop)]
pub enum Ty {
    Variable(Place, Ident),
    Row(Place, Vec<TyField>),
    /// A row labelled from 1 on.
    Tuple(Place, Vec<Ty>),
    /// A type constructor after its arguments.
    Constructor(Place, Vec<Ty>, LongIdent),
    /// A type constructor that is bound after `withtype`, with another number of arguments than it has there.
    Misapplied(Place, Vec<Ty>, LongIdent),
    Arrow(Place, Box<Ty>, Box<Ty>),
    Bracket(Place, Box<Ty>),
}

/// A label and its type.
#[cycle(ty)]
#[derive(Drop)]
pub struct TyField {
    pub label: Name,
    pub ty: Ty,
}

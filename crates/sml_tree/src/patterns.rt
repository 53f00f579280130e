//! Special constants and patterns.

use crate::bare::{Ident, LongIdent};
use crate::names::Name;
use crate::types::Ty;
use sml_lex::fault::Place;

/// The kinds of special constants (the Definition, section 2.2).
#[derive(Clone, Copy, PartialEq, Eq)]
pub enum ConstantKind {
    Integer,
    Word,
    Real,
    String,
    Character,
}

/// A special constant, with the bytes that write it.
#[derive(Drop)]
pub struct Constant {
    pub kind: ConstantKind,
    pub literal: Ident,
}

/// A pattern (the Definition, section 2.8). Each form begins with the place of its first token. An identifier has a
/// place of its own too, since `op` may stand before it.
#[cycle(pat)]
#[derive(Drop)]
pub enum Pat {
    Wildcard(Place),
    Constant(Place, Constant),
    Identifier(Place, LongIdent),
    /// A row, and whether it ends in `...`.
    Row(Place, Vec<PatField>, bool),
    /// A row labelled from 1 on.
    Tuple(Place, Vec<Pat>),
    Bracket(Place, Box<Pat>),
    /// A constructor before its argument.
    Applied(Place, LongIdent, Box<Pat>),
    Typed(Place, Box<Pat>, Box<Ty>),
    /// `x as p` or `x : t as p`
    As(Place, Name, Option<Box<Ty>>, Box<Pat>),
}

/// A label and its pattern.
#[cycle(pat)]
#[derive(Drop)]
pub struct PatField {
    pub label: Name,
    pub pat: Pat,
}

//! Expressions, matches and declarations of the core.

use crate::bare::LongIdent;
use crate::names::Name;
use crate::patterns::{Constant, Pat};
use crate::types::Ty;
use crate::withtype::WithTypes;
use sml_lex::fault::Place;

/// An expression (the Definition, section 2.8). Each form begins with the place of its first token. An identifier has
/// a place of its own too, since `op` may stand before it.
#[cycle(exp)]
#[derive(Drop)]
pub enum Exp {
    Constant(Place, Constant),
    Identifier(Place, LongIdent),
    Row(Place, Vec<ExpField>),
    /// A row labelled from 1 on.
    Tuple(Place, Vec<Exp>),
    Let(Place, Vec<Dec>, Box<Exp>),
    Bracket(Place, Box<Exp>),
    Application(Place, Box<Exp>, Box<Exp>),
    Typed(Place, Box<Exp>, Box<Ty>),
    Handle(Place, Box<Exp>, Vec<Rule>),
    Raise(Place, Box<Exp>),
    Function(Place, Vec<Rule>),
}

/// A label and its expression.
#[cycle(exp)]
#[derive(Drop)]
pub struct ExpField {
    pub label: Name,
    pub exp: Exp,
}

/// A rule of a match.
#[cycle(exp)]
#[derive(Drop)]
pub struct Rule {
    pub place: Place,
    pub pat: Pat,
    pub exp: Exp,
}

/// A declaration of the core (section 2.8). Each form begins with the place of its first token.
#[cycle(exp)]
#[derive(Drop)]
pub enum Dec {
    /// The explicit type variables, the bindings before the first `rec`, and those after it.
    Value(Place, Vec<Name>, Vec<ValBind>, Vec<ValBind>),
    Type(Place, Vec<TypBind>),
    Datatype(Place, Vec<DatBind>),
    /// `datatype .. withtype ..`
    DatatypeWith(Place, WithTypes),
    /// `datatype t = datatype u`
    Replication(Place, Name, LongIdent),
    Exception(Place, Vec<ExnBind>),
    Local(Place, Vec<Dec>, Vec<Dec>),
    /// Declarations one after the other.
    Sequence(Place, Vec<Dec>),
    Open(Place, Vec<LongIdent>),
    /// A directive of fixity, which binds nothing.
    Fixity(Place),
}

/// A pattern and its right side.
#[cycle(exp)]
#[derive(Drop)]
pub struct ValBind {
    pub pat: Pat,
    pub exp: Exp,
}

/// Type variables, a type constructor and its right side.
#[derive(Drop)]
pub struct TypBind {
    pub variables: Vec<Name>,
    pub name: Name,
    pub ty: Ty,
}

/// Type variables, a type constructor and its constructors.
#[derive(Drop)]
pub struct DatBind {
    pub variables: Vec<Name>,
    pub name: Name,
    pub constructors: Vec<ConBind>,
}

/// A constructor, or an exception that is specified, and the type of its argument.
#[derive(Drop)]
pub struct ConBind {
    pub name: Name,
    pub argument: Option<Ty>,
}

#[derive(Drop)]
pub enum ExnBind {
    New(ConBind),
    /// `exception e = f`
    Copy(Name, LongIdent),
}

//! Signature expressions and specifications.

use crate::bare::{Ident, LongIdent};
use crate::expressions::{ConBind, DatBind};
use crate::names::Name;
use crate::types::Ty;
use sml_lex::fault::Place;

/// A signature expression (the Definition, section 3.4). Each form begins with the place of its first token.
#[cycle(sig)]
#[derive(Drop)]
pub enum SigExp {
    /// `sig .. end`
    Specs(Place, Vec<Spec>),
    Identifier(Place, Ident),
    WhereType(Place, Box<SigExp>, WhereType),
}

/// What stands after `where type`: type variables, a type constructor and a type.
#[derive(Drop)]
pub struct WhereType {
    pub variables: Vec<Name>,
    pub constructor: LongIdent,
    pub ty: Ty,
}

/// A specification (section 3.4). Each form begins with the place of its first token.
#[cycle(sig)]
#[derive(Drop)]
pub enum Spec {
    Value(Place, Vec<ValDesc>),
    Type(Place, Vec<TypDesc>),
    Eqtype(Place, Vec<TypDesc>),
    Datatype(Place, Vec<DatBind>),
    /// `datatype t = datatype u`
    Replication(Place, Name, LongIdent),
    Exception(Place, Vec<ConBind>),
    Structure(Place, Vec<StrDesc>),
    Include(Place, SigExp),
    SharingType(Place, Vec<LongIdent>),
    Sharing(Place, Vec<LongIdent>),
}

/// A variable and its type.
#[derive(Drop)]
pub struct ValDesc {
    pub name: Name,
    pub ty: Ty,
}

/// Type variables and a type constructor.
#[derive(Drop)]
pub struct TypDesc {
    pub variables: Vec<Name>,
    pub name: Name,
}

/// A structure identifier and its signature.
#[cycle(sig)]
#[derive(Drop)]
pub struct StrDesc {
    pub name: Name,
    pub signature: SigExp,
}

//! Structure expressions, and the declarations of structures, signatures and functors.

use crate::bare::LongIdent;
use crate::expressions::Dec;
use crate::names::Name;
use crate::signatures::SigExp;
use sml_lex::fault::Place;

/// `:` or `:>`
#[derive(Clone, Copy, PartialEq, Eq)]
pub enum Ascription {
    Transparent,
    Opaque,
}

/// A structure expression (the Definition, section 3.4). Each form begins with the place of its first token.
#[cycle(str)]
#[derive(Drop)]
pub enum StrExp {
    /// `struct .. end`
    Decs(Place, Vec<StrDec>),
    Identifier(LongIdent),
    Ascribed(Place, Box<StrExp>, Ascription, Box<SigExp>),
    /// The functor, and its argument.
    Application(Name, Box<StrExp>),
    Let(Place, Vec<StrDec>, Box<StrExp>),
}

/// A structure-level declaration (section 3.4).
#[cycle(str)]
#[derive(Drop)]
pub enum StrDec {
    Core(Dec),
    Structure(Place, Vec<StrBind>),
    Local(Place, Vec<StrDec>, Vec<StrDec>),
}

/// A structure identifier and its right side.
#[cycle(str)]
#[derive(Drop)]
pub struct StrBind {
    pub name: Name,
    pub body: StrExp,
}

/// A top-level declaration (section 3.4).
#[derive(Drop)]
pub enum TopDec {
    Structure(StrDec),
    Signature(Place, Vec<SigBind>),
    Functor(Place, Vec<FunBind>),
}

/// A signature identifier and its right side.
#[derive(Drop)]
pub struct SigBind {
    pub name: Name,
    pub signature: SigExp,
}

/// A functor identifier, its argument with the signature, and its right side.
#[derive(Drop)]
pub struct FunBind {
    pub name: Name,
    pub argument: Name,
    pub signature: SigExp,
    pub body: StrExp,
}

//! Bare declarations. Each phrase that a fault can name has its place, which counts from the first token of its
//! top-level declaration. Brackets are phrases of their own.

use sml_lex::fault::Place;
use std::rc::Rc;

/// An identifier: its bytes, shared by all phrases of a unit that write it.
pub type Ident = Rc<Vec<u8>>;

/// An identifier after a path of structures, perhaps an empty one.
#[derive(Drop)]
pub struct LongIdent {
    pub place: Place,
    pub path: Vec<Ident>,
    pub last: Ident,
}

/// An expression (the Definition, section 2.8).
#[derive(Drop)]
pub enum Exp {
    /// An integer.
    Number,
    Identifier(LongIdent),
    /// A row labelled from 1 on.
    Tuple(Vec<Exp>),
    /// An expression in so many pairs of brackets, each of which is a phrase.
    Brackets(Box<Exp>, u32),
    /// `fn x => e`
    Function(Ident, Box<Exp>),
}

/// A type expression (section 2.8).
#[derive(Drop)]
pub enum Ty {
    /// A type constructor without arguments.
    Constructor(LongIdent),
    /// A row labelled from 1 on.
    Tuple(Vec<Ty>),
    Arrow(Box<Ty>, Box<Ty>),
    Bracket(Box<Ty>),
}

/// A specification (section 3.4), with its place.
#[derive(Drop)]
pub struct Spec {
    pub place: Place,
    pub form: SpecForm,
}

#[derive(Drop)]
pub enum SpecForm {
    /// `type t`
    Type(Ident),
    /// `val x : ty`
    Value(Ident, Ty),
}

/// A signature expression (section 3.4), with its place: `sig .. end`.
#[derive(Drop)]
pub struct SigExp {
    pub place: Place,
    pub specs: Vec<Spec>,
}

/// A declaration of the core (section 2.8), with its place.
#[derive(Drop)]
pub struct CoreDec {
    pub place: Place,
    pub form: CoreForm,
}

#[derive(Drop)]
pub enum CoreForm {
    /// `val x = e`
    Value(Ident, Exp),
    /// `type t = ty`
    Type(Ident, Ty),
}

/// `structure S = e :> R`, where e is `struct .. end`.
#[derive(Drop)]
pub struct SealedStructure {
    pub name: Ident,
    pub signature: SigExp,
    pub body: Vec<CoreDec>,
}

/// A top-level declaration (section 3.4). Its place is 1.1.
#[derive(Drop)]
pub enum BareDec {
    Core(CoreDec),
    Structure(SealedStructure),
    /// One outside the piece of the language whose trees are made so far, with its place.
    Other(Place),
}

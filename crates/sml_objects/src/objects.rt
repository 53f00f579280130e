//! Type names, types, environments and bases. Objects are immutable and shared.

use crate::labels::Labels;
use sml_tree::bare::Ident;
use std::collections::BTreeMap;
use std::rc::Rc;

/// A unit: its place among the unit lines of its project, from 0.
#[derive(Clone, Copy, PartialEq, Eq, Hash, Debug)]
pub struct UnitId {
    pub index: u32,
}

/// An initial type name.
#[derive(Clone, Copy, PartialEq, Eq, Hash, Debug)]
pub enum Initial {
    Int,
    Word,
    Char,
    String,
    Bool,
    Exn,
    Real,
    List,
    Ref,
}

/// A type name that a unit made: its number there, counted from 0, and what it carries.
#[derive(Clone, Copy, PartialEq, Eq, Hash, Debug)]
pub struct MadeName {
    pub unit: UnitId,
    pub number: u32,
    pub arity: u32,
    pub equality: bool,
}

/// A type name.
#[derive(Clone, Copy, PartialEq, Eq, Hash, Debug)]
pub enum TyName {
    Initial(Initial),
    Made(MadeName),
}

/// A type. Variables are bound by the scheme around it, which numbers them from 0 by first appearance, or free.
#[derive(Drop)]
pub enum MlType {
    Bound(u32),
    Free(u32),
    /// A row: its labels, and their types in the same order.
    Row(Rc<Labels>, Vec<Rc<MlType>>),
    Arrow(Rc<MlType>, Rc<MlType>),
    /// A type name applied to types.
    Name(TyName, Vec<Rc<MlType>>),
}

/// A type scheme or a type function: its variables, each with its equality attribute, and its body.
#[derive(Drop)]
pub struct Scheme {
    pub variables: Vec<bool>,
    pub body: Rc<MlType>,
}

/// An environment: structures, type functions and schemes of values, by identifier.
#[derive(Drop)]
pub struct Env {
    pub structures: BTreeMap<Ident, Rc<Env>>,
    pub types: BTreeMap<Ident, Rc<Scheme>>,
    pub values: BTreeMap<Ident, Rc<Scheme>>,
}

/// A signature: the names that it binds, and its environment.
#[derive(Drop)]
pub struct Sig {
    pub names: Vec<TyName>,
    pub body: Env,
}

/// A basis of a unit: the type names that the unit made so far, and the environment. The unit's count is the number of
/// these names; each has a lower number.
#[derive(Drop)]
pub struct Basis {
    pub unit: UnitId,
    pub names: Vec<TyName>,
    pub env: Env,
}

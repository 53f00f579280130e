//! Environments, signatures, functors and bases. Objects are immutable and shared.

use sml_layers::class::Class;
use sml_objects::objects::{Scheme, TyName, UnitId};
use sml_tree::bare::Ident;
use std::collections::BTreeMap;
use std::rc::Rc;

/// The status of a value identifier. A constructor is the one of this number, from 0 in byte order, among so many of its
/// datatype. An overloaded identifier is a variable whose scheme has one variable, of a class.
#[derive(Clone, Copy, PartialEq, Eq)]
pub enum Status {
    Variable,
    Overloaded(Class),
    Constructor { number: u32, count: u32 },
    Exception,
}

/// A value identifier's scheme and status.
#[derive(Drop)]
pub struct Value {
    pub status: Status,
    pub scheme: Rc<Scheme>,
}

/// The constructors of a datatype, with their schemes.
pub type Constructors = BTreeMap<Ident, Rc<Scheme>>;

/// A type structure: a type function, and the constructors of its datatype, none for any other type.
#[derive(Drop)]
pub struct TypeStr {
    pub function: Rc<Scheme>,
    pub constructors: Rc<Constructors>,
}

/// What is kept of an environment where it is shared (`summaries`): how many lines of identifiers with paths it has in a reply,
/// or the greatest number of the type; and whether an unknown stands in the type of one of its values.
#[derive(Clone, Copy)]
pub(crate) struct Summary {
    pub(crate) lines: u32,
    pub(crate) has_unknown: bool,
}

/// An environment: structures, types and values, by identifier. The summary is no part of what it means, and stands for
/// nothing before the environment is shared.
#[derive(Drop)]
pub struct Env {
    pub structures: BTreeMap<Ident, Rc<Env>>,
    pub types: BTreeMap<Ident, TypeStr>,
    pub values: BTreeMap<Ident, Value>,
    pub(crate) summary: Summary,
}

/// A signature: the names that it binds, and its environment.
#[derive(Drop)]
pub struct Sig {
    pub names: Vec<TyName>,
    pub env: Rc<Env>,
}

/// A functor's signature: what it takes, and what it gives. The result mentions the names of the argument, and binds
/// those that are new at each application.
#[derive(Drop)]
pub struct FunSig {
    pub argument: Sig,
    pub result: Sig,
}

/// The identifiers of the constructors that a name's datatype gave it, in byte order; none for any other name.
pub type Carried = Option<Rc<Vec<Ident>>>;

/// A basis of a unit: how many type names the unit made that it exports, with what they carry beside what stands in them,
/// and what is bound. Each of these names has a lower number than the count, by which what it carries stands. What is bound hides what the bases below bind, and each of these what those before it do;
/// they have none below.
#[derive(Drop)]
pub struct Basis {
    pub unit: UnitId,
    pub count: u32,
    pub names: Vec<Carried>,
    pub below: Vec<Rc<Basis>>,
    pub env: Env,
    pub signatures: BTreeMap<Ident, Rc<Sig>>,
    pub functors: BTreeMap<Ident, Rc<FunSig>>,
}

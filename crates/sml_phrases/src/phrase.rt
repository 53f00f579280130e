//! What a phrase of the grammar makes, before it is part of another one. Lists go from their last element to their first.

ghost use Rattle.std.specs.Prelude.{◌≡◌};

use crate::low::{
    LowBind, LowBinds, LowClauses, LowConBinds, LowConstraint, LowDatBinds, LowDec, LowDecs,
    LowExnBinds, LowExp, LowExps, LowFields, LowFunBinds, LowPat, LowPatFields, LowPats, LowRules,
    LowSig, LowSigBinds, LowSpecs, LowStr, LowStrBinds, LowStrDec, LowStrDecs, LowStrDescs, LowTop,
    LowTy, LowTyFields, LowTypBinds, LowTys, LowValDescs, LowWhere,
};
use sml_lex::fault::{Memory, Place};
use sml_tree::bare::LongIdent;
use sml_tree::names::Name;
use sml_tree::patterns::Constant;
use sml_tree::signatures::TypDesc;
use std::alloc::{AllocError, AllocFailed};

/// Why a phrase isn't made: a tree would be higher than the limit, or a growth was refused.
#[derive(Clone, Copy, PartialEq, Eq, Drop)]
pub enum Failure {
    TooHigh,
    Memory,
}

impl From<AllocError> for Failure {
    ghost use Rattle.sml_phrases.specs.declared.phrase.Failure.TheVariants.{Memory};

    ghost from_gives = { λ _ e. e ≡ Memory };

    fn from(_error: AllocError) -> Failure {
        Failure::Memory
    }
}

impl<T: Drop> From<AllocFailed<T>> for Failure {
    ghost use Rattle.sml_phrases.specs.declared.phrase.Failure.TheVariants as F;

    ghost from_gives = { λ _ e. e ≡ F.Memory };

    fn from(_error: AllocFailed<T>) -> Failure {
        Failure::Memory
    }
}

impl From<Memory> for Failure {
    ghost use Rattle.sml_phrases.specs.declared.phrase.Failure.TheVariants as F;

    ghost from_gives = { λ _ e. e ≡ F.Memory };

    fn from(_error: Memory) -> Failure {
        Failure::Memory
    }
}

#[derive(Drop)]
pub enum Phrase {
    /// Nothing.
    Nothing,
    /// A token that is neither an identifier nor a constant.
    Word(Place),
    /// An identifier without a path, a type variable or a label.
    Name(Name),
    /// An identifier with or without a path.
    Long(LongIdent),
    /// A special constant.
    Constant(Constant),
    /// Identifiers or type variables.
    Names(Vec<Name>),
    /// Long identifiers.
    Longs(Vec<LongIdent>),
    Types(TypePhrase),
    Patterns(PatternPhrase),
    Expressions(ExpressionPhrase),
    Declarations(DeclarationPhrase),
    Signatures(SignaturePhrase),
    Structures(StructurePhrase),
}

#[derive(Drop)]
pub enum TypePhrase {
    /// A type expression.
    Ty(LowTy),
    /// Type expressions.
    Tys(LowTys),
    /// Fields of a record type.
    TyFields(LowTyFields),
    /// Types after the first one in round brackets, and the type constructor after these.
    Arguments(LowTys, LongIdent),
}

#[derive(Drop)]
pub enum PatternPhrase {
    /// A pattern.
    Pat(LowPat),
    /// Patterns.
    Pats(LowPats),
    /// Fields of a record pattern, and whether `...` stands after them.
    PatFields(LowPatFields, bool),
    /// Atomic patterns, and the types after colons that follow them.
    Atoms(LowPats, LowTys),
    /// A type after `:` and a pattern after `as`, if they are there.
    Layer(Box<Layer>),
    /// What stands after `op`: an identifier, atomic patterns, and types after colons.
    OpAtoms(LongIdent, LowPats, LowTys),
    /// What stands after `op`: an identifier, perhaps a type, and a pattern after `as`.
    OpLayer(Name, Box<Layer>),
}

/// A type after `:` and a pattern after `as`, if they are there.
#[derive(Drop)]
pub struct Layer {
    pub ty: Option<LowTy>,
    pub pat: Option<LowPat>,
}

#[derive(Drop)]
pub enum ExpressionPhrase {
    /// An expression.
    Exp(LowExp),
    /// Expressions.
    Exps(LowExps),
    /// Expressions between semicolons.
    Series(LowExps),
    /// Fields of a record.
    Fields(LowFields),
    /// Rules of a match.
    Rules(LowRules),
    /// What stands after an expression's first atomic one.
    Rest(Box<Rest>),
}

/// What stands after an expression's first atomic one: further atomic ones, the types after these, the right operands
/// of `andalso` and of `orelse`, and the match after `handle`.
#[derive(Drop)]
pub struct Rest {
    pub exps: LowExps,
    pub tys: LowTys,
    pub conjunct: Option<LowExp>,
    pub disjunct: Option<LowExp>,
    pub rules: Option<LowRules>,
}

#[derive(Drop)]
pub enum DeclarationPhrase {
    /// A declaration of the core.
    Dec(LowDec),
    /// Declarations of the core.
    Decs(LowDecs),
    /// A value binding.
    Bind(LowBind),
    /// Value bindings.
    Binds(LowBinds),
    /// Explicit type variables, the bindings before the first `rec`, and those after it.
    Values(Vec<Name>, LowBinds, LowBinds),
    /// What stands after `val (`.
    RoundValues(Box<RoundValues>),
    /// Explicit type variables, and functions.
    Functions(Vec<Name>, LowBinds),
    /// A clause after its first atomic pattern: the other patterns, perhaps a type, and the right side.
    RightSide(Box<RightSide>),
    /// Clauses of a function.
    Clauses(LowClauses),
    /// What stands after `fun (`: the patterns in the brackets, the rest of the first clause, the other clauses, and further functions.
    RoundFunctions(LowPats, Box<RightSide>, LowClauses, LowBinds),
    /// A type binding: type variables, a type constructor and its right side.
    TypBind(Vec<Name>, Name, LowTy),
    /// Type bindings.
    TypBinds(LowTypBinds),
    /// A constructor or an exception, and the type of its argument.
    ConBind(Name, Option<LowTy>),
    /// Constructors or exceptions, with the types of their arguments.
    ConBinds(LowConBinds),
    /// Datatype bindings, and the type bindings after `withtype`.
    Datatypes(LowDatBinds, LowTypBinds),
    /// The constructors of a datatype, further datatype bindings, and the type bindings after `withtype`.
    Constructors(LowConBinds, LowDatBinds, LowTypBinds),
    /// A type constructor, and the one that it copies.
    Copy(Name, LongIdent),
    /// Exception bindings.
    ExnBinds(LowExnBinds),
}

/// What stands after `val (`: the patterns in the brackets, the atomic patterns and types after them, the right side,
/// and further bindings without and with `rec`.
#[derive(Drop)]
pub struct RoundValues {
    pub inner: LowPats,
    pub pats: LowPats,
    pub tys: LowTys,
    pub exp: LowExp,
    pub plain: LowBinds,
    pub recursive: LowBinds,
}

/// A clause after its first atomic pattern: the other patterns, perhaps a type, and the right side.
#[derive(Drop)]
pub struct RightSide {
    pub pats: LowPats,
    pub result: Option<LowTy>,
    pub body: LowExp,
}

#[derive(Drop)]
pub enum SignaturePhrase {
    /// A signature expression.
    Sig(LowSig),
    /// What stands after `where`: type variables, a type constructor and a type.
    Where(Vec<Name>, LongIdent, Box<LowTy>),
    /// What stands after `where type`, one after the other.
    Wheres(Vec<LowWhere>),
    /// A signature binding to which more may belong: its identifier and its right side.
    BegunSigBind(Name, LowSig),
    /// What belongs to the signature expression before it, and further signature bindings.
    SigBinds(Vec<LowWhere>, LowSigBinds),
    /// Specifications.
    Specs(LowSpecs),
    /// A variable and its type.
    ValDesc(Name, LowTy),
    /// Variables and their types.
    ValDescs(LowValDescs),
    /// Type descriptions.
    TypDescs(Vec<TypDesc>),
    /// The type of a type binding, and further type bindings.
    TypeRest(LowTy, LowTypBinds),
    /// A structure description to which more may belong: its identifier and its signature expression.
    BegunStrDesc(Name, LowSig),
    /// What belongs to the signature expression before it, and further structure descriptions.
    StrDescs(Vec<LowWhere>, LowStrDescs),
    /// Type constructors that are to be shared.
    SharedTypes(Vec<LongIdent>),
}

#[derive(Drop)]
pub enum StructurePhrase {
    /// A structure expression.
    Str(LowStr),
    /// A structure-level declaration.
    StrDec(LowStrDec),
    /// Structure-level declarations.
    StrDecs(LowStrDecs),
    /// What belongs to the signature expression before it, and the constraints after that.
    Constraints(Vec<LowWhere>, Vec<LowConstraint>),
    /// The same, and further structure bindings.
    StrBinds(Vec<LowWhere>, Vec<LowConstraint>, LowStrBinds),
    /// A structure binding to which constraints may still belong: its identifier, its own constraint if it has one, and its right side.
    BegunStrBind(Name, Vec<LowConstraint>, LowStr),
    /// The argument of a functor, and its signature expression.
    FunctorArgument(Name, LowSig),
    /// What belongs to the signature expression before it, the constraints after that, and further functor bindings.
    FunBinds(Vec<LowWhere>, Vec<LowConstraint>, LowFunBinds),
    /// A functor binding to which constraints may still belong: its identifier, its argument with the signature expression, its own constraint if it has one, and its right side.
    BegunFunBind(Name, Name, Box<LowSig>, Vec<LowConstraint>, LowStr),
    /// The same with specifications in the place of the argument.
    BegunFunctor(Name, LowSpecs, Vec<LowConstraint>, LowStr),
    /// A top-level declaration.
    Top(LowTop),
}

/// Drops a phrase. Most that are dropped hold nothing, so that the others are left to a function of their own: a call pays
/// at its entry for all that it may have to drop.
pub fn discard(phrase: Phrase) {
    match phrase {
        Phrase::Nothing => {}
        Phrase::Word(_place) => {}
        other => let_go(other),
    }
}

#[inline(never)]
fn let_go<T: Drop>(_value: T) {}

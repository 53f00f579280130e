//! What the parts of declarations have made, taken off the stack.

ghost use Rattle.std.specs.Prelude.{◌≡◌, ◌≤◌, map, reverse, drop, IfOk, OnOk};
ghost use Rattle.std.specs.Option.{option_map};
ghost use Rattle.sml_tree.specs.TypeViews.{name_of, long_name_of, ty_of, tys_of};
ghost use Rattle.sml_tree.specs.PatternViews.{pat_of, pats_of};
ghost use Rattle.sml_tree.specs.BindingViews.{typ_bind_of, dat_bind_of};
ghost use Rattle.sml_tree.specs.ExpressionViews.{exn_bind_of, bind_of, binds_of};
ghost use Rattle.sml_tree.specs.Expressions.{new_exception};
ghost use Rattle.sml_tree.specs.Heights.{exn_bind_height};
ghost use Rattle.sml_phrases.specs.Phrases.{first, ty_if_any};
ghost use Rattle.sml_phrases.specs.PhraseViews.{seen};
ghost use Rattle.sml_bare_decs.specs.DeclarationRules.{values_in, functions_in, atoms_in, datatypes_in, typ_bind_in, exn_bind_in, long_if_any, constructors_if_any};
ghost use Rattle.sml_bare_decs.specs.DeclarationViews.{constructors_of};

use sml_lex::fault::{FIRST, Memory};
use sml_phrases::low::{LowBinds, LowConBinds, LowDatBinds, LowPats, LowTy, LowTypBinds, LowTys};
use sml_phrases::phrase::{DeclarationPhrase, PatternPhrase, Phrase, TypePhrase, discard};
use sml_phrases::stack::Stack;
use sml_tree::bare::LongIdent;
use sml_tree::expressions::{ConBind, ExnBind};
use sml_tree::names::Name;
use sml_tree::types::Ty;
use std::rc::Rc;

/// Explicit type variables, the bindings before the first `rec`, and those after it.
#[derive(Drop)]
pub struct Values {
    pub variables: Vec<Name>,
    pub plain: LowBinds,
    pub recursive: LowBinds,
}

/// Explicit type variables, and functions.
#[derive(Drop)]
pub struct Functions {
    pub variables: Vec<Name>,
    pub binds: LowBinds,
}

/// Atomic patterns, and the types after colons that follow them.
#[derive(Drop)]
pub struct Atoms {
    pub pats: LowPats,
    pub tys: LowTys,
}

/// Datatype bindings, and the type bindings after `withtype`.
#[derive(Drop)]
pub struct Datatypes {
    pub datatypes: LowDatBinds,
    pub types: LowTypBinds,
}

/// Type variables, a type constructor and its right side.
#[derive(Drop)]
pub struct TypeBinding {
    pub variables: Vec<Name>,
    pub name: Name,
    pub ty: LowTy,
}

/// An exception binding.
#[derive(Drop)]
pub struct LowExnBind {
    pub tree: ExnBind,
    pub height: u32,
    ghost measured: { exn_bind_height (exn_bind_of tree) ≡ height },
    ghost low: { height ≤ 4000 },
}

/// What stands after an exception: another one that it copies, or the type of its argument, or neither.
#[derive(Drop)]
pub struct ExceptionRest {
    pub copied: Option<LongIdent>,
    pub argument: Option<LowTy>,
}

/// The constructors of a datatype, and the datatype and type bindings that follow it.
#[derive(Drop)]
pub struct Constructors {
    pub constructors: LowConBinds,
    pub datatypes: LowDatBinds,
    pub types: LowTypBinds,
}

/// What stands after a type constructor: another one that it copies, or its constructors, or neither.
#[derive(Drop)]
pub struct DatatypeRest {
    pub copied: Option<LongIdent>,
    pub constructors: Option<Constructors>,
}

fn new_exception(name: Name, ty: Option<LowTy>) -> LowExnBind
    ensures { exn_bind_of result.tree ≡ new_exception (record { name = name_of name; argument = option_map (λ t. ty_of t.tree) ty }) }
{
    match ty {
        None => LowExnBind {
            tree: ExnBind::New(ConBind {
                name,
                argument: None,
            }),
            height: 0,
        },
        Some(ty) => LowExnBind {
            tree: ExnBind::New(ConBind {
                name,
                argument: Some(ty.tree),
            }),
            height: ty.height,
        },
    }
}

pub fn pop_values(stack: &mut Stack) -> Values
    ensures variables { map name_of (reverse result.variables.items) ≡ (values_in (first (seen stack.old))).variables }
    ensures plain { binds_of (map bind_of (reverse result.plain.trees.items)) ≡ (values_in (first (seen stack.old))).plain }
    ensures recursive { binds_of (map bind_of (reverse result.recursive.trees.items)) ≡ (values_in (first (seen stack.old))).recursive }
    ensures rest { seen stack.new ≡ drop 1 (seen stack.old) }
{
    match stack.pop() {
        Phrase::Declarations(DeclarationPhrase::Values(variables, plain, recursive)) => Values {
            variables,
            plain,
            recursive,
        },
        other => {
            discard(other);
            let variables = Vec::new(stack.alloc);
            let plain = LowBinds {
                trees: Vec::new(stack.alloc),
                height: 0,
            };
            let recursive = LowBinds {
                trees: Vec::new(stack.alloc),
                height: 0,
            };
            Values {
                variables,
                plain,
                recursive,
            }
        }
    }
}

pub fn pop_functions(stack: &mut Stack) -> Functions
    ensures variables { map name_of (reverse result.variables.items) ≡ (functions_in (first (seen stack.old))).variables }
    ensures binds { binds_of (map bind_of (reverse result.binds.trees.items)) ≡ (functions_in (first (seen stack.old))).binds }
    ensures rest { seen stack.new ≡ drop 1 (seen stack.old) }
{
    match stack.pop() {
        Phrase::Declarations(DeclarationPhrase::Functions(variables, binds)) => Functions {
            variables,
            binds,
        },
        other => {
            discard(other);
            let binds = LowBinds {
                trees: Vec::new(stack.alloc),
                height: 0,
            };
            Functions {
                variables: Vec::new(stack.alloc),
                binds,
            }
        }
    }
}

pub fn pop_atoms(stack: &mut Stack) -> Atoms
    ensures pats { pats_of (map (λ q. pat_of q.tree) (reverse result.pats.trees.items)) ≡ (atoms_in (first (seen stack.old))).pats }
    ensures tys { tys_of (map (λ t. ty_of t.tree) (reverse result.tys.trees.items)) ≡ (atoms_in (first (seen stack.old))).tys }
    ensures rest { seen stack.new ≡ drop 1 (seen stack.old) }
{
    match stack.pop() {
        Phrase::Patterns(PatternPhrase::Atoms(pats, tys)) => Atoms { pats, tys },
        other => {
            discard(other);
            let pats = LowPats {
                trees: Vec::new(stack.alloc),
                height: 0,
            };
            let tys = LowTys {
                trees: Vec::new(stack.alloc),
                height: 0,
            };
            Atoms { pats, tys }
        }
    }
}

pub fn pop_datatypes(stack: &mut Stack) -> Datatypes
    ensures datatypes { map dat_bind_of (reverse result.datatypes.trees.items) ≡ (datatypes_in (first (seen stack.old))).datatypes }
    ensures types { map typ_bind_of (reverse result.types.trees.items) ≡ (datatypes_in (first (seen stack.old))).types }
    ensures rest { seen stack.new ≡ drop 1 (seen stack.old) }
{
    match stack.pop() {
        Phrase::Declarations(DeclarationPhrase::Datatypes(datatypes, types)) => Datatypes {
            datatypes,
            types,
        },
        other => {
            discard(other);
            let datatypes = LowDatBinds {
                trees: Vec::new(stack.alloc),
                height: 0,
            };
            let types = LowTypBinds {
                trees: Vec::new(stack.alloc),
                height: 0,
            };
            Datatypes { datatypes, types }
        }
    }
}

pub fn pop_typ_bind(stack: &mut Stack) -> Result<TypeBinding, Memory>
    ensures variables { IfOk result (λ b. map name_of (reverse b.variables.items) ≡ (typ_bind_in (first (seen stack.old))).variables) }
    ensures name { IfOk result (λ b. name_of b.name ≡ (typ_bind_in (first (seen stack.old))).name) }
    ensures ty { IfOk result (λ b. ty_of b.ty.tree ≡ (typ_bind_in (first (seen stack.old))).ty) }
    ensures rest { OnOk result (seen stack.new ≡ drop 1 (seen stack.old)) }
{
    match stack.pop() {
        Phrase::Declarations(DeclarationPhrase::TypBind(variables, name, ty)) => Ok(TypeBinding {
            variables,
            name,
            ty,
        }),
        other => {
            discard(other);
            let place = FIRST;
            let ident = Rc::new(stack.alloc, Vec::new(stack.alloc))?;
            let ty = LowTy {
                tree: Ty::Tuple(place, Vec::new(stack.alloc)),
                height: 1,
            };
            Ok(TypeBinding {
                variables: Vec::new(stack.alloc),
                name: Name { place, ident },
                ty,
            })
        }
    }
}

pub fn pop_exn_bind(stack: &mut Stack) -> Result<LowExnBind, Memory>
    ensures value { IfOk result (λ b. exn_bind_of b.tree ≡ exn_bind_in (first (seen stack.old))) }
    ensures rest { OnOk result (seen stack.new ≡ drop 1 (seen stack.old)) }
{
    match stack.pop() {
        Phrase::Declarations(DeclarationPhrase::ConBind(name, ty)) => Ok(new_exception(name, ty)),
        Phrase::Declarations(DeclarationPhrase::Copy(name, copied)) => Ok(LowExnBind {
            tree: ExnBind::Copy(name, copied),
            height: 0,
        }),
        other => {
            discard(other);
            let place = FIRST;
            let ident = Rc::new(stack.alloc, Vec::new(stack.alloc))?;
            Ok(new_exception(Name { place, ident }, None))
        }
    }
}

pub fn pop_exn_rest(stack: &mut Stack) -> ExceptionRest
    ensures copied { option_map long_name_of result.copied ≡ long_if_any (first (seen stack.old)) }
    ensures argument { option_map (λ t. ty_of t.tree) result.argument ≡ ty_if_any (first (seen stack.old)) }
    ensures rest { seen stack.new ≡ drop 1 (seen stack.old) }
{
    match stack.pop() {
        Phrase::Long(copied) => ExceptionRest {
            copied: Some(copied),
            argument: None,
        },
        Phrase::Types(TypePhrase::Ty(ty)) => ExceptionRest {
            copied: None,
            argument: Some(ty),
        },
        other => {
            discard(other);
            ExceptionRest {
                copied: None,
                argument: None,
            }
        }
    }
}

pub fn pop_datatype_rest(stack: &mut Stack) -> DatatypeRest
    ensures copied { option_map long_name_of result.copied ≡ long_if_any (first (seen stack.old)) }
    ensures constructors { option_map constructors_of result.constructors ≡ constructors_if_any (first (seen stack.old)) }
    ensures rest { seen stack.new ≡ drop 1 (seen stack.old) }
{
    match stack.pop() {
        Phrase::Long(copied) => DatatypeRest {
            copied: Some(copied),
            constructors: None,
        },
        Phrase::Declarations(DeclarationPhrase::Constructors(constructors, datatypes, types)) => {
            let all = Constructors {
                constructors,
                datatypes,
                types,
            };
            DatatypeRest {
                copied: None,
                constructors: Some(all),
            }
        }
        other => {
            discard(other);
            DatatypeRest {
                copied: None,
                constructors: None,
            }
        }
    }
}

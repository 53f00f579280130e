//! Phrases of signatures and structures, taken off the stack.

ghost use Rattle.std.specs.Prelude.{◌≡◌, drop, map, reverse, IfOk, OnOk};
ghost use Rattle.std.specs.Option.{option_map};
ghost use Rattle.sml_tree.specs.BindingViews.{dat_bind_of};
ghost use Rattle.sml_tree.specs.TypeViews.{name_of, ty_of};
ghost use Rattle.sml_tree.specs.SignatureViews.{str_desc_of, str_descs_of};
ghost use Rattle.sml_tree.specs.StructureViews.{fun_bind_of, sig_bind_of, str_bind_of, str_binds_of};
ghost use Rattle.sml_phrases.specs.Phrases.{con_bind_in, constraint_wheres_in, constraints_in, dat_binds_in, desc_wheres_in, first, fun_binds_in, fun_constraints_in, fun_wheres_in, sig_binds_in, sig_wheres_in, str_binds_in, str_constraints_in, str_descs_in, str_wheres_in, val_desc_in, where_in};
ghost use Rattle.sml_phrases.specs.PhraseViews.{low_constraint_of, low_where_of, seen};

use sml_lex::fault::{FIRST, Memory};
use sml_phrases::low::{
    LowConstraint, LowDatBinds, LowFunBinds, LowSigBinds, LowStrBinds, LowStrDescs, LowTy, LowWhere,
};
use sml_phrases::phrase::{DeclarationPhrase, Phrase, SignaturePhrase, StructurePhrase, discard};
use sml_phrases::stack::Stack;
use sml_tree::bare::LongIdent;
use sml_tree::names::Name;
use sml_tree::types::Ty;
use std::rc::Rc;

pub fn pop_con_bind(stack: &mut Stack) -> Result<(Name, Option<LowTy>), Memory>
    ensures value { IfOk result (λ made. record { name = name_of made.0; argument = option_map (λ t. ty_of t.tree) made.1 } ≡ con_bind_in (first (seen stack.old))) }
    ensures rest { OnOk result (seen stack.new ≡ drop 1 (seen stack.old)) }
{
    match stack.pop() {
        Phrase::Declarations(DeclarationPhrase::ConBind(name, ty)) => Ok((name, ty)),
        other => {
            discard(other);
            let name = Name {
                place: FIRST,
                ident: Rc::new(stack.alloc, Vec::new(stack.alloc))?,
            };
            Ok((name, None))
        }
    }
}

pub fn pop_val_desc(stack: &mut Stack) -> Result<(Name, LowTy), Memory>
    ensures value { IfOk result (λ made. record { name = name_of made.0; ty = ty_of made.1.tree } ≡ val_desc_in (first (seen stack.old))) }
    ensures rest { OnOk result (seen stack.new ≡ drop 1 (seen stack.old)) }
{
    match stack.pop() {
        Phrase::Signatures(SignaturePhrase::ValDesc(name, ty)) => Ok((name, ty)),
        other => {
            discard(other);
            let name = Name {
                place: FIRST,
                ident: Rc::new(stack.alloc, Vec::new(stack.alloc))?,
            };
            Ok((
                name,
                LowTy {
                    tree: Ty::Tuple(FIRST, Vec::new(stack.alloc)),
                    height: 1,
                },
            ))
        }
    }
}

/// Datatypes, without the types after `withtype`.
pub fn pop_dat_binds(stack: &mut Stack) -> LowDatBinds
    ensures value { map dat_bind_of (reverse result.trees.items) ≡ dat_binds_in (first (seen stack.old)) }
    ensures rest { seen stack.new ≡ drop 1 (seen stack.old) }
{
    match stack.pop() {
        Phrase::Declarations(DeclarationPhrase::Datatypes(datatypes, _types)) => datatypes,
        other => {
            discard(other);
            LowDatBinds {
                trees: Vec::new(stack.alloc),
                height: 0,
            }
        }
    }
}

pub fn pop_where_type(stack: &mut Stack) -> Result<LowWhere, Memory>
    ensures value { IfOk result (λ equation. low_where_of equation ≡ where_in (first (seen stack.old))) }
    ensures rest { OnOk result (seen stack.new ≡ drop 1 (seen stack.old)) }
{
    match stack.pop() {
        Phrase::Signatures(SignaturePhrase::Where(mut variables, constructor, ty)) => {
            variables.reverse();
            Ok(LowWhere {
                variables,
                constructor,
                ty: Box::into_inner(ty),
            })
        }
        other => {
            discard(other);
            let constructor = LongIdent {
                place: FIRST,
                path: Vec::new(stack.alloc),
                last: Rc::new(stack.alloc, Vec::new(stack.alloc))?,
            };
            let ty = LowTy {
                tree: Ty::Tuple(FIRST, Vec::new(stack.alloc)),
                height: 1,
            };
            Ok(LowWhere {
                variables: Vec::new(stack.alloc),
                constructor,
                ty,
            })
        }
    }
}

/// What belongs to the signature expression before it, and further signature bindings.
pub fn pop_sig_binds(stack: &mut Stack) -> (Vec<LowWhere>, LowSigBinds)
    ensures wheres { map low_where_of (reverse result.0.items) ≡ sig_wheres_in (first (seen stack.old)) }
    ensures binds { map sig_bind_of (reverse result.1.trees.items) ≡ sig_binds_in (first (seen stack.old)) }
    ensures rest { seen stack.new ≡ drop 1 (seen stack.old) }
{
    match stack.pop() {
        Phrase::Signatures(SignaturePhrase::SigBinds(wheres, binds)) => (wheres, binds),
        other => {
            discard(other);
            (
                Vec::new(stack.alloc),
                LowSigBinds {
                    trees: Vec::new(stack.alloc),
                    height: 0,
                },
            )
        }
    }
}

/// What belongs to the signature expression before it, and further structure descriptions.
pub fn pop_str_descs(stack: &mut Stack) -> (Vec<LowWhere>, LowStrDescs)
    ensures wheres { map low_where_of (reverse result.0.items) ≡ desc_wheres_in (first (seen stack.old)) }
    ensures descs { str_descs_of (map str_desc_of (reverse result.1.trees.items)) ≡ str_descs_in (first (seen stack.old)) }
    ensures rest { seen stack.new ≡ drop 1 (seen stack.old) }
{
    match stack.pop() {
        Phrase::Signatures(SignaturePhrase::StrDescs(wheres, descs)) => (wheres, descs),
        other => {
            discard(other);
            (
                Vec::new(stack.alloc),
                LowStrDescs {
                    trees: Vec::new(stack.alloc),
                    height: 0,
                },
            )
        }
    }
}

/// What belongs to the signature expression before it, and the constraints after that.
pub fn pop_constraints(stack: &mut Stack) -> (Vec<LowWhere>, Vec<LowConstraint>)
    ensures wheres { map low_where_of (reverse result.0.items) ≡ constraint_wheres_in (first (seen stack.old)) }
    ensures constraints { map low_constraint_of (reverse result.1.items) ≡ constraints_in (first (seen stack.old)) }
    ensures rest { seen stack.new ≡ drop 1 (seen stack.old) }
{
    match stack.pop() {
        Phrase::Structures(StructurePhrase::Constraints(wheres, constraints)) => (
            wheres,
            constraints,
        ),
        other => {
            discard(other);
            (Vec::new(stack.alloc), Vec::new(stack.alloc))
        }
    }
}

/// What belongs to the signature expression before it, the constraints after that, and further structure bindings.
pub fn pop_str_binds(stack: &mut Stack) -> (Vec<LowWhere>, Vec<LowConstraint>, LowStrBinds)
    ensures wheres { map low_where_of (reverse result.0.items) ≡ str_wheres_in (first (seen stack.old)) }
    ensures constraints { map low_constraint_of (reverse result.1.items) ≡ str_constraints_in (first (seen stack.old)) }
    ensures binds { str_binds_of (map str_bind_of (reverse result.2.trees.items)) ≡ str_binds_in (first (seen stack.old)) }
    ensures rest { seen stack.new ≡ drop 1 (seen stack.old) }
{
    match stack.pop() {
        Phrase::Structures(StructurePhrase::StrBinds(wheres, constraints, binds)) => (
            wheres,
            constraints,
            binds,
        ),
        other => {
            discard(other);
            (
                Vec::new(stack.alloc),
                Vec::new(stack.alloc),
                LowStrBinds {
                    trees: Vec::new(stack.alloc),
                    height: 0,
                },
            )
        }
    }
}

/// What belongs to the signature expression before it, the constraints after that, and further functor bindings.
pub fn pop_fun_binds(stack: &mut Stack) -> (Vec<LowWhere>, Vec<LowConstraint>, LowFunBinds)
    ensures wheres { map low_where_of (reverse result.0.items) ≡ fun_wheres_in (first (seen stack.old)) }
    ensures constraints { map low_constraint_of (reverse result.1.items) ≡ fun_constraints_in (first (seen stack.old)) }
    ensures binds { map fun_bind_of (reverse result.2.trees.items) ≡ fun_binds_in (first (seen stack.old)) }
    ensures rest { seen stack.new ≡ drop 1 (seen stack.old) }
{
    match stack.pop() {
        Phrase::Structures(StructurePhrase::FunBinds(wheres, constraints, binds)) => (
            wheres,
            constraints,
            binds,
        ),
        other => {
            discard(other);
            (
                Vec::new(stack.alloc),
                Vec::new(stack.alloc),
                LowFunBinds {
                    trees: Vec::new(stack.alloc),
                    height: 0,
                },
            )
        }
    }
}

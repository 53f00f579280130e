//! Lists of parts of declarations, with one part more before them.

ghost use Rattle.std.specs.Prelude.{◌≡◌, ◌∷◌, map, reverse, IfOk};
ghost use Rattle.std.specs.Option.{option_map};
ghost use Rattle.sml_tree.specs.TypeViews.{name_of, ty_of};
ghost use Rattle.sml_tree.specs.Expressions.{and_bind};
ghost use Rattle.sml_tree.specs.BindingViews.{typ_bind_of, con_bind_of, dat_bind_of};
ghost use Rattle.sml_tree.specs.ExpressionViews.{exn_bind_of, bind_of, binds_of};
ghost use Rattle.sml_bare_decs.specs.DeclarationRules.{joined};

use crate::declaration_parts::LowExnBind;
use sml_lex::fault::Memory;
use sml_phrases::lists::push_tight;
use sml_phrases::low::{
    LowBind, LowBinds, LowConBinds, LowDatBinds, LowExnBinds, LowTy, LowTypBinds,
};
use sml_tree::expressions::{ConBind, DatBind, TypBind};
use sml_tree::names::Name;

pub fn and_bind(first: LowBind, others: LowBinds) -> Result<LowBinds, Memory>
    ensures { IfOk result (λ all. binds_of (map bind_of (reverse all.trees.items)) ≡ and_bind (bind_of first.tree) (binds_of (map bind_of (reverse others.trees.items)))) }
{
    let height = first.height.max(others.height);
    let mut trees = others.trees;
    push_tight(&mut trees, first.tree)?;
    Ok(LowBinds { trees, height })
}

/// Bindings, and others after them.
pub fn joined(binds: LowBinds, others: LowBinds) -> Result<LowBinds, Memory>
    ensures { IfOk result (λ all. binds_of (map bind_of (reverse all.trees.items)) ≡ joined (binds_of (map bind_of (reverse binds.trees.items))) (binds_of (map bind_of (reverse others.trees.items)))) }
{
    let height = binds.height.max(others.height);
    let mut first = binds.trees;
    let mut trees = others.trees;
    trees.append(&mut first)?;
    Ok(LowBinds { trees, height })
}

pub fn and_typ_bind(
    variables: Vec<Name>,
    name: Name,
    ty: LowTy,
    others: LowTypBinds,
) -> Result<LowTypBinds, Memory>
    ensures { IfOk result (λ all. map typ_bind_of (reverse all.trees.items) ≡ record { variables = map name_of (reverse variables.items); name = name_of name; ty = ty_of ty.tree } ∷ map typ_bind_of (reverse others.trees.items)) }
{
    let height = ty.height.max(others.height);
    let mut variables = variables;
    variables.reverse();
    let mut trees = others.trees;
    trees.push(TypBind {
        variables,
        name,
        ty: ty.tree,
    })?;
    Ok(LowTypBinds { trees, height })
}

pub fn and_con_bind(
    name: Name,
    ty: Option<LowTy>,
    others: LowConBinds,
) -> Result<LowConBinds, Memory>
    ensures { IfOk result (λ all. map con_bind_of (reverse all.trees.items) ≡ record { name = name_of name; argument = option_map (λ t. ty_of t.tree) ty } ∷ map con_bind_of (reverse others.trees.items)) }
{
    let mut trees = others.trees;
    match ty {
        None => {
            trees.push(ConBind {
                name,
                argument: None,
            })?;
            Ok(LowConBinds {
                trees,
                height: others.height,
            })
        }
        Some(ty) => {
            trees.push(ConBind {
                name,
                argument: Some(ty.tree),
            })?;
            Ok(LowConBinds {
                trees,
                height: ty.height.max(others.height),
            })
        }
    }
}

pub fn and_dat_bind(
    variables: Vec<Name>,
    name: Name,
    constructors: LowConBinds,
    others: LowDatBinds,
) -> Result<LowDatBinds, Memory>
    ensures { IfOk result (λ all. map dat_bind_of (reverse all.trees.items) ≡ record { variables = map name_of (reverse variables.items); name = name_of name; constructors = map con_bind_of (reverse constructors.trees.items) } ∷ map dat_bind_of (reverse others.trees.items)) }
{
    let height = constructors.height.max(others.height);
    let mut variables = variables;
    variables.reverse();
    let mut constructors = constructors.trees;
    constructors.reverse();
    let mut trees = others.trees;
    trees.push(DatBind {
        variables,
        name,
        constructors,
    })?;
    Ok(LowDatBinds { trees, height })
}

pub fn and_exn_bind(first: LowExnBind, others: LowExnBinds) -> Result<LowExnBinds, Memory>
    ensures { IfOk result (λ all. map exn_bind_of (reverse all.trees.items) ≡ exn_bind_of first.tree ∷ map exn_bind_of (reverse others.trees.items)) }
{
    let height = first.height.max(others.height);
    let mut trees = others.trees;
    trees.push(first.tree)?;
    Ok(LowExnBinds { trees, height })
}

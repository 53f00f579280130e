//! How deep variables stand in a type.

ghost use Rattle.std.specs.Prelude.{◌≡◌, max, map, if◌then◌else◌, IfOk, OnOk};
ghost use Rattle.std.specs.Str.{bytes_eq};
ghost use Rattle.sml_tree.specs.Trees.{Id};
ghost use Rattle.sml_tree.specs.Views.{ident_of};
ghost use Rattle.sml_tree.specs.TypeViews.{names_of, ty_of, tys_of, ty_field_of, ty_fields_of};
ghost use Rattle.sml_tree.specs.CodeDepths.{depth, depths, tys_depth, fields_depth};
ghost use Rattle.sml_tree.specs.CodeSides.{deep};

use crate::bare::Ident;
use crate::names::Name;
use crate::types::{Ty, TyField};
use indexmap::IndexMap;
use sml_lex::fault::Memory;
use std::alloc::Global;

fn depth_of(deepest: &IndexMap<Ident, u32>, variable: &Ident) -> u32
    ensures { result ≡ deep (ident_of variable.now) deepest.now.entries }
{
    match deepest.get(variable) {
        Some(depth) => *depth,
        None => 0,
    }
}

fn set_depth(deepest: &mut IndexMap<Ident, u32>, variable: &Ident, depth: u32) -> Result<(), Memory>
    ensures { OnOk result ((v : Id) → deep v deepest.new.entries ≡ (if bytes_eq v (ident_of variable.now) then depth else deep v deepest.old.entries)) }
{
    let key = variable.clone()?;
    deepest.insert(key, depth)?;
    Ok(())
}

/// Notes how deep each variable stands in a type below so many levels.
#[cycle(note)]
fn note(ty: &Ty, levels: u32, deepest: &mut IndexMap<Ident, u32>) -> Result<(), Memory>
    ensures { OnOk result ((v : Id) → deep v deepest.new.entries ≡ max (deep v deepest.old.entries) (depth levels v (ty_of ty.now))) }
{
    let below = levels.saturating_add(1);
    match ty {
        Ty::Variable(_, variable) => {
            let depth = depth_of(deepest, variable).max(below);
            set_depth(deepest, variable, depth)
        }
        Ty::Row(_, fields) => note_fields(fields, below, deepest),
        Ty::Tuple(_, tys) | Ty::Constructor(_, tys, _) | Ty::Misapplied(_, tys, _) => {
            note_all(tys, below, deepest)
        }
        Ty::Arrow(_, from, to) => {
            note(from, below, deepest)?;
            note(to, below, deepest)
        }
        Ty::Bracket(_, ty) => note(ty, below, deepest),
    }
}

#[cycle(note)]
fn note_all(tys: &[Ty], levels: u32, deepest: &mut IndexMap<Ident, u32>) -> Result<(), Memory>
    ensures { OnOk result ((v : Id) → deep v deepest.new.entries ≡ max (deep v deepest.old.entries) (tys_depth levels v (tys_of (map ty_of tys.now)))) }
{
    for index in (0..tys.len()).rev() {
        note(&tys[index], levels, deepest)?;
    }
    Ok(())
}

#[cycle(note)]
fn note_fields(
    fields: &[TyField],
    levels: u32,
    deepest: &mut IndexMap<Ident, u32>,
) -> Result<(), Memory>
    ensures { OnOk result ((v : Id) → deep v deepest.new.entries ≡ max (deep v deepest.old.entries) (fields_depth levels v (ty_fields_of (map ty_field_of fields.now)))) }
{
    for index in (0..fields.len()).rev() {
        note(&fields[index].ty, levels, deepest)?;
    }
    Ok(())
}

/// How deep each of these variables stands in a type; 0 for one that stands nowhere in it or whose name stands before it.
pub fn depths_in(alloc: Global, ty: &Ty, variables: &[Name]) -> Result<Vec<u32>, Memory>
    ensures { IfOk result (λ found. found.items ≡ depths (λ v. depth 0 v (ty_of ty.now)) (names_of variables.now)) }
{
    let mut deepest = IndexMap::new(alloc);
    note(ty, 0, &mut deepest)?;
    let mut found = Vec::new(alloc);
    for variable in variables {
        found.push(depth_of(&deepest, &variable.ident))?;
        set_depth(&mut deepest, &variable.ident, 0)?;
    }
    Ok(found)
}

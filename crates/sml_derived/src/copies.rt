//! Copies of types.

ghost use Rattle.std.specs.Prelude.{◌≡◌, map, IfOk};
ghost use Rattle.sml_tree.specs.TypeViews.{name_of, long_name_of, ty_of, tys_of, ty_field_of};
ghost use Rattle.sml_tree.specs.Types.{ty_arrow, ty_bracket, ty_constructor, ty_misapplied, ty_field};

use crate::expander::{copies_of_idents, copy_of};
use sml_lex::fault::{Memory, Place};
use sml_tree::bare::LongIdent;
use sml_tree::names::Name;
use sml_tree::types::{Ty, TyField};
use std::alloc::Global;

pub fn copy_of_long(alloc: Global, long: &LongIdent) -> Result<LongIdent, Memory>
    ensures { IfOk result (λ copy. long_name_of copy ≡ long_name_of long.now) }
{
    Ok(LongIdent {
        place: long.place,
        path: copies_of_idents(alloc, &long.path)?,
        last: long.last.clone()?,
    })
}

/// `t -> u`
pub(crate) fn arrow(alloc: Global, place: Place, from: Ty, to: Ty) -> Result<Ty, Memory>
    ensures { IfOk result (λ ty. ty_of ty ≡ ty_arrow place (ty_of from) (ty_of to)) }
{
    let from = Box::new(alloc, from)?;
    Ok(Ty::Arrow(place, from, Box::new(alloc, to)?))
}

/// `(t)`
pub(crate) fn bracket(alloc: Global, place: Place, ty: Ty) -> Result<Ty, Memory>
    ensures { IfOk result (λ made. ty_of made ≡ ty_bracket place (ty_of ty)) }
{
    Ok(Ty::Bracket(place, Box::new(alloc, ty)?))
}

/// A type constructor after its arguments.
pub(crate) fn constructor(
    alloc: Global,
    place: Place,
    arguments: Vec<Ty>,
    long: &LongIdent,
) -> Result<Ty, Memory>
    ensures { IfOk result (λ ty. ty_of ty ≡ ty_constructor place (tys_of (map ty_of arguments.items)) (long_name_of long.now)) }
{
    Ok(Ty::Constructor(place, arguments, copy_of_long(alloc, long)?))
}

/// A type constructor after arguments of another number than its variables.
pub(crate) fn misapplied(
    alloc: Global,
    place: Place,
    arguments: Vec<Ty>,
    long: &LongIdent,
) -> Result<Ty, Memory>
    ensures { IfOk result (λ ty. ty_of ty ≡ ty_misapplied place (tys_of (map ty_of arguments.items)) (long_name_of long.now)) }
{
    Ok(Ty::Misapplied(place, arguments, copy_of_long(alloc, long)?))
}

/// A field with the label.
pub(crate) fn labelled(label: &Name, ty: Ty) -> Result<TyField, Memory>
    ensures { IfOk result (λ field. ty_field_of field ≡ ty_field (name_of label.now) (ty_of ty)) }
{
    Ok(TyField {
        label: copy_of(label)?,
        ty,
    })
}

#[cycle(copies)]
pub fn copy_of_ty(alloc: Global, ty: &Ty) -> Result<Ty, Memory>
    ensures { IfOk result (λ copy. ty_of copy ≡ ty_of ty.now) }
{
    match ty {
        Ty::Variable(place, variable) => Ok(Ty::Variable(*place, variable.clone()?)),
        Ty::Row(place, fields) => Ok(Ty::Row(*place, copies_of_fields(alloc, fields)?)),
        Ty::Tuple(place, tys) => Ok(Ty::Tuple(*place, copies_of_tys(alloc, tys)?)),
        Ty::Constructor(place, tys, long) => {
            constructor(alloc, *place, copies_of_tys(alloc, tys)?, long)
        }
        Ty::Misapplied(place, tys, long) => {
            misapplied(alloc, *place, copies_of_tys(alloc, tys)?, long)
        }
        Ty::Arrow(place, from, to) => {
            let from = copy_of_ty(alloc, from)?;
            arrow(alloc, *place, from, copy_of_ty(alloc, to)?)
        }
        Ty::Bracket(place, ty) => bracket(alloc, *place, copy_of_ty(alloc, ty)?),
    }
}

#[cycle(copies)]
fn copies_of_tys(alloc: Global, tys: &[Ty]) -> Result<Vec<Ty>, Memory>
    ensures { IfOk result (λ copies. map ty_of copies.items ≡ map ty_of tys.now) }
{
    let mut copies = Vec::new(alloc);
    for ty in tys {
        copies.push(copy_of_ty(alloc, ty)?)?;
    }
    Ok(copies)
}

#[cycle(copies)]
fn copies_of_fields(alloc: Global, fields: &[TyField]) -> Result<Vec<TyField>, Memory>
    ensures { IfOk result (λ copies. map ty_field_of copies.items ≡ map ty_field_of fields.now) }
{
    let mut copies = Vec::new(alloc);
    for field in fields {
        copies.push(labelled(&field.label, copy_of_ty(alloc, &field.ty)?)?)?;
    }
    Ok(copies)
}

//! Specifications of the piece.

ghost use Rattle.std.specs.Prelude.{◌≡◌, map, IfOk};
ghost use Rattle.std.specs.Option.{option_map};
ghost use Rattle.sml_tree.specs.Views.{spec_of};
ghost use Rattle.sml_tree.specs.SignatureViews as whole;
ghost use Rattle.sml_piece_trees.specs.Piece as spec;

use crate::types::ty_piece;
use sml_lex::fault::{Memory, Place};
use sml_tree::bare::{Spec, SpecForm};
use sml_tree::signatures as whole;
use std::alloc::Global;

/// `x : ty`
fn val_desc_piece(
    alloc: Global,
    place: Place,
    desc: &whole::ValDesc,
) -> Result<Option<Spec>, Memory>
    ensures { IfOk result (λ r. option_map spec_of r ≡ spec.val_desc_piece place (whole.val_desc_of desc.now)) }
{
    match ty_piece(alloc, &desc.ty)? {
        Some(ty) => Ok(Some(Spec {
            place,
            form: SpecForm::Value(desc.name.ident.clone()?, ty),
        })),
        None => Ok(None),
    }
}

/// A type description without type variables.
fn typ_desc_piece(place: Place, desc: &whole::TypDesc) -> Result<Option<Spec>, Memory>
    ensures { IfOk result (λ r. option_map spec_of r ≡ spec.typ_desc_piece place (whole.typ_desc_of desc.now)) }
{
    if desc.variables.is_empty() {
        Ok(Some(Spec {
            place,
            form: SpecForm::Type(desc.name.ident.clone()?),
        }))
    } else {
        Ok(None)
    }
}

/// A specification, if it is of the piece.
fn spec_piece(alloc: Global, specification: &whole::Spec) -> Result<Option<Spec>, Memory>
    ensures { IfOk result (λ r. option_map spec_of r ≡ spec.spec_piece (whole.spec_of specification.now)) }
{
    match specification {
        whole::Spec::Value(place, descs) => {
            if descs.len() == 1 {
                val_desc_piece(alloc, *place, &descs[0])
            } else {
                Ok(None)
            }
        }
        whole::Spec::Type(place, descs) => {
            if descs.len() == 1 {
                typ_desc_piece(*place, &descs[0])
            } else {
                Ok(None)
            }
        }
        _ => Ok(None),
    }
}

/// Specifications, if all are of the piece.
pub fn specs_piece(alloc: Global, specs: &[whole::Spec]) -> Result<Option<Vec<Spec>>, Memory>
    ensures { IfOk result (λ r. option_map (λ ss. map spec_of ss.items) r ≡ spec.specs_piece (whole.specs_of (map whole.spec_of specs.now))) }
{
    let mut made = Vec::new(alloc);
    for specification in specs {
        match spec_piece(alloc, specification)? {
            Some(specification) => made.push(specification)?,
            None => return Ok(None),
        }
    }
    Ok(Some(made))
}

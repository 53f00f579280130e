//! Types of the piece.

#![tactic(auto, unfolding(crate::specs::Piece::ty_piece, crate::specs::Piece::tys_piece))]

ghost use Rattle.std.specs.Prelude.{◌≡◌, map, IfOk};
ghost use Rattle.std.specs.Option.{option_map};
ghost use Rattle.sml_tree.specs.Views.{ty_of, tys_of};
ghost use Rattle.sml_tree.specs.TypeViews as whole;
ghost use Rattle.sml_piece_trees.specs.Piece.{ty_piece, tys_piece};

use crate::names::copied;
use sml_lex::fault::Memory;
use sml_tree::bare::Ty;
use sml_tree::types as whole;
use std::alloc::Global;

/// A type expression, if it is of the piece.
#[cycle(ty_piece)]
pub fn ty_piece(alloc: Global, ty: &whole::Ty) -> Result<Option<Ty>, Memory>
    ensures { IfOk result (λ r. option_map ty_of r ≡ ty_piece (whole.ty_of ty.now)) }
{
    match ty {
        whole::Ty::Tuple(_, tys) => match tys_piece(alloc, tys)? {
            Some(tys) => Ok(Some(Ty::Tuple(tys))),
            None => Ok(None),
        },
        whole::Ty::Constructor(_, tys, long) => match tys.first() {
            None => Ok(Some(Ty::Constructor(copied(alloc, long)?))),
            Some(_) => Ok(None),
        },
        whole::Ty::Arrow(_, from, to) => {
            let Some(from) = ty_piece(alloc, from)? else {
                return Ok(None);
            };
            match ty_piece(alloc, to)? {
                Some(to) => Ok(Some(Ty::Arrow(Box::new(alloc, from)?, Box::new(alloc, to)?))),
                None => Ok(None),
            }
        }
        whole::Ty::Bracket(_, ty) => match ty_piece(alloc, ty)? {
            Some(ty) => Ok(Some(Ty::Bracket(Box::new(alloc, ty)?))),
            None => Ok(None),
        },
        _ => Ok(None),
    }
}

#[cycle(ty_piece)]
fn tys_piece(alloc: Global, tys: &[whole::Ty]) -> Result<Option<Vec<Ty>>, Memory>
    ensures { IfOk result (λ r. option_map (λ ts. tys_of (map ty_of ts.items)) r ≡ tys_piece (whole.tys_of (map whole.ty_of tys.now))) }
{
    let mut made = Vec::new(alloc);
    for ty in tys {
        match ty_piece(alloc, ty)? {
            Some(ty) => made.push(ty)?,
            None => return Ok(None),
        }
    }
    Ok(Some(made))
}

//! Whole declarations, as those of the piece.

ghost use Rattle.std.specs.Prelude.{◌≡◌, map, IfOk};
ghost use Rattle.std.specs.Option.{option_map};
ghost use Rattle.sml_tree.specs.Views.{core_dec_of, dec_of, ident_of};
ghost use Rattle.sml_tree.specs.SignatureViews.{sig_of};
ghost use Rattle.sml_tree.specs.ExpressionViews as exps;
ghost use Rattle.sml_tree.specs.StructureViews.{str_of, str_dec_of, str_decs_of, str_bind_of, top_of};
ghost use Rattle.sml_piece_trees.specs.Piece as spec;

use crate::expressions::{core_piece, val_piece};
use crate::specifications::specs_piece;
use sml_lex::fault::{FIRST, Memory};
use sml_tree::bare::{BareDec, CoreDec, Ident, SealedStructure, SigExp};
use sml_tree::expressions::Dec;
use sml_tree::names::Name;
use sml_tree::signatures as whole;
use sml_tree::structures::{Ascription, StrBind, StrDec, StrExp, TopDec};
use std::alloc::Global;

/// A declaration in a structure, if it is of the piece.
fn str_dec_piece(alloc: Global, dec: &StrDec) -> Result<Option<CoreDec>, Memory>
    ensures { IfOk result (λ r. option_map core_dec_of r ≡ spec.str_dec_piece (str_dec_of dec.now)) }
{
    match dec {
        StrDec::Core(dec) => core_piece(alloc, dec),
        _ => Ok(None),
    }
}

fn str_decs_piece(alloc: Global, decs: &[StrDec]) -> Result<Option<Vec<CoreDec>>, Memory>
    ensures { IfOk result (λ r. option_map (λ ds. map core_dec_of ds.items) r ≡ spec.str_decs_piece (str_decs_of (map str_dec_of decs.now))) }
{
    let mut made = Vec::new(alloc);
    for dec in decs {
        match str_dec_piece(alloc, dec)? {
            Some(dec) => made.push(dec)?,
            None => return Ok(None),
        }
    }
    Ok(Some(made))
}

/// The declarations of `struct .. end`.
fn body_piece(alloc: Global, body: &StrExp) -> Result<Option<Vec<CoreDec>>, Memory>
    ensures { IfOk result (λ r. option_map (λ ds. map core_dec_of ds.items) r ≡ spec.body_piece (str_of body.now)) }
{
    match body {
        StrExp::Decs(_, decs) => str_decs_piece(alloc, decs),
        _ => Ok(None),
    }
}

/// A structure of this name that is sealed by `sig .. end`.
fn sealed_piece(
    alloc: Global,
    name: &Ident,
    body: &StrExp,
    signature: &whole::SigExp,
) -> Result<Option<BareDec>, Memory>
    ensures { IfOk result (λ r. option_map dec_of r ≡ spec.sealed_piece (ident_of name.now) (str_of body.now) (sig_of signature.now)) }
{
    let whole::SigExp::Specs(place, specs) = signature else {
        return Ok(None);
    };
    let Some(specs) = specs_piece(alloc, specs)? else {
        return Ok(None);
    };
    match body_piece(alloc, body)? {
        Some(body) => Ok(Some(BareDec::Structure(SealedStructure {
            name: name.clone()?,
            signature: SigExp {
                place: *place,
                specs,
            },
            body,
        }))),
        None => Ok(None),
    }
}

/// A structure binding, if it is of the piece.
fn str_bind_piece(alloc: Global, bind: &StrBind) -> Result<Option<BareDec>, Memory>
    ensures { IfOk result (λ r. option_map dec_of r ≡ spec.str_bind_piece (str_bind_of bind.now)) }
{
    match &bind.body {
        StrExp::Ascribed(_, body, Ascription::Opaque, signature) => {
            sealed_piece(alloc, &bind.name.ident, body, signature)
        }
        _ => Ok(None),
    }
}

/// A value declaration at the top.
fn val_dec_piece(alloc: Global, dec: &Dec) -> Result<Option<BareDec>, Memory>
    ensures { IfOk result (λ r. option_map dec_of r ≡ spec.val_dec_piece (exps.dec_of dec.now)) }
{
    let Dec::Value(place, variables, binds, recursive) = dec else {
        return Ok(None);
    };
    match val_piece(alloc, *place, variables, binds, recursive)? {
        Some(dec) => Ok(Some(BareDec::Core(dec))),
        None => Ok(None),
    }
}

/// A declaration at the top, if it is of the piece.
fn top_piece(alloc: Global, top: &TopDec) -> Result<Option<BareDec>, Memory>
    ensures { IfOk result (λ r. option_map dec_of r ≡ spec.top_piece (top_of top.now)) }
{
    match top {
        TopDec::Structure(StrDec::Core(dec)) => val_dec_piece(alloc, dec),
        TopDec::Structure(StrDec::Structure(_, binds)) => {
            match (binds.first(), binds.get(1)) {
                (Some(bind), None) => str_bind_piece(alloc, bind),
                _ => Ok(None),
            }
        }
        _ => Ok(None),
    }
}

/// A declaration at the top as a tree of the piece.
fn piece_of(alloc: Global, top: &TopDec) -> Result<BareDec, Memory>
    ensures { IfOk result (λ dec. dec_of dec ≡ spec.piece_of (top_of top.now)) }
{
    match top_piece(alloc, top)? {
        Some(dec) => Ok(dec),
        None => Ok(BareDec::Other(FIRST)),
    }
}

/// Whole declarations as trees of the piece. One outside it is a declaration at 1.1 of which nothing more is said.
pub fn pieces(alloc: Global, tops: &[TopDec]) -> Result<Vec<BareDec>, Memory>
    ensures { IfOk result (λ decs. map dec_of decs.items ≡ map spec.piece_of (map top_of tops.now)) }
{
    let mut decs = Vec::new(alloc);
    for top in tops {
        decs.push(piece_of(alloc, top)?)?;
    }
    Ok(decs)
}

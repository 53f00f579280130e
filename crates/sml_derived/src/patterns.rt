//! Derived forms of patterns.

ghost use Rattle.std.specs.Prelude.{◌≡◌, map, IfOk, Some};
ghost use Rattle.std.specs.Option.{option_map};
ghost use Rattle.sml_tree.specs.Views.{ident_of};
ghost use Rattle.sml_tree.specs.TypeViews.{name_of, ty_of};
ghost use Rattle.sml_tree.specs.PatternViews.{pat_of, pats_of, pat_field_of};
ghost use Rattle.sml_tree.specs.Patterns.{no_pat, and_pat, pat_as, pat_typed};
ghost use Rattle.sml_derived.specs.Derived.{pat_var, pat_unit, pat_nil, pat_cons, pat_infix, pat_pair, layered, pun};

use crate::expander::{Expander, copy_of, long, written};
use sml_lex::fault::{Memory, Place};
use sml_tree::bare::Ident;
use sml_tree::names::Name;
use sml_tree::patterns::{Pat, PatField};
use sml_tree::types::Ty;
use std::alloc::Global;

pub fn pat_var(alloc: Global, place: Place, ident: &Ident) -> Result<Pat, Memory>
    ensures { IfOk result (λ pat. pat_of pat ≡ pat_var place (ident_of ident.now)) }
{
    Ok(Pat::Identifier(place, written(alloc, place, ident)?))
}

fn pat_pair(alloc: Global, place: Place, left: Pat, right: Pat) -> Result<Pat, Memory>
    ensures { IfOk result (λ pat. pat_of pat ≡ pat_pair place (pat_of left) (pat_of right)) }
{
    let mut pats = Vec::with_capacity(alloc, 2)?;
    pats.push(left)?;
    pats.push(right)?;
    Ok(Pat::Tuple(place, pats))
}

/// `p : t`
fn typed(alloc: Global, place: Place, pat: Pat, ty: Ty) -> Result<Pat, Memory>
    ensures { IfOk result (λ whole. pat_of whole ≡ pat_typed place (pat_of pat) (ty_of ty)) }
{
    let pat = Box::new(alloc, pat)?;
    Ok(Pat::Typed(place, pat, Box::new(alloc, ty)?))
}

/// `x : t as p`
fn typed_layer(alloc: Global, name: Name, ty: Ty, pat: Pat) -> Result<Pat, Memory>
    ensures { IfOk result (λ whole. pat_of whole ≡ pat_as name.place (name_of name) (Some (ty_of ty)) (pat_of pat)) }
{
    let ty = Box::new(alloc, ty)?;
    Ok(Pat::As(name.place, name, Some(ty), Box::new(alloc, pat)?))
}

pub fn layered(alloc: Global, name: Name, ty: Option<Ty>, pat: Option<Pat>) -> Result<Pat, Memory>
    ensures { IfOk result (λ whole. pat_of whole ≡ layered (name_of name) (option_map ty_of ty) (option_map pat_of pat)) }
{
    let place = name.place;
    match (ty, pat) {
        (None, None) => Ok(Pat::Identifier(place, long(alloc, name))),
        (Some(ty), None) => typed(alloc, place, Pat::Identifier(place, long(alloc, name)), ty),
        (None, Some(pat)) => Ok(Pat::As(place, name, None, Box::new(alloc, pat)?)),
        (Some(ty), Some(pat)) => typed_layer(alloc, name, ty, pat),
    }
}

impl Expander {
    /// The pattern `()`.
    pub fn pat_unit(&self, place: Place) -> Pat
        ensures { pat_of result ≡ pat_unit place }
    {
        Pat::Tuple(place, Vec::new(self.alloc))
    }

    /// The pattern `[]`.
    pub fn pat_nil(&self, place: Place) -> Result<Pat, Memory>
        ensures { IfOk result (λ pat. pat_of pat ≡ pat_nil place) }
    {
        pat_var(self.alloc, place, &self.nil)
    }

    /// The pattern `[a, .., z]`, from `a` and `[.., z]`.
    pub fn pat_cons(&self, place: Place, first: Pat, rest: Pat) -> Result<Pat, Memory>
        ensures { IfOk result (λ pat. pat_of pat ≡ pat_cons place (pat_of first) (pat_of rest)) }
    {
        let cons = written(self.alloc, place, &self.cons)?;
        let argument = pat_pair(self.alloc, place, first, rest)?;
        Ok(Pat::Applied(place, cons, Box::new(self.alloc, argument)?))
    }

    /// The pattern `a f b`.
    pub fn pat_infix(
        &self,
        place: Place,
        operator: Name,
        left: Pat,
        right: Pat,
    ) -> Result<Pat, Memory>
        ensures { IfOk result (λ pat. pat_of pat ≡ pat_infix place (name_of operator) (pat_of left) (pat_of right)) }
    {
        let argument = pat_pair(self.alloc, place, left, right)?;
        let operator = long(self.alloc, operator);
        Ok(Pat::Applied(place, operator, Box::new(self.alloc, argument)?))
    }

    /// A field of a row that is written as an identifier, perhaps with a type and a pattern after `as`.
    pub fn pun(&self, name: Name, ty: Option<Ty>, pat: Option<Pat>) -> Result<PatField, Memory>
        ensures { IfOk result (λ field. pat_field_of field ≡ pun (name_of name) (option_map ty_of ty) (option_map pat_of pat)) }
    {
        let label = copy_of(&name)?;
        let pat = layered(self.alloc, name, ty, pat)?;
        Ok(PatField { label, pat })
    }
}

//! Patterns from their parts, each with its height.

ghost use Rattle.std.specs.Prelude.{◌≡◌, ◌≤◌, map, IfOk};
ghost use Rattle.std.specs.Option.{option_map};
ghost use Rattle.sml_tree.specs.Patterns.{pat_name, pat_as, pat_field, and_pat_field};
ghost use Rattle.sml_tree.specs.Heights.{height_if_any, ty_height, pat_height};
ghost use Rattle.sml_tree.specs.TypeViews.{name_of, long_name_of, ty_of};
ghost use Rattle.sml_tree.specs.PatternViews.{pat_of, pats_of};
ghost use Rattle.sml_derived.specs.Derived.{layered, pat_nil, pat_cons};
ghost use Rattle.sml_pat_sequences.specs.LowViews.{GivesPat, low_ty_of, low_pat_of, low_tys_of, low_pats_of, low_pat_fields_of};
ghost use Rattle.sml_bare_pats.specs.PatternPhrases.{pat_fields_in, flexible_in, atoms_in, colons_in};
ghost use Rattle.sml_bare_pats.specs.PatternRules.{list_pat, field_pat};
ghost use Rattle.sml_phrases.specs.PhraseViews.{phrase_of};

use sml_derived::expander::Expander;
use sml_derived::patterns::layered as layered_tree;
use sml_lex::fault::{Memory, Place};
use sml_phrases::low::{LowPat, LowPatFields, LowPats, LowTy, LowTys};
use sml_phrases::phrase::{Failure, Layer, PatternPhrase, Phrase, discard};
use sml_phrases::raise::raised;
use sml_tree::bare::LongIdent;
use sml_tree::names::Name;
use sml_tree::patterns::{Pat, PatField};
use sml_tree::types::Ty;
use std::alloc::Global;

/// An identifier as a pattern.
pub fn pat_name(place: Place, long: LongIdent) -> LowPat
    ensures { low_pat_of result ≡ pat_name place (long_name_of long) }
{
    LowPat {
        tree: Pat::Identifier(place, long),
        height: 1,
    }
}

fn cons(expander: &Expander, place: Place, first: LowPat, rest: LowPat) -> Result<LowPat, Failure>
    ensures { GivesPat (pat_cons place (low_pat_of first) (low_pat_of rest)) result }
{
    let height = raised(first.height.max(rest.height), 2)?;
    let tree = expander.pat_cons(place, first.tree, rest.tree)?;
    Ok(LowPat { tree, height })
}

fn nil(expander: &Expander, place: Place) -> Result<LowPat, Memory>
    ensures { IfOk result (λ pat. low_pat_of pat ≡ pat_nil place) }
{
    Ok(LowPat {
        tree: expander.pat_nil(place)?,
        height: 1,
    })
}

/// A list of patterns.
pub fn list_pat(expander: &Expander, place: Place, pats: LowPats) -> Result<LowPat, Failure>
    ensures { GivesPat (list_pat place (low_pats_of pats)) result }
{
    let mut pats = pats.trees;
    pats.reverse();
    let mut list = nil(expander, place)?;
    while let Some(pat) = pats.pop() {
        list = cons(expander, place, pat, list)?;
    }
    Ok(list)
}

/// A type without its height, and the height, where there is a type.
fn ty_parts(ty: Option<LowTy>) -> (Option<Ty>, u32)
    ensures tree { option_map ty_of result.0 ≡ option_map low_ty_of ty }
    ensures height { result.1 ≡ height_if_any ty_height (option_map low_ty_of ty) }
    ensures within { result.1 ≤ 4000 }
{
    match ty {
        None => (None, 0),
        Some(ty) => (Some(ty.tree), ty.height),
    }
}

/// A pattern without its height, and the height, where there is a pattern.
fn pat_parts(pat: Option<LowPat>) -> (Option<Pat>, u32)
    ensures tree { option_map pat_of result.0 ≡ option_map low_pat_of pat }
    ensures height { result.1 ≡ height_if_any pat_height (option_map low_pat_of pat) }
    ensures within { result.1 ≤ 4000 }
{
    match pat {
        None => (None, 0),
        Some(pat) => (Some(pat.tree), pat.height),
    }
}

/// An identifier, perhaps with a type and a pattern after `as`.
pub fn layered(
    alloc: Global,
    name: Name,
    ty: Option<LowTy>,
    pat: Option<LowPat>,
) -> Result<LowPat, Failure>
    ensures { GivesPat (layered (name_of name) (option_map low_ty_of ty) (option_map low_pat_of pat)) result }
{
    let (ty, ty_height) = ty_parts(ty);
    let (pat, pat_height) = pat_parts(pat);
    let height = raised(ty_height.max(pat_height), 1)?;
    let tree = layered_tree(alloc, name, ty, pat)?;
    Ok(LowPat { tree, height })
}

/// A type in a box, where there is one.
fn boxed(alloc: Global, ty: Option<Ty>) -> Result<Option<Box<Ty>>, Memory>
    ensures { IfOk result (λ boxed. option_map (λ t. ty_of t.value) boxed ≡ option_map ty_of ty) }
{
    match ty {
        None => Ok(None),
        Some(ty) => Ok(Some(Box::new(alloc, ty)?)),
    }
}

/// A pattern after an identifier and `as`, perhaps with a type between them.
pub fn pat_as(
    alloc: Global,
    place: Place,
    name: Name,
    ty: Option<LowTy>,
    pat: LowPat,
) -> Result<LowPat, Failure>
    ensures { GivesPat (pat_as place (name_of name) (option_map low_ty_of ty) (low_pat_of pat)) result }
{
    let (ty, ty_height) = ty_parts(ty);
    let height = raised(ty_height.max(pat.height), 1)?;
    let ty = boxed(alloc, ty)?;
    let tree = Pat::As(place, name, ty, Box::new(alloc, pat.tree)?);
    Ok(LowPat { tree, height })
}

/// The pattern of a field, from its identifier and what stands after it.
pub fn field_pat(alloc: Global, name: Name, rest: Phrase) -> Result<LowPat, Failure>
    ensures { GivesPat (field_pat (name_of name) (phrase_of rest)) result }
{
    match rest {
        Phrase::Patterns(PatternPhrase::Pat(pat)) => Ok(pat),
        Phrase::Patterns(PatternPhrase::Layer(layer)) => {
            let Layer { ty, pat } = Box::into_inner(layer);
            layered(alloc, name, ty, pat)
        }
        other => {
            discard(other);
            layered(alloc, name, None, None)
        }
    }
}

/// Atomic patterns, and the types after the colons that follow them.
pub fn atoms_in(alloc: Global, phrase: Phrase) -> (LowPats, LowTys)
    ensures atoms { low_pats_of result.0 ≡ atoms_in (phrase_of phrase) }
    ensures types { low_tys_of result.1 ≡ colons_in (phrase_of phrase) }
{
    match phrase {
        Phrase::Patterns(PatternPhrase::Atoms(atoms, types)) => (atoms, types),
        other => {
            discard(other);
            (
                LowPats {
                    trees: Vec::new(alloc),
                    height: 0,
                },
                LowTys {
                    trees: Vec::new(alloc),
                    height: 0,
                },
            )
        }
    }
}

/// The fields of a record pattern, and whether `...` stands after them.
pub fn fields_in(alloc: Global, phrase: Phrase) -> (LowPatFields, bool)
    ensures fields { low_pat_fields_of result.0 ≡ pat_fields_in (phrase_of phrase) }
    ensures flexible { result.1 ≡ flexible_in (phrase_of phrase) }
{
    match phrase {
        Phrase::Patterns(PatternPhrase::PatFields(fields, flexible)) => (fields, flexible),
        other => {
            discard(other);
            (
                LowPatFields {
                    trees: Vec::new(alloc),
                    height: 0,
                },
                false,
            )
        }
    }
}

/// A field before others.
pub fn and_field(label: Name, pat: LowPat, fields: LowPatFields) -> Result<LowPatFields, Memory>
    ensures { IfOk result (λ all. low_pat_fields_of all ≡ and_pat_field (pat_field (name_of label) (low_pat_of pat)) (low_pat_fields_of fields)) }
{
    let height = pat.height.max(fields.height);
    let mut trees = fields.trees;
    trees.push(PatField {
        label,
        pat: pat.tree,
    })?;
    Ok(LowPatFields { trees, height })
}

//! Lists of types and of patterns with their heights.

ghost use Rattle.std.specs.Prelude.{◌≡◌, map, reverse, IfOk};
ghost use Rattle.sml_tree.specs.Patterns.{and_pat};
ghost use Rattle.sml_tree.specs.PatternViews.{pat_of, pats_of};
ghost use Rattle.sml_tree.specs.Types.{and_ty};
ghost use Rattle.sml_tree.specs.TypeViews.{ty_of, tys_of};
ghost use Rattle.sml_pat_sequences.specs.LowViews.{low_ty_of, low_tys_of, low_pat_of, low_pats_of};

use sml_lex::fault::Memory;
use sml_phrases::low::{LowPat, LowPats, LowTy, LowTys};
use sml_tree::patterns::Pat;
use sml_tree::types::Ty;
use std::alloc::Global;

/// A type before others.
pub fn and_ty(ty: LowTy, types: LowTys) -> Result<LowTys, Memory>
    ensures { IfOk result (λ all. low_tys_of all ≡ and_ty (low_ty_of ty) (low_tys_of types)) }
{
    let height = ty.height.max(types.height);
    let mut trees = types.trees;
    trees.push(ty)?;
    Ok(LowTys { trees, height })
}

/// A pattern before others.
pub fn and_pat(pat: LowPat, pats: LowPats) -> Result<LowPats, Memory>
    ensures { IfOk result (λ all. low_pats_of all ≡ and_pat (low_pat_of pat) (low_pats_of pats)) }
{
    let height = pat.height.max(pats.height);
    let mut trees = pats.trees;
    trees.push(pat)?;
    Ok(LowPats { trees, height })
}

/// The types of a list, in order.
pub fn ty_trees(alloc: Global, types: LowTys) -> Result<Vec<Ty>, Memory>
    ensures { IfOk result (λ trees. tys_of (map ty_of trees.items) ≡ low_tys_of types) }
{
    let mut types = types.trees;
    let mut trees = Vec::with_capacity(alloc, types.len())?;
    while let Some(ty) = types.pop() {
        trees.push(ty.tree)?;
    }
    Ok(trees)
}

/// The patterns of a list, in order.
pub fn pat_trees(alloc: Global, pats: LowPats) -> Result<Vec<Pat>, Memory>
    ensures { IfOk result (λ trees. pats_of (map pat_of trees.items) ≡ low_pats_of pats) }
{
    let mut pats = pats.trees;
    let mut trees = Vec::with_capacity(alloc, pats.len())?;
    while let Some(pat) = pats.pop() {
        trees.push(pat.tree)?;
    }
    Ok(trees)
}

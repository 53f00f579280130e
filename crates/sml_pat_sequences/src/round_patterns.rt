//! Patterns in round brackets, with their heights.

ghost use Rattle.std.specs.Prelude.{◌≡◌, map, IfOk};
ghost use Rattle.sml_tree.specs.PatternViews.{pat_of, pats_of};
ghost use Rattle.sml_pat_sequences.specs.LowViews.{GivesPat, low_pats_of};
ghost use Rattle.sml_pat_sequences.specs.RoundPatterns.{round_pat};

use crate::low_lists::pat_trees;
use sml_lex::fault::{Memory, Place};
use sml_phrases::low::{LowPat, LowPats};
use sml_phrases::phrase::Failure;
use sml_phrases::raise::raised;
use sml_tree::patterns::Pat;
use std::alloc::Global;

fn round_tree(alloc: Global, place: Place, pats: Vec<Pat>) -> Result<Pat, Memory>
    ensures { IfOk result (λ pat. pat_of pat ≡ round_pat place (pats_of (map pat_of pats.items))) }
{
    let mut pats = pats;
    if pats.len() != 1 {
        return Ok(Pat::Tuple(place, pats));
    }
    match pats.pop() {
        Some(pat) => Ok(Pat::Bracket(place, Box::new(alloc, pat)?)),
        None => Ok(Pat::Tuple(place, pats)),
    }
}

/// Patterns in round brackets.
#[tactic(auto, using(crate::proofs::RoundPatterns::round_pat_height))]
pub fn round_pat(alloc: Global, place: Place, pats: LowPats) -> Result<LowPat, Failure>
    ensures { GivesPat (round_pat place (low_pats_of pats)) result }
{
    let height = raised(pats.height, 1)?;
    let tree = round_tree(alloc, place, pat_trees(alloc, pats)?)?;
    Ok(LowPat { tree, height })
}

//! The nodes that some nodes lead to.

ghost use Rattle.std.specs.Prelude.{◌≡◌, ℕ, ◌<◌, [], length, IfOk};
ghost use Rattle.std.specs.Bool.{OnTrue, OnFalse};
ghost use Rattle.std.specs.List.{AllByRecursion};
ghost use Rattle.sml_objects.specs.Appearance.{Stands};
ghost use Rattle.sml_graph.specs.Graphs.{IsSound};
ghost use Rattle.sml_schemes.specs.Fixed.{IsMarked, IsReach, AreMarks, places_of};

use sml_graph::cell::{Cell, push_parts};
use sml_graph::node::NodeId;
use sml_lex::fault::Memory;
use std::alloc::Global;

/// Marks some nodes and all that they lead to.
pub(crate) fn reached(alloc: Global, nodes: &[Cell], from: &[NodeId]) -> Result<Vec<bool>, Memory>
    requires sound { IsSound nodes.now }
    requires inside { AllByRecursion (λ i. i < length nodes.now) from.now }
    ensures { IfOk result (λ marks. IsReach nodes.now from.now marks.items []) }
{
    let mut marks = Vec::new(alloc);
    marks.resize(nodes.len(), false)?;
    let mut pending = Vec::from_slice(alloc, from)?;
    while let Some(at) = pending.pop() {
        if !marks[at as usize] {
            marks[at as usize] = true;
            push_parts(&mut pending, &nodes[at as usize])?;
        }
    }
    Ok(marks)
}

/// The same. The nodes at the end that get no mark may be missing: where no node is given, nothing is gone through.
pub fn marks_from(alloc: Global, nodes: &[Cell], from: &[NodeId]) -> Result<Vec<bool>, Memory>
    requires sound { IsSound nodes.now }
    requires inside { AllByRecursion (λ i. i < length nodes.now) from.now }
    ensures { IfOk result (λ marks. AreMarks nodes.now from.now marks.items) }
{
    if from.is_empty() {
        return Ok(Vec::new(alloc));
    }
    let marks = reached(alloc, nodes, from)?;
    Ok(marks)
}

/// The places of some unknowns.
pub fn places(alloc: Global, unknowns: &[NodeId], others: &[u32]) -> Result<Vec<NodeId>, Memory>
    requires { AllByRecursion (λ w. w < length unknowns.now) others.now }
    ensures { IfOk result (λ places. places.items ≡ places_of unknowns.now others.now) }
{
    let mut places = Vec::new(alloc);
    for other in others {
        places.push(unknowns[*other as usize])?;
    }
    Ok(places)
}

/// Whether one of some unknowns has a flag.
pub fn has_flag(flags: &[bool], unknowns: &[u32]) -> bool
    requires { AllByRecursion (λ v. v < length flags.now) unknowns.now }
    ensures yes { OnTrue result ((v : ℕ) × Stands v unknowns.now × IsMarked flags.now v) }
    ensures no { OnFalse result (AllByRecursion (λ v. IsMarked flags.now v → ⊥) unknowns.now) }
{
    for unknown in unknowns {
        if flags[*unknown as usize] {
            return true;
        }
    }
    false
}

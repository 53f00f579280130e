//! How old the oldest unknown is that leads to a node. It is handed on from a node to its parts, from the nodes that were
//! changed on.

ghost use Rattle.std.specs.Prelude.{◌≡◌, ℕ, ◌↔◌, ◌<◌, ◌≤◌, ◌^◌, [], ◌∷◌, true, false, length, slice_index_or, IfOk, OnOk};
ghost use Rattle.std.specs.Bool.{OnTrue, OnFalse};
ghost use Rattle.std.specs.List.{AllByRecursion};
ghost use Rattle.std.specs.List.Sorted.{IsNonDecreasingBy};
ghost use Rattle.sml_graph.specs.Graphs.{IsSound};
ghost use Rattle.sml_graph.specs.Changes.{AreCovered, AreInside};
ghost use Rattle.sml_demands.specs.CodeLevels.{level_of, level_at, level_rank, AreHandedBut, AreHeld, BeginsLevel, LowersLevels, HandsLevels};

use crate::count::root_of;
use sml_graph::cell::{Cell, parts_from};
use sml_graph::change::{Change, fewest};
use sml_graph::node::NodeId;
use sml_lex::fault::Memory;
use std::alloc::Global;

/// Whether a level is lower than another. Where no unknown leads to a node, it has none, which is above all others.
pub(crate) fn is_lower(one: Option<u32>, other: Option<u32>) -> bool
    ensures yes { OnTrue result (level_of one < level_of other) }
    ensures no { OnFalse result (level_of other ≤ level_of one) }
{
    match (one, other) {
        (None, None) => false,
        (None, Some(_)) => false,
        (Some(_), None) => true,
        (Some(first), Some(second)) => first < second,
    }
}

/// Gives a level to a node that is new.
pub fn begin_level(levels: &mut Vec<Option<u32>>, at: usize, level: u32) -> Result<(), Memory>
    requires { length levels.old.items ≤ at }
    ensures { OnOk result (BeginsLevel levels.old.items at level levels.new.items) }
{
    levels.resize(at, None)?;
    levels.push(Some(level))?;
    Ok(())
}

/// Lowers the level of a node, which is then left to do.
fn lower_level(
    levels: &mut Vec<Option<u32>>,
    pending: &mut Vec<Change>,
    at: NodeId,
    level: Option<u32>,
) -> Result<(), Memory>
    requires { at < length levels.old.items }
    ensures { OnOk result (LowersLevels levels.old.items pending.old.items (at ∷ []) (level_of level) levels.new.items pending.new.items) }
{
    if is_lower(level, levels[at as usize]) {
        pending.push(Change::of(at))?;
        levels[at as usize] = level;
    }
    Ok(())
}

/// The same for several nodes.
fn lower_levels(
    levels: &mut Vec<Option<u32>>,
    pending: &mut Vec<Change>,
    parts: &[NodeId],
    level: Option<u32>,
) -> Result<(), Memory>
    requires { AllByRecursion (λ k. k < length levels.old.items) parts.now }
    ensures { OnOk result (LowersLevels levels.old.items pending.old.items parts.now (level_of level) levels.new.items pending.new.items) }
{
    for part in parts {
        lower_level(levels, pending, *part, level)?;
    }
    Ok(())
}

/// Where a node comes in the order in which levels are handed on: the lower its level, the later.
fn rank_of(levels: &[Option<u32>], node: NodeId) -> u32
    ensures { result ≡ level_rank levels.now node }
{
    if (node as usize) < levels.len() {
        match levels[node as usize] {
            Some(level) => u32::MAX - level,
            None => 0,
        }
    } else {
        0
    }
}

/// Changes that cover others, those of the nodes with the lowest levels last. So each node gets a level once, where levels
/// are handed on from the last.
pub fn by_level(
    alloc: Global,
    levels: &[Option<u32>],
    changes: Vec<Change>,
) -> Result<Vec<Change>, Memory>
    ensures covers { IfOk result (λ sorted. AreCovered changes.items sorted.items) }
    ensures inside { (n : ℕ) → AreInside n changes.items → IfOk result (λ sorted. AreInside n sorted.items) }
    ensures order { IfOk result (λ sorted. IsNonDecreasingBy (λ c. level_rank levels.now c.node) sorted.items) }
{
    let mut few = fewest(alloc, changes)?;
    few.sort_by_key(|change| rank_of(levels, change.node))?;
    Ok(few)
}

/// Hands levels on from the changes that are left to do to all that these lead to. Nodes that have no level yet may be
/// missing at the end.
pub fn hand_levels_on(
    nodes: &[Cell],
    levels: &mut Vec<Option<u32>>,
    mut pending: Vec<Change>,
) -> Result<(), Memory>
    requires sound { IsSound nodes.now }
    requires within { length levels.old.items ≤ length nodes.now }
    requires inside { AreInside (length nodes.now) pending.items }
    requires but { AreHandedBut nodes.now levels.old.items pending.items }
    ensures { OnOk result (HandsLevels nodes.now levels.old.items levels.new.items) }
{
    levels.resize(nodes.len(), None)?;
    while let Some(change) = pending.pop() {
        let level = levels[change.node as usize];
        let parts = parts_from(&nodes[change.node as usize], change.from);
        lower_levels(levels, &mut pending, parts, level)?;
    }
    Ok(())
}

/// Whether one of the first unknowns leads to a node.
fn has_older(levels: &[Option<u32>], first: usize, node: NodeId) -> bool
    requires { first ≤ 2 ^ 32 }
    ensures { (result ≡ true) ↔ (level_at levels.now node < first) }
{
    if (node as usize) < levels.len() {
        match levels[node as usize] {
            Some(level) => (level as usize) < first,
            None => false,
        }
    } else {
        false
    }
}

fn has_mark(marks: &[bool], node: NodeId) -> bool
    ensures { result ≡ slice_index_or marks.now node false }
{
    (node as usize) < marks.len() && marks[node as usize]
}

/// For each unknown, whether it is one of the first, one of these leads to it, or its node has a mark.
pub fn held_unknowns(
    alloc: Global,
    nodes: &[Cell],
    unknowns: &[NodeId],
    levels: &[Option<u32>],
    first: usize,
    marks: &[bool],
) -> Result<Vec<bool>, Memory>
    requires sound { IsSound nodes.now }
    requires inside { AllByRecursion (λ i. i < length nodes.now) unknowns.now }
    requires first { first ≤ length unknowns.now }
    requires few { length unknowns.now ≤ 2 ^ 32 }
    ensures { IfOk result (λ flags. AreHeld nodes.now unknowns.now levels.now first marks.now flags.items) }
{
    let mut flags = Vec::new(alloc);
    flags.resize(first, true)?;
    for index in first..unknowns.len() {
        let root = root_of(nodes, unknowns[index]);
        flags.push(has_older(levels, first, root) || has_mark(marks, root))?;
    }
    Ok(flags)
}

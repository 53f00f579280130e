//! Whether finite types meet the nodes. The search goes from what was changed, and stops at nodes that have their order.

ghost use Rattle.std.specs.Prelude.{◌≡◌, ℕ, ◌+◌, ◌^◌, ◌<◌, ◌≤◌, List, [], length, slice_index, IfOk, OnOk, OnSome};
ghost use Rattle.std.specs.Bool.{OnTrue, OnFalse};
ghost use Rattle.std.specs.Option.{IfSome, IfNone};
ghost use Rattle.std.specs.List.{AllByRecursion};
ghost use Rattle.sml_objects.specs.Appearance.{Stands};
ghost use Rattle.sml_graph.specs.declared.node.Node.{Node};
ghost use Rattle.sml_graph.specs.Graphs.{IsSound, parts};
ghost use Rattle.sml_graph.specs.Changes.{SameOutside, AreInside};
ghost use Rattle.sml_graph.specs.CodeRanks.{HasRank, AreFrom, AreOrdered, AreOrderedBut, Gives, IsDone, IsSearch, order_at};

use crate::cell::{Cell, parts_from};
use crate::change::Change;
use crate::node::NodeId;
use crate::orders::{NO_ORDER, Orders, unordered};
use sml_lex::fault::Memory;
use std::alloc::Global;

/// A node whose parts are being gone through, and the next of them.
#[derive(Clone, Copy)]
pub struct Visit {
    node: NodeId,
    next: usize,
}

/// A part of a node.
fn part_at(node: &Cell, next: usize) -> Option<NodeId>
    ensures none { IfNone result (length (parts node.now) ≤ next) }
    ensures within { OnSome result (next < length (parts node.now)) }
    ensures value { IfSome result (λ k. k ≡ slice_index (parts node.now) next) }
    ensures small { OnSome result (next + 1 < 2 ^ 64) }
{
    let parts = node.parts();
    if next < parts.len() {
        Some(parts[next])
    } else {
        None
    }
}

/// Visits a node and all that it leads to without an order below the limit, and gives each its order. `false` where a
/// node leads to itself.
fn search(
    alloc: Global,
    nodes: &[Cell],
    orders: &mut [u64],
    given: &mut Orders,
    root: NodeId,
) -> Result<bool, Memory>
    requires sound { IsSound nodes.now }
    requires positive { 0 < given.old.lowest }
    requires inside { root < length nodes.now }
    requires search { IsSearch nodes.now given.old.limit orders.old [] }
    requires new { given.old.limit ≤ order_at orders.old root }
    ensures search { IfOk result (λ found. OnTrue found (IsSearch nodes.now given.old.limit orders.new [])) }
    ensures done { IfOk result (λ found. OnTrue found (IsDone given.old.limit (order_at orders.new root))) }
    ensures gives { IfOk result (λ found. OnTrue found (Gives nodes.now given.old.lowest given.old.limit orders.old orders.new)) }
    ensures lowest { OnOk result (given.new.lowest ≡ given.old.lowest) }
    ensures limit { OnOk result (given.new.limit ≡ given.old.limit) }
    ensures no { IfOk result (λ found. OnFalse found (HasRank nodes.now → ⊥)) }
{
    let mut visits = Vec::new(alloc);
    orders[root as usize] = 0;
    visits.push(Visit {
        node: root,
        next: 0,
    })?;
    while let Some(visit) = visits.pop() {
        match part_at(&nodes[visit.node as usize], visit.next) {
            None => orders[visit.node as usize] = given.of(orders, &nodes[visit.node as usize])?,
            Some(part) => {
                let order = orders[part as usize];
                if order == 0 {
                    return Ok(false);
                }
                if given.limit <= order {
                    visits.push(visit)?;
                    orders[part as usize] = 0;
                    visits.push(Visit {
                        node: part,
                        next: 0,
                    })?;
                } else {
                    visits.push(Visit {
                        node: visit.node,
                        next: visit.next + 1,
                    })?;
                }
            }
        }
    }
    Ok(true)
}

/// Gives some nodes and all that they lead to an order below the limit. `false` where a node leads to itself.
fn give_orders(
    alloc: Global,
    nodes: &[Cell],
    orders: &mut [u64],
    given: &mut Orders,
    from: &[NodeId],
) -> Result<bool, Memory>
    requires sound { IsSound nodes.now }
    requires positive { 0 < given.old.lowest }
    requires inside { AllByRecursion (λ i. i < length nodes.now) from.now }
    requires search { IsSearch nodes.now given.old.limit orders.old [] }
    ensures search { IfOk result (λ found. OnTrue found (IsSearch nodes.now given.old.limit orders.new [])) }
    ensures done { IfOk result (λ found. OnTrue found (AllByRecursion (λ i. IsDone given.old.limit (order_at orders.new i)) from.now)) }
    ensures gives { IfOk result (λ found. OnTrue found (Gives nodes.now given.old.lowest given.old.limit orders.old orders.new)) }
    ensures no { IfOk result (λ found. OnFalse found (HasRank nodes.now → ⊥)) }
{
    for root in from {
        if given.limit <= orders[*root as usize] && !search(alloc, nodes, orders, given, *root)? {
            return Ok(false);
        }
    }
    Ok(true)
}

/// The nodes that were changed, and their parts that may be new.
fn with_parts(alloc: Global, nodes: &[Cell], changed: &[Change]) -> Result<Vec<NodeId>, Memory>
    requires sound { IsSound nodes.now }
    requires inside { AreInside (length nodes.now) changed.now }
    ensures inside { IfOk result (λ all. AllByRecursion (λ i. i < length nodes.now) all.items) }
    ensures changed { IfOk result (λ all. AllByRecursion (λ c. Stands c.node all.items) changed.now) }
{
    let mut all = Vec::new(alloc);
    for change in changed {
        all.push(change.node)?;
        all.extend_from_slice(parts_from(&nodes[change.node as usize], change.from))?;
    }
    Ok(all)
}

/// Whether no node leads to itself, as far as that may have changed. What has no order gets one above those of its
/// parts; a new part that isn't below its node goes with all that it leads to below all other nodes.
pub(crate) fn is_finite(
    alloc: Global,
    nodes: &[Cell],
    orders: &mut [u64],
    bottom: &mut u64,
    top: &mut u64,
    changed: &[Change],
) -> Result<bool, Memory>
    requires sound { IsSound nodes.now }
    requires len { length orders.old ≡ length nodes.now }
    requires from { AreFrom bottom.old orders.old }
    requires positive { 0 < bottom.old }
    requires ordered { AreOrderedBut nodes.now orders.old changed.now }
    requires inside { AreInside (length nodes.now) changed.now }
    ensures from { IfOk result (λ b. OnTrue b (AreFrom bottom.new orders.new)) }
    ensures positive { IfOk result (λ b. OnTrue b (0 < bottom.new)) }
    ensures ordered { IfOk result (λ b. OnTrue b (AreOrdered nodes.now orders.new)) }
    ensures yes { IfOk result (λ b. OnTrue b ((before : List Node) → HasRank before → SameOutside before nodes.now changed.now → HasRank nodes.now)) }
    ensures no { IfOk result (λ b. OnFalse b (HasRank nodes.now → ⊥)) }
{
    let mut new = Orders {
        lowest: *bottom,
        limit: NO_ORDER,
        next: *top,
    };
    let from = with_parts(alloc, nodes, changed)?;
    if !give_orders(alloc, nodes, orders, &mut new, from.as_slice())? {
        return Ok(false);
    }
    *top = new.next;
    let again = unordered(alloc, nodes, orders, changed)?;
    if again.is_empty() {
        return Ok(true);
    }
    let mut below = Orders::below(*bottom, nodes.len())?;
    *bottom = below.lowest;
    let found = give_orders(alloc, nodes, orders, &mut below, again.as_slice())?;
    Ok(found)
}

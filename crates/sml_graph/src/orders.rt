//! Orders of nodes: numbers, each above those of the node's parts. Where all nodes have one, no node leads to itself.

ghost use Rattle.std.specs.Prelude.{◌≡◌, ◌<◌, ◌≤◌, length, IfOk, OnOk};
ghost use Rattle.std.specs.List.{AllByRecursion};
ghost use Rattle.sml_graph.specs.Graphs.{IsSound, parts};
ghost use Rattle.sml_graph.specs.Changes.{AreInside};
ghost use Rattle.sml_graph.specs.CodeRanks.{order_at, IsAbove, IsFoundIn, FindsUnordered};

use crate::cell::{Cell, Shape, parts_from};
use crate::change::Change;
use crate::node::NodeId;
use sml_lex::fault::Memory;
use std::alloc::Global;

/// Stands for the order of a node that has none yet.
pub(crate) const NO_ORDER: u64 = u64::MAX;

/// Where the orders begin: those of new nodes rise from here, and those of nodes that are searched again fall.
pub const MIDDLE: u64 = 1 << 63;

/// How far the orders of unknowns are apart, so that types of other unknowns fit between.
const STEP: u64 = 4096;

/// The orders that a search gives: from the lowest on and below the limit. Those of unknowns rise from the next one on.
#[derive(Clone, Copy)]
pub(crate) struct Orders {
    pub(crate) lowest: u64,
    pub(crate) limit: u64,
    pub(crate) next: u64,
}

/// An order above those of some nodes, from the least one on. None that a `u64` holds counts as want of memory.
fn above_all(orders: &[u64], kids: &[NodeId], least: u64) -> Result<u64, Memory>
    requires { AllByRecursion (λ k. k < length orders.now) kids.now }
    ensures above { IfOk result (λ n. AllByRecursion (λ k. order_at orders.now k < n) kids.now) }
    ensures least { IfOk result (λ n. least ≤ n) }
{
    let mut order = least;
    for kid in kids {
        if order <= orders[*kid as usize] {
            match orders[*kid as usize].checked_add(1) {
                Some(next) => order = next,
                None => return Err(Memory),
            }
        }
    }
    Ok(order)
}

/// An order above those of a node's parts, from the least one on.
fn above(orders: &[u64], node: &Cell, least: u64) -> Result<u64, Memory>
    requires { AllByRecursion (λ k. k < length orders.now) (parts node.now) }
    ensures above { IfOk result (λ n. IsAbove orders.now node.now n) }
    ensures least { IfOk result (λ n. least ≤ n) }
{
    above_all(orders, node.parts(), least)
}

impl Orders {
    /// The order of an unknown. The next one is a step above it.
    fn unknown(&mut self) -> Result<u64, Memory>
        ensures lowest { self.new.lowest ≡ self.old.lowest }
        ensures limit { self.new.limit ≡ self.old.limit }
        ensures least { IfOk result (λ n. self.old.lowest ≤ n) }
    {
        let order = if self.next < self.lowest {
            self.lowest
        } else {
            self.next
        };
        match order.checked_add(STEP) {
            Some(next) => self.next = next,
            None => return Err(Memory),
        }
        Ok(order)
    }

    /// The order of a node whose parts have theirs. None below the limit counts as want of memory.
    pub(crate) fn of(&mut self, orders: &[u64], node: &Cell) -> Result<u64, Memory>
        requires { AllByRecursion (λ k. k < length orders.now) (parts node.now) }
        ensures lowest { self.new.lowest ≡ self.old.lowest }
        ensures limit { self.new.limit ≡ self.old.limit }
        ensures least { IfOk result (λ n. self.old.lowest ≤ n) }
        ensures below { IfOk result (λ n. n < self.old.limit) }
        ensures above { IfOk result (λ n. IsAbove orders.now node.now n) }
    {
        let least = match node.shape() {
            Shape::Unknown => self.unknown()?,
            _ => self.lowest,
        };
        let order = above(orders, node, least)?;
        if order < self.limit {
            Ok(order)
        } else {
            Err(Memory)
        }
    }

    /// Orders below all those that were given, for so many nodes.
    pub(crate) fn below(bottom: u64, count: usize) -> Result<Self, Memory>
        ensures lowest { IfOk result (λ o. 0 < o.lowest) }
        ensures order { IfOk result (λ o. o.lowest ≤ bottom) }
        ensures limit { IfOk result (λ o. o.limit ≡ bottom) }
    {
        let Some(steps) = (count as u64).checked_add(2) else {
            return Err(Memory);
        };
        let Some(span) = steps.checked_mul(STEP) else {
            return Err(Memory);
        };
        match bottom.checked_sub(span) {
            Some(lowest) if 0 < lowest => Ok(Orders {
                lowest,
                limit: bottom,
                next: lowest,
            }),
            _ => Err(Memory),
        }
    }
}

/// Adds those of some parts that aren't below an order.
fn push_unordered(
    orders: &[u64],
    found: &mut Vec<NodeId>,
    parts: &[NodeId],
    order: u64,
) -> Result<(), Memory>
    requires { AllByRecursion (λ k. k < length orders.now) parts.now }
    ensures { OnOk result (FindsUnordered orders.now parts.now order found.old.items found.new.items) }
{
    for part in parts {
        if order <= orders[*part as usize] {
            found.push(*part)?;
        }
    }
    Ok(())
}

/// The new parts of what was changed that aren't below their nodes.
pub(crate) fn unordered(
    alloc: Global,
    nodes: &[Cell],
    orders: &[u64],
    changed: &[Change],
) -> Result<Vec<NodeId>, Memory>
    requires sound { IsSound nodes.now }
    requires len { length orders.now ≡ length nodes.now }
    requires inside { AreInside (length nodes.now) changed.now }
    ensures inside { IfOk result (λ found. AllByRecursion (λ i. i < length nodes.now) found.items) }
    ensures rest { IfOk result (λ found. AllByRecursion (IsFoundIn nodes.now orders.now found.items) changed.now) }
{
    let mut found = Vec::new(alloc);
    for change in changed {
        let parts = parts_from(&nodes[change.node as usize], change.from);
        push_unordered(orders, &mut found, parts, orders[change.node as usize])?;
    }
    Ok(found)
}

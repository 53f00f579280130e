//! The graph of a solver: its nodes, what is asked of each, and their order.

ghost use Rattle.std.specs.Prelude.{◌≡◌, ◌≢◌, ℕ, ◌<◌, ◌≤◌, ◌↔◌, List, None, length, IfOk, OnOk, Err};
ghost use Rattle.std.specs.Bool.{OnTrue, OnFalse};
ghost use Rattle.std.specs.List.{AllByRecursion};
ghost use Rattle.std.specs.Option.{IfSome};
ghost use Rattle.sml_objects.specs.Views.{type_of, maker_of};
ghost use Rattle.sml_layers.specs.declared.layer.Layer.{Layer};
ghost use Rattle.sml_graph.specs.declared.node.Node.{Node};
ghost use Rattle.sml_layers.specs.Worlds.{World, finite};
ghost use Rattle.sml_graph.specs.Worlds.{Assignment};
ghost use Rattle.sml_graph.specs.Graphs.{IsSound, Meets};
ghost use Rattle.sml_graph.specs.Changes.{SameOutside, AreInside};
ghost use Rattle.sml_graph.specs.Interned.{IsOver, Interns};
ghost use Rattle.sml_graph.specs.CodeRanks.{order_at};
ghost use Rattle.sml_graph.specs.Limits.{limit_at, IsClosed, IsFit, IsBefore, IsDoneBut, SameLimits, NoneKeeps};
ghost use Rattle.sml_graph.specs.CodeWhole.{IsFull, HasBottom, IsWhole, IsChanged, Finishes, FailsAt};

use crate::cell::Cell;
use crate::change::Change;
use crate::demand::Refusal;
use crate::finite::is_finite;
use crate::intern::intern;
use crate::limit_table::Limits;
use crate::limits::hand_on_all;
use crate::merge::{Unsolved, solve};
use crate::node::NodeId;
use crate::orders::NO_ORDER;
use sml_layers::layer::Layer;
use sml_lex::fault::Memory;
use sml_objects::objects::{MlType, UnitId};
use std::alloc::Global;

/// Nodes, what is asked of each, and the order of each. All orders are at or above the bottom, and new ones come at the top.
#[derive(Drop)]
pub struct Graph {
    pub nodes: Vec<Cell>,
    pub limits: Limits,
    pub orders: Vec<u64>,
    pub bottom: u64,
    pub top: u64,
}

/// Adds limits and orders for the nodes that have none yet.
pub fn fill(graph: &mut Graph) -> Result<(), Memory>
    requires limits { length graph.old.limits ≡ length graph.old.orders.items }
    requires bottom { HasBottom graph.old }
    ensures nodes { OnOk result (graph.new.nodes.items ≡ graph.old.nodes.items) }
    ensures limits { OnOk result ((i : ℕ) → limit_at graph.new.limits i ≡ limit_at graph.old.limits i) }
    ensures orders { OnOk result ((i : ℕ) → order_at graph.new.orders.items i ≡ order_at graph.old.orders.items i) }
    ensures full { OnOk result (length graph.old.orders.items ≤ length graph.old.nodes.items → IsFull graph.new) }
{
    while graph.orders.len() < graph.nodes.len() {
        graph.limits.push_none()?;
        graph.orders.push(NO_ORDER)?;
    }
    Ok(())
}

/// Adds nodes for a type, and gives the node that has it.
pub fn add(
    alloc: Global,
    graph: &mut Graph,
    unknowns: &[NodeId],
    ty: &MlType,
) -> Result<NodeId, Memory>
    requires full { IsFull graph.old }
    requires sound { IsSound graph.old.nodes.items }
    requires inside { AllByRecursion (λ u. u < length graph.old.nodes.items) unknowns.now }
    requires known { IsOver (length unknowns.now) (type_of ty.now) }
    ensures interns { IfOk result (λ r. Interns graph.old.nodes.items unknowns.now (type_of ty.now) graph.new.nodes.items r) }
    ensures limits { OnOk result ((i : ℕ) → limit_at graph.new.limits i ≡ limit_at graph.old.limits i) }
    ensures whole { OnOk result ((u : ℕ) → IsWhole u graph.old → IsWhole u graph.new) }
    ensures full { OnOk result (IsFull graph.new) }
{
    let at = intern(alloc, &mut graph.nodes, unknowns, ty)?;
    fill(graph)?;
    Ok(at)
}

/// Makes one node of two. Gives what was changed.
pub fn merge_two(
    alloc: Global,
    nodes: &mut Vec<Cell>,
    left: NodeId,
    right: NodeId,
) -> Result<Vec<Change>, Refusal>
    requires sound { IsSound nodes.old.items }
    requires left { left < length nodes.old.items }
    requires right { right < length nodes.old.items }
    ensures len { OnOk result (length nodes.new.items ≡ length nodes.old.items) }
    ensures sound { OnOk result (IsSound nodes.new.items) }
    ensures same { OnOk result ((w : World) (σ : Assignment w) → Meets w nodes.new.items σ ↔ (Meets w nodes.old.items σ × (σ left ≡ σ right))) }
    ensures outside { IfOk result (λ changed. SameOutside nodes.old.items nodes.new.items changed.items) }
    ensures inside { IfOk result (λ changed. AreInside (length nodes.old.items) changed.items) }
    ensures unmet { (l : Layer) → result ≡ Err (Refusal.Unmet l) → l ≡ Layer.Equations }
    ensures clash { (l : Layer) → result ≡ Err (Refusal.Unmet l) → (w : World) (σ : Assignment w) → Meets w nodes.old.items σ → σ left ≡ σ right → ⊥ }
    ensures spent { result ≡ Err Refusal.Spent → ⊥ }
    ensures labels { result ≡ Err Refusal.Labels → ⊥ }
{
    let mut pending = Vec::new(alloc);
    if let Err(_) = pending.push((left, right)) {
        return Err(Refusal::Memory);
    }
    match solve(alloc, nodes, pending, Vec::new(alloc)) {
        Ok(changed) => Ok(changed),
        Err(Unsolved::Clash) => Err(Refusal::Unmet(Layer::Equations)),
        Err(Unsolved::Memory) => Err(Refusal::Memory),
    }
}

/// Hands limits on from what was changed. Gives the first layer in which a limit isn't kept.
fn hand_on_from(
    alloc: Global,
    nodes: &[Cell],
    limits: &mut Limits,
    unit: UnitId,
    changed: &[Change],
) -> Result<Option<Layer>, Memory>
    requires sound { IsSound nodes.now }
    requires len { length limits.old ≡ length nodes.now }
    requires inside { AreInside (length nodes.now) changed.now }
    requires but { IsDoneBut (maker_of unit) nodes.now limits.old None changed.now }
    ensures len { OnOk result (length limits.new ≡ length nodes.now) }
    ensures closed { OnOk result (IsClosed nodes.now limits.new) }
    ensures fit { IfOk result (λ failed. (l : Layer) → IsBefore l failed → IsFit l (maker_of unit) nodes.now limits.new) }
    ensures same { OnOk result (SameLimits (maker_of unit) nodes.now limits.old limits.new) }
    ensures fails { IfOk result (λ failed. IfSome failed (NoneKeeps (maker_of unit) nodes.now limits.old)) }
{
    let pending = Vec::from_slice(alloc, changed)?;
    let failed = hand_on_all(nodes, limits, unit, pending)?;
    Ok(failed)
}

/// Makes a graph whole again from what was changed, layer by layer.
pub fn finish(
    alloc: Global,
    graph: &mut Graph,
    unit: UnitId,
    changed: &[Change],
) -> Result<(), Refusal>
    requires { IsChanged (maker_of unit) graph.old changed.now }
    ensures ok { OnOk result (Finishes (maker_of unit) graph.old graph.new) }
    ensures unmet { (l : Layer) → result ≡ Err (Refusal.Unmet l) → FailsAt l (maker_of unit) graph.old }
    ensures spent { result ≡ Err Refusal.Spent → ⊥ }
    ensures labels { result ≡ Err Refusal.Labels → ⊥ }
{
    let nodes = graph.nodes.as_slice();
    let orders = graph.orders.as_mut_slice();
    if !is_finite(
        alloc,
        nodes,
        orders,
        &mut graph.bottom,
        &mut graph.top,
        changed,
    )? {
        return Err(Refusal::Unmet(Layer::Finiteness));
    }
    match hand_on_from(alloc, nodes, &mut graph.limits, unit, changed)? {
        Some(layer) => Err(Refusal::Unmet(layer)),
        None => Ok(()),
    }
}

//! Demands on the types of a graph.

ghost use Rattle.std.specs.Prelude.{◌≡◌, ℕ, false, ◌<◌, [], length, IfOk, OnOk, Err};
ghost use Rattle.std.specs.List.{AllByRecursion};
ghost use Rattle.sml_objects.specs.Views.{type_of, maker_of};
ghost use Rattle.sml_layers.specs.declared.layer.Layer.{Layer};
ghost use Rattle.sml_layers.specs.Worlds.{World};
ghost use Rattle.sml_graph.specs.Worlds.{Assignment};
ghost use Rattle.sml_graph.specs.Graphs.{IsSound, Meets, AreOwners, fields_of};
ghost use Rattle.sml_graph.specs.Interned.{IsOver, IsPushed, InternsFields, IsRowWith, AsksRow, demanded};
ghost use Rattle.sml_graph.specs.Limits.{limit_at};
ghost use Rattle.sml_graph.specs.CodeRanks.{HasRank, order_at};
ghost use Rattle.sml_graph.specs.Asked.{asked_of, equal, has_fields, asks, Adds, CanMeet, IsFirstUnmet};
ghost use Rattle.sml_demands.specs.CodeLevels.{Moves};
ghost use Rattle.sml_graph.specs.CodeWhole.{IsFull, IsWhole, IsChanged, IsKept, LowersLimit};

use sml_graph::cell::Cell;
use sml_graph::change::Change;
use sml_graph::demand::{Ask, Refusal};
use sml_graph::fields::Fields;
use sml_graph::graph::{Graph, add, fill, finish, merge_two};
use sml_graph::limits::{Limit, lower};
use sml_graph::merge::{Unsolved, solve};
use sml_graph::node::{Node, NodeId};
use sml_layers::layer::Layer;
use sml_lex::fault::Memory;
use sml_objects::objects::{MlType, UnitId};
use sml_tree::bare::Ident;
use std::alloc::Global;
use std::rc::Rc;

/// Demands that two types are equal. Gives what was changed.
pub fn equate(
    alloc: Global,
    unit: UnitId,
    graph: &mut Graph,
    unknowns: &[NodeId],
    left: &MlType,
    right: &MlType,
) -> Result<Vec<Change>, Refusal>
    requires kept { IsKept (maker_of unit) graph.old unknowns.now }
    requires left { IsOver (length unknowns.now) (type_of left.now) }
    requires right { IsOver (length unknowns.now) (type_of right.now) }
    ensures moves { IfOk result (λ changed. Moves graph.old.nodes.items graph.new.nodes.items changed.items) }
    ensures kept { OnOk result (IsKept (maker_of unit) graph.new unknowns.now) }
    ensures ok { OnOk result (Adds (asked_of (maker_of unit) unknowns.now graph.old false) (equal (type_of left.now) (type_of right.now)) (asked_of (maker_of unit) unknowns.now graph.new false)) }
    ensures met { OnOk result ((l : Layer) → CanMeet l (asked_of (maker_of unit) unknowns.now graph.old false) (equal (type_of left.now) (type_of right.now))) }
    ensures unmet { (l : Layer) → result ≡ Err (Refusal.Unmet l) → IsFirstUnmet l (asked_of (maker_of unit) unknowns.now graph.old false) (equal (type_of left.now) (type_of right.now)) }
    ensures spent { result ≡ Err Refusal.Spent → ⊥ }
    ensures labels { result ≡ Err Refusal.Labels → ⊥ }
{
    let Ok(first) = add(alloc, graph, unknowns, left) else {
        return Err(Refusal::Memory);
    };
    let Ok(second) = add(alloc, graph, unknowns, right) else {
        return Err(Refusal::Memory);
    };
    match merge_two(alloc, &mut graph.nodes, first, second) {
        Err(refusal) => Err(refusal),
        Ok(changed) => match finish(alloc, graph, unit, changed.as_slice()) {
            Err(refusal) => Err(refusal),
            Ok(()) => Ok(changed),
        },
    }
}

/// Adds nodes for the types of some fields. Where a label stands twice, its nodes are a pair left to solve.
fn add_kids(
    alloc: Global,
    graph: &mut Graph,
    unknowns: &[NodeId],
    fields: &[(Ident, Rc<MlType>)],
    row: &mut Fields,
    pending: &mut Vec<(NodeId, NodeId)>,
) -> Result<(), Memory>
    requires full { IsFull graph.old }
    requires sound { IsSound graph.old.nodes.items }
    requires inside { AllByRecursion (λ u. u < length graph.old.nodes.items) unknowns.now }
    requires known { AllByRecursion (λ f. IsOver (length unknowns.now) f.1) (demanded fields.now) }
    requires row { fields_of row.old ≡ [] }
    requires pending { pending.old.items ≡ [] }
    ensures interns { OnOk result (InternsFields graph.old.nodes.items unknowns.now (demanded fields.now) graph.new.nodes.items (fields_of row.new) pending.new.items) }
    ensures limits { OnOk result ((i : ℕ) → limit_at graph.new.limits i ≡ limit_at graph.old.limits i) }
    ensures whole { OnOk result ((u : ℕ) → IsWhole u graph.old → IsWhole u graph.new) }
    ensures full { OnOk result (IsFull graph.new) }
{
    for i in 0..fields.len() {
        let kid = add(alloc, graph, unknowns, &fields[i].1)?;
        let label = fields[i].0.clone()?;
        if let Some(found) = row.add(label, kid)? {
            pending.push((found, kid))?;
        }
    }
    Ok(())
}

/// Adds a node for a row with some fields.
fn push_row(alloc: Global, graph: &mut Graph, row: Fields) -> Result<NodeId, Memory>
    requires { IsFull graph.old }
    ensures at { IfOk result (λ r. r ≡ length graph.old.nodes.items) }
    ensures nodes { OnOk result (IsPushed graph.old.nodes.items (fields_of row) graph.new.nodes.items) }
    ensures limits { OnOk result ((i : ℕ) → limit_at graph.new.limits i ≡ limit_at graph.old.limits i) }
    ensures orders { OnOk result ((i : ℕ) → order_at graph.new.orders.items i ≡ order_at graph.old.orders.items i) }
    ensures full { OnOk result (IsFull graph.new) }
{
    let Ok(at) = NodeId::try_from(graph.nodes.len()) else {
        return Err(Memory);
    };
    let fields = Box::new(alloc, row)?;
    graph.nodes.push(Cell::of(alloc, Node::Open(fields))?)?;
    fill(graph)?;
    Ok(at)
}

/// Makes a type a row that has some fields. Gives what was changed.
fn open(
    alloc: Global,
    graph: &mut Graph,
    unknowns: &[NodeId],
    ty: &MlType,
    fields: &[(Ident, Rc<MlType>)],
) -> Result<Vec<Change>, Refusal>
    requires full { IsFull graph.old }
    requires sound { IsSound graph.old.nodes.items }
    requires inside { AllByRecursion (λ u. u < length graph.old.nodes.items) unknowns.now }
    requires ty { IsOver (length unknowns.now) (type_of ty.now) }
    requires fields { AllByRecursion (λ f. IsOver (length unknowns.now) f.1) (demanded fields.now) }
    ensures asks { OnOk result (AsksRow graph.old.nodes.items unknowns.now (type_of ty.now) (demanded fields.now) graph.new.nodes.items) }
    ensures limits { OnOk result ((i : ℕ) → limit_at graph.new.limits i ≡ limit_at graph.old.limits i) }
    ensures changed { IfOk result (λ changed. (u : ℕ) → IsWhole u graph.old → IsChanged u graph.new changed.items) }
    ensures moves { IfOk result (λ changed. Moves graph.old.nodes.items graph.new.nodes.items changed.items) }
    ensures owners { OnOk result (HasRank graph.new.nodes.items → AreOwners graph.old.nodes.items unknowns.now → AreOwners graph.new.nodes.items unknowns.now) }
    ensures unmet { (l : Layer) → result ≡ Err (Refusal.Unmet l) → l ≡ Layer.Equations }
    ensures clash { (l : Layer) → result ≡ Err (Refusal.Unmet l) → (w : World) (τ : Assignment w) → Meets w graph.old.nodes.items τ → IsRowWith w unknowns.now τ (type_of ty.now) (demanded fields.now) → ⊥ }
    ensures labels { result ≡ Err Refusal.Labels → ⊥ }
    ensures spent { result ≡ Err Refusal.Spent → ⊥ }
{
    let Ok(at) = add(alloc, graph, unknowns, ty) else {
        return Err(Refusal::Memory);
    };
    let mut row = Fields::none(alloc);
    let mut pending = Vec::new(alloc);
    if let Err(_) = add_kids(alloc, graph, unknowns, fields, &mut row, &mut pending) {
        return Err(Refusal::Memory);
    }
    let Ok(place) = push_row(alloc, graph, row) else {
        return Err(Refusal::Memory);
    };
    let mut changed = Vec::new(alloc);
    if let Err(_) = changed.push(Change::of(place)) {
        return Err(Refusal::Memory);
    }
    if let Err(_) = pending.push((at, place)) {
        return Err(Refusal::Memory);
    }
    match solve(alloc, &mut graph.nodes, pending, changed) {
        Ok(changed) => Ok(changed),
        Err(Unsolved::Clash) => Err(Refusal::Unmet(Layer::Equations)),
        Err(Unsolved::Memory) => Err(Refusal::Memory),
    }
}

/// Demands that a type is a row that has some fields. Gives what was changed.
pub fn ask_row(
    alloc: Global,
    unit: UnitId,
    graph: &mut Graph,
    unknowns: &[NodeId],
    ty: &MlType,
    fields: &[(Ident, Rc<MlType>)],
) -> Result<Vec<Change>, Refusal>
    requires kept { IsKept (maker_of unit) graph.old unknowns.now }
    requires ty { IsOver (length unknowns.now) (type_of ty.now) }
    requires fields { AllByRecursion (λ f. IsOver (length unknowns.now) f.1) (demanded fields.now) }
    ensures moves { IfOk result (λ changed. Moves graph.old.nodes.items graph.new.nodes.items changed.items) }
    ensures kept { OnOk result (IsKept (maker_of unit) graph.new unknowns.now) }
    ensures ok { OnOk result (Adds (asked_of (maker_of unit) unknowns.now graph.old false) (has_fields (type_of ty.now) (demanded fields.now)) (asked_of (maker_of unit) unknowns.now graph.new false)) }
    ensures met { OnOk result ((l : Layer) → CanMeet l (asked_of (maker_of unit) unknowns.now graph.old false) (has_fields (type_of ty.now) (demanded fields.now))) }
    ensures unmet { (l : Layer) → result ≡ Err (Refusal.Unmet l) → IsFirstUnmet l (asked_of (maker_of unit) unknowns.now graph.old false) (has_fields (type_of ty.now) (demanded fields.now)) }
    ensures labels { result ≡ Err Refusal.Labels → ⊥ }
    ensures spent { result ≡ Err Refusal.Spent → ⊥ }
{
    match open(alloc, graph, unknowns, ty, fields) {
        Err(refusal) => Err(refusal),
        Ok(changed) => match finish(alloc, graph, unit, changed.as_slice()) {
            Err(refusal) => Err(refusal),
            Ok(()) => Ok(changed),
        },
    }
}

/// Demands something of a type.
pub fn impose(
    alloc: Global,
    unit: UnitId,
    graph: &mut Graph,
    unknowns: &[NodeId],
    ask: Ask,
    ty: &MlType,
) -> Result<(), Refusal>
    requires kept { IsKept (maker_of unit) graph.old unknowns.now }
    requires known { IsOver (length unknowns.now) (type_of ty.now) }
    ensures moves { OnOk result (Moves graph.old.nodes.items graph.new.nodes.items []) }
    ensures kept { OnOk result (IsKept (maker_of unit) graph.new unknowns.now) }
    ensures ok { OnOk result (Adds (asked_of (maker_of unit) unknowns.now graph.old false) (asks ask (type_of ty.now)) (asked_of (maker_of unit) unknowns.now graph.new false)) }
    ensures met { OnOk result ((l : Layer) → CanMeet l (asked_of (maker_of unit) unknowns.now graph.old false) (asks ask (type_of ty.now))) }
    ensures unmet { (l : Layer) → result ≡ Err (Refusal.Unmet l) → IsFirstUnmet l (asked_of (maker_of unit) unknowns.now graph.old false) (asks ask (type_of ty.now)) }
    ensures spent { result ≡ Err Refusal.Spent → ⊥ }
    ensures labels { result ≡ Err Refusal.Labels → ⊥ }
{
    let Ok(at) = add(alloc, graph, unknowns, ty) else {
        return Err(Refusal::Memory);
    };
    match lower_limit(alloc, graph, at, ask.limit()) {
        Err(_) => Err(Refusal::Memory),
        Ok(changed) => match finish(alloc, graph, unit, changed.as_slice()) {
            Err(refusal) => Err(refusal),
            Ok(()) => Ok(()),
        },
    }
}

/// Lowers the limit of a node. Gives what was changed.
fn lower_limit(
    alloc: Global,
    graph: &mut Graph,
    at: NodeId,
    limit: Limit,
) -> Result<Vec<Change>, Memory>
    requires full { IsFull graph.old }
    requires inside { at < length graph.old.nodes.items }
    ensures lowers { IfOk result (λ changed. LowersLimit graph.old at limit graph.new changed.items) }
{
    let mut changed = Vec::new(alloc);
    lower(&mut graph.limits, &mut changed, at, limit)?;
    Ok(changed)
}

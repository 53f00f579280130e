//! Nodes for types.

ghost use Rattle.std.specs.Prelude.{◌≡◌, ◌+◌, ◌<◌, ◌∷◌, ◌++◌, [], length, vec_len, map, IfOk};
ghost use Rattle.std.specs.List.{AllByRecursion};
ghost use Rattle.sml_objects.specs.Views.{type_of};
ghost use Rattle.sml_graph.specs.declared.node.Node.TheVariants.{App};
ghost use Rattle.sml_graph.specs.Graphs.{IsSound};
ghost use Rattle.sml_graph.specs.Interned.{IsOver, Interns, Expands, numbers, seen};

use crate::cell::Cell;
use crate::node::{Head, Node, NodeId};
use smallvec::SmallVec;
use sml_lex::fault::Memory;
use sml_objects::objects::MlType;
use std::alloc::Global;
use std::rc::Rc;

/// Adds nodes for a type, and gives the node that has it. The types whose nodes are to come stand in a list, each at
/// the place of its node after the nodes given.
pub(crate) fn intern(
    alloc: Global,
    nodes: &mut Vec<Cell>,
    unknowns: &[NodeId],
    ty: &MlType,
) -> Result<NodeId, Memory>
    requires sound { IsSound nodes.old.items }
    requires inside { AllByRecursion (λ u. u < length nodes.old.items) unknowns.now }
    requires known { IsOver (length unknowns.now) (type_of ty.now) }
    ensures { IfOk result (λ r. Interns nodes.old.items unknowns.now (type_of ty.now) nodes.new.items r) }
{
    let base = nodes.len();
    let Ok(first) = NodeId::try_from(base) else {
        return Err(Memory);
    };
    let mut types = Vec::new(alloc);
    types.push(ty)?;
    let mut next = 0;
    while next < types.len() {
        let here = types[next];
        let node = node_for(alloc, unknowns, base, &mut types, here)?;
        nodes.push(Cell::of(alloc, node)?)?;
        next += 1;
    }
    Ok(first)
}

/// The node for a type. The types of its parts are added to those whose nodes are to come.
fn node_for<'a>(
    alloc: Global,
    unknowns: &[NodeId],
    base: usize,
    types: &mut Vec<&'a MlType>,
    ty: &'a MlType,
) -> Result<Node, Memory>
    requires { IsOver (length unknowns.now) (type_of ty.now) }
    ensures { IfOk result (λ n. Expands (type_of ty.now) unknowns.now (base + vec_len types.old) n (seen types.old.items) (seen types.new.items)) }
{
    match ty {
        MlType::Bound(_) => unreachable!(),
        MlType::Free(unknown) => Ok(Node::Link(unknowns[*unknown as usize])),
        MlType::Row(labels, parts) => {
            let own = labels.clone()?;
            let kids = places_for(alloc, base, types, parts)?;
            Ok(Node::App(Head::Row(own), kids))
        }
        MlType::Arrow(from, to) => {
            let mut kids = SmallVec::new(alloc);
            kids.push(place_for(base, types, from)?)?;
            kids.push(place_for(base, types, to)?)?;
            Ok(Node::App(Head::Arrow, kids))
        }
        MlType::Name(name, parts) => {
            let kids = places_for(alloc, base, types, parts)?;
            Ok(Node::App(Head::Name(*name), kids))
        }
    }
}

/// The place of the node of a type that is added to those whose nodes are to come.
fn place_for<'a>(base: usize, types: &mut Vec<&'a MlType>, ty: &'a MlType) -> Result<NodeId, Memory>
    ensures place { IfOk result (λ k. k ≡ base + vec_len types.old) }
    ensures types { IfOk result (λ _. seen types.new.items ≡ seen types.old.items ++ type_of ty.now ∷ []) }
    ensures len { IfOk result (λ _. vec_len types.new ≡ vec_len types.old + 1) }
{
    let Some(place) = base.checked_add(types.len()) else {
        return Err(Memory);
    };
    let Ok(place) = NodeId::try_from(place) else {
        return Err(Memory);
    };
    types.push(ty)?;
    Ok(place)
}

/// The same for several types.
fn places_for<'a>(
    alloc: Global,
    base: usize,
    types: &mut Vec<&'a MlType>,
    parts: &'a [Rc<MlType>],
) -> Result<SmallVec<NodeId, 2, Global>, Memory>
    ensures places { IfOk result (λ kids. kids.items ≡ numbers (base + vec_len types.old) (length parts.now)) }
    ensures types { IfOk result (λ _. seen types.new.items ≡ seen types.old.items ++ map (λ t. type_of t.value) parts.now) }
{
    let mut kids = SmallVec::new(alloc);
    for part in parts {
        kids.push(place_for(base, types, part)?)?;
    }
    Ok(kids)
}

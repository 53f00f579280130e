//! Types read back from nodes.

ghost use Rattle.std.specs.Prelude.{◌≡◌, ◌≤◌, ◌<◌, ◌+◌, ◌^◌, ◌++◌, ◌∷◌, ℕ, length, map, vec_len, take, drop, reverse, slice_index, IfOk, OnOk};
ghost use Rattle.std.specs.Option.{IfSome, IfNone};
ghost use Rattle.std.specs.List.{AllByRecursion};
ghost use Rattle.sml_objects.specs.Initial.{Name};
ghost use Rattle.sml_objects.specs.Objects as O;
ghost use Rattle.sml_objects.specs.Objects.{app, types_of};
ghost use Rattle.sml_objects.specs.Sizes.{type_size};
ghost use Rattle.sml_objects.specs.Views.{type_of};
ghost use Rattle.sml_graph.specs.declared.node.Node.TheVariants.{Unknown};
ghost use Rattle.sml_demands.specs.declared.reading.Task.TheVariants.{Read};
ghost use Rattle.sml_layers.specs.Worlds.{finite};
ghost use Rattle.sml_graph.specs.Worlds.{Assignment};
ghost use Rattle.sml_graph.specs.Graphs.{IsSound, IsCountOf, AreOwners, Meets, head_over};
ghost use Rattle.sml_graph.specs.CodeCells.{head_of};
ghost use Rattle.sml_graph.specs.CodeRanks.{HasRank};
ghost use Rattle.sml_demands.specs.CodeReads.{IsTypeAt, stacked};

use crate::count::root_of;
use sml_graph::cell::{Cell, Shape, Top};
use sml_graph::node::{Head, NodeId};
use sml_lex::fault::Memory;
use sml_objects::objects::MlType;
use std::alloc::Global;
use std::rc::Rc;

/// What is left to do on the way to a type.
#[derive(Drop)]
pub(crate) enum Task {
    /// The type of a node goes onto the stack of types.
    Read(NodeId),
    /// So many types on the stack, the first of them topmost, become one under a head.
    Apply(Head, usize),
}

/// The unknown that has a place.
fn owner(unknowns: &[NodeId], place: NodeId) -> u32
    requires rising { (v w : ℕ) → v < w → w < length unknowns.now → slice_index unknowns.now v < slice_index unknowns.now w }
    requires few { length unknowns.now ≤ 2 ^ 32 }
    requires owned { (v : ℕ) × (v < length unknowns.now) × (slice_index unknowns.now v ≡ place) }
    ensures known { result < length unknowns.now }
    ensures place { slice_index unknowns.now result ≡ place }
{
    match unknowns.binary_search(&place) {
        Ok(unknown) => unknown as u32,
        Err(_) => unreachable!(),
    }
}

/// Takes so many types from the stack, the topmost first.
fn pop_all(
    alloc: Global,
    count: usize,
    types: &mut Vec<Rc<MlType>>,
) -> Result<Vec<Rc<MlType>>, Memory>
    requires { count ≤ vec_len types.old }
    ensures parts { IfOk result (λ parts. map (λ t. type_of t.value) parts.items ≡ take count (stacked types.old.items)) }
    ensures rest { OnOk result (stacked types.new.items ≡ drop count (stacked types.old.items)) }
{
    let mut parts = Vec::with_capacity(alloc, count)?;
    while parts.len() < count {
        match types.pop() {
            Some(part) => parts.push(part)?,
            None => unreachable!(),
        }
    }
    Ok(parts)
}

/// The type of a head over so many types on the stack, which are taken from it.
fn apply(
    alloc: Global,
    head: Head,
    count: usize,
    types: &mut Vec<Rc<MlType>>,
) -> Result<Rc<MlType>, Memory>
    requires enough { count ≤ vec_len types.old }
    requires fits { IsCountOf head count }
    ensures ty { IfOk result (λ t. type_of t.value ≡ app (head_over head count) (types_of (take count (stacked types.old.items)))) }
    ensures rest { OnOk result (stacked types.new.items ≡ drop count (stacked types.old.items)) }
{
    match head {
        Head::Arrow => match (types.pop(), types.pop()) {
            (Some(from), Some(to)) => Ok(Rc::new(alloc, MlType::Arrow(from, to))?),
            _ => unreachable!(),
        },
        Head::Row(labels) => {
            let parts = pop_all(alloc, count, types)?;
            Ok(Rc::new(alloc, MlType::Row(labels, parts))?)
        }
        Head::Name(name) => {
            let parts = pop_all(alloc, count, types)?;
            Ok(Rc::new(alloc, MlType::Name(name, parts))?)
        }
    }
}

/// A head that is lent, once more.
fn copy_of(head: Top) -> Result<Head, Memory>
    ensures over { IfOk result (λ copy. (n : ℕ) → head_over copy n ≡ head_over (head_of head.entry) n) }
    ensures count { IfOk result (λ copy. (n : ℕ) → IsCountOf (head_of head.entry) n → IsCountOf copy n) }
{
    match head {
        Top::Arrow => Ok(Head::Arrow),
        Top::Row(labels) => Ok(Head::Row(labels.clone()?)),
        Top::Name(name) => Ok(Head::Name(name)),
    }
}

/// Adds the reading of some nodes to what is left to do.
fn push_reads(tasks: &mut Vec<Task>, kids: &[NodeId]) -> Result<(), Memory>
    ensures { OnOk result (tasks.new.items ≡ tasks.old.items ++ map Read kids.now) }
{
    for kid in kids {
        tasks.push(Task::Read(*kid))?;
    }
    Ok(())
}

/// The type of a node, where each unknown that is left is a free variable, or `None` where it has more nodes than the
/// limit. The time taken grows with the limit and not with the type.
pub fn type_up_to(
    alloc: Global,
    nodes: &[Cell],
    unknowns: &[NodeId],
    root: NodeId,
    limit: u32,
) -> Result<Option<Rc<MlType>>, Memory>
    requires sound { IsSound nodes.now }
    requires rank { HasRank nodes.now }
    requires owners { AreOwners nodes.now unknowns.now }
    requires inside { root < length nodes.now }
    requires small { limit + 1 < 2 ^ 32 }
    ensures ty { IfOk result (λ found. IfSome found (λ t. IsTypeAt nodes.now unknowns.now root limit (type_of t.value))) }
    ensures none { IfOk result (λ found. IfNone found ((t : O.MlType Name) → IsTypeAt nodes.now unknowns.now root limit t → ⊥)) }
    ensures large { IfOk result (λ found. IfNone found ((τ : Assignment finite) → Meets finite nodes.now τ → limit < type_size (τ root))) }
{
    let mut tasks = Vec::new(alloc);
    let mut types = Vec::new(alloc);
    tasks.push(Task::Read(root))?;
    let mut size = 0;
    while let Some(task) = tasks.pop() {
        match task {
            Task::Read(at) => {
                size += 1;
                if limit < size {
                    return Ok(None);
                }
                let here = root_of(nodes, at);
                match nodes[here as usize].shape() {
                    Shape::App(head, kids) => {
                        tasks.push(Task::Apply(copy_of(head)?, kids.len()))?;
                        push_reads(&mut tasks, kids)?;
                    }
                    _ => types.push(Rc::new(alloc, MlType::Free(owner(unknowns, here)))?)?,
                }
            }
            Task::Apply(head, count) => {
                let ty = apply(alloc, head, count, &mut types)?;
                types.push(ty)?;
            }
        }
    }
    Ok(types.pop())
}

//! Types that stand for themselves.

ghost use Rattle.std.specs.Prelude.{◌≡◌, ◌<◌, true, length, IfOk};
ghost use Rattle.std.specs.Bool.{OnTrue};
ghost use Rattle.std.specs.List.{AllByRecursion};
ghost use Rattle.sml_objects.specs.Views.{type_of};
ghost use Rattle.sml_graph.specs.Graphs.{IsKnown, IsLoose};
ghost use Rattle.sml_graph.specs.Interned.{IsOver};
ghost use Rattle.sml_schemes.specs.Left.{IsMadeOf};

use sml_graph::cell::{Cell, Shape};
use sml_graph::node::NodeId;
use sml_lex::fault::Memory;
use sml_objects::fates::free_variables;
use sml_objects::objects::MlType;
use std::alloc::Global;

/// Whether a node says neither the type of another nor a head.
fn is_loose(node: &Cell) -> bool
    ensures { result ≡ true → IsKnown node.now → ⊥ }
{
    match node.shape() {
        Shape::Unknown => true,
        Shape::Open(_) => true,
        Shape::Link(_) => false,
        Shape::App(_, _) => false,
    }
}

/// Whether the nodes of these unknowns say no types.
fn are_loose(nodes: &[Cell], unknowns: &[NodeId], variables: &[u32]) -> bool
    requires inside { AllByRecursion (λ i. i < length nodes.now) unknowns.now }
    requires known { AllByRecursion (λ v. v < length unknowns.now) variables.now }
    ensures { result ≡ true → AllByRecursion (IsLoose nodes.now unknowns.now) variables.now }
{
    for variable in variables {
        let place = unknowns[*variable as usize];
        if !is_loose(&nodes[place as usize]) {
            return false;
        }
    }
    true
}

/// Whether a type speaks only of unknowns whose nodes say no types. It needs no reading then.
pub(crate) fn is_read(
    alloc: Global,
    nodes: &[Cell],
    unknowns: &[NodeId],
    ty: &MlType,
) -> Result<bool, Memory>
    requires inside { AllByRecursion (λ i. i < length nodes.now) unknowns.now }
    requires known { IsOver (length unknowns.now) (type_of ty.now) }
    ensures { IfOk result (λ b. OnTrue b (IsMadeOf (IsLoose nodes.now unknowns.now) (type_of ty.now))) }
{
    let variables = free_variables(alloc, ty)?;
    Ok(are_loose(nodes, unknowns, variables.as_slice()))
}

//! Schemes of types that were read back.

ghost use Rattle.std.specs.Prelude.{◌≡◌, ◌<◌, [], length, map, IfOk};
ghost use Rattle.std.specs.List.{AllByRecursion};
ghost use Rattle.sml_objects.specs.Fates as F;
ghost use Rattle.sml_objects.specs.Initial.{initial};
ghost use Rattle.sml_objects.specs.Names.{int};
ghost use Rattle.sml_objects.specs.Objects.{named};
ghost use Rattle.sml_objects.specs.Sizes.{type_size};
ghost use Rattle.sml_objects.specs.Types.{variables_after};
ghost use Rattle.sml_objects.specs.Views.{type_of, scheme_of};
ghost use Rattle.sml_graph.specs.Interned.{IsOver, IsBodyOver};
ghost use Rattle.sml_schemes.specs.Schemes.{is_open, fate_of, fate_at};

use sml_graph::cell::{Cell, Shape};
use sml_graph::limit_table::Limits;
use sml_graph::limits::Limit;
use sml_graph::node::NodeId;
use sml_lex::fault::Memory;
use sml_objects::fates::{Fate, close_as, free_variables};
use sml_objects::objects::{MlType, Scheme};
use std::alloc::Global;

/// Whether a node is a row that may have more fields.
fn is_open(node: &Cell) -> bool
    ensures { result ≡ is_open node.now }
{
    matches!(node.shape(), Shape::Open(_))
}

/// What becomes of an unknown that is left, by what is asked of it, whether it is fixed, and whether the phrase is
/// expansive.
fn fate(limit: Limit, fixed: bool, expansive: bool) -> Fate
    ensures { result ≡ fate_of limit fixed expansive }
{
    if limit.has_one_name() {
        Fate::Default
    } else if expansive || fixed {
        Fate::Keep
    } else {
        Fate::Bind(limit.equality)
    }
}

/// What becomes of some unknowns that are left.
fn fates(
    alloc: Global,
    nodes: &[Cell],
    limits: &Limits,
    unknowns: &[NodeId],
    fixed: &[bool],
    expansive: bool,
    variables: &[u32],
) -> Result<Vec<Fate>, Memory>
    requires full { length limits.now ≡ length nodes.now }
    requires inside { AllByRecursion (λ i. i < length nodes.now) unknowns.now }
    requires flags { length fixed.now ≡ length unknowns.now }
    requires known { AllByRecursion (λ v. v < length unknowns.now) variables.now }
    ensures { IfOk result (λ fates. fates.items ≡ map (fate_at nodes.now limits.now unknowns.now fixed.now expansive) variables.now) }
{
    let mut fates = Vec::new(alloc);
    for variable in variables {
        let unknown = *variable as usize;
        let place = unknowns[unknown] as usize;
        let stays = fixed[unknown] || is_open(&nodes[place]);
        fates.push(fate(limits.get(place), stays, expansive))?;
    }
    Ok(fates)
}

/// The scheme of a type over unknowns that are left.
pub fn closed(
    alloc: Global,
    nodes: &[Cell],
    limits: &Limits,
    unknowns: &[NodeId],
    fixed: &[bool],
    expansive: bool,
    ty: &MlType,
) -> Result<Scheme, Memory>
    requires full { length limits.now ≡ length nodes.now }
    requires inside { AllByRecursion (λ i. i < length nodes.now) unknowns.now }
    requires flags { length fixed.now ≡ length unknowns.now }
    requires known { IsOver (length unknowns.now) (type_of ty.now) }
    ensures scheme { IfOk result (λ s. scheme_of s ≡ F.close_as (named (initial int)) (map (fate_at nodes.now limits.now unknowns.now fixed.now expansive) (variables_after [] (type_of ty.now))) (type_of ty.now)) }
    ensures known { IfOk result (λ s. IsBodyOver (length (scheme_of s).variables) (length unknowns.now) (scheme_of s).body) }
    ensures size { IfOk result (λ s. type_size (scheme_of s).body ≡ type_size (type_of ty.now)) }
{
    let places = free_variables(alloc, ty)?;
    let fates = fates(
        alloc,
        nodes,
        limits,
        unknowns,
        fixed,
        expansive,
        places.as_slice(),
    )?;
    close_as(alloc, ty, &places, fates.as_slice())
}

//! What is asked of the types of nodes, beyond equations. It is handed on from a node to its parts, from the nodes that
//! were changed on.

ghost use Rattle.std.specs.Prelude.{◌≡◌, ℕ, ◌<◌, ◌^◌, ◌⊎◌, [], ◌∷◌, length, drop, Some, None, true, false, IfOk, OnOk};
ghost use Rattle.std.specs.Bool.{OnTrue, OnFalse};
ghost use Rattle.std.specs.Option.{IfSome, IfNone};
ghost use Rattle.std.specs.List.{AllByRecursion};
ghost use Rattle.sml_objects.specs.Objects.{row};
ghost use Rattle.sml_objects.specs.Views.{maker_of};
ghost use Rattle.sml_layers.specs.declared.layer.Layer.{Layer};
ghost use Rattle.sml_layers.specs.Worlds.{finite};
ghost use Rattle.sml_graph.specs.Worlds.{Assignment};
ghost use Rattle.sml_graph.specs.Graphs.{IsSound, Meets, head_over, parts};
ghost use Rattle.sml_graph.specs.declared.node.Head.{Head};
ghost use Rattle.sml_graph.specs.CodeCells.{head_of};
ghost use Rattle.sml_graph.specs.Changes.{AreInside};
ghost use Rattle.sml_layers.specs.Layers.{index_of};
ghost use Rattle.sml_graph.specs.Variables.{IsPossible, FitsVariables};
ghost use Rattle.sml_layers.specs.Classes.{has_several, has_one};
ghost use Rattle.sml_graph.specs.Limits.{no_limit, both, both_bounds, both_classes, FitsBound, FitsEquality, FitsClass, FitsAt, IsFitNode, handed, IsClosed, IsFit, IsBefore, IsDoneBut, SameLimits, NoneKeeps, Lowers};

use crate::cell::{Cell, Shape, Top, parts_from};
use crate::change::Change;
use crate::limit_table::Limits;
use crate::node::NodeId;
use crate::variables::Variables;
use sml_layers::class::Names;
use sml_layers::layer::Layer;
use sml_lex::fault::Memory;
use sml_objects::equality::{has_equality, is_reference};
use sml_objects::objects::{TyName, UnitId};

/// What is asked of the type of a node: that it mentions only such names of the unit as have lower numbers than these,
/// that it admits equality, that it is one of some initial names, and that it is an explicit type variable.
#[derive(Clone, Copy)]
pub struct Limit {
    pub(crate) newness: Option<u32>,
    pub(crate) locality: Option<u32>,
    pub equality: bool,
    pub(crate) class: Option<Names>,
    pub(crate) variables: Variables,
}

/// The lower of two bounds.
fn lower_bound(one: Option<u32>, other: Option<u32>) -> Option<u32>
    ensures value { result ≡ both_bounds one other }
    ensures small { (n : ℕ) → other ≡ Some n → n < 2 ^ 32 }
{
    match (one, other) {
        (_, None) => one,
        (None, Some(second)) => Some(second),
        (Some(first), Some(second)) => Some(if second < first { second } else { first }),
    }
}

/// The names that two classes have, of those that there are.
fn common_names(one: Option<Names>, other: Option<Names>) -> Option<Names>
    ensures { result ≡ both_classes one other }
{
    match (one, other) {
        (None, _) => other,
        (Some(_), None) => one,
        (Some(first), Some(second)) => Some(first.and(second)),
    }
}

impl Limit {
    /// Nothing is asked.
    pub(crate) const fn none() -> Self
        ensures { result ≡ no_limit }
    {
        Limit {
            newness: None,
            locality: None,
            equality: false,
            class: None,
            variables: Variables::Any,
        }
    }

    /// What both ask.
    fn and(self, other: Self) -> Self
        ensures value { result ≡ both self other }
        ensures newness { (n : ℕ) → other.newness ≡ Some n → n < 2 ^ 32 }
        ensures locality { (n : ℕ) → other.locality ≡ Some n → n < 2 ^ 32 }
    {
        Limit {
            newness: lower_bound(self.newness, other.newness),
            locality: lower_bound(self.locality, other.locality),
            equality: self.equality || other.equality,
            class: common_names(self.class, other.class),
            variables: self.variables.and(other.variables),
        }
    }

    /// Whether more names than one of a class are left.
    pub fn has_several_names(self) -> bool
        ensures { result ≡ has_several self.class self.equality }
    {
        match self.class {
            None => false,
            Some(names) => names.word || names.text || (names.real && !self.equality),
        }
    }

    /// Whether one name of a class is left, which is `int`.
    pub fn has_one_name(self) -> bool
        ensures { result ≡ has_one self.class self.equality }
    {
        self.class.is_some() && !self.has_several_names()
    }
}

/// What is asked of the parts of a node. Equality isn't asked of what a reference holds.
fn handed_on(node: &Cell, limit: Limit) -> Limit
    ensures { result ≡ handed node.now limit }
{
    let equality = match node.shape() {
        Shape::Unknown => return limit,
        Shape::Link(_) => return limit,
        Shape::App(Top::Name(name), _) => !is_reference(name) && limit.equality,
        Shape::App(_, _) => limit.equality,
        Shape::Open(_) => limit.equality,
    };
    Limit {
        newness: limit.newness,
        locality: limit.locality,
        equality,
        class: None,
        variables: Variables::Any,
    }
}

fn is_same_bound(one: Option<u32>, other: Option<u32>) -> bool
    ensures yes { OnTrue result (one ≡ other) }
    ensures no { OnFalse result (one ≡ other → ⊥) }
{
    match (one, other) {
        (None, None) => true,
        (Some(first), Some(second)) => first == second,
        _ => false,
    }
}

fn is_same_class(one: Option<Names>, other: Option<Names>) -> bool
    ensures yes { OnTrue result (one ≡ other) }
    ensures no { OnFalse result (one ≡ other → ⊥) }
{
    match (one, other) {
        (None, None) => true,
        (Some(first), Some(second)) => {
            first.word == second.word && first.real == second.real && first.text == second.text
        }
        _ => false,
    }
}

fn are_same_variables(one: Variables, other: Variables) -> bool
    ensures yes { OnTrue result (one ≡ other) }
    ensures no { OnFalse result (one ≡ other → ⊥) }
{
    match (one, other) {
        (Variables::Any, Variables::Any) => true,
        (Variables::One(first), Variables::One(second)) => {
            first.number == second.number && first.equality == second.equality
        }
        (Variables::Several, Variables::Several) => true,
        _ => false,
    }
}

pub(crate) fn is_same_limit(one: Limit, other: Limit) -> bool
    ensures yes { OnTrue result (one ≡ other) }
    ensures no { OnFalse result (one ≡ other → ⊥) }
{
    is_same_bound(one.newness, other.newness)
        && is_same_bound(one.locality, other.locality)
        && one.equality == other.equality
        && is_same_class(one.class, other.class)
        && are_same_variables(one.variables, other.variables)
}

/// Whether a head is no name that the unit made with the bound's number or a higher one.
fn is_head_within(head: Top, unit: UnitId, bound: Option<u32>) -> bool
    ensures yes { OnTrue result ((n : ℕ) → FitsBound (maker_of unit) bound (head_over (head_of head.entry) n)) }
    ensures no { OnFalse result ((n : ℕ) → FitsBound (maker_of unit) bound (head_over (head_of head.entry) n) → ⊥) }
{
    match (head, bound) {
        (Top::Name(TyName::Made(made)), Some(most)) => {
            made.unit.index != unit.index || made.number < most
        }
        _ => true,
    }
}

/// Whether a type with this head may admit equality.
fn may_admit(head: Top, equality: bool) -> bool
    ensures yes { OnTrue result ((n : ℕ) → FitsEquality equality (head_over (head_of head.entry) n)) }
    ensures no { OnFalse result ((n : ℕ) → FitsEquality equality (head_over (head_of head.entry) n) → ⊥) }
{
    match head {
        Top::Arrow => !equality,
        Top::Row(_) => true,
        Top::Name(name) => !equality || is_reference(name) || has_equality(name),
    }
}

/// Whether a head over so many parts is one of some names.
fn is_in_class(head: Top, count: usize, class: Option<Names>) -> bool
    ensures yes { OnTrue result (FitsClass class (head_over (head_of head.entry) count) count) }
    ensures no { OnFalse result (FitsClass class (head_over (head_of head.entry) count) count → ⊥) }
{
    match (class, head) {
        (None, _) => true,
        (Some(names), Top::Name(TyName::Initial(name))) => count == 0 && names.has(name),
        (Some(_), _) => false,
    }
}

/// Whether a type may be what a limit asks, where nothing else is known of it.
fn is_possible(limit: Limit) -> bool
    ensures yes { OnTrue result (IsPossible limit.variables limit.equality limit.class) }
    ensures no { OnFalse result (IsPossible limit.variables limit.equality limit.class → ⊥) }
{
    match (limit.variables, limit.class) {
        (Variables::Any, _) => true,
        (Variables::One(variable), None) => !limit.equality || variable.equality,
        (Variables::One(_), Some(_)) => false,
        (Variables::Several, _) => false,
    }
}

/// Whether nothing asks for explicit variables. A head is none.
fn is_any(variables: Variables) -> bool
    ensures yes { OnTrue result (variables ≡ Variables.Any) }
    ensures no { OnFalse result ((h : Head) (n : ℕ) → FitsVariables variables (head_over h n) n → ⊥) }
    ensures row { OnFalse result (FitsVariables variables (row []) 0 → ⊥) }
{
    matches!(variables, Variables::Any)
}

/// The first layer in which a head over so many parts isn't what is asked.
fn misfit_head(head: Top, count: usize, limit: Limit, unit: UnitId) -> Option<Layer>
    ensures fits { (l : Layer) → IsBefore l result → FitsAt l (maker_of unit) limit (head_over (head_of head.entry) count) count }
    ensures fails { IfSome result (λ l. FitsAt l (maker_of unit) limit (head_over (head_of head.entry) count) count → ⊥) }
{
    if !is_head_within(head, unit, limit.newness) {
        return Some(Layer::Newness);
    }
    if !is_head_within(head, unit, limit.locality) {
        return Some(Layer::Locality);
    }
    if !may_admit(head, limit.equality) {
        return Some(Layer::Equality);
    }
    if !is_in_class(head, count, limit.class) {
        return Some(Layer::Classes);
    }
    if !is_any(limit.variables) {
        return Some(Layer::Rigidity);
    }
    None
}

/// The first layer in which a row isn't what is asked, whatever its labels.
fn misfit_row(limit: Limit) -> Option<Layer>
    ensures fits { (u : ℕ) (l : Layer) → IsBefore l result → FitsAt l u limit (row []) 0 }
    ensures fails { IfSome result (λ l. (u : ℕ) → FitsAt l u limit (row []) 0 → ⊥) }
{
    if limit.class.is_some() {
        return Some(Layer::Classes);
    }
    if !is_any(limit.variables) {
        return Some(Layer::Rigidity);
    }
    None
}

/// The first layer in which a node isn't what is asked.
fn misfit(node: &Cell, limit: Limit, unit: UnitId) -> Option<Layer>
    ensures fits { (l : Layer) → IsBefore l result → IsFitNode l (maker_of unit) limit node.now }
    ensures fails { IfSome result (λ l. IsFitNode l (maker_of unit) limit node.now → ⊥) }
{
    match node.shape() {
        Shape::Unknown => {
            if is_possible(limit) {
                None
            } else {
                Some(Layer::Rigidity)
            }
        }
        Shape::Link(_) => None,
        Shape::App(head, kids) => misfit_head(head, kids.len(), limit, unit),
        Shape::Open(_) => misfit_row(limit),
    }
}

/// The earlier of two layers that failed, if any did.
fn earlier(one: Option<Layer>, other: Option<Layer>) -> Option<Layer>
    ensures either { (result ≡ one) ⊎ (result ≡ other) }
    ensures first { (l : Layer) → IsBefore l result → IsBefore l one }
    ensures second { (l : Layer) → IsBefore l result → IsBefore l other }
{
    match (one, other) {
        (None, _) => other,
        (Some(_), None) => one,
        (Some(first), Some(second)) => {
            if first.index() < second.index() {
                one
            } else {
                other
            }
        }
    }
}

/// Lowers the limit of a node, which is then left to do.
pub fn lower(
    limits: &mut Limits,
    pending: &mut Vec<Change>,
    at: NodeId,
    limit: Limit,
) -> Result<(), Memory>
    requires { at < length limits.old }
    ensures { OnOk result (Lowers limits.old pending.old.items (at ∷ []) limit limits.new pending.new.items) }
{
    let old = limits.get(at as usize);
    let lowered = old.and(limit);
    if !is_same_limit(lowered, old) {
        pending.push(Change::of(at))?;
        limits.set(at as usize, lowered)?;
    }
    Ok(())
}

/// The same for several nodes.
fn lower_all(
    limits: &mut Limits,
    pending: &mut Vec<Change>,
    parts: &[NodeId],
    limit: Limit,
) -> Result<(), Memory>
    requires { AllByRecursion (λ k. k < length limits.old) parts.now }
    ensures { OnOk result (Lowers limits.old pending.old.items parts.now limit limits.new pending.new.items) }
{
    for part in parts {
        lower(limits, pending, *part, limit)?;
    }
    Ok(())
}

/// Hands a limit on to the parts of a node from a place on.
fn hand_on(
    limits: &mut Limits,
    pending: &mut Vec<Change>,
    node: &Cell,
    from: usize,
    limit: Limit,
) -> Result<(), Memory>
    requires { AllByRecursion (λ k. k < length limits.old) (drop from (parts node.now)) }
    ensures { OnOk result (Lowers limits.old pending.old.items (drop from (parts node.now)) (handed node.now limit) limits.new pending.new.items) }
{
    lower_all(
        limits,
        pending,
        parts_from(node, from),
        handed_on(node, limit),
    )
}

/// Hands limits on from the changes that are left to do to all that these lead to. Gives the first layer in which a
/// limit isn't kept.
pub(crate) fn hand_on_all(
    nodes: &[Cell],
    limits: &mut Limits,
    unit: UnitId,
    mut pending: Vec<Change>,
) -> Result<Option<Layer>, Memory>
    requires sound { IsSound nodes.now }
    requires len { length limits.old ≡ length nodes.now }
    requires inside { AreInside (length limits.old) pending.items }
    requires but { IsDoneBut (maker_of unit) nodes.now limits.old None pending.items }
    ensures len { OnOk result (length limits.new ≡ length nodes.now) }
    ensures closed { OnOk result (IsClosed nodes.now limits.new) }
    ensures fit { IfOk result (λ failed. (l : Layer) → IsBefore l failed → IsFit l (maker_of unit) nodes.now limits.new) }
    ensures same { OnOk result (SameLimits (maker_of unit) nodes.now limits.old limits.new) }
    ensures fails { IfOk result (λ failed. IfSome failed (NoneKeeps (maker_of unit) nodes.now limits.old)) }
{
    let mut failed = None;
    while let Some(change) = pending.pop() {
        let limit = limits.get(change.node as usize);
        let node = &nodes[change.node as usize];
        failed = earlier(failed, misfit(node, limit, unit));
        hand_on(limits, &mut pending, node, change.from, limit)?;
    }
    Ok(failed)
}

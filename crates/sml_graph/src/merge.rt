//! Equations between nodes, solved over infinite types.

ghost use Rattle.std.specs.Prelude.{◌≡◌, ◌≢◌, ℕ, ◌+◌, ◌<◌, ◌≤◌, ◌++◌, ◌∷◌, [], length, vec_len, IfOk, OnOk, Err};
ghost use Rattle.std.specs.List.{AllByRecursion};
ghost use Rattle.sml_objects.specs.Views.{label_list};
ghost use Rattle.sml_graph.specs.declared.merge.Unsolved.TheVariants.{Memory};
ghost use Rattle.sml_graph.specs.declared.node.Node.TheVariants.{App, Open};
ghost use Rattle.sml_graph.specs.Graphs.{IsSame, IsRoot, IsSound, ArePairsIn, SameSolutions, HasNoSolution, Merges, Leads, IsRootNode, AreApart, Joins, JoinsFields, JoinsRow, LacksLabel, fields_of, pairs_of};
ghost use Rattle.sml_graph.specs.Changes.{Changes, BeginsWith, KeepsFirst};

use crate::cell::{Cell, Shape};
use crate::change::{Change, fewest};
use crate::fields::Fields;
use crate::node::{Head, Node, NodeId, is_same_head, parts_of};
use smallvec::SmallVec;
use sml_lex::fault::Memory;
use sml_objects::labels::Labels;
use std::alloc::{AllocError, AllocFailed, Global};
use std::mem;

/// Why two nodes have no type in common.
#[derive(Clone, Copy)]
pub enum Unsolved {
    /// Two different heads were related.
    Clash,
    /// A growth was refused.
    Memory,
}

impl From<Memory> for Unsolved {
    ghost from_gives = { λ _ fault. fault ≡ Memory };

    fn from(_memory: Memory) -> Self {
        Unsolved::Memory
    }
}

impl From<AllocError> for Unsolved {
    ghost from_gives = { λ _ fault. fault ≡ Memory };

    fn from(_error: AllocError) -> Self {
        Unsolved::Memory
    }
}

impl<T: Drop> From<AllocFailed<T>> for Unsolved {
    ghost from_gives = { λ _ fault. fault ≡ Memory };

    fn from(_error: AllocFailed<T>) -> Self {
        Unsolved::Memory
    }
}

/// The node that another one leads to. Each link on the way is then led past the next one, and added to the changes.
fn find(nodes: &mut Vec<Cell>, changed: &mut Vec<Change>, at: NodeId) -> Result<NodeId, Unsolved>
    requires sound { IsSound nodes.old.items }
    requires inside { at < vec_len nodes.old }
    ensures leads { OnOk result (Leads nodes.old.items nodes.new.items) }
    ensures changes { OnOk result (Changes nodes.old.items changed.old.items nodes.new.items changed.new.items) }
    ensures same { IfOk result (λ root. IsSame nodes.old.items at root) }
    ensures root { IfOk result (λ root. IsRoot nodes.new.items root) }
    ensures inside { IfOk result (λ root. root < vec_len nodes.new) }
    ensures clash { result ≡ Err Unsolved.Clash → ⊥ }
{
    let mut here = at;
    while let Shape::Link(next) = nodes[here as usize].shape() {
        if let Shape::Link(after) = nodes[next as usize].shape() {
            changed.push(Change::of(here))?;
            nodes[here as usize] = Cell::link(after);
        }
        here = next;
    }
    Ok(here)
}

/// Adds the pairs of two lists of one length.
fn push_pairs(
    pending: &mut Vec<(NodeId, NodeId)>,
    lefts: &[NodeId],
    rights: &[NodeId],
) -> Result<(), AllocError>
    requires { length lefts.now ≡ length rights.now }
    ensures { OnOk result (pending.new.items ≡ pending.old.items ++ pairs_of lefts.now rights.now) }
{
    for i in 0..lefts.len() {
        pending.push((lefts[i], rights[i]))?;
    }
    Ok(())
}

/// Adds the fields of one row to another one. Where a label stands in both, their nodes are a pair left to solve.
fn add_fields(
    pending: &mut Vec<(NodeId, NodeId)>,
    into: &mut Fields,
    from: &Fields,
) -> Result<(), Unsolved>
    ensures joins { OnOk result (JoinsFields (fields_of into.old) (fields_of from.now) (fields_of into.new) pending.old.items pending.new.items) }
    ensures more { OnOk result (BeginsWith (fields_of into.old) (fields_of into.new)) }
    ensures clash { result ≡ Err Unsolved.Clash → ⊥ }
{
    let labels = from.labels();
    let kids = from.kids();
    for i in 0..labels.len() {
        let label = labels[i].clone()?;
        if let Some(found) = into.add(label, kids[i])? {
            pending.push((found, kids[i]))?;
        }
    }
    Ok(())
}

/// One row with the fields of two: of the larger one, and after them those that only the other has. With it, how many
/// of the second row's fields stay where they are.
fn join_fields(
    pending: &mut Vec<(NodeId, NodeId)>,
    mut upper: Box<Fields>,
    mut lower: Box<Fields>,
) -> Result<(Node, usize), Unsolved>
    ensures joins { IfOk result (λ r. Joins (Open upper) (Open lower) r.0 pending.old.items pending.new.items) }
    ensures keeps { IfOk result (λ r. KeepsFirst r.1 (Open lower) r.0) }
    ensures clash { result ≡ Err Unsolved.Clash → ⊥ }
{
    let kept = lower.kids().len();
    if upper.kids().len() <= kept {
        add_fields(pending, &mut lower, &upper)?;
        Ok((Node::Open(lower), kept))
    } else {
        add_fields(pending, &mut upper, &lower)?;
        Ok((Node::Open(upper), 0))
    }
}

/// One node with the parts of two heads that are one: the first of the two.
fn join_heads(
    pending: &mut Vec<(NodeId, NodeId)>,
    head: Head,
    kids: SmallVec<NodeId, 2, Global>,
    other: Head,
    others: SmallVec<NodeId, 2, Global>,
) -> Result<Node, Unsolved>
    ensures joins { IfOk result (λ n. Joins (App head kids) (App other others) n pending.old.items pending.new.items) }
    ensures first { IfOk result (λ n. n ≡ App head kids) }
    ensures clash { result ≡ Err Unsolved.Clash → AreApart (App head kids) (App other others) }
{
    if is_same_head(&head, &other) && kids.len() == others.len() {
        push_pairs(pending, kids.as_slice(), others.as_slice())?;
        Ok(Node::App(head, kids))
    } else {
        Err(Unsolved::Clash)
    }
}

/// Adds pairs of the nodes of some fields and the parts of a row that have their labels. A label that the row lacks is a
/// clash.
fn push_fields(
    pending: &mut Vec<(NodeId, NodeId)>,
    fields: &Fields,
    labels: &Labels,
    kids: &[NodeId],
) -> Result<(), Unsolved>
    ensures joins { OnOk result (JoinsRow (fields_of fields.now) (label_list labels.now) kids.now pending.old.items pending.new.items) }
    ensures clash { result ≡ Err Unsolved.Clash → LacksLabel (fields_of fields.now) (label_list labels.now) kids.now }
{
    let own = fields.labels();
    let nodes = fields.kids();
    for i in 0..own.len() {
        match labels.field(kids, &own[i]) {
            None => return Err(Unsolved::Clash),
            Some(kid) => pending.push((*kid, nodes[i]))?,
        }
    }
    Ok(())
}

/// One node of a head and a row that has some fields: the head's.
fn close_row(
    pending: &mut Vec<(NodeId, NodeId)>,
    head: Head,
    kids: SmallVec<NodeId, 2, Global>,
    fields: Box<Fields>,
) -> Result<Node, Unsolved>
    ensures joins { IfOk result (λ n. Joins (App head kids) (Open fields) n pending.old.items pending.new.items) }
    ensures first { IfOk result (λ n. n ≡ App head kids) }
    ensures clash { result ≡ Err Unsolved.Clash → AreApart (App head kids) (Open fields) }
{
    match &head {
        Head::Row(labels) => {
            if kids.len() != labels.as_slice().len() {
                return Err(Unsolved::Clash);
            }
            match push_fields(pending, &fields, labels, kids.as_slice()) {
                Ok(()) => {}
                Err(fault) => return Err(fault),
            }
        }
        Head::Arrow => return Err(Unsolved::Clash),
        Head::Name(_) => return Err(Unsolved::Clash),
    }
    Ok(Node::App(head, kids))
}

/// One node that says what two say, where neither leads to another. With it, how many of the lower node's first parts
/// stay where they are.
fn join(
    pending: &mut Vec<(NodeId, NodeId)>,
    upper: Node,
    lower: Node,
) -> Result<(Node, usize), Unsolved>
    requires upper { IsRootNode upper }
    requires lower { IsRootNode lower }
    ensures joins { IfOk result (λ r. Joins upper lower r.0 pending.old.items pending.new.items) }
    ensures keeps { IfOk result (λ r. KeepsFirst r.1 lower r.0) }
    ensures clash { result ≡ Err Unsolved.Clash → AreApart upper lower }
{
    let kept = parts_of(&lower).len();
    match upper {
        Node::Unknown => Ok((lower, kept)),
        Node::Link(_) => unreachable!(),
        Node::App(head, kids) => match lower {
            Node::Unknown => Ok((Node::App(head, kids), 0)),
            Node::Link(_) => unreachable!(),
            Node::App(other, others) => match join_heads(pending, other, others, head, kids) {
                Ok(node) => Ok((node, kept)),
                Err(fault) => Err(fault),
            },
            Node::Open(fields) => Ok((close_row(pending, head, kids, fields)?, 0)),
        },
        Node::Open(fields) => match lower {
            Node::Unknown => Ok((Node::Open(fields), 0)),
            Node::Link(_) => unreachable!(),
            Node::App(head, kids) => Ok((close_row(pending, head, kids, fields)?, kept)),
            Node::Open(others) => join_fields(pending, fields, others),
        },
    }
}

/// Makes one node of two that others may lead to.
fn merge(
    alloc: Global,
    nodes: &mut Vec<Cell>,
    pending: &mut Vec<(NodeId, NodeId)>,
    changed: &mut Vec<Change>,
    high: NodeId,
    low: NodeId,
) -> Result<(), Unsolved>
    requires sound { IsSound nodes.old.items }
    requires inside { ArePairsIn (length nodes.old.items) pending.old.items }
    requires order { low < high }
    requires high_inside { high < vec_len nodes.old }
    requires high_root { IsRoot nodes.old.items high }
    requires low_root { IsRoot nodes.old.items low }
    ensures merges { OnOk result (Merges nodes.old.items pending.old.items high low nodes.new.items pending.new.items) }
    ensures changes { OnOk result (Changes nodes.old.items changed.old.items nodes.new.items changed.new.items) }
    ensures clash { result ≡ Err Unsolved.Clash → HasNoSolution nodes.old.items ((high, low) ∷ []) }
{
    let upper = mem::replace(&mut nodes[high as usize], Cell::link(low));
    let lower = mem::replace(&mut nodes[low as usize], Cell::unknown());
    match join(pending, upper.into_node(alloc), lower.into_node(alloc)) {
        Ok((joined, from)) => {
            nodes[low as usize] = Cell::of(alloc, joined)?;
            changed.push(Change::of(high))?;
            changed.push(Change { node: low, from })?;
            Ok(())
        }
        Err(fault) => Err(fault),
    }
}

/// Makes one node of the two that these lead to.
fn step(
    alloc: Global,
    nodes: &mut Vec<Cell>,
    pending: &mut Vec<(NodeId, NodeId)>,
    changed: &mut Vec<Change>,
    left: NodeId,
    right: NodeId,
) -> Result<(), Unsolved>
    requires sound { IsSound nodes.old.items }
    requires inside { ArePairsIn (length nodes.old.items) pending.old.items }
    requires left_inside { left < vec_len nodes.old }
    requires right_inside { right < vec_len nodes.old }
    ensures merges { OnOk result (Merges nodes.old.items pending.old.items left right nodes.new.items pending.new.items) }
    ensures changes { OnOk result (Changes nodes.old.items changed.old.items nodes.new.items changed.new.items) }
    ensures clash { result ≡ Err Unsolved.Clash → HasNoSolution nodes.old.items ((left, right) ∷ []) }
{
    let first = find(nodes, changed, left)?;
    let second = find(nodes, changed, right)?;
    if first == second {
        return Ok(());
    }
    if first < second {
        merge(alloc, nodes, pending, changed, second, first)
    } else {
        merge(alloc, nodes, pending, changed, first, second)
    }
}

/// Solves equations between nodes, over infinite types. Gives what was changed, besides what had been.
pub fn solve(
    alloc: Global,
    nodes: &mut Vec<Cell>,
    mut pending: Vec<(NodeId, NodeId)>,
    mut changed: Vec<Change>,
) -> Result<Vec<Change>, Unsolved>
    requires sound { IsSound nodes.old.items }
    requires inside { ArePairsIn (length nodes.old.items) pending.items }
    ensures len { OnOk result (length nodes.new.items ≡ length nodes.old.items) }
    ensures sound { OnOk result (IsSound nodes.new.items) }
    ensures same { OnOk result (SameSolutions nodes.old.items pending.items nodes.new.items []) }
    ensures changes { IfOk result (λ cs. Changes nodes.old.items changed.items nodes.new.items cs.items) }
    ensures clash { result ≡ Err Unsolved.Clash → HasNoSolution nodes.old.items pending.items }
{
    while let Some((left, right)) = pending.pop() {
        match step(alloc, nodes, &mut pending, &mut changed, left, right) {
            Ok(()) => {}
            Err(fault) => return Err(fault),
        }
    }
    match fewest(alloc, changed) {
        Ok(few) => Ok(few),
        Err(_) => Err(Unsolved::Memory),
    }
}

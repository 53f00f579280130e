//! Nodes as a graph keeps them: those that there are most of in two words, and the others in memory of their own.

ghost use Rattle.std.specs.Prelude.{◌≡◌, [], ◌∷◌, ◌++◌, drop, IfOk, OnOk};
ghost use Rattle.sml_graph.specs.declared.node.Node.TheVariants.{Unknown, Link, App};
ghost use Rattle.sml_graph.specs.Graphs.{parts};
ghost use Rattle.sml_graph.specs.CodeCells.{node_in, head_of, IsInTwo, IsShape};

use crate::fields::Fields;
use crate::node::{Head, Node, NodeId};
use smallvec::SmallVec;
use sml_lex::fault::Memory;
use sml_objects::labels::Labels;
use sml_objects::objects::{Initial, TyName};
use std::alloc::Global;
use std::marker::Model;
use std::rc::Rc;
use std::slice;

/// A head and its parts.
#[derive(Drop)]
pub(crate) struct Applied {
    pub(crate) head: Head,
    pub(crate) kids: SmallVec<NodeId, 2, Global>,
}

/// What a cell has in it.
#[derive(Drop)]
pub(crate) enum Kept {
    Unknown,
    Link(NodeId),
    Arrow([NodeId; 2]),
    /// An initial name over no part.
    Initial(Initial),
    /// An initial name over one part.
    InitialOver(Initial, NodeId),
    App(Box<Applied>),
    Open(Box<Fields>),
}

/// A node as it is kept.
#[derive(Drop)]
pub struct Cell {
    kept: Kept,
}

impl Model for Cell {
    ghost use Rattle.std.specs.Coded.{codes};
    ghost use Rattle.sml_graph.specs.declared.node.Node.{Node};
    ghost use Rattle.sml_objects.specs.contracts.labels.Labels as labels;
    ghost use Rattle.sml_graph.specs.contracts.fields.Fields as fields;

    ghost Value = { Node };

    ghost coded = { Prim.hlevel (codes, fields.the_row.coded, labels.the_row.coded) };

    ghost use Rattle.sml_graph.specs.CodeCells.{node_in, IsInTwo};

    ghost view = { λ c. node_in c.kept };

    ghost invariant = { λ c. IsInTwo c.kept };
}

/// A head that is lent.
#[derive(Clone, Copy)]
pub enum Top<'a> {
    Arrow,
    Row(&'a Rc<Labels>),
    Name(TyName),
}

/// What a node says, lent by its cell.
#[derive(Clone, Copy)]
pub enum Shape<'a> {
    Unknown,
    Link(NodeId),
    App(Top<'a>, &'a [NodeId]),
    Open(&'a Fields),
}

/// A head with its parts, in memory of its own unless it is an arrow or an initial name.
fn keep(alloc: Global, head: Head, kids: SmallVec<NodeId, 2, Global>) -> Result<Kept, Memory>
    ensures node { IfOk result (λ kept. node_in kept ≡ App head kids) }
    ensures two { IfOk result IsInTwo }
{
    if kids.capacity() == 2 {
        let parts = kids.as_slice();
        match &head {
            Head::Arrow => {
                if parts.len() == 2 {
                    return Ok(Kept::Arrow([parts[0], parts[1]]));
                }
            }
            Head::Row(_) => {}
            Head::Name(TyName::Made(_)) => {}
            Head::Name(TyName::Initial(name)) => {
                if parts.is_empty() {
                    return Ok(Kept::Initial(*name));
                }
                if parts.len() == 1 {
                    return Ok(Kept::InitialOver(*name, parts[0]));
                }
            }
        }
    }
    Ok(Kept::App(Box::new(alloc, Applied { head, kids })?))
}

/// A vector of one number.
fn one(alloc: Global, number: NodeId) -> SmallVec<NodeId, 2, Global>
    ensures items { result.items ≡ number ∷ [] }
    ensures capacity { result.capacity ≡ 2 }
{
    let mut kids = SmallVec::new(alloc);
    kids.push_reserved(number);
    kids
}

impl Cell {
    /// The cell of an unknown.
    pub fn unknown() -> Self
        ensures { result ≡ Unknown }
    {
        Cell {
            kept: Kept::Unknown,
        }
    }

    /// The cell of a link.
    pub(crate) fn link(to: NodeId) -> Self
        ensures { result ≡ Link to }
    {
        Cell {
            kept: Kept::Link(to),
        }
    }

    /// The cell of a node.
    pub fn of(alloc: Global, node: Node) -> Result<Self, Memory>
        ensures { IfOk result (λ cell. cell ≡ node) }
    {
        let kept = match node {
            Node::Unknown => Kept::Unknown,
            Node::Link(to) => Kept::Link(to),
            Node::App(head, kids) => keep(alloc, head, kids)?,
            Node::Open(fields) => Kept::Open(fields),
        };
        Ok(Cell { kept })
    }

    /// The node of the cell.
    pub(crate) fn into_node(self, alloc: Global) -> Node
        ensures { result ≡ self }
    {
        match self.kept {
            Kept::Unknown => Node::Unknown,
            Kept::Link(to) => Node::Link(to),
            Kept::Arrow(kids) => {
                let mut parts = one(alloc, kids[0]);
                parts.push_reserved(kids[1]);
                Node::App(Head::Arrow, parts)
            }
            Kept::Initial(name) => {
                Node::App(Head::Name(TyName::Initial(name)), SmallVec::new(alloc))
            }
            Kept::InitialOver(name, kid) => {
                Node::App(Head::Name(TyName::Initial(name)), one(alloc, kid))
            }
            Kept::App(applied) => {
                let Applied { head, kids } = Box::into_inner(applied);
                Node::App(head, kids)
            }
            Kept::Open(fields) => Node::Open(fields),
        }
    }

    /// The nodes that the node speaks of.
    pub fn parts(&self) -> &[NodeId]
        ensures { result.now ≡ parts self.now }
    {
        match &self.kept {
            Kept::Unknown => &[],
            Kept::Link(to) => slice::from_ref(to),
            Kept::Arrow(kids) => kids.as_slice(),
            Kept::Initial(_) => &[],
            Kept::InitialOver(_, kid) => slice::from_ref(kid),
            Kept::App(applied) => applied.kids.as_slice(),
            Kept::Open(fields) => fields.kids(),
        }
    }

    /// What the node says.
    pub fn shape(&self) -> Shape<'_>
        ensures { IsShape self.now result }
    {
        match &self.kept {
            Kept::Unknown => Shape::Unknown,
            Kept::Link(to) => Shape::Link(*to),
            Kept::Arrow(kids) => Shape::App(Top::Arrow, kids.as_slice()),
            Kept::Initial(name) => Shape::App(Top::Name(TyName::Initial(*name)), &[]),
            Kept::InitialOver(name, kid) => {
                Shape::App(Top::Name(TyName::Initial(*name)), slice::from_ref(kid))
            }
            Kept::App(applied) => Shape::App(top_of(&applied.head), applied.kids.as_slice()),
            Kept::Open(fields) => Shape::Open(fields),
        }
    }
}

/// A head, lent.
fn top_of(head: &Head) -> Top<'_>
    ensures { head_of result ≡ head.now }
{
    match head {
        Head::Arrow => Top::Arrow,
        Head::Row(labels) => Top::Row(labels),
        Head::Name(name) => Top::Name(*name),
    }
}

/// The parts of a node from a place on.
pub fn parts_from(node: &Cell, from: usize) -> &[NodeId]
    ensures { result.now ≡ drop from (parts node.now) }
{
    let parts = node.parts();
    if from < parts.len() {
        &parts[from..]
    } else {
        &[]
    }
}

/// Adds the parts of a node.
pub fn push_parts(pending: &mut Vec<NodeId>, node: &Cell) -> Result<(), Memory>
    ensures { OnOk result (pending.new.items ≡ pending.old.items ++ parts node.now) }
{
    pending.extend_from_slice(node.parts())?;
    Ok(())
}

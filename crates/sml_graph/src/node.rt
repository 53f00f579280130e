//! Nodes, of which a solver's graph of types is made.

ghost use Rattle.std.specs.Prelude.{◌≡◌, ◌≢◌, ℕ, true, false};
ghost use Rattle.sml_graph.specs.Graphs.{head_over, parts};

use crate::fields::Fields;
use smallvec::SmallVec;
use sml_objects::labels::Labels;
use sml_objects::objects::TyName;
use std::alloc::Global;
use std::rc::Rc;
use std::slice;

/// The number of a node, by which others speak of it: 32 bits, since there are so many.
pub type NodeId = u32;

/// What stands at the top of a type, over its parts.
#[derive(Clone, Drop)]
pub enum Head {
    Arrow,
    /// A row with these labels.
    Row(Rc<Labels>),
    Name(TyName),
}

/// The type of a place of the graph.
#[derive(Drop)]
pub enum Node {
    Unknown,
    /// The type of an earlier node.
    Link(NodeId),
    /// A head over the types of other nodes.
    App(Head, SmallVec<NodeId, 2, Global>),
    /// A row that has these fields and perhaps others.
    Open(Box<Fields>),
}

/// The nodes that a node speaks of.
pub(crate) fn parts_of(node: &Node) -> &[NodeId]
    ensures { result.now ≡ parts node.now }
{
    match node {
        Node::Unknown => &[],
        Node::Link(to) => slice::from_ref(to),
        Node::App(_, kids) => kids.as_slice(),
        Node::Open(fields) => fields.kids(),
    }
}

/// Whether two heads are one.
pub(crate) fn is_same_head(left: &Head, right: &Head) -> bool
    ensures same { result ≡ true → (n : ℕ) → head_over left.now n ≡ head_over right.now n }
    ensures differ { result ≡ false → (n m : ℕ) → head_over left.now n ≢ head_over right.now m }
{
    match (left, right) {
        (Head::Arrow, Head::Arrow) => true,
        (Head::Row(some), Head::Row(others)) => some.are_same(others),
        (Head::Name(one), Head::Name(other)) => one == other,
        _ => false,
    }
}

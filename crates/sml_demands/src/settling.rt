//! What the types of nodes could still be.

ghost use Rattle.std.specs.Prelude.{◌≡◌, ℕ, ◌<◌, length};
ghost use Rattle.sml_graph.specs.Graphs.{IsSame, IsRoot, IsSound, node_at};
ghost use Rattle.sml_graph.specs.CodeCells.{head_of};
ghost use Rattle.sml_graph.specs.Limits.{limit_at};
ghost use Rattle.sml_demands.specs.Overloaded.{is_several};
ghost use Rattle.sml_demands.specs.CodeSettled.{is_row, has_labels};

use crate::count::root_of;
use sml_graph::cell::{Cell, Shape, Top};
use sml_graph::limit_table::Limits;
use sml_graph::node::NodeId;

/// Whether the type of a node is to be an initial name, and more than one is left.
pub fn has_several_names(nodes: &[Cell], limits: &Limits, at: NodeId) -> bool
    requires sound { IsSound nodes.now }
    requires full { length limits.now ≡ length nodes.now }
    requires inside { at < length nodes.now }
    ensures { (r : ℕ) × IsSame nodes.now at r × IsRoot nodes.now r × (result ≡ is_several (node_at nodes.now r) (limit_at limits.now r)) }
{
    let root = root_of(nodes, at);
    match nodes[root as usize].shape() {
        Shape::Unknown => limits.get(root as usize).has_several_names(),
        _ => false,
    }
}

fn is_row(head: Top) -> bool
    ensures { result ≡ is_row (head_of head.entry) }
{
    matches!(head, Top::Row(_))
}

/// Whether the type of a node is a row whose labels are known.
pub fn has_labels(nodes: &[Cell], at: NodeId) -> bool
    requires sound { IsSound nodes.now }
    requires inside { at < length nodes.now }
    ensures { (r : ℕ) × IsSame nodes.now at r × IsRoot nodes.now r × (r < length nodes.now) × (result ≡ has_labels (node_at nodes.now r)) }
{
    let root = root_of(nodes, at);
    match nodes[root as usize].shape() {
        Shape::App(head, _) => is_row(head),
        _ => false,
    }
}

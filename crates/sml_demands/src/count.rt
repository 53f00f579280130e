//! The size of the type of a node.

ghost use Rattle.std.specs.Prelude.{◌≡◌, ◌+◌, ◌^◌, ◌<◌, length, IfOk};
ghost use Rattle.sml_graph.specs.Graphs.{IsSame, IsRoot, IsSound};
ghost use Rattle.sml_graph.specs.CodeRanks.{HasRank};
ghost use Rattle.sml_demands.specs.Counted.{IsCounted};

use sml_graph::cell::{Cell, Shape};
use sml_graph::node::NodeId;
use sml_lex::fault::Memory;
use std::alloc::Global;

/// The node that another one leads to.
pub(crate) fn root_of(nodes: &[Cell], at: NodeId) -> NodeId
    requires sound { IsSound nodes.now }
    requires inside { at < length nodes.now }
    ensures same { IsSame nodes.now at result }
    ensures root { IsRoot nodes.now result }
    ensures inside { result < length nodes.now }
{
    let mut here = at;
    while let Shape::Link(next) = nodes[here as usize].shape() {
        here = next;
    }
    here
}

/// How many nodes the type of a node has, or one more than the limit where they are more. The time taken grows with the
/// limit and not with the type.
pub fn size_from(alloc: Global, nodes: &[Cell], root: NodeId, limit: u32) -> Result<u32, Memory>
    requires sound { IsSound nodes.now }
    requires rank { HasRank nodes.now }
    requires inside { root < length nodes.now }
    requires small { limit + 1 < 2 ^ 32 }
    ensures { IfOk result (IsCounted nodes.now root limit) }
{
    let mut pending = Vec::new(alloc);
    pending.push(root)?;
    let mut size = 0;
    while let Some(at) = pending.pop() {
        size += 1;
        if limit < size {
            return Ok(size);
        }
        pending.extend_from_slice(nodes[root_of(nodes, at) as usize].parts())?;
    }
    Ok(size)
}

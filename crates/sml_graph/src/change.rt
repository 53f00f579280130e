//! What was changed in a graph.

ghost use Rattle.std.specs.Prelude.{◌≡◌, ℕ, IfOk, OnOk};
ghost use Rattle.sml_graph.specs.Changes.{AddsChange, AreCovered, AreInside, IsNoLater, NodesRise};

use crate::node::NodeId;
use sml_lex::fault::Memory;
use std::alloc::Global;

/// A node that was changed: its parts from a place on may be new.
#[derive(Clone, Copy)]
pub struct Change {
    pub node: NodeId,
    pub from: usize,
}

impl Change {
    /// All parts of a node may be new.
    pub fn of(node: NodeId) -> Self
        ensures { result ≡ record { node = node; from = 0 } }
    {
        Change { node, from: 0 }
    }

    /// The one of two changes of a node that is from the earlier place on.
    fn earlier(self, other: Change) -> Change
        requires { self.node ≡ other.node }
        ensures own { IsNoLater self result }
        ensures other { IsNoLater other result }
    {
        if other.from < self.from { other } else { self }
    }
}

/// Adds a change to others. Where the last of these is of the same node, one change takes the place of both.
fn add_change(few: &mut Vec<Change>, change: Change) -> Result<(), Memory>
    ensures { OnOk result (AddsChange few.old.items change few.new.items) }
{
    if let Some(last) = few.pop() {
        if last.node == change.node {
            few.push(last.earlier(change))?;
            return Ok(());
        }
        few.push(last)?;
    }
    few.push(change)?;
    Ok(())
}

/// Changes that cover others, each node but once: so no part is gone through twice.
pub fn fewest(alloc: Global, mut changes: Vec<Change>) -> Result<Vec<Change>, Memory>
    ensures covers { IfOk result (λ few. AreCovered changes.items few.items) }
    ensures inside { (n : ℕ) → AreInside n changes.items → IfOk result (λ few. AreInside n few.items) }
    ensures once { IfOk result (λ few. NodesRise few.items) }
{
    changes.sort_by_key(|change| change.node)?;
    let mut few = Vec::new(alloc);
    for change in changes.as_slice() {
        add_change(&mut few, *change)?;
    }
    Ok(few)
}

//! The fields of a row of which not all labels are known.

ghost use Rattle.std.specs.Prelude.{◌≡◌, ◌∷◌, ◌++◌, [], map, IfOk};
ghost use Rattle.std.specs.Option.{IfSome};
ghost use Rattle.sml_tree.specs.Views.{ident_of};
ghost use Rattle.sml_graph.specs.Rows.{AreDistinct, AreDistinct-prop, field_list, kids_of, IsField};

use crate::node::NodeId;
use indexmap::IndexMap;
use sml_tree::bare::Ident;
use std::alloc::{AllocError, Global};

/// Labels, each with the node that has the type of its field. Each label stands once.
#[derive(Drop)]
pub struct Fields {
    map: IndexMap<Ident, NodeId>,
    ghost distinct: { AreDistinct (field_list map.entries) } by { AreDistinct-prop (field_list map.entries) },
}

impl Fields {
    /// No field.
    pub fn none(alloc: Global) -> Self
        ensures { field_list result.map.entries ≡ [] }
    {
        Fields {
            map: IndexMap::new(alloc),
        }
    }

    /// The nodes of the fields.
    pub(crate) fn kids(&self) -> &[NodeId]
        ensures { result.now ≡ kids_of (field_list self.now.map.entries) }
    {
        self.map.values().as_slice()
    }

    /// The labels of the fields, in the same order.
    pub(crate) fn labels(&self) -> &[Ident]
        ensures { map ident_of result.now ≡ map (λ f. f.0) (field_list self.now.map.entries) }
    {
        self.map.keys().as_slice()
    }

    /// Adds a field. Where its label stands already, nothing is changed, and the node that stands there is given.
    pub fn add(&mut self, label: Ident, kid: NodeId) -> Result<Option<NodeId>, AllocError>
        ensures new { IfOk result (λ found. found ≡ None → field_list self.new.map.entries ≡ field_list self.old.map.entries ++ (ident_of label, kid) ∷ []) }
        ensures known { IfOk result (λ found. IfSome found (λ k. (field_list self.new.map.entries ≡ field_list self.old.map.entries) × IsField (ident_of label) k (field_list self.old.map.entries))) }
    {
        if let Some(found) = self.map.get(&label) {
            return Ok(Some(*found));
        }
        self.map.insert(label, kid)?;
        Ok(None)
    }
}

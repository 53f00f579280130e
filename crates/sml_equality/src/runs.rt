//! Type names that a unit makes one after the other.

ghost use Rattle.std.specs.Prelude.{◌≡◌, ◌<◌, IfSome};
ghost use Rattle.sml_objects.specs.Views.{name_of};
ghost use Rattle.sml_equality.specs.Runs.{place_in};

use sml_objects::objects::{TyName, UnitId};

/// Names that a unit made one after the other, from this number on.
#[derive(Clone, Copy)]
pub struct Run {
    pub unit: UnitId,
    pub first: u32,
    pub count: usize,
}

impl Run {
    /// Where a name stands among them.
    pub fn index_of(&self, name: TyName) -> Option<usize>
        ensures place { result ≡ place_in self.now (name_of name) }
        ensures inside { IfSome result (λ k. k < self.now.count) }
    {
        match name {
            TyName::Initial(_) => None,
            TyName::Made(made) => {
                if made.unit.index != self.unit.index || made.number < self.first {
                    return None;
                }
                let index = (made.number - self.first) as usize;
                if index < self.count {
                    Some(index)
                } else {
                    None
                }
            }
        }
    }
}

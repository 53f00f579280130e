//! Units of a project that was checked, to be gone through once more.

use crate::needs::{empty, paths_of_needs};
use crate::project::Checked;
use crate::whole::whole_basis;
use sml_exports::so_far::SoFar;
use sml_initial::initial::initial;
use sml_lex::fault::Memory;
use std::alloc::Global;
use std::rc::Rc;

impl Checked {
    /// What the unit at this place in the order starts from, if there is one.
    pub fn again(&self, alloc: Global, place: usize) -> Result<Option<SoFar>, Memory> {
        let Some(source) = self.sources.get(place) else {
            return Ok(None);
        };
        let initial = Rc::new(alloc, initial(alloc)?)?;
        let none = empty(alloc, source.id);
        let basis = whole_basis(alloc, &initial, &source.needs, &self.exports, 0, &none)?;
        let paths = paths_of_needs(alloc, &source.needs, &self.exports)?;
        Ok(Some(SoFar { basis, paths }))
    }
}

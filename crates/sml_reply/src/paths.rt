//! The least paths of type names in a basis.

use crate::layer::{Layer, Path};
use indexmap::IndexMap;
use sml_bases::objects::Env;
use sml_lex::fault::Memory;
use sml_objects::objects::TyName;
use sml_tree::bare::Ident;
use std::alloc::Global;
use std::rc::Rc;

/// What a unit bound so far, over what its needs export, and the least paths that were found in these for some names.
#[derive(Drop)]
pub struct Paths {
    own: Layer,
    below: Vec<Rc<Layer>>,
    found: IndexMap<TyName, Option<Path>>,
}

impl Paths {
    /// Those of a unit that bound nothing. Later layers hide earlier ones.
    pub fn new(alloc: Global, below: Vec<Rc<Layer>>) -> Paths {
        Paths {
            own: Layer::new(alloc),
            below,
            found: IndexMap::new(alloc),
        }
    }

    /// Puts what a declaration binds over this. It costs what the environment holds, and what it hides of the unit's own.
    pub fn bind(&mut self, alloc: Global, env: &Env) -> Result<(), Memory> {
        self.own.bind(alloc, env)
    }

    /// The layer of the unit itself.
    pub fn into_own(self) -> Layer {
        let Paths { own, .. } = self;
        own
    }

    /// The least path at which a type name stands.
    pub fn least(&mut self, name: TyName) -> Result<Option<Ident>, Memory> {
        self.look_below(name)?;
        let below = match self.found.get(&name) {
            Some(Some(path)) => Some(path),
            _ => None,
        };
        match lesser(self.own.least(name), below) {
            Some(path) => Ok(Some(path.text().clone()?)),
            None => Ok(None),
        }
    }

    /// Finds the least path of a name in the layers below. What was found before stays until the unit hides it.
    fn look_below(&mut self, name: TyName) -> Result<(), Memory> {
        match self.found.get(&name) {
            Some(None) => return Ok(()),
            Some(Some(path)) => {
                if !self.own.hides(path) {
                    return Ok(());
                }
            }
            None => {}
        }
        let found = match least_of(&self.below, &self.own, name) {
            Some(path) => Some(path.share()?),
            None => None,
        };
        self.found.insert(name, found)?;
        Ok(())
    }
}

/// The least path of a name in some layers that neither later ones of them nor the unit itself hide.
fn least_of<'a>(below: &'a [Rc<Layer>], own: &Layer, name: TyName) -> Option<&'a Path> {
    let mut least = None;
    for index in 0..below.len() {
        let path = below[index].least_unhidden(name, own, &below[index + 1..]);
        least = lesser(least, path);
    }
    least
}

fn lesser<'a>(one: Option<&'a Path>, other: Option<&'a Path>) -> Option<&'a Path> {
    match (one, other) {
        (Some(first), Some(second)) => { if second < first { other } else { one } }
        (None, _) => other,
        (Some(_), None) => one,
    }
}

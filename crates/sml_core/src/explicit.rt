//! Explicit type variables in scope (the Definition, section 4.6).

ghost use Rattle.std.specs.Prelude.{◌≡◌, [], is_some, length, OnOk};
ghost use Rattle.std.specs.Option.{option_map};
ghost use Rattle.sml_tree.specs.Trees.{Id};
ghost use Rattle.sml_tree.specs.Views.{ident_of};
ghost use Rattle.sml_objects.specs.Maps.{lookup};
ghost use Rattle.sml_objects.specs.Objects as O;
ghost use Rattle.sml_types.specs.Variables.{place_in};
ghost use Rattle.sml_core.specs.Begun.{AddsVariable};

use indexmap::IndexMap;
use sml_lex::fault::{Code, Memory, Place};
use sml_objects::objects::MlType;
use sml_tree::bare::Ident;
use sml_types::fault::{CoreFault, plain_fault};
use sml_types::rows::boxed;
use sml_types::variables::TypeVariables;
use std::alloc::Global;
use std::rc::Rc;

/// The explicit type variables in scope: the unknown that stands for each.
#[derive(Drop)]
pub(crate) struct Explicit {
    unknowns: IndexMap<Ident, u32>,
}

impl Explicit {
    pub(crate) fn new(alloc: Global) -> Explicit
        ensures { result.unknowns.entries ≡ [] }
    {
        Explicit {
            unknowns: IndexMap::new(alloc),
        }
    }

    pub(crate) fn has(&self, name: &Ident) -> bool
        ensures { result ≡ is_some (place_in self.now.unknowns.entries (ident_of name.now)) }
    {
        self.unknowns.contains_key(name)
    }

    pub(crate) fn add(&mut self, name: &Ident, unknown: u32) -> Result<(), Memory>
        ensures { OnOk result (AddsVariable self.old (ident_of name.now) unknown self.new) }
    {
        self.unknowns.insert(name.clone()?, unknown)?;
        Ok(())
    }

    /// Adds the unknowns of those in scope to some types, and answers their identifiers in that order.
    pub(crate) fn put_all(
        &self,
        alloc: Global,
        types: &mut Vec<Rc<MlType>>,
    ) -> Result<Vec<Ident>, Memory> {
        let mut names = Vec::new(alloc);
        for (name, unknown) in &self.unknowns {
            names.push(name.clone()?)?;
            types.push(boxed(alloc, MlType::Free(*unknown))?)?;
        }
        Ok(names)
    }

    /// How many are in scope.
    pub(crate) fn count(&self) -> usize
        ensures { result ≡ length self.now.unknowns.entries }
    {
        self.unknowns.len()
    }

    /// Leaves the scope of all but the first ones.
    pub(crate) fn leave(&mut self, first: usize) {
        self.unknowns.truncate(first);
    }
}

impl TypeVariables for Explicit {
    ghost says = { λ e vs. (x : Id) → lookup x vs ≡ option_map O.free (place_in e.unknowns.entries x) };

    ghost stays = { λ e vs. (x : Id) → lookup x vs ≡ option_map O.free (place_in e.unknowns.entries x) };

    ghost notes = { λ _ _ _. Unit {0} };

    fn variable(
        &mut self,
        alloc: Global,
        place: Place,
        name: &Ident,
    ) -> Result<Rc<MlType>, CoreFault> {
        match self.unknowns.get(name) {
            Some(unknown) => Ok(boxed(alloc, MlType::Free(*unknown))?),
            None => Err(plain_fault(Code::E8, place)),
        }
    }
}

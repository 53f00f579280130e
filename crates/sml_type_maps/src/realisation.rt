//! Type functions in the place of names (the Definition, section 5.2).

ghost use Rattle.std.specs.Prelude.{◌≡◌, ℕ, None, OnOk, Option, Some, cond};
ghost use Rattle.std.specs.Option.{is_some};
ghost use Rattle.sml_objects.specs.Initial.{Name};
ghost use Rattle.sml_objects.specs.Objects as O;
ghost use Rattle.sml_objects.specs.Views.{name_of, scheme_of};
ghost use Rattle.sml_type_maps.specs.Mapped.{by_function, functions_of, is_same};

use crate::mapping::{Image, Mapping};
use indexmap::IndexMap;
use sml_lex::fault::Memory;
use sml_objects::objects::{MlType, Scheme, TyName};
use std::alloc::Global;
use std::rc::Rc;

/// The type functions that names become.
#[derive(Drop)]
pub struct Realisation {
    functions: IndexMap<TyName, Rc<Scheme>>,
}

impl Realisation {
    /// The one that changes no name.
    pub fn new(alloc: Global) -> Realisation
        ensures { (n : Name) → functions_of result.functions.entries n ≡ None }
    {
        Realisation {
            functions: IndexMap::new(alloc),
        }
    }

    /// Lets a name become a type function.
    pub fn insert(&mut self, name: TyName, function: Rc<Scheme>) -> Result<(), Memory>
        ensures { OnOk result ((n : Name) → functions_of self.new.functions.entries n
            ≡ cond (is_same n (name_of name)) (Some (scheme_of function.value)) (functions_of self.old.functions.entries n)) }
    {
        self.functions.insert(name, function)?;
        Ok(())
    }

    /// Whether a name becomes something.
    pub fn has(&self, name: TyName) -> bool
        ensures { result ≡ is_some (functions_of self.now.functions.entries (name_of name)) }
    {
        self.functions.contains_key(&name)
    }
}

impl Mapping for Realisation {
    ghost bound_gives = { λ _ k. O.bound k };

    ghost free_gives = { λ _ v. O.free v };

    ghost name_gives = { λ s n ts. by_function (functions_of s.functions.entries n) n ts };

    fn bound(&self, _alloc: Global, _variable: u32) -> Result<Option<Rc<MlType>>, Memory> {
        Ok(None)
    }

    fn free(&self, _alloc: Global, _variable: u32) -> Result<Option<Rc<MlType>>, Memory> {
        Ok(None)
    }

    fn name(&self, name: TyName) -> Image<'_> {
        match self.functions.get(&name) {
            Some(function) => Image::Function(function),
            None => Image::Same,
        }
    }
}

//! Environments: the empty one, one more entry, and look-ups.

ghost use Rattle.std.specs.Prelude.{◌≡◌, OnOk, OnErr};
ghost use Rattle.std.specs.Option.{option_map};
ghost use Rattle.sml_tree.specs.Views.{ident_of};
ghost use Rattle.sml_objects.specs.Objects.{empty_env, structures, types, values, find_structure};
ghost use Rattle.sml_objects.specs.Maps.{lookup};
ghost use Rattle.sml_objects.specs.Puts as puts;
ghost use Rattle.sml_objects.specs.Views.{env_of, scheme_of};

use crate::objects::{Env, Scheme};
use sml_lex::fault::Memory;
use sml_tree::bare::Ident;
use std::alloc::Global;
use std::collections::BTreeMap;
use std::rc::Rc;

impl Env {
    /// The environment without entries.
    pub fn new(alloc: Global) -> Env
        ensures { env_of result ≡ empty_env }
    {
        Env {
            structures: BTreeMap::new(alloc),
            types: BTreeMap::new(alloc),
            values: BTreeMap::new(alloc),
        }
    }

    /// The structure of this name.
    pub fn structure(&self, name: &Ident) -> Option<&Rc<Env>>
        ensures { option_map (λ s. env_of s.now.value) result ≡ find_structure (ident_of name.now) (structures (env_of self.now)) }
    {
        self.structures.get(name)
    }

    /// The type function of this type constructor.
    pub fn type_function(&self, name: &Ident) -> Option<&Rc<Scheme>>
        ensures { option_map (λ s. scheme_of s.now.value) result ≡ lookup (ident_of name.now) (types (env_of self.now)) }
    {
        self.types.get(name)
    }

    /// The scheme of this value.
    pub fn value(&self, name: &Ident) -> Option<&Rc<Scheme>>
        ensures { option_map (λ s. scheme_of s.now.value) result ≡ lookup (ident_of name.now) (values (env_of self.now)) }
    {
        self.values.get(name)
    }

    /// Puts a structure.
    pub fn with_structure(&mut self, name: Ident, structure: Rc<Env>) -> Result<(), Memory>
        ensures ok { OnOk result (env_of self.new ≡ puts.with_structure (ident_of name) (env_of structure.value) (env_of self.old)) }
        ensures err { OnErr result (env_of self.new ≡ env_of self.old) }
    {
        self.structures.insert(name, structure)?;
        Ok(())
    }

    /// Puts a type function.
    pub fn with_type(&mut self, name: Ident, function: Rc<Scheme>) -> Result<(), Memory>
        ensures ok { OnOk result (env_of self.new ≡ puts.with_type (ident_of name) (scheme_of function.value) (env_of self.old)) }
        ensures err { OnErr result (env_of self.new ≡ env_of self.old) }
    {
        self.types.insert(name, function)?;
        Ok(())
    }

    /// Puts the scheme of a value.
    pub fn with_value(&mut self, name: Ident, scheme: Rc<Scheme>) -> Result<(), Memory>
        ensures ok { OnOk result (env_of self.new ≡ puts.with_value (ident_of name) (scheme_of scheme.value) (env_of self.old)) }
        ensures err { OnErr result (env_of self.new ≡ env_of self.old) }
    {
        self.values.insert(name, scheme)?;
        Ok(())
    }
}

//! What is bound in the scopes that are open, over a basis. To leave a scope goes back over what was bound in it.

ghost use Rattle.std.specs.Prelude.{◌≡◌, [], ◌∷◌, None, false, OnOk};
ghost use Rattle.std.specs.Option.{option_map};
ghost use Rattle.sml_tree.specs.Views.{ident_of};
ghost use Rattle.sml_objects.specs.Initial.{Name};
ghost use Rattle.sml_objects.specs.Maps.{put};
ghost use Rattle.sml_core_rules.specs.Objects as O;
ghost use Rattle.sml_core_rules.specs.Objects.{and_structure, empty, extend, maps, no_structure};
ghost use Rattle.sml_bases.specs.Views.{env_of, ty_str_of, value_of};
ghost use Rattle.sml_scopes.specs.CodeScopes.{IsOrdered, structure_in, type_in, value_in};
ghost use Rattle.sml_scopes.specs.Means.{BasisMeans, IsAround, Means, MeansAt};

use crate::table::Table;
use sml_bases::objects::{Basis, Env, TypeStr, Value};
use sml_lex::fault::Memory;
use sml_tree::bare::Ident;
use sml_types::scope::Scope;
use sml_types::sides::RightSide;
use std::alloc::Global;
use std::rc::Rc;

/// The scopes that are open, over a basis.
#[derive(Drop)]
pub struct Scopes<'a> {
    pub alloc: Global,
    basis: &'a Basis,
    values: Table<Value>,
    types: Table<TypeStr>,
    structures: Table<Rc<Env>>,
    opened: Vec<Rc<Env>>,
}

/// Where a scope begins.
#[derive(Clone, Copy)]
pub struct Mark {
    values: usize,
    types: usize,
    structures: usize,
    opened: usize,
}

/// Whether a structure has entries.
fn has_entries(structure: &Env) -> bool
    ensures none { result ≡ false → env_of structure.now ≡ empty }
    ensures ordered { IsOrdered structure.now }
{
    let values = structure.values.len();
    let types = structure.types.len();
    let structures = structure.structures.len();
    values > 0 || types > 0 || structures > 0
}

impl<'a> Scopes<'a> {
    /// No scope over a basis.
    pub fn new(alloc: Global, basis: &'a Basis) -> Scopes<'a>
        ensures { (C : O.Env Name) → BasisMeans basis.now C → Means result C }
    {
        Scopes {
            alloc,
            basis,
            values: Table::new(alloc),
            types: Table::new(alloc),
            structures: Table::new(alloc),
            opened: Vec::new(alloc),
        }
    }

    /// The basis below the scopes.
    pub fn basis(&self) -> &'a Basis
        ensures { result ≡ self.now.basis }
    {
        self.basis
    }

    /// Where a scope begins that is opened now.
    pub fn mark(&self) -> Mark
        ensures meant { (C : O.Env Name) → Means self.now C → MeansAt self.now result C }
        ensures around { (C : O.Env Name) (m : Mark) → MeansAt self.now m C → IsAround m result }
    {
        Mark {
            values: self.values.count(),
            types: self.types.count(),
            structures: self.structures.count(),
            opened: self.opened.len(),
        }
    }

    /// Leaves the scope that begins there.
    pub fn leave(&mut self, mark: Mark) -> Result<(), Memory>
        ensures left { OnOk result ((C : O.Env Name) → MeansAt self.old mark C → Means self.new C) }
        ensures around { OnOk result ((C D : O.Env Name) (m : Mark) → MeansAt self.old mark D → IsAround m mark → MeansAt self.old m C → MeansAt self.new m C) }
    {
        self.values.leave(mark.values)?;
        self.types.leave(mark.types)?;
        self.structures.leave(mark.structures)?;
        self.opened.truncate(mark.opened);
        Ok(())
    }

    /// Binds a value.
    pub fn bind_value(&mut self, name: &Ident, value: Value) -> Result<(), Memory>
        ensures bound { OnOk result ((C : O.Env Name) → Means self.old C → Means self.new (extend C (maps no_structure [] ((ident_of name.now, value_of value) ∷ [])))) }
        ensures around { OnOk result ((C : O.Env Name) (m : Mark) → MeansAt self.old m C → MeansAt self.new m C) }
    {
        self.values.bind(name, self.opened.len(), value)
    }

    /// Binds a type structure.
    pub fn bind_type(&mut self, name: &Ident, ty: TypeStr) -> Result<(), Memory>
        ensures bound { OnOk result ((C : O.Env Name) → Means self.old C → Means self.new (extend C (maps no_structure ((ident_of name.now, ty_str_of ty) ∷ []) []))) }
        ensures around { OnOk result ((C : O.Env Name) (m : Mark) → MeansAt self.old m C → MeansAt self.new m C) }
    {
        self.types.bind(name, self.opened.len(), ty)
    }

    /// Binds a structure.
    pub fn bind_structure(&mut self, name: &Ident, structure: Rc<Env>) -> Result<(), Memory>
        ensures bound { OnOk result ((C : O.Env Name) → Means self.old C → Means self.new (extend C (maps (and_structure (ident_of name.now) (env_of structure.value) no_structure) [] []))) }
        ensures around { OnOk result ((C : O.Env Name) (m : Mark) → MeansAt self.old m C → MeansAt self.new m C) }
    {
        self.structures.bind(name, self.opened.len(), structure)
    }

    /// Binds what a structure holds, all at once.
    pub fn open(&mut self, structure: Rc<Env>) -> Result<(), Memory>
        ensures bound { OnOk result ((C : O.Env Name) → Means self.old C → Means self.new (extend C (env_of structure.value))) }
        ensures around { OnOk result ((C : O.Env Name) (m : Mark) → MeansAt self.old m C → MeansAt self.new m C) }
    {
        if has_entries(&structure) {
            self.opened.push(structure)?;
        }
        Ok(())
    }

    /// The value that an identifier means.
    pub fn value(&self, name: &Ident) -> Option<&Value>
        ensures { option_map (λ v. value_of v.now) result ≡ value_in self.now (ident_of name.now) }
    {
        match self.values.find(&self.opened, name) {
            Some(found) => Some(found),
            None => self.basis.value(name),
        }
    }
}

impl Scope for Scopes<'_> {
    ghost says_structure = { λ s x o. o ≡ structure_in s x };

    ghost says_type = { λ s x o. o ≡ type_in s x };

    ghost says_side = { λ _ _ o. o ≡ None };

    fn structure(&self, name: &Ident) -> Option<&Rc<Env>> {
        match self.structures.find(&self.opened, name) {
            Some(found) => Some(found),
            None => self.basis.structure(name),
        }
    }

    fn type_str(&self, name: &Ident) -> Option<&TypeStr> {
        match self.types.find(&self.opened, name) {
            Some(found) => Some(found),
            None => self.basis.type_str(name),
        }
    }

    fn right_side(&self, _name: &Ident) -> Option<&RightSide> {
        None
    }
}

//! What specifications see: those before them in each `sig .. end` around them, and then the scopes that are open.

ghost use Rattle.std.specs.Prelude.{◌≡◌, None, reverse};
ghost use Rattle.std.specs.Option.{option_copied};
ghost use Rattle.sml_tree.specs.Views.{ident_of};
ghost use Rattle.sml_objects.specs.Maps.{lookup};
ghost use Rattle.sml_core_rules.specs.Objects.{find_structure, structures, types};
ghost use Rattle.sml_bases.specs.Layers.{first_found};
ghost use Rattle.sml_bases.specs.Views.{env_of};
ghost use Rattle.sml_types.specs.Answered.{there_or};
ghost use Rattle.sml_scopes.specs.CodeScopes.{structure_in, type_in};
ghost use Rattle.sml_sigs.specs.Layers.{drafted_at, structure_drafted, type_drafted};

use crate::draft::Draft;
use sml_bases::environments::Entry;
use sml_bases::objects::{Env, TypeStr};
use sml_scopes::scopes::Scopes;
use sml_tree::bare::Ident;
use sml_types::scope::Scope;
use sml_types::sides::RightSide;
use std::rc::Rc;

/// Specifications over the scopes that are open.
#[derive(Drop)]
pub(crate) struct Layers<'a, 'b> {
    pub outer: &'a Scopes<'b>,
    /// Those before them in each `sig .. end` around them, the innermost last.
    pub inner: &'a [Draft],
}

impl Scope for Layers<'_, '_> {
    ghost says_structure = { λ l x o. there_or (structure_drafted l.inner.now x) (λ p. p ≡ structure_in l.outer.now x) o };

    ghost says_type = { λ l x o. there_or (type_drafted l.inner.now x) (λ p. p ≡ type_in l.outer.now x) o };

    ghost says_side = { λ _ _ o. o ≡ None };

    fn structure(&self, name: &Ident) -> Option<&Rc<Env>> {
        match found_in(self.inner, name) {
            Some(found) => Some(found),
            None => self.outer.structure(name),
        }
    }

    fn type_str(&self, name: &Ident) -> Option<&TypeStr> {
        match found_in(self.inner, name) {
            Some(found) => Some(found),
            None => self.outer.type_str(name),
        }
    }

    fn right_side(&self, _name: &Ident) -> Option<&RightSide> {
        None
    }
}

/// The entry of the innermost specifications that have it.
fn found_in<'a, T: Entry>(drafts: &'a [Draft], name: &Ident) -> Option<&'a T>
    ensures { option_copied result ≡ first_found (drafted_at T.held (ident_of name.now)) (reverse drafts.now) }
{
    for draft in drafts.iter().rev() {
        if let Some(found) = T::entries(&draft.env).get(name) {
            return Some(found);
        }
    }
    None
}

/// The environment of a signature as a scope of its own.
#[derive(Clone, Copy)]
pub(crate) struct Inside<'a> {
    pub env: &'a Env,
}

impl Scope for Inside<'_> {
    ghost says_structure = { λ s x o. o ≡ find_structure x (structures (env_of s.env.now)) };

    ghost says_type = { λ s x o. o ≡ lookup x (types (env_of s.env.now)) };

    ghost says_side = { λ _ _ o. o ≡ None };

    fn structure(&self, name: &Ident) -> Option<&Rc<Env>> {
        self.env.structures.get(name)
    }

    fn type_str(&self, name: &Ident) -> Option<&TypeStr> {
        self.env.types.get(name)
    }

    fn right_side(&self, _name: &Ident) -> Option<&RightSide> {
        None
    }
}

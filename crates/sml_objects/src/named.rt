//! Objects in which names stand.

ghost use Rattle.std.specs.Prelude.{◌≡◌, List, IfOk, map};
ghost use Rattle.sml_objects.specs.Appearance.{HaveSameNames};
ghost use Rattle.sml_objects.specs.Initial.{Name};
ghost use Rattle.sml_objects.specs.Objects as O;
ghost use Rattle.sml_objects.specs.Renamings.{renames};
ghost use Rattle.sml_objects.specs.Signatures.{signature_of};
ghost use Rattle.sml_objects.specs.Views.{type_of, scheme_of, env_of, sig_of, name_of};

use crate::names::{collect_basis, collect_env, collect_signature, collect_type};
use crate::objects::{Basis, Env, MlType, Scheme, Sig, TyName};
use crate::renames::{renamed_basis, renamed_env, renamed_scheme, renamed_signature, renamed_type};
use crate::renamings::Renaming;
use indexmap::IndexSet;
use sml_lex::fault::Memory;
use std::alloc::Global;
use std::rc::Rc;

/// An object in which names stand.
pub trait Named {
    ghost names_of: { Self → List Name };

    ghost is_renamed: { (Name → Name) → Self → Self → Type 0 };

    /// The names that stand in the object, bound ones too.
    fn names(&self, alloc: Global) -> Result<IndexSet<TyName>, Memory>
        ensures { IfOk result (λ s. HaveSameNames (map name_of s.keys) (names_of self.now)) };

    /// The object with other names.
    fn rename(&self, alloc: Global, by: &Renaming) -> Result<Self, Memory>
        ensures { IfOk result (is_renamed (renames by.now) self.now) };
}

impl Named for MlType {
    ghost names_of = { λ t. O.names_type (type_of t) };

    ghost is_renamed = { λ f t u. type_of u ≡ O.rename_type f (type_of t) };

    fn names(&self, alloc: Global) -> Result<IndexSet<TyName>, Memory> {
        let mut names = IndexSet::new(alloc);
        collect_type(self, &mut names)?;
        Ok(names)
    }

    fn rename(&self, alloc: Global, by: &Renaming) -> Result<MlType, Memory> {
        // The copy has no other owner.
        Rc::into_inner(renamed_type(alloc, self, by)?).ok_or(Memory)
    }
}

impl Named for Scheme {
    ghost names_of = { λ s. O.names_type (scheme_of s).body };

    ghost is_renamed = { λ f s u. scheme_of u ≡ O.rename_scheme f (scheme_of s) };

    fn names(&self, alloc: Global) -> Result<IndexSet<TyName>, Memory> {
        self.body.names(alloc)
    }

    fn rename(&self, alloc: Global, by: &Renaming) -> Result<Scheme, Memory> {
        renamed_scheme(alloc, self, by)
    }
}

impl Named for Env {
    ghost names_of = { λ e. O.names_env (env_of e) };

    ghost is_renamed = { λ f e u. env_of u ≡ O.rename_env f (env_of e) };

    fn names(&self, alloc: Global) -> Result<IndexSet<TyName>, Memory> {
        let mut names = IndexSet::new(alloc);
        collect_env(self, &mut names)?;
        Ok(names)
    }

    fn rename(&self, alloc: Global, by: &Renaming) -> Result<Env, Memory> {
        renamed_env(alloc, self, by)
    }
}

impl Named for Sig {
    ghost names_of = { λ s. O.names_sig (signature_of s) };

    ghost is_renamed = { λ f s u. signature_of u ≡ O.rename_sig f (signature_of s) };

    fn names(&self, alloc: Global) -> Result<IndexSet<TyName>, Memory> {
        let mut names = IndexSet::new(alloc);
        collect_signature(self, &mut names)?;
        Ok(names)
    }

    fn rename(&self, alloc: Global, by: &Renaming) -> Result<Sig, Memory> {
        renamed_signature(alloc, self, by)
    }
}

impl Named for Basis {
    ghost names_of = { λ b. O.names_sig (sig_of b) };

    ghost is_renamed = { λ f b u. (sig_of u ≡ O.rename_sig f (sig_of b)) × (u.unit ≡ b.unit) };

    fn names(&self, alloc: Global) -> Result<IndexSet<TyName>, Memory> {
        let mut names = IndexSet::new(alloc);
        collect_basis(self, &mut names)?;
        Ok(names)
    }

    fn rename(&self, alloc: Global, by: &Renaming) -> Result<Basis, Memory> {
        renamed_basis(alloc, self, by)
    }
}

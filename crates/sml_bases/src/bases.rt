//! Bases, and what identifiers mean in them.

ghost use Rattle.std.specs.Prelude.{◌≡◌, [], ◌∷◌, ℕ, List, Vec, OnOk};
ghost use Rattle.std.specs.Global.{Global};
ghost use Rattle.std.specs.Option.{option_map, option_copied};
ghost use Rattle.std.specs.declared.rc.Rc.{Rc as Shared};
ghost use Rattle.sml_tree.specs.Views.{ident_of};
ghost use Rattle.sml_objects.specs.Maps.{join, lookup};
ghost use Rattle.sml_core_rules.specs.Objects.{empty, extend, find_structure, structures, types, values};
ghost use Rattle.sml_bases.specs.Views.{env_of, fun_sig_of, sig_of, ty_str_of, value_of};
ghost use Rattle.sml_bases.specs.declared.objects.Env.TheViews.{out-Env};
ghost use Rattle.sml_bases.specs.declared.objects.Basis.TheViews.{out-Basis};
ghost use Rattle.sml_bases.specs.CodeStored.{stored_at};
ghost use Rattle.sml_bases.specs.Layers.{bases_of, bound_env, bound_functors, bound_signatures, first_found, functors_in, layers, signatures_in};

use crate::environments::put_shared;
use crate::objects::{Basis, Env, FunSig, Sig, TypeStr, Value};
use sml_lex::fault::Memory;
use sml_objects::objects::UnitId;
use sml_tree::bare::Ident;
use std::alloc::Global;
use std::collections::BTreeMap;
use std::rc::Rc;

/// What a basis binds: what an environment has entries of, signatures and functors.
trait Bound: Drop {
    ghost use Rattle.sml_bases.specs.declared.objects.Basis.{Basis};

    // What is stored in the basis itself.
    ghost stored: { Basis → List (Shared (Vec ℕ Global) Global × Self) };

    /// What a basis binds itself.
    fn bound(basis: &Basis) -> &BTreeMap<Ident, Self>
        ensures { result.now.entries ≡ stored basis.now };
}

impl Bound for Rc<Env> {
    ghost stored = { λ b. (out-Env (out-Basis b).env).structures.entries };

    fn bound(basis: &Basis) -> &BTreeMap<Ident, Rc<Env>> {
        &basis.env.structures
    }
}

impl Bound for TypeStr {
    ghost stored = { λ b. (out-Env (out-Basis b).env).types.entries };

    fn bound(basis: &Basis) -> &BTreeMap<Ident, TypeStr> {
        &basis.env.types
    }
}

impl Bound for Value {
    ghost stored = { λ b. (out-Env (out-Basis b).env).values.entries };

    fn bound(basis: &Basis) -> &BTreeMap<Ident, Value> {
        &basis.env.values
    }
}

impl Bound for Rc<Sig> {
    ghost stored = { λ b. (out-Basis b).signatures.entries };

    fn bound(basis: &Basis) -> &BTreeMap<Ident, Rc<Sig>> {
        &basis.signatures
    }
}

impl Bound for Rc<FunSig> {
    ghost stored = { λ b. (out-Basis b).functors.entries };

    fn bound(basis: &Basis) -> &BTreeMap<Ident, Rc<FunSig>> {
        &basis.functors
    }
}

impl Basis {
    /// The basis of a unit that binds nothing and made no name.
    pub fn new(alloc: Global, unit: UnitId) -> Basis
        ensures env { layers result ≡ empty ∷ [] }
        ensures signatures { signatures_in result ≡ [] ∷ [] }
        ensures functors { functors_in result ≡ [] ∷ [] }
        ensures unit { (out-Basis result).unit ≡ unit }
        ensures count { (out-Basis result).count ≡ 0 }
        ensures names { (out-Basis result).names.items ≡ [] }
    {
        Basis {
            unit,
            count: 0,
            names: Vec::new(alloc),
            below: Vec::new(alloc),
            env: Env::new(alloc),
            signatures: BTreeMap::new(alloc),
            functors: BTreeMap::new(alloc),
        }
    }

    /// Puts what another basis binds over what this one does. The unit, its names and the bases below stay.
    pub fn add(&mut self, other: &Basis) -> Result<(), Memory>
        ensures env { OnOk result (bound_env self.new ≡ extend (bound_env self.old) (bound_env other.now)) }
        ensures signatures { OnOk result (bound_signatures self.new ≡ join (bound_signatures self.old) (bound_signatures other.now)) }
        ensures functors { OnOk result (bound_functors self.new ≡ join (bound_functors self.old) (bound_functors other.now)) }
        ensures below { OnOk result ((out-Basis self.new).below ≡ (out-Basis self.old).below) }
        ensures unit { OnOk result ((out-Basis self.new).unit ≡ (out-Basis self.old).unit) }
        ensures count { OnOk result ((out-Basis self.new).count ≡ (out-Basis self.old).count) }
        ensures names { OnOk result ((out-Basis self.new).names ≡ (out-Basis self.old).names) }
    {
        let Basis {
            unit: _,
            count: _,
            names: _,
            below: _,
            env,
            signatures,
            functors,
        } = self;
        env.add(&other.env)?;
        put_shared(signatures, &other.signatures)?;
        put_shared(functors, &other.functors)?;
        Ok(())
    }

    /// What the nearest basis that binds the identifier binds to it.
    fn find<T: Bound>(&self, name: &Ident) -> Option<&T>
        ensures { option_copied result ≡ first_found (stored_at T.stored (ident_of name.now)) (bases_of self.now) }
    {
        if let Some(found) = T::bound(self).get(name) {
            return Some(found);
        }
        let mut left = self.below.len();
        while left > 0 {
            left -= 1;
            if let Some(found) = T::bound(&self.below[left]).get(name) {
                return Some(found);
            }
        }
        None
    }

    /// The structure that the identifier means.
    pub fn structure(&self, name: &Ident) -> Option<&Rc<Env>>
        ensures { option_map (λ s. env_of s.now.value) result ≡ first_found (λ E. find_structure (ident_of name.now) (structures E)) (layers self.now) }
    {
        self.find(name)
    }

    /// The type structure that the type constructor means.
    pub fn type_str(&self, name: &Ident) -> Option<&TypeStr>
        ensures { option_map (λ t. ty_str_of t.now) result ≡ first_found (λ E. lookup (ident_of name.now) (types E)) (layers self.now) }
    {
        self.find(name)
    }

    /// The value that the identifier means.
    pub fn value(&self, name: &Ident) -> Option<&Value>
        ensures { option_map (λ v. value_of v.now) result ≡ first_found (λ E. lookup (ident_of name.now) (values E)) (layers self.now) }
    {
        self.find(name)
    }

    /// The signature that the identifier means.
    pub fn signature(&self, name: &Ident) -> Option<&Rc<Sig>>
        ensures { option_map (λ s. sig_of s.now.value) result ≡ first_found (lookup (ident_of name.now)) (signatures_in self.now) }
    {
        self.find(name)
    }

    /// The functor that the identifier means.
    pub fn functor(&self, name: &Ident) -> Option<&Rc<FunSig>>
        ensures { option_map (λ f. fun_sig_of f.now.value) result ≡ first_found (lookup (ident_of name.now)) (functors_in self.now) }
    {
        self.find(name)
    }
}

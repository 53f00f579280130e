//! Signatures and results of functors with new names for those that they bind.

ghost use Rattle.std.specs.Prelude.{◌≡◌, IfOk, OnOk, map};
ghost use Rattle.std.specs.Option.{option_map};
ghost use Rattle.sml_objects.specs.Initial.{Name};
ghost use Rattle.sml_objects.specs.Objects as O;
ghost use Rattle.sml_objects.specs.Views.{maker_of, name_of};
ghost use Rattle.sml_bases.specs.Views.{env_of};
ghost use Rattle.sml_type_maps.specs.Mapped.{by_name, names_of, or_by_name};
ghost use Rattle.sml_type_maps.specs.NewNames.{carries, is_new};
ghost use Rattle.sml_envs.specs.Mapped.{AreOrderedIn, env_by};
ghost use Rattle.sml_envs.specs.Renamed.{carries_like, made_like, new_for, number_after};

use crate::mapping::mapped_env;
use indexmap::IndexMap;
use sml_bases::objects::{Env, FunSig, Sig};
use sml_lex::fault::Memory;
use sml_objects::objects::{MlType, TyName};
use sml_type_maps::mapping::{Image, Mapping};
use sml_type_maps::new_names::NewNames;
use std::alloc::Global;
use std::rc::Rc;

/// Other names for some names, which were made for them in order.
#[derive(Drop)]
struct Renaming {
    others: IndexMap<TyName, TyName>,
    made: Vec<TyName>,
}

impl Renaming {
    /// New names for these.
    fn of(alloc: Global, names: &[TyName], new: &mut NewNames) -> Result<Renaming, Memory>
        ensures made { IfOk result (λ r. map name_of r.made.items ≡ made_like (maker_of new.old.unit) new.old.next (map name_of names.now)) }
        ensures others { IfOk result (λ r. (n : Name) → names_of r.others.entries n ≡ new_for (map name_of names.now) (made_like (maker_of new.old.unit) new.old.next (map name_of names.now)) n) }
        ensures carried { OnOk result ((n : Name) → carries new.new n ≡ carries_like (is_new new.old) (map name_of names.now) (made_like (maker_of new.old.unit) new.old.next (map name_of names.now)) (carries new.old) n) }
        ensures next { OnOk result (new.new.next ≡ number_after new.old.next (map name_of names.now)) }
        ensures basis { new.new.basis ≡ new.old.basis }
        ensures unit { new.new.unit ≡ new.old.unit }
    {
        let mut renaming = Renaming {
            others: IndexMap::new(alloc),
            made: Vec::new(alloc),
        };
        for name in names {
            let other = new.make_like(*name)?;
            renaming.others.insert(*name, other)?;
            renaming.made.push(other)?;
        }
        Ok(renaming)
    }

    fn image(&self, name: TyName) -> Option<TyName>
        ensures { option_map name_of result ≡ names_of self.now.others.entries (name_of name) }
    {
        match self.others.get(&name) {
            Some(other) => Some(*other),
            None => None,
        }
    }
}

impl Mapping for Renaming {
    ghost bound_gives = { λ _ k. O.bound k };

    ghost free_gives = { λ _ v. O.free v };

    ghost name_gives = { λ s n ts. by_name (names_of s.others.entries n) n ts };

    fn bound(&self, _alloc: Global, _variable: u32) -> Result<Option<Rc<MlType>>, Memory> {
        Ok(None)
    }

    fn free(&self, _alloc: Global, _variable: u32) -> Result<Option<Rc<MlType>>, Memory> {
        Ok(None)
    }

    fn name(&self, name: TyName) -> Image<'_> {
        match self.image(name) {
            Some(other) => Image::Name(other),
            None => Image::Same,
        }
    }
}

/// The signature with new names for those that it binds.
pub fn renamed_sig(alloc: Global, sig: &Sig, new: &mut NewNames) -> Result<Sig, Memory>
    ensures names { IfOk result (λ s. map name_of s.names.items ≡ made_like (maker_of new.old.unit) new.old.next (map name_of sig.now.names.items)) }
    ensures env { AreOrderedIn (env_of sig.now.env.value) → IfOk result (λ s. env_of s.env.value
        ≡ env_by O.bound O.free (λ n ts. by_name (new_for (map name_of sig.now.names.items) (made_like (maker_of new.old.unit) new.old.next (map name_of sig.now.names.items)) n) n ts) (env_of sig.now.env.value)) }
    ensures carried { OnOk result ((n : Name) → carries new.new n ≡ carries_like (is_new new.old) (map name_of sig.now.names.items) (made_like (maker_of new.old.unit) new.old.next (map name_of sig.now.names.items)) (carries new.old) n) }
    ensures next { OnOk result (new.new.next ≡ number_after new.old.next (map name_of sig.now.names.items)) }
    ensures basis { new.new.basis ≡ new.old.basis }
    ensures unit { new.new.unit ≡ new.old.unit }
{
    let renaming = Renaming::of(alloc, &sig.names, new)?;
    let env = mapped_env(alloc, &sig.env, &renaming)?;
    let Renaming { made, .. } = renaming;
    Ok(Sig { names: made, env })
}

/// A renaming, and what other names become.
#[derive(Drop)]
struct Both<'a, M> {
    renaming: Renaming,
    others: &'a M,
}

impl<M: Mapping> Mapping for Both<'_, M> {
    ghost bound_gives = { λ _ k. O.bound k };

    ghost free_gives = { λ _ v. O.free v };

    ghost name_gives = { λ s n ts. or_by_name (names_of s.renaming.others.entries n) ts (M.name_gives s.others.now n ts) };

    fn bound(&self, _alloc: Global, _variable: u32) -> Result<Option<Rc<MlType>>, Memory> {
        Ok(None)
    }

    fn free(&self, _alloc: Global, _variable: u32) -> Result<Option<Rc<MlType>>, Memory> {
        Ok(None)
    }

    fn name(&self, name: TyName) -> Image<'_> {
        match self.renaming.image(name) {
            Some(other) => Image::Name(other),
            None => self.others.name(name),
        }
    }
}

/// What a functor gives where its argument's names are these type functions, with new names for those that it makes.
pub fn applied_result<M: Mapping>(
    alloc: Global,
    functor: &FunSig,
    realisation: &M,
    new: &mut NewNames,
) -> Result<Rc<Env>, Memory>
    ensures env { AreOrderedIn (env_of functor.now.result.env.value) → IfOk result (λ e. env_of e.value
        ≡ env_by O.bound O.free (λ n ts. or_by_name (new_for (map name_of functor.now.result.names.items) (made_like (maker_of new.old.unit) new.old.next (map name_of functor.now.result.names.items)) n) ts (M.name_gives realisation.now n ts)) (env_of functor.now.result.env.value)) }
    ensures carried { OnOk result ((n : Name) → carries new.new n ≡ carries_like (is_new new.old) (map name_of functor.now.result.names.items) (made_like (maker_of new.old.unit) new.old.next (map name_of functor.now.result.names.items)) (carries new.old) n) }
    ensures next { OnOk result (new.new.next ≡ number_after new.old.next (map name_of functor.now.result.names.items)) }
    ensures basis { new.new.basis ≡ new.old.basis }
    ensures unit { new.new.unit ≡ new.old.unit }
{
    let by = Both {
        renaming: Renaming::of(alloc, &functor.result.names, new)?,
        others: realisation,
    };
    mapped_env(alloc, &functor.result.env, &by)
}

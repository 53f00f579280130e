//! The names that a unit made in the order in which they appear, and bases whose names are numbered so.

ghost use Rattle.std.specs.Prelude.{◌≡◌, ◌+◌, ◌<◌, ◌≤◌, ◌^◌, ◌∷◌, [], ℕ, IfOk, OnOk, filter, length, map, true};
ghost use Rattle.sml_objects.specs.Appearance.{appear_type, appear_types, firsts_after, stands};
ghost use Rattle.sml_objects.specs.Canonical.{is_new, renumber};
ghost use Rattle.sml_objects.specs.Initial.{Name, naming};
ghost use Rattle.sml_objects.specs.Objects as O;
ghost use Rattle.sml_objects.specs.Objects.{types_of};
ghost use Rattle.sml_objects.specs.Views.{entries_of, maker_of, name_of, schemes_of, type_of};
ghost use Rattle.sml_core_rules.specs.Objects.{names_map, names_structures, rename_env, rename_fun_sig, rename_sig, replaced};
ghost use Rattle.sml_bases.specs.declared.objects.Basis.{out-Basis};
ghost use Rattle.sml_bases.specs.Layers.{bound_env, bound_functors, bound_signatures};
ghost use Rattle.sml_bases.specs.Views.{env_of, fun_sig_of, sig_of, structures_of, ty_str_of, value_of};
ghost use Rattle.sml_type_maps.specs.NewNames.{carried_of, carries};
ghost use Rattle.sml_envs.specs.Appearing.{appear_basis, appear_env, appear_fun_sig, appear_schemes, appear_sig, appear_ty_str, appear_value, new_in};
ghost use Rattle.sml_envs.specs.Mapped.{AreOrderedIn, AreOrderedInBasis, AreOrderedInFunctors, AreOrderedInFunSig, AreOrderedInSignatures};

use crate::extents::{room_for, room_for_bound};
use crate::mapping::{mapped_env, mapped_structures, mapped_types, mapped_values};
use indexmap::IndexSet;
use sml_bases::objects::{Basis, Carried, Constructors, Env, FunSig, Sig, TypeStr, Value};
use sml_lex::fault::Memory;
use sml_objects::objects::{MadeName, MlType, TyName, UnitId};
use sml_tree::bare::Ident;
use sml_type_maps::mapping::{Image, Mapping};
use sml_type_maps::new_names::NewNames;
use std::alloc::Global;
use std::collections::BTreeMap;
use std::rc::Rc;

/// The names that a unit made with this number or a higher one.
#[derive(Clone, Copy)]
struct Made {
    unit: UnitId,
    first: u32,
}

/// Whether it is one of those.
fn is_made(name: TyName, made: Made) -> bool
    ensures { result ≡ is_new (maker_of made.unit) made.first (name_of name) }
{
    match name {
        TyName::Initial(_) => false,
        TyName::Made(name) => name.unit == made.unit && made.first <= name.number,
    }
}

/// Adds a name, if it is one of those.
fn add_name(name: TyName, made: Made, seen: &mut IndexSet<TyName>) -> Result<(), Memory>
    ensures { OnOk result (map name_of seen.new.keys ≡ firsts_after naming (map name_of seen.old.keys) (filter (is_new (maker_of made.unit) made.first) (name_of name ∷ []))) }
{
    if is_made(name, made) {
        seen.insert(name)?;
    }
    Ok(())
}

#[cycle(types)]
fn add_type(ty: &MlType, made: Made, seen: &mut IndexSet<TyName>) -> Result<(), Memory>
    ensures { OnOk result (map name_of seen.new.keys ≡ firsts_after naming (map name_of seen.old.keys) (filter (is_new (maker_of made.unit) made.first) (appear_type (type_of ty.now)))) }
{
    match ty {
        MlType::Bound(_) => Ok(()),
        MlType::Free(_) => Ok(()),
        MlType::Row(_, parts) => add_types(parts, made, seen),
        MlType::Arrow(from, to) => {
            add_type(from, made, seen)?;
            add_type(to, made, seen)
        }
        MlType::Name(name, parts) => {
            add_types(parts, made, seen)?;
            add_name(*name, made, seen)
        }
    }
}

#[cycle(types)]
fn add_types(types: &[Rc<MlType>], made: Made, seen: &mut IndexSet<TyName>) -> Result<(), Memory>
    ensures { OnOk result (map name_of seen.new.keys ≡ firsts_after naming (map name_of seen.old.keys) (filter (is_new (maker_of made.unit) made.first) (appear_types (types_of (map (λ t. type_of t.value) types.now))))) }
{
    for ty in types {
        add_type(ty, made, seen)?;
    }
    Ok(())
}

fn add_schemes(
    schemes: &Constructors,
    made: Made,
    seen: &mut IndexSet<TyName>,
) -> Result<(), Memory>
    ensures { OnOk result (map name_of seen.new.keys ≡ firsts_after naming (map name_of seen.old.keys) (filter (is_new (maker_of made.unit) made.first) (appear_schemes (schemes_of schemes.now.entries)))) }
{
    for (_, scheme) in schemes {
        add_type(&scheme.body, made, seen)?;
    }
    Ok(())
}

fn add_type_str(ty: &TypeStr, made: Made, seen: &mut IndexSet<TyName>) -> Result<(), Memory>
    ensures { OnOk result (map name_of seen.new.keys ≡ firsts_after naming (map name_of seen.old.keys) (filter (is_new (maker_of made.unit) made.first) (appear_ty_str (ty_str_of ty.now)))) }
{
    add_type(&ty.function.body, made, seen)?;
    add_schemes(&ty.constructors, made, seen)
}

fn add_type_strs(
    types: &BTreeMap<Ident, TypeStr>,
    made: Made,
    seen: &mut IndexSet<TyName>,
) -> Result<(), Memory>
    ensures { OnOk result (map name_of seen.new.keys ≡ firsts_after naming (map name_of seen.old.keys) (filter (is_new (maker_of made.unit) made.first) (names_map appear_ty_str (entries_of ty_str_of types.now.entries)))) }
{
    for (_, ty) in types {
        add_type_str(ty, made, seen)?;
    }
    Ok(())
}

fn add_values(
    values: &BTreeMap<Ident, Value>,
    made: Made,
    seen: &mut IndexSet<TyName>,
) -> Result<(), Memory>
    ensures { OnOk result (map name_of seen.new.keys ≡ firsts_after naming (map name_of seen.old.keys) (filter (is_new (maker_of made.unit) made.first) (names_map appear_value (entries_of value_of values.now.entries)))) }
{
    for (_, value) in values {
        add_type(&value.scheme.body, made, seen)?;
    }
    Ok(())
}

/// Adds the names of an environment.
#[cycle(envs)]
fn add_env(env: &Env, made: Made, seen: &mut IndexSet<TyName>) -> Result<(), Memory>
    ensures { OnOk result (map name_of seen.new.keys ≡ firsts_after naming (map name_of seen.old.keys) (filter (is_new (maker_of made.unit) made.first) (appear_env (env_of env.now)))) }
{
    add_structures(&env.structures, made, seen)?;
    add_type_strs(&env.types, made, seen)?;
    add_values(&env.values, made, seen)
}

#[cycle(envs)]
fn add_structures(
    structures: &BTreeMap<Ident, Rc<Env>>,
    made: Made,
    seen: &mut IndexSet<TyName>,
) -> Result<(), Memory>
    ensures { OnOk result (map name_of seen.new.keys ≡ firsts_after naming (map name_of seen.old.keys) (filter (is_new (maker_of made.unit) made.first) (names_structures appear_ty_str appear_value (structures_of (entries_of (λ s. env_of s.value) structures.now.entries))))) }
{
    for (_, structure) in structures {
        add_env(structure, made, seen)?;
    }
    Ok(())
}

fn add_signatures(
    signatures: &BTreeMap<Ident, Rc<Sig>>,
    made: Made,
    seen: &mut IndexSet<TyName>,
) -> Result<(), Memory>
    ensures { OnOk result (map name_of seen.new.keys ≡ firsts_after naming (map name_of seen.old.keys) (filter (is_new (maker_of made.unit) made.first) (names_map appear_sig (entries_of (λ s. sig_of s.value) signatures.now.entries)))) }
{
    for (_, signature) in signatures {
        add_env(&signature.env, made, seen)?;
    }
    Ok(())
}

fn add_functors(
    functors: &BTreeMap<Ident, Rc<FunSig>>,
    made: Made,
    seen: &mut IndexSet<TyName>,
) -> Result<(), Memory>
    ensures { OnOk result (map name_of seen.new.keys ≡ firsts_after naming (map name_of seen.old.keys) (filter (is_new (maker_of made.unit) made.first) (names_map appear_fun_sig (entries_of (λ f. fun_sig_of f.value) functors.now.entries)))) }
{
    for (_, functor) in functors {
        add_env(&functor.argument.env, made, seen)?;
        add_env(&functor.result.env, made, seen)?;
    }
    Ok(())
}

fn add_basis(basis: &Basis, made: Made, seen: &mut IndexSet<TyName>) -> Result<(), Memory>
    ensures { OnOk result (map name_of seen.new.keys ≡ firsts_after naming (map name_of seen.old.keys) (filter (is_new (maker_of made.unit) made.first) (appear_basis (bound_env basis.now) (bound_signatures basis.now) (bound_functors basis.now)))) }
{
    add_env(&basis.env, made, seen)?;
    add_signatures(&basis.signatures, made, seen)?;
    add_functors(&basis.functors, made, seen)
}

/// The names that the unit made with this number or a higher one that stand in an environment, in the order of its lines.
pub fn names_from(alloc: Global, env: &Env, unit: UnitId, first: u32) -> Result<Vec<TyName>, Memory>
    ensures { IfOk result (λ ns. map name_of ns.items ≡ new_in (maker_of unit) first (appear_env (env_of env.now))) }
{
    let _ = room_for(alloc, env)?;
    let mut seen = IndexSet::new(alloc);
    add_env(env, Made { unit, first }, &mut seen)?;
    let mut names = Vec::new(alloc);
    for name in &seen {
        names.push(*name)?;
    }
    Ok(names)
}

/// Names that are numbered by their places, the first by the count.
#[derive(Clone, Copy)]
struct Numbering<'a> {
    alloc: Global,
    unit: UnitId,
    count: u32,
    names: &'a IndexSet<TyName>,
    ghost fits: { count + length names.now.keys ≤ 2 ^ 32 },
    ghost are_new: { (n : Name) → stands naming n (map name_of names.now.keys) ≡ true → is_new (maker_of unit) count n ≡ true },
}

impl Numbering<'_> {
    fn number(&self, name: TyName) -> TyName
        ensures { name_of result ≡ renumber (maker_of self.now.unit) self.now.count (map name_of self.now.names.now.keys) (name_of name) }
    {
        match name {
            TyName::Initial(_) => name,
            TyName::Made(made) => match self.names.get_index_of(&name) {
                Some(place) => TyName::Made(MadeName {
                    unit: self.unit,
                    number: self.count + place as u32,
                    ..made
                }),
                None => name,
            },
        }
    }

    fn names(&self, names: &[TyName]) -> Result<Vec<TyName>, Memory>
        ensures { IfOk result (λ ns. map name_of ns.items ≡ map (λ n. renumber (maker_of self.now.unit) self.now.count (map name_of self.now.names.now.keys) (name_of n)) names.now) }
    {
        let mut numbered = Vec::new(self.alloc);
        for name in names {
            numbered.push(self.number(*name))?;
        }
        Ok(numbered)
    }

    fn sig(&self, sig: &Sig) -> Result<Sig, Memory>
        ensures { AreOrderedIn (env_of sig.now.env.value) → IfOk result (λ s. sig_of s ≡ rename_sig (renumber (maker_of self.now.unit) self.now.count (map name_of self.now.names.now.keys)) (sig_of sig.now)) }
    {
        Ok(Sig {
            names: self.names(&sig.names)?,
            env: mapped_env(self.alloc, &sig.env, self)?,
        })
    }

    fn functor(&self, functor: &FunSig) -> Result<FunSig, Memory>
        ensures { AreOrderedInFunSig (fun_sig_of functor.now) → IfOk result (λ f. fun_sig_of f ≡ rename_fun_sig (renumber (maker_of self.now.unit) self.now.count (map name_of self.now.names.now.keys)) (fun_sig_of functor.now)) }
    {
        let argument = self.sig(&functor.argument)?;
        let result = self.sig(&functor.result)?;
        Ok(FunSig { argument, result })
    }

    fn signatures(
        &self,
        signatures: &BTreeMap<Ident, Rc<Sig>>,
    ) -> Result<BTreeMap<Ident, Rc<Sig>>, Memory>
        ensures { AreOrderedInSignatures (entries_of (λ s. sig_of s.value) signatures.now.entries) → IfOk result (λ m. entries_of (λ s. sig_of s.value) m.entries
            ≡ replaced (rename_sig (renumber (maker_of self.now.unit) self.now.count (map name_of self.now.names.now.keys))) (entries_of (λ s. sig_of s.value) signatures.now.entries)) }
    {
        let mut numbered = BTreeMap::new(self.alloc);
        for (name, signature) in signatures {
            let copy = Rc::new(self.alloc, self.sig(signature)?)?;
            numbered.insert(name.clone()?, copy)?;
        }
        Ok(numbered)
    }

    fn functors(
        &self,
        functors: &BTreeMap<Ident, Rc<FunSig>>,
    ) -> Result<BTreeMap<Ident, Rc<FunSig>>, Memory>
        ensures { AreOrderedInFunctors (entries_of (λ f. fun_sig_of f.value) functors.now.entries) → IfOk result (λ m. entries_of (λ f. fun_sig_of f.value) m.entries
            ≡ replaced (rename_fun_sig (renumber (maker_of self.now.unit) self.now.count (map name_of self.now.names.now.keys))) (entries_of (λ f. fun_sig_of f.value) functors.now.entries)) }
    {
        let mut numbered = BTreeMap::new(self.alloc);
        for (name, functor) in functors {
            let copy = Rc::new(self.alloc, self.functor(functor)?)?;
            numbered.insert(name.clone()?, copy)?;
        }
        Ok(numbered)
    }

    /// What the basis binds, over no other one.
    fn basis(&self, basis: Basis) -> Result<Basis, Memory>
        ensures env { AreOrderedInBasis basis → IfOk result (λ b. bound_env b ≡ rename_env (renumber (maker_of self.now.unit) self.now.count (map name_of self.now.names.now.keys)) (bound_env basis)) }
        ensures signatures { AreOrderedInBasis basis → IfOk result (λ b. bound_signatures b ≡ replaced (rename_sig (renumber (maker_of self.now.unit) self.now.count (map name_of self.now.names.now.keys))) (bound_signatures basis)) }
        ensures functors { AreOrderedInBasis basis → IfOk result (λ b. bound_functors b ≡ replaced (rename_fun_sig (renumber (maker_of self.now.unit) self.now.count (map name_of self.now.names.now.keys))) (bound_functors basis)) }
        ensures unit { IfOk result (λ b. (out-Basis b).unit ≡ (out-Basis basis).unit) }
        ensures names { IfOk result (λ b. (out-Basis b).names.items ≡ []) }
        ensures below { IfOk result (λ b. (out-Basis b).below.items ≡ []) }
    {
        let env = self.env(&basis.env)?;
        let signatures = self.signatures(&basis.signatures)?;
        let functors = self.functors(&basis.functors)?;
        Ok(Basis {
            unit: basis.unit,
            count: 0,
            names: Vec::new(self.alloc),
            below: Vec::new(self.alloc),
            env,
            signatures,
            functors,
        })
    }

    /// An environment that shares no map with this one.
    fn env(&self, env: &Env) -> Result<Env, Memory>
        ensures { AreOrderedIn (env_of env.now) → IfOk result (λ e. env_of e ≡ rename_env (renumber (maker_of self.now.unit) self.now.count (map name_of self.now.names.now.keys)) (env_of env.now)) }
    {
        let mut is_changed = false;
        let structures = mapped_structures(self.alloc, &env.structures, self, &mut is_changed)?;
        let types = mapped_types(self.alloc, &env.types, self)?;
        let values = mapped_values(self.alloc, &env.values, self)?;
        let mut own = Env::new(self.alloc);
        own.structures = structures;
        own.types = types;
        own.values = values;
        Ok(own)
    }
}

impl Mapping for Numbering<'_> {
    ghost bound_gives = { λ _ k. O.bound k };

    ghost free_gives = { λ _ v. O.free v };

    ghost name_gives = { λ s n ts. O.app (O.name (renumber (maker_of s.unit) s.count (map name_of s.names.now.keys) n)) ts };

    fn bound(&self, _alloc: Global, _variable: u32) -> Result<Option<Rc<MlType>>, Memory> {
        Ok(None)
    }

    fn free(&self, _alloc: Global, _variable: u32) -> Result<Option<Rc<MlType>>, Memory> {
        Ok(None)
    }

    fn name(&self, name: TyName) -> Image<'_> {
        let other = self.number(name);
        if other == name {
            Image::Same
        } else {
            Image::Name(other)
        }
    }
}

/// The basis with the unit's names that have this number or a higher one renumbered from it on, in the order in which
/// they appear in the lines of the reply, and with that many more names. What these carry is told by those that were made.
pub fn canonical(
    alloc: Global,
    basis: Basis,
    unit: UnitId,
    count: u32,
    made: &NewNames,
) -> Result<Basis, Memory>
    ensures env { AreOrderedInBasis basis → IfOk result (λ b. bound_env b ≡ rename_env (renumber (maker_of unit) count (new_in (maker_of unit) count (appear_basis (bound_env basis) (bound_signatures basis) (bound_functors basis)))) (bound_env basis)) }
    ensures signatures { AreOrderedInBasis basis → IfOk result (λ b. bound_signatures b ≡ replaced (rename_sig (renumber (maker_of unit) count (new_in (maker_of unit) count (appear_basis (bound_env basis) (bound_signatures basis) (bound_functors basis))))) (bound_signatures basis)) }
    ensures functors { AreOrderedInBasis basis → IfOk result (λ b. bound_functors b ≡ replaced (rename_fun_sig (renumber (maker_of unit) count (new_in (maker_of unit) count (appear_basis (bound_env basis) (bound_signatures basis) (bound_functors basis))))) (bound_functors basis)) }
    ensures unit { IfOk result (λ b. (out-Basis b).unit ≡ (out-Basis basis).unit) }
    ensures count { IfOk result (λ b. (out-Basis b).count ≡ count + length (new_in (maker_of unit) count (appear_basis (bound_env basis) (bound_signatures basis) (bound_functors basis)))) }
    ensures names { IfOk result (λ b. map carried_of (out-Basis b).names.items ≡ map (carries made.now) (new_in (maker_of unit) count (appear_basis (bound_env basis) (bound_signatures basis) (bound_functors basis)))) }
    ensures below { IfOk result (λ b. (out-Basis b).below.items ≡ []) }
{
    let _ = room_for_bound(alloc, &basis)?;
    let mut names = IndexSet::new(alloc);
    add_basis(&basis, Made { unit, first: count }, &mut names)?;
    let next = number_past(count, names.len())?;
    let carried = carried_by(alloc, &names, made)?;
    let by = Numbering {
        alloc,
        unit,
        count,
        names: &names,
    };
    let mut own = by.basis(basis)?;
    own.count = next;
    own.names = carried;
    Ok(own)
}

/// What names carry, in order.
fn carried_by(
    alloc: Global,
    names: &IndexSet<TyName>,
    made: &NewNames,
) -> Result<Vec<Carried>, Memory>
    ensures { IfOk result (λ cs. map carried_of cs.items ≡ map (λ n. carries made.now (name_of n)) names.now.keys) }
{
    let mut carried = Vec::new(alloc);
    for name in names {
        carried.push(made.carried(*name)?)?;
    }
    Ok(carried)
}

/// The number so many after another one. A number that no `u32` holds counts as want of memory.
fn number_past(first: u32, many: usize) -> Result<u32, Memory>
    ensures sum { IfOk result (λ n. n ≡ first + many) }
    ensures fits { IfOk result (λ n. n < 2 ^ 32) }
{
    match u32::try_from(many) {
        Ok(many) => match first.checked_add(many) {
            Some(next) => Ok(next),
            None => Err(Memory),
        },
        Err(_) => Err(Memory),
    }
}

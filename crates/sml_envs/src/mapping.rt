//! Environments with other types for the variables and the names in them. What doesn't change is shared. What is shared in an
//! environment becomes something of its own at each path.

ghost use Rattle.std.specs.Prelude.{◌≡◌, IfOk, None, OnOk, false};
ghost use Rattle.std.specs.Option.{option_map};
ghost use Rattle.sml_objects.specs.Views.{entries_of, schemes_of};
ghost use Rattle.sml_type_maps.specs.Orders.{AreOrdered, IsOrdered, schemes_by};
ghost use Rattle.sml_core_rules.specs.Objects.{replaced, replace_structures};
ghost use Rattle.sml_bases.specs.Views.{env_of, structures_of, ty_str_of, value_of};
ghost use Rattle.sml_envs.specs.Mapped.{AreOrderedIn, AreOrderedInAll, Each, HaveOrdered, IsOrderedValue, HasOrdered, changed_or, env_by, ty_str_by, value_by};

use crate::extents::room_for;
use sml_bases::objects::{Constructors, Env, TypeStr, Value};
use sml_lex::fault::Memory;
use sml_tree::bare::Ident;
use sml_type_maps::mapping::{
    Mapping, changed_function, changed_scheme, mapped_function, mapped_scheme,
};
use std::alloc::Global;
use std::collections::BTreeMap;
use std::rc::Rc;

/// The environment that an environment becomes, whose schemes have their variables in order.
pub fn mapped_env<M: Mapping>(alloc: Global, env: &Rc<Env>, by: &M) -> Result<Rc<Env>, Memory>
    ensures { AreOrderedIn (env_of env.now.value) → IfOk result (λ e. env_of e.value ≡ env_by (M.bound_gives by.now) (M.free_gives by.now) (M.name_gives by.now) (env_of env.now.value)) }
{
    let _ = room_for(alloc, env)?;
    match changed_env(alloc, env, by)? {
        Some(changed) => Ok(changed),
        None => Ok(env.clone()?),
    }
}

fn mapped_schemes<M: Mapping>(
    alloc: Global,
    schemes: &Constructors,
    by: &M,
) -> Result<Constructors, Memory>
    ensures { AreOrdered (schemes_of schemes.now.entries) → IfOk result (λ c. schemes_of c.entries ≡ schemes_by (M.bound_gives by.now) (M.free_gives by.now) (M.name_gives by.now) (schemes_of schemes.now.entries)) }
{
    let mut copies = BTreeMap::new(alloc);
    for (name, scheme) in schemes {
        copies.insert(name.clone()?, mapped_scheme(alloc, scheme, by)?)?;
    }
    Ok(copies)
}

fn changes_schemes<M: Mapping>(
    alloc: Global,
    schemes: &Constructors,
    by: &M,
) -> Result<bool, Memory>
    ensures { AreOrdered (schemes_of schemes.now.entries) → IfOk result (λ b. b ≡ false → schemes_by (M.bound_gives by.now) (M.free_gives by.now) (M.name_gives by.now) (schemes_of schemes.now.entries) ≡ schemes_of schemes.now.entries) }
{
    for (_, scheme) in schemes {
        if changed_scheme(alloc, scheme, by)?.is_some() {
            return Ok(true);
        }
    }
    Ok(false)
}

/// What the constructors of a datatype become.
pub fn mapped_constructors<M: Mapping>(
    alloc: Global,
    constructors: &Rc<Constructors>,
    by: &M,
) -> Result<Rc<Constructors>, Memory>
    ensures { AreOrdered (schemes_of constructors.now.value.entries) → IfOk result (λ c. schemes_of c.value.entries ≡ schemes_by (M.bound_gives by.now) (M.free_gives by.now) (M.name_gives by.now) (schemes_of constructors.now.value.entries)) }
{
    if changes_schemes(alloc, constructors, by)? {
        let copies = mapped_schemes(alloc, constructors, by)?;
        return Ok(Rc::new(alloc, copies)?);
    }
    Ok(constructors.clone()?)
}

fn changes_type_str<M: Mapping>(alloc: Global, ty: &TypeStr, by: &M) -> Result<bool, Memory>
    ensures { HasOrdered (ty_str_of ty.now) → IfOk result (λ b. b ≡ false → ty_str_by (M.bound_gives by.now) (M.free_gives by.now) (M.name_gives by.now) (ty_str_of ty.now) ≡ ty_str_of ty.now) }
{
    let is_changed = changed_function(alloc, &ty.function, by)?.is_some()
        || changes_schemes(alloc, &ty.constructors, by)?;
    Ok(is_changed)
}

fn types_change<M: Mapping>(
    alloc: Global,
    types: &BTreeMap<Ident, TypeStr>,
    by: &M,
) -> Result<bool, Memory>
    ensures { HaveOrdered (entries_of ty_str_of types.now.entries) → IfOk result (λ b. b ≡ false → replaced (ty_str_by (M.bound_gives by.now) (M.free_gives by.now) (M.name_gives by.now)) (entries_of ty_str_of types.now.entries) ≡ entries_of ty_str_of types.now.entries) }
{
    for (_, ty) in types {
        if changes_type_str(alloc, ty, by)? {
            return Ok(true);
        }
    }
    Ok(false)
}

fn values_change<M: Mapping>(
    alloc: Global,
    values: &BTreeMap<Ident, Value>,
    by: &M,
) -> Result<bool, Memory>
    ensures { Each IsOrderedValue (entries_of value_of values.now.entries) → IfOk result (λ b. b ≡ false → replaced (value_by (M.bound_gives by.now) (M.free_gives by.now) (M.name_gives by.now)) (entries_of value_of values.now.entries) ≡ entries_of value_of values.now.entries) }
{
    for (_, value) in values {
        if changed_scheme(alloc, &value.scheme, by)?.is_some() {
            return Ok(true);
        }
    }
    Ok(false)
}

fn mapped_type_str<M: Mapping>(alloc: Global, ty: &TypeStr, by: &M) -> Result<TypeStr, Memory>
    ensures { HasOrdered (ty_str_of ty.now) → IfOk result (λ t. ty_str_of t ≡ ty_str_by (M.bound_gives by.now) (M.free_gives by.now) (M.name_gives by.now) (ty_str_of ty.now)) }
{
    Ok(TypeStr {
        function: mapped_function(alloc, &ty.function, by)?,
        constructors: mapped_constructors(alloc, &ty.constructors, by)?,
    })
}

pub(crate) fn mapped_types<M: Mapping>(
    alloc: Global,
    types: &BTreeMap<Ident, TypeStr>,
    by: &M,
) -> Result<BTreeMap<Ident, TypeStr>, Memory>
    ensures { HaveOrdered (entries_of ty_str_of types.now.entries) → IfOk result (λ m. entries_of ty_str_of m.entries ≡ replaced (ty_str_by (M.bound_gives by.now) (M.free_gives by.now) (M.name_gives by.now)) (entries_of ty_str_of types.now.entries)) }
{
    let mut copies = BTreeMap::new(alloc);
    for (name, ty) in types {
        let copy = mapped_type_str(alloc, ty, by)?;
        copies.insert(name.clone()?, copy)?;
    }
    Ok(copies)
}

fn mapped_value<M: Mapping>(alloc: Global, value: &Value, by: &M) -> Result<Value, Memory>
    ensures { IsOrderedValue (value_of value.now) → IfOk result (λ v. value_of v ≡ value_by (M.bound_gives by.now) (M.free_gives by.now) (M.name_gives by.now) (value_of value.now)) }
{
    Ok(Value {
        status: value.status,
        scheme: mapped_scheme(alloc, &value.scheme, by)?,
    })
}

pub(crate) fn mapped_values<M: Mapping>(
    alloc: Global,
    values: &BTreeMap<Ident, Value>,
    by: &M,
) -> Result<BTreeMap<Ident, Value>, Memory>
    ensures { Each IsOrderedValue (entries_of value_of values.now.entries) → IfOk result (λ m. entries_of value_of m.entries ≡ replaced (value_by (M.bound_gives by.now) (M.free_gives by.now) (M.name_gives by.now)) (entries_of value_of values.now.entries)) }
{
    let mut copies = BTreeMap::new(alloc);
    for (name, value) in values {
        let copy = mapped_value(alloc, value, by)?;
        copies.insert(name.clone()?, copy)?;
    }
    Ok(copies)
}

/// What an environment becomes, or `None` where it stays.
#[cycle(envs)]
fn changed_env<M: Mapping>(alloc: Global, env: &Env, by: &M) -> Result<Option<Rc<Env>>, Memory>
    ensures { AreOrderedIn (env_of env.now) → IfOk result (λ o. changed_or (env_of env.now) (option_map (λ e. env_of e.value) o) ≡ env_by (M.bound_gives by.now) (M.free_gives by.now) (M.name_gives by.now) (env_of env.now)) }
{
    let mut is_changed = false;
    let structures = mapped_structures(alloc, &env.structures, by, &mut is_changed)?;
    if !is_changed
        && !types_change(alloc, &env.types, by)?
        && !values_change(alloc, &env.values, by)?
    {
        return Ok(None);
    }
    let types = mapped_types(alloc, &env.types, by)?;
    let values = mapped_values(alloc, &env.values, by)?;
    let mut copy = Env::new(alloc);
    copy.structures = structures;
    copy.types = types;
    copy.values = values;
    Ok(Some(copy.shared(alloc)?))
}

#[cycle(envs)]
pub(crate) fn mapped_structures<M: Mapping>(
    alloc: Global,
    structures: &BTreeMap<Ident, Rc<Env>>,
    by: &M,
    is_changed: &mut bool,
) -> Result<BTreeMap<Ident, Rc<Env>>, Memory>
    ensures becomes { AreOrderedInAll (structures_of (entries_of (λ s. env_of s.value) structures.now.entries)) → IfOk result (λ m. structures_of (entries_of (λ s. env_of s.value) m.entries)
        ≡ replace_structures (ty_str_by (M.bound_gives by.now) (M.free_gives by.now) (M.name_gives by.now)) (value_by (M.bound_gives by.now) (M.free_gives by.now) (M.name_gives by.now)) (structures_of (entries_of (λ s. env_of s.value) structures.now.entries))) }
    ensures stays { AreOrderedInAll (structures_of (entries_of (λ s. env_of s.value) structures.now.entries)) → OnOk result (is_changed.new ≡ false → (is_changed.old ≡ false)
        × (replace_structures (ty_str_by (M.bound_gives by.now) (M.free_gives by.now) (M.name_gives by.now)) (value_by (M.bound_gives by.now) (M.free_gives by.now) (M.name_gives by.now)) (structures_of (entries_of (λ s. env_of s.value) structures.now.entries)) ≡ structures_of (entries_of (λ s. env_of s.value) structures.now.entries))) }
{
    let mut copies = BTreeMap::new(alloc);
    for (name, structure) in structures {
        let changed = changed_env(alloc, structure, by)?;
        let copy = or_shared(changed, structure, is_changed)?;
        copies.insert(name.clone()?, copy)?;
    }
    Ok(copies)
}

/// The environment that is given, or else this one, shared.
fn or_shared(
    changed: Option<Rc<Env>>,
    env: &Rc<Env>,
    is_changed: &mut bool,
) -> Result<Rc<Env>, Memory>
    ensures becomes { IfOk result (λ e. env_of e.value ≡ changed_or (env_of env.now.value) (option_map (λ e. env_of e.value) changed)) }
    ensures stays { OnOk result (is_changed.new ≡ false → (is_changed.old ≡ false) × (option_map (λ e. env_of e.value) changed ≡ None)) }
{
    match changed {
        Some(changed) => {
            *is_changed = true;
            Ok(changed)
        }
        None => Ok(env.clone()?),
    }
}

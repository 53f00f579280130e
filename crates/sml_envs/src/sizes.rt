//! Environments in which something becomes larger than a scheme may be, which is asked before they are made.

ghost use Rattle.std.specs.Prelude.{◌≡◌, true, IfOk};
ghost use Rattle.sml_objects.specs.Views.{entries_of, schemes_of};
ghost use Rattle.sml_bases.specs.Entries.{some_entry};
ghost use Rattle.sml_bases.specs.Views.{env_of, structures_of, ty_str_of, value_of};
ghost use Rattle.sml_envs.specs.Large.{has_large, have_large, is_large, is_large_type, is_large_value};

use crate::extents::room_for;
use sml_bases::objects::{Constructors, Env, TypeStr, Value};
use sml_lex::fault::Memory;
use sml_tree::bare::Ident;
use sml_type_maps::mapping::Mapping;
use sml_type_maps::sizes::is_large_under;
use std::alloc::Global;
use std::collections::BTreeMap;
use std::rc::Rc;

/// Whether some scheme or type function of an environment becomes larger than a scheme may be. Nothing is made.
pub fn has_large_under<M: Mapping>(alloc: Global, env: &Env, by: &M) -> Result<bool, Memory>
    ensures { IfOk result (λ b. b ≡ has_large (M.bound_gives by.now) (M.free_gives by.now) (M.name_gives by.now) (env_of env.now)) }
{
    let _ = room_for(alloc, env)?;
    has_large(alloc, env, by)
}

#[cycle(envs)]
fn has_large<M: Mapping>(alloc: Global, env: &Env, by: &M) -> Result<bool, Memory>
    ensures { IfOk result (λ b. b ≡ has_large (M.bound_gives by.now) (M.free_gives by.now) (M.name_gives by.now) (env_of env.now)) }
{
    let is_large = have_large(alloc, &env.structures, by)?
        || types_are_large(alloc, &env.types, by)?
        || values_are_large(alloc, &env.values, by)?;
    Ok(is_large)
}

#[cycle(envs)]
fn have_large<M: Mapping>(
    alloc: Global,
    structures: &BTreeMap<Ident, Rc<Env>>,
    by: &M,
) -> Result<bool, Memory>
    ensures { IfOk result (λ b. b ≡ have_large (M.bound_gives by.now) (M.free_gives by.now) (M.name_gives by.now) (structures_of (entries_of (λ s. env_of s.value) structures.now.entries))) }
{
    for (_, structure) in structures {
        if has_large(alloc, structure, by)? {
            return Ok(true);
        }
    }
    Ok(false)
}

fn types_are_large<M: Mapping>(
    alloc: Global,
    types: &BTreeMap<Ident, TypeStr>,
    by: &M,
) -> Result<bool, Memory>
    ensures { IfOk result (λ b. b ≡ some_entry (is_large_type (M.bound_gives by.now) (M.free_gives by.now) (M.name_gives by.now)) (entries_of ty_str_of types.now.entries)) }
{
    for (_, ty) in types {
        if is_large_under(alloc, &ty.function, by)?
            || schemes_are_large(alloc, &ty.constructors, by)?
        {
            return Ok(true);
        }
    }
    Ok(false)
}

fn schemes_are_large<M: Mapping>(
    alloc: Global,
    schemes: &Constructors,
    by: &M,
) -> Result<bool, Memory>
    ensures { IfOk result (λ b. b ≡ some_entry (is_large (M.bound_gives by.now) (M.free_gives by.now) (M.name_gives by.now)) (schemes_of schemes.now.entries)) }
{
    for (_, scheme) in schemes {
        if is_large_under(alloc, scheme, by)? {
            return Ok(true);
        }
    }
    Ok(false)
}

fn values_are_large<M: Mapping>(
    alloc: Global,
    values: &BTreeMap<Ident, Value>,
    by: &M,
) -> Result<bool, Memory>
    ensures { IfOk result (λ b. b ≡ some_entry (is_large_value (M.bound_gives by.now) (M.free_gives by.now) (M.name_gives by.now)) (entries_of value_of values.now.entries)) }
{
    for (_, value) in values {
        if is_large_under(alloc, &value.scheme, by)? {
            return Ok(true);
        }
    }
    Ok(false)
}

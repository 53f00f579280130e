//! Exported types that were unknown where they were bound.

ghost use Rattle.std.specs.Prelude.{ℕ};
ghost use Rattle.sml_objects.specs.Objects as O;
ghost use Rattle.sml_type_maps.specs.Mapped.{known_at};

use indexmap::{IndexMap, IndexSet};
use sml_asks::asks::ask_fixed;
use sml_asks::outcomes::{Outcome, ask_outcome};
use sml_bases::objects::{Env, Value};
use sml_core::context::Context;
use sml_envs::extents::{MANY_LINES, room_for};
use sml_envs::mapping::mapped_env;
use sml_lex::fault::{Code, Memory, Place};
use sml_match::sizes::small_env_under;
use sml_objects::objects::{MlType, TyName};
use sml_tree::bare::Ident;
use sml_type_maps::mapping::{Image, Mapping};
use sml_type_maps::sizes::GREATEST_SIZE;
use sml_types::fault::{CoreFault, plain_fault};
use sml_types::rows::number_of;
use sml_types::variables::collect_free;
use std::alloc::Global;
use std::collections::BTreeMap;
use std::rc::Rc;

/// The types that unknowns turned out to be, and whether there are others that turned out to be types too large for a
/// scheme.
#[derive(Drop)]
pub(crate) struct Known {
    types: IndexMap<u32, Rc<MlType>>,
    has_large: bool,
}

impl Mapping for Known {
    ghost bound_gives = { λ _ k. O.bound k };

    ghost free_gives = { λ s v. known_at s.types.entries v };

    ghost name_gives = { λ _ n ts. O.app (O.name n) ts };

    fn bound(&self, _alloc: Global, _variable: u32) -> Result<Option<Rc<MlType>>, Memory> {
        Ok(None)
    }

    fn free(&self, _alloc: Global, variable: u32) -> Result<Option<Rc<MlType>>, Memory> {
        match self.types.get(&variable) {
            Some(ty) => Ok(Some(ty.clone()?)),
            None => Ok(None),
        }
    }

    fn name(&self, _name: TyName) -> Image<'_> {
        Image::Same
    }
}

/// What the unknowns of an environment turned out to be, if none is still unknown.
pub(crate) fn known_in(context: &mut Context, env: &Env) -> Result<Option<Known>, Memory> {
    if !context.is_open() {
        return Ok(Some(Known {
            types: IndexMap::new(context.alloc),
            has_large: false,
        }));
    }
    if is_first_left(context, env)? {
        return Ok(None);
    }
    let _ = room_for(context.alloc, env)?;
    let unknowns = unknowns_of(context.alloc, env)?;
    readings(context, &unknowns)
}

/// Whether an unknown of one structure is still unknown, where to look for all would take a long walk.
fn is_first_left(context: &mut Context, env: &Env) -> Result<bool, Memory> {
    if env.lines() < MANY_LINES {
        return Ok(false);
    }
    let mut first = IndexSet::new(context.alloc);
    collect_first(env, &mut first)?;
    Ok(readings(context, &first)?.is_none())
}

/// That no unknown is still unknown, or Q2.
pub(crate) fn require_known(known: &Option<Known>, place: Place) -> Result<(), CoreFault> {
    match known {
        Some(_) => Ok(()),
        None => Err(plain_fault(Code::Q2, place)),
    }
}

/// The environment with the types that its unknowns turned out to be, or Q2. A scheme that is too large with these is E7.
pub(crate) fn settled_by(
    alloc: Global,
    env: &Rc<Env>,
    known: &Option<Known>,
    place: Place,
) -> Result<Rc<Env>, CoreFault> {
    match known {
        Some(known) => with_types(alloc, env, known, place),
        None => Err(plain_fault(Code::Q2, place)),
    }
}

fn with_types(
    alloc: Global,
    env: &Rc<Env>,
    known: &Known,
    place: Place,
) -> Result<Rc<Env>, CoreFault> {
    if known.has_large {
        return Err(plain_fault(Code::E7, place));
    }
    if known.types.is_empty() {
        return Ok(env.clone()?);
    }
    small_env_under(alloc, place, env, known)?;
    Ok(mapped_env(alloc, env, known)?)
}

/// The unknowns in the types of an environment's values.
fn unknowns_of(alloc: Global, env: &Env) -> Result<IndexSet<u32>, Memory> {
    let mut unknowns = IndexSet::new(alloc);
    collect_env(env, &mut unknowns)?;
    Ok(unknowns)
}

fn readings(context: &mut Context, unknowns: &IndexSet<u32>) -> Result<Option<Known>, Memory> {
    let mut types = IndexMap::new(context.alloc);
    let mut large = Vec::new(context.alloc);
    let left = vec![in context.alloc; false; context.solver.unknowns()]?;
    for unknown in unknowns {
        match reading(context, *unknown, &left, GREATEST_SIZE)? {
            Outcome::Same(ty) => {
                types.insert(*unknown, ty)?;
            }
            Outcome::Large => large.push(*unknown)?,
            Outcome::Several => return Ok(None),
        }
    }
    let has_large = !large.is_empty();
    if has_large && !are_known(context, &large, &left)? {
        return Ok(None);
    }
    Ok(Some(Known { types, has_large }))
}

/// What an unknown turned out to be, by all that is asked of it. No unknown has one of the flags.
fn reading(
    context: &mut Context,
    unknown: u32,
    left: &[bool],
    limit: u32,
) -> Result<Outcome, Memory> {
    let ty = MlType::Free(unknown);
    match ask_outcome(context.alloc, &mut context.solver, &ty, left, limit) {
        Ok(outcome) => Ok(outcome),
        Err(_) => Err(Memory),
    }
}

/// Whether no unknown is left in the types that some unknowns turned out to be, which aren't made.
fn are_known(context: &mut Context, unknowns: &[u32], left: &[bool]) -> Result<bool, Memory> {
    let Ok(flags) = ask_fixed(&mut context.solver, 0, unknowns) else {
        return Err(Memory);
    };
    for (unknown, is_inside) in flags.iter().enumerate() {
        if *is_inside && is_left(context, number_of(unknown)?, left)? {
            return Ok(false);
        }
    }
    Ok(true)
}

/// Whether an unknown is left by all that is asked of it.
fn is_left(context: &mut Context, unknown: u32, left: &[bool]) -> Result<bool, Memory> {
    match reading(context, unknown, left, 1)? {
        Outcome::Several => Ok(true),
        _ => Ok(false),
    }
}

/// Adds the unknowns in the types of an environment's values.
#[cycle(collect)]
fn collect_env(env: &Env, unknowns: &mut IndexSet<u32>) -> Result<(), Memory> {
    if !env.has_unknown() {
        return Ok(());
    }
    for (_, structure) in &env.structures {
        collect_env(structure, unknowns)?;
    }
    collect_values(&env.values, unknowns)
}

fn collect_values(
    values: &BTreeMap<Ident, Value>,
    unknowns: &mut IndexSet<u32>,
) -> Result<(), Memory> {
    for (_, value) in values {
        collect_free(&value.scheme.body, unknowns)?;
    }
    Ok(())
}

/// Adds the unknowns of one structure's values that are met first, of all structures that have any.
#[cycle(first)]
fn collect_first(env: &Env, unknowns: &mut IndexSet<u32>) -> Result<(), Memory> {
    for (_, structure) in &env.structures {
        if structure.has_unknown() {
            return collect_first(structure, unknowns);
        }
    }
    collect_values(&env.values, unknowns)
}

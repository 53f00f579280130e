//! The names that a signature binds, and their constructors.

ghost use Rattle.std.specs.Prelude.{◌≡◌, map};
ghost use Rattle.std.specs.Option.{option_map};
ghost use Rattle.sml_objects.specs.Views as V;
ghost use Rattle.sml_objects.specs.Views.{scheme_of};
ghost use Rattle.sml_core_rules.specs.Functions.{name_of as named_by};
ghost use Rattle.sml_sigs.specs.Bound.{bound_as};

use indexmap::{IndexMap, IndexSet};
use sml_bases::objects::{Constructors, Env};
use sml_lex::fault::Memory;
use sml_objects::objects::{Scheme, TyName};
use sml_tree::bare::Ident;
use sml_type_maps::functions::name_of;
use std::alloc::Global;
use std::collections::BTreeMap;
use std::rc::Rc;

/// The constructors of names, for those that have some.
pub(crate) type Table = IndexMap<TyName, Rc<Constructors>>;

/// The bound name that a type function is.
pub(crate) fn bound_name(names: &IndexSet<TyName>, function: &Scheme) -> Option<TyName>
    ensures { option_map V.name_of result ≡ bound_as (map V.name_of names.now.keys) (named_by (scheme_of function.now)) }
{
    let name = name_of(function)?;
    if names.contains(&name) {
        Some(name)
    } else {
        None
    }
}

/// The constructors that an environment gives to bound names, each by the first entry that has some.
pub(crate) fn table_of(
    alloc: Global,
    names: &IndexSet<TyName>,
    env: &Env,
) -> Result<Table, Memory> {
    let mut table = IndexMap::new(alloc);
    collect(names, env, &mut table)?;
    Ok(table)
}

/// Adds the constructors that an environment gives to bound names that have none in the table.
#[cycle(collect)]
pub(crate) fn collect(
    names: &IndexSet<TyName>,
    env: &Env,
    table: &mut Table,
) -> Result<(), Memory> {
    collect_structures(names, &env.structures, table)?;
    for (_, ty) in &env.types {
        if !ty.constructors.is_empty() {
            if let Some(name) = bound_name(names, &ty.function) {
                if !table.contains_key(&name) {
                    table.insert(name, ty.constructors.clone()?)?;
                }
            }
        }
    }
    Ok(())
}

#[cycle(collect)]
fn collect_structures(
    names: &IndexSet<TyName>,
    structures: &BTreeMap<Ident, Rc<Env>>,
    table: &mut Table,
) -> Result<(), Memory> {
    for (_, structure) in structures {
        collect(names, structure, table)?;
    }
    Ok(())
}

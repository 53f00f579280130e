//! The names that stand in an object, in the order in which they appear.

ghost use Rattle.std.specs.Prelude.{◌≡◌, OnOk, map};
ghost use Rattle.sml_objects.specs.Appearance.{firsts_after, appear_type, appear_types, appear_map, appear_structures, appear_env, appear_sig};
ghost use Rattle.sml_objects.specs.Initial.{naming};
ghost use Rattle.sml_objects.specs.Signatures.{signature_of};
ghost use Rattle.sml_objects.specs.Objects.{types_of};
ghost use Rattle.sml_objects.specs.Views.{type_of, schemes_of, structures_of, entries_of, env_of, sig_of, name_of};

use crate::objects::{Basis, Env, MlType, Scheme, Sig, TyName};
use indexmap::IndexSet;
use sml_lex::fault::Memory;
use sml_tree::bare::Ident;
use std::collections::BTreeMap;
use std::rc::Rc;

/// Adds the names of a type.
#[cycle(collect)]
pub(crate) fn collect_type(ty: &MlType, seen: &mut IndexSet<TyName>) -> Result<(), Memory>
    ensures { OnOk result (map name_of seen.new.keys ≡ firsts_after naming (map name_of seen.old.keys) (appear_type (type_of ty.now))) }
{
    match ty {
        MlType::Bound(_) => Ok(()),
        MlType::Free(_) => Ok(()),
        MlType::Row(_, parts) => collect_types(parts, seen),
        MlType::Arrow(from, to) => {
            collect_type(from, seen)?;
            collect_type(to, seen)?;
            Ok(())
        }
        MlType::Name(name, parts) => {
            collect_types(parts, seen)?;
            seen.insert(*name)?;
            Ok(())
        }
    }
}

#[cycle(collect)]
fn collect_types(parts: &[Rc<MlType>], seen: &mut IndexSet<TyName>) -> Result<(), Memory>
    ensures { OnOk result (map name_of seen.new.keys ≡ firsts_after naming (map name_of seen.old.keys) (appear_types (types_of (map (λ t. type_of t.value) parts.now)))) }
{
    for part in parts {
        collect_type(part, seen)?;
    }
    Ok(())
}

fn collect_schemes(
    schemes: &BTreeMap<Ident, Rc<Scheme>>,
    seen: &mut IndexSet<TyName>,
) -> Result<(), Memory>
    ensures { OnOk result (map name_of seen.new.keys ≡ firsts_after naming (map name_of seen.old.keys) (appear_map (schemes_of schemes.now.entries))) }
{
    for (_, scheme) in schemes {
        collect_type(&scheme.body, seen)?;
    }
    Ok(())
}

/// Adds the names of an environment.
#[cycle(collect_env)]
pub(crate) fn collect_env(env: &Env, seen: &mut IndexSet<TyName>) -> Result<(), Memory>
    ensures { OnOk result (map name_of seen.new.keys ≡ firsts_after naming (map name_of seen.old.keys) (appear_env (env_of env.now))) }
{
    collect_structures(&env.structures, seen)?;
    collect_schemes(&env.types, seen)?;
    collect_schemes(&env.values, seen)?;
    Ok(())
}

#[cycle(collect_env)]
fn collect_structures(
    structures: &BTreeMap<Ident, Rc<Env>>,
    seen: &mut IndexSet<TyName>,
) -> Result<(), Memory>
    ensures { OnOk result (map name_of seen.new.keys ≡ firsts_after naming (map name_of seen.old.keys) (appear_structures (structures_of (entries_of (λ s. env_of s.value) structures.now.entries)))) }
{
    for (_, structure) in structures {
        collect_env(structure, seen)?;
    }
    Ok(())
}

/// Adds names.
fn collect_names(names: &[TyName], seen: &mut IndexSet<TyName>) -> Result<(), Memory>
    ensures { OnOk result (map name_of seen.new.keys ≡ firsts_after naming (map name_of seen.old.keys) (map name_of names.now)) }
{
    for name in names {
        seen.insert(*name)?;
    }
    Ok(())
}

/// Adds the names of a signature.
pub(crate) fn collect_signature(sig: &Sig, seen: &mut IndexSet<TyName>) -> Result<(), Memory>
    ensures { OnOk result (map name_of seen.new.keys ≡ firsts_after naming (map name_of seen.old.keys) (appear_sig (signature_of sig.now))) }
{
    collect_env(&sig.body, seen)?;
    collect_names(&sig.names, seen)?;
    Ok(())
}

/// Adds the names of a basis.
pub(crate) fn collect_basis(basis: &Basis, seen: &mut IndexSet<TyName>) -> Result<(), Memory>
    ensures { OnOk result (map name_of seen.new.keys ≡ firsts_after naming (map name_of seen.old.keys) (appear_sig (sig_of basis.now))) }
{
    collect_env(&basis.env, seen)?;
    collect_names(&basis.names, seen)?;
    Ok(())
}

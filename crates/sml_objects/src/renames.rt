//! Objects with other names.

ghost use Rattle.std.specs.Prelude.{◌≡◌, IfOk, map};
ghost use Rattle.sml_objects.specs.Initial.{Name};
ghost use Rattle.sml_objects.specs.Objects as O;
ghost use Rattle.sml_objects.specs.Signatures.{signature_of};
ghost use Rattle.sml_objects.specs.Views.{type_of, scheme_of, schemes_of, structures_of, entries_of, env_of, sig_of, name_of};

use crate::objects::{Basis, Env, MlType, Scheme, Sig, TyName};
use crate::replacements::{Replacement, replaced, shared};
use sml_lex::fault::Memory;
use sml_tree::bare::Ident;
use std::alloc::Global;
use std::collections::BTreeMap;
use std::rc::Rc;

/// What stands for each name.
pub(crate) trait NameMap {
    ghost gives: { Self → Name → Name };

    fn apply(&self, name: TyName) -> TyName
        ensures { name_of result ≡ gives self.now (name_of name) };
}

#[derive(Drop)]
struct Renamed<'a, M> {
    by: &'a M,
}

impl<M: NameMap> Replacement for Renamed<'_, M> {
    ghost bound_gives = { λ _ k. O.bound k };

    ghost free_gives = { λ _ v. O.free v };

    ghost name_gives = { λ s. M.gives s.by.now };

    fn bound(&self, alloc: Global, variable: u32) -> Result<Rc<MlType>, Memory> {
        shared(alloc, MlType::Bound(variable))
    }

    fn free(&self, alloc: Global, variable: u32) -> Result<Rc<MlType>, Memory> {
        shared(alloc, MlType::Free(variable))
    }

    fn name(&self, name: TyName) -> TyName {
        self.by.apply(name)
    }
}

pub(crate) fn renamed_type<M: NameMap + Drop>(
    alloc: Global,
    ty: &MlType,
    by: &M,
) -> Result<Rc<MlType>, Memory>
    ensures { IfOk result (λ t. type_of t.value ≡ O.rename_type (M.gives by.now) (type_of ty.now)) }
{
    replaced(alloc, ty, &Renamed { by })
}

pub(crate) fn renamed_scheme<M: NameMap + Drop>(
    alloc: Global,
    scheme: &Scheme,
    by: &M,
) -> Result<Scheme, Memory>
    ensures { IfOk result (λ s. scheme_of s ≡ O.rename_scheme (M.gives by.now) (scheme_of scheme.now)) }
{
    let variables = Vec::from_slice(alloc, scheme.variables.as_slice())?;
    let body = renamed_type(alloc, &scheme.body, by)?;
    Ok(Scheme { variables, body })
}

fn renamed_schemes<M: NameMap + Drop>(
    alloc: Global,
    schemes: &BTreeMap<Ident, Rc<Scheme>>,
    by: &M,
) -> Result<BTreeMap<Ident, Rc<Scheme>>, Memory>
    ensures { IfOk result (λ m. schemes_of m.entries ≡ O.rename_map (M.gives by.now) (schemes_of schemes.now.entries)) }
{
    let mut copies = BTreeMap::new(alloc);
    for (name, scheme) in schemes {
        let copy = renamed_scheme(alloc, scheme, by)?;
        copies.insert(name.clone()?, Rc::new(alloc, copy)?)?;
    }
    Ok(copies)
}

#[cycle(renamed)]
pub(crate) fn renamed_env<M: NameMap + Drop>(
    alloc: Global,
    env: &Env,
    by: &M,
) -> Result<Env, Memory>
    ensures { IfOk result (λ e. env_of e ≡ O.rename_env (M.gives by.now) (env_of env.now)) }
{
    let structures = renamed_structures(alloc, &env.structures, by)?;
    let types = renamed_schemes(alloc, &env.types, by)?;
    let values = renamed_schemes(alloc, &env.values, by)?;
    Ok(Env {
        structures,
        types,
        values,
    })
}

#[cycle(renamed)]
fn renamed_structures<M: NameMap + Drop>(
    alloc: Global,
    structures: &BTreeMap<Ident, Rc<Env>>,
    by: &M,
) -> Result<BTreeMap<Ident, Rc<Env>>, Memory>
    ensures { IfOk result (λ m. structures_of (entries_of (λ s. env_of s.value) m.entries) ≡ O.rename_structures (M.gives by.now) (structures_of (entries_of (λ s. env_of s.value) structures.now.entries))) }
{
    let mut copies = BTreeMap::new(alloc);
    for (name, structure) in structures {
        let copy = renamed_env(alloc, structure, by)?;
        copies.insert(name.clone()?, Rc::new(alloc, copy)?)?;
    }
    Ok(copies)
}

fn renamed_names<M: NameMap>(alloc: Global, names: &[TyName], by: &M) -> Result<Vec<TyName>, Memory>
    ensures { IfOk result (λ ns. map name_of ns.items ≡ map (λ n. M.gives by.now (name_of n)) names.now) }
{
    let mut copies = Vec::new(alloc);
    for name in names {
        copies.push(by.apply(*name))?;
    }
    Ok(copies)
}

pub(crate) fn renamed_signature<M: NameMap + Drop>(
    alloc: Global,
    sig: &Sig,
    by: &M,
) -> Result<Sig, Memory>
    ensures { IfOk result (λ s. signature_of s ≡ O.rename_sig (M.gives by.now) (signature_of sig.now)) }
{
    let names = renamed_names(alloc, &sig.names, by)?;
    let body = renamed_env(alloc, &sig.body, by)?;
    Ok(Sig { names, body })
}

pub(crate) fn renamed_basis<M: NameMap + Drop>(
    alloc: Global,
    basis: &Basis,
    by: &M,
) -> Result<Basis, Memory>
    ensures sig { IfOk result (λ b. sig_of b ≡ O.rename_sig (M.gives by.now) (sig_of basis.now)) }
    ensures unit { IfOk result (λ b. b.unit ≡ basis.now.unit) }
{
    let names = renamed_names(alloc, &basis.names, by)?;
    let env = renamed_env(alloc, &basis.env, by)?;
    Ok(Basis {
        unit: basis.unit,
        names,
        env,
    })
}

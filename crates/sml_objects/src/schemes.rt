//! Instances of schemes, and closing.

ghost use Rattle.std.specs.Prelude.{◌≡◌, ℕ, ◌+◌, IfOk, OnOk, map, false, []};
ghost use Rattle.sml_objects.specs.Initial.{Name};
ghost use Rattle.sml_objects.specs.Objects as O;
ghost use Rattle.sml_objects.specs.Types as T;
ghost use Rattle.sml_objects.specs.Objects.{types_of};
ghost use Rattle.sml_objects.specs.Views.{type_of, scheme_of, name_of};

use crate::objects::{MlType, Scheme, TyName};
use crate::replacements::{Replacement, replaced, shared};
use indexmap::IndexSet;
use sml_lex::fault::Memory;
use std::alloc::Global;
use std::rc::Rc;

/// The body of a scheme with free variables, numbered from the given one on, for its bound ones. A body without bound
/// variables is shared. A number that no `u32` holds counts as want of memory.
pub fn instantiate(alloc: Global, scheme: &Scheme, from: u32) -> Result<Rc<MlType>, Memory>
    ensures { IfOk result (λ t. type_of t.value ≡ T.instance_from from (scheme_of scheme.now).body) }
{
    if scheme.variables.is_empty() && !has_bound(&scheme.body) {
        return Ok(scheme.body.clone()?);
    }
    replaced(alloc, &scheme.body, &Instance { from })
}

#[cycle(has_bound)]
fn has_bound(ty: &MlType) -> bool
    ensures { result ≡ false → (k : ℕ) → T.instance_from k (type_of ty.now) ≡ type_of ty.now }
{
    match ty {
        MlType::Bound(_) => true,
        MlType::Free(_) => false,
        MlType::Row(_, parts) => have_bound(parts),
        MlType::Arrow(from, to) => has_bound(from) || has_bound(to),
        MlType::Name(_, parts) => have_bound(parts),
    }
}

#[cycle(has_bound)]
fn have_bound(parts: &[Rc<MlType>]) -> bool
    ensures { result ≡ false → (k : ℕ) → map (λ t. T.instance_from k (type_of t.value)) parts.now ≡ map (λ t. type_of t.value) parts.now }
{
    for part in parts {
        if has_bound(part) {
            return true;
        }
    }
    false
}

#[derive(Clone, Copy)]
struct Instance {
    from: u32,
}

impl Replacement for Instance {
    ghost bound_gives = { λ s j. O.free (s.from + j) };

    ghost free_gives = { λ _ v. O.free v };

    ghost name_gives = { λ _ n. n };

    fn bound(&self, alloc: Global, variable: u32) -> Result<Rc<MlType>, Memory> {
        match self.from.checked_add(variable) {
            Some(free) => shared(alloc, MlType::Free(free)),
            None => Err(Memory),
        }
    }

    fn free(&self, alloc: Global, variable: u32) -> Result<Rc<MlType>, Memory> {
        shared(alloc, MlType::Free(variable))
    }

    fn name(&self, name: TyName) -> TyName {
        name
    }
}

/// The scheme that binds every free variable of a type, numbered by first appearance. A type without free variables is
/// shared. A number that no `u32` holds counts as want of memory.
pub fn close(alloc: Global, ty: &Rc<MlType>) -> Result<Scheme, Memory>
    ensures { IfOk result (λ s. scheme_of s ≡ T.close (type_of ty.now.value)) }
{
    let mut places = IndexSet::new(alloc);
    collect_variables(ty, &mut places)?;
    closed(alloc, ty, &places)
}

fn closed(alloc: Global, ty: &Rc<MlType>, places: &IndexSet<u32>) -> Result<Scheme, Memory>
    requires { places.now.keys ≡ T.variables_after [] (type_of ty.now.value) }
    ensures { IfOk result (λ s. scheme_of s ≡ T.close (type_of ty.now.value)) }
{
    let mut variables = Vec::new(alloc);
    variables.resize(places.len(), false)?;
    if places.is_empty() {
        let body = ty.clone()?;
        return Ok(Scheme { variables, body });
    }
    let body = replaced(alloc, ty, &Closing { places })?;
    Ok(Scheme { variables, body })
}

#[cycle(variables)]
pub(crate) fn collect_variables(ty: &MlType, seen: &mut IndexSet<u32>) -> Result<(), Memory>
    ensures { OnOk result (seen.new.keys ≡ T.variables_after seen.old.keys (type_of ty.now)) }
{
    match ty {
        MlType::Bound(_) => Ok(()),
        MlType::Free(variable) => {
            seen.insert(*variable)?;
            Ok(())
        }
        MlType::Row(_, parts) => collect_all_variables(parts, seen),
        MlType::Arrow(from, to) => {
            collect_variables(from, seen)?;
            collect_variables(to, seen)?;
            Ok(())
        }
        MlType::Name(_, parts) => collect_all_variables(parts, seen),
    }
}

#[cycle(variables)]
fn collect_all_variables(parts: &[Rc<MlType>], seen: &mut IndexSet<u32>) -> Result<(), Memory>
    ensures { OnOk result (seen.new.keys ≡ T.variables_after_all seen.old.keys (types_of (map (λ t. type_of t.value) parts.now))) }
{
    for part in parts {
        collect_variables(part, seen)?;
    }
    Ok(())
}

#[derive(Clone, Copy)]
struct Closing<'a> {
    places: &'a IndexSet<u32>,
}

impl Replacement for Closing<'_> {
    ghost bound_gives = { λ _ k. O.bound k };

    ghost free_gives = { λ s v. O.bound (T.index_among v s.places.now.keys) };

    ghost name_gives = { λ _ n. n };

    fn bound(&self, alloc: Global, variable: u32) -> Result<Rc<MlType>, Memory> {
        shared(alloc, MlType::Bound(variable))
    }

    fn free(&self, alloc: Global, variable: u32) -> Result<Rc<MlType>, Memory> {
        let place = match self.places.get_index_of(&variable) {
            Some(place) => place,
            None => self.places.len(),
        };
        match u32::try_from(place) {
            Ok(place) => shared(alloc, MlType::Bound(place)),
            Err(_) => Err(Memory),
        }
    }

    fn name(&self, name: TyName) -> TyName {
        name
    }
}

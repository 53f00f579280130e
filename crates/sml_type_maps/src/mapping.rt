//! Objects with other types for their variables and their names. What doesn't change is shared, and so is what becomes of what
//! was shared. Who gives type functions for names asks first how large what becomes of an object is.

ghost use Rattle.std.specs.Prelude.{◌≡◌, ◌++◌, ◌∷◌, ℕ, List, [], IfOk, Some, false, map};
ghost use Rattle.sml_objects.specs.Initial.{Name};
ghost use Rattle.sml_objects.specs.Objects as O;
ghost use Rattle.sml_objects.specs.Objects.{types_of};
ghost use Rattle.sml_objects.specs.Fates.{type_or, seen_type};
ghost use Rattle.sml_objects.specs.Views.{type_of, name_of, scheme_of, schemes_of};
ghost use Rattle.sml_type_maps.specs.Orders.{AreOrdered, IsOrdered, scheme_by, schemes_by};
ghost use Rattle.sml_type_maps.specs.Mapped.{IsChanged, image_of, mapped, mapped_body, scheme_or, seen, seen_scheme, types_or};

use crate::order::in_order;
use sml_lex::fault::Memory;
use sml_objects::applications::apply;
use sml_objects::objects::{MlType, Scheme, TyName};
use std::alloc::Global;
use std::rc::Rc;

/// What a type name becomes: itself, another name, or a type function, which is applied to the arguments.
pub enum Image<'a> {
    Same,
    Name(TyName),
    Function(&'a Rc<Scheme>),
}

/// What variables and names become. `None` is that a variable stays.
pub trait Mapping {
    ghost bound_gives: { Self → ℕ → O.MlType Name };

    ghost free_gives: { Self → ℕ → O.MlType Name };

    ghost name_gives: { Self → Name → O.MlTypes Name → O.MlType Name };

    fn bound(&self, alloc: Global, variable: u32) -> Result<Option<Rc<MlType>>, Memory>
        ensures { IfOk result (λ o. IsChanged o (O.bound variable) (bound_gives self.now variable)) };

    fn free(&self, alloc: Global, variable: u32) -> Result<Option<Rc<MlType>>, Memory>
        ensures { IfOk result (λ o. IsChanged o (O.free variable) (free_gives self.now variable)) };

    fn name(&self, name: TyName) -> Image<'_>
        ensures { (ts : O.MlTypes Name) → image_of result (name_of name) ts ≡ name_gives self.now (name_of name) ts };
}

/// The type that a type becomes.
pub fn mapped_type<M: Mapping>(alloc: Global, ty: &Rc<MlType>, by: &M) -> Result<Rc<MlType>, Memory>
    ensures { IfOk result (λ t. type_of t.value ≡ mapped (M.bound_gives by.now) (M.free_gives by.now) (M.name_gives by.now) (type_of ty.now.value)) }
{
    match changed_type(alloc, ty, by)? {
        Some(changed) => Ok(changed),
        None => Ok(ty.clone()?),
    }
}

/// The type function that a type function becomes, with the same variables.
pub fn mapped_function<M: Mapping>(
    alloc: Global,
    scheme: &Rc<Scheme>,
    by: &M,
) -> Result<Rc<Scheme>, Memory>
    ensures { IfOk result (λ s. scheme_of s.value ≡ mapped_body (M.bound_gives by.now) (M.free_gives by.now) (M.name_gives by.now) (scheme_of scheme.now.value)) }
{
    match changed_function(alloc, scheme, by)? {
        Some(changed) => Ok(changed),
        None => Ok(scheme.clone()?),
    }
}

/// The scheme that a scheme becomes.
pub fn mapped_scheme<M: Mapping>(
    alloc: Global,
    scheme: &Rc<Scheme>,
    by: &M,
) -> Result<Rc<Scheme>, Memory>
    ensures { IsOrdered (scheme_of scheme.now.value) → IfOk result (λ s. scheme_of s.value ≡ scheme_by (M.bound_gives by.now) (M.free_gives by.now) (M.name_gives by.now) (scheme_of scheme.now.value)) }
{
    match changed_scheme(alloc, scheme, by)? {
        Some(changed) => Ok(changed),
        None => Ok(scheme.clone()?),
    }
}

/// What a type becomes, or `None` where it stays.
#[cycle(changed)]
fn changed_type<M: Mapping>(
    alloc: Global,
    ty: &MlType,
    by: &M,
) -> Result<Option<Rc<MlType>>, Memory>
    ensures { IfOk result (λ o. IsChanged o (type_of ty.now) (mapped (M.bound_gives by.now) (M.free_gives by.now) (M.name_gives by.now) (type_of ty.now))) }
{
    match ty {
        MlType::Bound(variable) => by.bound(alloc, *variable),
        MlType::Free(variable) => by.free(alloc, *variable),
        MlType::Row(labels, parts) => match changed_parts(alloc, parts, by)? {
            None => Ok(None),
            Some(parts) => boxed(alloc, MlType::Row(labels.clone()?, parts)),
        },
        MlType::Arrow(from, to) => {
            let new_from = changed_type(alloc, from, by)?;
            let new_to = changed_type(alloc, to, by)?;
            changed_arrow(alloc, from, to, new_from, new_to)
        }
        MlType::Name(name, parts) => {
            let changed = changed_parts(alloc, parts, by)?;
            changed_name(alloc, *name, parts, changed, by)
        }
    }
}

#[inline(never)]
fn changed_arrow(
    alloc: Global,
    from: &Rc<MlType>,
    to: &Rc<MlType>,
    new_from: Option<Rc<MlType>>,
    new_to: Option<Rc<MlType>>,
) -> Result<Option<Rc<MlType>>, Memory>
    ensures { IfOk result (λ o. IsChanged o (O.arrow_of (type_of from.now.value) (type_of to.now.value))
        (O.arrow_of (type_or (type_of from.now.value) (seen_type new_from)) (type_or (type_of to.now.value) (seen_type new_to)))) }
{
    if new_from.is_none() && new_to.is_none() {
        return Ok(None);
    }
    let from = or_shared(new_from, from)?;
    let to = or_shared(new_to, to)?;
    boxed(alloc, MlType::Arrow(from, to))
}

#[inline(never)]
fn changed_name<M: Mapping>(
    alloc: Global,
    name: TyName,
    parts: &[Rc<MlType>],
    changed: Option<Vec<Rc<MlType>>>,
    by: &M,
) -> Result<Option<Rc<MlType>>, Memory>
    ensures { IfOk result (λ o. IsChanged o (O.app (O.name (name_of name)) (types_of (seen parts.now)))
        (M.name_gives by.now (name_of name) (types_of (types_or (seen parts.now) changed)))) }
{
    match by.name(name) {
        Image::Same => match changed {
            None => Ok(None),
            Some(parts) => boxed(alloc, MlType::Name(name, parts)),
        },
        Image::Name(name) => {
            let parts = or_all_shared(alloc, changed, parts)?;
            boxed(alloc, MlType::Name(name, parts))
        }
        Image::Function(function) => match changed {
            None => Ok(Some(apply(alloc, function, parts)?)),
            Some(parts) => Ok(Some(apply(alloc, function, &parts)?)),
        },
    }
}

#[inline(never)]
fn boxed(alloc: Global, ty: MlType) -> Result<Option<Rc<MlType>>, Memory>
    ensures { IfOk result (λ o. seen_type o ≡ Some (type_of ty)) }
{
    Ok(Some(Rc::new(alloc, ty)?))
}

fn or_shared(changed: Option<Rc<MlType>>, ty: &Rc<MlType>) -> Result<Rc<MlType>, Memory>
    ensures { IfOk result (λ t. type_of t.value ≡ type_or (type_of ty.now.value) (seen_type changed)) }
{
    match changed {
        Some(changed) => Ok(changed),
        None => Ok(ty.clone()?),
    }
}

fn or_all_shared(
    alloc: Global,
    changed: Option<Vec<Rc<MlType>>>,
    types: &[Rc<MlType>],
) -> Result<Vec<Rc<MlType>>, Memory>
    ensures { IfOk result (λ ts. seen ts.items ≡ types_or (seen types.now) changed) }
{
    match changed {
        Some(changed) => Ok(changed),
        None => all_shared(alloc, types),
    }
}

/// The same types, shared.
pub fn all_shared(alloc: Global, types: &[Rc<MlType>]) -> Result<Vec<Rc<MlType>>, Memory>
    ensures { IfOk result (λ ts. seen ts.items ≡ seen types.now) }
{
    let mut shared = Vec::new(alloc);
    for ty in types {
        shared.push(ty.clone()?)?;
    }
    Ok(shared)
}

/// What types become, or `None` where all stay.
#[cycle(changed)]
#[inline(never)]
fn changed_parts<M: Mapping>(
    alloc: Global,
    parts: &[Rc<MlType>],
    by: &M,
) -> Result<Option<Vec<Rc<MlType>>>, Memory>
    ensures { IfOk result (λ o. types_or (seen parts.now) o ≡ map (λ t. mapped (M.bound_gives by.now) (M.free_gives by.now) (M.name_gives by.now) (type_of t.value)) parts.now) }
{
    let mut copies: Option<Vec<Rc<MlType>>> = None;
    for index in 0..parts.len() {
        let part = &parts[index];
        let changed = changed_type(alloc, part, by)?;
        copies = and_part(alloc, copies, changed, &parts[..index], part)?;
    }
    Ok(copies)
}

/// The parts before this one with it, where one of them changed.
#[inline(never)]
fn and_part(
    alloc: Global,
    copies: Option<Vec<Rc<MlType>>>,
    changed: Option<Rc<MlType>>,
    before: &[Rc<MlType>],
    part: &Rc<MlType>,
) -> Result<Option<Vec<Rc<MlType>>>, Memory>
    ensures { IfOk result (λ o. types_or (seen before.now ++ (type_of part.now.value ∷ [])) o
        ≡ types_or (seen before.now) copies ++ (type_or (type_of part.now.value) (seen_type changed) ∷ [])) }
{
    if copies.is_none() && changed.is_none() {
        return Ok(None);
    }
    let mut copies = or_all_shared(alloc, copies, before)?;
    copies.push(or_shared(changed, part)?)?;
    Ok(Some(copies))
}

/// The scheme that a scheme becomes, or `None` where it stays. A type function in the place of a name may change the order
/// in which variables appear, and drop some.
pub fn changed_scheme<M: Mapping>(
    alloc: Global,
    scheme: &Scheme,
    by: &M,
) -> Result<Option<Rc<Scheme>>, Memory>
    ensures { IsOrdered (scheme_of scheme.now) → IfOk result (λ o. scheme_or (scheme_of scheme.now) (seen_scheme o) ≡ scheme_by (M.bound_gives by.now) (M.free_gives by.now) (M.name_gives by.now) (scheme_of scheme.now)) }
{
    match changed_type(alloc, &scheme.body, by)? {
        None => Ok(None),
        Some(body) => {
            let scheme = in_order(alloc, scheme.variables.as_slice(), body)?;
            Ok(Some(Rc::new(alloc, scheme)?))
        }
    }
}

/// The type function that a type function becomes, or `None` where it stays.
pub fn changed_function<M: Mapping>(
    alloc: Global,
    scheme: &Scheme,
    by: &M,
) -> Result<Option<Rc<Scheme>>, Memory>
    ensures { IfOk result (λ o. scheme_or (scheme_of scheme.now) (seen_scheme o) ≡ mapped_body (M.bound_gives by.now) (M.free_gives by.now) (M.name_gives by.now) (scheme_of scheme.now)) }
{
    match changed_type(alloc, &scheme.body, by)? {
        None => Ok(None),
        Some(body) => {
            let variables = Vec::from_slice(alloc, scheme.variables.as_slice())?;
            Ok(Some(Rc::new(alloc, Scheme { variables, body })?))
        }
    }
}

//! Whether a type is an instance of a scheme (the Definition, section 4.5).

ghost use Rattle.std.specs.Prelude.{IfOk, map};
ghost use Rattle.sml_objects.specs.Objects.{bound, types_of};
ghost use Rattle.sml_objects.specs.Views.{type_of, scheme_of};
ghost use Rattle.sml_rules.specs.Rules.{IsOpen, IsInstance};
ghost use Rattle.sml_piece.specs.CodeMatched.{Decides, Fits, FitAll, found_in};

use indexmap::IndexMap;
use sml_lex::fault::Memory;
use sml_objects::comparisons::same_type;
use sml_objects::objects::{MlType, Scheme};
use std::alloc::Global;
use std::rc::Rc;

/// Whether the type, in which no variable is bound, is an instance of the scheme.
pub(crate) fn is_instance(alloc: Global, scheme: &Scheme, ty: &Rc<MlType>) -> Result<bool, Memory>
    ensures { IsOpen (type_of ty.now.value) → IfOk result (Decides (IsInstance (scheme_of scheme.now) (type_of ty.now.value))) }
{
    let mut found = IndexMap::new(alloc);
    fits(&mut found, &scheme.body, ty)
}

/// Whether the body becomes the type by the types found so far and more, which are found here.
#[cycle(fitting)]
fn fits(
    found: &mut IndexMap<u32, Rc<MlType>>,
    body: &MlType,
    ty: &Rc<MlType>,
) -> Result<bool, Memory>
    ensures { IfOk result (Fits (found_in found.old.entries) (found_in found.new.entries) (type_of body.now) (type_of ty.now.value)) }
{
    match (body, &**ty) {
        (MlType::Bound(variable), _) => fits_variable(found, *variable, ty),
        (MlType::Free(v), MlType::Free(w)) => Ok(v == w),
        (MlType::Row(labels, bodies), MlType::Row(other_labels, types)) => {
            if labels.are_same(other_labels) {
                return all_fit(found, bodies, types);
            }
            Ok(false)
        }
        (MlType::Arrow(from, to), MlType::Arrow(from_type, to_type)) => {
            if fits(found, from, from_type)? {
                return fits(found, to, to_type);
            }
            Ok(false)
        }
        (MlType::Name(name, bodies), MlType::Name(other, types)) => {
            if name == other {
                return all_fit(found, bodies, types);
            }
            Ok(false)
        }
        _ => Ok(false),
    }
}

fn fits_variable(
    found: &mut IndexMap<u32, Rc<MlType>>,
    variable: u32,
    ty: &Rc<MlType>,
) -> Result<bool, Memory>
    ensures { IfOk result (Fits (found_in found.old.entries) (found_in found.new.entries) (bound variable) (type_of ty.now.value)) }
{
    if let Some(before) = found.get(&variable) {
        return Ok(same_type(before, ty));
    }
    found.insert(variable, ty.clone()?)?;
    Ok(true)
}

#[cycle(fitting)]
fn all_fit(
    found: &mut IndexMap<u32, Rc<MlType>>,
    bodies: &[Rc<MlType>],
    types: &[Rc<MlType>],
) -> Result<bool, Memory>
    ensures { IfOk result (FitAll (found_in found.old.entries) (found_in found.new.entries) (types_of (map (λ t. type_of t.value) bodies.now)) (types_of (map (λ t. type_of t.value) types.now))) }
{
    if bodies.len() != types.len() {
        return Ok(false);
    }
    for index in 0..bodies.len() {
        if !fits(found, &bodies[index], &types[index])? {
            return Ok(false);
        }
    }
    Ok(true)
}

//! Type functions.

ghost use Rattle.std.specs.Prelude.{◌≡◌, false, true};
ghost use Rattle.std.specs.Option.{option_map};
ghost use Rattle.sml_core_rules.specs.Values.{has_unknown};
ghost use Rattle.sml_objects.specs.Equality.{admits_by, has_equality as with_equality, is_ref};
ghost use Rattle.sml_objects.specs.Initial.{naming};
ghost use Rattle.sml_objects.specs.Objects.{types_of};
ghost use Rattle.sml_objects.specs.Types.{instance_from};
ghost use Rattle.sml_objects.specs.Views as V;
ghost use Rattle.sml_objects.specs.Views.{scheme_of, type_of};
ghost use Rattle.sml_core_rules.specs.Functions.{are_parameters, name_of as named_by};
ghost use Rattle.sml_type_maps.specs.Functions.{admits_where, all_admit_where, arity_needed, arity_needed_all, by_attributes, by_given};
ghost use Rattle.sml_type_maps.specs.Mapped.{seen};

use sml_objects::equality::{has_equality, is_reference};
use sml_objects::objects::{MlType, Scheme, TyName};
use std::rc::Rc;

/// The name that a type function is, where it is a name applied to its variables in order.
pub fn name_of(function: &Scheme) -> Option<TyName>
    ensures { option_map V.name_of result ≡ named_by (scheme_of function.now) }
{
    match &*function.body {
        MlType::Name(name, parts) => {
            if parts.len() == function.variables.len() && are_variables(parts) {
                Some(*name)
            } else {
                None
            }
        }
        _ => None,
    }
}

fn are_variables(parts: &[Rc<MlType>]) -> bool
    ensures { result ≡ are_parameters 0 (types_of (seen parts.now)) }
{
    for index in 0..parts.len() {
        match &*parts[index] {
            MlType::Bound(variable) => {
                if *variable as usize != index {
                    return false;
                }
            }
            _ => return false,
        }
    }
    true
}

/// Whether a type function admits equality: whether its types do where its arguments do.
pub fn admits_equality(function: &Scheme) -> bool
    ensures given { result ≡ admits_where (λ _. true) (scheme_of function.now).body }
    ensures known { has_unknown (scheme_of function.now).body ≡ false
        → result ≡ admits_by (is_ref naming) (λ _. true) (with_equality naming) (instance_from 0 (scheme_of function.now).body) }
{
    admits(&function.body, None)
}

/// Whether a type admits equality where its bound variables do by these attributes.
pub fn admits_equality_under(ty: &MlType, attributes: &[bool]) -> bool
    ensures given { result ≡ admits_where (by_attributes attributes.now) (type_of ty.now) }
    ensures known { has_unknown (type_of ty.now) ≡ false
        → result ≡ admits_by (is_ref naming) (by_attributes attributes.now) (with_equality naming) (instance_from 0 (type_of ty.now)) }
{
    admits(ty, Some(attributes))
}

/// The same, where `None` is that all bound variables do.
#[cycle(admits)]
fn admits(ty: &MlType, attributes: Option<&[bool]>) -> bool
    ensures { result ≡ admits_where (by_given attributes.entry) (type_of ty.now) }
{
    match ty {
        MlType::Bound(variable) => match attributes {
            None => true,
            Some(attributes) => has_attribute(attributes, *variable),
        },
        MlType::Free(_) => false,
        MlType::Row(_, parts) => all_admit(parts, attributes),
        MlType::Arrow(_, _) => false,
        MlType::Name(name, parts) => {
            is_reference(*name) || (has_equality(*name) && all_admit(parts, attributes))
        }
    }
}

fn has_attribute(attributes: &[bool], variable: u32) -> bool
    ensures { result ≡ by_attributes attributes.now variable }
{
    match attributes.get(variable as usize) {
        Some(attribute) => *attribute,
        None => false,
    }
}

#[cycle(admits)]
fn all_admit(parts: &[Rc<MlType>], attributes: Option<&[bool]>) -> bool
    ensures { result ≡ all_admit_where (by_given attributes.entry) (types_of (seen parts.now)) }
{
    for part in parts {
        if !admits(part, attributes) {
            return false;
        }
    }
    true
}

/// The least number of variables that a type function with this body has.
#[cycle(arity)]
pub fn least_arity(body: &MlType) -> usize
    ensures { result ≡ arity_needed (type_of body.now) }
{
    match body {
        MlType::Bound(variable) => *variable as usize + 1,
        MlType::Free(_) => 0,
        MlType::Row(_, parts) | MlType::Name(_, parts) => greatest_arity(parts),
        MlType::Arrow(from, to) => least_arity(from).max(least_arity(to)),
    }
}

#[cycle(arity)]
fn greatest_arity(parts: &[Rc<MlType>]) -> usize
    ensures { result ≡ arity_needed_all (types_of (seen parts.now)) }
{
    let mut arity: usize = 0;
    for part in parts {
        arity = arity.max(least_arity(part));
    }
    arity
}

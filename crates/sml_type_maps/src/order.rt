//! The variables of schemes in the order of their first appearance.

ghost use Rattle.std.specs.Prelude.{◌≡◌, ℕ, IfOk, OnOk, Some, false, map, nat_eq, position, slice_index_or, true};
ghost use Rattle.sml_objects.specs.Objects as O;
ghost use Rattle.sml_objects.specs.Objects.{types_of};
ghost use Rattle.sml_objects.specs.Views.{scheme_of, type_of};
ghost use Rattle.sml_type_maps.specs.Mapped.{bound_at};
ghost use Rattle.sml_type_maps.specs.Orders.{all_bound_after, bound_after, ordered};

use crate::mapping::{Image, Mapping, mapped_type};
use indexmap::IndexSet;
use sml_lex::fault::Memory;
use sml_objects::objects::{MlType, Scheme, TyName};
use std::alloc::Global;
use std::rc::Rc;

/// Bound variables become those of their places in a set.
#[derive(Drop)]
struct Order<'a> {
    variables: &'a IndexSet<u32>,
}

impl Mapping for Order<'_> {
    ghost bound_gives = { λ s k. bound_at s.variables.now.keys k };

    ghost free_gives = { λ _ v. O.free v };

    ghost name_gives = { λ _ n ts. O.app (O.name n) ts };

    fn bound(&self, alloc: Global, variable: u32) -> Result<Option<Rc<MlType>>, Memory> {
        let Some(place) = self.variables.get_index_of(&variable) else {
            return Ok(None);
        };
        match u32::try_from(place) {
            Ok(place) => Ok(Some(Rc::new(alloc, MlType::Bound(place))?)),
            Err(_) => Err(Memory),
        }
    }

    fn free(&self, _alloc: Global, _variable: u32) -> Result<Option<Rc<MlType>>, Memory> {
        Ok(None)
    }

    fn name(&self, _name: TyName) -> Image<'_> {
        Image::Same
    }
}

/// The scheme of a type over these variables, by their equality attributes, where those that stand in it are numbered by
/// first appearance.
pub(crate) fn in_order(alloc: Global, equality: &[bool], body: Rc<MlType>) -> Result<Scheme, Memory>
    ensures { IfOk result (λ s. scheme_of s ≡ ordered equality.now (type_of body.value)) }
{
    let mut order = IndexSet::new(alloc);
    collect_bound(&body, &mut order)?;
    let variables = attributes_of(alloc, equality, &order)?;
    if order.len() == equality.len() && is_ascending(&order) {
        return Ok(Scheme { variables, body });
    }
    let body = mapped_type(alloc, &body, &Order { variables: &order })?;
    Ok(Scheme { variables, body })
}

/// The equality attributes of variables, in the order of a set.
pub fn attributes_of(
    alloc: Global,
    equality: &[bool],
    order: &IndexSet<u32>,
) -> Result<Vec<bool>, Memory>
    ensures { IfOk result (λ qs. qs.items ≡ map (λ k. slice_index_or equality.now k false) order.now.keys) }
{
    let mut attributes = Vec::new(alloc);
    for variable in order {
        attributes.push(match equality.get(*variable as usize) {
            Some(attribute) => *attribute,
            None => false,
        })?;
    }
    Ok(attributes)
}

/// Whether each variable stands at its own place.
fn is_ascending(order: &IndexSet<u32>) -> bool
    ensures { result ≡ true → (k i : ℕ) → position (nat_eq k) order.now.keys ≡ Some i → i ≡ k }
{
    for place in 0..order.len() {
        match order.get_index(place) {
            Some(variable) if *variable as usize == place => {}
            _ => return false,
        }
    }
    true
}

/// Adds the bound variables of a type, in the order in which they appear.
#[cycle(bound)]
fn collect_bound(ty: &MlType, seen: &mut IndexSet<u32>) -> Result<(), Memory>
    ensures { OnOk result (seen.new.keys ≡ bound_after seen.old.keys (type_of ty.now)) }
{
    match ty {
        MlType::Bound(variable) => {
            seen.insert(*variable)?;
            Ok(())
        }
        MlType::Free(_) => Ok(()),
        MlType::Row(_, parts) => collect_all_bound(parts, seen),
        MlType::Arrow(from, to) => {
            collect_bound(from, seen)?;
            collect_bound(to, seen)
        }
        MlType::Name(_, parts) => collect_all_bound(parts, seen),
    }
}

#[cycle(bound)]
fn collect_all_bound(parts: &[Rc<MlType>], seen: &mut IndexSet<u32>) -> Result<(), Memory>
    ensures { OnOk result (seen.new.keys ≡ all_bound_after seen.old.keys (types_of (map (λ t. type_of t.value) parts.now))) }
{
    for part in parts {
        collect_bound(part, seen)?;
    }
    Ok(())
}

//! What type variables stand for.

ghost use Rattle.std.specs.Prelude.{◌≡◌, ◌++◌, ◌∷◌, [], List, IfOk, None, OnOk, map};
ghost use Rattle.sml_objects.specs.Initial as I;
ghost use Rattle.sml_objects.specs.Maps.{Map, lookup};
ghost use Rattle.sml_objects.specs.Objects as O;
ghost use Rattle.sml_objects.specs.Objects.{types_of};
ghost use Rattle.sml_type_maps.specs.Mapped.{closed_at};
ghost use Rattle.sml_objects.specs.Types.{variables_after, variables_after_all};
ghost use Rattle.sml_objects.specs.Views.{scheme_of, type_of};
ghost use Rattle.sml_core_rules.specs.Datatypes.{constructor_scheme, is_equality, listed};
ghost use Rattle.sml_core_rules.specs.Types.{variable_type};
ghost use Rattle.sml_tree.specs.Trees.{Id};
ghost use Rattle.sml_tree.specs.TypeViews.{names_of};
ghost use Rattle.sml_tree.specs.Views.{ident_of};
ghost use Rattle.sml_types.specs.Answered.{IsAnswer};
ghost use Rattle.sml_types.specs.Reads.{IfAnswered};
ghost use Rattle.sml_types.specs.Variables.{AreCollected, AreListed, collected, place_from, place_in};

use crate::fault::{CoreFault, plain_fault};
use crate::rows::{boxed, number_of};
use indexmap::{IndexMap, IndexSet};
use sml_lex::fault::{Code, Memory, Place};
use sml_objects::objects::{MlType, Scheme, TyName};
use sml_tree::bare::Ident;
use sml_tree::names::Name;
use sml_type_maps::mapping::{Image, Mapping, mapped_type};
use sml_type_maps::order::attributes_of;
use std::alloc::Global;
use std::rc::Rc;

/// What the type variables of a type expression stand for.
pub trait TypeVariables {
    // What may be said of the types that stand for variables, by those that were asked for.
    ghost says: { Self → Map (O.MlType I.Name) → Type 0 };

    // What may be said of them for good.
    ghost stays: { Self → Map (O.MlType I.Name) → Type 0 };

    // What is kept of the variables that were asked for, in their order, where these types stand for variables.
    ghost notes: { Self → Map (O.MlType I.Name) → List Id → Type 0 };

    /// The type that a variable stands for, or E8 where it stands for none. What may be said of variables then could be said
    /// before.
    fn variable(
        &mut self,
        alloc: Global,
        place: Place,
        name: &Ident,
    ) -> Result<Rc<MlType>, CoreFault>
        ensures answer { (vs : Map (O.MlType I.Name)) → says self.new vs → IsAnswer (λ t. type_of t.value) result (variable_type place (lookup (ident_of name.now) vs)) }
        ensures kept { (vs : Map (O.MlType I.Name)) → says self.new vs → says self.old vs }
        ensures stays { (vs : Map (O.MlType I.Name)) → stays self.old vs → stays self.new vs }
        ensures noted { (vs : Map (O.MlType I.Name)) (xs : List Id) → notes self.old vs xs → IfAnswered result (notes self.new vs (xs ++ ident_of name.now ∷ [])) };
}

/// Whether a type variable is one of equality types: it begins with two primes (the Definition, section 2.4).
pub fn is_equality_variable(name: &Ident) -> bool
    ensures { result ≡ is_equality (ident_of name.now) }
{
    match name.as_slice() {
        [b'\'', b'\'', ..] => true,
        _ => false,
    }
}

/// The variables of a list stand for bound or for free ones, by their places in it; others are out of scope.
#[derive(Drop)]
pub struct Listed {
    places: IndexMap<Ident, u32>,
    are_bound: bool,
}

impl Listed {
    /// Bound variables, as in a type function.
    pub fn bound(alloc: Global, names: &[Name]) -> Result<Listed, Memory>
        ensures { IfOk result (λ l. AreListed l (listed O.bound 0 (names_of names.now))) }
    {
        let places = places_of(alloc, names)?;
        Ok(Listed {
            places,
            are_bound: true,
        })
    }

    /// Free variables.
    pub fn free(alloc: Global, names: &[Name]) -> Result<Listed, Memory>
        ensures { IfOk result (λ l. AreListed l (listed O.free 0 (names_of names.now))) }
    {
        let places = places_of(alloc, names)?;
        Ok(Listed {
            places,
            are_bound: false,
        })
    }

    /// The type that a variable stands for, or E8 where it stands for none.
    pub(crate) fn at(
        &self,
        alloc: Global,
        place: Place,
        name: &Ident,
    ) -> Result<Rc<MlType>, CoreFault>
        ensures { (vs : Map (O.MlType I.Name)) → AreListed self.now vs → IsAnswer (λ t. type_of t.value) result (variable_type place (lookup (ident_of name.now) vs)) }
    {
        match self.places.get(name) {
            Some(index) => {
                if self.are_bound {
                    Ok(boxed(alloc, MlType::Bound(*index))?)
                } else {
                    Ok(boxed(alloc, MlType::Free(*index))?)
                }
            }
            None => Err(plain_fault(Code::E8, place)),
        }
    }
}

/// The place of each name, the first where it stands twice.
fn places_of(alloc: Global, names: &[Name]) -> Result<IndexMap<Ident, u32>, Memory>
    ensures { IfOk result (λ m. (x : Id) → place_in m.entries x ≡ place_from x 0 (names_of names.now)) }
{
    let mut places = IndexMap::new(alloc);
    for (index, name) in names.iter().enumerate() {
        if !places.contains_key(&name.ident) {
            places.insert(name.ident.clone()?, number_of(index)?)?;
        }
    }
    Ok(places)
}

impl TypeVariables for Listed {
    ghost says = { λ l vs. AreListed l vs };

    ghost stays = { λ l vs. AreListed l vs };

    ghost notes = { λ _ _ _. Unit {0} };

    fn variable(
        &mut self,
        alloc: Global,
        place: Place,
        name: &Ident,
    ) -> Result<Rc<MlType>, CoreFault> {
        self.at(alloc, place, name)
    }
}

/// Every variable is taken, and stands for the free variable of its number by first appearance.
#[derive(Drop)]
pub struct Collected {
    names: IndexSet<Ident>,
}

impl Collected {
    /// None was taken yet.
    pub fn new(alloc: Global) -> Collected
        ensures { collected result ≡ [] }
    {
        Collected {
            names: IndexSet::new(alloc),
        }
    }

    /// The scheme of a type that binds these variables, numbered by first appearance in it.
    pub fn close(&self, alloc: Global, ty: &Rc<MlType>) -> Result<Scheme, Memory>
        ensures { IfOk result (λ s. scheme_of s ≡ constructor_scheme (map is_equality (collected self.now)) (type_of ty.now.value)) }
    {
        let mut equality = Vec::new(alloc);
        for name in &self.names {
            equality.push(is_equality_variable(name))?;
        }
        closed(alloc, ty, &equality)
    }
}

impl TypeVariables for Collected {
    ghost says = { λ c vs. AreCollected c vs };

    ghost stays = { λ _ _. Unit {0} };

    ghost notes = { λ _ _ _. Unit {0} };

    fn variable(
        &mut self,
        alloc: Global,
        _place: Place,
        name: &Ident,
    ) -> Result<Rc<MlType>, CoreFault> {
        let (index, _) = self.names.insert_full(name.clone()?)?;
        Ok(boxed(alloc, MlType::Free(number_of(index)?))?)
    }
}

/// No variable is in scope.
#[derive(Clone, Copy)]
pub struct NoVariables;

impl TypeVariables for NoVariables {
    ghost says = { λ _ vs. (x : Id) → lookup x vs ≡ None };

    ghost stays = { λ _ vs. (x : Id) → lookup x vs ≡ None };

    ghost notes = { λ _ _ _. Unit {0} };

    fn variable(
        &mut self,
        _alloc: Global,
        place: Place,
        _name: &Ident,
    ) -> Result<Rc<MlType>, CoreFault> {
        Err(plain_fault(Code::E8, place))
    }
}

/// Free variables become bound ones, by their places in a set.
#[derive(Drop)]
struct Closing<'a> {
    order: &'a IndexSet<u32>,
}

impl Mapping for Closing<'_> {
    ghost bound_gives = { λ _ k. O.bound k };

    ghost free_gives = { λ s v. closed_at s.order.now.keys v };

    ghost name_gives = { λ _ n ts. O.app (O.name n) ts };

    fn bound(&self, _alloc: Global, _variable: u32) -> Result<Option<Rc<MlType>>, Memory> {
        Ok(None)
    }

    fn free(&self, alloc: Global, variable: u32) -> Result<Option<Rc<MlType>>, Memory> {
        let Some(index) = self.order.get_index_of(&variable) else {
            return Ok(None);
        };
        Ok(Some(boxed(alloc, MlType::Bound(number_of(index)?))?))
    }

    fn name(&self, _name: TyName) -> Image<'_> {
        Image::Same
    }
}

/// The scheme that binds the free variables of a type, numbered by first appearance; the flags tell by number which are
/// equality variables.
pub fn closed(alloc: Global, ty: &Rc<MlType>, equality: &[bool]) -> Result<Scheme, Memory>
    ensures { IfOk result (λ s. scheme_of s ≡ constructor_scheme equality.now (type_of ty.now.value)) }
{
    let mut order = IndexSet::new(alloc);
    collect_free(ty, &mut order)?;
    let variables = attributes_of(alloc, equality, &order)?;
    let body = mapped_type(alloc, ty, &Closing { order: &order })?;
    Ok(Scheme { variables, body })
}

/// Adds the free variables of a type, in the order in which they appear.
#[cycle(free)]
pub fn collect_free(ty: &MlType, seen: &mut IndexSet<u32>) -> Result<(), Memory>
    ensures { OnOk result (seen.new.keys ≡ variables_after seen.old.keys (type_of ty.now)) }
{
    match ty {
        MlType::Bound(_) => Ok(()),
        MlType::Free(variable) => {
            seen.insert(*variable)?;
            Ok(())
        }
        MlType::Row(_, parts) => collect_all_free(parts, seen),
        MlType::Arrow(from, to) => {
            collect_free(from, seen)?;
            collect_free(to, seen)
        }
        MlType::Name(_, parts) => collect_all_free(parts, seen),
    }
}

#[cycle(free)]
fn collect_all_free(parts: &[Rc<MlType>], seen: &mut IndexSet<u32>) -> Result<(), Memory>
    ensures { OnOk result (seen.new.keys ≡ variables_after_all seen.old.keys (types_of (map (λ t. type_of t.value) parts.now))) }
{
    for part in parts {
        collect_free(part, seen)?;
    }
    Ok(())
}

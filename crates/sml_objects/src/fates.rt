//! Closing where some variables stay free.

ghost use Rattle.std.specs.Prelude.{◌≡◌, ℕ, [], map, IfOk};
ghost use Rattle.sml_objects.specs.Fates as F;
ghost use Rattle.sml_objects.specs.Initial.{Name, initial};
ghost use Rattle.sml_objects.specs.Names.{int};
ghost use Rattle.sml_objects.specs.Objects as O;
ghost use Rattle.sml_objects.specs.Sizes.{type_size};
ghost use Rattle.sml_objects.specs.Types as T;
ghost use Rattle.sml_objects.specs.Views.{type_of, scheme_of};

use crate::objects::{Initial, MlType, Scheme, TyName};
use crate::replacements::{Replacement, replaced, shared};
use crate::schemes::collect_variables;
use indexmap::IndexSet;
use sml_lex::fault::Memory;
use std::alloc::Global;
use std::rc::Rc;

/// What becomes of a free variable of a type that is closed.
#[derive(Clone, Copy)]
pub enum Fate {
    /// It is bound, with this equality attribute.
    Bind(bool),
    /// It stays.
    Keep,
    /// It becomes `int`, the default of overloaded types.
    Default,
}

/// The free variables of a type, in the order of their first appearance.
pub fn free_variables(alloc: Global, ty: &MlType) -> Result<IndexSet<u32>, Memory>
    ensures { IfOk result (λ places. places.keys ≡ T.variables_after [] (type_of ty.now)) }
{
    let mut places = IndexSet::new(alloc);
    collect_variables(ty, &mut places)?;
    Ok(places)
}

/// The scheme of a type whose free variables have these fates. A number that no `u32` holds counts as want of memory.
pub fn close_as(
    alloc: Global,
    ty: &MlType,
    places: &IndexSet<u32>,
    fates: &[Fate],
) -> Result<Scheme, Memory>
    requires { places.now.keys ≡ T.variables_after [] (type_of ty.now) }
    ensures scheme { IfOk result (λ s. scheme_of s ≡ F.close_as (O.named (initial int)) fates.now (type_of ty.now)) }
    ensures size { IfOk result (λ s. type_size (scheme_of s).body ≡ type_size (type_of ty.now)) }
{
    let mut variables = Vec::new(alloc);
    let mut types = Vec::new(alloc);
    for fate in fates {
        match *fate {
            Fate::Bind(equality) => {
                types.push(Some(next_bound(alloc, variables.len())?))?;
                variables.push(equality)?;
            }
            Fate::Keep => types.push(None)?,
            Fate::Default => types.push(Some(default_type(alloc)?))?,
        }
    }
    let types = types.as_slice();
    let body = replaced(alloc, ty, &Substitution { places, types })?;
    Ok(Scheme { variables, body })
}

/// The bound variable of a number.
fn next_bound(alloc: Global, number: usize) -> Result<Rc<MlType>, Memory>
    ensures { IfOk result (λ t. type_of t.value ≡ O.bound number) }
{
    match u32::try_from(number) {
        Ok(number) => shared(alloc, MlType::Bound(number)),
        Err(_) => Err(Memory),
    }
}

fn default_type(alloc: Global) -> Result<Rc<MlType>, Memory>
    ensures { IfOk result (λ t. type_of t.value ≡ O.named (initial int)) }
{
    let int = TyName::Initial(Initial::Int);
    shared(alloc, MlType::Name(int, Vec::new(alloc)))
}

#[derive(Clone, Copy)]
struct Substitution<'a> {
    places: &'a IndexSet<u32>,
    types: &'a [Option<Rc<MlType>>],
}

impl Replacement for Substitution<'_> {
    ghost bound_gives = { λ _ k. O.bound k };

    ghost free_gives = { λ s v. F.standing_for s.places.now.keys (map F.seen_type s.types.now) v };

    ghost name_gives = { λ _ n. n };

    fn bound(&self, alloc: Global, variable: u32) -> Result<Rc<MlType>, Memory> {
        shared(alloc, MlType::Bound(variable))
    }

    fn free(&self, alloc: Global, variable: u32) -> Result<Rc<MlType>, Memory> {
        let place = match self.places.get_index_of(&variable) {
            Some(place) => place,
            None => self.places.len(),
        };
        if place < self.types.len() {
            match &self.types[place] {
                Some(ty) => Ok(ty.clone()?),
                None => shared(alloc, MlType::Free(variable)),
            }
        } else {
            shared(alloc, MlType::Free(variable))
        }
    }

    fn name(&self, name: TyName) -> TyName {
        name
    }
}

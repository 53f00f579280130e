//! The places that units have in another project file.

ghost use Rattle.std.specs.Prelude.{◌≡◌, ℕ, None, slice_index_or};
ghost use Rattle.sml_objects.specs.Objects as O;
ghost use Rattle.sml_objects.specs.Views.{name_of};
ghost use Rattle.sml_exports.specs.Moved.{moved_name};

use indexmap::{IndexMap, IndexSet};
use sml_bases::objects::Carried;
use sml_lex::fault::Memory;
use sml_objects::objects::{MadeName, MlType, TyName, UnitId};
use sml_type_maps::mapping::{Image, Mapping};
use std::alloc::Global;
use std::rc::Rc;

/// For each place in the one project file the place of the unit of that name in the other, and for each of these the
/// numbers of the names that carry other constructors there.
#[derive(Drop)]
pub struct Moves {
    places: Vec<Option<UnitId>>,
    changes: bool,
    others: IndexMap<u32, IndexSet<u32>>,
}

impl Moves {
    /// Those of a project file of so many units, none of which stands in the other.
    pub fn new(alloc: Global, count: usize) -> Result<Moves, Memory> {
        Ok(Moves {
            places: vec![in alloc; None; count]?,
            changes: false,
            others: IndexMap::new(alloc),
        })
    }

    /// Notes the place of a unit in the other project file.
    pub fn put(&mut self, unit: UnitId, place: UnitId) {
        if let Some(slot) = self.places.get_mut(unit.index as usize) {
            *slot = Some(place);
        }
        if unit != place {
            self.changes = true;
        }
    }

    /// Notes which names of a unit, at this place in the other project file, carry other constructors than they did.
    pub fn note(
        &mut self,
        alloc: Global,
        unit: UnitId,
        ones: &[Carried],
        others: &[Carried],
    ) -> Result<(), Memory> {
        let mut numbers = IndexSet::new(alloc);
        for (number, (one, other)) in ones.iter().zip(others).enumerate() {
            if !carry_same(one, other) {
                if let Ok(number) = u32::try_from(number) {
                    numbers.insert(number)?;
                }
            }
        }
        if !numbers.is_empty() {
            self.others.insert(unit.index, numbers)?;
        }
        Ok(())
    }

    /// Whether a name of the other project carries other constructors than it did.
    fn carries_others(&self, name: MadeName) -> bool {
        match self.others.get(&name.unit.index) {
            Some(numbers) => numbers.contains(&name.number),
            None => false,
        }
    }

    /// Whether some unit has another place.
    pub fn has_changes(&self) -> bool {
        self.changes
    }

    /// The place of a unit in the other project file.
    fn place(&self, unit: UnitId) -> Option<UnitId>
        ensures { result ≡ slice_index_or self.now.places.items unit.index None }
    {
        match self.places.get(unit.index as usize) {
            Some(place) => *place,
            None => None,
        }
    }

    /// Whether a name of the one project and one of the other are the same: of a unit of one name, with one number, and
    /// alike in all that they carry.
    pub fn are_same(&self, one: TyName, other: TyName) -> bool {
        match (one, other) {
            (TyName::Initial(one), TyName::Initial(other)) => one == other,
            (TyName::Made(one), TyName::Made(other)) => match self.place(one.unit) {
                Some(unit) => MadeName { unit, ..one } == other && !self.carries_others(other),
                None => false,
            },
            (TyName::Initial(_), TyName::Made(_)) => false,
            (TyName::Made(_), TyName::Initial(_)) => false,
        }
    }

    /// The name with its unit at its place in the other project file.
    pub fn moved(&self, name: TyName) -> TyName
        ensures { name_of result ≡ moved_name self.now.places.items (name_of name) }
    {
        match name {
            TyName::Initial(_) => name,
            TyName::Made(made) => match self.place(made.unit) {
                Some(unit) => TyName::Made(MadeName { unit, ..made }),
                None => name,
            },
        }
    }
}

fn carry_same(one: &Carried, other: &Carried) -> bool {
    match (one, other) {
        (None, None) => true,
        (Some(ones), Some(others)) => ones.as_slice() == others.as_slice(),
        (None, Some(_)) => false,
        (Some(_), None) => false,
    }
}

impl Mapping for Moves {
    ghost bound_gives = { λ _ k. O.bound k };

    ghost free_gives = { λ _ v. O.free v };

    ghost name_gives = { λ s n ts. O.app (O.name (moved_name s.places.items n)) ts };

    fn bound(&self, _alloc: Global, _variable: u32) -> Result<Option<Rc<MlType>>, Memory> {
        Ok(None)
    }

    fn free(&self, _alloc: Global, _variable: u32) -> Result<Option<Rc<MlType>>, Memory> {
        Ok(None)
    }

    fn name(&self, name: TyName) -> Image<'_> {
        let moved = self.moved(name);
        if moved == name {
            Image::Same
        } else {
            Image::Name(moved)
        }
    }
}

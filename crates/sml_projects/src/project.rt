//! Projects: units in their order, each with its text.

ghost use Rattle.std.specs.Prelude.{◌≡◌, ◌<◌, ℕ, IfOk, IfErr, length, map, vec_len, slice_index_or, slice_set, []};
ghost use Rattle.std.specs.List.{Contains};
ghost use Rattle.std.specs.String.{string_bytes};
ghost use Rattle.sml_projects.specs.Orders.{IsOrder, IsOrderFault, IsProjectOf, AreUnitTexts, AreWaiting, ArePlaces, IsMadeFrom, unit_text_of};
ghost use Rattle.sml_projects.specs.ProjectFiles.{units_in};

use crate::manifest::{Manifest, OrderFault};
use crate::orders::{needed, order};
use sml_lex::fault::Memory;
use sml_objects::objects::UnitId;
use std::alloc::Global;
use std::mem::replace;

/// The units of a project in their order, each with its text and the places of its needs in that order.
#[derive(Drop)]
pub struct Project {
    pub units: Vec<ProjectUnit>,
}

/// A unit: its place among the unit lines, its name, its text, and the places of its needs in the order.
#[derive(Drop)]
pub struct ProjectUnit {
    pub id: UnitId,
    pub name: String,
    pub text: Vec<u8>,
    pub needs: Vec<usize>,
}

impl Project {
    /// The project of a manifest and one text for each unit, in the order listed.
    #[tactic(auto, unfolding(crate::specs::Orders::IsOrderFault))]
    pub fn new(
        alloc: Global,
        manifest: Manifest,
        texts: Vec<Vec<u8>>,
    ) -> Result<Project, OrderFault>
        ensures units { vec_len texts ≡ length (units_in manifest) → IfOk result (IsProjectOf (units_in manifest) (map (λ t. t.items) texts.items)) }
        ensures fault { IfErr result (IsOrderFault (units_in manifest) manifest.lines.items) }
    {
        let order = order(alloc, &manifest)?;
        let needed = needed(alloc, &manifest)?;
        let units = units_of(alloc, &manifest, &needed, &order, texts)?;
        Ok(Project { units })
    }
}

/// The units in this order, each with its text and the places of its needs.
fn units_of(
    alloc: Global,
    manifest: &Manifest,
    needed: &[Vec<usize>],
    order: &[UnitId],
    texts: Vec<Vec<u8>>,
) -> Result<Vec<ProjectUnit>, Memory>
    requires needed { AreWaiting (units_in manifest.now) [] (map (λ n. n.items) needed.now) }
    requires count { length needed.now ≡ length (units_in manifest.now) }
    requires ordered { IsOrder (units_in manifest.now) (map (λ u. u.index) order.now) }
    ensures { let ids = map (λ u. u.index) order.now in
        IfOk result (λ units. AreUnitTexts (units_in manifest.now) (map (λ t. t.items) texts.items) ids ids (map unit_text_of units.items)) }
{
    let places = places_in(alloc, order)?;
    let mut texts = texts;
    let mut units = Vec::with_capacity(alloc, manifest.names.len())?;
    for id in order {
        let unit = unit_at(alloc, manifest, needed, &places, &mut texts, *id)?;
        units.push(unit)?;
    }
    Ok(units)
}

/// The unit of this number, which takes its text.
fn unit_at(
    alloc: Global,
    manifest: &Manifest,
    needed: &[Vec<usize>],
    places: &[usize],
    texts: &mut Vec<Vec<u8>>,
    id: UnitId,
) -> Result<ProjectUnit, Memory>
    requires named { id.index < length manifest.now.names.keys }
    requires needed { length needed.now ≡ length manifest.now.names.keys }
    ensures made { IfOk result (IsMadeFrom (map string_bytes manifest.now.names.keys) (map (λ t. t.items) texts.old.items) places.now (map (λ n. n.items) needed.now) id.index) }
    ensures others { (j : ℕ) → ¬ (j ≡ id.index) → slice_index_or (map (λ t. t.items) texts.new.items) j [] ≡ slice_index_or (map (λ t. t.items) texts.old.items) j [] }
{
    let index = id.index as usize;
    let text = text_at(alloc, texts, index);
    let name = manifest.names.as_slice()[index].clone()?;
    let needs = each_at(alloc, places, &needed[index])?;
    Ok(ProjectUnit {
        id,
        name,
        text,
        needs,
    })
}

/// The text of this number, in whose place an empty one is left; an empty one where there is none.
fn text_at(alloc: Global, texts: &mut Vec<Vec<u8>>, index: usize) -> Vec<u8>
    ensures text { result.items ≡ slice_index_or (map (λ t. t.items) texts.old.items) index [] }
    ensures others { (j : ℕ) → ¬ (j ≡ index) → slice_index_or (map (λ t. t.items) texts.new.items) j [] ≡ slice_index_or (map (λ t. t.items) texts.old.items) j [] }
{
    if index < texts.len() {
        return replace(&mut texts[index], Vec::new(alloc));
    }
    Vec::new(alloc)
}

/// Where each unit stands in the order.
fn places_in(alloc: Global, order: &[UnitId]) -> Result<Vec<usize>, Memory>
    ensures { IfOk result (λ places. ArePlaces (map (λ u. u.index) order.now) (length order.now) places.items) }
{
    let mut places = vec![in alloc; 0; order.len()]?;
    for (place, id) in order.iter().enumerate() {
        put(&mut places, id.index as usize, place);
    }
    Ok(places)
}

/// Writes a place, where there is room for it.
fn put(places: &mut Vec<usize>, index: usize, place: usize)
    ensures { places.new.items ≡ slice_set places.old.items index place }
{
    if index < places.len() {
        places[index] = place;
    }
}

/// What stands at each of these indices, 0 where there is nothing.
fn each_at(alloc: Global, places: &[usize], indices: &[usize]) -> Result<Vec<usize>, Memory>
    ensures { IfOk result (λ found. found.items ≡ map (λ i. slice_index_or places.now i 0) indices.now) }
{
    let mut found = Vec::new(alloc);
    for index in indices {
        found.push(at(places, *index))?;
    }
    Ok(found)
}

fn at(places: &[usize], index: usize) -> usize
    ensures { result ≡ slice_index_or places.now index 0 }
{
    if index < places.len() {
        places[index]
    } else {
        0
    }
}

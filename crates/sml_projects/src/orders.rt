//! In which order the units of a manifest come.

ghost use Rattle.std.specs.Prelude.{◌≡◌, ◌<◌, ℕ, true, false, IsTrue, IfOk, IfErr, IfSome, IfNone, MatchOption, List, [], ◌∷◌, length, map, count_by, vec_len, slice_index, slice_index_or};
ghost use Rattle.std.specs.List.{Any, All};
ghost use Rattle.std.specs.String.{string_bytes};
ghost use Rattle.sml_projects.specs.Orders.{IsOrder, IsNext, MayCome, IsOrderFault, IsNeedFault, IsFirstLeft, HasUnknown, Stands, AreWaiting, Waits, Loses, is_marked, unit_at};
ghost use Rattle.sml_projects.specs.ProjectFiles.{UnitLine, units_in};

use crate::manifest::{Manifest, OrderFault, ProjectCode, ProjectFault};
use sml_lex::fault::Memory;
use sml_objects::objects::UnitId;
use std::alloc::Global;

/// The order of the units: each after its needs, the earliest listed first among those that may come. Or O1 at the first
/// unit with a need that isn't listed, or else O2 at the earliest listed that never may come.
#[tactic(auto, unfolding(crate::specs::Orders::IsOrderFault))]
pub fn order(alloc: Global, manifest: &Manifest) -> Result<Vec<UnitId>, OrderFault>
    ensures order { IfOk result (λ ids. IsOrder (units_in manifest.now) (map (λ u. u.index) ids.items)) }
    ensures fault { IfErr result (IsOrderFault (units_in manifest.now) manifest.now.lines.items) }
{
    let count = manifest.names.len();
    let mut waiting = needed(alloc, manifest)?;
    let mut taken = vec![in alloc; false; count]?;
    let mut order = Vec::new(alloc);
    'units: while order.len() < count {
        let Some(index) = next(&mut waiting, &taken) else {
            return Err(first_left(manifest, &taken));
        };
        taken[index] = true;
        order.push(UnitId {
            index: index as u32,
        })?;
    }
    Ok(order)
}

/// The places of each unit's needs among the units listed, or O1.
#[tactic(auto, unfolding(crate::specs::Orders::IsNeedFault))]
pub(crate) fn needed(alloc: Global, manifest: &Manifest) -> Result<Vec<Vec<usize>>, OrderFault>
    ensures count { IfOk result (λ all. vec_len all ≡ length (units_in manifest.now)) }
    ensures places { IfOk result (λ all. AreWaiting (units_in manifest.now) [] (map (λ places. places.items) all.items)) }
    ensures fault { IfErr result (IsNeedFault (units_in manifest.now) manifest.now.lines.items) }
{
    let mut all = Vec::new(alloc);
    for (index, needs) in manifest.needs.iter().enumerate() {
        let Some(places) = places_of(alloc, manifest, needs)? else {
            return Err(fault(manifest, ProjectCode::O1, index));
        };
        all.push(places)?;
    }
    Ok(all)
}

/// The places of the units of these names, or `None` where one isn't listed.
fn places_of(
    alloc: Global,
    manifest: &Manifest,
    needs: &[String],
) -> Result<Option<Vec<usize>>, Memory>
    ensures places { IfOk result (λ found. IfSome found (λ places. Waits (units_in manifest.now) [] (map string_bytes needs.now) places.items)) }
    ensures unknown { IfOk result (λ found. IfNone found (Any (λ need. All (λ u. ¬ (u.name ≡ need)) (units_in manifest.now)) (map string_bytes needs.now))) }
{
    let mut places = Vec::new(alloc);
    for need in needs {
        match manifest.names.get_index_of(need.as_str()) {
            Some(place) => places.push(place)?,
            None => return Ok(None),
        }
    }
    Ok(Some(places))
}

/// The earliest unit that isn't taken and waits for none that isn't.
fn next(waiting: &mut [Vec<usize>], taken: &[bool]) -> Option<usize>
    requires { length waiting.old ≡ length taken.now }
    ensures within { IfSome result (λ i. i < length taken.now) }
    ensures next { (us : List UnitLine) (order : List ℕ) → Stands us order taken.now (map (λ places. places.items) waiting.old)
        → MatchOption result ((k : ℕ) → ¬ (MayCome us order k)) (IsNext us order) }
    ensures stands { (us : List UnitLine) (order : List ℕ) → Stands us order taken.now (map (λ places. places.items) waiting.old)
        → Stands us order taken.now (map (λ places. places.items) waiting.new) }
{
    for index in 0..taken.len() {
        if taken[index] {
            continue;
        }
        if is_ready(&mut waiting[index], taken) {
            return Some(index);
        }
    }
    None
}

/// Whether all these units are taken. Those at the end that are need not be asked for again, and are left out.
fn is_ready(needs: &mut Vec<usize>, taken: &[bool]) -> bool
    ensures loses { Loses taken.now needs.old.items needs.new.items }
    ensures ready { result ≡ true → length needs.new.items ≡ 0 }
    ensures waits { result ≡ false → Any (λ need. is_marked taken.now need ≡ false) needs.new.items }
{
    while let Some(last) = needs.last() {
        if !is_taken(taken, *last) {
            return false;
        }
        needs.pop();
    }
    true
}

fn is_taken(taken: &[bool], index: usize) -> bool
    ensures { result ≡ is_marked taken.now index }
{
    index < taken.len() && taken[index]
}

/// O2 at the earliest unit that isn't taken.
fn first_left(manifest: &Manifest, taken: &[bool]) -> OrderFault
    requires lines { length taken.now ≡ vec_len manifest.now.lines }
    requires left { count_by (λ t. t) taken.now < length taken.now }
    ensures { IsFirstLeft taken.now manifest.now.lines.items result }
{
    let mut index = 0;
    while is_taken(taken, index) {
        index += 1;
    }
    fault(manifest, ProjectCode::O2, index)
}

/// The fault at the line of the unit with so many before it.
fn fault(manifest: &Manifest, code: ProjectCode, index: usize) -> OrderFault
    requires { index < vec_len manifest.now.lines }
    ensures { result ≡ OrderFault.Fault (record { code = code; line = slice_index manifest.now.lines.items index }) }
{
    OrderFault::Fault(ProjectFault {
        code,
        line: manifest.lines[index],
    })
}

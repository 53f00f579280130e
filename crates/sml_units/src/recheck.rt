//! Projects that are checked again after an edit.

ghost use Rattle.std.specs.Prelude.{◌≡◌, ◌≤◌, ◌+◌, [], IfOk, IfSome, List, OnOk, length, true, vec_len};
ghost use Rattle.sml_projects.specs.Orders.{UnitText, unit_text_of, unit_texts};
ghost use Rattle.sml_units.specs.CodeUnits.{AreCopies, IsOneMore};
ghost use Rattle.sml_units.specs.Complete.{AreComplete, IsMadeOf};

use crate::project::{Checked, Read, Replies, UnitReplies, check_unit, sources_of};
use indexmap::IndexMap;
use sml_bases::objects::Basis as WholeBasis;
use sml_exports::comparison::are_same_exports;
use sml_exports::exports::Exports;
use sml_exports::moved::moved;
use sml_exports::moves::Moves;
use sml_initial::initial::initial;
use sml_lex::fault::Memory;
use sml_projects::project::{Project, ProjectUnit};
use sml_reply::reply::Reply;
use std::alloc::Global;
use std::rc::Rc;

/// What `check` gives for the project. A unit is kept if the old project has one of that name with the same text and
/// needs, and each need exports the same in both: then its replies and exports are the old ones, and it isn't read.
pub fn recheck(alloc: Global, old: &Checked, project: &Project) -> Result<Checked, Memory>
    ensures complete { (us : List UnitText) → IsMadeOf us old.now → IfOk result (IsMadeOf (unit_texts project.now)) }
    ensures done { IfOk result (λ c. length c.kept.items ≡ vec_len project.now.units) }
{
    let mut again = Rechecking::new(alloc, old, project)?;
    again.go_on(alloc, old, project, project.units.len())?;
    Ok(again.into_checked())
}

/// A project that is checked again, of which the first units are done: what is given of these, whether each exports what it
/// did, and for each unit the place of that of the same name in the old order.
#[derive(Drop)]
pub struct Rechecking {
    initial: Rc<WholeBasis>,
    befores: Vec<Option<usize>>,
    moves: Moves,
    is_unchanged: Vec<bool>,
    checked: Checked,
}

/// What the old project has of a unit: its text, the places of its needs in the old order, its replies and exports.
#[derive(Clone, Copy)]
struct Before<'a> {
    text: &'a [u8],
    needs: &'a [usize],
    replies: &'a [Reply],
    exports: &'a Exports,
}

impl Rechecking {
    /// Begins to check a project again, of which no unit is done.
    pub fn new(alloc: Global, old: &Checked, project: &Project) -> Result<Rechecking, Memory>
        ensures made { IfOk result (λ r. IsMadeOf (unit_texts project.now) r.checked) }
        ensures none { IfOk result (λ r. r.checked.kept.items ≡ []) }
    {
        let befores = befores_of(alloc, old, project)?;
        Ok(Rechecking {
            initial: Rc::new(alloc, initial(alloc)?)?,
            moves: moves_between(alloc, old, project, &befores)?,
            befores,
            is_unchanged: Vec::new(alloc),
            checked: Checked {
                replies: Replies {
                    units: Vec::new(alloc),
                },
                sources: sources_of(alloc, project)?,
                exports: Vec::new(alloc),
                kept: Vec::new(alloc),
                readings: 0,
            },
        })
    }

    /// Goes on up to so many units. The old project and the new one are those that it was begun with.
    pub fn go_on(
        &mut self,
        alloc: Global,
        old: &Checked,
        project: &Project,
        count: usize,
    ) -> Result<(), Memory>
        ensures complete { (us : List UnitText) → IsMadeOf us old.now → IsMadeOf (unit_texts project.now) self.old.checked → OnOk result (IsMadeOf (unit_texts project.now) self.new.checked) }
        ensures done { length self.old.checked.kept.items ≤ count → count ≤ vec_len project.now.units → OnOk result (length self.new.checked.kept.items ≡ count) }
    {
        for place in self.done()..count {
            if let Some(unit) = project.units.get(place) {
                let before = before_of(old, &self.befores, place);
                self.take(alloc, before, unit)?;
            }
        }
        Ok(())
    }

    /// How many units are done.
    pub fn done(&self) -> usize
        ensures { result ≡ length self.now.checked.kept.items }
    {
        self.checked.kept.len()
    }

    /// What is given of the units that are done.
    pub fn checked(&self) -> &Checked
        ensures { result.now ≡ self.now.checked }
    {
        &self.checked
    }

    /// What is given of all units, where all are done.
    pub fn into_checked(self) -> Checked
        ensures { result ≡ self.checked }
    {
        let Rechecking { checked, .. } = self;
        checked
    }

    /// Keeps the next unit, or reads it.
    fn take(
        &mut self,
        alloc: Global,
        before: Option<Before<'_>>,
        unit: &ProjectUnit,
    ) -> Result<(), Memory>
        ensures complete { IfSome before.entry (λ b. AreComplete b.text.now b.replies.now)
            → OnOk result (IsOneMore self.old.checked self.new.checked (unit_text_of unit.now)) }
        ensures done { OnOk result (length self.new.checked.kept.items ≡ length self.old.checked.kept.items + 1) }
    {
        let Some(before) = before else {
            let read = check_unit(alloc, &self.initial, &self.checked.exports, unit)?;
            return self.put(unit, read, false, false);
        };
        if self.is_as_before(before, unit) {
            let read = kept_read(alloc, before, &self.moves, unit)?;
            return self.put(unit, read, true, true);
        }
        let read = check_unit(alloc, &self.initial, &self.checked.exports, unit)?;
        let (old, new) = (&before.exports.whole, &read.1.whole);
        self.moves.note(alloc, unit.id, &old.names, &new.names)?;
        let is_unchanged = are_same_exports(alloc, &self.moves, before.exports, &read.1)?;
        self.put(unit, read, false, is_unchanged)
    }

    fn put(
        &mut self,
        unit: &ProjectUnit,
        read: Read,
        is_kept: bool,
        is_unchanged: bool,
    ) -> Result<(), Memory>
        ensures complete { AreComplete unit.now.text.items read.0.items → OnOk result (IsOneMore self.old.checked self.new.checked (unit_text_of unit.now)) }
        ensures done { OnOk result (length self.new.checked.kept.items ≡ length self.old.checked.kept.items + 1) }
    {
        let (replies, own, count) = read;
        let name = unit.name.clone()?;
        self.checked
            .replies
            .units
            .push(UnitReplies { name, replies })?;
        self.checked.exports.push(own)?;
        self.checked.kept.push(is_kept)?;
        self.checked.readings = self.checked.readings.saturating_add(count);
        self.is_unchanged.push(is_unchanged)?;
        Ok(())
    }

    /// Whether a unit has the text that it had, and the needs, each of which exports what it did.
    fn is_as_before(&self, before: Before<'_>, unit: &ProjectUnit) -> bool
        ensures { result ≡ true → unit.now.text.items ≡ before.entry.text.now }
    {
        if unit.text.as_slice() != before.text || unit.needs.len() != before.needs.len() {
            return false;
        }
        for (need, old_need) in unit.needs.as_slice().iter().zip(before.needs) {
            if self.befores.get(*need) != Some(&Some(*old_need)) {
                return false;
            }
            if self.is_unchanged.get(*need) != Some(&true) {
                return false;
            }
        }
        true
    }
}

/// The old replies and exports of a unit, with the units of names at their new places. No declaration is answered.
fn kept_read(
    alloc: Global,
    before: Before<'_>,
    moves: &Moves,
    unit: &ProjectUnit,
) -> Result<Read, Memory>
    ensures { IfOk result (λ r. AreCopies before.entry.replies.now r.0.items) }
{
    let mut replies = Vec::new(alloc);
    for reply in before.replies {
        replies.push(reply.copy(alloc)?)?;
    }
    let own = if moves.has_changes() {
        moved(alloc, before.exports, unit.id, moves)?
    } else {
        before.exports.share()?
    };
    Ok((replies, own, 0))
}

/// For each unit the place of that of the same name in the old order, if there is one.
fn befores_of(
    alloc: Global,
    old: &Checked,
    project: &Project,
) -> Result<Vec<Option<usize>>, Memory> {
    let mut places = IndexMap::new(alloc);
    for (place, unit) in old.replies.units.as_slice().iter().enumerate() {
        places.insert(unit.name.clone()?, place)?;
    }
    let mut befores = Vec::new(alloc);
    for unit in project.units.as_slice() {
        befores.push(places.get(&unit.name).copied())?;
    }
    Ok(befores)
}

/// What the old project has of the unit at a place of the new order.
fn before_of<'a>(old: &'a Checked, befores: &[Option<usize>], place: usize) -> Option<Before<'a>>
    ensures { (us : List UnitText) → IsMadeOf us old.now → IfSome result (λ b. AreComplete b.text.now b.replies.now) }
{
    let place = (*befores.get(place)?)?;
    let source = old.sources.get(place)?;
    let unit = old.replies.units.get(place)?;
    let exports = old.exports.get(place)?;
    Some(Before {
        text: source.text.as_slice(),
        needs: source.needs.as_slice(),
        replies: unit.replies.as_slice(),
        exports,
    })
}

/// The places that the units of the old project file have in the new one.
fn moves_between(
    alloc: Global,
    old: &Checked,
    project: &Project,
    befores: &[Option<usize>],
) -> Result<Moves, Memory> {
    let mut moves = Moves::new(alloc, old.sources.len())?;
    for (unit, before) in project.units.as_slice().iter().zip(befores) {
        if let Some(place) = before {
            if let Some(source) = old.sources.get(*place) {
                moves.put(source.id, unit.id);
            }
        }
    }
    Ok(moves)
}

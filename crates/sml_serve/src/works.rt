//! Projects that are checked, and checked again after each change.

use crate::findings::{Answered, Findings, findings_of};
use sml_client::positions::Encoding;
use sml_lex::fault::Memory;
use sml_objects::objects::UnitId;
use sml_projects::project::{Project, ProjectUnit};
use sml_session::files::Listed;
use sml_units::project::{Checked, check};
use sml_units::recheck::Rechecking;
use std::alloc::Global;
use std::collections::BTreeMap;
use std::mem::replace;

/// A project that was checked, what is found in its units, and the paths of their files, by the order of the units. It lets
/// go of what it holds in one place.
pub struct Work {
    pub listed: Listed,
    pub paths: Vec<String>,
    /// Of each unit the first one that has the same file.
    pub firsts: Vec<usize>,
    pub findings: Vec<Findings>,
    checked: Checked,
    /// The check after what changed, as long as it isn't done.
    again: Option<Rechecking>,
    /// Whether something changed since the check.
    is_old: bool,
}

impl Drop for Work {
    fn drop(self) {
        let Work {
            listed: _,
            paths: _,
            firsts: _,
            findings: _,
            checked: _,
            again: _,
            is_old: _,
        } = self;
    }
}

/// A project of one unit, a document with this path and this text.
pub fn single(alloc: Global, path: &str, text: &[u8]) -> Result<Work, Memory> {
    let mut work = Work::new(alloc)?;
    set_single(alloc, &mut work, path, text)?;
    Ok(work)
}

/// Makes a project without units one of this unit.
fn set_single(alloc: Global, work: &mut Work, path: &str, text: &[u8]) -> Result<(), Memory> {
    let mut listed = empty(alloc);
    listed.project.units.push(only_unit(alloc, text)?)?;
    let mut paths = Vec::new(alloc);
    paths.push(String::from_str(alloc, path)?)?;
    work.list(alloc, listed, paths)
}

/// The unit of a document with this text.
fn only_unit(alloc: Global, text: &[u8]) -> Result<ProjectUnit, Memory> {
    Ok(ProjectUnit {
        id: UnitId { index: 0 },
        name: String::from_str(alloc, "unit")?,
        text: Vec::from_slice(alloc, text)?,
        needs: Vec::new(alloc),
    })
}

/// A project without units.
fn empty(alloc: Global) -> Listed {
    Listed {
        project: Project {
            units: Vec::new(alloc),
        },
        files: Vec::new(alloc),
    }
}

/// Of each path the place of the first one that is the same.
fn firsts_of(alloc: Global, paths: &[String]) -> Result<Vec<usize>, Memory> {
    let mut known: BTreeMap<&str, usize> = BTreeMap::new(alloc);
    let mut firsts = Vec::new(alloc);
    for (place, path) in paths.iter().enumerate() {
        let first = match known.get(path.as_str()) {
            Some(first) => *first,
            None => place,
        };
        known.insert(path.as_str(), first)?;
        firsts.push(first)?;
    }
    Ok(firsts)
}

/// What is found in the unit at a place.
fn found_at(
    alloc: Global,
    listed: &Listed,
    checked: &Checked,
    place: usize,
    encoding: Encoding,
) -> Result<Findings, Memory> {
    match listed.project.units.get(place) {
        Some(unit) => findings_of(
            alloc,
            Answered {
                checked,
                unit,
                place,
                encoding,
            },
        ),
        None => Ok(Findings::new(alloc)),
    }
}

/// What was found in units of the same names, as far as there were such.
fn moved(
    alloc: Global,
    before: &Listed,
    found: &mut [Findings],
    listed: &Listed,
) -> Result<Vec<Findings>, Memory> {
    let mut findings = Vec::new(alloc);
    for (place, unit) in listed.project.units.iter().enumerate() {
        let old = old_place(&before.project.units, place, &unit.name);
        findings.push(taken(alloc, found, old))?;
    }
    Ok(findings)
}

/// The place that the unit of a name had before, where it has this place now; a greater one than any where there was none.
fn old_place(units: &[ProjectUnit], place: usize, name: &str) -> usize {
    if is_named(units.get(place), name) {
        return place;
    }
    for (other, unit) in units.iter().enumerate() {
        if unit.name.as_str() == name {
            return other;
        }
    }
    units.len()
}

/// Whether there is a unit, and has this name.
fn is_named(unit: Option<&ProjectUnit>, name: &str) -> bool {
    match unit {
        Some(unit) => unit.name.as_str() == name,
        None => false,
    }
}

/// What was found at a place, in whose stead nothing is left.
fn taken(alloc: Global, found: &mut [Findings], place: usize) -> Findings {
    if place < found.len() {
        replace(&mut found[place], Findings::new(alloc))
    } else {
        Findings::new(alloc)
    }
}

impl Work {
    /// A project without units.
    pub fn new(alloc: Global) -> Result<Work, Memory> {
        let listed = empty(alloc);
        let checked = check(alloc, &listed.project)?;
        Ok(Work {
            checked,
            listed,
            paths: Vec::new(alloc),
            firsts: Vec::new(alloc),
            findings: Vec::new(alloc),
            again: None,
            is_old: false,
        })
    }

    /// Puts another project, with these paths, in place of the one that was checked, of which is kept what can be.
    pub fn list(
        &mut self,
        alloc: Global,
        listed: Listed,
        paths: Vec<String>,
    ) -> Result<(), Memory> {
        self.firsts = firsts_of(alloc, &paths)?;
        self.findings = moved(alloc, &self.listed, &mut self.findings, &listed)?;
        self.listed = listed;
        self.paths = paths;
        self.change();
        Ok(())
    }

    /// Notes that something changed.
    fn change(&mut self) {
        self.again = None;
        self.is_old = true;
    }

    /// The place of the first unit whose file has this path.
    pub fn place_of(&self, path: &str) -> Option<usize> {
        for (place, other) in self.paths.iter().enumerate() {
            if other.as_str() == path {
                return Some(place);
            }
        }
        None
    }

    /// How many units there are up to the last one with the file of the unit at a place.
    pub fn end_of(&self, place: usize) -> usize {
        let mut end = 0;
        for (other, first) in self.firsts.iter().enumerate() {
            if *first == place {
                end = other.saturating_add(1);
            }
        }
        end
    }

    /// Gives the units whose file has this path another text.
    pub fn set_text(&mut self, alloc: Global, path: &str, text: &[u8]) -> Result<(), Memory> {
        if set_texts(alloc, &mut self.listed, &self.paths, path, text)? {
            self.change();
        }
        Ok(())
    }

    /// Begins to check again, if something changed and that isn't begun yet.
    fn begin(&mut self, alloc: Global) -> Result<(), Memory> {
        if self.is_old && self.again.is_none() {
            let again = Rechecking::new(alloc, &self.checked, &self.listed.project)?;
            self.again = Some(again);
        }
        Ok(())
    }

    /// Checks up to so many units again, if something changed.
    pub fn renew_to(
        &mut self,
        alloc: Global,
        encoding: Encoding,
        count: usize,
    ) -> Result<(), Memory> {
        self.begin(alloc)?;
        match &mut self.again {
            Some(again) => go_on(
                alloc,
                again,
                &self.checked,
                &self.listed,
                &mut self.findings,
                count,
                encoding,
            ),
            None => Ok(()),
        }
    }

    /// Checks the project again, if something changed.
    pub fn renew(&mut self, alloc: Global, encoding: Encoding) -> Result<(), Memory> {
        let count = self.listed.project.units.len();
        self.renew_to(alloc, encoding, count)?;
        if let Some(again) = self.again.take() {
            self.checked = again.into_checked();
        }
        self.is_old = false;
        Ok(())
    }

    /// The unit at a place as it was answered.
    pub fn answered(&self, place: usize, encoding: Encoding) -> Option<Answered<'_>> {
        let unit = self.listed.project.units.get(place)?;
        Some(Answered {
            checked: &self.checked,
            unit,
            place,
            encoding,
        })
    }
}

/// Goes on with a check up to so many units, and finds what there is in those that aren't kept.
fn go_on(
    alloc: Global,
    again: &mut Rechecking,
    old: &Checked,
    listed: &Listed,
    findings: &mut [Findings],
    count: usize,
    encoding: Encoding,
) -> Result<(), Memory> {
    let from = again.done();
    again.go_on(alloc, old, &listed.project, count)?;
    let checked = again.checked();
    for place in from..again.done() {
        if checked.kept().get(place) == Some(&false) && place < findings.len() {
            findings[place] = found_at(alloc, listed, checked, place, encoding)?;
        }
    }
    Ok(())
}

/// Gives the units whose file has this path another text, and says whether one changed.
fn set_texts(
    alloc: Global,
    listed: &mut Listed,
    paths: &[String],
    path: &str,
    text: &[u8],
) -> Result<bool, Memory> {
    let mut is_any = false;
    for (unit, other) in listed.project.units.iter_mut().zip(paths) {
        if other.as_str() == path && unit.text.as_slice() != text {
            unit.text = Vec::from_slice(alloc, text)?;
            is_any = true;
        }
    }
    Ok(is_any)
}

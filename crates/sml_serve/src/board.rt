//! What is checked: the project, or else each open document by itself.

use crate::files::Folders;
use crate::findings::Answered;
use crate::projects::{Outcome, Trouble, project_path, read_listed};
use crate::works::{Work, single};
use sml_client::documents::Documents;
use sml_client::positions::Encoding;
use sml_client::settings::Settings;
use sml_lex::fault::Memory;
use sml_session::session::{Source, SourceFault};
use std::alloc::Global;
use std::collections::BTreeMap;

/// One byte more than the greatest unit has.
const MOST_BYTES: usize = 1_048_577;

/// The path of the project file, the last project without a fault, what is wrong with the file now, and the documents that
/// are projects of one unit.
pub struct Board {
    pub path: Option<String>,
    pub work: Work,
    pub trouble: Option<Trouble>,
    pub singles: BTreeMap<String, Work>,
}

impl Drop for Board {
    fn drop(self) {
        let Board {
            path: _,
            work: _,
            trouble: _,
            singles: _,
        } = self;
    }
}

/// What the client said, and what it has open.
#[derive(Clone, Copy)]
pub struct View<'a> {
    pub alloc: Global,
    pub settings: &'a Settings,
    pub documents: &'a Documents,
}

impl View<'_> {
    /// What characters are counted in.
    pub fn encoding(&self) -> Encoding {
        self.settings.encoding
    }

    /// The text of the open document at a path, as far as a unit may be long.
    fn open_text(&self, path: &str) -> Option<&[u8]> {
        match self.documents.get(path) {
            Some(document) => {
                let text = document.text.as_slice();
                Some(&text[..text.len().min(MOST_BYTES)])
            }
            None => None,
        }
    }
}

/// Whether two paths are the same, or there are none.
fn is_same(one: &Option<String>, other: &Option<String>) -> bool {
    match (one, other) {
        (Some(one), Some(other)) => one.as_str() == other.as_str(),
        (None, None) => true,
        _ => false,
    }
}

impl Board {
    /// Nothing is checked.
    pub fn new(alloc: Global) -> Result<Board, Memory> {
        Ok(Board {
            path: None,
            work: Work::new(alloc)?,
            trouble: None,
            singles: BTreeMap::new(alloc),
        })
    }

    /// Looks for the project file, and reads it and its units.
    pub fn reload<S: Source + Folders>(&mut self, view: View, files: &mut S) -> Result<(), Memory> {
        let path = project_path(view.alloc, view.settings, files)?;
        self.begin(view.alloc, path)?;
        match &self.path {
            Some(path) => {
                let outcome = read_listed(view.alloc, view.documents, files, path)?;
                self.put(view, outcome)
            }
            None => open_all(&mut self.singles, view),
        }
    }

    /// Begins with the project file at a path, if it isn't the one that there is.
    fn begin(&mut self, alloc: Global, path: Option<String>) -> Result<(), Memory> {
        if is_same(&path, &self.path) {
            return Ok(());
        }
        self.path = path;
        self.trouble = None;
        self.work = Work::new(alloc)?;
        Ok(())
    }

    /// Takes over what the project file lists. Where something is wrong, the last good project stays.
    fn put(&mut self, view: View, outcome: Outcome) -> Result<(), Memory> {
        self.singles = BTreeMap::new(view.alloc);
        match outcome {
            Outcome::Project(listed, paths) => {
                self.trouble = None;
                self.work.list(view.alloc, listed, paths)
            }
            Outcome::Trouble(trouble) => {
                self.trouble = Some(trouble);
                set_open(&mut self.work, view)
            }
        }
    }

    /// Takes over the texts at these paths. Says whether all has to be read again.
    pub fn touch_all<S: Source>(
        &mut self,
        view: View,
        files: &mut S,
        paths: &[String],
    ) -> Result<bool, Memory> {
        for path in paths {
            if self.touch(view, files, path)? {
                return Ok(true);
            }
        }
        Ok(false)
    }

    /// Takes over the text at a path, from the open document or from the disk. Says whether all has to be read again.
    fn touch<S: Source>(&mut self, view: View, files: &mut S, path: &str) -> Result<bool, Memory> {
        match &self.path {
            Some(project) if self.trouble.is_some() || project.as_str() == path => Ok(true),
            Some(_) => self.touch_unit(view, files, path),
            None => {
                touch_single(&mut self.singles, view, path)?;
                Ok(false)
            }
        }
    }

    /// The same of a path that isn't the project file's.
    fn touch_unit<S: Source>(
        &mut self,
        view: View,
        files: &mut S,
        path: &str,
    ) -> Result<bool, Memory> {
        if self.work.place_of(path).is_none() {
            return Ok(false);
        }
        if let Some(text) = view.open_text(path) {
            self.work.set_text(view.alloc, path, text)?;
            return Ok(false);
        }
        match files.read(view.alloc, path, MOST_BYTES) {
            Ok(text) => match self.work.set_text(view.alloc, path, &text) {
                Ok(_) => Ok(false),
                Err(_) => Err(Memory),
            },
            Err(SourceFault::Unreadable) => Ok(true),
            Err(SourceFault::Memory) => Err(Memory),
        }
    }

    /// Checks again what changed.
    pub fn renew(&mut self, view: View) -> Result<(), Memory> {
        self.work.renew(view.alloc, view.encoding())?;
        renew_singles(&mut self.singles, view)
    }

    /// The unit at a path as it was answered.
    pub fn answered(&self, path: &str, encoding: Encoding) -> Option<Answered<'_>> {
        let work = match self.singles.get(path) {
            Some(work) => work,
            None => &self.work,
        };
        work.answered(work.place_of(path)?, encoding)
    }
}

/// Gives the units of a project the texts of the open documents.
fn set_open(work: &mut Work, view: View) -> Result<(), Memory> {
    for path in view.documents.open.keys() {
        if let Some(text) = view.open_text(path) {
            work.set_text(view.alloc, path, text)?;
        }
    }
    Ok(())
}

/// Checks again the documents that are projects of one unit.
fn renew_singles(singles: &mut BTreeMap<String, Work>, view: View) -> Result<(), Memory> {
    for path in view.documents.open.keys() {
        if let Some(work) = singles.get_mut(path) {
            work.renew(view.alloc, view.encoding())?;
        }
    }
    Ok(())
}

/// Makes each open document a project of its own.
fn open_all(singles: &mut BTreeMap<String, Work>, view: View) -> Result<(), Memory> {
    for path in view.documents.open.keys() {
        touch_single(singles, view, path)?;
    }
    Ok(())
}

/// Takes over the text of the document at a path, if it is open.
fn touch_single(
    singles: &mut BTreeMap<String, Work>,
    view: View,
    path: &str,
) -> Result<(), Memory> {
    let Some(text) = view.open_text(path) else {
        let _ = singles.remove(path);
        return Ok(());
    };
    match singles.get_mut(path) {
        Some(work) => work.set_text(view.alloc, path, text),
        None => {
            let name = String::from_str(view.alloc, path)?;
            singles.insert(name, single(view.alloc, path, text)?)?;
            Ok(())
        }
    }
}

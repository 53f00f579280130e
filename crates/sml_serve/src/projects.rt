//! The project file: where it is, what it lists, and its fault.

ghost use Rattle.std.specs.Prelude.{IfOk, map};
ghost use Rattle.std.specs.String.{string_bytes};
ghost use Rattle.sml_serve.specs.Overlaid.{ArePathsOf, IsListing, IsOutcome, IsPathOf, files_in, overlaid};

use crate::files::{Folders, Overlay};
use sml_client::documents::Documents;
use sml_client::paths::joined;
use sml_client::settings::Settings;
use sml_client::written::Text;
use sml_lex::fault::Memory;
use sml_projects::manifest::ProjectCode;
use sml_session::files::{Listed, read_project, unit_path};
use sml_session::session::{Source, SourceFault};
use sml_session::stops::Stop;
use sml_shown::remark::cut;
use std::alloc::Global;

/// One byte more than the greatest project file has.
const MOST_BYTES: usize = 1_048_577;

/// What is wrong with a project file: the line, the code where there is one, and a text.
pub struct Trouble {
    pub line: u64,
    pub code: Option<ProjectCode>,
    pub text: Vec<u8>,
}

impl Drop for Trouble {
    fn drop(self) {
        let Trouble {
            line: _,
            code: _,
            text: _,
        } = self;
    }
}

/// A project and the paths of its units' files, in their order; or what is wrong with its file.
#[derive(Drop)]
pub enum Outcome {
    Project(Listed, Vec<String>),
    Trouble(Trouble),
}

/// The path of the project file: the one that the client names, or the only one in the root whose name ends with
/// `.project`.
pub fn project_path<F: Folders>(
    alloc: Global,
    settings: &Settings,
    folders: &mut F,
) -> Result<Option<String>, Memory> {
    if let Some(project) = &settings.project {
        return Ok(Some(project.clone()?));
    }
    let Some(root) = &settings.root else {
        return Ok(None);
    };
    match folders.names(alloc, root) {
        Ok(names) => only_project(alloc, root, &names),
        Err(SourceFault::Unreadable) => Ok(None),
        Err(SourceFault::Memory) => Err(Memory),
    }
}

/// The only one of these files whose name ends with `.project`.
fn only_project(alloc: Global, root: &str, names: &[String]) -> Result<Option<String>, Memory> {
    let mut found = None;
    for name in names {
        if name.ends_with(".project") {
            if found.is_some() {
                return Ok(None);
            }
            found = Some(name.as_str());
        }
    }
    match found {
        Some(name) => Ok(Some(joined(alloc, root, name)?)),
        None => Ok(None),
    }
}

/// The project of a project file and its units, for which open documents stand in.
pub fn read_listed<S: Source>(
    alloc: Global,
    documents: &Documents,
    files: &mut S,
    path: &str,
) -> Result<Outcome, Memory>
    ensures { IfOk result (IsOutcome (overlaid documents.now (S.gives files.old)) path.now) }
{
    let mut source = Overlay::new(documents, files);
    match read_project(alloc, &mut source, path) {
        Ok(listed) => listed_at(alloc, path, listed),
        Err(stop) => Ok(Outcome::Trouble(trouble_of(alloc, &mut source, path, &stop)?)),
    }
}

/// A project with the paths of its units' files.
fn listed_at(alloc: Global, path: &str, listed: Listed) -> Result<Outcome, Memory>
    ensures { IfOk result (IsListing path.now listed) }
{
    let paths = unit_paths(alloc, path, &listed)?;
    Ok(Outcome::Project(listed, paths))
}

/// Why there is no project.
fn trouble_of<S: Source>(
    alloc: Global,
    source: &mut S,
    path: &str,
    stop: &Stop,
) -> Result<Trouble, Memory> {
    match stop {
        Stop::Project(fault) => Ok(Trouble {
            line: u64::from(fault.line),
            code: Some(fault.code),
            text: Vec::from_slice(alloc, meaning(fault.code))?,
        }),
        Stop::Unreadable(file) => unreadable(alloc, source, path, file),
        Stop::Write | Stop::Memory => Err(Memory),
    }
}

/// What a code of project files means.
fn meaning(code: ProjectCode) -> &'static [u8] {
    match code {
        ProjectCode::O1 => b"a need is the name of no unit",
        ProjectCode::O2 => b"units need each other in a circle",
        ProjectCode::O3 => b"the unit's name was listed before",
        ProjectCode::O4 => b"the line has another form",
    }
}

/// What is said where a file can't be read: at the first line that lists it, or at the first line of all.
fn unreadable<S: Source>(
    alloc: Global,
    source: &mut S,
    path: &str,
    file: &str,
) -> Result<Trouble, Memory> {
    let line = match source.read(alloc, path, MOST_BYTES) {
        Ok(listed) => line_of(&listed, file.as_bytes()),
        Err(SourceFault::Unreadable) => 1,
        Err(SourceFault::Memory) => return Err(Memory),
    };
    let mut text = Text::new(alloc);
    text.push_all(&[b"cannot read ", file.as_bytes()]);
    Ok(Trouble {
        line,
        code: None,
        text: text.finish()?,
    })
}

/// The first line that lists this file, counted from 1.
fn line_of(text: &[u8], file: &[u8]) -> u64 {
    let mut rest = text;
    let mut number: u64 = 1;
    for _turn in 0..text.len() {
        let (line, others) = match cut(rest, b'\n') {
            Some((line, others)) => (line, others),
            None => (rest, &rest[rest.len()..]),
        };
        if third_word(line) == Some(file) {
            return number;
        }
        if others.is_empty() {
            return 1;
        }
        rest = others;
        number = number.saturating_add(1);
    }
    1
}

/// The third word of a line.
fn third_word(line: &[u8]) -> Option<&[u8]> {
    let mut count: usize = 0;
    for word in line.split(|byte| *byte == b' ' || *byte == b'\t' || *byte == b'\r') {
        if !word.is_empty() {
            if count == 2 {
                return Some(word);
            }
            count = count.saturating_add(1);
        }
    }
    None
}

/// The paths of the files of a project's units, in their order.
fn unit_paths(alloc: Global, project: &str, listed: &Listed) -> Result<Vec<String>, Memory>
    ensures { IfOk result (λ paths. ArePathsOf project.now (files_in listed.now) (map string_bytes paths.items)) }
{
    let mut paths = Vec::new(alloc);
    for unit in listed.project.units.as_slice() {
        paths.push(path_in(alloc, project, listed.file_of(unit))?)?;
    }
    Ok(paths)
}

/// The path of a file that a project names.
fn path_in(alloc: Global, project: &str, file: &str) -> Result<String, Memory>
    ensures { IfOk result (λ path. IsPathOf project.now file.now (string_bytes path)) }
{
    let written = unit_path(alloc, project, file)?;
    joined(alloc, "", &written)
}

//! The project of a project file, with the files of its units.

ghost use Rattle.std.specs.Prelude.{◌≡◌, ◌++◌, ℕ, IfErr, IfOk, List, OnOk, [], map, slice_index_or};
ghost use Rattle.std.specs.String.{string_bytes};
ghost use Rattle.sml_projects.specs.ProjectFiles.{units_in};
ghost use Rattle.sml_session.specs.Files.{AreTexts, IsFolderOf, IsNoFile, IsRead, IsUnitPath, IsUnread, Only, most_bytes};

use crate::session::{Source, SourceFault};
use crate::stops::Stop;
use sml_lex::fault::Memory;
use sml_projects::manifest::Manifest;
use sml_projects::project::{Project, ProjectUnit};
use sml_projects::project_file::manifest;
use std::alloc::{AllocError, Global};

/// One byte more than the greatest unit and the greatest project file have.
const MOST_BYTES: usize = 1_048_577;

/// A project, and the files of its units as the project file has them, in the order listed.
#[derive(Drop)]
pub struct Listed {
    pub project: Project,
    pub files: Vec<String>,
}

impl Listed {
    /// The file of a unit, as the project file has it.
    pub fn file_of<'a>(&'a self, unit: &ProjectUnit) -> &'a str
        ensures { result.now ≡ slice_index_or (map string_bytes self.now.files.items) unit.now.id.index [] }
    {
        match self.files.get(unit.id.index as usize) {
            Some(file) => file.as_str(),
            None => "",
        }
    }
}

/// The project of a project file and the files of its units.
pub fn read_project<S: Source>(alloc: Global, source: &mut S, path: &str) -> Result<Listed, Stop>
    ensures read { IfOk result (IsRead (S.gives source.old) path.now) }
    ensures unread { IfErr result (IsUnread (S.gives source.old) path.now) }
    ensures stays { Only (S.gives source.old) (S.gives source.new) }
{
    let text = read(alloc, source, path, path)?;
    let manifest = manifest(alloc, &text)?;
    let files = files_of(alloc, &manifest)?;
    let texts = read_units(alloc, source, path, &files)?;
    let project = Project::new(alloc, manifest, texts)?;
    Ok(Listed { project, files })
}

fn files_of(alloc: Global, manifest: &Manifest) -> Result<Vec<String>, Memory>
    ensures { IfOk result (λ files. map string_bytes files.items ≡ map (λ u. u.file) (units_in manifest.now)) }
{
    let mut files = Vec::new(alloc);
    for file in manifest.files() {
        files.push(file.clone()?)?;
    }
    Ok(files)
}

/// The bytes of a file; where it can't be read, its name as it was written.
fn read<S: Source>(
    alloc: Global,
    source: &mut S,
    path: &str,
    written: &str,
) -> Result<Vec<u8>, Stop>
    ensures given { IfOk result (λ text. S.gives source.old path.now most_bytes text.items) }
    ensures unread { IfErr result IsNoFile }
    ensures stays { Only (S.gives source.old) (S.gives source.new) }
{
    match source.read(alloc, path, MOST_BYTES) {
        Ok(bytes) => Ok(bytes),
        Err(SourceFault::Memory) => Err(Stop::Memory),
        Err(SourceFault::Unreadable) => Err(Stop::Unreadable(String::from_str(alloc, written)?)),
    }
}

/// The texts of the units, in the order listed.
fn read_units<S: Source>(
    alloc: Global,
    source: &mut S,
    project: &str,
    files: &[String],
) -> Result<Vec<Vec<u8>>, Stop>
    ensures given { IfOk result (λ texts. AreTexts (S.gives source.old) project.now (map string_bytes files.now) (map (λ t. t.items) texts.items)) }
    ensures unread { IfErr result IsNoFile }
    ensures stays { Only (S.gives source.old) (S.gives source.new) }
{
    let mut texts = Vec::new(alloc);
    for file in files {
        let path = unit_path(alloc, project, file)?;
        let text = read(alloc, source, &path, file)?;
        if texts.push(text).is_err() {
            return Err(Stop::Memory);
        }
    }
    Ok(texts)
}

/// A file that starts with `/`, or else one in the folder of the project file.
pub fn unit_path(alloc: Global, project: &str, file: &str) -> Result<String, AllocError>
    ensures { IfOk result (λ path. IsUnitPath project.now file.now (string_bytes path)) }
{
    if file.starts_with('/') {
        return String::from_str(alloc, file);
    }
    let mut path = String::new(alloc);
    push_folder(&mut path, project)?;
    path.push_str(file)?;
    Ok(path)
}

/// Adds the folder in which a file lies.
fn push_folder(path: &mut String, project: &str) -> Result<(), AllocError>
    ensures { OnOk result ((folder : List ℕ) × IsFolderOf project.now folder × (string_bytes path.new ≡ string_bytes path.old ++ folder)) }
{
    match project.rsplit_once('/') {
        Some((folder, _)) => {
            path.push_str(folder)?;
            path.push('/')?;
            Ok(())
        }
        None => Ok(()),
    }
}

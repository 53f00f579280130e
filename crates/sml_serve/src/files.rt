//! Where texts are read: open documents stand in for their files.

ghost use Rattle.std.specs.Prelude.{◌≡◌, IfOk, option_copied, take};
ghost use Rattle.sml_client.specs.Documents.{at_path};
ghost use Rattle.sml_client.specs.Paths.{normal_path};
ghost use Rattle.sml_serve.specs.Overlaid.{overlaid};

use sml_client::documents::{Document, Documents};
use sml_client::paths::normal;
use sml_lex::fault::Memory;
use sml_session::disk::Disk;
use sml_session::session::{Source, SourceFault};
use std::alloc::Global;
use std::fs::read_dir;
use std::rt::Files;

/// Where folders are listed.
pub trait Folders {
    /// The names of the files in a folder.
    fn names(&mut self, alloc: Global, folder: &str) -> Result<Vec<String>, SourceFault>;
}

/// The files and the folders of a disk.
#[derive(Drop)]
pub struct Tree<'a, R> {
    rt: &'a R,
}

impl<'a, R> Tree<'a, R> {
    pub fn new(rt: &'a R) -> Tree<'a, R> {
        Tree { rt }
    }
}

impl<R: Files> Source for Tree<'_, R> {
    fn read(&mut self, alloc: Global, path: &str, most: usize) -> Result<Vec<u8>, SourceFault> {
        let mut disk = Disk::new(self.rt);
        disk.read(alloc, path, most)
    }
}

impl<R: Files + Alloc + Clone + Drop> Folders for Tree<'_, R> {
    fn names(&mut self, alloc: Global, folder: &str) -> Result<Vec<String>, SourceFault> {
        let Ok(entries) = read_dir(self.rt, folder) else {
            return Err(SourceFault::Unreadable);
        };
        let mut names = Vec::new(alloc);
        for entry in entries {
            let Ok(entry) = entry else {
                return Err(SourceFault::Unreadable);
            };
            add_name(alloc, &mut names, entry.file_name())?;
        }
        Ok(names)
    }
}

/// Adds the name of a file.
fn add_name(alloc: Global, names: &mut Vec<String>, name: &str) -> Result<(), SourceFault> {
    match String::from_str(alloc, name) {
        Ok(name) => match names.push(name) {
            Ok(_) => Ok(()),
            Err(_) => Err(SourceFault::Memory),
        },
        Err(_) => Err(SourceFault::Memory),
    }
}

/// The texts of open documents, and those of files where none is open.
#[derive(Drop)]
pub struct Overlay<'a, S> {
    documents: &'a Documents,
    files: &'a mut S,
}

impl<'a, S> Overlay<'a, S> {
    pub fn new(documents: &'a Documents, files: &'a mut S) -> Overlay<'a, S>
        ensures documents { result.documents.now ≡ documents.now }
        ensures files { result.files.now ≡ files.old }
    {
        Overlay { documents, files }
    }
}

impl<S: Source> Source for Overlay<'_, S> {
    ghost gives = { λ s path most text. overlaid s.documents.now (S.gives s.files.now) path most text };

    fn read(&mut self, alloc: Global, path: &str, most: usize) -> Result<Vec<u8>, SourceFault> {
        match self.open_at(alloc, path) {
            Ok(Some(document)) => first_bytes(alloc, document.text.as_slice(), most),
            Ok(None) => self.files.read(alloc, path, most),
            Err(_) => Err(SourceFault::Memory),
        }
    }
}

impl<S> Overlay<'_, S> {
    /// The open document at a path.
    fn open_at(&self, alloc: Global, path: &str) -> Result<Option<&Document>, Memory>
        ensures { IfOk result (λ o. option_copied o ≡ at_path self.now.documents.now (normal_path path.now)) }
    {
        let name = normal(alloc, path)?;
        Ok(self.documents.get(&name))
    }
}

/// The first so many bytes.
fn first_bytes(alloc: Global, text: &[u8], most: usize) -> Result<Vec<u8>, SourceFault>
    ensures { IfOk result (λ v. v.items ≡ take most text.now) }
{
    match Vec::from_slice(alloc, &text[..most.min(text.len())]) {
        Ok(bytes) => Ok(bytes),
        Err(_) => Err(SourceFault::Memory),
    }
}

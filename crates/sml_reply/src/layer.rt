//! What a unit bound, and at which paths type names stand in it.

use indexmap::IndexMap;
use sml_bases::objects::{Env, TypeStr};
use sml_lex::fault::Memory;
use sml_objects::objects::{Scheme, TyName};
use sml_tree::bare::Ident;
use sml_type_maps::functions::name_of;
use std::alloc::Global;
use std::collections::{BTreeMap, BTreeSet};
use std::rc::Rc;

/// A path at which a type name stands: how many parts it has, its text with dots, and its first part. A path with fewer
/// parts is less than one with more, and of as many the one whose text comes first in byte order.
#[derive(PartialEq, Eq, PartialOrd, Ord, Drop)]
pub(crate) struct Path {
    parts: usize,
    text: Ident,
    root: Ident,
}

impl Path {
    /// The same path, shared.
    pub(crate) fn share(&self) -> Result<Path, Memory> {
        Ok(Path {
            parts: self.parts,
            text: self.text.clone()?,
            root: self.root.clone()?,
        })
    }

    pub(crate) fn text(&self) -> &Ident {
        &self.text
    }
}

/// What a unit bound at top level, and for each type name the paths at which it stands there.
#[derive(Drop)]
pub struct Layer {
    structures: BTreeMap<Ident, Rc<Env>>,
    types: BTreeMap<Ident, TypeStr>,
    standing: IndexMap<TyName, BTreeSet<Path>>,
}

impl Layer {
    /// That of a unit that bound nothing.
    pub fn new(alloc: Global) -> Layer {
        Layer {
            structures: BTreeMap::new(alloc),
            types: BTreeMap::new(alloc),
            standing: IndexMap::new(alloc),
        }
    }

    /// Puts what a declaration binds over this. It costs what the environment holds, and what it hides.
    pub fn bind(&mut self, alloc: Global, env: &Env) -> Result<(), Memory> {
        for (name, structure) in &env.structures {
            self.bind_structure(alloc, name, structure)?;
        }
        for (name, ty) in &env.types {
            self.bind_type(alloc, name, ty)?;
        }
        Ok(())
    }

    fn bind_structure(
        &mut self,
        alloc: Global,
        name: &Ident,
        structure: &Rc<Env>,
    ) -> Result<(), Memory> {
        let hidden = self.structures.insert(name.clone()?, structure.clone()?)?;
        if let Some(hidden) = hidden {
            let entries = entries_of_structure(alloc, name, &hidden)?;
            self.remove(&entries);
        }
        let entries = entries_of_structure(alloc, name, structure)?;
        self.add(alloc, &entries)
    }

    fn bind_type(&mut self, alloc: Global, name: &Ident, ty: &TypeStr) -> Result<(), Memory> {
        let hidden = self.types.insert(name.clone()?, ty.share()?)?;
        if is_initial(name) {
            return Ok(());
        }
        if let Some(hidden) = hidden {
            let entries = entries_of_type(alloc, name, &hidden.function)?;
            self.remove(&entries);
        }
        let entries = entries_of_type(alloc, name, &ty.function)?;
        self.add(alloc, &entries)
    }

    fn add(&mut self, alloc: Global, entries: &[Entry]) -> Result<(), Memory> {
        for entry in entries {
            let path = entry.path.share()?;
            if let Some(paths) = self.standing.get_mut(&entry.name) {
                paths.insert(path)?;
            } else {
                let mut paths = BTreeSet::new(alloc);
                paths.insert(path)?;
                self.standing.insert(entry.name, paths)?;
            }
        }
        Ok(())
    }

    fn remove(&mut self, entries: &[Entry]) {
        for entry in entries {
            if let Some(paths) = self.standing.get_mut(&entry.name) {
                let _ = paths.remove(&entry.path);
            }
        }
    }

    /// The least path of a name.
    pub(crate) fn least(&self, name: TyName) -> Option<&Path> {
        match self.standing.get(&name) {
            Some(paths) => paths.first(),
            None => None,
        }
    }

    /// The least path of a name that none of these layers hides.
    pub(crate) fn least_unhidden(
        &self,
        name: TyName,
        own: &Layer,
        later: &[Rc<Layer>],
    ) -> Option<&Path> {
        let paths = self.standing.get(&name)?;
        for path in paths {
            if !own.hides(path) && !are_hiding(later, path) {
                return Some(path);
            }
        }
        None
    }

    /// Whether the layer binds the first part of a path.
    pub(crate) fn hides(&self, path: &Path) -> bool {
        if path.parts == 1 {
            self.types.contains_key(&path.root)
        } else {
            self.structures.contains_key(&path.root)
        }
    }
}

fn are_hiding(layers: &[Rc<Layer>], path: &Path) -> bool {
    for layer in layers {
        if layer.hides(path) {
            return true;
        }
    }
    false
}

/// A type name, and a path at which it stands.
#[derive(Drop)]
struct Entry {
    name: TyName,
    path: Path,
}

/// The types of a structure that are names, each with its path.
fn entries_of_structure(
    alloc: Global,
    name: &Ident,
    structure: &Env,
) -> Result<Vec<Entry>, Memory> {
    let mut walk = Walk {
        alloc,
        root: name.clone()?,
        prefix: Vec::new(alloc),
        parts: 1,
        entries: Vec::new(alloc),
    };
    walk.enter(name, structure)?;
    let Walk { entries, .. } = walk;
    Ok(entries)
}

/// A type at top level, where it is a name.
fn entries_of_type(alloc: Global, name: &Ident, function: &Scheme) -> Result<Vec<Entry>, Memory> {
    let mut entries = Vec::new(alloc);
    if let Some(standing) = name_of(function) {
        let path = Path {
            parts: 1,
            text: name.clone()?,
            root: name.clone()?,
        };
        entries.push(Entry {
            name: standing,
            path,
        })?;
    }
    Ok(entries)
}

/// A walk over a structure: its identifier, the prefix of the paths where the walk stands, how many parts they have, and
/// what was found.
#[derive(Drop)]
struct Walk {
    alloc: Global,
    root: Ident,
    prefix: Vec<u8>,
    parts: usize,
    entries: Vec<Entry>,
}

impl Walk {
    #[cycle(walk)]
    fn enter(&mut self, name: &Ident, structure: &Env) -> Result<(), Memory> {
        let length = self.prefix.len();
        let parts = self.parts;
        self.prefix.extend_from_slice(name.as_slice())?;
        self.prefix.push(b'.')?;
        self.parts = parts.saturating_add(1);
        self.structures(&structure.structures)?;
        self.types(&structure.types)?;
        self.prefix.truncate(length);
        self.parts = parts;
        Ok(())
    }

    #[cycle(walk)]
    fn structures(&mut self, structures: &BTreeMap<Ident, Rc<Env>>) -> Result<(), Memory> {
        for (name, structure) in structures {
            self.enter(name, structure)?;
        }
        Ok(())
    }

    fn types(&mut self, types: &BTreeMap<Ident, TypeStr>) -> Result<(), Memory> {
        for (name, ty) in types {
            if let Some(standing) = name_of(&ty.function) {
                let path = self.path(name)?;
                self.entries.push(Entry {
                    name: standing,
                    path,
                })?;
            }
        }
        Ok(())
    }

    fn path(&self, name: &Ident) -> Result<Path, Memory> {
        let mut text = Vec::from_slice(self.alloc, &self.prefix)?;
        text.extend_from_slice(name.as_slice())?;
        Ok(Path {
            parts: self.parts,
            text: Rc::new(self.alloc, text)?,
            root: self.root.clone()?,
        })
    }
}

/// Whether a type constructor has the name of an initial one: such a path names no other type.
fn is_initial(name: &Ident) -> bool {
    matches!(
        name.as_slice(),
        b"int"
            | b"word"
            | b"char"
            | b"string"
            | b"bool"
            | b"exn"
            | b"real"
            | b"list"
            | b"ref"
            | b"unit"
    )
}

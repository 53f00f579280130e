//! What is at hand where a declaration is refused, kept for who asks why.

ghost use Rattle.std.specs.Prelude.{◌≡◌, true, false, Some, None};
ghost use Rattle.std.specs.Option.{option_map};

use indexmap::IndexMap;
use sml_bases::objects::{Env, TypeStr, Value};
use sml_lex::fault::{Fault, Memory};
use sml_objects::objects::{Scheme, TyName, UnitId};
use sml_tree::bare::Ident;
use sml_type_maps::functions::name_of;
use std::alloc::Global;
use std::rc::Rc;

/// What the types of a demand are to each other.
#[derive(Clone, Copy, PartialEq, Eq)]
pub enum Meeting {
    /// What a function takes, and its argument.
    Argument,
    /// What is applied, and a function that takes the argument.
    Applied,
    /// A pattern, and what it is bound to.
    Binding,
    /// A phrase, and what is wanted where it stands.
    Wanted,
    /// The rules of a handler, and what is wanted of them.
    Handler,
    /// The rules of a match so far, and the next one.
    Rules,
    /// What stands before `as`, and what stands after it.
    Layered,
    /// One type, which mentions a name that is made later or in a `let` that ends.
    Late,
}

/// What a structure has at a path, or a signature asks for there.
#[derive(Drop)]
pub enum Component {
    Type(TypeStr),
    /// A type of which only the number of parameters, whether it admits equality, and its constructors are specified.
    Abstract(TypeStr, bool),
    Value(Value),
}

/// What was at hand where a declaration was refused.
#[derive(Drop)]
pub enum Seen {
    /// The types of a demand, closed in one scheme as a row, after which come the unknowns of these explicit type
    /// variables.
    Types(Meeting, Scheme, Vec<Ident>),
    /// What a structure has, and what its signature asks for.
    Components(Component, Component),
    /// The long identifiers of types that structures have and that can't be shared.
    Unshared(Vec<u8>, Vec<u8>),
}

/// Which comparison is wanted, and how the declaration is refused there.
#[derive(Drop)]
pub struct Wanted {
    pub number: u64,
    pub fault: Fault,
}

/// How many comparisons were made so far, whether the last one was refused, what is kept of the one that is wanted, and the
/// type names that the declaration made.
#[derive(Drop)]
pub struct Recorder {
    alloc: Global,
    made: u64,
    is_refused: bool,
    wanted: Option<Wanted>,
    seen: Option<Seen>,
    names: OwnNames,
}

/// The texts of type names, and of each text the last name that had it.
#[derive(Drop)]
pub struct OwnNames {
    texts: IndexMap<TyName, Ident>,
    owners: IndexMap<Ident, TyName>,
}

impl OwnNames {
    /// The text of a name, unless a later one has it too.
    pub fn text(&self, name: TyName) -> Option<&Ident> {
        let text = self.texts.get(&name)?;
        if self.owners.get(text) == Some(&name) {
            Some(text)
        } else {
            None
        }
    }

    /// Whether some name has a text.
    pub fn has(&self, text: &Ident) -> bool {
        self.owners.contains_key(text)
    }
}

/// How deep in a structure types get names by their paths.
const DEPTH: u8 = 8;

impl Recorder {
    /// Keeps nothing.
    pub(crate) fn new(alloc: Global) -> Recorder
        ensures { result.wanted ≡ None }
    {
        Recorder {
            alloc,
            made: 0,
            is_refused: false,
            wanted: None,
            seen: None,
            names: OwnNames {
                texts: IndexMap::new(alloc),
                owners: IndexMap::new(alloc),
            },
        }
    }

    /// Keeps what is at hand at one comparison.
    pub fn want(&mut self, wanted: Wanted)
        ensures { self.new ≡ record self.old { wanted = Some wanted } }
    {
        self.wanted = Some(wanted);
    }

    /// Counts a comparison that is made now, and says whether it is wanted.
    pub fn is_next(&mut self) -> bool
        ensures { self.old.wanted ≡ None → (result ≡ false) × (self.new.wanted ≡ None) }
    {
        self.made = self.made.saturating_add(1);
        match &self.wanted {
            Some(wanted) => wanted.number == self.made,
            None => false,
        }
    }

    /// Notes that the last comparison was refused.
    pub fn refuse(&mut self)
        ensures { self.new.wanted ≡ self.old.wanted }
    {
        self.is_refused = true;
    }

    /// The number of the last comparison, if it was refused.
    pub fn refused(&self) -> Option<u64>
        ensures refused { self.now.is_refused ≡ true → result ≡ Some self.now.made }
        ensures none { self.now.is_refused ≡ false → result ≡ None }
    {
        if self.is_refused {
            Some(self.made)
        } else {
            None
        }
    }

    /// The fault of the comparison that is wanted.
    pub fn fault(&self) -> Option<&Fault>
        ensures { option_map (λ f. f.now) result ≡ option_map (λ w. w.fault) self.now.wanted }
    {
        match &self.wanted {
            Some(wanted) => Some(&wanted.fault),
            None => None,
        }
    }

    /// Keeps what is at hand.
    pub fn keep(&mut self, seen: Seen)
        ensures { self.new ≡ record self.old { seen = Some seen } }
    {
        self.seen = Some(seen);
    }

    /// What was kept, with the names that were made.
    pub fn into_seen(self) -> Option<(Seen, OwnNames)>
        ensures { result ≡ option_map (λ seen. (seen, self.names)) self.seen }
    {
        let Recorder { seen, names, .. } = self;
        match seen {
            Some(seen) => Some((seen, names)),
            None => None,
        }
    }

    /// Notes the identifier of a type, where something is wanted and the unit made its name with this number or a later one.
    pub(crate) fn note_type(
        &mut self,
        unit: UnitId,
        first: u32,
        name: &Ident,
        ty: &TypeStr,
    ) -> Result<(), Memory>
        ensures { self.new.wanted ≡ self.old.wanted }
    {
        if self.wanted.is_none() {
            return Ok(());
        }
        self.note(unit, first, ty, name)
    }

    /// Notes the paths of the types in a structure, in the same way.
    pub(crate) fn note_structure(
        &mut self,
        unit: UnitId,
        first: u32,
        name: &Ident,
        structure: &Env,
    ) -> Result<(), Memory>
        ensures { self.new.wanted ≡ self.old.wanted }
    {
        if self.wanted.is_none() {
            return Ok(());
        }
        self.note_env(unit, first, name.as_slice(), structure, DEPTH)
    }

    fn note(&mut self, unit: UnitId, first: u32, ty: &TypeStr, text: &Ident) -> Result<(), Memory>
        ensures { self.new.wanted ≡ self.old.wanted }
    {
        if let Some(name) = name_of(&ty.function) {
            if is_made_from(name, unit, first) {
                self.names.texts.insert(name, text.clone()?)?;
                self.names.owners.insert(text.clone()?, name)?;
            }
        }
        Ok(())
    }

    #[cycle(note)]
    fn note_env(
        &mut self,
        unit: UnitId,
        first: u32,
        prefix: &[u8],
        env: &Env,
        depth: u8,
    ) -> Result<(), Memory>
        ensures { self.new.wanted ≡ self.old.wanted }
    {
        for (name, ty) in &env.types {
            let text = joined(self.alloc, prefix, name)?;
            let text = Rc::new(self.alloc, text)?;
            self.note(unit, first, ty, &text)?;
        }
        if depth == 0 {
            return Ok(());
        }
        for (name, structure) in &env.structures {
            let prefix = joined(self.alloc, prefix, name)?;
            self.note_env(unit, first, &prefix, structure, depth - 1)?;
        }
        Ok(())
    }
}

/// Whether a unit made a name with this number or a later one.
fn is_made_from(name: TyName, unit: UnitId, first: u32) -> bool {
    match name {
        TyName::Initial(_) => false,
        TyName::Made(made) => made.unit == unit && made.number >= first,
    }
}

/// A path with one more identifier.
fn joined(alloc: Global, prefix: &[u8], name: &Ident) -> Result<Vec<u8>, Memory> {
    let mut text = Vec::from_slice(alloc, prefix)?;
    text.push(b'.')?;
    text.extend_from_slice(name.as_slice())?;
    Ok(text)
}

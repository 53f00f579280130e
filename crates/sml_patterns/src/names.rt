//! What the long identifiers of patterns mean.

ghost use Rattle.std.specs.Prelude.{◌≡◌, ◌++◌, IfOk, OnOk, OnErr, if◌then◌else◌};
ghost use Rattle.std.specs.Str.{bytes_eq};
ghost use Rattle.sml_tree.specs.Trees.{LongId};
ghost use Rattle.sml_tree.specs.Views.{long_of};
ghost use Rattle.sml_patterns.specs.Stands.{long_text};
ghost use Rattle.sml_patterns.specs.Views.{meanings};
ghost use Rattle.sml_patterns.specs.declared.names.Meaning.TheVariants as M;

use indexmap::IndexMap;
use sml_lex::fault::Memory;
use sml_tree::bare::LongIdent;
use std::alloc::Global;

/// What an identifier of a pattern means. A constructor is the one of this number, from 0, among so many of its
/// datatype.
#[derive(Clone, Copy, PartialEq, Eq)]
pub enum Meaning {
    Variable,
    Exception,
    Constructor { number: u64, count: u64 },
}

/// The meanings of long identifiers, as they are written. One that isn't known is a variable.
#[derive(Drop)]
pub struct Names {
    alloc: Global,
    meanings: IndexMap<Vec<u8>, Meaning>,
}

/// A long identifier as it is written.
pub fn long_text(alloc: Global, long: &LongIdent) -> Result<Vec<u8>, Memory>
    ensures { IfOk result (λ text. text.items ≡ long_text (long_of long.now)) }
{
    let mut text = Vec::new(alloc);
    for part in &long.path {
        text.extend_from_slice(part)?;
        text.push(b'.')?;
    }
    text.extend_from_slice(&long.last)?;
    Ok(text)
}

impl Names {
    /// No identifier is known.
    pub fn new(alloc: Global) -> Names
        ensures { (x : LongId) → meanings result x ≡ M.Variable }
    {
        Names {
            alloc,
            meanings: IndexMap::new(alloc),
        }
    }

    /// Gives a long identifier its meaning.
    pub fn insert(&mut self, long: &LongIdent, meaning: Meaning) -> Result<(), Memory>
        ensures { OnOk result ((x : LongId) → meanings self.new x ≡ (if bytes_eq (long_text x) (long_text (long_of long.now)) then meaning else meanings self.old x)) }
    {
        let text = long_text(self.alloc, long)?;
        self.meanings.insert(text, meaning)?;
        Ok(())
    }

    /// What a long identifier means.
    pub fn meaning(&self, long: &LongIdent) -> Result<Meaning, Memory>
        ensures { IfOk result (λ meaning. meaning ≡ meanings self.now (long_of long.now)) }
    {
        let text = long_text(self.alloc, long)?;
        match self.meanings.get(text.as_slice()) {
            Some(meaning) => Ok(*meaning),
            None => Ok(Meaning::Variable),
        }
    }
}

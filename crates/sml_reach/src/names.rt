//! The identifiers of a unit, each distinct one kept once.

ghost use Rattle.std.specs.Prelude.{◌≡◌, ◌==◌, IfOk, position};
ghost use Rattle.sml_tree.specs.Views.{ident_of, long_of};
ghost use Rattle.sml_reach.specs.Idents.{IsShared, long_id};

use indexmap::IndexMap;
use sml_lex::fault::{Memory, Place};
use sml_tree::bare::{Ident, LongIdent};
use std::alloc::Global;
use std::rc::Rc;

/// The identifiers met so far, by their bytes.
#[derive(Drop)]
pub struct Names {
    alloc: Global,
    idents: IndexMap<Vec<u8>, Ident>,
    ghost shared: { IsShared idents.entries },
}

/// Where the first dot stands.
fn first_dot(text: &[u8]) -> Option<usize>
    ensures { result ≡ position (λ b. b == 46) text.now }
{
    text.iter().position(|byte| *byte == b'.')
}

impl Names {
    pub fn new(alloc: Global) -> Names {
        Names {
            alloc,
            idents: IndexMap::new(alloc),
        }
    }

    /// The identifier with these bytes.
    pub fn ident(&mut self, text: &[u8]) -> Result<Ident, Memory>
        ensures { IfOk result (λ ident. ident_of ident ≡ text.now) }
    {
        if let Some(ident) = self.idents.get(text) {
            return Ok(ident.clone()?);
        }
        let ident = Rc::new(self.alloc, Vec::from_slice(self.alloc, text)?)?;
        self.idents
            .insert(Vec::from_slice(self.alloc, text)?, ident.clone()?)?;
        Ok(ident)
    }

    /// The long identifier with these bytes, cut at its dots.
    pub fn long(&mut self, place: Place, text: &[u8]) -> Result<LongIdent, Memory>
        ensures place { IfOk result (λ long. long.place ≡ place) }
        ensures parts { IfOk result (λ long. long_of long ≡ long_id text.now) }
    {
        let mut path = Vec::new(self.alloc);
        let mut rest = text;
        while let Some(dot) = first_dot(rest) {
            path.push(self.ident(&rest[..dot])?)?;
            rest = &rest[dot + 1..];
        }
        let last = self.ident(rest)?;
        Ok(LongIdent { place, path, last })
    }
}

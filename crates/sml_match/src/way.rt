//! The way to a component of a signature, for the faults that speak of it.

ghost use Rattle.std.specs.Prelude.{◌≡◌, ◌++◌, ◌∷◌, [], ◌-◌, length, take, IfOk, OnOk};
ghost use Rattle.sml_tree.specs.Views.{ident_of};
ghost use Rattle.sml_match.specs.Mismatches.{IsMismatch};
ghost use Rattle.sml_match.specs.Paths.{path_in};

use crate::mismatch::Mismatch;
use sml_lex::fault::{Code, Memory};
use sml_tree::bare::Ident;
use sml_types::scope::dotted_text;
use std::alloc::Global;

/// The identifiers from the signature to the component at hand.
#[derive(Drop)]
pub(crate) struct Way {
    pub alloc: Global,
    idents: Vec<Ident>,
}

impl Way {
    pub(crate) fn new(alloc: Global) -> Way
        ensures { path_in result ≡ [] }
    {
        Way {
            alloc,
            idents: Vec::new(alloc),
        }
    }

    pub(crate) fn enter(&mut self, name: &Ident) -> Result<(), Memory>
        ensures { OnOk result (path_in self.new ≡ path_in self.old ++ ident_of name.now ∷ []) }
    {
        self.idents.push(name.clone()?)?;
        Ok(())
    }

    pub(crate) fn leave(&mut self)
        ensures { path_in self.new ≡ take (length (path_in self.old) - 1) (path_in self.old) }
    {
        self.idents.pop();
    }

    /// How many identifiers there are.
    pub(crate) fn length(&self) -> usize
        ensures { result ≡ length (path_in self.now) }
    {
        self.idents.len()
    }

    /// The fault of the component.
    pub(crate) fn fault(&self, code: Code) -> Result<Mismatch, Memory>
        ensures { IfOk result (λ m. IsMismatch m code (path_in self.now)) }
    {
        self.fault_before(code, self.idents.len())
    }

    /// The fault of the component so many identifiers from the signature.
    pub(crate) fn fault_before(&self, code: Code, length: usize) -> Result<Mismatch, Memory>
        ensures { IfOk result (λ m. IsMismatch m code (take length (path_in self.now))) }
    {
        let length = length.min(self.idents.len());
        let path = dotted_text(self.alloc, &self.idents[..length])?;
        Ok(Mismatch::Fault(code, path))
    }
}

//! The variables of the functions around an expression, each with the number of the unknown that is its type.

ghost use Rattle.std.specs.Prelude.{◌≡◌, IfOk, OnOk, None};
ghost use Rattle.sml_tree.specs.Trees.{Id};
ghost use Rattle.sml_tree.specs.Views.{ident_of};
ghost use Rattle.sml_objects.specs.Maps.{order_of, by_order};
ghost use Rattle.sml_piece.specs.Elaborated.{numbers_in};

use sml_lex::fault::Memory;
use sml_tree::bare::Ident;
use std::alloc::Global;
use std::collections::BTreeMap;

/// A variable out of scope has no number.
#[derive(Drop)]
pub(crate) struct Locals {
    pub numbers: BTreeMap<Ident, Option<u32>>,
}

impl Locals {
    pub(crate) fn new(alloc: Global) -> Locals
        ensures { (x : Id) → numbers_in result x ≡ None }
    {
        Locals {
            numbers: BTreeMap::new(alloc),
        }
    }

    pub(crate) fn number(&self, name: &Ident) -> Option<u32>
        ensures { result ≡ numbers_in self.now (ident_of name.now) }
    {
        match self.numbers.get(name) {
            Some(number) => *number,
            None => None,
        }
    }

    /// Gives the variable this number or none, and answers what it had.
    pub(crate) fn set(&mut self, name: &Ident, number: Option<u32>) -> Result<Option<u32>, Memory>
        ensures hidden { IfOk result (λ o. o ≡ numbers_in self.old (ident_of name.now)) }
        ensures set { OnOk result ((x : Id) → numbers_in self.new x
            ≡ by_order (order_of x (ident_of name.now)) (numbers_in self.old x) number (numbers_in self.old x)) }
    {
        let key = name.clone()?;
        match self.numbers.insert(key, number)? {
            Some(hidden) => Ok(hidden),
            None => Ok(None),
        }
    }
}

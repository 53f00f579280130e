//! The fixities of identifiers, by their bytes.

ghost use Rattle.std.specs.Prelude.{◌≡◌, true, OnOk, OnErr};
ghost use Rattle.sml_tree.specs.Trees.{Id};
ghost use Rattle.sml_tree.specs.Views.{ident_of};
ghost use Rattle.sml_fixity.specs.Order.{order_of, where_same};
ghost use Rattle.sml_fixity.specs.CodeTable.{found, are_marked, is_marked};

use crate::scopes::Fixity;
use sml_lex::fault::Memory;
use sml_tree::bare::Ident;
use std::alloc::Global;
use std::collections::BTreeMap;

/// What is in force for each identifier that has had a fixity, and the bytes that such identifiers begin with. Most
/// identifiers begin with another one, and needn't be sought.
#[derive(Drop)]
pub struct Table {
    idents: BTreeMap<Ident, Option<Fixity>>,
    firsts: [bool; 256],
    ghost marked: { are_marked firsts idents.entries ≡ true },
}

/// Marks the first byte of an identifier.
fn mark(firsts: &mut [bool; 256], name: &Ident)
    ensures marked { is_marked firsts.new (ident_of name.now) ≡ true }
    ensures others { (x : Id) → is_marked firsts.old x ≡ true → is_marked firsts.new x ≡ true }
{
    match name.first() {
        Some(byte) => firsts[usize::from(*byte)] = true,
        None => {}
    }
}

/// Whether the first byte of an identifier is marked.
fn is_marked(firsts: &[bool; 256], name: &Ident) -> bool
    ensures { result ≡ is_marked firsts.now (ident_of name.now) }
{
    match name.first() {
        Some(byte) => firsts[usize::from(*byte)],
        None => true,
    }
}

impl Table {
    pub fn new(alloc: Global) -> Table
        ensures { (x : Id) → found x result.idents.entries ≡ None }
    {
        Table {
            idents: BTreeMap::new(alloc),
            firsts: [false; 256],
        }
    }

    pub fn get(&self, name: &Ident) -> Option<Fixity>
        ensures { result ≡ found (ident_of name.now) self.now.idents.entries }
    {
        if !is_marked(&self.firsts, name) {
            return None;
        }
        match self.idents.get(name) {
            Some(fixity) => *fixity,
            None => None,
        }
    }

    pub fn insert(&mut self, name: Ident, fixity: Option<Fixity>) -> Result<(), Memory>
        ensures after { OnOk result ((x : Id) → found x self.new.idents.entries ≡ where_same (order_of x (ident_of name)) fixity (found x self.old.idents.entries)) }
        ensures err { OnErr result (self.new.idents.entries ≡ self.old.idents.entries) }
    {
        mark(&mut self.firsts, &name);
        self.idents.insert(name, fixity)?;
        Ok(())
    }
}

//! What identifiers of one class mean, with a log by which bindings are undone.

ghost use Rattle.std.specs.Prelude.{◌≡◌, ◌<◌, ◌≤◌, ◌+◌, ◌-◌, ℕ, None, Some, drop, map, reverse, OnOk};
ghost use Rattle.std.specs.Option.{option_copied};
ghost use Rattle.std.specs.Vec.{vec_len};
ghost use Rattle.sml_tree.specs.Trees.{Id};
ghost use Rattle.sml_tree.specs.Views.{ident_of};
ghost use Rattle.sml_objects.specs.Maps.{by_order, order_of};
ghost use Rattle.sml_bases.specs.CodeStored.{stored_at};
ghost use Rattle.sml_bases.specs.Layers.{first_found};
ghost use Rattle.sml_scopes.specs.CodeTables.{bound, bound_at, found_since};

use sml_bases::environments::Entry;
use sml_bases::objects::Env;
use sml_lex::fault::Memory;
use sml_tree::bare::Ident;
use std::alloc::Global;
use std::collections::BTreeMap;
use std::rc::Rc;

/// What identifiers of one class mean, each with the number of structures that were open when it was bound, and a log of
/// what each binding hid.
#[derive(Drop)]
pub(crate) struct Table<X> {
    entries: BTreeMap<Ident, (usize, X)>,
    log: Vec<(Ident, Option<(usize, X)>)>,
}

impl<X: Drop> Table<X> {
    /// Nothing is bound.
    pub(crate) fn new(alloc: Global) -> Table<X>
        ensures bound { (x : Id) → bound result x ≡ None }
        ensures count { vec_len result.log ≡ 0 }
    {
        Table {
            entries: BTreeMap::new(alloc),
            log: Vec::new(alloc),
        }
    }

    /// How many bindings there are that were not undone.
    pub(crate) fn count(&self) -> usize
        ensures { result ≡ vec_len self.now.log }
    {
        self.log.len()
    }

    /// Binds an identifier, with so many structures open.
    pub(crate) fn bind(&mut self, name: &Ident, opened: usize, meaning: X) -> Result<(), Memory>
        ensures bound { OnOk result ((x : Id) → bound self.new x ≡ by_order (order_of x (ident_of name.now)) (bound self.old x) (Some (opened, meaning)) (bound self.old x)) }
        ensures before { OnOk result ((first : ℕ) → first ≤ vec_len self.old.log → (x : Id) → bound_at first self.new x ≡ bound_at first self.old x) }
        ensures count { OnOk result (vec_len self.new.log ≡ vec_len self.old.log + 1) }
    {
        let hidden = self.entries.insert(name.clone()?, (opened, meaning))?;
        self.log.push((name.clone()?, hidden))?;
        Ok(())
    }

    /// Undoes the last binding, if there is one.
    fn undo(&mut self) -> Result<(), Memory>
        ensures before { OnOk result ((first : ℕ) → first < vec_len self.old.log → (x : Id) → bound_at first self.new x ≡ bound_at first self.old x) }
        ensures count { OnOk result (vec_len self.new.log ≡ vec_len self.old.log - 1) }
    {
        let Some((name, hidden)) = self.log.pop() else {
            return Ok(());
        };
        match hidden {
            Some(meaning) => {
                self.entries.insert(name, meaning)?;
            }
            None => {
                self.entries.remove(&name);
            }
        }
        Ok(())
    }

    /// Undoes the bindings after the first ones.
    pub(crate) fn leave(&mut self, first: usize) -> Result<(), Memory>
        ensures before { OnOk result ((least : ℕ) → least ≤ first → least ≤ vec_len self.old.log → (x : Id) → bound_at least self.new x ≡ bound_at least self.old x) }
        ensures count { OnOk result (first ≤ vec_len self.old.log → vec_len self.new.log ≡ first) }
    {
        while self.log.len() > first {
            self.undo()?;
        }
        Ok(())
    }
}

impl<X: Entry> Table<X> {
    /// What a structure has that was opened since the identifier was bound, the last opened first, or else what it was
    /// bound to.
    pub(crate) fn find<'s>(&'s self, opened: &'s [Rc<Env>], name: &Ident) -> Option<&'s X>
        ensures { option_copied result ≡ found_since (stored_at X.held (ident_of name.now)) (map (λ e. e.value) opened.now) (bound self.now (ident_of name.now)) }
    {
        match self.entries.get(name) {
            None => found_from(opened, 0, name),
            Some((since, found)) => match found_from(opened, *since, name) {
                None => Some(found),
                Some(newer) => Some(newer),
            },
        }
    }
}

/// What the structures from a place on have, the last one first.
fn found_from<'s, X: Entry>(opened: &'s [Rc<Env>], first: usize, name: &Ident) -> Option<&'s X>
    ensures { option_copied result ≡ first_found (stored_at X.held (ident_of name.now)) (reverse (drop first (map (λ e. e.value) opened.now))) }
{
    let mut left = opened.len();
    while left > first {
        left -= 1;
        if let Some(found) = X::entries(&opened[left]).get(name) {
            return Some(found);
        }
    }
    None
}

//! A column of rules: the keys that their patterns have there. The rules that have one key, or none, are found without a
//! look at the others.

ghost use Rattle.std.specs.Prelude.{◌≡◌, List, [], ◌∷◌, ◌++◌, Option, length, IfOk, OnOk, IfSome};
ghost use Rattle.std.specs.Option.{option_map};
ghost use Rattle.sml_narrowing.specs.Plain.{Wild};
ghost use Rattle.sml_narrowing.specs.Views.{plain_of};
ghost use Rattle.sml_patterns.specs.CodeColumns as spec;
ghost use Rattle.sml_patterns.specs.CodeColumns.{key_in, key_at, kept, grouped, label_of, Holds};

use crate::keys::{Key, after, key_of};
use indexmap::IndexMap;
use sml_lex::fault::Memory;
use sml_narrowing::narrow::field;
use sml_narrowing::pattern::Pattern;
use sml_tree::bare::Ident;
use std::alloc::Global;

/// What stands at a label of rows, or the patterns themselves where there is no label. Of the patterns noted, those with one
/// key that stand after as many without a key are kept together, and those without a key in a list of their own.
#[derive(Drop)]
pub struct Column {
    alloc: Global,
    label: Option<Ident>,
    known: IndexMap<Key, Vec<usize>>,
    others: Vec<usize>,
}

impl Column {
    pub fn new(alloc: Global, label: Option<Ident>) -> Column
        ensures { Holds [] result }
    {
        Column {
            alloc,
            label,
            known: IndexMap::new(alloc),
            others: Vec::new(alloc),
        }
    }

    /// The key of a pattern in this column, if it has one there.
    pub fn key(&self, any: &Pattern, pattern: &Pattern) -> Result<Option<Key>, Memory>
        requires { plain_of any.now ≡ Wild }
        ensures { IfOk result (λ key. option_map key_in key ≡ key_at (label_of self.now) (plain_of pattern.now)) }
    {
        match &self.label {
            None => key_of(self.alloc, pattern),
            Some(label) => match pattern {
                Pattern::Row { labels, fields } => {
                    key_of(self.alloc, field(any, labels, fields, label))
                }
                _ => Ok(None),
            },
        }
    }

    /// Notes the next pattern's key, and its index.
    pub fn note(&mut self, key: Option<Key>, index: usize) -> Result<(), Memory>
        ensures label { OnOk result (self.new.label ≡ self.old.label) }
        ensures holds { (keys : List (Option spec.Key)) → Holds keys self.old → index ≡ length keys → OnOk result (Holds (keys ++ option_map key_in key ∷ []) self.new) }
    {
        match key {
            Some(key) => self.note_key(key, index),
            None => {
                self.others.push(index)?;
                Ok(())
            }
        }
    }

    fn note_key(&mut self, key: Key, index: usize) -> Result<(), Memory>
        ensures label { OnOk result (self.new.label ≡ self.old.label) }
        ensures holds { (keys : List (Option spec.Key)) → Holds keys self.old → index ≡ length keys → OnOk result (Holds (keys ++ Some (key_in key) ∷ []) self.new) }
    {
        let mut key = key;
        key.group = self.others.len();
        let mut indices = match self.known.swap_remove(&key) {
            Some(indices) => indices,
            None => Vec::new(self.alloc),
        };
        indices.push(index)?;
        self.known.insert(key, indices)?;
        Ok(())
    }

    /// The indices of the patterns with this key that stand after so many without one.
    fn same<'a>(&'a self, key: &Key, group: usize) -> Result<&'a [usize], Memory>
        ensures { (keys : List (Option spec.Key)) → Holds keys self.now → IfOk result (λ indices. indices.now ≡ grouped 0 0 keys (key_in key.now) group) }
    {
        let key = after(self.alloc, key, group)?;
        match self.known.get(&key) {
            Some(indices) => Ok(indices.as_slice()),
            None => Ok(&[]),
        }
    }

    /// The indices of the patterns with this key or none, unless there are more than so many.
    pub fn candidates(&self, key: &Key, most: usize) -> Result<Option<Vec<usize>>, Memory>
        ensures { (keys : List (Option spec.Key)) → Holds keys self.now → IfOk result (λ r. IfSome r (λ indices. indices.items ≡ kept 0 keys (key_in key.now))) }
    {
        let mut found = Vec::new(self.alloc);
        for group in 0..self.others.len() {
            let same = self.same(key, group)?;
            if same.len() > most || found.len() > most {
                return Ok(None);
            }
            found.extend_from_slice(same)?;
            found.push(self.others[group])?;
        }
        let same = self.same(key, self.others.len())?;
        if same.len() > most || found.len() > most {
            return Ok(None);
        }
        found.extend_from_slice(same)?;
        Ok(Some(found))
    }
}

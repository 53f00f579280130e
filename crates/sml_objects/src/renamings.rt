//! One-to-one maps of names.

ghost use Rattle.std.specs.Prelude.{◌≡◌, OnOk, OnErr};
ghost use Rattle.sml_objects.specs.Exchanges.{renamed_by, exchanged, IsRenaming};
ghost use Rattle.sml_objects.specs.Initial.{Name, naming, made};
ghost use Rattle.sml_objects.specs.Views.{name_of, maker_of};

use crate::objects::{MadeName, TyName};
use crate::renames::NameMap;
use indexmap::IndexMap;
use sml_lex::fault::Memory;
use std::alloc::Global;

/// A one-to-one map of names that keeps what a name carries, and fixes the initial names.
#[derive(Drop)]
pub struct Renaming {
    pairs: IndexMap<TyName, TyName>,
    ghost one_to_one: { ∥ IsRenaming (renamed_by pairs.entries) ∥₁ },
}

impl Renaming {
    ghost use Rattle.sml_objects.specs.Renamings.{renames};

    /// The map that changes no name.
    pub fn new(alloc: Global) -> Renaming
        ensures { (n : Name) → renames result n ≡ n }
    {
        Renaming {
            pairs: IndexMap::new(alloc),
        }
    }

    /// Lets two names that are alike change places, before the map.
    pub fn exchange(&mut self, first: MadeName, second: MadeName) -> Result<(), Memory>
        requires unit { first.unit ≡ second.unit }
        requires arity { first.arity ≡ second.arity }
        requires equality { first.equality ≡ second.equality }
        ensures ok { OnOk result ((n : Name) → renames self.new n ≡ renames self.old (exchanged naming (made (maker_of first.unit) first.number first.arity first.equality) (made (maker_of second.unit) second.number second.arity second.equality) n)) }
        ensures err { OnErr result ((n : Name) → renames self.new n ≡ renames self.old n) }
    {
        let first = TyName::Made(first);
        let second = TyName::Made(second);
        let of_first = self.name(first);
        let of_second = self.name(second);
        self.pairs.reserve(2)?;
        let _ = self.pairs.insert(first, of_second).unwrap();
        let _ = self.pairs.insert(second, of_first).unwrap();
        Ok(())
    }

    /// What stands for the name.
    pub fn name(&self, name: TyName) -> TyName
        ensures { name_of result ≡ renames self.now (name_of name) }
    {
        match self.pairs.get(&name) {
            Some(other) => *other,
            None => name,
        }
    }
}

impl NameMap for Renaming {
    ghost use Rattle.sml_objects.specs.Renamings.{renames};

    ghost gives = { renames };

    fn apply(&self, name: TyName) -> TyName {
        self.name(name)
    }
}

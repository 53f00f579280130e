//! Names that are shared (the Definition, section 5.7, rule 78, and appendix A).

ghost use Rattle.std.specs.Prelude.{◌≡◌, ℕ, suc};
ghost use Rattle.indexmap.specs.IndexMap.{index_map_len};
ghost use Rattle.sml_objects.specs.Objects as O;
ghost use Rattle.sml_objects.specs.Views.{name_of};
ghost use Rattle.sml_type_maps.specs.Mapped.{last_of, names_of};

use crate::bound::{Table, bound_name, collect, table_of};
use crate::draft::add_names;
use indexmap::{IndexMap, IndexSet};
use sml_bases::objects::{Env, Sig, TypeStr};
use sml_envs::comparisons::{same_function, same_identifiers};
use sml_lex::fault::{Code, Memory, Place};
use sml_objects::equality::has_equality;
use sml_objects::objects::{MlType, Scheme, TyName};
use sml_type_maps::mapping::{Image, Mapping, mapped_function};
use sml_type_maps::new_names::NewNames;
use sml_types::fault::{CoreFault, plain_fault};
use std::alloc::Global;
use std::rc::Rc;

/// Bound names of which some are joined to one.
#[derive(Drop)]
pub(crate) struct Joins {
    alloc: Global,
    bound: IndexSet<TyName>,
    /// For a name that was joined to another, a name that stands for it.
    others: IndexMap<TyName, TyName>,
    /// The constructors of the names that stand for themselves.
    constructors: Table,
    /// Whether some name doesn't admit equality that was joined to one that does.
    give_equality: bool,
}

impl Mapping for Joins {
    ghost bound_gives = { λ _ k. O.bound k };

    ghost free_gives = { λ _ v. O.free v };

    ghost name_gives = { λ s n ts. O.app (O.name (last_of (suc (index_map_len s.others)) (names_of s.others.entries) n)) ts };

    fn bound(&self, _alloc: Global, _variable: u32) -> Result<Option<Rc<MlType>>, Memory> {
        Ok(None)
    }

    fn free(&self, _alloc: Global, _variable: u32) -> Result<Option<Rc<MlType>>, Memory> {
        Ok(None)
    }

    fn name(&self, name: TyName) -> Image<'_> {
        match self.others.get(&name) {
            None => Image::Same,
            Some(other) => Image::Name(self.last(*other)),
        }
    }
}

impl Joins {
    /// The bound names of an environment, none of them joined.
    pub(crate) fn new(alloc: Global, bound: IndexSet<TyName>, env: &Env) -> Result<Joins, Memory> {
        let constructors = table_of(alloc, &bound, env)?;
        Ok(Joins {
            alloc,
            bound,
            others: IndexMap::new(alloc),
            constructors,
            give_equality: false,
        })
    }

    /// Adds what a specification gives.
    pub(crate) fn add(&mut self, part: &Sig) -> Result<(), Memory> {
        add_names(&mut self.bound, &part.names)?;
        collect(&self.bound, &part.env, &mut self.constructors)
    }

    /// Whether some name doesn't admit equality where the one that stands for it does.
    pub(crate) fn give_equality(&self) -> bool {
        self.give_equality
    }

    /// The name that stands for a name in the end.
    fn last(&self, name: TyName) -> TyName
        ensures { name_of result ≡ last_of (index_map_len self.now.others) (names_of self.now.others.entries) (name_of name) }
    {
        let mut last = name;
        for _ in 0..self.others.len() {
            match self.others.get(&last) {
                Some(other) => last = *other,
                None => break,
            }
        }
        last
    }

    /// The same. Finding it again, from any name on the way to it, costs nothing.
    fn found(&mut self, name: TyName) -> Result<TyName, Memory> {
        let last = self.last(name);
        let mut next = name;
        for _ in 0..self.others.len() {
            if next == last {
                break;
            }
            match self.others.insert(next, last)? {
                Some(other) => next = other,
                None => break,
            }
        }
        Ok(last)
    }

    /// The bound name that a type structure has, or N3.
    pub(crate) fn name_of(&self, ty: &TypeStr, place: Place) -> Result<TyName, CoreFault> {
        match bound_name(&self.bound, &ty.function) {
            Some(name) => Ok(name),
            None => Err(plain_fault(Code::N3, place)),
        }
    }

    /// Joins a name, whose place it is, to an earlier one: a new name stands for both. N6 or N7.
    pub(crate) fn join(
        &mut self,
        new: &mut NewNames,
        earlier: TyName,
        later: TyName,
        place: Place,
    ) -> Result<(), CoreFault> {
        let one = self.found(earlier)?;
        let other = self.found(later)?;
        if one == other {
            return Ok(());
        }
        if arity_of(one) != arity_of(other) {
            return Err(plain_fault(Code::N6, place));
        }
        let joined = new.make(arity_of(one), has_equality(one) || has_equality(other))?;
        self.join_constructors(one, other, joined, place)?;
        new.carry_first(joined, one, other)?;
        if has_equality(one) != has_equality(other) {
            self.give_equality = true;
        }
        self.others.insert(one, joined)?;
        self.others.insert(other, joined)?;
        self.bound.insert(joined)?;
        Ok(())
    }

    /// Gives the constructors of two names to the one that stands for both.
    fn join_constructors(
        &mut self,
        one: TyName,
        other: TyName,
        joined: TyName,
        place: Place,
    ) -> Result<(), CoreFault> {
        let constructors = match (self.constructors.get(&one), self.constructors.get(&other)) {
            (None, None) => return Ok(()),
            (Some(ones), None) => ones.clone()?,
            (None, Some(others)) => others.clone()?,
            (Some(ones), Some(others)) => {
                if !same_identifiers(ones, others) {
                    return Err(plain_fault(Code::N7, place));
                }
                ones.clone()?
            }
        };
        self.constructors.insert(joined, constructors)?;
        Ok(())
    }

    /// Shares two type constructors of structures, unless they are equal already.
    pub(crate) fn share(
        &mut self,
        new: &mut NewNames,
        earlier: &Rc<Scheme>,
        later: &Rc<Scheme>,
        place: Place,
    ) -> Result<(), CoreFault> {
        let one = bound_name(&self.bound, earlier);
        let other = bound_name(&self.bound, later);
        match (one, other) {
            (Some(one), Some(other)) => self.join(new, one, other, place),
            _ => {
                let earlier = mapped_function(self.alloc, earlier, self)?;
                let later = mapped_function(self.alloc, later, self)?;
                if same_function(&earlier, &later) {
                    Ok(())
                } else {
                    Err(plain_fault(Code::N3, place))
                }
            }
        }
    }

    /// The bound names that stand for themselves.
    pub(crate) fn left(&self) -> Result<IndexSet<TyName>, Memory> {
        let mut left = IndexSet::new(self.alloc);
        for name in &self.bound {
            if !self.others.contains_key(name) {
                left.insert(*name)?;
            }
        }
        Ok(left)
    }

    /// Whether no names were joined.
    pub(crate) fn is_empty(&self) -> bool {
        self.others.is_empty()
    }

    /// Makes each joined name's last one known at once.
    pub(crate) fn shorten(&mut self) -> Result<(), Memory> {
        let mut names = Vec::new(self.alloc);
        for (name, _) in &self.others {
            names.push(*name)?;
        }
        for name in names.iter().rev() {
            self.found(*name)?;
        }
        Ok(())
    }
}

fn arity_of(name: TyName) -> u32 {
    match name {
        TyName::Initial(_) => 0,
        TyName::Made(made) => made.arity,
    }
}

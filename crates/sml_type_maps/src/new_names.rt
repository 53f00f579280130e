//! New type names of a unit.

ghost use Rattle.std.specs.Prelude.{◌≡◌, ◌≤◌, ◌^◌, [], IfOk, None, OnErr, OnOk, suc, true};
ghost use Rattle.std.specs.Option.{option_map, option_or};
ghost use Rattle.sml_objects.specs.Initial.{Name, made};
ghost use Rattle.sml_objects.specs.Views.{maker_of, name_of, schemes_of};
ghost use Rattle.sml_bases.specs.declared.objects.Basis.{out-Basis};
ghost use Rattle.sml_core_rules.specs.Objects.{identifiers};
ghost use Rattle.sml_type_maps.specs.NewNames.{carried_of, carries, carries_too, idents_of, is_new, like, next_after, listed as listed_at, listed_by, unless_none};

use indexmap::IndexMap;
use sml_bases::objects::{Basis, Carried, Constructors};
use sml_lex::fault::Memory;
use sml_objects::equality::has_equality;
use sml_objects::objects::{MadeName, TyName, UnitId};
use sml_tree::bare::Ident;
use std::alloc::Global;
use std::rc::Rc;

/// The names that a unit makes over a basis: the next one has this number.
#[derive(Drop)]
pub struct NewNames<'a> {
    alloc: Global,
    basis: &'a Basis,
    pub unit: UnitId,
    pub next: u32,
    /// What those carry that have constructors, by number.
    carried: IndexMap<u32, Rc<Vec<Ident>>>,
}

impl<'a> NewNames<'a> {
    /// No name made yet. The first one gets the number after those of the basis.
    pub fn new(alloc: Global, basis: &'a Basis) -> NewNames<'a>
        ensures basis { result.basis ≡ basis.entry }
        ensures unit { result.unit ≡ (out-Basis basis.now).unit }
        ensures next { result.next ≡ (out-Basis basis.now).count }
        ensures carried { result.carried.entries ≡ [] }
        ensures carries { (n : Name) → is_new result n ≡ true → carries result n ≡ None }
    {
        NewNames {
            alloc,
            basis,
            unit: basis.unit,
            next: basis.count,
            carried: IndexMap::new(alloc),
        }
    }

    /// A new name. A number that no `u32` holds counts as want of memory.
    pub fn make(&mut self, arity: u32, equality: bool) -> Result<TyName, Memory>
        ensures made { IfOk result (λ n. name_of n ≡ made (maker_of self.old.unit) self.old.next arity equality) }
        ensures next { OnOk result (self.new.next ≡ suc self.old.next) }
        ensures err { OnErr result ((2 ^ 32 ≤ suc self.old.next) × (self.new.next ≡ self.old.next)) }
        ensures basis { self.new.basis ≡ self.old.basis }
        ensures unit { self.new.unit ≡ self.old.unit }
        ensures carried { self.new.carried ≡ self.old.carried }
        ensures carries { (n : Name) → carries self.new n ≡ carries self.old n }
    {
        let number = self.next;
        match number.checked_add(1) {
            Some(next) => self.next = next,
            None => return Err(Memory),
        }
        Ok(TyName::Made(MadeName {
            unit: self.unit,
            number,
            arity,
            equality,
        }))
    }

    /// A new name with what a name carries. An initial one stays.
    pub fn make_like(&mut self, name: TyName) -> Result<TyName, Memory>
        ensures made { IfOk result (λ n. name_of n ≡ like self.old (name_of name)) }
        ensures next { OnOk result (self.new.next ≡ next_after self.old (name_of name)) }
        ensures carried { OnOk result ((n : Name) → carries self.new n ≡ carries_too self.old (like self.old (name_of name)) (carries self.old (name_of name)) n) }
        ensures err { OnErr result ((n : Name) → carries self.new n ≡ carries self.old n) }
        ensures basis { self.new.basis ≡ self.old.basis }
        ensures unit { self.new.unit ≡ self.old.unit }
    {
        match name {
            TyName::Initial(_) => Ok(name),
            TyName::Made(MadeName { arity, .. }) => {
                let made = self.make(arity, has_equality(name))?;
                self.carry(made, self.carried(name)?)?;
                Ok(made)
            }
        }
    }

    /// Lets a name carry these constructors.
    pub fn carry_constructors(
        &mut self,
        name: TyName,
        constructors: &Constructors,
    ) -> Result<(), Memory>
        ensures carried { OnOk result ((n : Name) → carries self.new n
            ≡ carries_too self.old (name_of name) (unless_none (identifiers (schemes_of constructors.now.entries))) n) }
        ensures err { OnErr result ((n : Name) → carries self.new n ≡ carries self.old n) }
        ensures basis { self.new.basis ≡ self.old.basis }
        ensures unit { self.new.unit ≡ self.old.unit }
        ensures next { self.new.next ≡ self.old.next }
    {
        if constructors.is_empty() {
            return Ok(());
        }
        let mut identifiers = Vec::new(self.alloc);
        for (identifier, _) in constructors {
            identifiers.push(identifier.clone()?)?;
        }
        let identifiers = Rc::new(self.alloc, identifiers)?;
        self.carry(name, Some(identifiers))
    }

    /// Lets a name carry what the first of two others that has constructors does.
    pub fn carry_first(&mut self, name: TyName, one: TyName, other: TyName) -> Result<(), Memory>
        ensures carried { OnOk result ((n : Name) → carries self.new n
            ≡ carries_too self.old (name_of name) (option_or (carries self.old (name_of one)) (carries self.old (name_of other))) n) }
        ensures err { OnErr result ((n : Name) → carries self.new n ≡ carries self.old n) }
        ensures basis { self.new.basis ≡ self.old.basis }
        ensures unit { self.new.unit ≡ self.old.unit }
        ensures next { self.new.next ≡ self.old.next }
    {
        let carried = match self.carried(one)? {
            Some(identifiers) => Some(identifiers),
            None => self.carried(other)?,
        };
        self.carry(name, carried)
    }

    fn carry(&mut self, name: TyName, carried: Carried) -> Result<(), Memory>
        ensures carried { OnOk result ((n : Name) → carries self.new n ≡ carries_too self.old (name_of name) (carried_of carried) n) }
        ensures err { OnErr result ((n : Name) → carries self.new n ≡ carries self.old n) }
        ensures basis { self.new.basis ≡ self.old.basis }
        ensures unit { self.new.unit ≡ self.old.unit }
        ensures next { self.new.next ≡ self.old.next }
    {
        if let (TyName::Made(made), Some(identifiers)) = (name, carried) {
            self.carried.insert(made.number, identifiers)?;
        }
        Ok(())
    }

    /// What a name carries.
    pub fn carried(&self, name: TyName) -> Result<Carried, Memory>
        ensures { IfOk result (λ o. carried_of o ≡ carries self.now (name_of name)) }
    {
        match name {
            TyName::Initial(_) => Ok(None),
            TyName::Made(made) => {
                let found = if made.unit == self.unit && self.basis.count <= made.number {
                    self.carried.get(&made.number)
                } else {
                    earlier(self.basis, made)
                };
                match found {
                    Some(identifiers) => Ok(Some(identifiers.clone()?)),
                    None => Ok(None),
                }
            }
        }
    }
}

/// The constructors that a name of an earlier declaration carries: one of the unit, or one that a unit made that it needs.
fn earlier(basis: &Basis, name: MadeName) -> Option<&Rc<Vec<Ident>>>
    ensures { option_map (λ x. idents_of x.now) result ≡ listed_by basis.now (maker_of name.unit) name.number }
{
    if basis.unit == name.unit {
        return listed(&basis.names, name.number);
    }
    for needed in &basis.below {
        if needed.unit == name.unit {
            if let Some(found) = listed(&needed.names, name.number) {
                return Some(found);
            }
        }
    }
    None
}

fn listed(names: &[Carried], number: u32) -> Option<&Rc<Vec<Ident>>>
    ensures { option_map (λ x. idents_of x.now) result ≡ listed_at names.now number }
{
    match names.get(number as usize) {
        Some(Some(identifiers)) => Some(identifiers),
        _ => None,
    }
}

//! The fixities in force, and the scopes that directives don't leave.

ghost use Rattle.std.specs.Prelude.{◌≡◌, ℕ, ◌<◌, Option, Some, None, List, [], ◌∷◌, map, OnOk, OnErr, IfOk, IfErr, ◌↔◌, IfSome};
ghost use Rattle.std.specs.List.{list_any};
ghost use Rattle.sml_tree.specs.Trees.{Id};
ghost use Rattle.sml_tree.specs.Views.{ident_of};
ghost use Rattle.sml_fixity.specs.Scopes.{Map, here, outer, is_scope, changed, changed_all, fixity_of, IsLevel, Gives, initial_map};

use crate::table::Table;
use sml_lex::fault::Memory;
use sml_tree::bare::Ident;
use std::alloc::{AllocError, AllocFailed, Global};
use std::rc::Rc;

/// The side to which operators of one level group.
#[derive(Clone, Copy, PartialEq, Eq, Drop, Debug)]
pub enum Side {
    Left,
    Right,
}

/// A level from 0 to 9, the tightest, and a side.
#[derive(Clone, Copy, PartialEq, Eq, Drop, Debug)]
pub struct Fixity {
    pub level: u8,
    pub side: Side,
}

/// The word that begins a directive (the Definition, section 2.6).
#[derive(Clone, Copy, PartialEq, Eq, Drop)]
pub enum Directive {
    /// `infix`, which groups to the left.
    Infix,
    /// `infixr`, which groups to the right.
    Infixr,
    Nonfix,
}

/// Why a directive is refused.
#[derive(Clone, Copy, PartialEq, Eq, Drop, Debug)]
pub enum DirectiveFault {
    /// F3: the level isn't one digit.
    Level,
    Memory,
}

impl From<Memory> for DirectiveFault {
    ghost use Rattle.sml_fixity.specs.declared.scopes.DirectiveFault.TheVariants.{Memory};

    ghost from_gives = { λ _ e. e ≡ Memory };

    fn from(_error: Memory) -> DirectiveFault {
        DirectiveFault::Memory
    }
}

/// What leaving a scope goes back over.
#[derive(Drop)]
enum Change {
    Scope,
    Restore(Ident, Option<Fixity>),
}

/// The fixities in force, and the changes since each open scope began.
#[derive(Drop)]
pub struct Fixities {
    table: Table,
    changes: Vec<Change>,
}

/// The level that a text gives: one digit, or 0 where nothing is written.
fn read_level(text: &[u8]) -> Option<u8>
    ensures some { IfSome result (λ d. IsLevel text.now d) }
    ensures none { result ≡ None → (d : ℕ) → ¬ IsLevel text.now d }
{
    if text.is_empty() {
        return Some(0);
    }
    if text.len() != 1 || text[0] < b'0' || text[0] > b'9' {
        return None;
    }
    Some(text[0] - b'0')
}

/// Whether a scope was opened in these changes and not left.
fn has_scope(changes: &[Change]) -> bool
    ensures { result ≡ list_any is_scope changes.now }
{
    for i in (0..changes.len()).rev() {
        match changes[i] {
            Change::Scope => return true,
            Change::Restore(_, _) => {}
        }
    }
    false
}

impl Fixities {
    /// No identifier has a fixity, and no scope is open.
    fn new(alloc: Global) -> Fixities
        ensures none { (x : Id) → here result x ≡ None }
        ensures no_change { result.changes.items ≡ [] }
    {
        Fixities {
            table: Table::new(alloc),
            changes: Vec::new(alloc),
        }
    }

    /// The fixity that the identifier has here, if any.
    pub fn lookup(&self, name: &Ident) -> Option<Fixity>
        ensures { result ≡ here self.now (ident_of name.now) }
    {
        self.table.get(name)
    }

    /// Opens a scope.
    pub fn enter(&mut self) -> Result<(), Memory>
        ensures same { here self.new ≡ here self.old }
        ensures opened { OnOk result (outer self.new ≡ here self.old ∷ outer self.old) }
        ensures err { OnErr result (outer self.new ≡ outer self.old) }
    {
        self.changes.push(Change::Scope)?;
        Ok(())
    }

    /// Leaves the innermost scope: the fixities are those at its beginning. Where none is open they stay. After `Memory`
    /// some of them may have been brought back, and others not.
    pub fn leave(&mut self) -> Result<(), Memory>
        ensures scope { OnOk result ((m : Map) (ms : List Map) → outer self.old ≡ m ∷ ms → (here self.new ≡ m) × (outer self.new ≡ ms)) }
        ensures none { OnOk result (outer self.old ≡ [] → (here self.new ≡ here self.old) × (outer self.new ≡ [])) }
    {
        if !has_scope(&self.changes) {
            return Ok(());
        }
        self.unwind()
    }

    /// Goes back over the changes of the innermost scope.
    fn unwind(&mut self) -> Result<(), Memory>
        ensures { OnOk result ((m : Map) (ms : List Map) → outer self.old ≡ m ∷ ms → (here self.new ≡ m) × (outer self.new ≡ ms)) }
    {
        while let Some(change) = self.changes.pop() {
            match change {
                Change::Scope => return Ok(()),
                Change::Restore(name, fixity) => self.put(name, fixity)?,
            }
        }
        Ok(())
    }

    fn put(&mut self, name: Ident, fixity: Option<Fixity>) -> Result<(), Memory>
        ensures after { OnOk result (here self.new ≡ changed (here self.old) (ident_of name) fixity) }
        ensures err { OnErr result (here self.new ≡ here self.old) }
        ensures changes { self.new.changes ≡ self.old.changes }
    {
        self.table.insert(name, fixity)?;
        Ok(())
    }

    /// Gives an identifier a fixity, or none, in the innermost scope.
    fn set(&mut self, name: &Ident, fixity: Option<Fixity>) -> Result<(), Memory>
        ensures after { OnOk result (here self.new ≡ changed (here self.old) (ident_of name.now) fixity) }
        ensures scopes { outer self.new ≡ outer self.old }
    {
        let before = self.lookup(name);
        let key = name.clone()?;
        let kept = name.clone()?;
        self.changes.push(Change::Restore(kept, before))?;
        self.put(key, fixity)
    }

    fn set_all(&mut self, names: &[Ident], fixity: Option<Fixity>) -> Result<(), Memory>
        ensures after { OnOk result (here self.new ≡ changed_all (here self.old) (map ident_of names.now) fixity) }
        ensures scopes { outer self.new ≡ outer self.old }
    {
        for name in names {
            self.set(name, fixity)?;
        }
        Ok(())
    }

    /// One directive, with the text of its level, which is empty where none is written, and its identifiers.
    /// `nonfix` has no level. After `Level` nothing has changed; after `Memory` some of the identifiers may have
    /// their new fixity, and others not.
    pub fn with(
        &mut self,
        directive: Directive,
        level: &[u8],
        names: &[Ident],
    ) -> Result<(), DirectiveFault>
        ensures after { OnOk result ((fixity : Option Fixity) × Gives directive level.now fixity × (here self.new ≡ changed_all (here self.old) (map ident_of names.now) fixity)) }
        ensures scopes { outer self.new ≡ outer self.old }
        ensures fault { IfErr result (λ e. e ≡ DirectiveFault.Level → ((fixity : Option Fixity) → ¬ Gives directive level.now fixity) × (here self.new ≡ here self.old)) }
    {
        let side = match directive {
            Directive::Infix => Side::Left,
            Directive::Infixr => Side::Right,
            Directive::Nonfix => {
                self.set_all(names, None)?;
                return Ok(());
            }
        };
        match read_level(level) {
            Some(level) => {
                self.set_all(names, Some(Fixity { level, side }))?;
                Ok(())
            }
            None => Err(DirectiveFault::Level),
        }
    }

    fn give(&mut self, alloc: Global, name: &[u8], level: u8, side: Side) -> Result<(), Memory>
        ensures after { OnOk result (here self.new ≡ changed (here self.old) name.now (Some (fixity_of level side))) }
        ensures changes { self.new.changes ≡ self.old.changes }
    {
        let ident = Rc::new(alloc, Vec::from_slice(alloc, name)?)?;
        self.put(ident, Some(Fixity { level, side }))
    }

    /// The fixities of the initial basis (the Definition, appendix C), with no scope open.
    pub fn initial(alloc: Global) -> Result<Fixities, Memory>
        ensures { IfOk result (λ f. (here f ≡ initial_map) × (outer f ≡ [])) }
    {
        let mut fixities = Fixities::new(alloc);
        fixities.give(alloc, b"*", 7, Side::Left)?;
        fixities.give(alloc, b"/", 7, Side::Left)?;
        fixities.give(alloc, b"div", 7, Side::Left)?;
        fixities.give(alloc, b"mod", 7, Side::Left)?;
        fixities.give(alloc, b"+", 6, Side::Left)?;
        fixities.give(alloc, b"-", 6, Side::Left)?;
        fixities.give(alloc, b"^", 6, Side::Left)?;
        fixities.give(alloc, b"::", 5, Side::Right)?;
        fixities.give(alloc, b"@", 5, Side::Right)?;
        fixities.give(alloc, b"=", 4, Side::Left)?;
        fixities.give(alloc, b"<>", 4, Side::Left)?;
        fixities.give(alloc, b">", 4, Side::Left)?;
        fixities.give(alloc, b">=", 4, Side::Left)?;
        fixities.give(alloc, b"<", 4, Side::Left)?;
        fixities.give(alloc, b"<=", 4, Side::Left)?;
        fixities.give(alloc, b":=", 3, Side::Left)?;
        fixities.give(alloc, b"o", 3, Side::Left)?;
        fixities.give(alloc, b"before", 0, Side::Left)?;
        Ok(fixities)
    }
}

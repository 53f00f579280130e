//! What the phrases of a derivation are to the sequences that they stand in.

ghost use Rattle.std.specs.Prelude.{◌≡◌, ℕ, true, false, [], ◌∷◌, Option, Some, None, if◌then◌else◌, map, reverse, IfOk};
ghost use Rattle.sml_reach.specs.Founds as spec;
ghost use Rattle.sml_fixity.specs.ItemNames.{short, after_op, long, phrase, name_of};
ghost use Rattle.sml_reach.specs.Founds.{within, atom, atom_of, found_of};
ghost use Rattle.sml_reach.specs.Events.{text_at};

use crate::names::Names;
use crate::place::text;
use crate::sense::Sense;
use sml_fixity::sequences::Item;
use sml_lex::fault::Memory;
use sml_lex::token::Token;
use std::alloc::Global;
use std::mem;

/// An atomic phrase of a sequence: what it is to the operators, the number of its first token, and the items of the
/// sequence of patterns that it has in round brackets, if it is that.
#[derive(Drop)]
pub struct Atom {
    pub item: Item,
    pub token: usize,
    pub inner: Vec<Item>,
}

/// What a phrase is to the sequence that it stands in. Atomic phrases go from the last to the first. Each open bracket of a
/// unit has two of these in memory, so what is large and rare stands in a box.
#[derive(Drop)]
pub enum Found {
    Nothing,
    /// A token, by its number.
    Word(usize),
    /// An atomic phrase without patterns in round brackets: what it is to the operators, and its first token.
    Plain(Item, usize),
    One(Box<Atom>),
    /// Some atomic phrases, and whether a type stands after them.
    Several(Vec<Atom>, bool),
    /// The items of a sequence of patterns without a type.
    Inner(Vec<Item>),
    /// The same of a sequence of one.
    OneInner(Item),
    /// A directive: the token of its level, and its identifiers.
    Levelled(usize, Vec<Atom>),
    /// The same without a level.
    Directed(Vec<Atom>),
}

/// What the first parts of a phrase are.
#[derive(Drop)]
pub struct Parts {
    pub first: Found,
    pub second: Found,
    pub third: Found,
    pub fourth: Found,
}

/// Answers what a phrase is, by what its parts are.
#[derive(Drop)]
pub struct Finder<'a> {
    pub alloc: Global,
    pub unit: &'a [u8],
    pub tokens: &'a [Token],
}

fn word_in(found: &Found) -> usize
    ensures { result ≡ spec.word_in (found_of found.now) }
{
    match found {
        Found::Word(token) => *token,
        _ => 0,
    }
}

fn level_in(found: &Found) -> Option<usize>
    ensures { result ≡ spec.level_in (found_of found.now) }
{
    match found {
        Found::Word(token) => Some(*token),
        _ => None,
    }
}

fn is_word(found: &Found) -> bool
    ensures { result ≡ spec.is_word (found_of found.now) }
{
    match found {
        Found::Word(_) => true,
        _ => false,
    }
}

pub fn atom_in(alloc: Global, found: Found) -> Atom
    ensures { atom_of result ≡ spec.atom_in (found_of found) }
{
    match found {
        Found::Plain(item, token) => Atom {
            item,
            token,
            inner: Vec::new(alloc),
        },
        Found::One(atom) => Box::into_inner(atom),
        _ => Atom {
            item: Item::Phrase,
            token: 0,
            inner: Vec::new(alloc),
        },
    }
}

pub fn atoms_in(alloc: Global, found: Found) -> Vec<Atom>
    ensures { map atom_of (reverse result.items) ≡ spec.atoms_in (found_of found) }
{
    match found {
        Found::Several(atoms, _) => atoms,
        _ => Vec::new(alloc),
    }
}

fn typed_in(found: &Found) -> bool
    ensures { result ≡ spec.typed_in (found_of found.now) }
{
    match found {
        Found::Several(_, typed) => *typed,
        _ => false,
    }
}

fn inner_in(alloc: Global, found: Found) -> Result<Vec<Item>, Memory>
    ensures { IfOk result (λ items. map name_of items.items ≡ spec.inner_in (found_of found)) }
{
    match found {
        Found::Inner(items) => Ok(items),
        Found::OneInner(item) => {
            let mut items = Vec::new(alloc);
            items.push(item)?;
            Ok(items)
        }
        _ => Ok(Vec::new(alloc)),
    }
}

/// The items of a sequence of patterns, none where it is something else.
fn only_inner(alloc: Global, found: Found) -> Found
    ensures { found_of result ≡ within (spec.inner_in (found_of found)) }
{
    match found {
        Found::Inner(items) => Found::Inner(items),
        Found::OneInner(item) => Found::OneInner(item),
        _ => Found::Inner(Vec::new(alloc)),
    }
}

/// The item after `op`.
fn with_op(item: Item) -> Item
    ensures { name_of result ≡ spec.with_op (name_of item) }
{
    match item {
        Item::Short(_) => Item::Op,
        Item::Op => Item::Op,
        Item::Long => Item::Long,
        Item::Phrase => Item::Phrase,
    }
}

/// The atomic phrase before those of the rest.
pub fn joined(alloc: Global, first: Atom, rest: Found) -> Result<Found, Memory>
    ensures { let found = found_of rest in
        IfOk result (λ r. found_of r ≡ spec.several (atom_of first ∷ spec.atoms_in found) (spec.typed_in found)) }
{
    let typed = typed_in(&rest);
    let mut atoms = atoms_in(alloc, rest);
    atoms.push(first)?;
    Ok(Found::Several(atoms, typed))
}

/// The atomic phrase before those of the rest, if that is a sequence.
pub fn before(first: Atom, rest: Found) -> Result<Found, Memory>
    ensures { IfOk result (λ r. found_of r ≡ spec.before (atom_of first) (found_of rest)) }
{
    match rest {
        Found::Several(mut atoms, typed) => {
            atoms.push(first)?;
            Ok(Found::Several(atoms, typed))
        }
        _ => Ok(Found::Nothing),
    }
}

/// A sequence whose first phrase begins at this token.
fn from(token: usize, found: Found) -> Result<Found, Memory>
    ensures { IfOk result (λ r. found_of r ≡ spec.from token (found_of found)) }
{
    match found {
        Found::Several(mut atoms, typed) => match atoms.pop() {
            Some(first) => {
                atoms.push(Atom {
                    item: first.item,
                    token,
                    inner: first.inner,
                })?;
                Ok(Found::Several(atoms, typed))
            }
            None => Ok(Found::Nothing),
        },
        _ => Ok(Found::Nothing),
    }
}

/// What a part is; nothing is left in its place. So parts are let go where all of them are.
fn taken(part: &mut Found) -> Found
    ensures { found_of result ≡ found_of part.old }
{
    mem::replace(part, Found::Nothing)
}

impl Finder<'_> {
    /// An item without brackets that begins at this token.
    pub fn plain(&self, item: Item, token: usize) -> Atom
        ensures { atom_of result ≡ atom (name_of item) token [] }
    {
        Atom {
            item,
            token,
            inner: Vec::new(self.alloc),
        }
    }

    /// The identifier without a path that this token is, to the operators.
    pub fn short_item(&self, names: &mut Names, token: usize) -> Result<Item, Memory>
        ensures { let text = text_at self.now.unit.now self.now.tokens.now token in
            IfOk result (λ item. name_of item ≡ short text) }
    {
        let bytes = match self.tokens.get(token) {
            Some(token) => text(self.unit, token.span),
            None => &[],
        };
        Ok(Item::Short(names.ident(bytes)?))
    }

    /// The same as an atomic phrase.
    pub fn short(&self, names: &mut Names, token: usize) -> Result<Atom, Memory>
        ensures { let text = text_at self.now.unit.now self.now.tokens.now token in
            IfOk result (λ a. atom_of a ≡ atom (short text) token []) }
    {
        let item = self.short_item(names, token)?;
        Ok(self.plain(item, token))
    }

    /// What a phrase with this first token is. Parts that it becomes part of are taken.
    pub fn find(
        &self,
        names: &mut Names,
        token: usize,
        sense: Sense,
        parts: &mut Parts,
    ) -> Result<Found, Memory>
        ensures { let text = text_at self.now.unit.now self.now.tokens.now in
            IfOk result (λ found. found_of found ≡ spec.found_by text token sense
            (found_of parts.old.first) (found_of parts.old.second) (found_of parts.old.third) (found_of parts.old.fourth)) }
    {
        Ok(match sense {
            Sense::Nothing => Found::Nothing,
            Sense::Passed => taken(&mut parts.first),
            Sense::Short => Found::Plain(self.short_item(names, token)?, token),
            Sense::Long => Found::Plain(Item::Long, token),
            Sense::Op => {
                let item = with_op(atom_in(self.alloc, taken(&mut parts.second)).item);
                Found::Plain(item, token)
            }
            Sense::Phrase => Found::Plain(Item::Phrase, token),
            Sense::Round => round_atom(self.alloc, token, taken(&mut parts.second))?,
            Sense::Empty => Found::Several(Vec::new(self.alloc), false),
            Sense::Typed => Found::Several(Vec::new(self.alloc), true),
            Sense::More => {
                let first = atom_in(self.alloc, taken(&mut parts.first));
                joined(self.alloc, first, taken(&mut parts.second))?
            }
            Sense::MoreAfter => {
                let first = atom_in(self.alloc, taken(&mut parts.second));
                joined(self.alloc, first, taken(&mut parts.third))?
            }
            Sense::Third => taken(&mut parts.third),
            Sense::Named => before(self.short(names, token)?, taken(&mut parts.second))?,
            Sense::OpNamed => before(self.plain(Item::Op, token), taken(&mut parts.second))?,
            Sense::After => from(token, taken(&mut parts.second))?,
            Sense::RoundMore => round_more(
                self.alloc,
                token,
                taken(&mut parts.first),
                taken(&mut parts.second),
            )?,
            Sense::OpenRoundMore => round_more(
                self.alloc,
                token,
                taken(&mut parts.second),
                taken(&mut parts.third),
            )?,
            Sense::Inner => {
                if is_word(&parts.second) {
                    only_inner(self.alloc, taken(&mut parts.first))
                } else {
                    Found::Nothing
                }
            }
            Sense::Level => {
                let level = level_in(&parts.second);
                self.directed(
                    names,
                    level,
                    word_in(&parts.third),
                    taken(&mut parts.fourth),
                )?
            }
            Sense::NoLevel => {
                self.directed(names, None, word_in(&parts.second), taken(&mut parts.third))?
            }
        })
    }

    /// A directive whose first identifier is this token.
    fn directed(
        &self,
        names: &mut Names,
        level: Option<usize>,
        token: usize,
        rest: Found,
    ) -> Result<Found, Memory>
        ensures { let text = text_at self.now.unit.now self.now.tokens.now token in
            IfOk result (λ found. found_of found ≡ spec.directed level (atom (short text) token [] ∷ spec.atoms_in (found_of rest))) }
    {
        let first = self.short(names, token)?;
        let mut atoms = atoms_in(self.alloc, rest);
        atoms.push(first)?;
        match level {
            Some(level) => Ok(Found::Levelled(level, atoms)),
            None => Ok(Found::Directed(atoms)),
        }
    }
}

/// Patterns in round brackets, as an atomic phrase.
fn round(alloc: Global, token: usize, found: Found) -> Result<Atom, Memory>
    ensures { IfOk result (λ a. atom_of a ≡ atom phrase token (spec.inner_in (found_of found))) }
{
    let inner = inner_in(alloc, found)?;
    Ok(Atom {
        item: Item::Phrase,
        token,
        inner,
    })
}

/// The same as what a phrase is.
fn round_atom(alloc: Global, token: usize, found: Found) -> Result<Found, Memory>
    ensures { IfOk result (λ r. found_of r ≡ spec.one (atom phrase token (spec.inner_in (found_of found)))) }
{
    let atom = round(alloc, token, found)?;
    if atom.inner.is_empty() {
        return Ok(Found::Plain(Item::Phrase, token));
    }
    Ok(Found::One(Box::new(alloc, atom)?))
}

/// Patterns in round brackets before the atomic phrases of the rest.
fn round_more(alloc: Global, token: usize, found: Found, rest: Found) -> Result<Found, Memory>
    ensures { let after = found_of rest in
        IfOk result (λ r. found_of r ≡ spec.several (atom phrase token (spec.inner_in (found_of found)) ∷ spec.atoms_in after) (spec.typed_in after)) }
{
    let first = round(alloc, token, found)?;
    joined(alloc, first, rest)
}

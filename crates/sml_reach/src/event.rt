//! What happens to fixities, and which sequences stand where.

ghost use Rattle.std.specs.Prelude.{◌≡◌, ◌+◌, true, false, [], ◌∷◌, List, Some, min, map, reverse, take, drop, length, get_or, if◌then◌else◌, slice_get, IfOk, OnOk};
ghost use Rattle.std.specs.List.{cons_option, list_any};
ghost use Rattle.std.specs.Option.{option_map};
ghost use Rattle.sml_read.specs.Grammar.{right_side};
ghost use Rattle.sml_read.specs.Extents.{starts_of};
ghost use Rattle.sml_read.specs.declared.grammar.Node.TheVariants.{Inner};
ghost use Rattle.sml_reach.specs.Senses as senses;
ghost use Rattle.sml_reach.specs.Founds as spec;
ghost use Rattle.sml_fixity.specs.ItemNames.{name_of, short, phrase};
ghost use Rattle.sml_reach.specs.Founds.{atom, one, word, several, within, atom_of, atoms_of, found_by, found_of, nothing, sequence_in, untyped, left};
ghost use Rattle.sml_reach.specs.Events.{seen, directs, is_itself, are_itself, asked, asked_of, pattern, head, text_at, found_at, founds_from, scope_event, event_of, event_from, events_of};
ghost use Rattle.sml_reach.specs.CodeKept.{kept, all_kept, is_directive};

use crate::found::{Atom, Finder, Found, Parts, atom_in, atoms_in, before, joined};
use crate::names::Names;
use crate::sense::{Deed, Sense, closes, deed_of, opens, sense_of};
use sml_fixity::scopes::Directive;
use sml_fixity::sequences::Item;
use sml_lex::fault::Memory;
use sml_lex::token::Token;
use sml_read::grammar::{DeclarationRule, Node, Rule};
use sml_read::phrases::{first_token, token_count};
use sml_read::table::backwards;
use std::alloc::Global;

/// A directive, with the token of its level, if one is written, and its identifiers, from the last to the first.
#[derive(Drop)]
pub struct Directed {
    pub directive: Directive,
    pub level: Option<usize>,
    pub atoms: Vec<Atom>,
}

/// What happens where a token or a phrase begins. Atomic phrases go from the last to the first.
#[derive(Drop)]
pub enum Event {
    /// A declaration at the top begins at this token.
    Begins(usize),
    /// A scope is opened.
    Enters,
    /// The innermost scope is closed.
    Leaves,
    Directs(Box<Directed>),
    /// A sequence of one atomic expression that needn't stand for itself, with its token.
    OneExpression(Item, usize),
    /// A sequence of one atomic pattern, with its token.
    OnePattern(Item, usize),
    /// Another sequence of atomic expressions.
    Expression(Vec<Atom>),
    /// A sequence of atomic patterns.
    Pattern(Vec<Atom>),
    /// The head of a clause.
    Head(Vec<Atom>),
}

fn pop(founds: &mut Vec<Found>) -> Found
    ensures value { found_of result ≡ get_or (map found_of (reverse founds.old.items)) 0 nothing }
    ensures rest { map found_of (reverse founds.new.items) ≡ drop 1 (map found_of (reverse founds.old.items)) }
{
    match founds.pop() {
        Some(found) => found,
        None => Found::Nothing,
    }
}

/// The part with this number of a phrase that has so many, those before it being taken off.
fn pop_part(founds: &mut Vec<Found>, count: usize, index: usize) -> Found
    ensures value { (vs : List spec.Found) → map found_of (reverse founds.old.items) ≡ drop (min index count) vs →
        found_of result ≡ get_or (take count vs) index nothing }
    ensures rest { (vs : List spec.Found) → map found_of (reverse founds.old.items) ≡ drop (min index count) vs →
        map found_of (reverse founds.new.items) ≡ drop (min (index + 1) count) vs }
{
    if index < count {
        pop(founds)
    } else {
        Found::Nothing
    }
}

/// Takes so many parts off, and answers the first four.
fn pop_parts(founds: &mut Vec<Found>, count: usize) -> Parts
    ensures first { found_of result.first ≡ get_or (take count (map found_of (reverse founds.old.items))) 0 nothing }
    ensures second { found_of result.second ≡ get_or (take count (map found_of (reverse founds.old.items))) 1 nothing }
    ensures third { found_of result.third ≡ get_or (take count (map found_of (reverse founds.old.items))) 2 nothing }
    ensures fourth { found_of result.fourth ≡ get_or (take count (map found_of (reverse founds.old.items))) 3 nothing }
    ensures rest { map found_of (reverse founds.new.items) ≡ drop count (map found_of (reverse founds.old.items)) }
{
    let first = pop_part(founds, count, 0);
    let second = pop_part(founds, count, 1);
    let third = pop_part(founds, count, 2);
    let fourth = pop_part(founds, count, 3);
    for index in 4..count {
        pop_part(founds, count, index);
    }
    Parts {
        first,
        second,
        third,
        fourth,
    }
}

fn copy(item: &Item) -> Result<Item, Memory>
    ensures { IfOk result (λ r. name_of r ≡ name_of item.now) }
{
    Ok(match item {
        Item::Short(name) => Item::Short(name.clone()?),
        Item::Op => Item::Op,
        Item::Long => Item::Long,
        Item::Phrase => Item::Phrase,
    })
}

/// The items of atomic phrases that go from the last to the first.
fn items_of(alloc: Global, atoms: &[Atom]) -> Result<Vec<Item>, Memory>
    ensures { IfOk result (λ items. map name_of items.items ≡ map (λ a. a.name) (map atom_of (reverse atoms.now))) }
{
    let mut items = Vec::new(alloc);
    for i in (0..atoms.len()).rev() {
        items.push(copy(&atoms[i].item)?)?;
    }
    Ok(items)
}

/// The items of a sequence without a type.
fn untyped(alloc: Global, found: &Found) -> Result<Vec<Item>, Memory>
    ensures { IfOk result (λ items. map name_of items.items ≡ untyped (found_of found.now)) }
{
    match found {
        Found::Several(atoms, false) => items_of(alloc, atoms),
        _ => Ok(Vec::new(alloc)),
    }
}

/// The atomic phrases of a sequence.
fn sequence(found: Found) -> Option<Vec<Atom>>
    ensures { option_map atoms_of result ≡ sequence_in (found_of found) }
{
    match found {
        Found::Several(atoms, _typed) => Some(atoms),
        Found::Nothing => None,
        Found::Word(_token) => None,
        Found::Plain(_item, _token) => None,
        Found::One(_atom) => None,
        Found::Inner(_items) => None,
        Found::OneInner(_item) => None,
        Found::Levelled(_level, _atoms) => None,
        Found::Directed(_atoms) => None,
    }
}

/// Whether an atomic phrase stands for itself wherever it is.
fn is_itself(item: &Item) -> bool
    ensures { result ≡ is_itself (name_of item.now) }
{
    match item {
        Item::Short(_) => false,
        Item::Op => true,
        Item::Long => true,
        Item::Phrase => true,
    }
}

/// Whether this is one atomic phrase, which stands for itself.
fn are_itself(atoms: &[Atom]) -> bool
    ensures { result ≡ are_itself (map atom_of (reverse atoms.now)) }
{
    atoms.len() == 1 && is_itself(&atoms[0].item)
}

/// The event at a sequence of atomic expressions.
fn asked(atoms: Vec<Atom>) -> Option<Event>
    ensures { option_map seen result ≡ asked (atoms_of atoms) }
{
    if are_itself(&atoms) {
        return None;
    }
    Some(Event::Expression(atoms))
}

fn expression(atoms: Option<Vec<Atom>>) -> Option<Event>
    ensures { option_map seen result ≡ asked_of (option_map atoms_of atoms) }
{
    match atoms {
        Some(atoms) => asked(atoms),
        None => None,
    }
}

fn pattern(atoms: Option<Vec<Atom>>) -> Option<Event>
    ensures { option_map seen result ≡ option_map pattern (option_map atoms_of atoms) }
{
    match atoms {
        Some(atoms) => Some(Event::Pattern(atoms)),
        None => None,
    }
}

fn head(atoms: Option<Vec<Atom>>) -> Option<Event>
    ensures { option_map seen result ≡ option_map head (option_map atoms_of atoms) }
{
    match atoms {
        Some(atoms) => Some(Event::Head(atoms)),
        None => None,
    }
}

/// A directive, with the token of its level, if one is written, and its identifiers.
fn directive_event(
    alloc: Global,
    directive: Directive,
    level: Option<usize>,
    atoms: Vec<Atom>,
) -> Result<Option<Event>, Memory>
    ensures { IfOk result (λ event. option_map seen event ≡ Some (directs directive level (atoms_of atoms))) }
{
    let directed = Directed {
        directive,
        level,
        atoms,
    };
    Ok(Some(Event::Directs(Box::new(alloc, directed)?)))
}

fn event_of_directive(
    alloc: Global,
    directive: Directive,
    found: Found,
) -> Result<Option<Event>, Memory>
    ensures { IfOk result (λ event. option_map seen event ≡ event_of (Deed.Directs directive) 0 (found_of found)) }
{
    match found {
        Found::Levelled(level, atoms) => directive_event(alloc, directive, Some(level), atoms),
        Found::Directed(atoms) => directive_event(alloc, directive, None, atoms),
        Found::Nothing => Ok(None),
        Found::Word(_token) => Ok(None),
        Found::Plain(_item, _token) => Ok(None),
        Found::One(_atom) => Ok(None),
        Found::Inner(_items) => Ok(None),
        Found::OneInner(_item) => Ok(None),
        Found::Several(_atoms, _typed) => Ok(None),
    }
}

/// What happens where a phrase begins that is this, and what is left of it for the phrases round it.
fn finish(
    alloc: Global,
    deed: Deed,
    token: usize,
    found: Found,
) -> Result<(Option<Event>, Found), Memory>
    ensures event { IfOk result (λ r. option_map seen r.0 ≡ event_of deed token (found_of found)) }
    ensures left { IfOk result (λ r. found_of r.1 ≡ left deed (found_of found)) }
{
    Ok(match deed {
        Deed::Nothing => (None, found),
        Deed::Begins => (Some(Event::Begins(token)), found),
        Deed::Directs(directive) => (event_of_directive(alloc, directive, found)?, Found::Nothing),
        Deed::Expression => (expression(sequence(found)), Found::Nothing),
        Deed::Pattern => {
            let items = untyped(alloc, &found)?;
            (pattern(sequence(found)), Found::Inner(items))
        }
        Deed::Head => (head(sequence(found)), Found::Nothing),
    })
}

fn push_some(events: &mut Vec<Event>, event: Option<Event>) -> Result<(), Memory>
    ensures { OnOk result (map seen (reverse events.new.items) ≡ cons_option (option_map seen event) (map seen (reverse events.old.items))) }
{
    match event {
        Some(event) => {
            events.reserve(1)?;
            events.push_reserved(event);
        }
        None => {}
    }
    Ok(())
}

/// Takes so many parts off.
fn skip_parts(founds: &mut Vec<Found>, count: usize)
    ensures { map found_of (reverse founds.new.items) ≡ drop count (map found_of (reverse founds.old.items)) }
{
    for index in 0..count {
        pop_part(founds, count, index);
    }
}

/// Takes so many parts off, and answers the first.
fn first_part(founds: &mut Vec<Found>, count: usize) -> Found
    ensures value { found_of result ≡ get_or (take count (map found_of (reverse founds.old.items))) 0 nothing }
    ensures rest { map found_of (reverse founds.new.items) ≡ drop count (map found_of (reverse founds.old.items)) }
{
    let first = pop_part(founds, count, 0);
    for index in 1..count {
        pop_part(founds, count, index);
    }
    first
}

/// Takes so many parts off, and answers the first two.
fn first_parts(founds: &mut Vec<Found>, count: usize) -> (Found, Found)
    ensures first { found_of result.0 ≡ get_or (take count (map found_of (reverse founds.old.items))) 0 nothing }
    ensures second { found_of result.1 ≡ get_or (take count (map found_of (reverse founds.old.items))) 1 nothing }
    ensures rest { map found_of (reverse founds.new.items) ≡ drop count (map found_of (reverse founds.old.items)) }
{
    let first = pop_part(founds, count, 0);
    let second = pop_part(founds, count, 1);
    for index in 2..count {
        pop_part(founds, count, index);
    }
    (first, second)
}

/// Whether it is no atomic phrase, and no type stands after it.
fn is_empty(found: &Found) -> bool
    ensures { result ≡ true → found_of found.now ≡ several [] false }
{
    match found {
        Found::Several(atoms, false) => atoms.is_empty(),
        _ => false,
    }
}

/// The event at one atomic expression alone.
fn one_expression(item: Item, token: usize) -> Option<Event>
    ensures { option_map seen result ≡ asked (atom (name_of item) token [] ∷ []) }
{
    if is_itself(&item) {
        return None;
    }
    Some(Event::OneExpression(item, token))
}

/// The event at a sequence of atomic expressions, from the first and the others.
fn sequence_event(alloc: Global, first: Atom, others: Found) -> Result<Option<Event>, Memory>
    ensures { IfOk result (λ event. option_map seen event ≡ asked (atom_of first ∷ spec.atoms_in (found_of others))) }
{
    if is_empty(&others) && first.inner.is_empty() {
        return Ok(one_expression(first.item, first.token));
    }
    let mut atoms = atoms_in(alloc, others);
    atoms.push(first)?;
    Ok(asked(atoms))
}

/// What a token does to scopes goes before the events after it.
fn put_scope(events: &mut Vec<Event>, token: Token) -> Result<(), Memory>
    ensures { OnOk result (map seen (reverse events.new.items) ≡ cons_option (scope_event (Some token)) (map seen (reverse events.old.items))) }
{
    if opens(token.kind) {
        events.reserve(1)?;
        events.push_reserved(Event::Enters);
        return Ok(());
    }
    if closes(token.kind) {
        events.reserve(1)?;
        events.push_reserved(Event::Leaves);
    }
    Ok(())
}

/// A token goes before what is found after it.
fn enter_word(founds: &mut Vec<Found>, token: usize) -> Result<(), Memory>
    ensures { OnOk result (map found_of (reverse founds.new.items) ≡ word token ∷ map found_of (reverse founds.old.items)) }
{
    founds.reserve(1)?;
    founds.push_reserved(Found::Word(token));
    Ok(())
}

/// What the token with this number does to scopes goes before the events after it, if scopes are looked for.
fn enter_scope(
    tokens: &[Token],
    events: &mut Vec<Event>,
    scoped: bool,
    token: usize,
) -> Result<(), Memory>
    ensures { OnOk result (map seen (reverse events.new.items) ≡
        cons_option (kept scoped (scope_event (slice_get tokens.now token))) (map seen (reverse events.old.items))) }
{
    if !scoped {
        return Ok(());
    }
    match tokens.get(token) {
        Some(token) => put_scope(events, *token),
        None => Ok(()),
    }
}

/// A phrase with so many parts that is nothing to a sequence.
#[inline(never)]
fn enter_nothing(founds: &mut Vec<Found>, count: usize) -> Result<(), Memory>
    ensures { OnOk result (map found_of (reverse founds.new.items) ≡ nothing ∷ drop count (map found_of (reverse founds.old.items))) }
{
    skip_parts(founds, count);
    founds.reserve(1)?;
    founds.push_reserved(Found::Nothing);
    Ok(())
}

/// A phrase with so many parts that is what the first of them is, which stays where it is if it is the only one.
#[inline(never)]
fn enter_first(founds: &mut Vec<Found>, count: usize) -> Result<(), Memory>
    ensures { let old = map found_of (reverse founds.old.items) in
        OnOk result (map found_of (reverse founds.new.items) ≡ get_or (take count old) 0 nothing ∷ drop count old) }
{
    if count == 1 && !founds.is_empty() {
        return Ok(());
    }
    let first = first_part(founds, count);
    founds.reserve(1)?;
    founds.push_reserved(first);
    Ok(())
}

/// A phrase with so many parts that is no atomic phrase.
#[inline(never)]
fn enter_empty(alloc: Global, founds: &mut Vec<Found>, count: usize) -> Result<(), Memory>
    ensures { OnOk result (map found_of (reverse founds.new.items) ≡ several [] false ∷ drop count (map found_of (reverse founds.old.items))) }
{
    skip_parts(founds, count);
    founds.reserve(1)?;
    founds.push_reserved(Found::Several(Vec::new(alloc), false));
    Ok(())
}

/// A phrase with so many parts that is an atomic phrase, with this first token.
#[inline(never)]
fn enter_atom(founds: &mut Vec<Found>, count: usize, token: usize) -> Result<(), Memory>
    ensures { OnOk result (map found_of (reverse founds.new.items) ≡ one (atom phrase token []) ∷ drop count (map found_of (reverse founds.old.items))) }
{
    skip_parts(founds, count);
    founds.reserve(1)?;
    founds.push_reserved(Found::Plain(Item::Phrase, token));
    Ok(())
}

/// A phrase with so many parts that is the identifier without a path at this token.
#[inline(never)]
fn enter_short(
    finder: &Finder,
    names: &mut Names,
    founds: &mut Vec<Found>,
    count: usize,
    token: usize,
) -> Result<(), Memory>
    ensures { let text = text_at finder.now.unit.now finder.now.tokens.now token in
        OnOk result (map found_of (reverse founds.new.items) ≡ one (atom (short text) token []) ∷ drop count (map found_of (reverse founds.old.items))) }
{
    skip_parts(founds, count);
    founds.reserve(1)?;
    founds.push_reserved(Found::Plain(finder.short_item(names, token)?, token));
    Ok(())
}

/// A sequence of atomic expressions, which a phrase with so many parts begins with.
#[inline(never)]
fn enter_expression(
    alloc: Global,
    founds: &mut Vec<Found>,
    events: &mut Vec<Event>,
    count: usize,
) -> Result<(), Memory>
    ensures founds { OnOk result (map found_of (reverse founds.new.items) ≡ nothing ∷ drop count (map found_of (reverse founds.old.items))) }
    ensures events { let parts = take count (map found_of (reverse founds.old.items)) in
        OnOk result (map seen (reverse events.new.items) ≡
        cons_option (asked (spec.atom_in (get_or parts 0 nothing) ∷ spec.atoms_in (get_or parts 1 nothing))) (map seen (reverse events.old.items))) }
{
    let (first, others) = first_parts(founds, count);
    let event = sequence_event(alloc, atom_in(alloc, first), others)?;
    founds.reserve(1)?;
    founds.push_reserved(Found::Nothing);
    push_some(events, event)
}

/// A phrase with so many parts that is an atomic phrase and those after it.
#[inline(never)]
fn enter_more(alloc: Global, founds: &mut Vec<Found>, count: usize) -> Result<(), Memory>
    ensures { let old = map found_of (reverse founds.old.items) in
        let others = get_or (take count old) 1 nothing in
        OnOk result (map found_of (reverse founds.new.items) ≡
        several (spec.atom_in (get_or (take count old) 0 nothing) ∷ spec.atoms_in others) (spec.typed_in others) ∷ drop count old) }
{
    let (first, others) = first_parts(founds, count);
    let found = joined(alloc, atom_in(alloc, first), others)?;
    founds.reserve(1)?;
    founds.push_reserved(found);
    Ok(())
}

/// The head of a clause, which a phrase with so many parts begins with.
#[inline(never)]
fn enter_head(
    alloc: Global,
    founds: &mut Vec<Found>,
    events: &mut Vec<Event>,
    count: usize,
) -> Result<(), Memory>
    ensures founds { OnOk result (map found_of (reverse founds.new.items) ≡ nothing ∷ drop count (map found_of (reverse founds.old.items))) }
    ensures events { let parts = take count (map found_of (reverse founds.old.items)) in
        OnOk result (map seen (reverse events.new.items) ≡
        head (spec.atom_in (get_or parts 0 nothing) ∷ spec.atoms_in (get_or parts 1 nothing)) ∷ map seen (reverse events.old.items)) }
{
    let (first, others) = first_parts(founds, count);
    let mut atoms = atoms_in(alloc, others);
    atoms.push(atom_in(alloc, first))?;
    founds.reserve(1)?;
    founds.push_reserved(Found::Nothing);
    events.reserve(1)?;
    events.push_reserved(Event::Head(atoms));
    Ok(())
}

/// A sequence of one atomic pattern, which is put in the place of its parts.
fn enter_one(founds: &mut Vec<Found>, events: &mut Vec<Event>, first: Atom) -> Result<(), Memory>
    ensures founds { OnOk result (map found_of (reverse founds.new.items) ≡ within (name_of first.item ∷ []) ∷ map found_of (reverse founds.old.items)) }
    ensures events { OnOk result (map seen (reverse events.new.items) ≡ pattern (atom (name_of first.item) first.token [] ∷ []) ∷ map seen (reverse events.old.items)) }
{
    let Atom {
        item,
        token,
        inner: _,
    } = first;
    founds.reserve(1)?;
    founds.push_reserved(Found::OneInner(copy(&item)?));
    events.reserve(1)?;
    events.push_reserved(Event::OnePattern(item, token));
    Ok(())
}

/// A sequence of atomic patterns, which is put in the place of its parts.
fn enter_several(
    alloc: Global,
    founds: &mut Vec<Found>,
    events: &mut Vec<Event>,
    first: Atom,
    rest: Found,
) -> Result<(), Memory>
    ensures founds { OnOk result (map found_of (reverse founds.new.items) ≡ left Deed.Pattern (spec.before (atom_of first) (found_of rest)) ∷ map found_of (reverse founds.old.items)) }
    ensures events { OnOk result (map seen (reverse events.new.items) ≡
        cons_option (event_of Deed.Pattern 0 (spec.before (atom_of first) (found_of rest))) (map seen (reverse events.old.items))) }
{
    let found = before(first, rest)?;
    let (event, left) = finish(alloc, Deed::Pattern, 0, found)?;
    founds.reserve(1)?;
    founds.push_reserved(left);
    push_some(events, event)
}

/// A sequence of atomic patterns that begins with the identifier at this token, as does a phrase with so many parts.
#[inline(never)]
fn enter_name(
    finder: &Finder,
    names: &mut Names,
    founds: &mut Vec<Found>,
    events: &mut Vec<Event>,
    count: usize,
    token: usize,
) -> Result<(), Memory>
    ensures founds { let old = map found_of (reverse founds.old.items) in
        let parts = take count old in
        let text = text_at finder.now.unit.now finder.now.tokens.now in
        OnOk result (map found_of (reverse founds.new.items) ≡ left Deed.Pattern (spec.before (atom (short (text token)) token []) (get_or parts 1 nothing)) ∷ drop count old) }
    ensures events { let parts = take count (map found_of (reverse founds.old.items)) in
        let text = text_at finder.now.unit.now finder.now.tokens.now in
        OnOk result (map seen (reverse events.new.items) ≡
        cons_option (event_of Deed.Pattern 0 (spec.before (atom (short (text token)) token []) (get_or parts 1 nothing))) (map seen (reverse events.old.items))) }
{
    let (_word, rest) = first_parts(founds, count);
    let first = finder.short(names, token)?;
    if is_empty(&rest) {
        enter_one(founds, events, first)
    } else {
        enter_several(finder.alloc, founds, events, first, rest)
    }
}

/// What a phrase with this first token is, whose parts are let go.
fn found_from(
    finder: &Finder,
    names: &mut Names,
    token: usize,
    sense: Sense,
    parts: Parts,
) -> Result<Found, Memory>
    ensures { let text = text_at finder.now.unit.now finder.now.tokens.now in
        IfOk result (λ found. found_of found ≡ found_by text token sense
        (found_of parts.first) (found_of parts.second) (found_of parts.third) (found_of parts.fourth)) }
{
    let mut parts = parts;
    finder.find(names, token, sense, &mut parts)
}

/// A phrase with so many parts that is this and does this.
#[inline(never)]
fn enter_other(
    finder: &Finder,
    names: &mut Names,
    founds: &mut Vec<Found>,
    events: &mut Vec<Event>,
    count: usize,
    sense: Sense,
    deed: Deed,
    token: usize,
) -> Result<(), Memory>
    ensures founds { let old = map found_of (reverse founds.old.items) in
        let parts = take count old in
        let text = text_at finder.now.unit.now finder.now.tokens.now in
        OnOk result (map found_of (reverse founds.new.items) ≡ left deed (found_by text token sense (get_or parts 0 nothing) (get_or parts 1 nothing) (get_or parts 2 nothing) (get_or parts 3 nothing)) ∷ drop count old) }
    ensures events { let parts = take count (map found_of (reverse founds.old.items)) in
        let text = text_at finder.now.unit.now finder.now.tokens.now in
        OnOk result (map seen (reverse events.new.items) ≡
        cons_option (event_of deed token (found_by text token sense (get_or parts 0 nothing) (get_or parts 1 nothing) (get_or parts 2 nothing) (get_or parts 3 nothing))) (map seen (reverse events.old.items))) }
{
    let parts = pop_parts(founds, count);
    let found = found_from(finder, names, token, sense, parts)?;
    let (event, left) = finish(finder.alloc, deed, token, found)?;
    founds.reserve(1)?;
    founds.push_reserved(left);
    push_some(events, event)
}

/// A phrase of this rule with this first token: its event goes to the others, and what it is to what is found after it.
/// Most phrases are nothing to a sequence, or what their first part is, or one atomic phrase or none whatever their parts
/// are. Each kind has a function of its own, since a call pays at its entry for all that may be in it.
fn enter_phrase(
    finder: &Finder,
    names: &mut Names,
    founds: &mut Vec<Found>,
    events: &mut Vec<Event>,
    rule: Rule,
    token: usize,
) -> Result<(), Memory>
    ensures founds { let old = map found_of (reverse founds.old.items) in
        let text = text_at finder.now.unit.now finder.now.tokens.now in
        OnOk result (map found_of (reverse founds.new.items) ≡ founds_from text (Inner rule) token old) }
    ensures events { let old = map found_of (reverse founds.old.items) in
        let text = text_at finder.now.unit.now finder.now.tokens.now in
        OnOk result (map seen (reverse events.new.items) ≡
        cons_option (event_of (senses.deed_of rule) token (found_at text token rule old)) (map seen (reverse events.old.items))) }
{
    let count = backwards(rule).len();
    match (sense_of(rule), deed_of(rule)) {
        (Sense::Nothing, Deed::Nothing) => enter_nothing(founds, count),
        (Sense::Passed, Deed::Nothing) => enter_first(founds, count),
        (Sense::Empty, Deed::Nothing) => enter_empty(finder.alloc, founds, count),
        (Sense::Short, Deed::Nothing) => enter_short(finder, names, founds, count, token),
        (Sense::Phrase, Deed::Nothing) => enter_atom(founds, count, token),
        (Sense::More, Deed::Nothing) => enter_more(finder.alloc, founds, count),
        (Sense::More, Deed::Head) => enter_head(finder.alloc, founds, events, count),
        (Sense::More, Deed::Expression) => enter_expression(finder.alloc, founds, events, count),
        (Sense::Named, Deed::Pattern) => enter_name(finder, names, founds, events, count, token),
        (sense, deed) => enter_other(finder, names, founds, events, count, sense, deed, token),
    }
}

/// A node with this first token: its event goes to the others, and what it is to what is found after it.
fn at_node(
    finder: &Finder,
    names: &mut Names,
    founds: &mut Vec<Found>,
    events: &mut Vec<Event>,
    scoped: bool,
    node: Node,
    token: usize,
) -> Result<(), Memory>
    ensures founds { let old = map found_of (reverse founds.old.items) in
        let text = text_at finder.now.unit.now finder.now.tokens.now in
        OnOk result (map found_of (reverse founds.new.items) ≡ founds_from text node token old) }
    ensures events { let old = map found_of (reverse founds.old.items) in
        OnOk result (map seen (reverse events.new.items) ≡
        cons_option (kept scoped (event_from finder.now.unit.now finder.now.tokens.now node token old)) (map seen (reverse events.old.items))) }
{
    match node {
        Node::Leaf => {
            enter_word(founds, token)?;
            enter_scope(finder.tokens, events, scoped, token)
        }
        Node::Inner(rule) => enter_phrase(finder, names, founds, events, rule, token),
    }
}

/// Whether a directive is read where this node stands.
fn is_directive(node: Node) -> bool
    ensures { result ≡ is_directive node }
{
    match node {
        Node::Inner(
            Rule::Declarations(
                DeclarationRule::CoreDecInfix
                | DeclarationRule::CoreDecInfixr
                | DeclarationRule::CoreDecNonfix,
            ),
        ) => true,
        _ => false,
    }
}

/// Whether a directive is read at one of these nodes.
fn has_directive(nodes: &[Node]) -> bool
    ensures { result ≡ list_any is_directive nodes.now }
{
    for i in (0..nodes.len()).rev() {
        if is_directive(nodes[i]) {
            return true;
        }
    }
    false
}

/// The events of a unit's derivation, from the last to the first, without those of scopes if no directive is read.
pub fn events(
    alloc: Global,
    unit: &[u8],
    names: &mut Names,
    nodes: &[Node],
    tokens: &[Token],
) -> Result<Vec<Event>, Memory>
    ensures { IfOk result (λ events. map seen (reverse events.items) ≡ all_kept (list_any is_directive nodes.now) (events_of unit.now tokens.now nodes.now (starts_of 0 nodes.now))) }
{
    let finder = Finder {
        alloc,
        unit,
        tokens,
    };
    let scoped = has_directive(nodes);
    let mut token = token_count(nodes);
    let mut founds = Vec::new(alloc);
    let mut events = Vec::new(alloc);
    for i in (0..nodes.len()).rev() {
        let node = nodes[i];
        token = first_token(node, token);
        at_node(
            &finder,
            names,
            &mut founds,
            &mut events,
            scoped,
            node,
            token,
        )?;
    }
    Ok(events)
}

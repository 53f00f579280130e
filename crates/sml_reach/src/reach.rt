//! How far directives reach, and what each sequence stands for where they are in force.

ghost use Rattle.std.specs.Prelude.{◌≡◌, ℕ, None, Bool, true, false, ◌<◌, ◌≤◌, ◌+◌, ◌-◌, ◌^◌, List, [], ◌∷◌, ◌++◌, map, reverse, length, get_or, IfOk, IfSome, OnOk};
ghost use Rattle.std.specs.Option.{MatchOption};
ghost use Rattle.sml_tree.specs.Trees.{Id};
ghost use Rattle.sml_read.specs.Extents.{starts_of};
ghost use Rattle.sml_tree.specs.Views.{ident_of};
ghost use Rattle.sml_reach.specs.Founds as founds;
ghost use Rattle.sml_fixity.specs.ItemNames.{name_of};
ghost use Rattle.sml_reach.specs.Founds.{atom, atoms_of};
ghost use Rattle.sml_reach.specs.Events as happened;
ghost use Rattle.sml_reach.specs.Events.{seen, text_at, directs, events_of};
ghost use Rattle.sml_reach.specs.CodeKept.{all_kept, AreUndirected};
ghost use Rattle.sml_reach.specs.Reach as spec;
ghost use Rattle.sml_fixity.specs.declared.sequences.Step.TheVariants.{Push};
ghost use Rattle.sml_fixity.specs.Shapes.{shape_of, tree};
ghost use Rattle.sml_fixity.specs.Sequences.{role_at, role_by};
ghost use Rattle.sml_reach.specs.CodeAlone.{IsOperand};
ghost use Rattle.sml_reach.specs.CodeGathered.{AreDeclared, AreGathered, ComesOf};
ghost use Rattle.sml_reach.specs.Fits as shapes;
ghost use Rattle.sml_reach.specs.Fits.{fit_of, fitted_of};
ghost use Rattle.sml_reach.specs.Reach.{state_of, start, AreItems, first_inner, ids_of, level_text, level_token, misfit_of, idle, fit_at, outcome_of, Happens, declarations_in, first_misfit, before_misfit, up_to, AreFitted};

use crate::event::{Directed, Event, events};
use crate::fitted::{Fit, Fitted};
use crate::found::Atom;
use crate::names::Names;
use crate::place::text;
use sml_fixity::heads::clause_head;
use sml_fixity::scopes::{Directive, DirectiveFault, Fixities};
use sml_fixity::sequences::{FixFault, Item, resolve, resolve_pattern};
use sml_fixity::shape::Shape;
use sml_lex::fault::{Code, Memory};
use sml_lex::token::Token;
use sml_read::grammar::Node;
use sml_tree::bare::Ident;
use std::alloc::Global;
use std::mem;

/// A fault of fixity: the number of its declaration in the unit, counted from 1, and that one's first token, its own
/// token, and its code.
#[derive(Clone, Copy, PartialEq, Eq, Drop)]
pub struct Misfit {
    pub number: usize,
    pub begun: usize,
    pub token: usize,
    pub code: Code,
}

/// What an event comes to.
#[derive(Drop)]
pub enum Outcome {
    /// A declaration at the top begins at this token.
    Declares(usize),
    /// No sequence stands here, and there is no fault.
    Idle,
    /// A sequence stands for this.
    Stands(Fit),
    Fails(Misfit),
}

/// What was gathered from outcomes: the declarations before the last one that has begun, the first token of that, what
/// the sequences after it stand for, and the faults.
#[derive(Drop)]
pub struct Gathered {
    declarations: Vec<Fitted>,
    begun: Option<usize>,
    fits: Vec<Fit>,
    misfits: Vec<Misfit>,
}

/// The fixities in force, how many declarations have begun, and the first token of the last of them.
#[derive(Drop)]
pub struct Reach {
    fixities: Fixities,
    count: usize,
    begun: usize,
}

/// The atomic phrases of a sequence: what each is to the operators, its first token, and what the first of them has
/// in round brackets. All sequences of a unit share it, so that its room is made once.
#[derive(Drop)]
struct Sequence {
    items: Vec<Item>,
    tokens: Vec<usize>,
    inner: Vec<Item>,
}

impl Sequence {
    fn new(alloc: Global) -> Sequence {
        Sequence {
            items: Vec::new(alloc),
            tokens: Vec::new(alloc),
            inner: Vec::new(alloc),
        }
    }

    fn clear(&mut self)
        ensures items { self.new.items.items ≡ [] }
        ensures tokens { self.new.tokens.items ≡ [] }
        ensures inner { self.new.inner.items ≡ [] }
    {
        self.items.clear();
        self.tokens.clear();
        self.inner.clear();
    }
}

/// Puts the atomic phrases, which go from the last to the first, in the place of those before.
fn split(sequence: &mut Sequence, atoms: Vec<Atom>) -> Result<(), Memory>
    ensures items { OnOk result (AreItems sequence.new.items.items (atoms_of atoms)) }
    ensures tokens { OnOk result (sequence.new.tokens.items ≡ map (λ (a : founds.Atom). a.token) (atoms_of atoms)) }
    ensures inner { OnOk result (map name_of sequence.new.inner.items ≡ first_inner (atoms_of atoms)) }
{
    sequence.clear();
    let mut atoms = atoms;
    let Some(first) = atoms.pop() else {
        return Ok(());
    };
    sequence.items.push(first.item)?;
    sequence.tokens.push(first.token)?;
    sequence.inner = first.inner;
    while let Some(atom) = atoms.pop() {
        sequence.items.push(atom.item)?;
        sequence.tokens.push(atom.token)?;
    }
    Ok(())
}

/// The identifiers among atomic phrases that go from the last to the first.
fn idents(alloc: Global, atoms: Vec<Atom>) -> Result<Vec<Ident>, Memory>
    ensures { IfOk result (λ v. map ident_of v.items ≡ ids_of (atoms_of atoms)) }
{
    let mut idents = Vec::new(alloc);
    let mut atoms = atoms;
    while let Some(atom) = atoms.pop() {
        let Atom {
            item,
            token: _,
            inner: _,
        } = atom;
        match item {
            Item::Short(ident) => idents.push(ident)?,
            Item::Op => {}
            Item::Long => {}
            Item::Phrase => {}
        }
    }
    Ok(idents)
}

fn token_at(tokens: &[usize], index: usize) -> usize
    ensures { result ≡ get_or tokens.now index 0 }
{
    match tokens.get(index) {
        Some(token) => *token,
        None => 0,
    }
}

/// What the sequence with these tokens stands for.
fn stands(tokens: &[usize], shape: Shape) -> Outcome
    ensures { (atoms : List founds.Atom) → tokens.now ≡ map (λ (a : founds.Atom). a.token) atoms →
        outcome_of result ≡ spec.stands (fit_at atoms (shape_of shape)) }
{
    Outcome::Stands(Fit {
        token: token_at(tokens, 0),
        shape,
    })
}

/// What one operand stands for.
fn alone(atoms: &Vec<Atom>) -> Outcome
    ensures { outcome_of result ≡ spec.stands (fit_at (atoms_of atoms.now) (tree (Push 0 ∷ []))) }
{
    let token = match atoms.last() {
        Some(atom) => atom.token,
        None => 0,
    };
    Outcome::Stands(Fit {
        token,
        shape: Shape::First,
    })
}

/// A sequence of one atomic phrase.
fn one_atom(alloc: Global, item: Item, token: usize) -> Result<Vec<Atom>, Memory>
    ensures { IfOk result (λ v. atoms_of v ≡ atom (name_of item) token [] ∷ []) }
{
    let mut atoms = Vec::new(alloc);
    atoms.push(Atom {
        item,
        token,
        inner: Vec::new(alloc),
    })?;
    Ok(atoms)
}

/// The bytes of a level, none where it isn't written.
fn level_bytes<'a>(unit: &'a [u8], tokens: &[Token], level: Option<usize>) -> &'a [u8]
    ensures { result.now ≡ level_text (text_at unit.now tokens.now) level }
{
    let Some(token) = level else {
        return &[];
    };
    match tokens.get(token) {
        Some(token) => text(unit, token.span),
        None => &[],
    }
}

impl Reach {
    /// The beginning of a unit.
    fn new(alloc: Global) -> Result<Reach, Memory>
        ensures { IfOk result (λ r. state_of r ≡ start) }
    {
        Ok(Reach {
            fixities: Fixities::initial(alloc)?,
            count: 0,
            begun: 0,
        })
    }

    fn misfit(&self, token: usize, code: Code) -> Misfit
        ensures { result ≡ spec.misfit (state_of self.now) token code }
    {
        Misfit {
            number: self.count,
            begun: self.begun,
            token,
            code,
        }
    }

    /// Where a fault of the sequence with these tokens stands.
    fn misfit_of(&self, tokens: &[usize], fault: FixFault) -> Result<Misfit, Memory>
        ensures { (atoms : List founds.Atom) → tokens.now ≡ map (λ (a : founds.Atom). a.token) atoms →
            IfOk result (λ m. misfit_of (state_of self.now) atoms fault ≡ Some m) }
    {
        match fault {
            FixFault::NoOperand(index) => Ok(self.misfit(token_at(tokens, index), Code::F1)),
            FixFault::MixedSides(index) => Ok(self.misfit(token_at(tokens, index), Code::F2)),
            FixFault::Malformed => Ok(self.misfit(token_at(tokens, 0), Code::F4)),
            FixFault::Memory => Err(Memory),
        }
    }

    /// Whether an item is an operand by itself: no identifier with a fixity.
    fn is_atom(&self, item: &Item) -> bool
        ensures { result ≡ true → role_at (state_of self.now).here 0 item.now ≡ role_by 0 None }
    {
        match item {
            Item::Short(name) => self.fixities.lookup(name).is_none(),
            Item::Op => true,
            Item::Long => true,
            Item::Phrase => true,
        }
    }

    /// Whether this is one atomic phrase, which is an operand.
    fn is_operand(&self, atoms: &[Atom]) -> bool
        ensures { result ≡ true → IsOperand (state_of self.now).here atoms.now }
    {
        match (atoms.first(), atoms.get(1)) {
            (Some(atom), None) => self.is_atom(&atom.item),
            _ => false,
        }
    }

    /// What a sequence of atomic expressions comes to.
    fn of_expression(
        &self,
        alloc: Global,
        sequence: &mut Sequence,
        atoms: Vec<Atom>,
    ) -> Result<Outcome, Memory>
        ensures empty { atoms_of atoms ≡ [] → IfOk result (λ o. outcome_of o ≡ idle) }
        ensures some { 0 < length (atoms_of atoms) → IfOk result (λ o. spec.IsExpression (state_of self.now) (atoms_of atoms) (outcome_of o)) }
    {
        if self.is_operand(&atoms) {
            return Ok(alone(&atoms));
        }
        split(sequence, atoms)?;
        if sequence.items.is_empty() {
            return Ok(Outcome::Idle);
        }
        match resolve(alloc, &self.fixities, &sequence.items) {
            Ok(operand) => Ok(stands(&sequence.tokens, Shape::Tree(operand))),
            Err(fault) => Ok(Outcome::Fails(self.misfit_of(&sequence.tokens, fault)?)),
        }
    }

    /// What a sequence of one atomic expression comes to.
    fn of_one_expression(
        &self,
        alloc: Global,
        sequence: &mut Sequence,
        item: Item,
        token: usize,
    ) -> Result<Outcome, Memory>
        ensures { IfOk result (λ o. spec.IsExpression (state_of self.now) (atom (name_of item) token [] ∷ []) (outcome_of o)) }
    {
        if self.is_atom(&item) {
            let shape = Shape::First;
            return Ok(Outcome::Stands(Fit { token, shape }));
        }
        let atoms = one_atom(alloc, item, token)?;
        self.of_expression(alloc, sequence, atoms)
    }

    /// What a sequence of one atomic pattern comes to.
    fn of_one_pattern(
        &self,
        alloc: Global,
        sequence: &mut Sequence,
        item: Item,
        token: usize,
    ) -> Result<Outcome, Memory>
        ensures { IfOk result (λ o. spec.IsPattern (state_of self.now) (atom (name_of item) token [] ∷ []) (outcome_of o)) }
    {
        if self.is_atom(&item) {
            let shape = Shape::First;
            return Ok(Outcome::Stands(Fit { token, shape }));
        }
        let atoms = one_atom(alloc, item, token)?;
        self.of_pattern(alloc, sequence, atoms)
    }

    /// What a sequence of atomic patterns comes to.
    fn of_pattern(
        &self,
        alloc: Global,
        sequence: &mut Sequence,
        atoms: Vec<Atom>,
    ) -> Result<Outcome, Memory>
        ensures empty { atoms_of atoms ≡ [] → IfOk result (λ o. outcome_of o ≡ idle) }
        ensures some { 0 < length (atoms_of atoms) → IfOk result (λ o. spec.IsPattern (state_of self.now) (atoms_of atoms) (outcome_of o)) }
    {
        if self.is_operand(&atoms) {
            return Ok(alone(&atoms));
        }
        split(sequence, atoms)?;
        if sequence.items.is_empty() {
            return Ok(Outcome::Idle);
        }
        match resolve_pattern(alloc, &self.fixities, &sequence.items) {
            Ok(operand) => Ok(stands(&sequence.tokens, Shape::Tree(operand))),
            Err(fault) => Ok(Outcome::Fails(self.misfit_of(&sequence.tokens, fault)?)),
        }
    }

    /// What the head of a clause comes to.
    fn of_head(&self, sequence: &mut Sequence, atoms: Vec<Atom>) -> Result<Outcome, Memory>
        ensures { IfOk result (λ o. spec.IsClauseHead (state_of self.now) (atoms_of atoms) (outcome_of o)) }
    {
        split(sequence, atoms)?;
        match clause_head(&self.fixities, &sequence.items, &sequence.inner) {
            Ok(head) => Ok(stands(&sequence.tokens, Shape::Head(head))),
            Err(fault) => Ok(Outcome::Fails(self.misfit_of(&sequence.tokens, fault)?)),
        }
    }

    /// A directive, whose identifiers go from the last to the first.
    fn direct(
        &mut self,
        alloc: Global,
        directive: Directive,
        bytes: &[u8],
        level: Option<usize>,
        atoms: Vec<Atom>,
    ) -> Result<Outcome, Memory>
        ensures happens { (text : ℕ → Id) → bytes.now ≡ level_text text level →
            IfOk result (λ o. Happens text (state_of self.old) (directs directive level (atoms_of atoms)) (outcome_of o) (state_of self.new)) }
        ensures count { self.new.count ≡ self.old.count }
    {
        let idents = idents(alloc, atoms)?;
        match self.fixities.with(directive, bytes, &idents) {
            Ok(()) => Ok(Outcome::Idle),
            Err(DirectiveFault::Level) => {
                Ok(Outcome::Fails(self.misfit(level.unwrap_or(0), Code::F3)))
            }
            Err(DirectiveFault::Memory) => Err(Memory),
        }
    }

    /// What an event does, and what it comes to.
    fn happen(
        &mut self,
        alloc: Global,
        unit: &[u8],
        tokens: &[Token],
        sequence: &mut Sequence,
        event: Event,
    ) -> Result<Outcome, Memory>
        requires { self.now.count < 2 ^ 64 - 1 }
        ensures happens { IfOk result (λ o. Happens (text_at unit.now tokens.now) (state_of self.old) (seen event) (outcome_of o) (state_of self.new)) }
        ensures count { self.new.count ≤ self.old.count + 1 }
    {
        match event {
            Event::Begins(token) => {
                self.count += 1;
                self.begun = token;
                Ok(Outcome::Declares(token))
            }
            Event::Enters => {
                self.fixities.enter()?;
                Ok(Outcome::Idle)
            }
            Event::Leaves => {
                self.fixities.leave()?;
                Ok(Outcome::Idle)
            }
            Event::Directs(directed) => {
                let Directed {
                    directive,
                    level,
                    atoms,
                } = Box::into_inner(directed);
                let bytes = level_bytes(unit, tokens, level);
                self.direct(alloc, directive, bytes, level, atoms)
            }
            Event::OneExpression(item, token) => self.of_one_expression(
                alloc, sequence, item, token,
            ),
            Event::OnePattern(item, token) => self.of_one_pattern(alloc, sequence, item, token),
            Event::Expression(atoms) => self.of_expression(alloc, sequence, atoms),
            Event::Pattern(atoms) => self.of_pattern(alloc, sequence, atoms),
            Event::Head(atoms) => self.of_head(sequence, atoms),
        }
    }
}

fn code_number(code: Code) -> u8
    ensures { result ≡ spec.code_number code }
{
    match code {
        Code::F1 => 1,
        Code::F2 => 2,
        Code::F3 => 3,
        _ => 4,
    }
}

fn misfit_precedes(left: Misfit, right: Misfit) -> bool
    ensures { result ≡ spec.misfit_precedes left right }
{
    left.token < right.token
        || (left.token == right.token && code_number(left.code) <= code_number(right.code))
}

fn earlier_misfit(left: Misfit, right: Option<Misfit>) -> Misfit
    ensures { result ≡ spec.earlier_misfit left right }
{
    match right {
        None => left,
        Some(right) => {
            if misfit_precedes(left, right) {
                left
            } else {
                right
            }
        }
    }
}

/// The first fault of the first declaration that has one.
fn first_of(misfits: &[Misfit]) -> Option<Misfit>
    ensures { result ≡ first_misfit misfits.now }
{
    if misfits.is_empty() {
        return None;
    }
    let number = misfits[0].number;
    let mut first = None;
    for i in (0..misfits.len()).rev() {
        let misfit = misfits[i];
        if misfit.number == number {
            first = Some(earlier_misfit(misfit, first));
        }
    }
    first
}

/// The next event, of those that go from the last to the first. Where half of their room is empty, it is given back.
fn next(events: &mut Vec<Event>) -> Option<Event>
    ensures event { MatchOption result (map seen (reverse events.old.items) ≡ [])
        (λ event. map seen (reverse events.old.items) ≡ seen event ∷ map seen (reverse events.new.items)) }
    ensures fewer { IfSome result (λ _. length events.new.items + 1 ≡ length events.old.items) }
{
    if events.len() < events.capacity() / 2 {
        events.shrink_to_fit();
    }
    events.pop()
}

impl Gathered {
    fn new(alloc: Global) -> Gathered
        ensures { AreGathered result [] }
    {
        Gathered {
            declarations: Vec::new(alloc),
            begun: None,
            fits: Vec::new(alloc),
            misfits: Vec::new(alloc),
        }
    }

    /// The last declaration that has begun goes to the others.
    fn end(&mut self, alloc: Global) -> Result<(), Memory>
        ensures all { (all : List shapes.Fitted) → AreDeclared (map fitted_of self.old.declarations.items) self.old.begun (map fit_of self.old.fits.items) all →
            OnOk result (map fitted_of self.new.declarations.items ≡ all) }
        ensures none { OnOk result (self.new.fits.items ≡ []) }
        ensures misfits { self.new.misfits ≡ self.old.misfits }
    {
        let fits = mem::replace(&mut self.fits, Vec::new(alloc));
        let Some(begun) = self.begun else {
            return Ok(());
        };
        self.declarations.push(Fitted { begun, fits })?;
        Ok(())
    }

    /// A declaration begins at this token.
    fn begin(&mut self, alloc: Global, begun: usize) -> Result<(), Memory>
        ensures { OnOk result ((os : List spec.Outcome) → AreGathered self.old os → AreGathered self.new (os ++ spec.declares begun ∷ [])) }
    {
        self.end(alloc)?;
        self.begun = Some(begun);
        Ok(())
    }

    /// Adds what the next event comes to.
    fn add(&mut self, alloc: Global, outcome: Outcome) -> Result<(), Memory>
        ensures { OnOk result ((os : List spec.Outcome) → AreGathered self.old os → AreGathered self.new (os ++ outcome_of outcome ∷ [])) }
    {
        match outcome {
            Outcome::Declares(begun) => self.begin(alloc, begun)?,
            Outcome::Stands(fit) => self.fits.push(fit)?,
            Outcome::Idle => {}
            Outcome::Fails(misfit) => self.misfits.push(misfit)?,
        }
        Ok(())
    }

    /// All declarations.
    fn declarations(self, alloc: Global) -> Result<Vec<Fitted>, Memory>
        ensures { (os : List spec.Outcome) → AreGathered self os → IfOk result (λ v. map fitted_of v.items ≡ declarations_in os) }
    {
        let mut gathered = self;
        gathered.end(alloc)?;
        let Gathered {
            declarations,
            begun: _,
            fits: _,
            misfits: _,
        } = gathered;
        Ok(declarations)
    }
}

/// What is gathered from what a unit's events come to, which go from the last to the first.
fn gather(
    alloc: Global,
    unit: &[u8],
    tokens: &[Token],
    events: Vec<Event>,
) -> Result<Gathered, Memory>
    ensures { IfOk result (λ g. (scoped : Bool) → (all : List happened.Event) → map seen (reverse events.items) ≡ all_kept scoped all → (scoped ≡ false → AreUndirected all) →
        ComesOf (text_at unit.now tokens.now) all g) }
{
    let mut reach = Reach::new(alloc)?;
    let mut gathered = Gathered::new(alloc);
    let mut sequence = Sequence::new(alloc);
    let mut events = events;
    while let Some(event) = next(&mut events) {
        let outcome = reach.happen(alloc, unit, tokens, &mut sequence, event)?;
        gathered.add(alloc, outcome)?;
    }
    Ok(gathered)
}

/// How many declarations stand before the one with a fault of fixity.
pub fn before_misfit(misfit: Option<Misfit>) -> Option<usize>
    ensures { result ≡ before_misfit misfit }
{
    match misfit {
        None => None,
        Some(misfit) => Some(misfit.number.saturating_sub(1)),
    }
}

fn up_to(most: Option<usize>, declarations: Vec<Fitted>) -> Vec<Fitted>
    ensures { map fitted_of result.items ≡ up_to most (map fitted_of declarations.items) }
{
    let mut declarations = declarations;
    match most {
        Some(most) => declarations.truncate(most),
        None => {}
    }
    declarations
}

/// The declarations of a unit with these nodes before its first fault of fixity, each with what its sequences stand for,
/// and that fault.
pub fn fit(
    alloc: Global,
    unit: &[u8],
    names: &mut Names,
    nodes: &[Node],
    tokens: &[Token],
) -> Result<(Vec<Fitted>, Option<Misfit>), Memory>
    ensures { IfOk result (λ r. AreFitted (text_at unit.now tokens.now) (events_of unit.now tokens.now nodes.now (starts_of 0 nodes.now)) (map fitted_of r.0.items) r.1) }
{
    let events = events(alloc, unit, names, nodes, tokens)?;
    let gathered = gather(alloc, unit, tokens, events)?;
    let first = first_of(&gathered.misfits);
    let declarations = gathered.declarations(alloc)?;
    Ok((up_to(before_misfit(first), declarations), first))
}

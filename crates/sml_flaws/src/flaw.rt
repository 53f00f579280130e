//! The first fault of what a declaration binds: names that are bound twice or can't be bound, clauses that don't
//! agree, and real constants in patterns.

ghost use Rattle.std.specs.Prelude.{◌≡◌, ◌+◌, ◌<◌, ◌≤◌, ◌^◌, ℕ, List, [], ◌∷◌, ◌++◌, Option, None, false, map, length, IfOk, OnOk};
ghost use Rattle.std.specs.List.{cons_option};
ghost use Rattle.sml_flaws.specs.declared.mark.Mark.{Mark};
ghost use Rattle.sml_reach.specs.Events.{text_at};
ghost use Rattle.sml_reach.specs.Fits as shapes;
ghost use Rattle.sml_reach.specs.Fits.{fit_of};
ghost use Rattle.sml_flaws.specs.Marks.{marks_of, start};
ghost use Rattle.sml_flaws.specs.Flaws as spec;
ghost use Rattle.sml_tree.specs.Trees.{Id};
ghost use Rattle.sml_flaws.specs.Known.{atom_at, count_at, is_again, is_used, head_at, token_in, KnowsUses, KnowsHeads};
ghost use Rattle.sml_flaws.specs.Flaws.{KnowsFits, Knows};
ghost use Rattle.sml_flaws.specs.CodeScopes.{AreOwned, KnowsPassed};

use crate::known::{Key, Position, bytes, note_atom, note_count, note_heads, note_key, note_uses};
use crate::mark::{Mark, Runs, note_marks};
use crate::role::Space;
use crate::scopes::{Passed, Scopes, owned_of};
use indexmap::{IndexMap, IndexSet};
use sml_fixity::heads::Head;
use sml_lex::fault::{Code, Memory};
use sml_lex::token::Token;
use sml_reach::fitted::Fit;
use sml_read::grammar::Node;
use sml_read::phrases::ends;
use std::alloc::Global;

/// A fault of what a declaration binds: its token and its code.
#[derive(Clone, Copy, PartialEq, Eq, Drop)]
pub struct Flaw {
    pub token: usize,
    pub code: Code,
}

/// What is known of the marks before.
#[derive(Drop)]
struct Seen<'a> {
    keys: IndexSet<Key<'a>>,
    atoms: IndexMap<Position, usize>,
    counts: IndexMap<usize, usize>,
}

/// So many marks or uses are many: what holds more is given up, since it takes long to clear.
const MANY: usize = 256;

/// What declarations are judged with. All declarations of a unit share it, so that its room is made once.
#[derive(Drop)]
pub struct Workspace<'a> {
    seen: Seen<'a>,
    uses: IndexSet<Position>,
    heads: IndexMap<usize, Head>,
    marks: Vec<Mark>,
    runs: Runs,
}

/// Judges the marks of a declaration, whose sequences are known.
#[derive(Drop)]
struct Judge<'a, 'w> {
    alloc: Global,
    unit: &'a [u8],
    tokens: &'a [Token],
    uses: &'w IndexSet<Position>,
    heads: &'w IndexMap<usize, Head>,
}

fn flaw_if(here: bool, token: usize, code: Code) -> Option<Flaw>
    ensures { result ≡ spec.flaw_if here token code }
{
    if here {
        Some(Flaw { token, code })
    } else {
        None
    }
}

fn is_reserved(text: &[u8]) -> bool
    ensures { result ≡ spec.is_reserved text.now }
{
    text == b"true".as_slice()
        || text == b"false".as_slice()
        || text == b"nil".as_slice()
        || text == b"::".as_slice()
        || text == b"ref".as_slice()
}

fn is_it(text: &[u8]) -> bool
    ensures { result ≡ spec.is_it text.now }
{
    text == b"it".as_slice()
}

/// Whether names of this space are values.
fn names_value(space: Space) -> bool
    ensures { result ≡ spec.names_value space }
{
    match space {
        Space::Constructors | Space::Exceptions | Space::Values => true,
        _ => false,
    }
}

/// Whether names of this space make values of datatypes or of `exn`.
fn names_constructor(space: Space) -> bool
    ensures { result ≡ spec.names_constructor space }
{
    match space {
        Space::Constructors | Space::Exceptions => true,
        _ => false,
    }
}

fn token_in(mark: Mark) -> usize
    ensures { result ≡ token_in mark }
{
    match mark {
        Mark::Bound(bound) => bound.token,
        Mark::Listed(listed) => listed.token,
        Mark::Owned(owned) => owned.token,
        Mark::Identifier(identifier) => identifier.token,
        Mark::Pun(token) => token,
        Mark::Real(token) => token,
        Mark::Clause(clause) => clause.sequence,
    }
}

fn real(mark: Mark) -> Option<Flaw>
    ensures { result ≡ spec.real mark }
{
    match mark {
        Mark::Real(token) => flaw_if(true, token, Code::G5),
        _ => None,
    }
}

/// The fault of a clause with this many arguments in a function of so many.
fn uneven(token: usize, own: Option<usize>, first: Option<usize>) -> Option<Flaw>
    ensures { result ≡ spec.uneven_by token own first }
{
    let own = own?;
    let first = first?;
    flaw_if(own != first, token, Code::G2)
}

/// How many arguments a head of so many atomic patterns has.
fn arity(head: Option<Head>, atoms: Option<usize>) -> Option<usize>
    ensures { result ≡ spec.arity_by head atoms }
{
    let head = head?;
    let atoms = atoms?;
    Some(match head {
        Head::Prefix => atoms.saturating_sub(1),
        Head::Infix => 1,
        Head::Bracketed => atoms,
    })
}

fn push_some(flaws: &mut Vec<Flaw>, flaw: Option<Flaw>) -> Result<(), Memory>
    ensures { OnOk result (flaws.new.items ≡ flaws.old.items ++ cons_option flaw []) }
{
    match flaw {
        Some(flaw) => flaws.push(flaw)?,
        None => {}
    }
    Ok(())
}

fn code_number(code: Code) -> u8
    ensures { result ≡ spec.flaw_number code }
{
    match code {
        Code::G1 => 1,
        Code::G2 => 2,
        Code::G3 => 3,
        Code::G4 => 4,
        _ => 5,
    }
}

fn flaw_precedes(left: Flaw, right: Flaw) -> bool
    ensures { result ≡ spec.flaw_precedes left right }
{
    left.token < right.token
        || left.token == right.token && code_number(left.code) <= code_number(right.code)
}

fn earlier_flaw(left: Flaw, right: Option<Flaw>) -> Flaw
    ensures { result ≡ spec.earlier_flaw left right }
{
    match right {
        Some(right) => {
            if flaw_precedes(left, right) {
                left
            } else {
                right
            }
        }
        None => left,
    }
}

fn first_of(flaws: &[Flaw]) -> Option<Flaw>
    ensures { result ≡ spec.first_flaw flaws.now }
{
    let mut first = None;
    for i in (0..flaws.len()).rev() {
        first = Some(earlier_flaw(flaws[i], first));
    }
    first
}

/// The fault of a variable in the list of a value declaration.
fn scoped_at<'a>(
    scopes: &Scopes<'a>,
    passed: &mut Passed<'a>,
    mark: Mark,
) -> Result<Option<Flaw>, Memory>
    ensures known { let text = text_at scopes.now.unit.now scopes.now.tokens.now in
        KnowsPassed text scopes.now.ends.now scopes.now.owned.items passed.old → OnOk result (KnowsPassed text scopes.now.ends.now scopes.now.owned.items passed.new) }
    ensures flaw { let text = text_at scopes.now.unit.now scopes.now.tokens.now in
        (marks : List Mark) → AreOwned marks scopes.now.owned.items → KnowsPassed text scopes.now.ends.now scopes.now.owned.items passed.old →
        IfOk result (λ flaw. flaw ≡ spec.scoped_at text scopes.now.ends.now marks mark) }
{
    let Mark::Listed(listed) = mark else {
        return Ok(None);
    };
    let Some(node) = listed.owner else {
        return Ok(None);
    };
    let here = passed.is_scoped(scopes, node, listed.token)?;
    Ok(flaw_if(here, listed.token, Code::G3))
}

/// Whether a mark is a variable in the list of a value declaration.
fn is_listed(mark: Mark) -> bool
    ensures { result ≡ false → (text : ℕ → Id) (ends : List ℕ) (all : List Mark) → spec.scoped_at text ends all mark ≡ None }
{
    match mark {
        Mark::Listed(_) => true,
        _ => false,
    }
}

/// Whether some value declaration lists a variable.
fn are_listed(marks: &[Mark]) -> bool
    ensures { result ≡ false → (text : ℕ → Id) (ends : List ℕ) (all : List Mark) → spec.scoped_of text ends all marks.now ≡ [] }
{
    for i in (0..marks.len()).rev() {
        if is_listed(marks[i]) {
            return true;
        }
    }
    false
}

impl<'a> Seen<'a> {
    fn new(alloc: Global) -> Seen<'a>
        ensures { (text : ℕ → Id) → Knows text [] result }
    {
        Seen {
            keys: IndexSet::new(alloc),
            atoms: IndexMap::new(alloc),
            counts: IndexMap::new(alloc),
        }
    }

    /// Forgets all marks.
    fn clear(&mut self)
        ensures { (text : ℕ → Id) → Knows text [] self.new }
    {
        self.keys.clear();
        self.atoms.clear();
        self.counts.clear();
    }

    /// Notes a mark, and answers whether it binds what is bound before.
    fn note(&mut self, judge: &Judge<'a, '_>, mark: Mark) -> Result<bool, Memory>
        ensures knows { let text = text_at judge.now.unit.now judge.now.tokens.now in
            (before : List Mark) → Knows text before self.old → OnOk result (Knows text (mark ∷ before) self.new) }
        ensures again { let text = text_at judge.now.unit.now judge.now.tokens.now in
            (before : List Mark) → Knows text before self.old → IfOk result (λ again. again ≡ is_again text before mark) }
    {
        let again = note_key(judge.unit, judge.tokens, &mut self.keys, mark)?;
        note_atom(&mut self.atoms, mark)?;
        note_count(&mut self.counts, mark)?;
        Ok(again)
    }

    fn count_at(&self, sequence: usize) -> Option<usize>
        ensures { (text : ℕ → Id) (before : List Mark) → Knows text before self.now → result ≡ count_at before sequence }
    {
        self.counts.get(&sequence).copied()
    }

    fn atom_at(&self, sequence: usize, index: usize) -> Option<usize>
        ensures { (text : ℕ → Id) (before : List Mark) → Knows text before self.now → result ≡ atom_at before (spec.position sequence index) }
    {
        let position = Position { sequence, index };
        self.atoms.get(&position).copied()
    }
}

impl<'a> Judge<'a, '_> {
    fn text(&self, token: usize) -> &[u8]
        ensures { result.now ≡ text_at self.now.unit.now self.now.tokens.now token }
    {
        bytes(self.unit, self.tokens, token)
    }

    fn head_at(&self, sequence: usize) -> Option<Head>
        ensures { (fits : List shapes.Fit) → KnowsFits fits self.now → result ≡ head_at fits sequence }
    {
        self.heads.get(&sequence).copied()
    }

    fn is_used(&self, sequence: usize, index: usize) -> bool
        ensures { (fits : List shapes.Fit) → KnowsFits fits self.now → result ≡ is_used fits (spec.position sequence index) }
    {
        let position = Position { sequence, index };
        self.uses.contains(&position)
    }

    /// The token of the name of the clause with this head.
    fn name_at(&self, seen: &Seen, sequence: usize) -> Option<usize>
        ensures { let text = text_at self.now.unit.now self.now.tokens.now in
            (fits : List shapes.Fit) (before : List Mark) → KnowsFits fits self.now → Knows text before seen.now → result ≡ spec.name_at fits before sequence }
    {
        match self.head_at(sequence) {
            Some(Head::Prefix) => seen.atom_at(sequence, 0),
            Some(Head::Infix) => seen.atom_at(sequence, 1),
            Some(Head::Bracketed) => seen.atom_at(sequence.saturating_add(1), 1),
            None => None,
        }
    }

    fn arity_at(&self, seen: &Seen, sequence: usize) -> Option<usize>
        ensures { let text = text_at self.now.unit.now self.now.tokens.now in
            (fits : List shapes.Fit) (before : List Mark) → KnowsFits fits self.now → Knows text before seen.now → result ≡ spec.arity_at fits before sequence }
    {
        arity(self.head_at(sequence), seen.count_at(sequence))
    }

    /// The fault of a clause whose name is this token in a function whose name is that.
    fn unlike_by(&self, own: Option<usize>, first: Option<usize>) -> Option<Flaw>
        ensures { result ≡ spec.unlike_by (text_at self.now.unit.now self.now.tokens.now) own first }
    {
        let own = own?;
        let first = first?;
        let same = self.text(own) == self.text(first);
        flaw_if(!same, own, Code::G1)
    }

    fn unlike(&self, seen: &Seen, mark: Mark) -> Option<Flaw>
        ensures { let text = text_at self.now.unit.now self.now.tokens.now in
            (fits : List shapes.Fit) (before : List Mark) → KnowsFits fits self.now → Knows text before seen.now → result ≡ spec.unlike text fits before mark }
    {
        let Mark::Clause(clause) = mark else {
            return None;
        };
        let own = self.name_at(seen, clause.sequence);
        let first = self.name_at(seen, clause.function);
        self.unlike_by(own, first)
    }

    fn uneven(&self, seen: &Seen, mark: Mark) -> Option<Flaw>
        ensures { let text = text_at self.now.unit.now self.now.tokens.now in
            (fits : List shapes.Fit) (before : List Mark) → KnowsFits fits self.now → Knows text before seen.now → result ≡ spec.uneven fits before mark }
    {
        let Mark::Clause(clause) = mark else {
            return None;
        };
        let own = self.arity_at(seen, clause.sequence);
        let first = self.arity_at(seen, clause.function);
        uneven(clause.sequence, own, first)
    }

    fn barred_name(&self, space: Space, token: usize) -> Option<Flaw>
        ensures { result ≡ spec.barred_name (text_at self.now.unit.now self.now.tokens.now) space token }
    {
        let text = self.text(token);
        let reserved = names_value(space) && is_reserved(text);
        let it = names_constructor(space) && is_it(text);
        flaw_if(reserved || it, token, Code::G4)
    }

    fn barred_value(&self, token: Option<usize>) -> Option<Flaw>
        ensures { result ≡ spec.barred_value (text_at self.now.unit.now self.now.tokens.now) token }
    {
        let token = token?;
        flaw_if(is_reserved(self.text(token)), token, Code::G4)
    }

    /// The fault of a name that can't be bound.
    fn barred(&self, seen: &Seen, mark: Mark) -> Option<Flaw>
        ensures { let text = text_at self.now.unit.now self.now.tokens.now in
            (fits : List shapes.Fit) (before : List Mark) → KnowsFits fits self.now → Knows text before seen.now → result ≡ spec.barred text fits before mark }
    {
        match mark {
            Mark::Bound(bound) => self.barred_name(bound.space, bound.token),
            Mark::Identifier(atom) => {
                if atom.binds && !self.is_used(atom.sequence, atom.index) {
                    self.barred_value(Some(atom.token))
                } else {
                    None
                }
            }
            Mark::Pun(token) => self.barred_value(Some(token)),
            Mark::Clause(clause) => self.barred_value(self.name_at(seen, clause.sequence)),
            Mark::Listed(_) | Mark::Owned(_) | Mark::Real(_) => None,
        }
    }

    /// The faults at a mark, which is noted, go after the others.
    fn push_flaws(
        &self,
        flaws: &mut Vec<Flaw>,
        seen: &Seen,
        mark: Mark,
        again: bool,
    ) -> Result<(), Memory>
        ensures { let text = text_at self.now.unit.now self.now.tokens.now in
            (fits : List shapes.Fit) (known : List Mark) → KnowsFits fits self.now → Knows text known seen.now →
            OnOk result (flaws.new.items ≡ flaws.old.items ++ spec.flaws_by text fits known mark again) }
    {
        push_some(flaws, flaw_if(again, token_in(mark), Code::G3))?;
        push_some(flaws, self.unlike(seen, mark))?;
        push_some(flaws, self.uneven(seen, mark))?;
        push_some(flaws, self.barred(seen, mark))?;
        push_some(flaws, real(mark))?;
        Ok(())
    }

    /// The faults at these marks.
    fn flaws(&self, seen: &mut Seen<'a>, marks: &[Mark]) -> Result<Vec<Flaw>, Memory>
        ensures { let text = text_at self.now.unit.now self.now.tokens.now in
            (fits : List shapes.Fit) → KnowsFits fits self.now → IfOk result (λ flaws. flaws.items ≡ spec.flaws_of text fits [] marks.now) }
    {
        seen.clear();
        let mut flaws = Vec::new(self.alloc);
        for mark in marks {
            let again = seen.note(self, *mark)?;
            self.push_flaws(&mut flaws, seen, *mark, again)?;
        }
        Ok(flaws)
    }

    /// The faults of variables in lists go after the others.
    fn push_scoped(
        &self,
        flaws: &mut Vec<Flaw>,
        ends: &[usize],
        marks: &[Mark],
    ) -> Result<(), Memory>
        ensures { let text = text_at self.now.unit.now self.now.tokens.now in
            OnOk result (flaws.new.items ≡ flaws.old.items ++ spec.scoped_of text ends.now marks.now marks.now) }
    {
        let scopes = Scopes {
            unit: self.unit,
            tokens: self.tokens,
            ends,
            owned: owned_of(self.alloc, marks)?,
        };
        let mut passed = Passed::new(self.alloc);
        for mark in marks {
            push_some(flaws, scoped_at(&scopes, &mut passed, *mark)?)?;
        }
        Ok(())
    }
}

impl<'a> Workspace<'a> {
    pub fn new(alloc: Global) -> Workspace<'a> {
        Workspace {
            seen: Seen::new(alloc),
            uses: IndexSet::new(alloc),
            heads: IndexMap::new(alloc),
            marks: Vec::new(alloc),
            runs: Runs::new(alloc),
        }
    }

    /// Whether the last declaration had many marks or uses.
    fn is_large(&self) -> bool {
        self.marks.len() > MANY || self.uses.len() > MANY
    }

    /// Notes the marks of a declaration and what its sequences stand for, in the place of those before.
    fn note(&mut self, nodes: &[Node], begun: usize, fits: &[Fit]) -> Result<(), Memory>
        requires { begun + length nodes.now < 2 ^ 64 }
        ensures uses { OnOk result (KnowsUses (map fit_of fits.now) self.new.uses) }
        ensures heads { OnOk result (KnowsHeads (map fit_of fits.now) self.new.heads) }
        ensures marks { OnOk result (self.new.marks.items ≡ marks_of 0 begun (start ∷ []) nodes.now) }
    {
        note_uses(&mut self.uses, fits)?;
        note_heads(&mut self.heads, fits)?;
        note_marks(&mut self.marks, &mut self.runs, nodes, begun)
    }

    /// The first fault of what is noted.
    fn first_flaw(
        &mut self,
        alloc: Global,
        unit: &'a [u8],
        tokens: &'a [Token],
        nodes: &[Node],
    ) -> Result<Option<Flaw>, Memory>
        ensures { let text = text_at unit.now tokens.now in
            (fits : List shapes.Fit) → KnowsUses fits self.old.uses → KnowsHeads fits self.old.heads →
            IfOk result (λ first. first ≡ spec.first_flaw (spec.flaws_in text fits nodes.now self.old.marks.items)) }
    {
        let judge = Judge {
            alloc,
            unit,
            tokens,
            uses: &self.uses,
            heads: &self.heads,
        };
        let mut flaws = judge.flaws(&mut self.seen, &self.marks)?;
        if are_listed(&self.marks) {
            judge.push_scoped(&mut flaws, &ends(alloc, nodes)?, &self.marks)?;
        }
        Ok(first_of(&flaws))
    }
}

/// The first fault, by token and then by number, of what a declaration with these nodes and sequences binds, the first
/// node beginning at this token.
pub fn first_flaw<'a>(
    alloc: Global,
    unit: &'a [u8],
    tokens: &'a [Token],
    workspace: &mut Workspace<'a>,
    nodes: &[Node],
    begun: usize,
    fits: &[Fit],
) -> Result<Option<Flaw>, Memory>
    requires { begun ≤ length tokens.now }
    ensures { let text = text_at unit.now tokens.now in
        IfOk result (λ first. first ≡ spec.first_flaw (spec.flaws text (map fit_of fits.now) begun nodes.now)) }
{
    if workspace.is_large() {
        *workspace = Workspace::new(alloc);
    }
    workspace.note(nodes, begun, fits)?;
    workspace.first_flaw(alloc, unit, tokens, nodes)
}

//! What is known of the marks before a mark, and of what sequences stand for.

ghost use Rattle.std.specs.Prelude.{◌≡◌, ℕ, Bool, true, false, List, [], ◌∷◌, ◌++◌, Option, map, drop, length, slice_get, if◌then◌else◌, IfOk, OnOk};
ghost use Rattle.std.specs.List.{cons_option};
ghost use Rattle.std.specs.Option.{option_map};
ghost use Rattle.indexmap.specs.IndexMap.{get};
ghost use Rattle.indexmap.specs.IndexSet.{contains};
ghost use Rattle.sml_flaws.specs.declared.mark.Mark.{Mark};
ghost use Rattle.sml_reach.specs.Events.{text_at};
ghost use Rattle.sml_reach.specs.Fits as fits;
ghost use Rattle.sml_reach.specs.Fits.{fit_of};
ghost use Rattle.sml_flaws.specs.Known as spec;
ghost use Rattle.sml_flaws.specs.Known.{key_of, KnowsKeys, KnowsAtoms, KnowsCounts, KnowsUses, KnowsHeads};

use crate::mark::Mark;
use crate::role::Space;
use indexmap::{IndexMap, IndexSet};
use sml_fixity::heads::Head;
use sml_fixity::sequences::Step;
use sml_fixity::shape::Shape;
use sml_lex::fault::Memory;
use sml_lex::token::Token;
use sml_reach::fitted::Fit;
use sml_reach::place::text;

/// A name with its space, by number, and its group.
#[derive(PartialEq, Eq, Hash, Drop)]
pub struct Key<'a> {
    pub space: usize,
    pub group: usize,
    pub name: &'a [u8],
}

/// A place in a sequence of atomic phrases.
#[derive(Clone, Copy, PartialEq, Eq, Hash, Drop)]
pub struct Position {
    pub sequence: usize,
    pub index: usize,
}

/// The bytes of a token.
pub fn bytes<'a>(unit: &'a [u8], tokens: &[Token], token: usize) -> &'a [u8]
    ensures { result.now ≡ text_at unit.now tokens.now token }
{
    match tokens.get(token) {
        Some(token) => text(unit, token.span),
        None => &[],
    }
}

/// The number of a space, in order.
fn number(space: Space) -> usize
    ensures { result ≡ spec.space_number space }
{
    space as usize
}

/// The key of a name.
fn key_at<'a>(unit: &'a [u8], tokens: &[Token], space: Space, group: usize, token: usize) -> Key<'a>
    ensures { key_of result ≡ spec.key_at (text_at unit.now tokens.now) space group token }
{
    Key {
        space: number(space),
        group,
        name: bytes(unit, tokens, token),
    }
}

/// The key that a mark binds.
fn key_in<'a>(unit: &'a [u8], tokens: &[Token], mark: Mark) -> Option<Key<'a>>
    ensures { option_map key_of result ≡ spec.key_in (text_at unit.now tokens.now) mark }
{
    match mark {
        Mark::Bound(bound) => { Some(key_at(unit, tokens, bound.space, bound.group, bound.token)) }
        Mark::Listed(listed) => {
            Some(key_at(unit, tokens, Space::Variables, listed.group, listed.token))
        }
        Mark::Owned(_) | Mark::Identifier(_) | Mark::Pun(_) | Mark::Real(_) | Mark::Clause(_) =>
            None,
    }
}

/// Notes the key that a mark binds, and answers whether an earlier mark binds it.
pub fn note_key<'a>(
    unit: &'a [u8],
    tokens: &[Token],
    keys: &mut IndexSet<Key<'a>>,
    mark: Mark,
) -> Result<bool, Memory>
    ensures knows { let text = text_at unit.now tokens.now in
        (before : List Mark) → KnowsKeys text before keys.old → OnOk result (KnowsKeys text (mark ∷ before) keys.new) }
    ensures again { let text = text_at unit.now tokens.now in
        (before : List Mark) → KnowsKeys text before keys.old → IfOk result (λ again. again ≡ spec.is_again text before mark) }
{
    let Some(key) = key_in(unit, tokens, mark) else {
        return Ok(false);
    };
    let added = keys.insert(key)?;
    Ok(!added)
}

/// Notes the identifier in a pattern that a mark is.
pub fn note_atom(atoms: &mut IndexMap<Position, usize>, mark: Mark) -> Result<(), Memory>
    ensures { (before : List Mark) → KnowsAtoms before atoms.old → OnOk result (KnowsAtoms (mark ∷ before) atoms.new) }
{
    let Mark::Identifier(atom) = mark else {
        return Ok(());
    };
    let position = Position {
        sequence: atom.sequence,
        index: atom.index,
    };
    atoms.insert(position, atom.token)?;
    Ok(())
}

/// Notes how many atomic patterns the head of the clause has that a mark is.
pub fn note_count(counts: &mut IndexMap<usize, usize>, mark: Mark) -> Result<(), Memory>
    ensures { (before : List Mark) → KnowsCounts before counts.old → OnOk result (KnowsCounts (mark ∷ before) counts.new) }
{
    let Mark::Clause(clause) = mark else {
        return Ok(());
    };
    counts.insert(clause.sequence, clause.atoms)?;
    Ok(())
}

fn step_at(steps: &[Step], index: usize) -> Option<Step>
    ensures { result ≡ slice_get steps.now index }
{
    match steps.get(index) {
        Some(step) => Some(*step),
        None => None,
    }
}

/// The atomic phrase that a step takes as an operator or applies, the step after the next one being this.
fn use_of(step: Step, later: Option<Step>) -> Option<usize>
    ensures { result ≡ spec.use_of step later }
{
    match step {
        Step::Combine(index) => Some(index),
        Step::Push(index) => match later {
            Some(Step::Apply) => Some(index),
            _ => None,
        },
        Step::Apply => None,
    }
}

fn add_use(
    uses: &mut IndexSet<Position>,
    sequence: usize,
    index: Option<usize>,
) -> Result<(), Memory>
    ensures { OnOk result ((q : Position) → contains spec.same_position uses.new q ≡ (if spec.is_at index sequence q then true else contains spec.same_position uses.old q)) }
{
    let Some(index) = index else {
        return Ok(());
    };
    uses.insert(Position { sequence, index })?;
    Ok(())
}

/// The atomic phrases that the steps of this sequence take as operators or apply are added.
fn add_uses(uses: &mut IndexSet<Position>, sequence: usize, steps: &[Step]) -> Result<(), Memory>
    ensures { OnOk result ((q : Position) → contains spec.same_position uses.new q ≡ (if spec.is_used_in sequence steps.now q then true else contains spec.same_position uses.old q)) }
{
    for i in (0..steps.len()).rev() {
        add_use(uses, sequence, use_of(steps[i], step_at(steps, i + 2)))?;
    }
    Ok(())
}

/// Puts the atomic phrases that sequences take as operators or apply in the place of those before.
pub fn note_uses(uses: &mut IndexSet<Position>, fits: &[Fit]) -> Result<(), Memory>
    ensures { OnOk result (KnowsUses (map fit_of fits.now) uses.new) }
{
    uses.clear();
    for i in (0..fits.len()).rev() {
        match &fits[i].shape {
            Shape::First => {}
            Shape::Tree(operand) => add_uses(uses, fits[i].token, &operand.steps)?,
            Shape::Head(_) => {}
        }
    }
    Ok(())
}

/// Puts how the heads of clauses are written, by their first tokens, in the place of those before.
pub fn note_heads(heads: &mut IndexMap<usize, Head>, fits: &[Fit]) -> Result<(), Memory>
    ensures { OnOk result (KnowsHeads (map fit_of fits.now) heads.new) }
{
    heads.clear();
    for i in (0..fits.len()).rev() {
        match &fits[i].shape {
            Shape::First => {}
            Shape::Tree(_) => {}
            Shape::Head(how) => {
                heads.insert(fits[i].token, *how)?;
            }
        }
    }
    Ok(())
}

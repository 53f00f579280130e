//! What sequences of atomic patterns stand for.

ghost use Rattle.std.specs.Prelude.{◌≡◌, [], ◌∷◌, map, reverse, get_or, set, drop, IfOk};
ghost use Rattle.std.specs.Option.{option_map};
ghost use Rattle.sml_tree.specs.Heights.{highest, pat_height};
ghost use Rattle.sml_tree.specs.TypeViews.{name_of, tys_of, ty_of};
ghost use Rattle.sml_tree.specs.Patterns.{pat_typed};
ghost use Rattle.sml_tree.specs.PatternViews.{pat_of, pats_of};
ghost use Rattle.sml_pat_sequences.specs.PatternSequences.{pat_place, no_operand, operator_of, paired, applied, combined, step, joined, pat_of_steps, typed_by, shaped, list_of_pats, sequence_pat, first_pushed, begins, round_sequence};
ghost use Rattle.sml_pat_sequences.specs.RoundPatterns.{round_pat};
ghost use Rattle.sml_pat_sequences.specs.LowViews.{GivesPat, building_of, low_pat_of, low_pats_of, low_tys_of};
ghost use Rattle.sml_phrases.specs.PhraseHeights.{low};
ghost use Rattle.sml_phrases.specs.PhraseViews.{Gives};
ghost use Rattle.sml_fixity.specs.Shapes.{shape_of};

use crate::low_lists::and_pat;
use crate::round_patterns::round_pat;
use sml_derived::expander::Expander;
use sml_fixity::sequences::Step;
use sml_fixity::shape::Shape;
use sml_lex::fault::{FIRST, Memory, Place};
use sml_phrases::low::{LowPat, LowPats, LowTy, LowTys};
use sml_phrases::phrase::Failure;
use sml_phrases::raise::raised;
use sml_tree::names::Name;
use sml_tree::patterns::Pat;
use std::alloc::Global;
use std::mem;
use std::rc::Rc;

/// The atomic patterns that are not yet used, each at its index, and the patterns on the stack.
#[derive(Drop)]
pub struct Building {
    atoms: Vec<LowPat>,
    stack: Vec<LowPat>,
}

/// The place of a pattern's first token.
pub fn pat_place(pat: &Pat) -> Place
    ensures { result ≡ pat_place (pat_of pat.now) }
{
    match pat {
        Pat::Wildcard(place) => *place,
        Pat::Constant(place, _) => *place,
        Pat::Identifier(place, _) => *place,
        Pat::Row(place, _, _) => *place,
        Pat::Tuple(place, _) => *place,
        Pat::Bracket(place, _) => *place,
        Pat::Applied(place, _, _) => *place,
        Pat::Typed(place, _, _) => *place,
        Pat::As(place, _, _, _) => *place,
    }
}

/// The pattern that stands for one that lacks.
pub fn no_operand(alloc: Global) -> LowPat
    ensures { pat_of result.tree ≡ no_operand }
{
    LowPat {
        tree: Pat::Tuple(FIRST, Vec::new(alloc)),
        height: 1,
    }
}

/// The identifier that an atomic pattern is, as an operator.
fn operator_of(alloc: Global, pat: Pat) -> Result<Name, Memory>
    ensures { IfOk result (λ name. name_of name ≡ operator_of (pat_of pat)) }
{
    match pat {
        Pat::Identifier(_, long) => Ok(Name {
            place: long.place,
            ident: long.last,
        }),
        other => {
            discard(other);
            Ok(Name {
                place: FIRST,
                ident: Rc::new(alloc, Vec::new(alloc))?,
            })
        }
    }
}

fn discard(_pat: Pat) {}

/// Two patterns as one.
pub fn paired(alloc: Global, left: LowPat, right: LowPat) -> Result<LowPat, Failure>
    ensures { GivesPat (paired (pat_of left.tree) (pat_of right.tree)) result }
{
    let place = pat_place(&left.tree);
    let height = raised(left.height.max(right.height), 1)?;
    let mut pats = Vec::with_capacity(alloc, 2)?;
    pats.push(left.tree)?;
    pats.push(right.tree)?;
    Ok(LowPat {
        tree: Pat::Tuple(place, pats),
        height,
    })
}

/// `f x`
fn applied(alloc: Global, function: LowPat, argument: LowPat) -> Result<LowPat, Failure>
    ensures { GivesPat (applied (pat_of function.tree) (pat_of argument.tree)) result }
{
    let height = function.height;
    let tree = function.tree;
    match tree {
        Pat::Identifier(place, long) => {
            let height = raised(argument.height, 1)?;
            let tree = Pat::Applied(place, long, Box::new(alloc, argument.tree)?);
            Ok(LowPat { tree, height })
        }
        tree => paired(alloc, LowPat { tree, height }, argument),
    }
}

/// `a f b`
fn combined(
    expander: &Expander,
    operator: Name,
    left: LowPat,
    right: LowPat,
) -> Result<LowPat, Failure>
    ensures { GivesPat (combined (name_of operator) (pat_of left.tree) (pat_of right.tree)) result }
{
    let place = pat_place(&left.tree);
    let height = raised(left.height.max(right.height), 2)?;
    let tree = expander.pat_infix(place, operator, left.tree, right.tree)?;
    Ok(LowPat { tree, height })
}

/// The atomic pattern at an index, which is then used.
fn atom(alloc: Global, atoms: &mut Vec<LowPat>, index: usize) -> LowPat
    ensures value { low_pat_of result ≡ get_or (map low_pat_of atoms.old.items) index no_operand }
    ensures others { map low_pat_of atoms.new.items ≡ set (map low_pat_of atoms.old.items) index no_operand }
{
    if index < atoms.len() {
        return mem::replace(&mut atoms[index], no_operand(alloc));
    }
    no_operand(alloc)
}

/// The pattern on top of a stack, which is taken off.
fn operand(alloc: Global, stack: &mut Vec<LowPat>) -> LowPat
    ensures value { low_pat_of result ≡ get_or (map low_pat_of (reverse stack.old.items)) 0 no_operand }
    ensures rest { map low_pat_of (reverse stack.new.items) ≡ drop 1 (map low_pat_of (reverse stack.old.items)) }
{
    match stack.pop() {
        Some(pat) => pat,
        None => no_operand(alloc),
    }
}

/// With one pattern more on the stack.
fn with_pattern(atoms: Vec<LowPat>, stack: Vec<LowPat>, pat: LowPat) -> Result<Building, Memory>
    ensures { IfOk result (λ b. building_of b ≡ record { atoms = map low_pat_of atoms.items; stack = low_pat_of pat ∷ map low_pat_of (reverse stack.items) }) }
{
    let mut stack = stack;
    stack.push(pat)?;
    Ok(Building { atoms, stack })
}

/// The two patterns on top of a stack, the lower one first.
fn operands(alloc: Global, stack: &mut Vec<LowPat>) -> (LowPat, LowPat)
    ensures left { low_pat_of result.0 ≡ get_or (map low_pat_of (reverse stack.old.items)) 1 no_operand }
    ensures right { low_pat_of result.1 ≡ get_or (map low_pat_of (reverse stack.old.items)) 0 no_operand }
    ensures rest { map low_pat_of (reverse stack.new.items) ≡ drop 2 (map low_pat_of (reverse stack.old.items)) }
{
    let right = operand(alloc, stack);
    let left = operand(alloc, stack);
    (left, right)
}

fn step(expander: &Expander, building: Building, next: Step) -> Result<Building, Failure>
    ensures { Gives building_of (λ b. low (highest pat_height b.stack)) (step next (building_of building)) result }
{
    let alloc = expander.alloc;
    let mut atoms = building.atoms;
    let mut stack = building.stack;
    match next {
        Step::Push(index) => {
            let made = atom(alloc, &mut atoms, index);
            Ok(with_pattern(atoms, stack, made)?)
        }
        Step::Apply => {
            let (function, argument) = operands(alloc, &mut stack);
            let made = applied(alloc, function, argument)?;
            Ok(with_pattern(atoms, stack, made)?)
        }
        Step::Combine(index) => {
            let operator = operator_of(alloc, atom(alloc, &mut atoms, index).tree)?;
            let (left, right) = operands(alloc, &mut stack);
            let made = combined(expander, operator, left, right)?;
            Ok(with_pattern(atoms, stack, made)?)
        }
    }
}

/// The pattern on top of a stack together with the others.
fn joined(alloc: Global, stack: Vec<LowPat>) -> Result<LowPat, Failure>
    ensures { let qs = map low_pat_of (reverse stack.items) in GivesPat (joined (get_or qs 0 no_operand) (drop 1 qs)) result }
{
    let mut stack = stack;
    let mut whole = operand(alloc, &mut stack);
    while let Some(pat) = stack.pop() {
        whole = paired(alloc, pat, whole)?;
    }
    Ok(whole)
}

/// The pattern that some steps build.
fn pat_of_steps(expander: &Expander, steps: &[Step], atoms: LowPats) -> Result<LowPat, Failure>
    ensures { GivesPat (pat_of_steps steps.now (record { atoms = list_of_pats (pats_of (map low_pat_of (reverse atoms.trees.items))); stack = [] })) result }
{
    let mut atoms = atoms.trees;
    atoms.reverse();
    let mut building = Building {
        atoms,
        stack: Vec::new(expander.alloc),
    };
    for next in steps {
        building = step(expander, building, *next)?;
    }
    joined(expander.alloc, building.stack)
}

fn typed(alloc: Global, place: Place, pat: LowPat, ty: LowTy) -> Result<LowPat, Failure>
    ensures { GivesPat (pat_typed place (low_pat_of pat) (ty_of ty.tree)) result }
{
    let height = raised(pat.height.max(ty.height), 1)?;
    let tree = Pat::Typed(place, Box::new(alloc, pat.tree)?, Box::new(alloc, ty.tree)?);
    Ok(LowPat { tree, height })
}

/// A pattern and the types after its colons.
fn typed_by(alloc: Global, place: Place, pat: LowPat, types: LowTys) -> Result<LowPat, Failure>
    ensures { GivesPat (typed_by place (low_pat_of pat) (tys_of (map (λ t. ty_of t.tree) (reverse types.trees.items)))) result }
{
    let mut types = types.trees;
    let mut pat = pat;
    while let Some(ty) = types.pop() {
        pat = typed(alloc, place, pat, ty)?;
    }
    Ok(pat)
}

fn shaped(expander: &Expander, shape: Option<&Shape>, atoms: LowPats) -> Result<LowPat, Failure>
    ensures { GivesPat (shaped (option_map (λ s. shape_of s.now) shape.entry) (pats_of (map low_pat_of (reverse atoms.trees.items)))) result }
{
    match shape {
        Some(Shape::First) => {
            let mut atoms = atoms.trees;
            Ok(operand(expander.alloc, &mut atoms))
        }
        Some(Shape::Tree(operand)) => pat_of_steps(expander, operand.steps.as_slice(), atoms),
        _ => Ok(no_operand(expander.alloc)),
    }
}

/// The pattern that a sequence of atomic patterns stands for, with the types after its colons.
pub fn sequence(
    expander: &Expander,
    shape: Option<&Shape>,
    atoms: LowPats,
    types: LowTys,
) -> Result<LowPat, Failure>
    ensures { GivesPat (sequence_pat (option_map (λ s. shape_of s.now) shape.entry) (pats_of (map low_pat_of (reverse atoms.trees.items))) (tys_of (map (λ t. ty_of t.tree) (reverse types.trees.items)))) result }
{
    let pat = shaped(expander, shape, atoms)?;
    let place = pat_place(&pat.tree);
    typed_by(expander.alloc, place, pat, types)
}

fn first_pushed(steps: &[Step]) -> bool
    ensures { result ≡ first_pushed steps.now }
{
    if steps.is_empty() {
        return false;
    }
    match steps[0] {
        Step::Push(index) => index == 0,
        _ => false,
    }
}

/// Whether a sequence's steps begin with its first atomic pattern.
fn begins(shape: Option<&Shape>) -> bool
    ensures { result ≡ begins (option_map (λ s. shape_of s.now) shape.entry) }
{
    match shape {
        Some(Shape::First) => true,
        Some(Shape::Tree(operand)) => first_pushed(operand.steps.as_slice()),
        _ => false,
    }
}

/// A sequence whose first pattern is in round brackets, from the patterns in these.
pub fn round_sequence(
    expander: &Expander,
    shape: Option<&Shape>,
    place: Place,
    pats: LowPats,
    atoms: LowPats,
    types: LowTys,
) -> Result<LowPat, Failure>
    ensures { GivesPat (round_sequence (option_map (λ s. shape_of s.now) shape.entry) (round_pat place (low_pats_of pats)) (low_pats_of atoms) (low_tys_of types)) result }
{
    let first = round_pat(expander.alloc, place, pats)?;
    if begins(shape) {
        let atoms = and_pat(first, atoms)?;
        return sequence(expander, shape, atoms, types);
    }
    Ok(first)
}

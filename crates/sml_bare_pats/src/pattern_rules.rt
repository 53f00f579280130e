//! What the rules of patterns make of their parts.

ghost use Rattle.std.specs.Prelude.{◌≡◌, drop, length, OnOk, IfOk, Some, None};
ghost use Rattle.std.specs.Option.{option_map};
ghost use Rattle.sml_read.specs.Grammar.{right_side};
ghost use Rattle.sml_read.specs.declared.grammar.Rule.TheVariants.{Patterns};
ghost use Rattle.sml_tree.specs.Patterns.{wildcard, pat_constant, pat_name, pat_row, no_pat, and_pat, no_pat_field};
ghost use Rattle.sml_tree.specs.Types.{no_ty, and_ty};
ghost use Rattle.sml_tree.specs.TypeViews.{name_of};
ghost use Rattle.sml_derived.specs.Derived.{long};
ghost use Rattle.sml_pat_sequences.specs.LowViews.{GivesPat, low_ty_of, low_tys_of, low_pat_of, low_pats_of};
ghost use Rattle.sml_bare_pats.specs.PatternPhrases.{pat_fields_in, flexible_in, atoms_in, colons_in};
ghost use Rattle.sml_bare_pats.specs.PatternRules.{list_pat, sequence_from, from_vid, op_from_vid, after_op, after_colon, and_atom, field_pat, and_field, pattern_phrase};
ghost use Rattle.sml_pat_sequences.specs.PatternSequences.{round_sequence, sequence_pat};
ghost use Rattle.sml_pat_sequences.specs.RoundPatterns.{round_pat};
ghost use Rattle.sml_phrases.specs.Phrases.{of_tys, of_pat, of_pats, of_pat_fields, of_atoms, of_layer, of_op_atoms, at, name_in, long_in, constant_in, ty_in, tys_in, pat_in, pats_in, ty_if_any, pat_if_any};
ghost use Rattle.sml_phrases.specs.PhraseViews.{Puts, phrase_of, seen};
ghost use Rattle.sml_fixity.specs.Shapes.{shape_of};

use crate::pattern_parts::{
    and_field, atoms_in, field_pat, fields_in, layered, list_pat, pat_as, pat_name,
};
use sml_derived::expander::{Expander, copy_of, long};
use sml_fixity::shape::Shape;
use sml_lex::fault::{Memory, Place};
use sml_pat_sequences::low_lists::{and_pat, and_ty};
use sml_pat_sequences::pattern_sequences::{no_operand, round_sequence, sequence};
use sml_pat_sequences::round_patterns::round_pat;
use sml_phrases::low::{LowPat, LowPatFields, LowPats, LowTy, LowTys};
use sml_phrases::phrase::{Failure, Layer, PatternPhrase, Phrase, TypePhrase, discard};
use sml_phrases::raise::raised;
use sml_phrases::stack::Stack;
use sml_read::grammar::PatternRule;
use sml_tree::names::Name;
use sml_tree::patterns::Pat;

/// A sequence, from its first pattern, the others and the types after them.
fn sequence_with(
    expander: &Expander,
    shape: Option<&Shape>,
    first: LowPat,
    atoms: LowPats,
    types: LowTys,
) -> Result<LowPat, Failure>
    ensures { GivesPat (sequence_pat (option_map (λ s. shape_of s.now) shape.entry) (and_pat (low_pat_of first) (low_pats_of atoms)) (low_tys_of types)) result }
{
    match shape {
        Some(Shape::First) if atoms.trees.is_empty() && types.trees.is_empty() => Ok(first),
        _ => {
            let atoms = and_pat(first, atoms)?;
            sequence(expander, shape, atoms, types)
        }
    }
}

/// A sequence, from its first pattern and what stands after that.
fn sequence_from(
    expander: &Expander,
    shape: Option<&Shape>,
    first: LowPat,
    rest: Phrase,
) -> Result<LowPat, Failure>
    ensures { GivesPat (sequence_from (option_map (λ s. shape_of s.now) shape.entry) (low_pat_of first) (phrase_of rest)) result }
{
    let (atoms, types) = atoms_in(expander.alloc, rest);
    sequence_with(expander, shape, first, atoms, types)
}

/// What stands between round brackets, and what stands after them.
fn round_and_rest(stack: &mut Stack) -> (LowPats, Phrase)
    ensures pats { low_pats_of result.0 ≡ pats_in (at (seen stack.old) 1) }
    ensures phrase { phrase_of result.1 ≡ at (seen stack.old) 2 }
    ensures rest { seen stack.new ≡ drop 3 (seen stack.old) }
{
    stack.skip();
    let pats = stack.pats();
    let rest = stack.pop();
    (pats, rest)
}

fn from_round_parts(
    expander: &Expander,
    shape: Option<&Shape>,
    place: Place,
    pats: LowPats,
    rest: Phrase,
) -> Result<LowPat, Failure>
    ensures { GivesPat (round_sequence (option_map (λ s. shape_of s.now) shape.entry) (round_pat place (low_pats_of pats)) (atoms_in (phrase_of rest)) (colons_in (phrase_of rest))) result }
{
    let (atoms, types) = atoms_in(expander.alloc, rest);
    round_sequence(expander, shape, place, pats, atoms, types)
}

/// A pattern that begins with a round bracket.
fn from_round(
    stack: &mut Stack,
    place: Place,
    shape: Option<&Shape>,
    expander: &Expander,
) -> Result<(), Failure>
    ensures { let vs = seen stack.old in Puts (of_pat (round_sequence (option_map (λ s. shape_of s.now) shape.entry) (round_pat place (pats_in (at vs 1))) (atoms_in (at vs 2)) (colons_in (at vs 2)))) 3 vs (seen stack.new) result }
{
    let (pats, rest) = round_and_rest(stack);
    let pat = from_round_parts(expander, shape, place, pats, rest)?;
    stack.put_pat(pat)
}

/// A pattern that begins with an identifier.
fn from_vid(
    expander: &Expander,
    shape: Option<&Shape>,
    place: Place,
    name: Name,
    rest: Phrase,
) -> Result<LowPat, Failure>
    ensures { GivesPat (from_vid (option_map (λ s. shape_of s.now) shape.entry) place (name_of name) (phrase_of rest)) result }
{
    match rest {
        Phrase::Patterns(PatternPhrase::Layer(layer)) => {
            let Layer { ty, pat } = Box::into_inner(layer);
            layered(expander.alloc, name, ty, pat)
        }
        other => {
            let first = pat_name(place, long(expander.alloc, name));
            sequence_from(expander, shape, first, other)
        }
    }
}

fn vid(
    stack: &mut Stack,
    place: Place,
    shape: Option<&Shape>,
    expander: &Expander,
) -> Result<(), Failure>
    ensures { let vs = seen stack.old in Puts (of_pat (from_vid (option_map (λ s. shape_of s.now) shape.entry) place (name_in (at vs 0)) (at vs 1))) 2 vs (seen stack.new) result }
{
    let name = stack.name()?;
    let rest = stack.pop();
    let pat = from_vid(expander, shape, place, name, rest)?;
    stack.put_pat(pat)
}

/// A pattern that begins with `op`, from what stands after it.
fn after_op(
    expander: &Expander,
    shape: Option<&Shape>,
    place: Place,
    rest: Phrase,
) -> Result<LowPat, Failure>
    ensures { GivesPat (after_op (option_map (λ s. shape_of s.now) shape.entry) place (phrase_of rest)) result }
{
    match rest {
        Phrase::Patterns(PatternPhrase::OpLayer(name, layer)) => {
            let Layer { ty, pat } = Box::into_inner(layer);
            match pat {
                Some(pat) => pat_as(expander.alloc, place, name, ty, pat),
                None => Ok(no_operand(expander.alloc)),
            }
        }
        Phrase::Patterns(PatternPhrase::OpAtoms(long, atoms, types)) => {
            let atoms = and_pat(pat_name(place, long), atoms)?;
            sequence(expander, shape, atoms, types)
        }
        other => {
            discard(other);
            Ok(no_operand(expander.alloc))
        }
    }
}

fn op(
    stack: &mut Stack,
    place: Place,
    shape: Option<&Shape>,
    expander: &Expander,
) -> Result<(), Failure>
    ensures { Puts (of_pat (after_op (option_map (λ s. shape_of s.now) shape.entry) place (at (seen stack.old) 1))) 2 (seen stack.old) (seen stack.new) result }
{
    stack.skip();
    let rest = stack.pop();
    let pat = after_op(expander, shape, place, rest)?;
    stack.put_pat(pat)
}

/// A pattern that begins with another atomic pattern.
fn from_other(stack: &mut Stack, shape: Option<&Shape>, expander: &Expander) -> Result<(), Failure>
    ensures { let vs = seen stack.old in Puts (of_pat (sequence_from (option_map (λ s. shape_of s.now) shape.entry) (pat_in (at vs 0)) (at vs 1))) 2 vs (seen stack.new) result }
{
    let first = stack.pat();
    let rest = stack.pop();
    let pat = sequence_from(expander, shape, first, rest)?;
    stack.put_pat(pat)
}

fn op_from_vid(stack: &mut Stack, name: Name, rest: Phrase) -> Result<(), Failure>
    ensures { Puts (op_from_vid (name_of name) (phrase_of rest)) 0 (seen stack.old) (seen stack.new) result }
{
    match rest {
        Phrase::Patterns(PatternPhrase::Layer(layer)) => {
            let Layer { ty, pat } = Box::into_inner(layer);
            stack.put_op_layer(name, ty, pat)
        }
        other => {
            let (atoms, types) = atoms_in(stack.alloc, other);
            let name = long(stack.alloc, name);
            stack.put(Phrase::Patterns(PatternPhrase::OpAtoms(name, atoms, types)))
        }
    }
}

/// An identifier, and what stands after it.
fn name_and_rest(stack: &mut Stack) -> Result<(Name, Phrase), Memory>
    ensures name { IfOk result (λ r. name_of r.0 ≡ name_in (at (seen stack.old) 0)) }
    ensures phrase { IfOk result (λ r. phrase_of r.1 ≡ at (seen stack.old) 1) }
    ensures rest { OnOk result (seen stack.new ≡ drop 2 (seen stack.old)) }
{
    let name = stack.name()?;
    let rest = stack.pop();
    Ok((name, rest))
}

/// An identifier after `op`, and what stands after it.
fn op_vid(stack: &mut Stack) -> Result<(), Failure>
    ensures { let vs = seen stack.old in Puts (op_from_vid (name_in (at vs 0)) (at vs 1)) 2 vs (seen stack.new) result }
{
    let (name, rest) = name_and_rest(stack)?;
    op_from_vid(stack, name, rest)
}

/// An identifier with a path after `op`, and what stands after it.
fn op_qualified(stack: &mut Stack) -> Result<(), Failure>
    ensures { let vs = seen stack.old in Puts (of_op_atoms (long_in (at vs 0)) (atoms_in (at vs 1)) (colons_in (at vs 1))) 2 vs (seen stack.new) result }
{
    let long = stack.long()?;
    let rest = stack.pop();
    let (atoms, types) = atoms_in(stack.alloc, rest);
    stack.put(Phrase::Patterns(PatternPhrase::OpAtoms(long, atoms, types)))
}

fn no_atoms(stack: &mut Stack) -> Result<(), Failure>
    ensures { Puts (of_atoms no_pat no_ty) 0 (seen stack.old) (seen stack.new) result }
{
    let atoms = LowPats {
        trees: Vec::new(stack.alloc),
        height: 0,
    };
    let types = LowTys {
        trees: Vec::new(stack.alloc),
        height: 0,
    };
    stack.put_atoms(atoms, types)
}

/// A pattern after `as`.
fn after_as(stack: &mut Stack) -> Result<(), Failure>
    ensures { Puts (of_layer None (Some (pat_in (at (seen stack.old) 1)))) 2 (seen stack.old) (seen stack.new) result }
{
    stack.skip();
    let pat = stack.pat();
    stack.put_layer(None, Some(pat))
}

fn after_colon(stack: &mut Stack, ty: LowTy, rest: Phrase) -> Result<(), Failure>
    ensures { Puts (after_colon (low_ty_of ty) (phrase_of rest)) 0 (seen stack.old) (seen stack.new) result }
{
    match rest {
        Phrase::Patterns(PatternPhrase::Layer(layer)) => {
            let Layer { ty: _, pat } = Box::into_inner(layer);
            stack.put_layer(Some(ty), pat)
        }
        Phrase::Types(TypePhrase::Tys(types)) => {
            let types = and_ty(ty, types)?;
            let atoms = LowPats {
                trees: Vec::new(stack.alloc),
                height: 0,
            };
            stack.put_atoms(atoms, types)
        }
        other => {
            discard(other);
            let types = LowTys {
                trees: Vec::new(stack.alloc),
                height: 0,
            };
            let types = and_ty(ty, types)?;
            let atoms = LowPats {
                trees: Vec::new(stack.alloc),
                height: 0,
            };
            stack.put_atoms(atoms, types)
        }
    }
}

/// A type after a colon, and what stands after it.
fn ty_and_rest(stack: &mut Stack) -> (LowTy, Phrase)
    ensures ty { low_ty_of result.0 ≡ ty_in (at (seen stack.old) 1) }
    ensures phrase { phrase_of result.1 ≡ at (seen stack.old) 2 }
    ensures rest { seen stack.new ≡ drop 3 (seen stack.old) }
{
    stack.skip();
    let ty = stack.ty();
    let rest = stack.pop();
    (ty, rest)
}

/// What stands after an identifier that a colon follows.
fn vid_colon(stack: &mut Stack) -> Result<(), Failure>
    ensures { let vs = seen stack.old in Puts (after_colon (ty_in (at vs 1)) (at vs 2)) 3 vs (seen stack.new) result }
{
    let (ty, rest) = ty_and_rest(stack);
    after_colon(stack, ty, rest)
}

/// One atomic pattern more.
fn more_atoms(stack: &mut Stack) -> Result<(), Failure>
    ensures { let vs = seen stack.old in Puts (and_atom (pat_in (at vs 0)) (at vs 1)) 2 vs (seen stack.new) result }
{
    let pat = stack.pat();
    let rest = stack.pop();
    let (atoms, types) = atoms_in(stack.alloc, rest);
    let atoms = and_pat(pat, atoms)?;
    stack.put_atoms(atoms, types)
}

/// The types after colons.
fn colons(stack: &mut Stack) -> Result<(), Failure>
    ensures { let vs = seen stack.old in Puts (of_tys (and_ty (ty_in (at vs 1)) (tys_in (at vs 2)))) 3 vs (seen stack.new) result }
{
    stack.skip();
    let ty = stack.ty();
    let types = and_ty(ty, stack.tys())?;
    stack.put_tys(types)
}

/// The types after the colons that follow atomic patterns.
fn atom_colons(stack: &mut Stack) -> Result<(), Failure>
    ensures { let vs = seen stack.old in Puts (of_atoms no_pat (and_ty (ty_in (at vs 1)) (tys_in (at vs 2)))) 3 vs (seen stack.new) result }
{
    stack.skip();
    let ty = stack.ty();
    let types = and_ty(ty, stack.tys())?;
    let atoms = LowPats {
        trees: Vec::new(stack.alloc),
        height: 0,
    };
    stack.put_atoms(atoms, types)
}

/// An atomic pattern in round brackets.
fn round(stack: &mut Stack, place: Place) -> Result<(), Failure>
    ensures { Puts (of_pat (round_pat place (pats_in (at (seen stack.old) 1)))) 2 (seen stack.old) (seen stack.new) result }
{
    stack.skip();
    let pats = stack.pats();
    let pat = round_pat(stack.alloc, place, pats)?;
    stack.put_pat(pat)
}

fn name(stack: &mut Stack, place: Place) -> Result<(), Failure>
    ensures { Puts (of_pat (pat_name place (long (name_in (at (seen stack.old) 0))))) 1 (seen stack.old) (seen stack.new) result }
{
    let name = stack.name()?;
    let pat = pat_name(place, long(stack.alloc, name));
    stack.put_pat(pat)
}

fn qualified(stack: &mut Stack, place: Place) -> Result<(), Failure>
    ensures { Puts (of_pat (pat_name place (long_in (at (seen stack.old) 0)))) 1 (seen stack.old) (seen stack.new) result }
{
    let long = stack.long()?;
    stack.put_pat(pat_name(place, long))
}

fn op_name(stack: &mut Stack, place: Place) -> Result<(), Failure>
    ensures { Puts (of_pat (pat_name place (long_in (at (seen stack.old) 1)))) 2 (seen stack.old) (seen stack.new) result }
{
    stack.skip();
    qualified(stack, place)
}

fn wildcard(stack: &mut Stack, place: Place) -> Result<(), Failure>
    ensures { Puts (of_pat (wildcard place)) 1 (seen stack.old) (seen stack.new) result }
{
    stack.skip();
    stack.put_pat(LowPat {
        tree: Pat::Wildcard(place),
        height: 1,
    })
}

fn constant(stack: &mut Stack, place: Place) -> Result<(), Failure>
    ensures { Puts (of_pat (pat_constant place (constant_in (at (seen stack.old) 0)))) 1 (seen stack.old) (seen stack.new) result }
{
    let tree = Pat::Constant(place, stack.constant()?);
    stack.put_pat(LowPat { tree, height: 1 })
}

/// A record pattern.
fn row(stack: &mut Stack, place: Place) -> Result<(), Failure>
    ensures { let vs = seen stack.old in Puts (of_pat (pat_row place (pat_fields_in (at vs 1)) (flexible_in (at vs 1)))) 2 vs (seen stack.new) result }
{
    stack.skip();
    let (fields, flexible) = fields_in(stack.alloc, stack.pop());
    let height = raised(fields.height, 1)?;
    let mut trees = fields.trees;
    trees.reverse();
    let tree = Pat::Row(place, trees, flexible);
    stack.put_pat(LowPat { tree, height })
}

/// A list of patterns.
fn list(stack: &mut Stack, place: Place, expander: &Expander) -> Result<(), Failure>
    ensures { Puts (of_pat (list_pat place (pats_in (at (seen stack.old) 1)))) 2 (seen stack.old) (seen stack.new) result }
{
    stack.skip();
    let pats = stack.pats();
    let pat = list_pat(expander, place, pats)?;
    stack.put_pat(pat)
}

/// No patterns before a closing bracket.
fn no_pats(stack: &mut Stack) -> Result<(), Failure>
    ensures { Puts (of_pats no_pat) 1 (seen stack.old) (seen stack.new) result }
{
    stack.skip();
    stack.put_pats(LowPats {
        trees: Vec::new(stack.alloc),
        height: 0,
    })
}

/// One pattern more in brackets.
fn pats(stack: &mut Stack) -> Result<(), Failure>
    ensures { let vs = seen stack.old in Puts (of_pats (and_pat (pat_in (at vs 0)) (pats_in (at vs 1)))) 2 vs (seen stack.new) result }
{
    let pat = stack.pat();
    let pats = and_pat(pat, stack.pats())?;
    stack.put_pats(pats)
}

/// The same after a comma.
fn more_pats(stack: &mut Stack) -> Result<(), Failure>
    ensures { let vs = seen stack.old in Puts (of_pats (and_pat (pat_in (at vs 1)) (pats_in (at vs 2)))) 3 vs (seen stack.new) result }
{
    stack.skip();
    pats(stack)
}

fn no_fields(stack: &mut Stack, flexible: bool) -> Result<(), Failure>
    ensures { Puts (of_pat_fields no_pat_field flexible) 0 (seen stack.old) (seen stack.new) result }
{
    let fields = LowPatFields {
        trees: Vec::new(stack.alloc),
        height: 0,
    };
    stack.put(Phrase::Patterns(PatternPhrase::PatFields(fields, flexible)))
}

/// No fields before a closing bracket, or `...`.
fn end_of_fields(stack: &mut Stack, flexible: bool) -> Result<(), Failure>
    ensures { Puts (of_pat_fields no_pat_field flexible) 1 (seen stack.old) (seen stack.new) result }
{
    stack.skip();
    no_fields(stack, flexible)
}

/// The first of two parts.
fn first_of_two(stack: &mut Stack) -> Result<(), Failure>
    ensures { Puts (at (seen stack.old) 0) 2 (seen stack.old) (seen stack.new) result }
{
    let first = stack.pop();
    stack.skip();
    stack.push(first)?;
    Ok(())
}

/// A field before those of a phrase.
fn with_field(stack: &mut Stack, label: Name, pat: LowPat, rest: Phrase) -> Result<(), Failure>
    ensures { Puts (and_field (name_of label) (low_pat_of pat) (phrase_of rest)) 0 (seen stack.old) (seen stack.new) result }
{
    let (fields, flexible) = fields_in(stack.alloc, rest);
    let fields = and_field(label, pat, fields)?;
    stack.put(Phrase::Patterns(PatternPhrase::PatFields(fields, flexible)))
}

/// A field with a numeral as its label.
fn numeral_field(stack: &mut Stack) -> Result<(), Failure>
    ensures { let vs = seen stack.old in Puts (and_field (name_in (at vs 0)) (pat_in (at vs 2)) (at vs 3)) 4 vs (seen stack.new) result }
{
    let label = stack.name()?;
    stack.skip();
    let pat = stack.pat();
    let rest = stack.pop();
    with_field(stack, label, pat, rest)
}

/// A field with an identifier as its label.
fn vid_field(stack: &mut Stack) -> Result<(), Failure>
    ensures { let vs = seen stack.old in Puts (and_field (name_in (at vs 0)) (field_pat (name_in (at vs 0)) (at vs 1)) (at vs 2)) 3 vs (seen stack.new) result }
{
    let name = stack.name()?;
    let label = copy_of(&name)?;
    let rest = stack.pop();
    let pat = field_pat(stack.alloc, name, rest)?;
    let fields = stack.pop();
    with_field(stack, label, pat, fields)
}

/// A pattern after a word.
fn after_word(stack: &mut Stack) -> Result<(), Failure>
    ensures { Puts (of_pat (pat_in (at (seen stack.old) 1))) 2 (seen stack.old) (seen stack.new) result }
{
    stack.skip();
    let pat = stack.pat();
    stack.put_pat(pat)
}

/// Perhaps a type, and perhaps a pattern after `as`.
fn layer(stack: &mut Stack) -> Result<(), Failure>
    ensures { let vs = seen stack.old in Puts (of_layer (ty_if_any (at vs 0)) (pat_if_any (at vs 1))) 2 vs (seen stack.new) result }
{
    let ty = stack.ty_if_any();
    let pat = stack.pat_if_any();
    stack.put_layer(ty, pat)
}

fn no_types(stack: &mut Stack) -> Result<(), Failure>
    ensures { Puts (of_tys no_ty) 0 (seen stack.old) (seen stack.new) result }
{
    stack.put_tys(LowTys {
        trees: Vec::new(stack.alloc),
        height: 0,
    })
}

/// What a rule of patterns makes of its parts, which are on top of the stack.
pub fn pattern_phrase(
    rule: PatternRule,
    place: Place,
    shape: Option<&Shape>,
    expander: &Expander,
    stack: &mut Stack,
) -> Result<(), Failure>
    ensures { Puts (pattern_phrase rule place (option_map (λ s. shape_of s.now) shape.entry) (seen stack.old)) (length (right_side (Patterns rule))) (seen stack.old) (seen stack.new) result }
{
    match rule {
        PatternRule::PatOpenRound => from_round(stack, place, shape, expander),
        PatternRule::AtPatOtherAtPat | PatternRule::BareAtPatOtherAtPat => stack.put_first(),
        PatternRule::PatAlphanumeric
        | PatternRule::PatSymbolic
        | PatternRule::PatStar
        | PatternRule::BarePatAlphanumeric
        | PatternRule::BarePatSymbolic
        | PatternRule::BarePatStar => vid(stack, place, shape, expander),
        PatternRule::PatOp | PatternRule::BarePatOp => op(stack, place, shape, expander),
        PatternRule::PatOtherAtPat | PatternRule::BarePatOtherAtPat => from_other(
            stack, shape, expander,
        ),
        PatternRule::OpPatVid => op_vid(stack),
        PatternRule::OpPatQualified => op_qualified(stack),
        PatternRule::AfterVidNone | PatternRule::AtPatMoreNone => no_atoms(stack),
        PatternRule::AfterVidAs | PatternRule::AfterVidTyAs => after_as(stack),
        PatternRule::AfterVidColon => vid_colon(stack),
        PatternRule::AfterVidAtPat | PatternRule::AtPatMoreAtPat => more_atoms(stack),
        PatternRule::AfterVidTyNone => no_types(stack),
        PatternRule::AfterVidTyColon => colons(stack),
        PatternRule::AtPatMoreColon => atom_colons(stack),
        PatternRule::AtPatOpenRound => round(stack, place),
        PatternRule::AtPatAlphanumeric
        | PatternRule::AtPatSymbolic
        | PatternRule::AtPatStar
        | PatternRule::BareAtPatAlphanumeric
        | PatternRule::BareAtPatSymbolic
        | PatternRule::BareAtPatStar => name(stack, place),
        PatternRule::AtPatOp | PatternRule::BareAtPatOp => op_name(stack, place),
        PatternRule::OtherAtPatWildcard => wildcard(stack, place),
        PatternRule::OtherAtPatConstant => constant(stack, place),
        PatternRule::OtherAtPatQualified => qualified(stack, place),
        PatternRule::OtherAtPatOpenCurly => row(stack, place),
        PatternRule::OtherAtPatOpenSquare => list(stack, place, expander),
        PatternRule::PatRoundCloseRound
        | PatternRule::PatRoundMoreCloseRound
        | PatternRule::PatListCloseSquare
        | PatternRule::PatListMoreCloseSquare => no_pats(stack),
        PatternRule::PatRoundPat | PatternRule::PatListPat => pats(stack),
        PatternRule::PatRoundMoreComma | PatternRule::PatListMoreComma => more_pats(stack),
        PatternRule::PatRowCloseCurly => end_of_fields(stack, false),
        PatternRule::PatRowRow => first_of_two(stack),
        PatternRule::RowDots => end_of_fields(stack, true),
        PatternRule::RowNumeral => numeral_field(stack),
        PatternRule::RowVid => vid_field(stack),
        PatternRule::RowRestEquals | PatternRule::RowAsAs => after_word(stack),
        PatternRule::RowRestTyped => layer(stack),
        PatternRule::RowAsNone => stack.put_nothing(),
        PatternRule::RowMoreNone => no_fields(stack, false),
        PatternRule::RowMoreComma => stack.put_after_word(),
    }
}

//! What the rules of what stands after an expression's first atomic one make of their parts.

ghost use Rattle.std.specs.Prelude.{◌≡◌, true, map, reverse, drop, Some, None};
ghost use Rattle.std.specs.Option.{option_map};
ghost use Rattle.sml_tree.specs.Types.{no_ty};
ghost use Rattle.sml_tree.specs.Expressions as trees;
ghost use Rattle.sml_tree.specs.Expressions.{no_exp, and_exp};
ghost use Rattle.sml_tree.specs.ExpressionViews.{exps_of, rule_of, rules_of};
ghost use Rattle.sml_tree.specs.TypeViews.{tys_of};
ghost use Rattle.sml_phrases.specs.Phrases.{of_exp, of_rest, at, exp_in, exps_in, exp_if_any, rules_in, rules_if_any, ty_in};
ghost use Rattle.sml_phrases.specs.PhraseViews.{Puts, phrase_of, rest_of, seen};
ghost use Rattle.sml_fixity.specs.Shapes.{shape_of};
ghost use Rattle.sml_bare_exps.specs.ExpressionSequences.{sequence_exp};
ghost use Rattle.sml_bare_exps.specs.ExpressionViews.{GivesExp, low_exp_of, low_ty_of};
ghost use Rattle.sml_bare_exps.specs.ExpressionRules.{conjunction, disjunction, handled, with_operand, with_type, whole};

use crate::atom_rules::with;
use crate::expression_sequences::sequence_exp;
use crate::low_forms::{low_and_also, low_or_else, raised_exp};
use sml_derived::expander::Expander;
use sml_fixity::shape::Shape;
use sml_lex::fault::Place;
use sml_pat_sequences::low_lists::and_ty;
use sml_phrases::low::{LowExp, LowExps, LowRules, LowTy, LowTys};
use sml_phrases::phrase::{ExpressionPhrase, Failure, Phrase, Rest, discard};
use sml_phrases::stack::Stack;
use sml_tree::expressions::Exp;
use std::alloc::Global;

/// An expression, and perhaps the right operand of `andalso`.
pub fn conjunction(
    expander: &Expander,
    place: Place,
    left: LowExp,
    right: Option<LowExp>,
) -> Result<LowExp, Failure>
    ensures { GivesExp (conjunction place (low_exp_of left) (option_map low_exp_of right)) result }
{
    match right {
        None => Ok(left),
        Some(right) => low_and_also(expander, place, left, right),
    }
}

/// An expression, and perhaps the right operand of `orelse`.
pub fn disjunction(
    expander: &Expander,
    place: Place,
    left: LowExp,
    right: Option<LowExp>,
) -> Result<LowExp, Failure>
    ensures { GivesExp (disjunction place (low_exp_of left) (option_map low_exp_of right)) result }
{
    match right {
        None => Ok(left),
        Some(right) => low_or_else(expander, place, left, right),
    }
}

/// An expression, and perhaps the match after `handle`.
fn handled(
    alloc: Global,
    place: Place,
    exp: LowExp,
    rules: Option<LowRules>,
) -> Result<LowExp, Failure>
    ensures { GivesExp (handled place (low_exp_of exp) (option_map (λ rs. rules_of (map rule_of (reverse rs.trees.items))) rules)) result }
{
    let Some(rules) = rules else {
        return Ok(exp);
    };
    let (exp, height) = raised_exp(exp, rules.height)?;
    let mut trees = rules.trees;
    trees.reverse();
    let tree = Exp::Handle(place, Box::new(alloc, exp)?, trees);
    Ok(LowExp { tree, height })
}

/// An expression with what may stand after its sequence.
fn operated(
    expander: &Expander,
    place: Place,
    exp: LowExp,
    conjunct: Option<LowExp>,
    disjunct: Option<LowExp>,
) -> Result<LowExp, Failure>
    ensures { GivesExp (disjunction place (conjunction place (low_exp_of exp) (option_map low_exp_of conjunct)) (option_map low_exp_of disjunct)) result }
{
    let exp = conjunction(expander, place, exp, conjunct)?;
    disjunction(expander, place, exp, disjunct)
}

/// The same, and perhaps a match.
fn completed(
    expander: &Expander,
    place: Place,
    exp: LowExp,
    conjunct: Option<LowExp>,
    disjunct: Option<LowExp>,
    rules: Option<LowRules>,
) -> Result<LowExp, Failure>
    ensures { GivesExp (handled place (disjunction place (conjunction place (low_exp_of exp) (option_map low_exp_of conjunct)) (option_map low_exp_of disjunct)) (option_map (λ rs. rules_of (map rule_of (reverse rs.trees.items))) rules)) result }
{
    let exp = operated(expander, place, exp, conjunct, disjunct)?;
    handled(expander.alloc, place, exp, rules)
}

/// An atomic expression and what stands after it, which has types or operators.
fn whole_rest(
    expander: &Expander,
    place: Place,
    shape: Option<&Shape>,
    exp: LowExp,
    rest: Rest,
) -> Result<LowExp, Failure>
    ensures { GivesExp (whole place (option_map (λ s. shape_of s.now) shape.entry) (low_exp_of exp) (rest_of rest)) result }
{
    let Rest {
        exps,
        tys,
        conjunct,
        disjunct,
        rules,
    } = rest;
    let exps = with(exp, exps)?;
    let exp = sequence_exp(expander, shape, exps.trees, tys.trees)?;
    completed(expander, place, exp, conjunct, disjunct, rules)
}

/// Atomic expressions alone.
fn whole_sequence(
    expander: &Expander,
    shape: Option<&Shape>,
    exp: LowExp,
    exps: LowExps,
) -> Result<LowExp, Failure>
    ensures { GivesExp (sequence_exp (option_map (λ s. shape_of s.now) shape.entry) (and_exp (low_exp_of exp) (exps_of (map low_exp_of (reverse exps.trees.items)))) no_ty) result }
{
    let exps = with(exp, exps)?;
    sequence_exp(expander, shape, exps.trees, Vec::new(expander.alloc))
}

/// Whether one atomic expression stands for itself.
fn is_first(shape: Option<&Shape>) -> bool
    ensures { result ≡ true → (exp : trees.Exp Place) → sequence_exp (option_map (λ s. shape_of s.now) shape.entry) (and_exp exp no_exp) no_ty ≡ exp }
{
    match shape {
        None => true,
        Some(Shape::First) => true,
        _ => false,
    }
}

/// One atomic expression.
fn single(expander: &Expander, shape: Option<&Shape>, exp: LowExp) -> Result<LowExp, Failure>
    ensures { GivesExp (sequence_exp (option_map (λ s. shape_of s.now) shape.entry) (and_exp (low_exp_of exp) no_exp) no_ty) result }
{
    match shape {
        None => Ok(exp),
        Some(Shape::First) => Ok(exp),
        _ => whole_sequence(expander, shape, exp, none(expander.alloc)),
    }
}

/// An atomic expression and what stands after it.
fn whole_exp(
    expander: &Expander,
    place: Place,
    shape: Option<&Shape>,
    exp: LowExp,
    rest: Phrase,
) -> Result<LowExp, Failure>
    ensures { GivesExp (whole place (option_map (λ s. shape_of s.now) shape.entry) (low_exp_of exp) (phrase_of rest)) result }
{
    match rest {
        Phrase::Expressions(ExpressionPhrase::Rest(rest)) => {
            whole_rest(expander, place, shape, exp, Box::into_inner(rest))
        }
        Phrase::Expressions(ExpressionPhrase::Exps(exps)) => {
            whole_sequence(expander, shape, exp, exps)
        }
        other => {
            discard(other);
            single(expander, shape, exp)
        }
    }
}

/// `At More` as an expression
pub fn whole(
    expander: &Expander,
    place: Place,
    shape: Option<&Shape>,
    stack: &mut Stack,
) -> Result<(), Failure>
    ensures { Puts (let vs = seen stack.old in of_exp (whole place (option_map (λ s. shape_of s.now) shape.entry) (exp_in (at vs 0)) (at vs 1))) 2 (seen stack.old) (seen stack.new) result }
{
    if is_first(shape) && stack.leave_exp() {
        return Ok(());
    }
    let exp = stack.exp();
    let rest = stack.pop();
    let exp = whole_exp(expander, place, shape, exp, rest)?;
    stack.put_exp(exp)
}

/// No expressions.
fn none(alloc: Global) -> LowExps
    ensures { exps_of (map low_exp_of (reverse result.trees.items)) ≡ no_exp }
{
    LowExps {
        trees: Vec::new(alloc),
        height: 0,
    }
}

/// No types.
fn untyped(alloc: Global) -> LowTys
    ensures { tys_of (map low_ty_of (reverse result.trees.items)) ≡ no_ty }
{
    LowTys {
        trees: Vec::new(alloc),
        height: 0,
    }
}

/// Puts an atomic expression before what stands after it.
fn put_with_operand(stack: &mut Stack, exp: LowExp, rest: Phrase) -> Result<(), Failure>
    ensures { Puts (with_operand (low_exp_of exp) (phrase_of rest)) 0 (seen stack.old) (seen stack.new) result }
{
    match rest {
        Phrase::Expressions(ExpressionPhrase::Rest(rest)) => {
            let mut rest = Box::into_inner(rest);
            rest.exps = with(exp, rest.exps)?;
            stack.put_rest(Box::new(stack.alloc, rest)?)
        }
        Phrase::Expressions(ExpressionPhrase::Exps(exps)) => {
            let exps = with(exp, exps)?;
            stack.put_exps(exps)
        }
        other => {
            discard(other);
            let exps = with(exp, none(stack.alloc))?;
            stack.put_exps(exps)
        }
    }
}

/// `At More` after an atomic expression
pub fn more_operands(stack: &mut Stack) -> Result<(), Failure>
    ensures { Puts (let vs = seen stack.old in with_operand (exp_in (at vs 0)) (at vs 1)) 2 (seen stack.old) (seen stack.new) result }
{
    let exp = stack.exp();
    let rest = stack.pop();
    put_with_operand(stack, exp, rest)
}

/// Puts a type before what stands after it.
fn put_with_type(stack: &mut Stack, ty: LowTy, rest: Phrase) -> Result<(), Failure>
    ensures { Puts (with_type (low_ty_of ty) (phrase_of rest)) 0 (seen stack.old) (seen stack.new) result }
{
    match rest {
        Phrase::Expressions(ExpressionPhrase::Rest(rest)) => {
            let mut rest = Box::into_inner(rest);
            rest.tys = and_ty(ty, rest.tys)?;
            stack.put_rest(Box::new(stack.alloc, rest)?)
        }
        other => {
            discard(other);
            let tys = and_ty(ty, untyped(stack.alloc))?;
            let rest = Rest {
                exps: none(stack.alloc),
                tys,
                conjunct: None,
                disjunct: None,
                rules: None,
            };
            stack.put_rest(Box::new(stack.alloc, rest)?)
        }
    }
}

/// `: Ty TyRest`
pub fn more_types(stack: &mut Stack) -> Result<(), Failure>
    ensures { Puts (let vs = seen stack.old in with_type (ty_in (at vs 1)) (at vs 2)) 3 (seen stack.old) (seen stack.new) result }
{
    stack.skip();
    let ty = stack.ty();
    let rest = stack.pop();
    put_with_type(stack, ty, rest)
}

/// Puts operands of `andalso` and `orelse`, and a match after them, as far as they are there.
fn put_operands(
    stack: &mut Stack,
    conjunct: Option<LowExp>,
    disjunct: Option<LowExp>,
    rules: Option<LowRules>,
) -> Result<(), Failure>
    ensures { Puts (of_rest no_exp no_ty (option_map low_exp_of conjunct) (option_map low_exp_of disjunct) (option_map (λ rs. rules_of (map rule_of (reverse rs.trees.items))) rules)) 0 (seen stack.old) (seen stack.new) result }
{
    let rest = Rest {
        exps: none(stack.alloc),
        tys: untyped(stack.alloc),
        conjunct,
        disjunct,
        rules,
    };
    stack.put_rest(Box::new(stack.alloc, rest)?)
}

/// `andalso AndRest OrMore HandleMore`
pub fn rest_and_also(stack: &mut Stack) -> Result<(), Failure>
    ensures { Puts (let vs = seen stack.old in of_rest no_exp no_ty (Some (exp_in (at vs 1))) (exp_if_any (at vs 2)) (rules_if_any (at vs 3))) 4 (seen stack.old) (seen stack.new) result }
{
    stack.skip();
    let conjunct = stack.exp();
    let disjunct = stack.exp_if_any();
    let rules = stack.rules_if_any();
    put_operands(stack, Some(conjunct), disjunct, rules)
}

/// `orelse OrRest HandleMore`
pub fn rest_or_else(stack: &mut Stack) -> Result<(), Failure>
    ensures { Puts (let vs = seen stack.old in of_rest no_exp no_ty None (Some (exp_in (at vs 1))) (rules_if_any (at vs 2))) 3 (seen stack.old) (seen stack.new) result }
{
    stack.skip();
    let disjunct = stack.exp();
    let rules = stack.rules_if_any();
    put_operands(stack, None, Some(disjunct), rules)
}

/// `handle Match`
pub fn rest_handle(stack: &mut Stack) -> Result<(), Failure>
    ensures { Puts (of_rest no_exp no_ty None None (Some (rules_in (at (seen stack.old) 1)))) 2 (seen stack.old) (seen stack.new) result }
{
    stack.skip();
    let rules = stack.rules();
    put_operands(stack, None, None, Some(rules))
}

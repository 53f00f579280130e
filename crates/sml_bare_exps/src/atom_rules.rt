//! What the rules of atomic expressions, and of the rows and lists in them, make of their parts.

ghost use Rattle.std.specs.Prelude.{◌≡◌, map, reverse, drop, IfOk, OnOk};
ghost use Rattle.sml_tree.specs.Expressions.{constant, name, row, tuple, let_in, bracket, and_exp, no_exp, field, and_field, no_field};
ghost use Rattle.sml_tree.specs.ExpressionViews.{exp_of, exps_of, field_of, fields_of, dec_of, decs_of};
ghost use Rattle.sml_tree.specs.TypeViews.{name_of};
ghost use Rattle.sml_derived.specs.Derived.{long, select};
ghost use Rattle.sml_phrases.specs.Phrases.{nothing, of_exp, of_exps, of_series, of_fields, at, name_in, numeral, long_in, constant_in, exp_in, exps_in, fields_in, decs_in};
ghost use Rattle.sml_phrases.specs.PhraseViews.{Puts, phrase_of, seen};
ghost use Rattle.sml_bare_exps.specs.ExpressionViews.{GivesExp, low_exp_of};
ghost use Rattle.sml_bare_exps.specs.ExpressionRules.{series_of, list_of, tuple_of, round_of, round_parts, body_of};

use crate::expression_sequences::exp_place;
use crate::low_forms::{low_cons, low_nil, low_select, low_sequence, raised_exp};
use sml_derived::expander::{Expander, long};
use sml_lex::fault::{Memory, Place};
use sml_phrases::low::{LowDecs, LowExp, LowExps, LowFields};
use sml_phrases::phrase::{ExpressionPhrase, Failure, Phrase, discard};
use sml_phrases::raise::raised;
use sml_phrases::stack::Stack;
use sml_tree::expressions::{Exp, ExpField};
use sml_tree::names::Name;
use std::alloc::Global;

/// Expressions with one more before them.
pub fn with(exp: LowExp, exps: LowExps) -> Result<LowExps, Memory>
    ensures { IfOk result (λ es. exps_of (map low_exp_of (reverse es.trees.items)) ≡ and_exp (low_exp_of exp) (exps_of (map low_exp_of (reverse exps.trees.items)))) }
{
    let LowExps { mut trees, height } = exps;
    let height = height.max(exp.height);
    trees.push(exp)?;
    Ok(LowExps { trees, height })
}

/// No expressions.
pub fn no_exps(stack: &mut Stack) -> Result<(), Failure>
    ensures { Puts (of_exps no_exp) 0 (seen stack.old) (seen stack.new) result }
{
    let trees = Vec::new(stack.alloc);
    stack.put_exps(LowExps { trees, height: 0 })
}

/// A bracket after an expression that stands in brackets alone.
pub fn alone(stack: &mut Stack) -> Result<(), Failure>
    ensures { Puts nothing 1 (seen stack.old) (seen stack.new) result }
{
    stack.skip();
    stack.put_nothing()
}

/// A bracket or a word after the last expression.
pub fn last_exp(stack: &mut Stack) -> Result<(), Failure>
    ensures { Puts (of_exps no_exp) 1 (seen stack.old) (seen stack.new) result }
{
    stack.skip();
    no_exps(stack)
}

/// Takes an expression and those after it.
pub fn taken_exps(stack: &mut Stack) -> Result<LowExps, Memory>
    ensures made { IfOk result (λ es. exps_of (map low_exp_of (reverse es.trees.items)) ≡ and_exp (exp_in (at (seen stack.old) 0)) (exps_in (at (seen stack.old) 1))) }
    ensures rest { OnOk result (seen stack.new ≡ drop 2 (seen stack.old)) }
{
    let exp = stack.exp();
    let exps = stack.exps();
    Ok(with(exp, exps)?)
}

/// An expression and those after it.
pub fn first_exps(stack: &mut Stack) -> Result<(), Failure>
    ensures { Puts (let vs = seen stack.old in of_exps (and_exp (exp_in (at vs 0)) (exps_in (at vs 1)))) 2 (seen stack.old) (seen stack.new) result }
{
    let exps = taken_exps(stack)?;
    stack.put_exps(exps)
}

/// A comma or a semicolon, an expression and those after it.
pub fn more_exps(stack: &mut Stack) -> Result<(), Failure>
    ensures { Puts (let vs = seen stack.old in of_exps (and_exp (exp_in (at vs 1)) (exps_in (at vs 2)))) 3 (seen stack.old) (seen stack.new) result }
{
    stack.skip();
    first_exps(stack)
}

/// `; Exp SequenceMore`
pub fn more_series(stack: &mut Stack) -> Result<(), Failure>
    ensures { Puts (let vs = seen stack.old in of_series (and_exp (exp_in (at vs 1)) (exps_in (at vs 2)))) 3 (seen stack.old) (seen stack.new) result }
{
    stack.skip();
    let exps = taken_exps(stack)?;
    stack.put(Phrase::Expressions(ExpressionPhrase::Series(exps)))
}

/// An expression in round brackets, before what stands after it.
fn with_parts(stack: &mut Stack, exp: LowExp, rest: Phrase) -> Result<(), Failure>
    ensures { Puts (round_parts (low_exp_of exp) (phrase_of rest)) 0 (seen stack.old) (seen stack.new) result }
{
    match rest {
        Phrase::Nothing => stack.put_exp(exp),
        Phrase::Expressions(ExpressionPhrase::Series(exps)) => {
            let exps = with(exp, exps)?;
            stack.put(Phrase::Expressions(ExpressionPhrase::Series(exps)))
        }
        Phrase::Expressions(ExpressionPhrase::Exps(exps)) => {
            let exps = with(exp, exps)?;
            stack.put_exps(exps)
        }
        other => {
            discard(other);
            let trees = Vec::new(stack.alloc);
            let exps = with(exp, LowExps { trees, height: 0 })?;
            stack.put_exps(exps)
        }
    }
}

/// `Exp ExpRoundMore`
pub fn round_parts(stack: &mut Stack) -> Result<(), Failure>
    ensures { Puts (let vs = seen stack.old in round_parts (exp_in (at vs 0)) (at vs 1)) 2 (seen stack.old) (seen stack.new) result }
{
    if stack.leave_exp() {
        return Ok(());
    }
    let exp = stack.exp();
    let rest = stack.pop();
    with_parts(stack, exp, rest)
}

/// `(a; ..; z)`, from expressions that go from the last to the first.
fn series(expander: &Expander, place: Place, exps: Vec<LowExp>) -> Result<LowExp, Failure>
    ensures { GivesExp (series_of place (exps_of (map low_exp_of (reverse exps.items)))) result }
{
    let mut exps = exps;
    exps.reverse();
    let Some(mut whole) = exps.pop() else {
        let tree = expander.unit(place);
        return Ok(LowExp { tree, height: 1 });
    };
    while let Some(exp) = exps.pop() {
        whole = low_sequence(expander, place, exp, whole)?;
    }
    Ok(whole)
}

/// `[a, .., z]`, from expressions that go from the last to the first.
fn list(expander: &Expander, place: Place, exps: Vec<LowExp>) -> Result<LowExp, Failure>
    ensures { GivesExp (list_of place (exps_of (map low_exp_of (reverse exps.items)))) result }
{
    let mut exps = exps;
    exps.reverse();
    let mut whole = low_nil(expander, place)?;
    while let Some(exp) = exps.pop() {
        whole = low_cons(expander, place, exp, whole)?;
    }
    Ok(whole)
}

/// The trees of expressions that go from the last to the first, in order.
fn in_order(alloc: Global, exps: Vec<LowExp>) -> Result<Vec<Exp>, Memory>
    ensures { IfOk result (λ trees. map exp_of trees.items ≡ map low_exp_of (reverse exps.items)) }
{
    let mut exps = exps;
    exps.reverse();
    let mut trees = Vec::with_capacity(alloc, exps.len())?;
    for exp in exps {
        trees.push(exp.tree)?;
    }
    Ok(trees)
}

/// `e` in brackets.
fn bracket(alloc: Global, place: Place, exp: LowExp) -> Result<LowExp, Failure>
    ensures { GivesExp (bracket place (low_exp_of exp)) result }
{
    let height = raised(exp.height, 1)?;
    let tree = Exp::Bracket(place, Box::new(alloc, exp.tree)?);
    Ok(LowExp { tree, height })
}

/// `(a, .., z)`
fn row_of_exps(alloc: Global, place: Place, exps: LowExps) -> Result<LowExp, Failure>
    ensures { GivesExp (tuple place (exps_of (map low_exp_of (reverse exps.trees.items)))) result }
{
    let height = raised(exps.height, 1)?;
    let tree = Exp::Tuple(place, in_order(alloc, exps.trees)?);
    Ok(LowExp { tree, height })
}

/// `()`, `(e)` and `(a, .., z)`.
fn tuple(alloc: Global, place: Place, exps: LowExps) -> Result<LowExp, Failure>
    ensures { GivesExp (tuple_of place (exps_of (map low_exp_of (reverse exps.trees.items)))) result }
{
    if exps.trees.len() != 1 {
        return row_of_exps(alloc, place, exps);
    }
    let mut trees = exps.trees;
    match trees.pop() {
        Some(exp) => bracket(alloc, place, exp),
        None => row_of_exps(alloc, place, LowExps { trees, height: 0 }),
    }
}

/// What stands in round brackets.
fn round_exp(expander: &Expander, place: Place, parts: Phrase) -> Result<LowExp, Failure>
    ensures { GivesExp (round_of place (phrase_of parts)) result }
{
    match parts {
        Phrase::Expressions(ExpressionPhrase::Exp(exp)) => bracket(expander.alloc, place, exp),
        Phrase::Expressions(ExpressionPhrase::Series(exps)) => series(expander, place, exps.trees),
        Phrase::Expressions(ExpressionPhrase::Exps(exps)) => tuple(expander.alloc, place, exps),
        other => {
            discard(other);
            let tree = expander.unit(place);
            Ok(LowExp { tree, height: 1 })
        }
    }
}

/// `( ExpRound`
pub fn round(expander: &Expander, place: Place, stack: &mut Stack) -> Result<(), Failure>
    ensures { Puts (of_exp (round_of place (at (seen stack.old) 1))) 2 (seen stack.old) (seen stack.new) result }
{
    stack.skip();
    let parts = stack.pop();
    let exp = round_exp(expander, place, parts)?;
    stack.put_exp(exp)
}

/// `[ ExpList`
pub fn square(expander: &Expander, place: Place, stack: &mut Stack) -> Result<(), Failure>
    ensures { Puts (of_exp (list_of place (exps_in (at (seen stack.old) 1)))) 2 (seen stack.old) (seen stack.new) result }
{
    stack.skip();
    let exps = stack.exps();
    let exp = list(expander, place, exps.trees)?;
    stack.put_exp(exp)
}

/// What stands after `in`: `Exp LetMore`.
fn body(expander: &Expander, stack: &mut Stack) -> Result<LowExp, Failure>
    ensures made { let vs = seen stack.old in GivesExp (body_of (exp_in (at vs 0)) (exps_in (at vs 1))) result }
    ensures rest { OnOk result (seen stack.new ≡ drop 2 (seen stack.old)) }
{
    let exp = stack.exp();
    let place = exp_place(&exp.tree);
    let exps = with(exp, stack.exps())?;
    series(expander, place, exps.trees)
}

/// `let Decs`
fn let_decs(stack: &mut Stack) -> LowDecs
    ensures value { decs_of (map dec_of (reverse result.trees.items)) ≡ decs_in (at (seen stack.old) 1) }
    ensures rest { seen stack.new ≡ drop 2 (seen stack.old) }
{
    stack.skip();
    stack.decs()
}

/// `in Exp LetMore`
fn in_body(expander: &Expander, stack: &mut Stack) -> Result<LowExp, Failure>
    ensures made { let vs = seen stack.old in GivesExp (body_of (exp_in (at vs 1)) (exps_in (at vs 2))) result }
    ensures rest { OnOk result (seen stack.new ≡ drop 3 (seen stack.old)) }
{
    stack.skip();
    body(expander, stack)
}

/// `let ds in e end`
fn let_in(alloc: Global, place: Place, decs: LowDecs, body: LowExp) -> Result<LowExp, Failure>
    ensures { GivesExp (let_in place (decs_of (map dec_of (reverse decs.trees.items))) (low_exp_of body)) result }
{
    let (body, height) = raised_exp(body, decs.height)?;
    let mut trees = decs.trees;
    trees.reverse();
    let tree = Exp::Let(place, trees, Box::new(alloc, body)?);
    Ok(LowExp { tree, height })
}

/// `let Decs in Exp LetMore`
fn local_exp(expander: &Expander, place: Place, stack: &mut Stack) -> Result<LowExp, Failure>
    ensures made { let vs = seen stack.old in GivesExp (let_in place (decs_in (at vs 1)) (body_of (exp_in (at vs 3)) (exps_in (at vs 4)))) result }
    ensures rest { OnOk result (seen stack.new ≡ drop 5 (seen stack.old)) }
{
    let alloc = stack.alloc;
    let decs = let_decs(stack);
    let body = in_body(expander, stack)?;
    let_in(alloc, place, decs, body)
}

/// The same, as a phrase.
pub fn local(expander: &Expander, place: Place, stack: &mut Stack) -> Result<(), Failure>
    ensures { Puts (let vs = seen stack.old in of_exp (let_in place (decs_in (at vs 1)) (body_of (exp_in (at vs 3)) (exps_in (at vs 4))))) 5 (seen stack.old) (seen stack.new) result }
{
    let exp = local_exp(expander, place, stack)?;
    stack.put_exp(exp)
}

/// `Numeral` and `ZeroNumeral`
pub fn numeral(place: Place, stack: &mut Stack) -> Result<(), Failure>
    ensures { Puts (of_exp (constant place (numeral (name_in (at (seen stack.old) 0))))) 1 (seen stack.old) (seen stack.new) result }
{
    let tree = Exp::Constant(place, stack.numeral()?);
    stack.put_exp(LowExp { tree, height: 1 })
}

/// Any other constant
pub fn constant(place: Place, stack: &mut Stack) -> Result<(), Failure>
    ensures { Puts (of_exp (constant place (constant_in (at (seen stack.old) 0)))) 1 (seen stack.old) (seen stack.new) result }
{
    let tree = Exp::Constant(place, stack.constant()?);
    stack.put_exp(LowExp { tree, height: 1 })
}

/// An identifier without a path
pub fn short(place: Place, stack: &mut Stack) -> Result<(), Failure>
    ensures { Puts (of_exp (name place (long (name_in (at (seen stack.old) 0))))) 1 (seen stack.old) (seen stack.new) result }
{
    let tree = Exp::Identifier(place, long(stack.alloc, stack.name()?));
    stack.put_exp(LowExp { tree, height: 1 })
}

/// An identifier with a path
pub fn identifier(place: Place, stack: &mut Stack) -> Result<(), Failure>
    ensures { Puts (of_exp (name place (long_in (at (seen stack.old) 0)))) 1 (seen stack.old) (seen stack.new) result }
{
    let tree = Exp::Identifier(place, stack.long()?);
    stack.put_exp(LowExp { tree, height: 1 })
}

/// `op ExpVid`
pub fn after_op(place: Place, stack: &mut Stack) -> Result<(), Failure>
    ensures { Puts (of_exp (name place (long_in (at (seen stack.old) 1)))) 2 (seen stack.old) (seen stack.new) result }
{
    stack.skip();
    identifier(place, stack)
}

/// `# Lab`
pub fn selector(expander: &Expander, place: Place, stack: &mut Stack) -> Result<(), Failure>
    ensures { Puts (of_exp (select place (name_in (at (seen stack.old) 1)))) 2 (seen stack.old) (seen stack.new) result }
{
    stack.skip();
    let label = stack.name()?;
    let exp = low_select(expander, place, label)?;
    stack.put_exp(exp)
}

/// `{ ExpRow`
pub fn row(place: Place, stack: &mut Stack) -> Result<(), Failure>
    ensures { Puts (of_exp (row place (fields_in (at (seen stack.old) 1)))) 2 (seen stack.old) (seen stack.new) result }
{
    stack.skip();
    let fields = stack.fields();
    let height = raised(fields.height, 1)?;
    let mut trees = fields.trees;
    trees.reverse();
    let tree = Exp::Row(place, trees);
    stack.put_exp(LowExp { tree, height })
}

/// A bracket after the last field.
pub fn last_field(stack: &mut Stack) -> Result<(), Failure>
    ensures { Puts (of_fields no_field) 1 (seen stack.old) (seen stack.new) result }
{
    stack.skip();
    let trees = Vec::new(stack.alloc);
    stack.put(Phrase::Expressions(ExpressionPhrase::Fields(LowFields { trees, height: 0 })))
}

/// Fields with one more before them.
fn with_field(label: Name, exp: LowExp, fields: LowFields) -> Result<LowFields, Memory>
    ensures { IfOk result (λ fs. fields_of (map field_of (reverse fs.trees.items)) ≡ and_field (field (name_of label) (low_exp_of exp)) (fields_of (map field_of (reverse fields.trees.items)))) }
{
    let LowFields { mut trees, height } = fields;
    let height = height.max(exp.height);
    trees.push(ExpField {
        label,
        exp: exp.tree,
    })?;
    Ok(LowFields { trees, height })
}

/// `Lab = Exp ExpRowMore`
pub fn first_fields(stack: &mut Stack) -> Result<(), Failure>
    ensures { Puts (let vs = seen stack.old in of_fields (and_field (field (name_in (at vs 0)) (exp_in (at vs 2))) (fields_in (at vs 3)))) 4 (seen stack.old) (seen stack.new) result }
{
    let label = stack.name()?;
    stack.skip();
    let exp = stack.exp();
    let fields = with_field(label, exp, stack.fields())?;
    stack.put(Phrase::Expressions(ExpressionPhrase::Fields(fields)))
}

/// `, Lab = Exp ExpRowMore`
pub fn more_fields(stack: &mut Stack) -> Result<(), Failure>
    ensures { Puts (let vs = seen stack.old in of_fields (and_field (field (name_in (at vs 1)) (exp_in (at vs 3))) (fields_in (at vs 4)))) 5 (seen stack.old) (seen stack.new) result }
{
    stack.skip();
    first_fields(stack)
}

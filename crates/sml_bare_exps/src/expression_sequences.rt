//! Sequences of atomic expressions, as the expressions that they stand for.

ghost use Rattle.std.specs.Prelude.{◌≡◌, [], map, reverse, get_or, set, IfOk, OnOk};
ghost use Rattle.std.specs.Option.{option_map};
ghost use Rattle.sml_tree.specs.TypeViews.{name_of, tys_of};
ghost use Rattle.sml_tree.specs.Expressions.{apply, typed};
ghost use Rattle.sml_tree.specs.ExpressionViews.{exp_of, exps_of};
ghost use Rattle.sml_fixity.specs.Shapes.{shape_of};
ghost use Rattle.sml_bare_exps.specs.ExpressionSequences.{after, all_of, applied, combined, exp_of_steps, exp_place, no_operand, operator_of, sequence_exp, shaped, starting, typed_by};
ghost use Rattle.sml_bare_exps.specs.ExpressionViews.{GivesExp, Leaves, building_of, low_exp_of, low_ty_of};

use crate::low_forms::{low_infix, raised_pair};
use sml_derived::expander::Expander;
use sml_derived::expressions::application;
use sml_fixity::sequences::Step;
use sml_fixity::shape::Shape;
use sml_lex::fault::{FIRST, Memory, Place};
use sml_phrases::low::{LowExp, LowTy};
use sml_phrases::phrase::Failure;
use sml_phrases::raise::raised;
use sml_tree::bare::LongIdent;
use sml_tree::expressions::Exp;
use sml_tree::names::Name;
use std::alloc::Global;
use std::mem;
use std::rc::Rc;

/// The place of an expression's first token.
pub fn exp_place(exp: &Exp) -> Place
    ensures { result ≡ exp_place (exp_of exp.now) }
{
    match exp {
        Exp::Constant(place, _)
        | Exp::Identifier(place, _)
        | Exp::Row(place, _)
        | Exp::Tuple(place, _)
        | Exp::Let(place, _, _)
        | Exp::Bracket(place, _)
        | Exp::Application(place, _, _)
        | Exp::Typed(place, _, _)
        | Exp::Handle(place, _, _)
        | Exp::Raise(place, _)
        | Exp::Function(place, _) => *place,
    }
}

/// The expression that stands for one that lacks.
fn no_operand(alloc: Global) -> LowExp
    ensures { low_exp_of result ≡ no_operand }
{
    let tree = Exp::Tuple(FIRST, Vec::new(alloc));
    LowExp { tree, height: 1 }
}

/// Drops an expression.
fn discard(_exp: Exp) {}

/// The identifier that an atomic expression is, as an operator.
fn operator_of(alloc: Global, exp: Exp) -> Result<Name, Memory>
    ensures { IfOk result (λ name. name_of name ≡ operator_of (exp_of exp)) }
{
    match exp {
        Exp::Identifier(_, long) => {
            let LongIdent {
                place,
                path: _,
                last,
            } = long;
            Ok(Name { place, ident: last })
        }
        other => {
            discard(other);
            let ident = Rc::new(alloc, Vec::new(alloc))?;
            Ok(Name {
                place: FIRST,
                ident,
            })
        }
    }
}

/// Takes the atomic expression at this index, which is then used up.
fn take(alloc: Global, atoms: &mut Vec<LowExp>, index: usize) -> LowExp
    ensures taken { low_exp_of result ≡ get_or (map low_exp_of atoms.old.items) index no_operand }
    ensures rest { map low_exp_of atoms.new.items ≡ set (map low_exp_of atoms.old.items) index no_operand }
{
    if index < atoms.len() {
        return mem::replace(&mut atoms[index], no_operand(alloc));
    }
    no_operand(alloc)
}

/// `f x`, at the place of `f`.
fn applied(alloc: Global, function: LowExp, argument: LowExp) -> Result<LowExp, Failure>
    ensures { GivesExp (let f = low_exp_of function in apply (exp_place f) f (low_exp_of argument)) result }
{
    let place = exp_place(&function.tree);
    let most = function.height.max(argument.height);
    let (function, argument, height) = raised_pair(function, argument, most, 1)?;
    let tree = application(alloc, place, function, argument)?;
    Ok(LowExp { tree, height })
}

/// The topmost two expressions become `f x`.
fn apply(alloc: Global, stack: &mut Vec<LowExp>) -> Result<(), Failure>
    ensures { Leaves (map low_exp_of (reverse stack.new.items)) (applied (map low_exp_of (reverse stack.old.items))) result }
{
    let Some(argument) = stack.pop() else {
        return Ok(());
    };
    let Some(function) = stack.pop() else {
        stack.push(argument)?;
        return Ok(());
    };
    stack.push(applied(alloc, function, argument)?)?;
    Ok(())
}

/// The topmost two expressions become `a f b`.
fn combine(expander: &Expander, operator: Name, stack: &mut Vec<LowExp>) -> Result<(), Failure>
    ensures { Leaves (map low_exp_of (reverse stack.new.items)) (combined (name_of operator) (map low_exp_of (reverse stack.old.items))) result }
{
    let Some(right) = stack.pop() else {
        return Ok(());
    };
    let Some(left) = stack.pop() else {
        stack.push(right)?;
        return Ok(());
    };
    let place = exp_place(&left.tree);
    stack.push(low_infix(expander, place, operator, left, right)?)?;
    Ok(())
}

/// The atomic expressions that are not yet used, each at its index, and the expressions on the stack, the topmost last.
#[derive(Drop)]
struct Building {
    atoms: Vec<LowExp>,
    stack: Vec<LowExp>,
}

impl Building {
    fn advance(&mut self, expander: &Expander, step: Step) -> Result<(), Failure>
        ensures stack { Leaves (building_of self.new).stack (after step (building_of self.old)).stack result }
        ensures atoms { OnOk result ((building_of self.new).atoms ≡ (after step (building_of self.old)).atoms) }
    {
        let alloc = expander.alloc;
        match step {
            Step::Push(index) => {
                let atom = take(alloc, &mut self.atoms, index);
                self.stack.push(atom)?;
            }
            Step::Apply => apply(alloc, &mut self.stack)?,
            Step::Combine(index) => {
                let atom = take(alloc, &mut self.atoms, index);
                let operator = operator_of(alloc, atom.tree)?;
                combine(expander, operator, &mut self.stack)?;
            }
        }
        Ok(())
    }
}

/// The expression that a stack stands for.
fn all_of(alloc: Global, stack: Vec<LowExp>) -> Result<LowExp, Failure>
    ensures { GivesExp (all_of (map low_exp_of (reverse stack.items))) result }
{
    let mut stack = stack;
    let Some(mut exp) = stack.pop() else {
        return Ok(no_operand(alloc));
    };
    while let Some(function) = stack.pop() {
        exp = applied(alloc, function, exp)?;
    }
    Ok(exp)
}

/// The expression that some steps build from atomic expressions.
fn exp_of_steps(expander: &Expander, steps: &[Step], atoms: Vec<LowExp>) -> Result<LowExp, Failure>
    ensures { GivesExp (exp_of_steps steps.now (starting (map low_exp_of atoms.items))) result }
{
    let stack = Vec::new(expander.alloc);
    let mut building = Building { atoms, stack };
    for step in steps {
        building.advance(expander, *step)?;
    }
    all_of(expander.alloc, building.stack)
}

/// The first of atomic expressions, which go from the last to the first.
fn first(alloc: Global, exps: Vec<LowExp>) -> LowExp
    ensures { low_exp_of result ≡ get_or (map low_exp_of (reverse exps.items)) 0 no_operand }
{
    let mut exps = exps;
    match exps.pop() {
        Some(exp) => exp,
        None => no_operand(alloc),
    }
}

/// The expression that atomic expressions, which go from the last to the first, stand for.
fn shaped(expander: &Expander, shape: Option<&Shape>, exps: Vec<LowExp>) -> Result<LowExp, Failure>
    ensures { GivesExp (shaped (option_map (λ s. shape_of s.now) shape.entry) (exps_of (map low_exp_of (reverse exps.items)))) result }
{
    match shape {
        None => Ok(first(expander.alloc, exps)),
        Some(Shape::First) => Ok(first(expander.alloc, exps)),
        Some(Shape::Tree(operand)) => {
            let mut atoms = exps;
            atoms.reverse();
            exp_of_steps(expander, operand.steps.as_slice(), atoms)
        }
        Some(Shape::Head(_)) => Ok(no_operand(expander.alloc)),
    }
}

/// `e : t`
fn typed(alloc: Global, place: Place, exp: LowExp, ty: LowTy) -> Result<LowExp, Failure>
    ensures { GivesExp (typed place (low_exp_of exp) (low_ty_of ty)) result }
{
    let height = raised(exp.height.max(ty.height), 1)?;
    let tree = Exp::Typed(place, Box::new(alloc, exp.tree)?, Box::new(alloc, ty.tree)?);
    Ok(LowExp { tree, height })
}

/// An expression and the types after its colons, which go from the last to the first.
fn typed_by(alloc: Global, exp: LowExp, tys: Vec<LowTy>) -> Result<LowExp, Failure>
    ensures { GivesExp (let e = low_exp_of exp in typed_by (exp_place e) e (tys_of (map low_ty_of (reverse tys.items)))) result }
{
    let place = exp_place(&exp.tree);
    let mut exp = exp;
    let mut tys = tys;
    while let Some(ty) = tys.pop() {
        exp = typed(alloc, place, exp, ty)?;
    }
    Ok(exp)
}

/// The expression that atomic expressions and the types after them stand for. Both go from the last to the first.
pub fn sequence_exp(
    expander: &Expander,
    shape: Option<&Shape>,
    exps: Vec<LowExp>,
    tys: Vec<LowTy>,
) -> Result<LowExp, Failure>
    ensures { GivesExp (sequence_exp (option_map (λ s. shape_of s.now) shape.entry) (exps_of (map low_exp_of (reverse exps.items))) (tys_of (map low_ty_of (reverse tys.items)))) result }
{
    let exp = shaped(expander, shape, exps)?;
    typed_by(expander.alloc, exp, tys)
}

//! The calls of scripts.

ghost use Rattle.std.specs.Prelude.{◌≡◌, ◌<◌, ◌≤◌, ℕ, IfOk, length, true};
ghost use Rattle.std.specs.List.{AllByRecursion};
ghost use Rattle.sml_objects.specs.Views.{scheme_of, type_of};
ghost use Rattle.sml_graph.specs.Interned.{IsBodyOver, IsOver};

use crate::script::answers;
use crate::script::types::read_type;
use crate::script::words::{Fault, Words};
use sml_graph::demand::Halt;
use sml_layers::class::Class;
use sml_layers::layer::Bound;
use sml_layers::variable::Variable;
use sml_lex::fault::Memory;
use sml_objects::objects::{MlType, Scheme};
use sml_solve::solver::Solver;
use sml_tree::bare::Ident;
use std::alloc::Global;
use std::rc::Rc;

/// Makes a call.
pub(crate) fn call(
    alloc: Global,
    solver: &mut Solver,
    words: &mut Words<'_>,
) -> Result<String, Fault> {
    match words.word()? {
        "fresh" => fresh(alloc, solver, words),
        "instance" => instance(alloc, solver),
        "equal" => equal(alloc, solver, words),
        "has" => has(alloc, solver, words),
        "within" => within(alloc, solver, words),
        "equality" => equality(alloc, solver, words),
        "class" => class(alloc, solver, words),
        "variable" => variable(alloc, solver, words),
        "general" => general(alloc, solver, words),
        "labels" => labels(alloc, solver, words),
        "settle" => settle(alloc, solver, words),
        word => question(alloc, solver, word, words),
    }
}

/// Makes a call that asks.
fn question(
    alloc: Global,
    solver: &mut Solver,
    name: &str,
    words: &mut Words<'_>,
) -> Result<String, Fault> {
    match name {
        "unknowns" => Ok(format!(in alloc; "{}", solver.unknowns())?),
        "overloaded" => overloaded(alloc, solver, words),
        "fixed" => fixed(alloc, solver, words),
        "last" => last(alloc, solver, words),
        "flag" => flag(alloc, solver, words),
        "size" => size(alloc, solver, words),
        "reading" => reading(alloc, solver, words),
        "scheme" => scheme(alloc, solver, words, false),
        "expansive" => scheme(alloc, solver, words, true),
        _ => Err(Fault::NotUnderstood),
    }
}

fn fresh(alloc: Global, solver: &mut Solver, words: &mut Words<'_>) -> Result<String, Fault> {
    for _ in 0..words.number()? {
        if let Err(halt) = solver.fresh() {
            return Ok(answers::halted(alloc, halt)?);
        }
    }
    Ok(answers::done(alloc, Ok(()))?)
}

/// The scheme of a type that is one variable.
fn anything(alloc: Global) -> Result<Scheme, Memory>
    ensures { IfOk result (λ s. (n : ℕ) → IsBodyOver (length (scheme_of s).variables) n (scheme_of s).body) }
{
    let mut variables = Vec::new(alloc);
    variables.push(false)?;
    let body = Rc::new(alloc, MlType::Bound(0))?;
    Ok(Scheme { variables, body })
}

fn instance(alloc: Global, solver: &mut Solver) -> Result<String, Fault> {
    let scheme = anything(alloc)?;
    match solver.instance(&scheme) {
        Ok(ty) => Ok(answers::type_text(alloc, &ty)?),
        Err(halt) => Ok(answers::halted(alloc, halt)?),
    }
}

fn equal(alloc: Global, solver: &mut Solver, words: &mut Words<'_>) -> Result<String, Fault> {
    let count = solver.unknowns();
    let left = read_type(alloc, words, count)?;
    let right = read_type(alloc, words, count)?;
    let answer = solver.require_equal(&left, &right);
    Ok(answers::done(alloc, answer)?)
}

/// A field, whose type is over so many unknowns.
fn field(alloc: Global, words: &mut Words<'_>, count: usize) -> Result<(Ident, Rc<MlType>), Fault>
    ensures { IfOk result (λ f. IsOver count (type_of f.1.value)) }
{
    let label = words.label(alloc)?;
    let ty = read_type(alloc, words, count)?;
    Ok((label, Rc::new(alloc, ty)?))
}

fn has(alloc: Global, solver: &mut Solver, words: &mut Words<'_>) -> Result<String, Fault> {
    let count = solver.unknowns();
    let ty = read_type(alloc, words, count)?;
    if words.is_at_end() {
        return Ok(answers::done(alloc, solver.require_row(&ty, &[]))?);
    }
    let first = field(alloc, words, count)?;
    if words.is_at_end() {
        return Ok(answers::done(alloc, solver.require_row(&ty, &[first]))?);
    }
    let second = field(alloc, words, count)?;
    Ok(answers::done(alloc, solver.require_row(&ty, &[first, second]))?)
}

fn within(alloc: Global, solver: &mut Solver, words: &mut Words<'_>) -> Result<String, Fault> {
    let bound = match words.word()? {
        "newness" => Bound::Newness,
        "locality" => Bound::Locality,
        _ => return Err(Fault::NotUnderstood),
    };
    let most = words.number()?;
    let ty = read_type(alloc, words, solver.unknowns())?;
    let answer = solver.require_within(&ty, bound, most);
    Ok(answers::done(alloc, answer)?)
}

fn equality(alloc: Global, solver: &mut Solver, words: &mut Words<'_>) -> Result<String, Fault> {
    let ty = read_type(alloc, words, solver.unknowns())?;
    let answer = solver.require_equality(&ty);
    Ok(answers::done(alloc, answer)?)
}

fn class(alloc: Global, solver: &mut Solver, words: &mut Words<'_>) -> Result<String, Fault> {
    let class = match words.word()? {
        "num" => Class::Num,
        "numtxt" => Class::NumTxt,
        "realint" => Class::RealInt,
        "wordint" => Class::WordInt,
        _ => return Err(Fault::NotUnderstood),
    };
    let ty = read_type(alloc, words, solver.unknowns())?;
    let answer = solver.require_class(&ty, class);
    Ok(answers::done(alloc, answer)?)
}

fn read_variable(words: &mut Words<'_>) -> Result<Variable, Fault> {
    let Some(word) = words.word()?.strip_prefix('\'') else {
        return Err(Fault::NotUnderstood);
    };
    let (number, equality) = match word.strip_prefix('\'') {
        Some(number) => (number, true),
        None => (word, false),
    };
    let number = words.number_in(number)?;
    Ok(Variable { number, equality })
}

fn variable(alloc: Global, solver: &mut Solver, words: &mut Words<'_>) -> Result<String, Fault> {
    let variable = read_variable(words)?;
    let ty = read_type(alloc, words, solver.unknowns())?;
    let answer = solver.require_variable(&ty, variable);
    Ok(answers::done(alloc, answer)?)
}

/// The numbers up to a word, or up to the end.
fn numbers(alloc: Global, words: &mut Words<'_>, end: &str) -> Result<Vec<u32>, Fault> {
    let mut list = Vec::new(alloc);
    for _ in 0..u32::MAX {
        if words.is_at_end() {
            break;
        }
        let word = words.word()?;
        if word == end {
            break;
        }
        list.push(words.number_in(word)?)?;
    }
    Ok(list)
}

/// Whether each number is that of one of so many unknowns.
fn are_unknowns(numbers: &[u32], count: usize) -> bool
    ensures { result ≡ true → AllByRecursion (λ v. v < count) numbers.now }
{
    for number in numbers {
        if *number as usize >= count {
            return false;
        }
    }
    true
}

/// How many first unknowns, of so many in all.
fn first_unknowns(words: &mut Words<'_>, count: usize) -> Result<usize, Fault>
    ensures { IfOk result (λ first. first ≤ count) }
{
    let first = words.number()? as usize;
    if first > count {
        return Err(Fault::NotUnderstood);
    }
    Ok(first)
}

fn general(alloc: Global, solver: &mut Solver, words: &mut Words<'_>) -> Result<String, Fault> {
    let count = solver.unknowns();
    let variables = numbers(alloc, words, "in")?;
    let first = first_unknowns(words, count)?;
    let others = numbers(alloc, words, "")?;
    if !are_unknowns(&variables, count) || !are_unknowns(&others, count) {
        return Err(Fault::NotUnderstood);
    }
    let answer = solver.require_general(&variables, first, &others);
    Ok(answers::done(alloc, answer)?)
}

fn labels(alloc: Global, solver: &mut Solver, words: &mut Words<'_>) -> Result<String, Fault> {
    let ty = read_type(alloc, words, solver.unknowns())?;
    let answer = solver.require_labels(&ty);
    Ok(answers::done(alloc, answer)?)
}

fn settle(alloc: Global, solver: &mut Solver, words: &mut Words<'_>) -> Result<String, Fault> {
    let unknowns = numbers(alloc, words, "")?;
    if !are_unknowns(&unknowns, solver.unknowns()) {
        return Err(Fault::NotUnderstood);
    }
    match solver.settle(&unknowns) {
        Ok(()) => Ok(answers::done(alloc, Ok(()))?),
        Err(halt) => Ok(answers::halted(alloc, halt)?),
    }
}

fn overloaded(alloc: Global, solver: &mut Solver, words: &mut Words<'_>) -> Result<String, Fault> {
    let unknown = words.unknown(solver.unknowns())?;
    match solver.is_overloaded(unknown) {
        Ok(answer) => Ok(format!(in alloc; "{answer}")?),
        Err(halt) => Ok(answers::halted(alloc, halt)?),
    }
}

/// A flag for each unknown, or why there are none.
fn flags(
    alloc: Global,
    solver: &mut Solver,
    words: &mut Words<'_>,
) -> Result<Result<Vec<bool>, Halt>, Fault> {
    let count = solver.unknowns();
    let first = first_unknowns(words, count)?;
    let others = numbers(alloc, words, "")?;
    if !are_unknowns(&others, count) {
        return Err(Fault::NotUnderstood);
    }
    Ok(solver.fixed_by(first, &others))
}

fn fixed(alloc: Global, solver: &mut Solver, words: &mut Words<'_>) -> Result<String, Fault> {
    match flags(alloc, solver, words)? {
        Ok(flags) => Ok(answers::flags(alloc, &flags)?),
        Err(halt) => Ok(answers::halted(alloc, halt)?),
    }
}

fn last(alloc: Global, solver: &mut Solver, words: &mut Words<'_>) -> Result<String, Fault> {
    match flags(alloc, solver, words)? {
        Ok(flags) => match flags.last() {
            Some(flag) => Ok(answers::flags(alloc, &[*flag])?),
            None => Err(Fault::NotUnderstood),
        },
        Err(halt) => Ok(answers::halted(alloc, halt)?),
    }
}

fn flag(alloc: Global, solver: &mut Solver, words: &mut Words<'_>) -> Result<String, Fault> {
    let count = solver.unknowns();
    let unknown = first_unknowns(words, count)?;
    match solver.fixed_by(unknown, &[]) {
        Ok(flags) if unknown < flags.len() => Ok(answers::done(alloc, Ok(()))?),
        Ok(_) => Ok(String::from_str(alloc, "no flag")?),
        Err(halt) => Ok(answers::halted(alloc, halt)?),
    }
}

fn size(alloc: Global, solver: &mut Solver, words: &mut Words<'_>) -> Result<String, Fault> {
    let limit = words.limit()?;
    let ty = read_type(alloc, words, solver.unknowns())?;
    match solver.size_up_to(&ty, limit) {
        Ok(size) => Ok(format!(in alloc; "{size}")?),
        Err(halt) => Ok(answers::halted(alloc, halt)?),
    }
}

fn reading(alloc: Global, solver: &mut Solver, words: &mut Words<'_>) -> Result<String, Fault> {
    let limit = words.limit()?;
    let ty = read_type(alloc, words, solver.unknowns())?;
    match solver.reading(&ty, limit) {
        Ok(Some(ty)) => Ok(answers::type_text(alloc, &ty)?),
        Ok(None) => Ok(String::from_str(alloc, "none")?),
        Err(halt) => Ok(answers::halted(alloc, halt)?),
    }
}

/// Flags for so many unknowns.
fn read_flags(alloc: Global, words: &mut Words<'_>, count: usize) -> Result<Vec<bool>, Fault> {
    let word = words.word()?;
    if word == "none" {
        return Ok(vec![in alloc; false; count]?);
    }
    let mut flags = Vec::new(alloc);
    for letter in word.bytes() {
        match letter {
            b'+' => flags.push(true)?,
            b'-' => flags.push(false)?,
            _ => return Err(Fault::NotUnderstood),
        }
    }
    Ok(flags)
}

fn scheme(
    alloc: Global,
    solver: &mut Solver,
    words: &mut Words<'_>,
    expansive: bool,
) -> Result<String, Fault> {
    let count = solver.unknowns();
    let fixed = read_flags(alloc, words, count)?;
    if fixed.len() != count {
        return Err(Fault::NotUnderstood);
    }
    let limit = words.limit()?;
    let ty = read_type(alloc, words, count)?;
    match solver.generalise(&ty, &fixed, expansive, limit) {
        Ok(Some(scheme)) => Ok(answers::scheme(alloc, &scheme)?),
        Ok(None) => Ok(String::from_str(alloc, "none")?),
        Err(halt) => Ok(answers::halted(alloc, halt)?),
    }
}

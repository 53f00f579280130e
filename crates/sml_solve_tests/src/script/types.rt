//! The types of scripts. Each is over the solver's unknowns: a number that is none is refused as it is read.

ghost use Rattle.std.specs.Prelude.{ℕ, ◌<◌, IfOk};
ghost use Rattle.sml_objects.specs.Views.{type_of};
ghost use Rattle.sml_graph.specs.Interned.{IsOver};

use crate::script::words::{Fault, Words};
use crate::script::{OTHER_UNIT, UNIT};
use sml_lex::fault::Memory;
use sml_objects::labels::Labels;
use sml_objects::objects::{Initial, MadeName, MlType, TyName, UnitId};
use sml_tree::bare::Ident;
use std::alloc::Global;
use std::rc::Rc;

/// How many words may stand within one another.
const MOST: u32 = 20;

/// Reads a type over so many unknowns.
pub(crate) fn read_type(alloc: Global, words: &mut Words<'_>, count: usize) -> Result<MlType, Fault>
    ensures { IfOk result (λ t. IsOver count (type_of t)) }
{
    read_within(alloc, words, count, MOST)
}

/// What a word begins.
#[derive(Clone, Copy)]
enum Shape {
    Applied(Initial),
    Arrow,
    Pair,
    Row,
    Deep,
    Word,
}

fn shape_of(word: &str) -> Shape {
    match word {
        "list" => Shape::Applied(Initial::List),
        "ref" => Shape::Applied(Initial::Ref),
        "arrow" => Shape::Arrow,
        "pair" => Shape::Pair,
        "row" => Shape::Row,
        "deep" => Shape::Deep,
        _ => Shape::Word,
    }
}

/// Reads a type in which no more words stand within one another than the limit.
#[cycle(within)]
fn read_within(
    alloc: Global,
    words: &mut Words<'_>,
    count: usize,
    most: u32,
) -> Result<MlType, Fault>
    ensures { IfOk result (λ t. IsOver count (type_of t)) }
{
    if most == 0 {
        return Err(Fault::NotUnderstood);
    }
    let word = words.word()?;
    match shape_of(word) {
        Shape::Applied(name) => read_applied(alloc, words, count, most - 1, name),
        Shape::Arrow => read_arrow(alloc, words, count, most - 1),
        Shape::Pair => read_pair(alloc, words, count, most - 1),
        Shape::Row => read_row(alloc, words, count, most - 1),
        Shape::Deep => read_deep(alloc, words, count, most - 1),
        Shape::Word => simple(alloc, words, word, count),
    }
}

#[cycle(within)]
fn read_applied(
    alloc: Global,
    words: &mut Words<'_>,
    count: usize,
    most: u32,
    name: Initial,
) -> Result<MlType, Fault>
    ensures { IfOk result (λ t. IsOver count (type_of t)) }
{
    let of = read_within(alloc, words, count, most)?;
    Ok(applied(alloc, name, of)?)
}

#[cycle(within)]
fn read_arrow(
    alloc: Global,
    words: &mut Words<'_>,
    count: usize,
    most: u32,
) -> Result<MlType, Fault>
    ensures { IfOk result (λ t. IsOver count (type_of t)) }
{
    let from = read_within(alloc, words, count, most)?;
    let to = read_within(alloc, words, count, most)?;
    Ok(arrow(alloc, from, to)?)
}

#[cycle(within)]
fn read_pair(alloc: Global, words: &mut Words<'_>, count: usize, most: u32) -> Result<MlType, Fault>
    ensures { IfOk result (λ t. IsOver count (type_of t)) }
{
    let left = read_within(alloc, words, count, most)?;
    let right = read_within(alloc, words, count, most)?;
    let labels = Labels::numbered(alloc, 2)?;
    Ok(row(alloc, labels, left, right)?)
}

#[cycle(within)]
fn read_row(alloc: Global, words: &mut Words<'_>, count: usize, most: u32) -> Result<MlType, Fault>
    ensures { IfOk result (λ t. IsOver count (type_of t)) }
{
    let first = words.label(alloc)?;
    let left = read_within(alloc, words, count, most)?;
    let second = words.label(alloc)?;
    let right = read_within(alloc, words, count, most)?;
    let labels = labels(alloc, first, second)?;
    Ok(row(alloc, labels, left, right)?)
}

#[cycle(within)]
fn read_deep(alloc: Global, words: &mut Words<'_>, count: usize, most: u32) -> Result<MlType, Fault>
    ensures { IfOk result (λ t. IsOver count (type_of t)) }
{
    let times = words.number()?;
    let of = read_within(alloc, words, count, most)?;
    Ok(deep(alloc, of, times)?)
}

/// The type that is one word.
fn simple(alloc: Global, words: &Words<'_>, word: &str, count: usize) -> Result<MlType, Fault>
    ensures { IfOk result (λ t. IsOver count (type_of t)) }
{
    match word {
        "int" => Ok(named(alloc, TyName::Initial(Initial::Int))),
        "real" => Ok(named(alloc, TyName::Initial(Initial::Real))),
        "unit" => Ok(empty(alloc)?),
        _ => {
            if let Some(number) = word.strip_prefix('t') {
                return Ok(named(alloc, made(UNIT, words.number_in(number)?)));
            }
            if let Some(number) = word.strip_prefix('o') {
                return Ok(named(alloc, made(OTHER_UNIT, words.number_in(number)?)));
            }
            unknown(words.number_in(word)?, count)
        }
    }
}

fn unknown(number: u32, count: usize) -> Result<MlType, Fault>
    ensures { IfOk result (λ t. IsOver count (type_of t)) }
{
    if number as usize >= count {
        return Err(Fault::NotUnderstood);
    }
    Ok(free(number))
}

fn free(number: u32) -> MlType
    ensures { (n : ℕ) → number < n → IsOver n (type_of result) }
{
    MlType::Free(number)
}

fn named(alloc: Global, name: TyName) -> MlType
    ensures { (n : ℕ) → IsOver n (type_of result) }
{
    MlType::Name(name, Vec::new(alloc))
}

fn made(unit: UnitId, number: u32) -> TyName {
    TyName::Made(MadeName {
        unit,
        number,
        arity: 0,
        equality: true,
    })
}

fn applied(alloc: Global, name: Initial, of: MlType) -> Result<MlType, Memory>
    ensures { IfOk result (λ t. (n : ℕ) → IsOver n (type_of of) → IsOver n (type_of t)) }
{
    let mut parts = Vec::new(alloc);
    parts.push(Rc::new(alloc, of)?)?;
    Ok(MlType::Name(TyName::Initial(name), parts))
}

fn arrow(alloc: Global, from: MlType, to: MlType) -> Result<MlType, Memory>
    ensures { IfOk result (λ t. (n : ℕ) → IsOver n (type_of from) → IsOver n (type_of to) → IsOver n (type_of t)) }
{
    let from = Rc::new(alloc, from)?;
    let to = Rc::new(alloc, to)?;
    Ok(MlType::Arrow(from, to))
}

fn empty(alloc: Global) -> Result<MlType, Memory>
    ensures { IfOk result (λ t. (n : ℕ) → IsOver n (type_of t)) }
{
    let labels = Rc::new(alloc, Labels::numbered(alloc, 0)?)?;
    Ok(MlType::Row(labels, Vec::new(alloc)))
}

/// The row of two labels.
fn row(alloc: Global, labels: Labels, left: MlType, right: MlType) -> Result<MlType, Memory>
    ensures { IfOk result (λ t. (n : ℕ) → IsOver n (type_of left) → IsOver n (type_of right) → IsOver n (type_of t)) }
{
    let mut parts = Vec::new(alloc);
    parts.push(Rc::new(alloc, left)?)?;
    parts.push(Rc::new(alloc, right)?)?;
    Ok(MlType::Row(Rc::new(alloc, labels)?, parts))
}

fn labels(alloc: Global, first: Ident, second: Ident) -> Result<Labels, Fault> {
    let mut list = Vec::new(alloc);
    list.push(first)?;
    list.push(second)?;
    match Labels::from_list(list) {
        Ok(labels) => Ok(labels),
        Err(_) => Err(Fault::NotUnderstood),
    }
}

/// A list of a list and so on of a type.
fn deep(alloc: Global, of: MlType, times: u32) -> Result<MlType, Memory>
    ensures { IfOk result (λ t. (n : ℕ) → IsOver n (type_of of) → IsOver n (type_of t)) }
{
    let mut ty = of;
    for _ in 0..times {
        ty = applied(alloc, Initial::List, ty)?;
    }
    Ok(ty)
}

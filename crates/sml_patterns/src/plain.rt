//! From patterns of trees to what matching sees of them.

ghost use Rattle.std.specs.Prelude.{◌≡◌, IfOk, map, decimal, IfSome};
ghost use Rattle.sml_lex.specs.declared.fault.Place.{Place};
ghost use Rattle.sml_tree.specs.Views.{ident_of, long_of};
ghost use Rattle.sml_tree.specs.PatternViews.{constant_of, pat_of, pats_of, pat_field_of, pat_fields_of};
ghost use Rattle.sml_narrowing.specs.Plain as P;
ghost use Rattle.sml_narrowing.specs.Plain.{Plain, Wild, Fields};
ghost use Rattle.sml_patterns.specs.Stands.{IsValue, named, StandsFor, TupleStandsFor, FieldsStandFor};
ghost use Rattle.sml_narrowing.specs.Views.{plain_of};
ghost use Rattle.sml_patterns.specs.Views.{meanings, IsSomeValue};

use crate::names::{Meaning, Names, long_text};
use itoa::Buffer;
use sml_lex::constants::{character, integer, string, word};
use sml_lex::fault::Memory;
use sml_narrowing::pattern::{Pattern, Value};
use sml_tree::bare::{Ident, LongIdent};
use sml_tree::patterns::{Constant, ConstantKind, Pat, PatField};
use std::alloc::Global;
use std::rc::Rc;

/// What a constant stands for; `None` for one that no unit has in a pattern.
fn value_of(alloc: Global, constant: &Constant) -> Result<Option<Value>, Memory>
    ensures { IfOk result (λ found. (v : P.Value) → IsValue (constant_of constant.now).kind (constant_of constant.now).literal v → IsSomeValue found v) }
{
    let text = constant.literal.as_slice();
    match constant.kind {
        ConstantKind::Integer => match integer(text) {
            Some(number) => Ok(Some(Value::Integer(number))),
            None => Ok(None),
        },
        ConstantKind::Word => match word(text) {
            Some(number) => Ok(Some(Value::Word(number))),
            None => Ok(None),
        },
        ConstantKind::Real => Ok(None),
        ConstantKind::String => match string(alloc, text)? {
            Some(characters) => Ok(Some(Value::Text(characters))),
            None => Ok(None),
        },
        ConstantKind::Character => match character(text) {
            Some(code) => Ok(Some(Value::Character(code))),
            None => Ok(None),
        },
    }
}

/// A constant as a pattern.
fn constant_pattern(alloc: Global, constant: &Constant) -> Result<Pattern, Memory>
    ensures { IfOk result (λ p. (v : P.Value) → IsValue (constant_of constant.now).kind (constant_of constant.now).literal v → plain_of p ≡ P.Valued v Wild) }
{
    match value_of(alloc, constant)? {
        None => Ok(Pattern::Any),
        Some(value) => {
            let argument = Box::new(alloc, Pattern::Any)?;
            Ok(Pattern::Valued { value, argument })
        }
    }
}

/// An identifier before an argument.
fn named(
    alloc: Global,
    names: &Names,
    long: &LongIdent,
    argument: Pattern,
) -> Result<Pattern, Memory>
    ensures { IfOk result (λ p. plain_of p ≡ named (meanings names.now) (long_of long.now) (plain_of argument)) }
{
    match names.meaning(long)? {
        Meaning::Variable => Ok(Pattern::Any),
        Meaning::Exception => {
            let value = Value::Exception(long_text(alloc, long)?);
            let argument = Box::new(alloc, argument)?;
            Ok(Pattern::Valued { value, argument })
        }
        Meaning::Constructor { number, count } => {
            let argument = Box::new(alloc, argument)?;
            Ok(Pattern::Built {
                number,
                count,
                argument,
            })
        }
    }
}

fn decimal_label(alloc: Global, number: usize) -> Result<Ident, Memory>
    ensures { IfOk result (λ l. ident_of l ≡ decimal number) }
{
    let mut buffer = Buffer::new();
    let text = Vec::from_slice(alloc, buffer.format(number).as_bytes())?;
    Ok(Rc::new(alloc, text)?)
}

/// The pattern that a tree's stands for.
#[cycle(plain)]
pub fn plain(alloc: Global, names: &Names, pat: &Pat) -> Result<Pattern, Memory>
    ensures { IfOk result (λ p. (q : Plain) → StandsFor (meanings names.now) (pat_of pat.now) q → plain_of p ≡ q) }
{
    match pat {
        Pat::Wildcard(_) => Ok(Pattern::Any),
        Pat::Constant(_, constant) => constant_pattern(alloc, constant),
        Pat::Identifier(_, long) => named(alloc, names, long, Pattern::Any),
        Pat::Row(_, fields, _) => plain_row(alloc, names, fields),
        Pat::Tuple(_, pats) => plain_tuple(alloc, names, pats),
        Pat::Bracket(_, pat) => plain(alloc, names, pat),
        Pat::Applied(_, long, pat) => {
            let argument = plain(alloc, names, pat)?;
            named(alloc, names, long, argument)
        }
        Pat::Typed(_, pat, _) => plain(alloc, names, pat),
        Pat::As(_, _, _, pat) => plain(alloc, names, pat),
    }
}

#[cycle(plain)]
fn plain_row(alloc: Global, names: &Names, fields: &[PatField]) -> Result<Pattern, Memory>
    ensures { IfOk result (λ p. (r : P.Row) → FieldsStandFor (meanings names.now) (pat_fields_of (map pat_field_of fields.now)) r → plain_of p ≡ Fields r) }
{
    let mut labels = Vec::new(alloc);
    let mut patterns = Vec::new(alloc);
    for field in fields {
        let pattern = plain(alloc, names, &field.pat)?;
        labels.push(field.label.ident.clone()?)?;
        patterns.push(pattern)?;
    }
    Ok(Pattern::Row {
        labels,
        fields: patterns,
    })
}

#[cycle(plain)]
fn plain_tuple(alloc: Global, names: &Names, pats: &[Pat]) -> Result<Pattern, Memory>
    ensures { IfOk result (λ p. (r : P.Row) → TupleStandsFor (meanings names.now) 1 (pats_of (map pat_of pats.now)) r → plain_of p ≡ Fields r) }
{
    let mut labels = Vec::new(alloc);
    let mut fields = Vec::new(alloc);
    for index in 0..pats.len() {
        let pattern = plain(alloc, names, &pats[index])?;
        labels.push(decimal_label(alloc, index + 1)?)?;
        fields.push(pattern)?;
    }
    Ok(Pattern::Row { labels, fields })
}

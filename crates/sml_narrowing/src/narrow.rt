//! Rows of patterns, and how their first column is split and narrowed. A row has its first column last.

ghost use Rattle.std.specs.Prelude.{◌≡◌, ◌++◌, map, true, IfOk, IfSome, Some};
ghost use Rattle.std.specs.Option.{is_some};
ghost use Rattle.std.specs.Str.{bytes_eq};
ghost use Rattle.sml_tree.specs.Views.{ident_of};
ghost use Rattle.sml_narrowing.specs.Plain.{Wild, Empty, field};
ghost use Rattle.sml_narrowing.specs.CodeMatrix.{replace, onto, field_in, wild_at, narrow, narrow_all, first_of, first_kind, with_label, with_row, with_plain, column_labels, spread, heads};
ghost use Rattle.sml_narrowing.specs.Views.{row_on, plain_of};
ghost use Rattle.sml_narrowing.specs.CodeTasks.{line, lines, kept_line, plain_at, IsNamed, labels_of, is_among, head_of, split_heads};

use crate::constructors::has_below;
use crate::pattern::{Pattern, Value, is_same_value};
use sml_lex::fault::Memory;
use sml_tree::bare::Ident;
use std::alloc::Global;

/// What a column is narrowed to: one constructor, rows with these labels, one value, or what no pattern there names.
#[derive(Drop)]
pub enum Head<'a> {
    AtConstructor(u64),
    AtRow(Vec<&'a Ident>),
    AtValue(&'a Value),
    AtOther,
}

/// How a first column is split: by the constructors below a number, or by one head.
#[derive(Drop)]
pub enum Split<'a> {
    Below(u64),
    One(Head<'a>),
}

fn is_same(one: &Ident, other: &Ident) -> bool
    ensures { result ≡ bytes_eq (ident_of one.now) (ident_of other.now) }
{
    one.as_slice() == other.as_slice()
}

/// The pattern at a label; a wildcard where none is written.
pub fn field<'a>(
    any: &'a Pattern,
    labels: &[Ident],
    fields: &'a [Pattern],
    label: &Ident,
) -> &'a Pattern
    requires { plain_of any.now ≡ Wild }
    ensures { plain_of result.now ≡ field (ident_of label.now) (row_on (map ident_of labels.now) (map plain_of fields.now) Empty) }
{
    for index in 0..labels.len() {
        if index >= fields.len() {
            return any;
        }
        if is_same(&labels[index], label) {
            return &fields[index];
        }
    }
    any
}

/// Puts a wildcard for each label in front of the row.
fn push_wildcards<'a>(
    row: &mut Vec<&'a Pattern>,
    any: &'a Pattern,
    labels: &[&Ident],
) -> Result<(), Memory>
    requires { plain_of any.now ≡ Wild }
    ensures { IfOk result (λ _. line row.new.items ≡ map wild_at (labels_of labels.now) ++ line row.old.items) }
{
    for _label in labels {
        row.push(any)?;
    }
    Ok(())
}

/// Puts the fields with these labels in front of the row.
fn push_fields<'a>(
    row: &mut Vec<&'a Pattern>,
    any: &'a Pattern,
    labels: &[&Ident],
    own: &[Ident],
    fields: &'a [Pattern],
) -> Result<(), Memory>
    requires { plain_of any.now ≡ Wild }
    ensures { IfOk result (λ _. line row.new.items ≡ map (field_in (row_on (map ident_of own.now) (map plain_of fields.now) Empty)) (labels_of labels.now) ++ line row.old.items) }
{
    for label in labels {
        row.push(field(any, own, fields, label))?;
    }
    Ok(())
}

/// Whether a pattern covers the head.
fn covers(head: &Head, pattern: &Pattern) -> bool
    ensures { result ≡ is_some (replace (head_of head.now) (plain_of pattern.now)) }
{
    match pattern {
        Pattern::Any => match head {
            Head::AtConstructor(_) | Head::AtRow(_) | Head::AtValue(_) | Head::AtOther => true,
        },
        Pattern::Built { number, .. } => match head {
            Head::AtConstructor(wanted) => *number == *wanted,
            _ => false,
        },
        Pattern::Row { .. } => match head {
            Head::AtRow(_) => true,
            _ => false,
        },
        Pattern::Valued { value, .. } => match head {
            Head::AtValue(wanted) => is_same_value(value, wanted),
            _ => false,
        },
    }
}

/// Puts what stands below a pattern that covers the head in front of the row.
fn push_narrowed<'a>(
    row: &mut Vec<&'a Pattern>,
    any: &'a Pattern,
    head: &Head<'a>,
    pattern: &'a Pattern,
) -> Result<(), Memory>
    requires { plain_of any.now ≡ Wild }
    ensures { is_some (replace (head_of head.now) (plain_of pattern.now)) ≡ true →
        IfOk result (λ _. onto (line row.old.items) (replace (head_of head.now) (plain_of pattern.now)) ≡ Some (line row.new.items)) }
{
    match pattern {
        Pattern::Any => match head {
            Head::AtConstructor(_) | Head::AtValue(_) => row.push(any)?,
            Head::AtRow(labels) => push_wildcards(row, any, labels)?,
            Head::AtOther => {}
        },
        Pattern::Built { argument, .. } => row.push(argument)?,
        Pattern::Row {
            labels: own,
            fields,
        } => {
            if let Head::AtRow(labels) = head {
                push_fields(row, any, labels, own, fields)?;
            }
        }
        Pattern::Valued { argument, .. } => row.push(argument)?,
    }
    Ok(())
}

/// Whether the row's first pattern covers the head.
pub fn is_covered(head: &Head, row: &[&Pattern]) -> bool
    ensures { result ≡ is_some (narrow (head_of head.now) (line row.now)) }
{
    match row.last() {
        Some(pattern) => covers(head, pattern),
        None => false,
    }
}

/// A row that covers the head, narrowed to it.
pub fn narrowed<'a>(
    alloc: Global,
    any: &'a Pattern,
    head: &Head<'a>,
    row: &[&'a Pattern],
) -> Result<Vec<&'a Pattern>, Memory>
    requires { plain_of any.now ≡ Wild }
    ensures { is_some (narrow (head_of head.now) (line row.now)) ≡ true →
        IfOk result (λ r. narrow (head_of head.now) (line row.now) ≡ Some (line r.items)) }
{
    let mut narrowed = Vec::from_slice(alloc, row)?;
    if let Some(pattern) = narrowed.pop() {
        push_narrowed(&mut narrowed, any, head, pattern)?;
    }
    Ok(narrowed)
}

/// The row narrowed to the head, if the row's first pattern covers it.
pub fn narrow<'a>(
    alloc: Global,
    any: &'a Pattern,
    head: &Head<'a>,
    row: &[&'a Pattern],
) -> Result<Option<Vec<&'a Pattern>>, Memory>
    requires { plain_of any.now ≡ Wild }
    ensures { IfOk result (λ kept. narrow (head_of head.now) (line row.now) ≡ kept_line kept) }
{
    if !is_covered(head, row) {
        return Ok(None);
    }
    Ok(Some(narrowed(alloc, any, head, row)?))
}

/// The rows that cover the head, narrowed to it.
pub fn narrow_all<'a>(
    alloc: Global,
    any: &'a Pattern,
    head: &Head<'a>,
    rows: &[Vec<&'a Pattern>],
) -> Result<Vec<Vec<&'a Pattern>>, Memory>
    requires { plain_of any.now ≡ Wild }
    ensures { IfOk result (λ kept. lines kept.items ≡ narrow_all (head_of head.now) (lines rows.now)) }
{
    let mut all = Vec::new(alloc);
    for row in rows {
        if is_covered(head, row) {
            all.push(narrowed(alloc, any, head, row)?)?;
        }
    }
    Ok(all)
}

/// The row's first pattern, unless that is a wildcard.
pub fn first_named<'a>(row: &[&'a Pattern]) -> Option<&'a Pattern>
    ensures plain { plain_at result ≡ first_of (line row.now) }
    ensures named { IfSome result (λ p. IsNamed (plain_of p.now)) }
{
    let pattern = row.last()?;
    match *pattern {
        Pattern::Any => None,
        named => Some(named),
    }
}

/// The first pattern of the first column that isn't a wildcard.
fn first_kind<'a>(rows: &[Vec<&'a Pattern>]) -> Option<&'a Pattern>
    ensures { plain_at result ≡ first_kind (lines rows.now) }
{
    for row in rows {
        let named = first_named(row);
        if named.is_some() {
            return named;
        }
    }
    None
}

fn has_label(labels: &[&Ident], label: &Ident) -> bool
    ensures { result ≡ is_among (ident_of label.now) labels.now }
{
    for other in labels {
        if is_same(label, other) {
            return true;
        }
    }
    false
}

/// Adds a label that doesn't stand there.
fn add_label<'a>(labels: &mut Vec<&'a Ident>, label: &'a Ident) -> Result<(), Memory>
    ensures { IfOk result (λ _. labels_of labels.new.items ≡ with_label (labels_of labels.old.items) (ident_of label.now)) }
{
    if !has_label(labels, label) {
        labels.push(label)?;
    }
    Ok(())
}

/// Adds the labels of a row that don't stand there.
fn add_labels<'a>(
    labels: &mut Vec<&'a Ident>,
    own: &'a [Ident],
    fields: &[Pattern],
) -> Result<(), Memory>
    ensures { IfOk result (λ _. labels_of labels.new.items ≡ with_row (labels_of labels.old.items) (row_on (map ident_of own.now) (map plain_of fields.now) Empty)) }
{
    for index in 0..own.len() {
        if index >= fields.len() {
            return Ok(());
        }
        add_label(labels, &own[index])?;
    }
    Ok(())
}

/// Adds the labels of a pattern.
fn add_pattern<'a>(labels: &mut Vec<&'a Ident>, pattern: Option<&'a Pattern>) -> Result<(), Memory>
    ensures { IfOk result (λ _. labels_of labels.new.items ≡ with_plain (labels_of labels.old.items) (plain_at pattern.entry)) }
{
    if let Some(
        Pattern::Row {
            labels: own,
            fields,
        },
    ) = pattern
    {
        add_labels(labels, own, fields)?;
    }
    Ok(())
}

/// The labels of the first column and of one more pattern, each once.
fn column_labels<'a>(
    alloc: Global,
    pattern: Option<&'a Pattern>,
    rows: &[Vec<&'a Pattern>],
) -> Result<Vec<&'a Ident>, Memory>
    ensures { IfOk result (λ labels. labels_of labels.items ≡ column_labels (plain_at pattern.entry) (lines rows.now)) }
{
    let mut labels = Vec::new(alloc);
    add_pattern(&mut labels, pattern)?;
    for row in rows {
        add_pattern(&mut labels, first_named(row))?;
    }
    Ok(labels)
}

/// The split for a question that begins with a wildcard.
fn spread<'a>(alloc: Global, rows: &[Vec<&'a Pattern>]) -> Result<Split<'a>, Memory>
    ensures { IfOk result (λ split. split_heads split ≡ spread (first_kind (lines rows.now)) (lines rows.now)) }
{
    match first_kind(rows) {
        Some(Pattern::Built { count, .. }) => {
            if has_below(alloc, rows, *count)? {
                Ok(Split::Below(*count))
            } else {
                Ok(Split::One(Head::AtOther))
            }
        }
        Some(Pattern::Row { .. }) => {
            let labels = column_labels(alloc, None, rows)?;
            Ok(Split::One(Head::AtRow(labels)))
        }
        Some(Pattern::Valued { .. }) | Some(Pattern::Any) | None => Ok(Split::One(Head::AtOther)),
    }
}

/// The split of the first column.
pub fn split_for<'a>(
    alloc: Global,
    rows: &[Vec<&'a Pattern>],
    question: &[&'a Pattern],
) -> Result<Split<'a>, Memory>
    ensures { IfOk result (λ split. split_heads split ≡ heads (first_of (line question.now)) (lines rows.now)) }
{
    let first = first_named(question);
    match first {
        Some(Pattern::Built { number, .. }) => Ok(Split::One(Head::AtConstructor(*number))),
        Some(Pattern::Row { .. }) => {
            let labels = column_labels(alloc, first, rows)?;
            Ok(Split::One(Head::AtRow(labels)))
        }
        Some(Pattern::Valued { value, .. }) => Ok(Split::One(Head::AtValue(value))),
        Some(Pattern::Any) | None => spread(alloc, rows),
    }
}

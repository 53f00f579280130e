//! The constructors that stand in a first column, and the rows that cover each of them.

ghost use Rattle.std.specs.Prelude.{◌≡◌, ◌++◌, ◌==◌, ◌<◌, ℕ, [], length, IfOk, OnOk};
ghost use Rattle.indexmap.specs.IndexSet.{contains};
ghost use Rattle.sml_narrowing.specs.Plain.{Plain, Wild, Made};
ghost use Rattle.sml_narrowing.specs.CodeMatrix.{AtConstructor, first_of, kept, narrow, narrow_all, has, has_below};
ghost use Rattle.sml_narrowing.specs.Views.{plain_of};
ghost use Rattle.sml_narrowing.specs.CodeTasks.{line, lines, group_at};

use crate::narrow::{Head, first_named, is_covered, narrowed};
use crate::pattern::Pattern;
use indexmap::IndexSet;
use sml_lex::fault::Memory;
use std::alloc::Global;

/// The numbers of the constructors in the first column.
fn numbers(alloc: Global, rows: &[Vec<&Pattern>]) -> Result<IndexSet<u64>, Memory>
    ensures { IfOk result (λ numbers. (k : ℕ) → contains ◌==◌ numbers k ≡ has k (lines rows.now)) }
{
    let mut numbers = IndexSet::new(alloc);
    for row in rows {
        if let Some(Pattern::Built { number, .. }) = first_named(row) {
            numbers.insert(*number)?;
        }
    }
    Ok(numbers)
}

/// Whether each of the first `count` constructors stands in the first column.
pub fn has_below(alloc: Global, rows: &[Vec<&Pattern>], count: u64) -> Result<bool, Memory>
    ensures { IfOk result (λ has. has ≡ has_below count (lines rows.now)) }
{
    let numbers = numbers(alloc, rows)?;
    let mut left = count;
    while left > 0 {
        left -= 1;
        if !numbers.contains(&left) {
            return Ok(false);
        }
    }
    Ok(true)
}

/// Adds the row narrowed to the constructor, if it covers that.
fn add_narrowed<'a>(
    alloc: Global,
    any: &'a Pattern,
    number: u64,
    row: &[&'a Pattern],
    group: &mut Vec<Vec<&'a Pattern>>,
) -> Result<(), Memory>
    requires { plain_of any.now ≡ Wild }
    ensures { OnOk result (lines group.new.items ≡ lines group.old.items ++ kept (narrow (AtConstructor number) (line row.now)) []) }
{
    let head = Head::AtConstructor(number);
    if is_covered(&head, row) {
        group.push(narrowed(alloc, any, &head, row)?)?;
    }
    Ok(())
}

/// Adds the row, which begins with this constructor, to that one's group, if there is one.
fn add_at<'a>(
    alloc: Global,
    any: &'a Pattern,
    number: u64,
    row: &[&'a Pattern],
    groups: &mut Vec<Vec<Vec<&'a Pattern>>>,
) -> Result<(), Memory>
    requires { plain_of any.now ≡ Wild }
    ensures len { OnOk result (length groups.new.items ≡ length groups.old.items) }
    ensures added { (n : ℕ) (p : Plain) → first_of (line row.now) ≡ Made number n p
        → OnOk result ((k : ℕ) → k < length groups.old.items → group_at groups.new.items k ≡ group_at groups.old.items k ++ kept (narrow (AtConstructor k) (line row.now)) []) }
{
    let index = number as usize;
    if index < groups.len() {
        add_narrowed(alloc, any, number, row, &mut groups[index])?;
    }
    Ok(())
}

/// Adds the row narrowed to each constructor that it covers to that one's group.
fn add_row<'a>(
    alloc: Global,
    any: &'a Pattern,
    row: &[&'a Pattern],
    groups: &mut Vec<Vec<Vec<&'a Pattern>>>,
) -> Result<(), Memory>
    requires { plain_of any.now ≡ Wild }
    ensures len { OnOk result (length groups.new.items ≡ length groups.old.items) }
    ensures added { OnOk result ((k : ℕ) → k < length groups.old.items → group_at groups.new.items k ≡ group_at groups.old.items k ++ kept (narrow (AtConstructor k) (line row.now)) []) }
{
    match first_named(row) {
        None => {
            for index in 0..groups.len() {
                add_narrowed(alloc, any, index as u64, row, &mut groups[index])?;
            }
            Ok(())
        }
        Some(Pattern::Built { number, .. }) => add_at(alloc, any, *number, row, groups),
        Some(_) => Ok(()),
    }
}

/// For each of the first `count` constructors the rows that cover it, narrowed to it.
pub fn narrow_each<'a>(
    alloc: Global,
    any: &'a Pattern,
    count: u64,
    rows: &[Vec<&'a Pattern>],
) -> Result<Vec<Vec<Vec<&'a Pattern>>>, Memory>
    requires { plain_of any.now ≡ Wild }
    ensures len { IfOk result (λ groups. length groups.items ≡ count) }
    ensures groups { IfOk result (λ groups. (k : ℕ) → k < count → group_at groups.items k ≡ narrow_all (AtConstructor k) (lines rows.now)) }
{
    let mut groups = Vec::new(alloc);
    for _number in 0..count {
        groups.push(Vec::new(alloc))?;
    }
    for row in rows {
        add_row(alloc, any, row, &mut groups)?;
    }
    Ok(groups)
}

//! The warnings of a match or a binding.

ghost use Rattle.std.specs.Prelude.{◌≡◌, ℕ, true, ◌↔◌, List, ◌++◌, ◌∷◌, [], IfOk, OnOk};
ghost use Rattle.std.specs.List.{Contains};
ghost use Rattle.std.specs.List.Sorted.{IsStrictlySortedBy};
ghost use Rattle.sml_narrowing.specs.Plain.{Wild};
ghost use Rattle.sml_patterns.specs.Shape.{World, column};
ghost use Rattle.sml_patterns.specs.Warnings as W;
ghost use Rattle.sml_patterns.specs.Warnings.{AreRules, AllFit, IsWarning, warning_cmp};
ghost use Rattle.sml_narrowing.specs.Views.{plain_of};
ghost use Rattle.sml_patterns.specs.Views.{meanings};
ghost use Rattle.sml_patterns.specs.CodeColumns.{picked, KnowsEach};
ghost use Rattle.sml_patterns.specs.CodeMatrix.{is_useful, singles};
ghost use Rattle.sml_narrowing.specs.CodeTasks.{lines};
ghost use Rattle.sml_patterns.specs.CodeTasks.{is_free, near, rules_of, plains, redundant_from, open_at, warning_of, warnings_of};

use crate::apart::is_apart;
use crate::names::Names;
use crate::plain::plain;
use crate::search::is_useful;
use crate::table::Table;
use sml_lex::fault::{Code, Memory, Place, Warning};
use sml_narrowing::pattern::Pattern;
use sml_tree::patterns::Pat;
use std::alloc::Global;

/// What holds the rules, with its place: a `fn` or a `handle`, or a `val` binding of one pattern.
#[derive(Clone, Copy)]
pub enum Holder {
    Fn(Place),
    Handle(Place),
    Val(Place),
}

/// A rule's place, and what matching sees of its pattern.
#[derive(Drop)]
struct Judged {
    pub place: Place,
    pub pattern: Pattern,
}

/// What a warning says.
#[derive(Clone, Copy, PartialEq, Eq, PartialOrd, Ord, Drop)]
enum Flaw {
    Redundant,
    OpenMatch,
    OpenBinding,
}

/// A warning, with what it is sorted by.
#[derive(Clone, Copy, PartialEq, Eq, PartialOrd, Ord, Drop)]
struct Finding {
    pub line: u32,
    pub column: u32,
    pub flaw: Flaw,
}

fn finding_at(place: Place, flaw: Flaw) -> Finding
    ensures { result ≡ record { line = place.line; column = place.column; flaw = flaw } }
{
    Finding {
        line: place.line,
        column: place.column,
        flaw,
    }
}

/// The rules that the patterns stand for.
fn rules(alloc: Global, names: &Names, patterns: &[(Place, &Pat)]) -> Result<Vec<Judged>, Memory>
    ensures { IfOk result (λ rules. (rs : List W.Rule) → AreRules (meanings names.now) patterns.now rs → rules_of rules.items ≡ rs) }
{
    let mut rules = Vec::new(alloc);
    for written in patterns {
        let place = written.0;
        let pattern = plain(alloc, names, written.1)?;
        rules.push(Judged { place, pattern })?;
    }
    Ok(rules)
}

/// Adds the row of a rule, unless its pattern is apart from this one.
fn push_near<'a>(
    alloc: Global,
    any: &Pattern,
    rule: &'a Judged,
    pattern: &Pattern,
    rows: &mut Vec<Vec<&'a Pattern>>,
) -> Result<(), Memory>
    requires { plain_of any.now ≡ Wild }
    ensures { OnOk result (lines rows.new.items ≡ lines rows.old.items ++ singles (near (plain_of pattern.now) (plain_of rule.now.pattern ∷ []))) }
{
    if !is_apart(any, pattern, &rule.pattern) {
        let mut row = Vec::new(alloc);
        row.push(&rule.pattern)?;
        rows.push(row)?;
    }
    Ok(())
}

/// The rows of the rules that aren't apart from the pattern.
fn near_rows<'a>(
    alloc: Global,
    any: &Pattern,
    rules: &'a [Judged],
    pattern: &Pattern,
) -> Result<Vec<Vec<&'a Pattern>>, Memory>
    requires { plain_of any.now ≡ Wild }
    ensures { IfOk result (λ rows. lines rows.items ≡ singles (near (plain_of pattern.now) (plains (rules_of rules.now)))) }
{
    let mut rows = Vec::new(alloc);
    for rule in rules {
        push_near(alloc, any, rule, pattern, &mut rows)?;
    }
    Ok(rows)
}

/// The same of the rules with these indices.
fn near_rows_at<'a>(
    alloc: Global,
    any: &Pattern,
    rules: &'a [Judged],
    indices: &[usize],
    pattern: &Pattern,
) -> Result<Vec<Vec<&'a Pattern>>, Memory>
    requires { plain_of any.now ≡ Wild }
    ensures { IfOk result (λ rows. lines rows.items ≡ singles (near (plain_of pattern.now) (picked (plains (rules_of rules.now)) indices.now))) }
{
    let mut rows = Vec::new(alloc);
    for index in indices {
        if let Some(rule) = rules.get(*index) {
            push_near(alloc, any, rule, pattern, &mut rows)?;
        }
    }
    Ok(rows)
}

/// Whether some shape that the pattern matches escapes the rows.
fn escapes_rows<'a>(
    alloc: Global,
    any: &'a Pattern,
    rows: Vec<Vec<&'a Pattern>>,
    pattern: &'a Pattern,
) -> Result<bool, Memory>
    requires { plain_of any.now ≡ Wild }
    ensures { IfOk result (λ yes. yes ≡ is_useful (lines rows.entry.items) (plain_of pattern.now ∷ [])) }
{
    let mut question = Vec::new(alloc);
    question.push(pattern)?;
    is_useful(alloc, any, rows, question)
}

/// Whether some shape that the pattern matches escapes the rules.
fn escapes(
    alloc: Global,
    any: &Pattern,
    rules: &[Judged],
    pattern: &Pattern,
) -> Result<bool, Memory>
    requires { plain_of any.now ≡ Wild }
    ensures { IfOk result (λ yes. yes ≡ is_free (plains (rules_of rules.now)) (plain_of pattern.now)) }
{
    let rows = near_rows(alloc, any, rules, pattern)?;
    escapes_rows(alloc, any, rows, pattern)
}

/// Whether some shape that a rule's pattern matches escapes the rules above it, which the table knows; its own is noted.
fn escapes_above(
    alloc: Global,
    any: &Pattern,
    table: &mut Table,
    above: &[Judged],
    pattern: &Pattern,
) -> Result<bool, Memory>
    requires { plain_of any.now ≡ Wild }
    ensures knows { KnowsEach (plains (rules_of above.now)) table.old.columns.items → OnOk result (KnowsEach (plains (rules_of above.now) ++ plain_of pattern.now ∷ []) table.new.columns.items) }
    ensures yes { KnowsEach (plains (rules_of above.now)) table.old.columns.items → IfOk result (λ yes. yes ≡ is_free (plains (rules_of above.now)) (plain_of pattern.now)) }
{
    let found = table.find(any, pattern, above.len())?;
    table.note(any, pattern, above.len())?;
    match found {
        Some(indices) => {
            let rows = near_rows_at(alloc, any, above, &indices, pattern)?;
            escapes_rows(alloc, any, rows, pattern)
        }
        None => escapes(alloc, any, above, pattern),
    }
}

/// What the whole match or binding lacks, if it does.
fn open(
    alloc: Global,
    any: &Pattern,
    holder: Holder,
    rules: &[Judged],
) -> Result<Vec<Finding>, Memory>
    requires { plain_of any.now ≡ Wild }
    ensures { IfOk result (λ found. warnings_of found.items ≡ open_at (rules_of rules.now) holder) }
{
    let mut found = Vec::new(alloc);
    match holder {
        Holder::Handle(_) => Ok(found),
        Holder::Fn(place) => {
            if escapes(alloc, any, rules, any)? {
                found.push(finding_at(place, Flaw::OpenMatch))?;
            }
            Ok(found)
        }
        Holder::Val(place) => {
            if escapes(alloc, any, rules, any)? {
                found.push(finding_at(place, Flaw::OpenBinding))?;
            }
            Ok(found)
        }
    }
}

/// What is found, first of the whole, then of the rules in order.
fn collect(
    alloc: Global,
    any: &Pattern,
    holder: Holder,
    rules: &[Judged],
) -> Result<Vec<Finding>, Memory>
    requires { plain_of any.now ≡ Wild }
    ensures { IfOk result (λ found. warnings_of found.items ≡ open_at (rules_of rules.now) holder ++ redundant_from [] (rules_of rules.now)) }
{
    let mut found = open(alloc, any, holder, rules)?;
    let mut table = match rules.first() {
        Some(rule) => Table::new(alloc, &rule.pattern)?,
        None => Table::new(alloc, any)?,
    };
    for index in 0..rules.len() {
        let rule = &rules[index];
        if !escapes_above(alloc, any, &mut table, &rules[..index], &rule.pattern)? {
            found.push(finding_at(rule.place, Flaw::Redundant))?;
        }
    }
    Ok(found)
}

/// Sorts the items and drops the repeats.
pub fn sort_distinct<T: Ord + Drop>(items: &mut Vec<T>)
    ensures rises { IsStrictlySortedBy T.cmp items.new.items }
    ensures keeps { ((x y : T) → T.eq x y ≡ true → x ≡ y) → (x : T) → Contains items.old.items x → Contains items.new.items x }
    ensures adds_none { (x : T) → Contains items.new.items x → Contains items.old.items x }
{
    items.sort_unstable();
    items.dedup();
}

fn warning(found: Finding) -> Warning
    ensures { result ≡ warning_of found }
{
    let code = match found.flaw {
        Flaw::Redundant => Code::P1,
        Flaw::OpenMatch => Code::P2,
        Flaw::OpenBinding => Code::P3,
    };
    let place = Place {
        line: found.line,
        column: found.column,
    };
    Warning { code, place }
}

fn warnings(alloc: Global, findings: &[Finding]) -> Result<Vec<Warning>, Memory>
    ensures { IfOk result (λ warnings. warnings.items ≡ warnings_of findings.now) }
{
    let mut warnings = Vec::new(alloc);
    for found in findings {
        warnings.push(warning(*found))?;
    }
    Ok(warnings)
}

/// The warnings of a match or a binding, sorted by place and code. Each pattern comes with its rule's place, that of a
/// `val` binding with its own.
pub fn judge(
    alloc: Global,
    names: &Names,
    holder: Holder,
    patterns: &[(Place, &Pat)],
) -> Result<Vec<Warning>, Memory>
    ensures warnings { IfOk result (λ found. (rules : List W.Rule) → AreRules (meanings names.now) patterns.now rules →
        (w : World) (depth type : ℕ) → AllFit w (column depth type) rules →
        (x : Warning) → Contains found.items x ↔ IsWarning w (column depth type) holder rules x) }
    ensures sorted { IfOk result (λ found. IsStrictlySortedBy warning_cmp found.items) }
{
    let any = Pattern::Any;
    let rules = rules(alloc, names, patterns)?;
    let mut found = collect(alloc, &any, holder, &rules)?;
    sort_distinct(&mut found);
    let warnings = warnings(alloc, &found)?;
    Ok(warnings)
}

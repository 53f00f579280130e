//! The warnings of matches and bindings.

#![tactic(auto, unfolding(crate::specs::Named::is_everything, crate::specs::Named::are_everything, crate::specs::Named::are_fields_everything, crate::specs::Named::after_pat, crate::specs::Named::after_pats, crate::specs::Named::after_fields))]

ghost use Rattle.std.specs.Prelude.{◌≡◌, [], ◌∷◌, Some, map, IfOk, OnOk};
ghost use Rattle.sml_tree.specs.Trees.{LongId};
ghost use Rattle.sml_tree.specs.Views.{long_of};
ghost use Rattle.sml_tree.specs.TypeViews.{long_name_of};
ghost use Rattle.sml_tree.specs.PatternViews.{pat_of, pats_of, pat_field_of, pat_fields_of};
ghost use Rattle.sml_tree.specs.ExpressionViews.{rule_of, rules_of};
ghost use Rattle.sml_objects.specs.Initial.{Name};
ghost use Rattle.sml_core_rules.specs.Lookups as found;
ghost use Rattle.sml_core_rules.specs.Objects as O;
ghost use Rattle.sml_core_rules.specs.Expressions.{rule_patterns};
ghost use Rattle.sml_core_rules.specs.Patterns.{pattern_place};
ghost use Rattle.sml_bases.specs.Views.{status_of};
ghost use Rattle.sml_patterns.specs.Views.{meanings};
ghost use Rattle.sml_patterns.specs.Warnings.{written};
ghost use Rattle.sml_patterns.specs.declared.judge.Holder.TheVariants.{Val};
ghost use Rattle.sml_patterns.specs.declared.names.Meaning.TheVariants as M;
ghost use Rattle.sml_scopes.specs.Means.{Means};
ghost use Rattle.sml_warnings.specs.Meanings.{meaning_of, meaning_in, FindsMeaning};
ghost use Rattle.sml_warnings.specs.Named.{is_variable, is_everything, are_everything, are_fields_everything, after_name, after_pat, after_pats, after_fields, after_patterns, names_in_patterns, TextsTell};
ghost use Rattle.sml_warnings.specs.Lost.{OnFault, IsLost, StandsIn, StandsInAll, StandsInFields, StandsInPatterns};
ghost use Rattle.sml_warnings.specs.Added.{Adds, holder_of, is_clear};

use sml_bases::objects::Status;
use sml_closing::places::pattern_place;
use sml_lex::fault::{Memory, Place, Warning};
use sml_patterns::judge::{Holder, judge};
use sml_patterns::names::{Meaning, Names};
use sml_scopes::scopes::Scopes;
use sml_scopes::values::value_at;
use sml_tree::bare::LongIdent;
use sml_tree::expressions::Rule;
use sml_tree::patterns::{Pat, PatField};
use sml_types::fault::CoreFault;
use std::alloc::Global;

/// What holds a match.
#[derive(Clone, Copy, PartialEq, Eq)]
pub enum Kind {
    Fn,
    Handle,
}

fn meaning_of(status: Status) -> Meaning
    ensures { result ≡ meaning_of (Some (status_of status)) }
{
    match status {
        Status::Variable | Status::Overloaded(_) => Meaning::Variable,
        Status::Exception => Meaning::Exception,
        Status::Constructor { number, count } => Meaning::Constructor {
            number: number as u64,
            count: count as u64,
        },
    }
}

fn is_variable(meaning: Meaning) -> bool
    ensures { result ≡ is_variable meaning }
{
    match meaning {
        Meaning::Variable => true,
        Meaning::Exception => false,
        Meaning::Constructor {
            number: _,
            count: _,
        } => false,
    }
}

fn patterns_of(alloc: Global, rules: &[Rule]) -> Result<Vec<(Place, &Pat)>, Memory>
    ensures { IfOk result (λ patterns. written patterns.items ≡ rule_patterns (rules_of (map rule_of rules.now))) }
{
    let mut patterns = Vec::new(alloc);
    for rule in rules {
        patterns.push((rule.place, &rule.pat))?;
    }
    Ok(patterns)
}

fn holder_of(kind: Kind, place: Place) -> Holder
    ensures { result ≡ holder_of kind place }
{
    match kind {
        Kind::Fn => Holder::Fn(place),
        Kind::Handle => Holder::Handle(place),
    }
}

/// Adds the warnings of a match (section 4.11, item 2).
pub fn judge_rules(
    scopes: &Scopes<'_>,
    warnings: &mut Vec<Warning>,
    kind: Kind,
    place: Place,
    rules: &[Rule],
) -> Result<(), CoreFault>
    ensures warned { (C : O.Env Name) → Means scopes.now C → TextsTell (meaning_in C) (names_in_patterns (rule_patterns (rules_of (map rule_of rules.now)))) →
        OnOk result (Adds (meaning_in C) (holder_of kind place) (rule_patterns (rules_of (map rule_of rules.now))) warnings.old.items warnings.new.items) }
    ensures fault { (C : O.Env Name) → Means scopes.now C → OnFault result (λ g. StandsInPatterns (IsLost C g) (rule_patterns (rules_of (map rule_of rules.now)))) }
{
    if is_clear(scopes, kind, rules)? {
        return Ok(());
    }
    let alloc = scopes.alloc;
    let names = names_of(scopes, rules)?;
    let patterns = patterns_of(alloc, rules)?;
    warn(alloc, warnings, &names, holder_of(kind, place), &patterns)?;
    Ok(())
}

/// Whether a match has one rule at most, which leaves nothing to warn of.
fn is_clear(scopes: &Scopes<'_>, kind: Kind, rules: &[Rule]) -> Result<bool, CoreFault>
    ensures answer { (C : O.Env Name) → Means scopes.now C → IfOk result (λ b. b ≡ is_clear (meaning_in C) kind (rule_patterns (rules_of (map rule_of rules.now)))) }
    ensures fault { (C : O.Env Name) → Means scopes.now C → OnFault result (λ g. StandsInPatterns (IsLost C g) (rule_patterns (rules_of (map rule_of rules.now)))) }
{
    if rules.len() > 1 {
        return Ok(false);
    }
    match kind {
        Kind::Handle => Ok(true),
        Kind::Fn => match rules.first() {
            Some(rule) => matches_everything(scopes, &rule.pat),
            None => Ok(false),
        },
    }
}

/// What the identifiers in the patterns of rules mean.
fn names_of(scopes: &Scopes<'_>, rules: &[Rule]) -> Result<Names, CoreFault>
    ensures names { (C : O.Env Name) → Means scopes.now C → IfOk result (λ names. (x : LongId) → meanings names x ≡ after_patterns (meaning_in C) (rule_patterns (rules_of (map rule_of rules.now))) x M.Variable) }
    ensures fault { (C : O.Env Name) → Means scopes.now C → OnFault result (λ g. StandsInPatterns (IsLost C g) (rule_patterns (rules_of (map rule_of rules.now)))) }
{
    let mut names = Names::new(scopes.alloc);
    for rule in rules {
        name_meanings(scopes, &rule.pat, &mut names)?;
    }
    Ok(names)
}

fn warn(
    alloc: Global,
    warnings: &mut Vec<Warning>,
    names: &Names,
    holder: Holder,
    patterns: &[(Place, &Pat)],
) -> Result<(), Memory>
    ensures { OnOk result (Adds (meanings names.now) holder (written patterns.now) warnings.old.items warnings.new.items) }
{
    let found = judge(alloc, names, holder, patterns)?;
    warnings.extend_from_slice(found.as_slice())?;
    Ok(())
}

/// Adds the warnings of a value binding (section 4.11, item 3).
pub fn judge_binding(
    scopes: &Scopes<'_>,
    warnings: &mut Vec<Warning>,
    pat: &Pat,
) -> Result<(), CoreFault>
    ensures warned { (C : O.Env Name) → Means scopes.now C → TextsTell (meaning_in C) (names_in_patterns ((pattern_place (pat_of pat.now), pat_of pat.now) ∷ [])) →
        OnOk result (Adds (meaning_in C) (Val (pattern_place (pat_of pat.now))) ((pattern_place (pat_of pat.now), pat_of pat.now) ∷ []) warnings.old.items warnings.new.items) }
    ensures fault { (C : O.Env Name) → Means scopes.now C → OnFault result (λ g. StandsIn (IsLost C g) (pat_of pat.now)) }
{
    if matches_everything(scopes, pat)? {
        return Ok(());
    }
    let alloc = scopes.alloc;
    let mut names = Names::new(alloc);
    name_meanings(scopes, pat, &mut names)?;
    let place = pattern_place(pat);
    let patterns = [(place, pat)];
    warn(alloc, warnings, &names, Holder::Val(place), &patterns)?;
    Ok(())
}

/// Whether a pattern has no constant, constructor or exception in it.
#[cycle(everything)]
fn matches_everything(scopes: &Scopes<'_>, pat: &Pat) -> Result<bool, CoreFault>
    ensures answer { (C : O.Env Name) → Means scopes.now C → IfOk result (λ b. b ≡ is_everything (meaning_in C) (pat_of pat.now)) }
    ensures fault { (C : O.Env Name) → Means scopes.now C → OnFault result (λ g. StandsIn (IsLost C g) (pat_of pat.now)) }
{
    match pat {
        Pat::Wildcard(_) => Ok(true),
        Pat::Constant(_, _) | Pat::Applied(_, _, _) => Ok(false),
        Pat::Identifier(_, long) => Ok(is_variable(meaning(scopes, long)?)),
        Pat::Row(_, fields, _) => fields_match_everything(scopes, fields),
        Pat::Tuple(_, pats) => all_match_everything(scopes, pats),
        Pat::Bracket(_, pat) | Pat::Typed(_, pat, _) | Pat::As(_, _, _, pat) => {
            matches_everything(scopes, pat)
        }
    }
}

#[cycle(everything)]
fn fields_match_everything(scopes: &Scopes<'_>, fields: &[PatField]) -> Result<bool, CoreFault>
    ensures answer { (C : O.Env Name) → Means scopes.now C → IfOk result (λ b. b ≡ are_fields_everything (meaning_in C) (pat_fields_of (map pat_field_of fields.now))) }
    ensures fault { (C : O.Env Name) → Means scopes.now C → OnFault result (λ g. StandsInFields (IsLost C g) (pat_fields_of (map pat_field_of fields.now))) }
{
    for field in fields {
        if !matches_everything(scopes, &field.pat)? {
            return Ok(false);
        }
    }
    Ok(true)
}

#[cycle(everything)]
fn all_match_everything(scopes: &Scopes<'_>, pats: &[Pat]) -> Result<bool, CoreFault>
    ensures answer { (C : O.Env Name) → Means scopes.now C → IfOk result (λ b. b ≡ are_everything (meaning_in C) (pats_of (map pat_of pats.now))) }
    ensures fault { (C : O.Env Name) → Means scopes.now C → OnFault result (λ g. StandsInAll (IsLost C g) (pats_of (map pat_of pats.now))) }
{
    for pat in pats {
        if !matches_everything(scopes, pat)? {
            return Ok(false);
        }
    }
    Ok(true)
}

fn meaning(scopes: &Scopes<'_>, long: &LongIdent) -> Result<Meaning, CoreFault>
    ensures { (C : O.Env Name) → Means scopes.now C → FindsMeaning long.now.place result (found.value_at C (long_of long.now)) }
{
    match value_at(scopes, long) {
        Ok(None) => Ok(Meaning::Variable),
        Ok(Some(value)) => Ok(meaning_of(value.status)),
        Err(fault) => Err(fault),
    }
}

/// Notes what the identifiers of a pattern mean.
#[cycle(meanings)]
fn name_meanings(scopes: &Scopes<'_>, pat: &Pat, names: &mut Names) -> Result<(), CoreFault>
    ensures names { (C : O.Env Name) → Means scopes.now C → OnOk result ((x : LongId) → meanings names.new x ≡ after_pat (meaning_in C) (pat_of pat.now) x (meanings names.old x)) }
    ensures fault { (C : O.Env Name) → Means scopes.now C → OnFault result (λ g. StandsIn (IsLost C g) (pat_of pat.now)) }
{
    match pat {
        Pat::Wildcard(_) | Pat::Constant(_, _) => Ok(()),
        Pat::Identifier(_, long) => name_meaning(scopes, long, names),
        Pat::Row(_, fields, _) => fields_name_meanings(scopes, fields, names),
        Pat::Tuple(_, pats) => all_name_meanings(scopes, pats, names),
        Pat::Bracket(_, pat) | Pat::Typed(_, pat, _) | Pat::As(_, _, _, pat) => {
            name_meanings(scopes, pat, names)
        }
        Pat::Applied(_, long, pat) => {
            name_meaning(scopes, long, names)?;
            name_meanings(scopes, pat, names)
        }
    }
}

#[cycle(meanings)]
fn fields_name_meanings(
    scopes: &Scopes<'_>,
    fields: &[PatField],
    names: &mut Names,
) -> Result<(), CoreFault>
    ensures names { (C : O.Env Name) → Means scopes.now C → OnOk result ((x : LongId) → meanings names.new x ≡ after_fields (meaning_in C) (pat_fields_of (map pat_field_of fields.now)) x (meanings names.old x)) }
    ensures fault { (C : O.Env Name) → Means scopes.now C → OnFault result (λ g. StandsInFields (IsLost C g) (pat_fields_of (map pat_field_of fields.now))) }
{
    for field in fields {
        name_meanings(scopes, &field.pat, names)?;
    }
    Ok(())
}

#[cycle(meanings)]
fn all_name_meanings(scopes: &Scopes<'_>, pats: &[Pat], names: &mut Names) -> Result<(), CoreFault>
    ensures names { (C : O.Env Name) → Means scopes.now C → OnOk result ((x : LongId) → meanings names.new x ≡ after_pats (meaning_in C) (pats_of (map pat_of pats.now)) x (meanings names.old x)) }
    ensures fault { (C : O.Env Name) → Means scopes.now C → OnFault result (λ g. StandsInAll (IsLost C g) (pats_of (map pat_of pats.now))) }
{
    for pat in pats {
        name_meanings(scopes, pat, names)?;
    }
    Ok(())
}

fn name_meaning(scopes: &Scopes<'_>, long: &LongIdent, names: &mut Names) -> Result<(), CoreFault>
    ensures names { (C : O.Env Name) → Means scopes.now C → OnOk result ((x : LongId) → meanings names.new x ≡ after_name (meaning_in C) (long_of long.now) x (meanings names.old x)) }
    ensures fault { (C : O.Env Name) → Means scopes.now C → OnFault result (λ g. IsLost C g (long_name_of long.now)) }
{
    let meaning = meaning(scopes, long)?;
    if is_variable(meaning) {
        return Ok(());
    }
    names.insert(long, meaning)?;
    Ok(())
}

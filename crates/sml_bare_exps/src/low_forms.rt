//! Derived forms of expressions that are no higher than the limit.

ghost use Rattle.std.specs.Prelude.{◌≡◌, ◌≤◌, ◌+◌, max, map, reverse, IfOk};
ghost use Rattle.std.specs.Option.{option_map};
ghost use Rattle.sml_tree.specs.TypeViews.{name_of};
ghost use Rattle.sml_tree.specs.ExpressionViews.{exp_of, rule_of, rules_of};
ghost use Rattle.sml_derived.specs.Derived.{select, case_of, if_of, orelse_of, andalso_of, sequence_of, while_of, nil_of, cons_of, infix_of};
ghost use Rattle.sml_phrases.specs.PhraseHeights.{low};
ghost use Rattle.sml_phrases.specs.PhraseViews.{Gives};
ghost use Rattle.sml_bare_exps.specs.ExpressionViews.{GivesExp, low_exp_of};

use sml_derived::expander::Expander;
use sml_lex::fault::Place;
use sml_phrases::low::{LowExp, LowRules};
use sml_phrases::phrase::Failure;
use sml_phrases::raise::raised;
use sml_tree::expressions::Exp;
use sml_tree::names::Name;

/// The tree of an expression, and the height of one right above it and others of a height.
pub(crate) fn raised_exp(exp: LowExp, others: u32) -> Result<(Exp, u32), Failure>
    requires { others ≤ 4002 }
    ensures exp { IfOk result (λ r. exp_of r.0 ≡ low_exp_of exp) }
    ensures sum { Gives (λ r. r.1) low (max exp.height others + 1) result }
    ensures within { IfOk result (λ r. r.1 ≤ 4000) }
{
    let height = raised(exp.height.max(others), 1)?;
    Ok((exp.tree, height))
}

/// The trees of two expressions, and a height with so many levels more.
pub(crate) fn raised_pair(
    left: LowExp,
    right: LowExp,
    height: u32,
    levels: u32,
) -> Result<(Exp, Exp, u32), Failure>
    requires height { height ≤ 8000 }
    requires levels { levels ≤ 100 }
    ensures left { IfOk result (λ r. exp_of r.0 ≡ low_exp_of left) }
    ensures right { IfOk result (λ r. exp_of r.1 ≡ low_exp_of right) }
    ensures sum { Gives (λ r. r.2) low (height + levels) result }
    ensures within { IfOk result (λ r. r.2 ≤ 4000) }
{
    let height = raised(height, levels)?;
    Ok((left.tree, right.tree, height))
}

/// `#l`
pub fn low_select(expander: &Expander, place: Place, label: Name) -> Result<LowExp, Failure>
    ensures { GivesExp (select place (name_of label)) result }
{
    let tree = expander.select(place, label)?;
    Ok(LowExp { tree, height: 3 })
}

/// `case e of m`
pub fn low_case(
    expander: &Expander,
    place: Place,
    subject: LowExp,
    rules: LowRules,
) -> Result<LowExp, Failure>
    ensures { GivesExp (case_of place (exp_of subject.tree) (rules_of (map rule_of (reverse rules.trees.items)))) result }
{
    let (subject, height) = raised_exp(subject, rules.height + 2)?;
    let mut trees = rules.trees;
    trees.reverse();
    let tree = expander.case(place, subject, trees)?;
    Ok(LowExp { tree, height })
}

/// `if e then a else b`
pub fn low_conditional(
    expander: &Expander,
    place: Place,
    test: LowExp,
    yes: LowExp,
    no: LowExp,
) -> Result<LowExp, Failure>
    ensures { GivesExp (if_of place (exp_of test.tree) (exp_of yes.tree) (exp_of no.tree)) result }
{
    let most = yes.height.max(no.height).max(1);
    let height = raised(test.height.max(most + 2), 1)?;
    let tree = expander.conditional(place, test.tree, yes.tree, no.tree)?;
    Ok(LowExp { tree, height })
}

/// `a orelse b`
pub fn low_or_else(
    expander: &Expander,
    place: Place,
    left: LowExp,
    right: LowExp,
) -> Result<LowExp, Failure>
    ensures { GivesExp (orelse_of place (exp_of left.tree) (exp_of right.tree)) result }
{
    let most = left.height.max(right.height.max(1) + 2);
    let (left, right, height) = raised_pair(left, right, most, 1)?;
    let tree = expander.or_else(place, left, right)?;
    Ok(LowExp { tree, height })
}

/// `a andalso b`
pub fn low_and_also(
    expander: &Expander,
    place: Place,
    left: LowExp,
    right: LowExp,
) -> Result<LowExp, Failure>
    ensures { GivesExp (andalso_of place (exp_of left.tree) (exp_of right.tree)) result }
{
    let most = left.height.max(right.height.max(1) + 2);
    let (left, right, height) = raised_pair(left, right, most, 1)?;
    let tree = expander.and_also(place, left, right)?;
    Ok(LowExp { tree, height })
}

/// `(a; ..; z)`, from `a` and `(..; z)`.
pub fn low_sequence(
    expander: &Expander,
    place: Place,
    first: LowExp,
    rest: LowExp,
) -> Result<LowExp, Failure>
    ensures { GivesExp (sequence_of place (exp_of first.tree) (exp_of rest.tree)) result }
{
    let most = first.height.max(rest.height.max(1) + 2);
    let (first, rest, height) = raised_pair(first, rest, most, 1)?;
    let tree = expander.sequence(place, first, rest)?;
    Ok(LowExp { tree, height })
}

/// `while a do b`
pub fn low_repeat(
    expander: &Expander,
    place: Place,
    test: LowExp,
    body: LowExp,
) -> Result<LowExp, Failure>
    ensures { GivesExp (while_of place (exp_of test.tree) (exp_of body.tree)) result }
{
    let most = test.height.max(body.height.max(4) + 3);
    let (test, body, height) = raised_pair(test, body, most, 4)?;
    let tree = expander.repeat(place, test, body)?;
    Ok(LowExp { tree, height })
}

/// `[]`
pub fn low_nil(expander: &Expander, place: Place) -> Result<LowExp, Failure>
    ensures { GivesExp (nil_of place) result }
{
    let tree = expander.nil(place)?;
    Ok(LowExp { tree, height: 1 })
}

/// `[a, .., z]`, from `a` and `[.., z]`.
pub fn low_cons(
    expander: &Expander,
    place: Place,
    first: LowExp,
    rest: LowExp,
) -> Result<LowExp, Failure>
    ensures { GivesExp (cons_of place (exp_of first.tree) (exp_of rest.tree)) result }
{
    let most = first.height.max(rest.height);
    let (first, rest, height) = raised_pair(first, rest, most, 2)?;
    let tree = expander.cons(place, first, rest)?;
    Ok(LowExp { tree, height })
}

/// `a f b`
pub fn low_infix(
    expander: &Expander,
    place: Place,
    operator: Name,
    left: LowExp,
    right: LowExp,
) -> Result<LowExp, Failure>
    ensures { GivesExp (infix_of place (name_of operator) (exp_of left.tree) (exp_of right.tree)) result }
{
    let most = left.height.max(right.height);
    let (left, right, height) = raised_pair(left, right, most, 2)?;
    let tree = expander.infix(place, operator, left, right)?;
    Ok(LowExp { tree, height })
}

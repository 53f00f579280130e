//! The heads of clauses: the function's name and its arguments.

ghost use Rattle.std.specs.Prelude.{◌≡◌, ◌≤◌, ◌∷◌, [], suc, map, reverse, IfOk};
ghost use Rattle.std.specs.Option.{option_map};
ghost use Rattle.sml_tree.specs.Heights.{pat_height, pats_height};
ghost use Rattle.sml_tree.specs.Views.{ident_of};
ghost use Rattle.sml_tree.specs.Patterns.{no_pat, and_pat};
ghost use Rattle.sml_tree.specs.PatternViews.{pat_of};
ghost use Rattle.sml_phrases.specs.PhraseHeights.{low};
ghost use Rattle.sml_phrases.specs.PhraseViews.{Gives};
ghost use Rattle.sml_fixity.specs.Shapes.{shape_of};
ghost use Rattle.sml_bare_decs.specs.FunctionRules.{nameless, prefix_head, between, infix_head, in_brackets, bracketed_head, heading};
ghost use Rattle.sml_bare_decs.specs.FunctionViews.{heading_of, GivesHeading};
ghost use Rattle.sml_pat_sequences.specs.LowViews.{low_pats_of};

use sml_fixity::heads::Head;
use sml_fixity::shape::Shape;
use sml_lex::fault::{Memory, Place};
use sml_pat_sequences::low_lists::and_pat;
use sml_pat_sequences::pattern_sequences::paired;
use sml_phrases::low::{LowPat, LowPats};
use sml_phrases::phrase::Failure;
use sml_tree::bare::Ident;
use sml_tree::patterns::Pat;
use std::alloc::Global;
use std::rc::Rc;

/// What the head of a clause gives: the function's name and its arguments.
#[derive(Drop)]
pub struct ClauseHead {
    pub name: Ident,
    pub arguments: LowPats,
}

/// The heading of another form, without a name.
fn nameless(alloc: Global, first: LowPat, others: LowPats) -> Result<ClauseHead, Memory>
    ensures { IfOk result (λ h. heading_of h ≡ nameless (and_pat (pat_of first.tree) (low_pats_of others))) }
{
    let arguments = and_pat(first, others)?;
    Ok(ClauseHead {
        name: Rc::new(alloc, Vec::new(alloc))?,
        arguments,
    })
}

/// `f x ..`
fn prefix_head(alloc: Global, first: LowPat, others: LowPats) -> Result<ClauseHead, Memory>
    ensures { IfOk result (λ h. heading_of h ≡ prefix_head (pat_of first.tree) (low_pats_of others)) }
{
    let height = first.height;
    let tree = first.tree;
    match tree {
        Pat::Identifier(_, long) => Ok(ClauseHead {
            name: long.last,
            arguments: others,
        }),
        tree => nameless(alloc, LowPat { tree, height }, others),
    }
}

/// The list of two patterns.
fn two(alloc: Global, first: LowPat, second: LowPat) -> Result<LowPats, Memory>
    ensures { IfOk result (λ qs. low_pats_of qs ≡ and_pat (pat_of first.tree) (and_pat (pat_of second.tree) no_pat)) }
{
    let none = LowPats {
        trees: Vec::new(alloc),
        height: 0,
    };
    and_pat(first, and_pat(second, none)?)
}

/// `x f y`, from its three patterns.
fn between(
    alloc: Global,
    left: LowPat,
    middle: LowPat,
    right: LowPat,
) -> Result<ClauseHead, Failure>
    ensures { GivesHeading (between (pat_of left.tree) (pat_of middle.tree) (pat_of right.tree)) result }
{
    let height = middle.height;
    let tree = middle.tree;
    match tree {
        Pat::Identifier(_, long) => {
            let none = LowPats {
                trees: Vec::new(alloc),
                height: 0,
            };
            let arguments = and_pat(paired(alloc, left, right)?, none)?;
            Ok(ClauseHead {
                name: long.last,
                arguments,
            })
        }
        tree => Ok(nameless(alloc, left, two(alloc, LowPat { tree, height }, right)?)?),
    }
}

/// `x f y`
fn infix_head(alloc: Global, first: LowPat, others: LowPats) -> Result<ClauseHead, Failure>
    ensures { GivesHeading (infix_head (pat_of first.tree) (low_pats_of others)) result }
{
    if others.trees.len() != 2 {
        return Ok(nameless(alloc, first, others)?);
    }
    let mut rest = others.trees;
    let Some(middle) = rest.pop() else {
        unreachable!();
    };
    let Some(last) = rest.pop() else {
        unreachable!();
    };
    between(alloc, first, middle, last)
}

/// `(x f y) ..`, from the place of the brackets and what stands within.
fn in_brackets(
    alloc: Global,
    place: Place,
    inner: Pat,
    height: u32,
    others: LowPats,
) -> Result<ClauseHead, Memory>
    requires measured { suc (pat_height (pat_of inner)) ≡ height }
    requires low { height ≤ 4000 }
    ensures { IfOk result (λ h. heading_of h ≡ in_brackets place (pat_of inner) (low_pats_of others)) }
{
    match inner {
        Pat::Applied(_, constructor, argument) => {
            let argument = LowPat {
                tree: Box::into_inner(argument),
                height: height - 2,
            };
            Ok(ClauseHead {
                name: constructor.last,
                arguments: and_pat(argument, others)?,
            })
        }
        inner => {
            let tree = Pat::Bracket(place, Box::new(alloc, inner)?);
            nameless(alloc, LowPat { tree, height }, others)
        }
    }
}

/// `(x f y) ..`
fn bracketed_head(alloc: Global, first: LowPat, others: LowPats) -> Result<ClauseHead, Memory>
    ensures { IfOk result (λ h. heading_of h ≡ bracketed_head (pat_of first.tree) (low_pats_of others)) }
{
    let height = first.height;
    let tree = first.tree;
    match tree {
        Pat::Bracket(place, inner) => in_brackets(
            alloc,
            place,
            Box::into_inner(inner),
            height,
            others,
        ),
        tree => nameless(alloc, LowPat { tree, height }, others),
    }
}

/// The heading that atomic patterns are, by how it is written.
pub fn heading(
    alloc: Global,
    shape: Option<&Shape>,
    first: LowPat,
    others: LowPats,
) -> Result<ClauseHead, Failure>
    ensures { GivesHeading (heading (option_map (λ s. shape_of s.now) shape.entry) (pat_of first.tree) (low_pats_of others)) result }
{
    match shape {
        Some(Shape::Head(Head::Prefix)) => Ok(prefix_head(alloc, first, others)?),
        Some(Shape::Head(Head::Infix)) => infix_head(alloc, first, others),
        Some(Shape::Head(Head::Bracketed)) => Ok(bracketed_head(alloc, first, others)?),
        _ => Ok(nameless(alloc, first, others)?),
    }
}

//! The first fault of what the declarations of a unit bind.

ghost use Rattle.std.specs.Prelude.{◌≡◌, ◌<◌, ◌≤◌, ◌-◌, ◌^◌, suc, map, take, drop, length, IfOk};
ghost use Rattle.std.specs.List.{before_first};
ghost use Rattle.sml_reach.specs.Events.{text_at};
ghost use Rattle.sml_reach.specs.Fits.{fitted_of};
ghost use Rattle.sml_flaws.specs.Flawed as spec;

use crate::flaw::{Flaw, Workspace, first_flaw};
use sml_lex::fault::Memory;
use sml_lex::token::Token;
use sml_reach::fitted::Fitted;
use sml_reach::reach::Misfit;
use sml_read::grammar::{Node, Rule, UnitRule};
use sml_read::phrases::token_count;
use std::alloc::Global;

/// Whether a declaration begins after this rule.
pub fn begins_at(rule: Rule) -> bool
    ensures { result ≡ spec.begins_at rule }
{
    match rule {
        Rule::Units(UnitRule::StartTop | UnitRule::StartExp | UnitRule::AfterTopTop) => true,
        _ => false,
    }
}

/// Whether a declaration has ended where this node stands.
fn ends_at(node: Node) -> bool
    ensures { result ≡ spec.ends_at node }
{
    match node {
        Node::Inner(
            Rule::Units(
                UnitRule::StartNone
                | UnitRule::StartSemicolon
                | UnitRule::StartTop
                | UnitRule::StartExp
                | UnitRule::AfterTopNone
                | UnitRule::AfterTopSemicolon
                | UnitRule::AfterTopTop
                | UnitRule::AfterExpNone
                | UnitRule::AfterExpSemicolon,
            ),
        ) => true,
        _ => false,
    }
}

/// The nodes before the first where a declaration has ended.
fn up_to_end(nodes: &[Node]) -> usize
    ensures within { result ≤ length nodes.now }
    ensures kept { take result nodes.now ≡ before_first spec.ends_at nodes.now }
{
    let mut end = 0;
    while end < nodes.len() && !ends_at(nodes[end]) {
        end += 1;
    }
    end
}

/// The nodes of the declaration that begins with the first of these.
pub fn before_end(nodes: &[Node]) -> &[Node]
    ensures { result.now ≡ before_first spec.ends_at nodes.now }
{
    &nodes[..up_to_end(nodes)]
}

/// The nodes of the declaration that begins after the node with this number, and that one.
fn own(nodes: &[Node], number: usize) -> &[Node]
    requires { number < length nodes.now }
    ensures { result.now ≡ spec.own_nodes (drop number nodes.now) }
{
    let end = up_to_end(&nodes[number + 1..]);
    &nodes[number..number + 1 + end]
}

/// A token of the declaration of these nodes, whose first token is given.
fn own_token(first: usize, nodes: &[Node], token: usize) -> usize
    ensures { result ≡ spec.own_token first nodes.now token }
{
    if first <= token && token - first < token_count(nodes) {
        token
    } else {
        first
    }
}

/// The fault of a declaration, by its number in the unit, its first token and its nodes.
fn flaw_in(number: usize, first: usize, nodes: &[Node], flaw: Option<Flaw>) -> Option<Misfit>
    ensures { result ≡ spec.flaw_in number first nodes.now flaw }
{
    match flaw {
        None => None,
        Some(flaw) => Some(Misfit {
            number,
            begun: first,
            token: own_token(first, nodes, flaw.token),
            code: flaw.code,
        }),
    }
}

/// The same, if so many declarations have begun before it and its sequences stand for something.
fn flaw_here<'a>(
    alloc: Global,
    unit: &'a [u8],
    tokens: &'a [Token],
    workspace: &mut Workspace<'a>,
    nodes: &[Node],
    first: usize,
    count: usize,
    fitted: &[Fitted],
) -> Result<Option<Misfit>, Memory>
    requires token { first ≤ length tokens.now }
    requires few { count < 2 ^ 64 - 1 }
    ensures { IfOk result (λ m. m ≡ spec.flaw_here (text_at unit.now tokens.now) (suc count) first nodes.now (drop count (map fitted_of fitted.now))) }
{
    let Some(fitted) = fitted.get(count) else {
        return Ok(None);
    };
    let flaw = first_flaw(alloc, unit, tokens, workspace, nodes, first, &fitted.fits)?;
    Ok(flaw_in(count + 1, first, nodes, flaw))
}

/// The first fault, or else the other.
pub fn or_else(first: Option<Misfit>, other: Option<Misfit>) -> Option<Misfit>
    ensures { result ≡ spec.or_else first other }
{
    match first {
        Some(first) => Some(first),
        None => other,
    }
}

/// The fault of the first of these declarations that has one. What the workspace holds doesn't count.
fn seek<'a>(
    alloc: Global,
    unit: &'a [u8],
    tokens: &'a [Token],
    workspace: &mut Workspace<'a>,
    nodes: &[Node],
    fitted: &[Fitted],
) -> Result<Option<Misfit>, Memory>
    ensures { IfOk result (λ m. m ≡ spec.first_flawed (text_at unit.now tokens.now) 0 0 nodes.now tokens.now (map fitted_of fitted.now)) }
{
    let mut first = 0;
    let mut count = 0;
    for i in 0..nodes.len() {
        match nodes[i] {
            Node::Leaf => {
                if first >= tokens.len() {
                    return Ok(None);
                }
                first += 1;
            }
            Node::Inner(rule) => {
                if begins_at(rule) {
                    let nodes = own(nodes, i);
                    let flaw = flaw_here(
                        alloc, unit, tokens, workspace, nodes, first, count, fitted,
                    )?;
                    if flaw.is_some() {
                        return Ok(flaw);
                    }
                    count += 1;
                }
            }
        }
    }
    Ok(None)
}

/// The fault of the first of these declarations that has one.
pub fn first_flawed(
    alloc: Global,
    unit: &[u8],
    tokens: &[Token],
    nodes: &[Node],
    fitted: &[Fitted],
) -> Result<Option<Misfit>, Memory>
    ensures { IfOk result (λ m. m ≡ spec.first_flawed (text_at unit.now tokens.now) 0 0 nodes.now tokens.now (map fitted_of fitted.now)) }
{
    let mut workspace = Workspace::new(alloc);
    seek(alloc, unit, tokens, &mut workspace, nodes, fitted)
}

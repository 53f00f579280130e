//! Bare declarations from derivations, by one walk from a declaration's last node to its first.

ghost use Rattle.std.specs.Prelude.{◌≡◌, ◌<◌, ◌-◌, ◌^◌, ◌∷◌, false, true, drop, length, map, slice_get, slice_range, IfOk, IfErr, OnOk};
ghost use Rattle.std.specs.List.{list_all};
ghost use Rattle.std.specs.Option.{option_map, is_some};
ghost use Rattle.sml_phrases.specs.Phrases.{first, of_constant};
ghost use Rattle.sml_phrases.specs.PhraseViews.{Puts, phrase_of, seen};
ghost use Rattle.sml_phrases.specs.declared.phrase.Failure.TheVariants.{TooHigh};
ghost use Rattle.sml_tree.specs.StructureViews.{top_of};
ghost use Rattle.sml_read.specs.Grammar.{right_side};
ghost use Rattle.sml_read.specs.Extents.{starts_of};
ghost use Rattle.sml_reach.specs.Fits.{fit_of, fitted_of};
ghost use Rattle.sml_bare.specs.Derivations as spec;
ghost use Rattle.sml_reach.specs.Reach.{up_to};
ghost use Rattle.sml_reach.specs.Reach.{is_full};
ghost use Rattle.sml_bare.specs.SourceViews.{source_of};

use crate::rules::{declaration, is_within, rule_phrase};
use crate::source::{Source, Tables};
use sml_derived::expander::Expander;
use sml_flaws::flawed::{before_end, begins_at};
use sml_lex::fault::{Memory, Place};
use sml_lex::token::{Kind, Token};
use sml_phrases::phrase::Failure;
use sml_phrases::stack::Stack;
use sml_reach::fitted::{Fit, Fitted};
use sml_reach::names::Names;
use sml_reach::place::text;
use sml_read::grammar::{DeclarationRule, Node, Rule};
use sml_read::phrases::{first_token, token_count};
use sml_tree::names::Name;
use sml_tree::patterns::{Constant, ConstantKind};
use sml_tree::structures::TopDec;
use std::alloc::Global;

/// A constant of this kind goes on the stack.
fn put_constant(
    names: &mut Names,
    stack: &mut Stack,
    kind: ConstantKind,
    text: &[u8],
) -> Result<(), Failure>
    ensures { Puts (of_constant (record { kind = kind; literal = text.now })) 0 (seen stack.old) (seen stack.new) result }
{
    let literal = names.ident(text)?;
    stack.put_constant(Constant { kind, literal })
}

/// What a token of a unit makes by its kind, its place and its bytes goes on the stack.
fn put_word(
    names: &mut Names,
    stack: &mut Stack,
    unit: &[u8],
    token: Token,
    place: Place,
) -> Result<(), Failure>
    ensures { Puts (spec.word_phrase token.kind place (slice_range unit.now token.span.start token.span.end)) 0 (seen stack.old) (seen stack.new) result }
{
    match token.kind {
        Kind::Alphanumeric
        | Kind::Symbolic
        | Kind::Star
        | Kind::Equals
        | Kind::TypeVariable
        | Kind::Numeral
        | Kind::ZeroNumeral => {
            let ident = names.ident(text(unit, token.span))?;
            stack.put_name(Name { place, ident })
        }
        Kind::LongAlphanumeric | Kind::LongSymbolic | Kind::LongStar => {
            let long = names.long(place, text(unit, token.span))?;
            stack.put_long(long)
        }
        Kind::Integer => put_constant(names, stack, ConstantKind::Integer, text(unit, token.span)),
        Kind::WordConstant => put_constant(
            names,
            stack,
            ConstantKind::Word,
            text(unit, token.span),
        ),
        Kind::RealConstant => put_constant(
            names,
            stack,
            ConstantKind::Real,
            text(unit, token.span),
        ),
        Kind::StringConstant => put_constant(
            names,
            stack,
            ConstantKind::String,
            text(unit, token.span),
        ),
        Kind::CharacterConstant => put_constant(
            names,
            stack,
            ConstantKind::Character,
            text(unit, token.span),
        ),
        _ => stack.put_word(place),
    }
}

/// How many tokens of a phrase stand before the sequence that it begins with.
fn before_sequence(rule: Rule) -> usize
    ensures { result ≡ spec.before_sequence rule }
{
    match rule {
        Rule::Declarations(DeclarationRule::ClauseMoreBar) => 1,
        _ => 0,
    }
}

/// What the n-th token of a declaration makes goes on the stack.
#[inline(never)]
fn put_token(source: &Source, names: &mut Names, stack: &mut Stack, n: usize) -> Result<(), Failure>
    ensures { let s = source_of source.now in
        Puts (spec.token_phrase s.unit (spec.place_at s.unit s.tokens n) (slice_get s.tokens n)) 0 (seen stack.old) (seen stack.new) result }
{
    match source.tokens.get(n) {
        Some(token) => put_word(names, stack, source.unit, *token, source.place(n)),
        None => stack.put_nothing(),
    }
}

/// What a phrase makes by its rule and its first token, put on the stack in place of its parts.
fn put_by(
    source: &Source,
    expander: &Expander,
    stack: &mut Stack,
    rule: Rule,
    n: usize,
) -> Result<(), Failure>
    requires { n < 2 ^ 64 - 1 }
    ensures { Puts (spec.made_by (source_of source.now) rule n (seen stack.old)) (length (right_side rule)) (seen stack.old) (seen stack.new) result }
{
    let shape = source.shape(n + before_sequence(rule));
    rule_phrase(rule, source.place(n), shape, expander, stack)
}

/// A node of a declaration with its first token: what it makes goes on the stack in place of its parts.
fn at_node(
    source: &Source,
    names: &mut Names,
    expander: &Expander,
    stack: &mut Stack,
    node: Node,
    n: usize,
) -> Result<(), Failure>
    requires { n < 2 ^ 64 - 1 }
    ensures made { OnOk result (seen stack.new ≡ spec.phrases_from (source_of source.now) node n (seen stack.old)) }
    ensures within { IfOk result (λ u. spec.is_low_at (source_of source.now) node n (seen stack.old) ≡ true) }
    ensures high { IfErr result (λ f. f ≡ TooHigh → spec.is_low_at (source_of source.now) node n (seen stack.old) ≡ false) }
{
    match node {
        Node::Leaf => put_token(source, names, stack, n)?,
        Node::Inner(rule) => {
            put_by(source, expander, stack, rule, n)?;
            is_within(stack);
        }
    }
    Ok(())
}

/// What is made by the nodes of a declaration, on a stack on which nothing is left of others.
fn phrases(
    source: &Source,
    names: &mut Names,
    expander: &Expander,
    stack: &mut Stack,
    nodes: &[Node],
) -> Result<(), Failure>
    ensures made { OnOk result (seen stack.new ≡ spec.phrases_of (source_of source.now) nodes.now (starts_of 0 nodes.now)) }
    ensures within { IfOk result (λ u. spec.are_low (source_of source.now) nodes.now (starts_of 0 nodes.now) ≡ true) }
    ensures high { IfErr result (λ f. f ≡ TooHigh → spec.are_low (source_of source.now) nodes.now (starts_of 0 nodes.now) ≡ false) }
{
    let mut token = token_count(nodes);
    stack.clear();
    for i in (0..nodes.len()).rev() {
        let node = nodes[i];
        token = first_token(node, token);
        match at_node(source, names, expander, stack, node, token) {
            Ok(()) => {}
            Err(failure) => return Err(failure),
        }
    }
    Ok(())
}

/// The declaration of these nodes, unless it is too high.
fn declared(
    source: &Source,
    names: &mut Names,
    expander: &Expander,
    stack: &mut Stack,
    nodes: &[Node],
) -> Result<Option<TopDec>, Memory>
    ensures { IfOk result (λ top. option_map top_of top ≡ spec.bare_dec (source_of source.now) nodes.now) }
{
    match phrases(source, names, expander, stack, nodes) {
        Ok(()) => {}
        Err(Failure::TooHigh) => return Ok(None),
        Err(Failure::Memory) => return Err(Memory),
    }
    match declaration(source.place(0), expander, stack) {
        Ok(top) => Ok(Some(top.tree)),
        Err(Failure::TooHigh) => Ok(None),
        Err(Failure::Memory) => Err(Memory),
    }
}

/// The tokens after so many.
fn after<'a>(tokens: &'a [Token], count: usize) -> &'a [Token]
    ensures { result.now ≡ drop count tokens.now }
{
    &tokens[count.min(tokens.len())..]
}

/// What the sequences of a declaration stand for, after so many declarations.
fn fits_at<'a>(fitted: &'a [Fitted], count: usize) -> &'a [Fit]
    ensures { map fit_of result.now ≡ spec.first_fits (drop count (map fitted_of fitted.now)) }
{
    match fitted.get(count) {
        Some(fitted) => &fitted.fits,
        None => &[],
    }
}

/// The declaration of these nodes after so many tokens, and after so many declarations of the unit.
fn declared_at(
    unit: &[u8],
    tokens: &[Token],
    names: &mut Names,
    expander: &Expander,
    stack: &mut Stack,
    tables: &mut Tables,
    fitted: &[Fitted],
    nodes: &[Node],
    first: usize,
    count: usize,
) -> Result<Option<TopDec>, Memory>
    ensures { IfOk result (λ top. option_map top_of top ≡ spec.bare_dec_at unit.now tokens.now first nodes.now (drop count (map fitted_of fitted.now))) }
{
    let fits = fits_at(fitted, count);
    let placed = token_count(nodes).saturating_add(1);
    let source = Source::new(unit, after(tokens, first), first, fits, placed, tables)?;
    declared(&source, names, expander, stack, nodes)
}

/// Whether there are as many declarations as there may be.
pub fn is_full(most: Option<usize>, count: usize) -> bool
    ensures { result ≡ is_full most count }
{
    match most {
        Some(most) => most <= count,
        None => false,
    }
}

/// The bare declarations of a unit's derivation, so many at most, up to the first that is too high, and whether none is.
pub fn bare_decs(
    alloc: Global,
    unit: &[u8],
    tokens: &[Token],
    names: &mut Names,
    nodes: &[Node],
    fitted: &[Fitted],
    most: Option<usize>,
) -> Result<(Vec<TopDec>, bool), Memory>
    ensures { let all = up_to most (spec.bare_decs unit.now tokens.now 0 nodes.now (map fitted_of fitted.now)) in
        IfOk result (λ r. (map top_of r.0.items ≡ spec.before_none all) × (r.1 ≡ list_all is_some all)) }
{
    let expander = Expander::new(alloc)?;
    let mut stack = Stack::new(alloc);
    let mut tables = Tables::new(alloc);
    let mut declarations = Vec::new(alloc);
    let mut first = 0;
    for i in 0..nodes.len() {
        match nodes[i] {
            Node::Leaf => first += 1,
            Node::Inner(rule) => {
                if begins_at(rule) {
                    let count = declarations.len();
                    if is_full(most, count) {
                        return Ok((declarations, true));
                    }
                    let own = before_end(&nodes[i + 1..]);
                    let Some(top) = declared_at(
                        unit,
                        tokens,
                        names,
                        &expander,
                        &mut stack,
                        &mut tables,
                        fitted,
                        own,
                        first,
                        count,
                    )?
                    else {
                        return Ok((declarations, false));
                    };
                    declarations.push(top)?;
                }
            }
        }
    }
    Ok((declarations, true))
}

//! Expressions and declarations of the piece.

#![tactic(auto, unfolding(crate::specs::Piece::exp_piece, crate::specs::Piece::exps_piece, crate::specs::Piece::rules_piece, crate::specs::Piece::rule_piece))]

ghost use Rattle.std.specs.Prelude.{◌≡◌, Some, map, IfOk};
ghost use Rattle.std.specs.Option.{option_map};
ghost use Rattle.sml_tree.specs.Trees.{tuple, bracket};
ghost use Rattle.sml_tree.specs.Views.{brackets, exp_of, exps_of, core_dec_of};
ghost use Rattle.sml_tree.specs.ExpressionViews as whole;
ghost use Rattle.sml_tree.specs.TypeViews.{names_of, long_name_of};
ghost use Rattle.sml_tree.specs.BindingViews.{typ_bind_of};
ghost use Rattle.sml_piece_trees.specs.Piece as spec;

use crate::names::{used, variable};
use crate::types::ty_piece;
use sml_lex::fault::{Memory, Place};
use sml_tree::bare::{CoreDec, CoreForm, Exp, LongIdent};
use sml_tree::expressions as whole;
use sml_tree::names::Name;
use sml_tree::patterns::{Constant, ConstantKind};
use std::alloc::Global;

/// An integer.
fn constant_piece(constant: &Constant) -> Option<Exp>
    ensures { option_map exp_of result ≡ spec.constant_piece constant.now.kind }
{
    match constant.kind {
        ConstantKind::Integer => Some(Exp::Number),
        _ => None,
    }
}

/// An identifier, where it may name a value of the piece.
#[inline(never)]
fn identifier_piece(alloc: Global, long: &LongIdent) -> Result<Option<Exp>, Memory>
    ensures { IfOk result (λ r. option_map exp_of r ≡ spec.name_piece (long_name_of long.now)) }
{
    match used(alloc, long)? {
        Some(long) => Ok(Some(Exp::Identifier(long))),
        None => Ok(None),
    }
}

/// What stands in so many pairs of brackets, in one more.
fn further_bracket(alloc: Global, exp: Box<Exp>, pairs: u32) -> Result<Exp, Memory>
    ensures { IfOk result (λ r. exp_of r ≡ bracket (brackets pairs (exp_of exp.value))) }
{
    match pairs.checked_add(1) {
        Some(more) => Ok(Exp::Brackets(exp, more)),
        None => Ok(Exp::Brackets(Box::new(alloc, Exp::Brackets(exp, pairs))?, 1)),
    }
}

/// An expression in brackets. Brackets in brackets share one tree.
#[inline(never)]
fn bracket_piece(alloc: Global, exp: Exp) -> Result<Option<Exp>, Memory>
    ensures { IfOk result (λ r. option_map exp_of r ≡ Some (bracket (exp_of exp))) }
{
    match exp {
        Exp::Brackets(exp, pairs) => Ok(Some(further_bracket(alloc, exp, pairs)?)),
        other => Ok(Some(Exp::Brackets(Box::new(alloc, other)?, 1))),
    }
}

/// An expression, if it is of the piece. Its forms have functions of their own, so that a bracket in brackets costs little
/// of the stack.
#[cycle(exp_piece)]
pub fn exp_piece(alloc: Global, exp: &whole::Exp) -> Result<Option<Exp>, Memory>
    ensures { IfOk result (λ r. option_map exp_of r ≡ spec.exp_piece (whole.exp_of exp.now)) }
{
    match exp {
        whole::Exp::Constant(_, constant) => Ok(constant_piece(constant)),
        whole::Exp::Identifier(_, long) => identifier_piece(alloc, long),
        whole::Exp::Tuple(_, exps) => tuple_piece(alloc, exps),
        whole::Exp::Bracket(_, exp) => match exp_piece(alloc, exp) {
            Ok(Some(exp)) => bracket_piece(alloc, exp),
            other => other,
        },
        whole::Exp::Function(_, rules) => match (rules.first(), rules.get(1)) {
            (Some(rule), None) => rule_piece(alloc, rule),
            _ => Ok(None),
        },
        _ => Ok(None),
    }
}

/// A row labelled from 1 on.
#[cycle(exp_piece)]
#[inline(never)]
fn tuple_piece(alloc: Global, exps: &[whole::Exp]) -> Result<Option<Exp>, Memory>
    ensures { IfOk result (λ r. option_map exp_of r ≡ option_map tuple (spec.exps_piece (whole.exps_of (map whole.exp_of exps.now)))) }
{
    match exps_piece(alloc, exps)? {
        Some(exps) => Ok(Some(Exp::Tuple(exps))),
        None => Ok(None),
    }
}

#[cycle(exp_piece)]
fn exps_piece(alloc: Global, exps: &[whole::Exp]) -> Result<Option<Vec<Exp>>, Memory>
    ensures { IfOk result (λ r. option_map (λ es. exps_of (map exp_of es.items)) r ≡ spec.exps_piece (whole.exps_of (map whole.exp_of exps.now))) }
{
    let mut made = Vec::with_capacity(alloc, exps.len())?;
    for exp in exps {
        match exp_piece(alloc, exp)? {
            Some(exp) => made.push(exp)?,
            None => return Ok(None),
        }
    }
    Ok(Some(made))
}

/// `x => e`
#[cycle(exp_piece)]
#[inline(never)]
fn rule_piece(alloc: Global, rule: &whole::Rule) -> Result<Option<Exp>, Memory>
    ensures { IfOk result (λ r. option_map exp_of r ≡ spec.rule_piece (whole.rule_of rule.now)) }
{
    let Some(variable) = variable(&rule.pat)? else {
        return Ok(None);
    };
    match exp_piece(alloc, &rule.exp)? {
        Some(exp) => Ok(Some(Exp::Function(variable, Box::new(alloc, exp)?))),
        None => Ok(None),
    }
}

/// `x = e`
fn bind_piece(alloc: Global, place: Place, bind: &whole::ValBind) -> Result<Option<CoreDec>, Memory>
    ensures { IfOk result (λ r. option_map core_dec_of r ≡ spec.bind_piece place (whole.bind_of bind.now)) }
{
    let Some(variable) = variable(&bind.pat)? else {
        return Ok(None);
    };
    match exp_piece(alloc, &bind.exp)? {
        Some(exp) => Ok(Some(CoreDec {
            place,
            form: CoreForm::Value(variable, exp),
        })),
        None => Ok(None),
    }
}

/// A single binding.
fn one_bind_piece(
    alloc: Global,
    place: Place,
    binds: &[whole::ValBind],
) -> Result<Option<CoreDec>, Memory>
    ensures { IfOk result (λ r. option_map core_dec_of r ≡ spec.binds_piece place (whole.binds_of (map whole.bind_of binds.now))) }
{
    match (binds.first(), binds.get(1)) {
        (Some(bind), None) => bind_piece(alloc, place, bind),
        _ => Ok(None),
    }
}

/// A value declaration without type variables, with one binding and none after `rec`.
pub fn val_piece(
    alloc: Global,
    place: Place,
    variables: &[Name],
    binds: &[whole::ValBind],
    recursive: &[whole::ValBind],
) -> Result<Option<CoreDec>, Memory>
    ensures { IfOk result (λ r. option_map core_dec_of r ≡ spec.val_piece place (names_of variables.now) (whole.binds_of (map whole.bind_of binds.now)) (whole.binds_of (map whole.bind_of recursive.now))) }
{
    match (variables.first(), recursive.first()) {
        (None, None) => one_bind_piece(alloc, place, binds),
        _ => Ok(None),
    }
}

/// A type binding without type variables.
fn typ_bind_piece(
    alloc: Global,
    place: Place,
    bind: &whole::TypBind,
) -> Result<Option<CoreDec>, Memory>
    ensures { IfOk result (λ r. option_map core_dec_of r ≡ spec.typ_bind_piece place (typ_bind_of bind.now)) }
{
    if !bind.variables.is_empty() {
        return Ok(None);
    }
    match ty_piece(alloc, &bind.ty)? {
        Some(ty) => Ok(Some(CoreDec {
            place,
            form: CoreForm::Type(bind.name.ident.clone()?, ty),
        })),
        None => Ok(None),
    }
}

/// A declaration of the core, if it is of the piece.
pub fn core_piece(alloc: Global, dec: &whole::Dec) -> Result<Option<CoreDec>, Memory>
    ensures { IfOk result (λ r. option_map core_dec_of r ≡ spec.core_piece (whole.dec_of dec.now)) }
{
    match dec {
        whole::Dec::Value(place, variables, binds, recursive) => {
            val_piece(alloc, *place, variables, binds, recursive)
        }
        whole::Dec::Type(place, binds) => {
            if binds.len() == 1 {
                typ_bind_piece(alloc, *place, &binds[0])
            } else {
                Ok(None)
            }
        }
        _ => Ok(None),
    }
}

//! The type variables that occur unguarded in a value declaration: outside the value declarations in it (the Definition,
//! section 4.6).

#![tactic(auto, using(crate::proofs::Gathering::then_more, crate::proofs::Gathering::inserted, crate::proofs::Gathering::one_more), unfolding(sml_core_rules::specs::Closing::unguarded, sml_core_rules::specs::Closing::ty_variables, sml_core_rules::specs::Closing::tys_variables, sml_core_rules::specs::Closing::ty_field_variables, sml_core_rules::specs::Closing::pat_variables, sml_core_rules::specs::Closing::pats_variables, sml_core_rules::specs::Closing::pat_field_variables, sml_core_rules::specs::Closing::exp_variables, sml_core_rules::specs::Closing::exps_variables, sml_core_rules::specs::Closing::field_variables, sml_core_rules::specs::Closing::rules_variables, sml_core_rules::specs::Closing::dec_variables, sml_core_rules::specs::Closing::decs_variables))]

ghost use Rattle.std.specs.Prelude.{◌≡◌, [], ◌∷◌, map, OnOk};
ghost use Rattle.std.specs.Option.{option_map};
ghost use Rattle.sml_tree.specs.Views.{ident_of};
ghost use Rattle.sml_tree.specs.TypeViews.{ty_of, tys_of, ty_field_of, ty_fields_of};
ghost use Rattle.sml_tree.specs.PatternViews.{pat_of, pats_of, pat_field_of, pat_fields_of};
ghost use Rattle.sml_tree.specs.ExpressionViews.{exp_of, exps_of, field_of, fields_of, rule_of, rules_of, dec_of, decs_of, bind_of, binds_of, exn_bind_of};
ghost use Rattle.sml_core_rules.specs.Closing.{unguarded, ty_variables, tys_variables, ty_field_variables, optional_variables, pat_variables, pats_variables, pat_field_variables, exn_variables, exp_variables, exps_variables, field_variables, rules_variables, dec_variables, decs_variables};
ghost use Rattle.sml_closing.specs.Gathered.{ids_of, with_all};

use indexmap::IndexSet;
use sml_lex::fault::Memory;
use sml_tree::bare::Ident;
use sml_tree::expressions::{ConBind, Dec, ExnBind, Exp, ExpField, Rule, ValBind};
use sml_tree::patterns::{Pat, PatField};
use sml_tree::types::{Ty, TyField};

/// Type variables in the order of their first occurrence.
type Found = IndexSet<Ident>;

/// Adds those of bindings, after those that are there already.
pub fn in_binds(binds: &[ValBind], found: &mut Found) -> Result<(), Memory>
    ensures { OnOk result (ids_of found.new.keys ≡ with_all (ids_of found.old.keys) (unguarded (binds_of (map bind_of binds.now)))) }
{
    for bind in binds {
        in_pat(&bind.pat, found)?;
        in_exp(&bind.exp, found)?;
    }
    Ok(())
}

#[cycle(unguarded_exps)]
fn in_exp(exp: &Exp, found: &mut Found) -> Result<(), Memory>
    ensures { OnOk result (ids_of found.new.keys ≡ with_all (ids_of found.old.keys) (exp_variables (exp_of exp.now))) }
{
    match exp {
        Exp::Constant(_, _) | Exp::Identifier(_, _) => Ok(()),
        Exp::Row(_, fields) => in_fields(fields, found),
        Exp::Tuple(_, exps) => in_exps(exps, found),
        Exp::Let(_, decs, exp) => {
            in_decs(decs, found)?;
            in_exp(exp, found)
        }
        Exp::Bracket(_, exp) | Exp::Raise(_, exp) => in_exp(exp, found),
        Exp::Application(_, function, argument) => {
            in_exp(function, found)?;
            in_exp(argument, found)
        }
        Exp::Typed(_, exp, ty) => {
            in_exp(exp, found)?;
            in_ty(ty, found)
        }
        Exp::Handle(_, exp, rules) => {
            in_exp(exp, found)?;
            in_rules(rules, found)
        }
        Exp::Function(_, rules) => in_rules(rules, found),
    }
}

#[cycle(unguarded_exps)]
fn in_exps(exps: &[Exp], found: &mut Found) -> Result<(), Memory>
    ensures { OnOk result (ids_of found.new.keys ≡ with_all (ids_of found.old.keys) (exps_variables (exps_of (map exp_of exps.now)))) }
{
    for exp in exps {
        in_exp(exp, found)?;
    }
    Ok(())
}

#[cycle(unguarded_exps)]
fn in_fields(fields: &[ExpField], found: &mut Found) -> Result<(), Memory>
    ensures { OnOk result (ids_of found.new.keys ≡ with_all (ids_of found.old.keys) (field_variables (fields_of (map field_of fields.now)))) }
{
    for field in fields {
        in_exp(&field.exp, found)?;
    }
    Ok(())
}

#[cycle(unguarded_exps)]
fn in_rules(rules: &[Rule], found: &mut Found) -> Result<(), Memory>
    ensures { OnOk result (ids_of found.new.keys ≡ with_all (ids_of found.old.keys) (rules_variables (rules_of (map rule_of rules.now)))) }
{
    for rule in rules {
        in_pat(&rule.pat, found)?;
        in_exp(&rule.exp, found)?;
    }
    Ok(())
}

#[cycle(unguarded_decs)]
fn in_decs(decs: &[Dec], found: &mut Found) -> Result<(), Memory>
    ensures { OnOk result (ids_of found.new.keys ≡ with_all (ids_of found.old.keys) (decs_variables (decs_of (map dec_of decs.now)))) }
{
    for dec in decs {
        in_dec(dec, found)?;
    }
    Ok(())
}

#[cycle(unguarded_decs)]
fn in_dec(dec: &Dec, found: &mut Found) -> Result<(), Memory>
    ensures { OnOk result (ids_of found.new.keys ≡ with_all (ids_of found.old.keys) (dec_variables (dec_of dec.now))) }
{
    match dec {
        Dec::Exception(_, binds) => in_exceptions(binds, found),
        Dec::Local(_, hidden, decs) => {
            in_decs(hidden, found)?;
            in_decs(decs, found)
        }
        Dec::Sequence(_, decs) => in_decs(decs, found),
        // Those of types and datatypes are in a list of their own.
        Dec::Value(_, _, _, _)
        | Dec::Type(_, _)
        | Dec::Datatype(_, _)
        | Dec::DatatypeWith(_, _)
        | Dec::Replication(_, _, _)
        | Dec::Open(_, _)
        | Dec::Fixity(_) => Ok(()),
    }
}

fn in_exception(bind: &ExnBind, found: &mut Found) -> Result<(), Memory>
    ensures { OnOk result (ids_of found.new.keys ≡ with_all (ids_of found.old.keys) (exn_variables (exn_bind_of bind.now ∷ []))) }
{
    match bind {
        ExnBind::New(ConBind { name: _, argument }) => in_optional(argument.as_ref(), found),
        ExnBind::Copy(_, _) => Ok(()),
    }
}

fn in_exceptions(binds: &[ExnBind], found: &mut Found) -> Result<(), Memory>
    ensures { OnOk result (ids_of found.new.keys ≡ with_all (ids_of found.old.keys) (exn_variables (map exn_bind_of binds.now))) }
{
    for bind in binds {
        in_exception(bind, found)?;
    }
    Ok(())
}

#[cycle(unguarded_pats)]
fn in_pat(pat: &Pat, found: &mut Found) -> Result<(), Memory>
    ensures { OnOk result (ids_of found.new.keys ≡ with_all (ids_of found.old.keys) (pat_variables (pat_of pat.now))) }
{
    match pat {
        Pat::Wildcard(_) | Pat::Constant(_, _) | Pat::Identifier(_, _) => Ok(()),
        Pat::Row(_, fields, _) => in_pat_fields(fields, found),
        Pat::Tuple(_, pats) => in_pats(pats, found),
        Pat::Bracket(_, pat) | Pat::Applied(_, _, pat) => in_pat(pat, found),
        Pat::Typed(_, pat, ty) => {
            in_pat(pat, found)?;
            in_ty(ty, found)
        }
        Pat::As(_, _, ty, pat) => {
            if let Some(ty) = ty {
                in_ty(ty, found)?;
            }
            in_pat(pat, found)
        }
    }
}

#[cycle(unguarded_pats)]
fn in_pats(pats: &[Pat], found: &mut Found) -> Result<(), Memory>
    ensures { OnOk result (ids_of found.new.keys ≡ with_all (ids_of found.old.keys) (pats_variables (pats_of (map pat_of pats.now)))) }
{
    for pat in pats {
        in_pat(pat, found)?;
    }
    Ok(())
}

#[cycle(unguarded_pats)]
fn in_pat_fields(fields: &[PatField], found: &mut Found) -> Result<(), Memory>
    ensures { OnOk result (ids_of found.new.keys ≡ with_all (ids_of found.old.keys) (pat_field_variables (pat_fields_of (map pat_field_of fields.now)))) }
{
    for field in fields {
        in_pat(&field.pat, found)?;
    }
    Ok(())
}

fn in_optional(ty: Option<&Ty>, found: &mut Found) -> Result<(), Memory>
    ensures { OnOk result (ids_of found.new.keys ≡ with_all (ids_of found.old.keys) (optional_variables (option_map (λ t. ty_of t.now) ty.entry))) }
{
    match ty {
        Some(ty) => in_ty(ty, found),
        None => Ok(()),
    }
}

fn in_variable(name: &Ident, found: &mut Found) -> Result<(), Memory>
    ensures { OnOk result (ids_of found.new.keys ≡ with_all (ids_of found.old.keys) (ident_of name.now ∷ [])) }
{
    found.insert(name.clone()?)?;
    Ok(())
}

#[cycle(unguarded_types)]
fn in_ty(ty: &Ty, found: &mut Found) -> Result<(), Memory>
    ensures { OnOk result (ids_of found.new.keys ≡ with_all (ids_of found.old.keys) (ty_variables (ty_of ty.now))) }
{
    match ty {
        Ty::Variable(_, name) => in_variable(name, found),
        Ty::Row(_, fields) => in_ty_fields(fields, found),
        Ty::Tuple(_, tys) | Ty::Constructor(_, tys, _) | Ty::Misapplied(_, tys, _) => {
            in_tys(tys, found)
        }
        Ty::Arrow(_, from, to) => {
            in_ty(from, found)?;
            in_ty(to, found)
        }
        Ty::Bracket(_, ty) => in_ty(ty, found),
    }
}

#[cycle(unguarded_types)]
fn in_tys(tys: &[Ty], found: &mut Found) -> Result<(), Memory>
    ensures { OnOk result (ids_of found.new.keys ≡ with_all (ids_of found.old.keys) (tys_variables (tys_of (map ty_of tys.now)))) }
{
    for ty in tys {
        in_ty(ty, found)?;
    }
    Ok(())
}

#[cycle(unguarded_types)]
fn in_ty_fields(fields: &[TyField], found: &mut Found) -> Result<(), Memory>
    ensures { OnOk result (ids_of found.new.keys ≡ with_all (ids_of found.old.keys) (ty_field_variables (ty_fields_of (map ty_field_of fields.now)))) }
{
    for field in fields {
        in_ty(&field.ty, found)?;
    }
    Ok(())
}

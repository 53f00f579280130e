//! Heights of the trees of the whole language. Counts stop at the greatest number of their type.
ghost use Rattle.std.specs.Prelude.{◌≡◌, map};
ghost use Rattle.std.specs.Option.{option_map};
ghost use Rattle.sml_tree.specs.Height.{counted};
ghost use Rattle.sml_tree.specs.Heights.{highest, height_if_any, ty_height, tys_height, ty_fields_height, pat_height, pats_height, pat_fields_height, typ_bind_height, con_bind_height, dat_bind_height, exn_bind_height, exp_height, exps_height, fields_height, rules_height, dec_height, decs_height, binds_height, val_desc_height, sig_height, spec_height, specs_height, str_descs_height, str_height, str_dec_height, str_decs_height, str_binds_height, sig_bind_height, fun_bind_height, top_height};
ghost use Rattle.sml_tree.specs.TypeViews.{ty_of, tys_of, ty_field_of, ty_fields_of};
ghost use Rattle.sml_tree.specs.PatternViews.{pat_of, pats_of, pat_field_of, pat_fields_of};
ghost use Rattle.sml_tree.specs.BindingViews.{typ_bind_of, con_bind_of, dat_bind_of};
ghost use Rattle.sml_tree.specs.ExpressionViews.{exn_bind_of, exp_of, exps_of, field_of, fields_of, rule_of, rules_of, dec_of, decs_of, bind_of, binds_of};
ghost use Rattle.sml_tree.specs.SignatureViews.{sig_of, spec_of, specs_of, str_desc_of, str_descs_of, val_desc_of};
ghost use Rattle.sml_tree.specs.StructureViews.{str_of, str_dec_of, str_decs_of, str_bind_of, str_binds_of, sig_bind_of, fun_bind_of, top_of};

use crate::expressions::{ConBind, DatBind, Dec, ExnBind, Exp, ExpField, Rule, TypBind, ValBind};
use crate::patterns::{Pat, PatField};
use crate::signatures::{SigExp, Spec, StrDesc, ValDesc};
use crate::structures::{FunBind, SigBind, StrBind, StrDec, StrExp, TopDec};
use crate::types::{Ty, TyField};

#[cycle(ty_heights)]
pub fn height_of_ty(ty: &Ty) -> u32
    ensures { result ≡ counted (ty_height (ty_of ty.now)) }
{
    match ty {
        Ty::Variable(_, _) => 1,
        Ty::Row(_, fields) => height_of_ty_fields(fields).saturating_add(1),
        Ty::Tuple(_, tys) => height_of_tys(tys).saturating_add(1),
        Ty::Constructor(_, tys, _) => height_of_tys(tys).saturating_add(1),
        Ty::Misapplied(_, tys, _) => height_of_tys(tys).saturating_add(1),
        Ty::Arrow(_, from, to) => height_of_ty(from).max(height_of_ty(to)).saturating_add(1),
        Ty::Bracket(_, ty) => height_of_ty(ty).saturating_add(1),
    }
}

#[cycle(ty_heights)]
fn height_of_tys(tys: &[Ty]) -> u32
    ensures { result ≡ counted (tys_height (tys_of (map ty_of tys.now))) }
{
    let mut most = 0;
    for ty in tys {
        most = height_of_ty(ty).max(most);
    }
    most
}

#[cycle(ty_heights)]
fn height_of_ty_fields(fields: &[TyField]) -> u32
    ensures { result ≡ counted (ty_fields_height (ty_fields_of (map ty_field_of fields.now))) }
{
    let mut most = 0;
    for field in fields {
        most = height_of_ty(&field.ty).max(most);
    }
    most
}

fn height_if_any(ty: &Option<Box<Ty>>) -> u32
    ensures { result ≡ counted (height_if_any ty_height (option_map (λ t. ty_of t.value) ty.now)) }
{
    match ty {
        None => 0,
        Some(ty) => height_of_ty(ty),
    }
}

#[cycle(pat_heights)]
fn height_of_pat(pat: &Pat) -> u32
    ensures { result ≡ counted (pat_height (pat_of pat.now)) }
{
    match pat {
        Pat::Wildcard(_) | Pat::Constant(_, _) | Pat::Identifier(_, _) => 1,
        Pat::Row(_, fields, _) => height_of_pat_fields(fields).saturating_add(1),
        Pat::Tuple(_, pats) => height_of_pats(pats).saturating_add(1),
        Pat::Bracket(_, pat) => height_of_pat(pat).saturating_add(1),
        Pat::Applied(_, _, pat) => height_of_pat(pat).saturating_add(1),
        Pat::Typed(_, pat, ty) => height_of_pat(pat).max(height_of_ty(ty)).saturating_add(1),
        Pat::As(_, _, ty, pat) => height_if_any(ty).max(height_of_pat(pat)).saturating_add(1),
    }
}

#[cycle(pat_heights)]
fn height_of_pats(pats: &[Pat]) -> u32
    ensures { result ≡ counted (pats_height (pats_of (map pat_of pats.now))) }
{
    let mut most = 0;
    for pat in pats {
        most = height_of_pat(pat).max(most);
    }
    most
}

#[cycle(pat_heights)]
fn height_of_pat_fields(fields: &[PatField]) -> u32
    ensures { result ≡ counted (pat_fields_height (pat_fields_of (map pat_field_of fields.now))) }
{
    let mut most = 0;
    for field in fields {
        most = height_of_pat(&field.pat).max(most);
    }
    most
}

fn height_of_typ_binds(binds: &[TypBind]) -> u32
    ensures { result ≡ counted (highest typ_bind_height (map typ_bind_of binds.now)) }
{
    let mut most = 0;
    for bind in binds {
        most = height_of_ty(&bind.ty).max(most);
    }
    most
}

fn height_of_con_bind(bind: &ConBind) -> u32
    ensures { result ≡ counted (con_bind_height (con_bind_of bind.now)) }
{
    match &bind.argument {
        None => 0,
        Some(ty) => height_of_ty(ty),
    }
}

fn height_of_con_binds(binds: &[ConBind]) -> u32
    ensures { result ≡ counted (highest con_bind_height (map con_bind_of binds.now)) }
{
    let mut most = 0;
    for bind in binds {
        most = height_of_con_bind(bind).max(most);
    }
    most
}

fn height_of_dat_binds(binds: &[DatBind]) -> u32
    ensures { result ≡ counted (highest dat_bind_height (map dat_bind_of binds.now)) }
{
    let mut most = 0;
    for bind in binds {
        most = height_of_con_binds(&bind.constructors).max(most);
    }
    most
}

fn height_of_exn_bind(bind: &ExnBind) -> u32
    ensures { result ≡ counted (exn_bind_height (exn_bind_of bind.now)) }
{
    match bind {
        ExnBind::New(bind) => height_of_con_bind(bind),
        ExnBind::Copy(_, _) => 0,
    }
}

fn height_of_exn_binds(binds: &[ExnBind]) -> u32
    ensures { result ≡ counted (highest exn_bind_height (map exn_bind_of binds.now)) }
{
    let mut most = 0;
    for bind in binds {
        most = height_of_exn_bind(bind).max(most);
    }
    most
}

#[cycle(exp_heights)]
fn height_of_exp(exp: &Exp) -> u32
    ensures { result ≡ counted (exp_height (exp_of exp.now)) }
{
    match exp {
        Exp::Constant(_, _) | Exp::Identifier(_, _) => 1,
        Exp::Row(_, fields) => height_of_fields(fields).saturating_add(1),
        Exp::Tuple(_, exps) => height_of_exps(exps).saturating_add(1),
        Exp::Let(_, decs, exp) => height_of_decs(decs)
            .max(height_of_exp(exp))
            .saturating_add(1),
        Exp::Bracket(_, exp) => height_of_exp(exp).saturating_add(1),
        Exp::Application(_, function, argument) => height_of_exp(function)
            .max(height_of_exp(argument))
            .saturating_add(1),
        Exp::Typed(_, exp, ty) => height_of_exp(exp).max(height_of_ty(ty)).saturating_add(1),
        Exp::Handle(_, exp, rules) => height_of_exp(exp)
            .max(height_of_rules(rules))
            .saturating_add(1),
        Exp::Raise(_, exp) => height_of_exp(exp).saturating_add(1),
        Exp::Function(_, rules) => height_of_rules(rules).saturating_add(1),
    }
}

#[cycle(exp_heights)]
fn height_of_exps(exps: &[Exp]) -> u32
    ensures { result ≡ counted (exps_height (exps_of (map exp_of exps.now))) }
{
    let mut most = 0;
    for exp in exps {
        most = height_of_exp(exp).max(most);
    }
    most
}

#[cycle(exp_heights)]
fn height_of_fields(fields: &[ExpField]) -> u32
    ensures { result ≡ counted (fields_height (fields_of (map field_of fields.now))) }
{
    let mut most = 0;
    for field in fields {
        most = height_of_exp(&field.exp).max(most);
    }
    most
}

#[cycle(exp_heights)]
fn height_of_rules(rules: &[Rule]) -> u32
    ensures { result ≡ counted (rules_height (rules_of (map rule_of rules.now))) }
{
    let mut most = 0;
    for rule in rules {
        most = height_of_pat(&rule.pat)
            .max(height_of_exp(&rule.exp))
            .max(most);
    }
    most
}

#[cycle(exp_heights)]
fn height_of_dec(dec: &Dec) -> u32
    ensures { result ≡ counted (dec_height (dec_of dec.now)) }
{
    match dec {
        Dec::Value(_, _, binds, recursive) => height_of_binds(binds)
            .max(height_of_binds(recursive))
            .saturating_add(1),
        Dec::Type(_, binds) => height_of_typ_binds(binds).saturating_add(1),
        Dec::Datatype(_, binds) => height_of_dat_binds(binds).saturating_add(1),
        Dec::DatatypeWith(_, with) => with
            .height
            .max(height_of_typ_binds(&with.types))
            .saturating_add(1),
        Dec::Sequence(_, decs) => height_of_decs(decs),
        Dec::Replication(_, _, _) | Dec::Open(_, _) | Dec::Fixity(_) => 1,
        Dec::Exception(_, binds) => height_of_exn_binds(binds).saturating_add(1),
        Dec::Local(_, hidden, decs) => height_of_decs(hidden)
            .max(height_of_decs(decs))
            .saturating_add(1),
    }
}

#[cycle(exp_heights)]
fn height_of_decs(decs: &[Dec]) -> u32
    ensures { result ≡ counted (decs_height (decs_of (map dec_of decs.now))) }
{
    let mut most = 0;
    for dec in decs {
        most = height_of_dec(dec).max(most);
    }
    most
}

#[cycle(exp_heights)]
fn height_of_binds(binds: &[ValBind]) -> u32
    ensures { result ≡ counted (binds_height (binds_of (map bind_of binds.now))) }
{
    let mut most = 0;
    for bind in binds {
        most = height_of_pat(&bind.pat)
            .max(height_of_exp(&bind.exp))
            .max(most);
    }
    most
}

fn height_of_val_descs(descs: &[ValDesc]) -> u32
    ensures { result ≡ counted (highest val_desc_height (map val_desc_of descs.now)) }
{
    let mut most = 0;
    for desc in descs {
        most = height_of_ty(&desc.ty).max(most);
    }
    most
}

#[cycle(sig_heights)]
fn height_of_sig(signature: &SigExp) -> u32
    ensures { result ≡ counted (sig_height (sig_of signature.now)) }
{
    match signature {
        SigExp::Specs(_, specs) => height_of_specs(specs).saturating_add(1),
        SigExp::Identifier(_, _) => 1,
        SigExp::WhereType(_, signature, equation) => height_of_sig(signature)
            .max(height_of_ty(&equation.ty))
            .saturating_add(1),
    }
}

#[cycle(sig_heights)]
fn height_of_spec(spec: &Spec) -> u32
    ensures { result ≡ counted (spec_height (spec_of spec.now)) }
{
    match spec {
        Spec::Value(_, descs) => height_of_val_descs(descs).saturating_add(1),
        Spec::Type(_, _) | Spec::Eqtype(_, _) | Spec::Replication(_, _, _) => 1,
        Spec::Datatype(_, binds) => height_of_dat_binds(binds).saturating_add(1),
        Spec::Exception(_, binds) => height_of_con_binds(binds).saturating_add(1),
        Spec::Structure(_, descs) => height_of_str_descs(descs).saturating_add(1),
        Spec::Include(_, signature) => height_of_sig(signature).saturating_add(1),
        Spec::SharingType(_, _) | Spec::Sharing(_, _) => 1,
    }
}

#[cycle(sig_heights)]
fn height_of_specs(specs: &[Spec]) -> u32
    ensures { result ≡ counted (specs_height (specs_of (map spec_of specs.now))) }
{
    let mut most = 0;
    for spec in specs {
        most = height_of_spec(spec).max(most);
    }
    most
}

#[cycle(sig_heights)]
fn height_of_str_descs(descs: &[StrDesc]) -> u32
    ensures { result ≡ counted (str_descs_height (str_descs_of (map str_desc_of descs.now))) }
{
    let mut most = 0;
    for desc in descs {
        most = height_of_sig(&desc.signature).max(most);
    }
    most
}

#[cycle(str_heights)]
fn height_of_str(structure: &StrExp) -> u32
    ensures { result ≡ counted (str_height (str_of structure.now)) }
{
    match structure {
        StrExp::Decs(_, decs) => height_of_str_decs(decs).saturating_add(1),
        StrExp::Identifier(_) => 1,
        StrExp::Ascribed(_, structure, _, signature) => height_of_str(structure)
            .max(height_of_sig(signature))
            .saturating_add(1),
        StrExp::Application(_, argument) => height_of_str(argument).saturating_add(1),
        StrExp::Let(_, decs, structure) => height_of_str_decs(decs)
            .max(height_of_str(structure))
            .saturating_add(1),
    }
}

#[cycle(str_heights)]
fn height_of_str_dec(dec: &StrDec) -> u32
    ensures { result ≡ counted (str_dec_height (str_dec_of dec.now)) }
{
    match dec {
        StrDec::Core(dec) => height_of_dec(dec),
        StrDec::Structure(_, binds) => height_of_str_binds(binds).saturating_add(1),
        StrDec::Local(_, hidden, decs) => height_of_str_decs(hidden)
            .max(height_of_str_decs(decs))
            .saturating_add(1),
    }
}

#[cycle(str_heights)]
fn height_of_str_decs(decs: &[StrDec]) -> u32
    ensures { result ≡ counted (str_decs_height (str_decs_of (map str_dec_of decs.now))) }
{
    let mut most = 0;
    for dec in decs {
        most = height_of_str_dec(dec).max(most);
    }
    most
}

#[cycle(str_heights)]
fn height_of_str_binds(binds: &[StrBind]) -> u32
    ensures { result ≡ counted (str_binds_height (str_binds_of (map str_bind_of binds.now))) }
{
    let mut most = 0;
    for bind in binds {
        most = height_of_str(&bind.body).max(most);
    }
    most
}

fn height_of_sig_binds(binds: &[SigBind]) -> u32
    ensures { result ≡ counted (highest sig_bind_height (map sig_bind_of binds.now)) }
{
    let mut most = 0;
    for bind in binds {
        most = height_of_sig(&bind.signature).max(most);
    }
    most
}

fn height_of_fun_binds(binds: &[FunBind]) -> u32
    ensures { result ≡ counted (highest fun_bind_height (map fun_bind_of binds.now)) }
{
    let mut most = 0;
    for bind in binds {
        most = height_of_sig(&bind.signature)
            .max(height_of_str(&bind.body))
            .max(most);
    }
    most
}

/// The height of a declaration's tree. It counts up to the greatest number of its type.
pub fn height_of_top(dec: &TopDec) -> u32
    ensures { result ≡ counted (top_height (top_of dec.now)) }
{
    match dec {
        TopDec::Structure(dec) => height_of_str_dec(dec),
        TopDec::Signature(_, binds) => height_of_sig_binds(binds).saturating_add(1),
        TopDec::Functor(_, binds) => height_of_fun_binds(binds).saturating_add(1),
    }
}

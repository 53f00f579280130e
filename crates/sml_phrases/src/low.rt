//! Trees no higher than the limit, each with its height. Lists go from their last element to their first.

ghost use Rattle.std.specs.Prelude.{◌≡◌, ◌≤◌, map, reverse};
ghost use Rattle.sml_tree.specs.Heights.{highest, ty_height, tys_height, ty_fields_height, pat_height, pats_height, pat_fields_height, typ_bind_height, con_bind_height, dat_bind_height, exn_bind_height, exp_height, exps_height, fields_height, rules_height, dec_height, decs_height, bind_height, binds_height, val_desc_height, sig_height, specs_height, str_descs_height, str_height, str_dec_height, str_decs_height, str_binds_height, sig_bind_height, fun_bind_height, top_height};
ghost use Rattle.sml_tree.specs.TypeViews.{ty_of, tys_of, ty_field_of, ty_fields_of};
ghost use Rattle.sml_tree.specs.PatternViews.{pat_of, pats_of, pat_field_of, pat_fields_of};
ghost use Rattle.sml_tree.specs.BindingViews.{typ_bind_of, con_bind_of, dat_bind_of};
ghost use Rattle.sml_tree.specs.ExpressionViews.{exn_bind_of, exp_of, exps_of, field_of, fields_of, rule_of, rules_of, dec_of, decs_of, bind_of, binds_of};
ghost use Rattle.sml_tree.specs.SignatureViews.{val_desc_of, sig_of, spec_of, specs_of, str_desc_of, str_descs_of};
ghost use Rattle.sml_tree.specs.StructureViews.{str_of, str_dec_of, str_decs_of, str_bind_of, str_binds_of, sig_bind_of, fun_bind_of, top_of};
ghost use Rattle.sml_tree.specs.Clauses.{clause_of};
ghost use Rattle.sml_phrases.specs.PhraseHeights.{clauses_height};

use sml_tree::bare::LongIdent;
use sml_tree::clauses::Clause;
use sml_tree::expressions::{
    ConBind, DatBind, Dec, ExnBind, Exp, ExpField, Rule, TypBind, ValBind,
};
use sml_tree::names::Name;
use sml_tree::patterns::{Pat, PatField};
use sml_tree::signatures::{SigExp, Spec, StrDesc, ValDesc};
use sml_tree::structures::{Ascription, FunBind, SigBind, StrBind, StrDec, StrExp, TopDec};
use sml_tree::types::{Ty, TyField};

/// The greatest height of a tree.
pub const LIMIT: u32 = 4000;

/// A type expression.
#[derive(Drop)]
pub struct LowTy {
    pub tree: Ty,
    pub height: u32,
    ghost measured: { ty_height (ty_of tree) ≡ height },
    ghost low: { height ≤ 4000 },
}

/// Type expressions, each with its own height too.
#[derive(Drop)]
pub struct LowTys {
    pub trees: Vec<LowTy>,
    pub height: u32,
    ghost measured: { tys_height (tys_of (map (λ t. ty_of t.tree) (reverse trees.items))) ≡ height },
    ghost low: { height ≤ 4000 },
}

/// Fields of a record type.
#[derive(Drop)]
pub struct LowTyFields {
    pub trees: Vec<TyField>,
    pub height: u32,
    ghost measured: { ty_fields_height (ty_fields_of (map ty_field_of (reverse trees.items))) ≡ height },
    ghost low: { height ≤ 4000 },
}

/// A pattern.
#[derive(Drop)]
pub struct LowPat {
    pub tree: Pat,
    pub height: u32,
    ghost measured: { pat_height (pat_of tree) ≡ height },
    ghost low: { height ≤ 4000 },
}

/// Patterns, each with its own height too.
#[derive(Drop)]
pub struct LowPats {
    pub trees: Vec<LowPat>,
    pub height: u32,
    ghost measured: { pats_height (pats_of (map (λ q. pat_of q.tree) (reverse trees.items))) ≡ height },
    ghost low: { height ≤ 4000 },
}

/// Fields of a record pattern.
#[derive(Drop)]
pub struct LowPatFields {
    pub trees: Vec<PatField>,
    pub height: u32,
    ghost measured: { pat_fields_height (pat_fields_of (map pat_field_of (reverse trees.items))) ≡ height },
    ghost low: { height ≤ 4000 },
}

/// An expression.
#[derive(Drop)]
pub struct LowExp {
    pub tree: Exp,
    pub height: u32,
    ghost measured: { exp_height (exp_of tree) ≡ height },
    ghost low: { height ≤ 4000 },
}

/// Expressions, each with its own height too.
#[derive(Drop)]
pub struct LowExps {
    pub trees: Vec<LowExp>,
    pub height: u32,
    ghost measured: { exps_height (exps_of (map (λ e. exp_of e.tree) (reverse trees.items))) ≡ height },
    ghost low: { height ≤ 4000 },
}

/// Fields of a record.
#[derive(Drop)]
pub struct LowFields {
    pub trees: Vec<ExpField>,
    pub height: u32,
    ghost measured: { fields_height (fields_of (map field_of (reverse trees.items))) ≡ height },
    ghost low: { height ≤ 4000 },
}

/// Rules of a match.
#[derive(Drop)]
pub struct LowRules {
    pub trees: Vec<Rule>,
    pub height: u32,
    ghost measured: { rules_height (rules_of (map rule_of (reverse trees.items))) ≡ height },
    ghost low: { height ≤ 4000 },
}

/// A declaration of the core.
#[derive(Drop)]
pub struct LowDec {
    pub tree: Dec,
    pub height: u32,
    ghost measured: { dec_height (dec_of tree) ≡ height },
    ghost low: { height ≤ 4000 },
}

/// Declarations of the core.
#[derive(Drop)]
pub struct LowDecs {
    pub trees: Vec<Dec>,
    pub height: u32,
    ghost measured: { decs_height (decs_of (map dec_of (reverse trees.items))) ≡ height },
    ghost low: { height ≤ 4000 },
}

/// A value binding.
#[derive(Drop)]
pub struct LowBind {
    pub tree: ValBind,
    pub height: u32,
    ghost measured: { bind_height (bind_of tree) ≡ height },
    ghost low: { height ≤ 4000 },
}

/// Value bindings.
#[derive(Drop)]
pub struct LowBinds {
    pub trees: Vec<ValBind>,
    pub height: u32,
    ghost measured: { binds_height (binds_of (map bind_of (reverse trees.items))) ≡ height },
    ghost low: { height ≤ 4000 },
}

/// Type bindings.
#[derive(Drop)]
pub struct LowTypBinds {
    pub trees: Vec<TypBind>,
    pub height: u32,
    ghost measured: { highest typ_bind_height (map typ_bind_of (reverse trees.items)) ≡ height },
    ghost low: { height ≤ 4000 },
}

/// Constructors.
#[derive(Drop)]
pub struct LowConBinds {
    pub trees: Vec<ConBind>,
    pub height: u32,
    ghost measured: { highest con_bind_height (map con_bind_of (reverse trees.items)) ≡ height },
    ghost low: { height ≤ 4000 },
}

/// Datatype bindings.
#[derive(Drop)]
pub struct LowDatBinds {
    pub trees: Vec<DatBind>,
    pub height: u32,
    ghost measured: { highest dat_bind_height (map dat_bind_of (reverse trees.items)) ≡ height },
    ghost low: { height ≤ 4000 },
}

/// Exception bindings.
#[derive(Drop)]
pub struct LowExnBinds {
    pub trees: Vec<ExnBind>,
    pub height: u32,
    ghost measured: { highest exn_bind_height (map exn_bind_of (reverse trees.items)) ≡ height },
    ghost low: { height ≤ 4000 },
}

/// Clauses of a function.
#[derive(Drop)]
pub struct LowClauses {
    pub trees: Vec<Clause>,
    pub height: u32,
    ghost measured: { clauses_height (map clause_of (reverse trees.items)) ≡ height },
    ghost low: { height ≤ 4000 },
}

/// A signature expression.
#[derive(Drop)]
pub struct LowSig {
    pub tree: SigExp,
    pub height: u32,
    ghost measured: { sig_height (sig_of tree) ≡ height },
    ghost low: { height ≤ 4000 },
}

/// What stands after `where type`.
#[derive(Drop)]
pub struct LowWhere {
    pub variables: Vec<Name>,
    pub constructor: LongIdent,
    pub ty: LowTy,
}

/// Specifications.
#[derive(Drop)]
pub struct LowSpecs {
    pub trees: Vec<Spec>,
    pub height: u32,
    ghost measured: { specs_height (specs_of (map spec_of (reverse trees.items))) ≡ height },
    ghost low: { height ≤ 4000 },
}

/// Value descriptions.
#[derive(Drop)]
pub struct LowValDescs {
    pub trees: Vec<ValDesc>,
    pub height: u32,
    ghost measured: { highest val_desc_height (map val_desc_of (reverse trees.items)) ≡ height },
    ghost low: { height ≤ 4000 },
}

/// Structure descriptions.
#[derive(Drop)]
pub struct LowStrDescs {
    pub trees: Vec<StrDesc>,
    pub height: u32,
    ghost measured: { str_descs_height (str_descs_of (map str_desc_of (reverse trees.items))) ≡ height },
    ghost low: { height ≤ 4000 },
}

/// Signature bindings.
#[derive(Drop)]
pub struct LowSigBinds {
    pub trees: Vec<SigBind>,
    pub height: u32,
    ghost measured: { highest sig_bind_height (map sig_bind_of (reverse trees.items)) ≡ height },
    ghost low: { height ≤ 4000 },
}

/// A structure expression.
#[derive(Drop)]
pub struct LowStr {
    pub tree: StrExp,
    pub height: u32,
    ghost measured: { str_height (str_of tree) ≡ height },
    ghost low: { height ≤ 4000 },
}

/// A structure-level declaration.
#[derive(Drop)]
pub struct LowStrDec {
    pub tree: StrDec,
    pub height: u32,
    ghost measured: { str_dec_height (str_dec_of tree) ≡ height },
    ghost low: { height ≤ 4000 },
}

/// Structure-level declarations.
#[derive(Drop)]
pub struct LowStrDecs {
    pub trees: Vec<StrDec>,
    pub height: u32,
    ghost measured: { str_decs_height (str_decs_of (map str_dec_of (reverse trees.items))) ≡ height },
    ghost low: { height ≤ 4000 },
}

/// A signature expression after `:` or `:>`.
#[derive(Drop)]
pub struct LowConstraint {
    pub ascription: Ascription,
    pub signature: LowSig,
}

/// Structure bindings.
#[derive(Drop)]
pub struct LowStrBinds {
    pub trees: Vec<StrBind>,
    pub height: u32,
    ghost measured: { str_binds_height (str_binds_of (map str_bind_of (reverse trees.items))) ≡ height },
    ghost low: { height ≤ 4000 },
}

/// Functor bindings.
#[derive(Drop)]
pub struct LowFunBinds {
    pub trees: Vec<FunBind>,
    pub height: u32,
    ghost measured: { highest fun_bind_height (map fun_bind_of (reverse trees.items)) ≡ height },
    ghost low: { height ≤ 4000 },
}

/// A top-level declaration.
#[derive(Drop)]
pub struct LowTop {
    pub tree: TopDec,
    pub height: u32,
    ghost measured: { top_height (top_of tree) ≡ height },
    ghost low: { height ≤ 4000 },
}

//! Heights of bare trees.
ghost use Rattle.std.specs.Prelude.{◌≡◌, map};
ghost use Rattle.sml_tree.specs.Views.{exp_of, exps_of, ty_of, tys_of, spec_of, core_dec_of, dec_of};
ghost use Rattle.sml_tree.specs.Height.{exp_height, exps_height, ty_height, tys_height, spec_height, specs_height, core_height, decs_height, dec_height, counted};

use crate::bare::{BareDec, CoreDec, CoreForm, Exp, Spec, SpecForm, Ty};

#[cycle(height)]
fn height_of_exp(exp: &Exp) -> u32
    ensures { result ≡ counted (exp_height (exp_of exp.now)) }
{
    match exp {
        Exp::Number | Exp::Identifier(_) => 1,
        Exp::Tuple(exps) => height_of_exps(exps).saturating_add(1),
        Exp::Brackets(exp, pairs) => height_of_exp(exp).saturating_add(*pairs),
        Exp::Function(_, exp) => height_of_exp(exp).saturating_add(1),
    }
}

#[cycle(height)]
fn height_of_exps(exps: &[Exp]) -> u32
    ensures { result ≡ counted (exps_height (exps_of (map exp_of exps.now))) }
{
    let mut most = 0;
    for exp in exps {
        most = height_of_exp(exp).max(most);
    }
    most
}

#[cycle(height_ty)]
fn height_of_ty(ty: &Ty) -> u32
    ensures { result ≡ counted (ty_height (ty_of ty.now)) }
{
    match ty {
        Ty::Constructor(_) => 1,
        Ty::Tuple(tys) => height_of_tys(tys).saturating_add(1),
        Ty::Arrow(left, right) => height_of_ty(left)
            .max(height_of_ty(right))
            .saturating_add(1),
        Ty::Bracket(ty) => height_of_ty(ty).saturating_add(1),
    }
}

#[cycle(height_ty)]
fn height_of_tys(tys: &[Ty]) -> u32
    ensures { result ≡ counted (tys_height (tys_of (map ty_of tys.now))) }
{
    let mut most = 0;
    for ty in tys {
        most = height_of_ty(ty).max(most);
    }
    most
}

fn height_of_spec(spec: &Spec) -> u32
    ensures { result ≡ counted (spec_height (spec_of spec.now)) }
{
    match &spec.form {
        SpecForm::Type(_) => 1,
        SpecForm::Value(_, ty) => height_of_ty(ty).saturating_add(1),
    }
}

fn height_of_specs(specs: &[Spec]) -> u32
    ensures { result ≡ counted (specs_height (map spec_of specs.now)) }
{
    let mut most = 0;
    for spec in specs {
        most = height_of_spec(spec).max(most);
    }
    most
}

fn height_of_core(core: &CoreDec) -> u32
    ensures { result ≡ counted (core_height (core_dec_of core.now)) }
{
    match &core.form {
        CoreForm::Value(_, exp) => height_of_exp(exp).saturating_add(1),
        CoreForm::Type(_, ty) => height_of_ty(ty).saturating_add(1),
    }
}

fn height_of_cores(cores: &[CoreDec]) -> u32
    ensures { result ≡ counted (decs_height (map core_dec_of cores.now)) }
{
    let mut most = 0;
    for core in cores {
        most = height_of_core(core).max(most);
    }
    most
}

/// The height of a declaration's tree. It counts up to the greatest number of its type.
pub fn height(dec: &BareDec) -> u32
    ensures { result ≡ counted (dec_height (dec_of dec.now)) }
{
    match dec {
        BareDec::Core(core) => height_of_core(core),
        BareDec::Structure(structure) => {
            let specs = height_of_specs(&structure.signature.specs);
            let body = height_of_cores(&structure.body);
            specs.max(body).saturating_add(3)
        }
        BareDec::Other(_) => 1,
    }
}

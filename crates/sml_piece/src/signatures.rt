//! Signature expressions (the Definition, section 5.7, rules 62, 68, 69 and 77).

ghost use Rattle.std.specs.Prelude.{◌≡◌, ◌+◌, ℕ, OnOk, IfOk, List, [], map, length, false};
ghost use Rattle.sml_tree.specs.Trees.{type_spec, val_spec};
ghost use Rattle.sml_tree.specs.Views.{ident_of, ty_of, spec_of};
ghost use Rattle.sml_objects.specs.Objects as O;
ghost use Rattle.sml_objects.specs.Objects.{names_basis, names_sig};
ghost use Rattle.sml_objects.specs.Initial.{Name, made, naming};
ghost use Rattle.sml_objects.specs.Views.{env_of, maker_of, name_of};
ghost use Rattle.sml_rules.specs.Every.{Every};
ghost use Rattle.sml_rules.specs.Rules.{Item, both};
ghost use Rattle.sml_rules.specs.Readings.{read_specs};
ghost use Rattle.sml_piece.specs.Elaborated.{Answers, Shows, NameEnv, no_local, IsBelow, Tells, IsMade, specified_of, signature_of, IsNumbered, read_new, summed, no_signature};

use crate::expressions::{Component, small, type_component, value_component};
use crate::lookups::Context;
use crate::top_fault::{TopFault, plain_fault};
use crate::types::{boxed, type_of};
use sml_lex::fault::{Code, Memory, Place};
use sml_objects::objects::{Basis, Env, MadeName, MlType, Scheme, Sig, TyName};
use sml_tree::bare::{Ident, Spec, SpecForm, Ty};
use std::alloc::Global;

/// What a specification specifies, with the name that it binds.
#[derive(Drop)]
struct Specified {
    name: Option<TyName>,
    component: Component,
}

/// The signature of the specifications, each of which sees the basis and those before it. Its names are numbered from the
/// basis' count on, in the order in which they are specified.
pub(crate) fn signature(alloc: Global, basis: &Basis, specs: &[Spec]) -> Result<Sig, TopFault>
    ensures answer { (B : O.Basis Name) → B.body ≡ env_of basis.now.env → Every (IsBelow (maker_of basis.now.unit) (length basis.now.names.items)) (names_basis B)
        → Answers signature_of result (summed no_signature (read_specs naming (maker_of basis.now.unit) B [] (map spec_of specs.now))) }
    ensures names { (B : O.Basis Name) → B.body ≡ env_of basis.now.env → Every (IsBelow (maker_of basis.now.unit) (length basis.now.names.items)) (names_basis B)
        → IfOk result (λ s. Every (IsBelow (maker_of basis.now.unit) (length basis.now.names.items + length s.names.items)) (names_sig (signature_of s))) }
{
    let mut sig = Sig {
        names: Vec::new(alloc),
        body: Env::new(alloc),
    };
    for spec in specs {
        let specified = match specify(alloc, basis, &sig, spec) {
            Ok(specified) => specified,
            Err(fault) => return Err(fault),
        };
        match add(&mut sig, specified) {
            Ok(_) => {}
            Err(_) => return Err(TopFault::Memory),
        }
    }
    Ok(sig)
}

/// The signature with what one more specification specifies.
fn add(sig: &mut Sig, specified: Specified) -> Result<(), Memory>
    ensures { OnOk result (signature_of sig.new ≡ both (signature_of sig.old) (specified_of specified)) }
{
    if let Some(name) = specified.name {
        match sig.names.push(name) {
            Ok(_) => {}
            Err(_) => return Err(Memory),
        }
    }
    specified.component.put_into(&mut sig.body)
}

/// What one more specification specifies.
fn specify(alloc: Global, basis: &Basis, sig: &Sig, spec: &Spec) -> Result<Specified, TopFault>
    ensures answer { (B : O.Basis Name) (seen : List Item) → Shows no_local (env_of basis.now.env) (env_of sig.now.body) B.body
        → Every (IsBelow (maker_of basis.now.unit) (length basis.now.names.items + length sig.now.names.items)) (names_basis B) → Tells seen (env_of sig.now.body)
        → Answers specified_of result (read_new (maker_of basis.now.unit) B seen (spec_of spec.now)) }
    ensures names { (B : O.Basis Name) → Shows no_local (env_of basis.now.env) (env_of sig.now.body) B.body
        → Every (IsBelow (maker_of basis.now.unit) (length basis.now.names.items + length sig.now.names.items)) (names_basis B)
        → IfOk result (IsNumbered (maker_of basis.now.unit) (length basis.now.names.items + length sig.now.names.items)) }
{
    match &spec.form {
        SpecForm::Type(name) => specify_type(alloc, basis, sig, spec.place, name),
        SpecForm::Value(name, ty) => specify_value(alloc, basis, sig, spec.place, name, ty),
    }
}

fn specify_type(
    alloc: Global,
    basis: &Basis,
    sig: &Sig,
    place: Place,
    name: &Ident,
) -> Result<Specified, TopFault>
    ensures answer { (B : O.Basis Name) (seen : List Item) → Every (IsBelow (maker_of basis.now.unit) (length basis.now.names.items + length sig.now.names.items)) (names_basis B)
        → Tells seen (env_of sig.now.body)
        → Answers specified_of result (read_new (maker_of basis.now.unit) B seen (type_spec place (ident_of name.now))) }
    ensures names { IfOk result (IsNumbered (maker_of basis.now.unit) (length basis.now.names.items + length sig.now.names.items)) }
{
    if sig.body.type_function(name).is_some() {
        return Err(plain_fault(Code::N2, place));
    }
    let Ok(made) = new_name(basis, sig) else {
        return Err(TopFault::Memory);
    };
    let ty = match boxed(alloc, MlType::Name(made, Vec::new(alloc))) {
        Ok(ty) => ty,
        Err(fault) => return Err(fault),
    };
    match type_component(alloc, name, ty) {
        Ok(component) => Ok(Specified {
            name: Some(made),
            component,
        }),
        Err(fault) => Err(fault),
    }
}

fn specify_value(
    alloc: Global,
    basis: &Basis,
    sig: &Sig,
    place: Place,
    name: &Ident,
    ty: &Ty,
) -> Result<Specified, TopFault>
    ensures answer { (B : O.Basis Name) (seen : List Item) → Shows no_local (env_of basis.now.env) (env_of sig.now.body) B.body → Tells seen (env_of sig.now.body)
        → Answers specified_of result (read_new (maker_of basis.now.unit) B seen (val_spec place (ident_of name.now) (ty_of ty.now))) }
    ensures names { (B : O.Basis Name) → Shows no_local (env_of basis.now.env) (env_of sig.now.body) B.body
        → Every (IsBelow (maker_of basis.now.unit) (length basis.now.names.items + length sig.now.names.items)) (names_basis B)
        → IfOk result (IsNumbered (maker_of basis.now.unit) (length basis.now.names.items + length sig.now.names.items)) }
{
    let context = Context {
        outer: &basis.env,
        inner: &sig.body,
    };
    let ty = match type_of(alloc, &context, ty) {
        Ok(ty) => ty,
        Err(fault) => return Err(fault),
    };
    match small(&ty, place) {
        Ok(_) => {}
        Err(fault) => return Err(fault),
    }
    if sig.body.value(name).is_some() {
        return Err(plain_fault(Code::N2, place));
    }
    let scheme = Scheme {
        variables: Vec::new(alloc),
        body: ty,
    };
    match value_component(alloc, name, scheme) {
        Ok(component) => Ok(Specified {
            name: None,
            component,
        }),
        Err(fault) => Err(fault),
    }
}

/// A name of the basis' unit that neither the basis nor the signature has.
fn new_name(basis: &Basis, sig: &Sig) -> Result<TyName, Memory>
    ensures { IfOk result (λ n. name_of n ≡ made (maker_of basis.now.unit) (length basis.now.names.items + length sig.now.names.items) 0 false) }
{
    let Some(count) = basis.names.len().checked_add(sig.names.len()) else {
        return Err(Memory);
    };
    let Ok(number) = u32::try_from(count) else {
        return Err(Memory);
    };
    Ok(TyName::Made(MadeName {
        unit: basis.unit,
        number,
        arity: 0,
        equality: false,
    }))
}

//! Expressions and declarations of the core (the Definition, section 4.10).

ghost use Rattle.std.specs.Prelude.{◌≡◌, ◌≤◌, ◌+◌, ℕ, suc, OnOk, OnErr, map, length};
ghost use Rattle.sml_lex.specs.declared.fault.Code.TheVariants.{E7};
ghost use Rattle.sml_tree.specs.Trees.{Id, name, function, tuple, val_dec, type_dec};
ghost use Rattle.sml_tree.specs.Views.{ident_of, long_of, exp_of, exps_of, ty_of, core_dec_of};
ghost use Rattle.sml_objects.specs.Objects.{arrow_of, free, empty_env, extend_env, one_type, one_value, mono, named};
ghost use Rattle.sml_objects.specs.Names.{int};
ghost use Rattle.sml_objects.specs.Initial.{initial, naming};
ghost use Rattle.sml_objects.specs.Types as T;
ghost use Rattle.sml_objects.specs.Views.{env_of, scheme_of};
ghost use Rattle.sml_objects.specs.Views as V;
ghost use Rattle.sml_rules.specs.Answers.{test, fault};
ghost use Rattle.sml_rules.specs.Readings.{read_exp, read_exps, read_core, read_cores, typed, IsSmall};
ghost use Rattle.sml_piece.specs.Elaborated.{Answers, IsMade, Shows, NameEnv, typed_of, typed_list_of, component_of, numbers_in, no_local};

use crate::locals::Locals;
use crate::lookups::Context;
use crate::top_fault::{TopFault, plain_fault};
use crate::types::{arrow, boxed, row, type_of};
use sml_lex::fault::{Code, Memory, Place};
use sml_objects::objects::{Env, Initial, MlType, Scheme, TyName};
use sml_objects::schemes::{close, instantiate};
use sml_objects::sizes::size_up_to;
use sml_tree::bare::{CoreDec, CoreForm, Exp, Ident, LongIdent, Ty};
use std::alloc::Global;
use std::rc::Rc;

/// The greatest size of a scheme and of the body of a type function, in nodes.
pub(crate) const GREATEST_SIZE: u32 = 10_000;

/// A type, and how many unknowns have been made.
#[derive(Drop)]
pub(crate) struct Typed {
    pub ty: Rc<MlType>,
    pub made: u32,
}

/// Types, and how many unknowns have been made.
#[derive(Drop)]
struct TypedList {
    types: Vec<Rc<MlType>>,
    made: u32,
}

/// The type of an expression, where so many unknowns have been made.
#[cycle(typing)]
fn elaborate(
    alloc: Global,
    context: &Context,
    locals: &mut Locals,
    exp: &Exp,
    made: u32,
) -> Result<Typed, TopFault>
    ensures answer { (C : NameEnv) → Shows (numbers_in locals.old) (env_of context.now.outer.now) (env_of context.now.inner.now) C
        → Answers typed_of result (read_exp naming made C (exp_of exp.now)) }
    ensures locals { OnOk result ((x : Id) → numbers_in locals.new x ≡ numbers_in locals.old x) }
{
    match exp {
        Exp::Number => typed_number(alloc, made),
        Exp::Identifier(long) => typed_identifier(alloc, context, locals, long, made),
        Exp::Tuple(parts) => typed_tuple(alloc, context, locals, parts, made),
        Exp::Brackets(inner, _) => elaborate(alloc, context, locals, inner, made),
        Exp::Function(name, body) => typed_function(alloc, context, locals, name, body, made),
    }
}

#[inline(never)]
fn typed_number(alloc: Global, made: u32) -> Result<Typed, TopFault>
    ensures { IsMade (typed made (named (initial int))) typed_of result }
{
    let ty = boxed(
        alloc,
        MlType::Name(TyName::Initial(Initial::Int), Vec::new(alloc)),
    );
    match ty {
        Ok(ty) => Ok(Typed { ty, made }),
        Err(fault) => Err(fault),
    }
}

#[cycle(typing)]
#[inline(never)]
fn typed_function(
    alloc: Global,
    context: &Context,
    locals: &mut Locals,
    name: &Ident,
    body: &Exp,
    made: u32,
) -> Result<Typed, TopFault>
    ensures answer { (C : NameEnv) → Shows (numbers_in locals.old) (env_of context.now.outer.now) (env_of context.now.inner.now) C
        → Answers typed_of result (read_exp naming made C (function (ident_of name.now) (exp_of body.now))) }
    ensures locals { OnOk result ((x : Id) → numbers_in locals.new x ≡ numbers_in locals.old x) }
{
    let Some(next) = made.checked_add(1) else {
        return Err(TopFault::Memory);
    };
    let hidden = match locals.set(name, Some(made)) {
        Ok(hidden) => hidden,
        Err(_) => return Err(TopFault::Memory),
    };
    let body = match elaborate(alloc, context, locals, body, next) {
        Ok(body) => body,
        Err(fault) => return Err(fault),
    };
    match locals.set(name, hidden) {
        Ok(_) => arrow_from(alloc, made, body),
        Err(_) => Err(TopFault::Memory),
    }
}

/// The type of the functions from an unknown to the type.
#[inline(never)]
fn arrow_from(alloc: Global, number: u32, body: Typed) -> Result<Typed, TopFault>
    ensures { IsMade (typed body.made (arrow_of (free number) (V.type_of body.ty.value))) typed_of result }
{
    let variable = match boxed(alloc, MlType::Free(number)) {
        Ok(variable) => variable,
        Err(fault) => return Err(fault),
    };
    match arrow(alloc, variable, body.ty) {
        Ok(ty) => Ok(Typed {
            ty,
            made: body.made,
        }),
        Err(fault) => Err(fault),
    }
}

#[inline(never)]
fn typed_identifier(
    alloc: Global,
    context: &Context,
    locals: &Locals,
    long: &LongIdent,
    made: u32,
) -> Result<Typed, TopFault>
    ensures { (C : NameEnv) → Shows (numbers_in locals.now) (env_of context.now.outer.now) (env_of context.now.inner.now) C
        → Answers typed_of result (read_exp naming made C (name long.now.place (long_of long.now))) }
{
    if long.path.is_empty() {
        if let Some(number) = locals.number(&long.last) {
            return unknown(alloc, number, made);
        }
    }
    match context.value(alloc, long) {
        Ok(scheme) => instance(alloc, scheme, made),
        Err(fault) => Err(fault),
    }
}

fn unknown(alloc: Global, number: u32, made: u32) -> Result<Typed, TopFault>
    ensures { IsMade (typed made (free number)) typed_of result }
{
    match boxed(alloc, MlType::Free(number)) {
        Ok(ty) => Ok(Typed { ty, made }),
        Err(fault) => Err(fault),
    }
}

/// An instance of the scheme with new unknowns.
fn instance(alloc: Global, scheme: &Scheme, made: u32) -> Result<Typed, TopFault>
    ensures { IsMade (typed (made + length (scheme_of scheme.now).variables) (T.instance_from made (scheme_of scheme.now).body)) typed_of result }
{
    let Ok(count) = u32::try_from(scheme.variables.len()) else {
        return Err(TopFault::Memory);
    };
    let Some(next) = made.checked_add(count) else {
        return Err(TopFault::Memory);
    };
    match instantiate(alloc, scheme, made) {
        Ok(ty) => Ok(Typed { ty, made: next }),
        Err(_) => Err(TopFault::Memory),
    }
}

#[cycle(typing)]
#[inline(never)]
fn typed_tuple(
    alloc: Global,
    context: &Context,
    locals: &mut Locals,
    parts: &[Exp],
    made: u32,
) -> Result<Typed, TopFault>
    ensures answer { (C : NameEnv) → Shows (numbers_in locals.old) (env_of context.now.outer.now) (env_of context.now.inner.now) C
        → Answers typed_of result (read_exp naming made C (tuple (exps_of (map exp_of parts.now)))) }
    ensures locals { OnOk result ((x : Id) → numbers_in locals.new x ≡ numbers_in locals.old x) }
{
    let parts = match typed_parts(alloc, context, locals, parts, made) {
        Ok(parts) => parts,
        Err(fault) => return Err(fault),
    };
    match row(alloc, parts.types) {
        Ok(ty) => Ok(Typed {
            ty,
            made: parts.made,
        }),
        Err(fault) => Err(fault),
    }
}

#[cycle(typing)]
fn typed_parts(
    alloc: Global,
    context: &Context,
    locals: &mut Locals,
    parts: &[Exp],
    made: u32,
) -> Result<TypedList, TopFault>
    ensures answer { (C : NameEnv) → Shows (numbers_in locals.old) (env_of context.now.outer.now) (env_of context.now.inner.now) C
        → Answers typed_list_of result (read_exps naming made C (exps_of (map exp_of parts.now))) }
    ensures locals { OnOk result ((x : Id) → numbers_in locals.new x ≡ numbers_in locals.old x) }
{
    let mut types = Vec::new(alloc);
    let mut count = made;
    for part in parts {
        match elaborate(alloc, context, locals, part, count) {
            Ok(part) => {
                count = part.made;
                match types.push(part.ty) {
                    Ok(_) => {}
                    Err(_) => return Err(TopFault::Memory),
                }
            }
            Err(fault) => return Err(fault),
        }
    }
    Ok(TypedList { types, made: count })
}

/// A component of an environment: a value or a type constructor.
#[derive(Drop)]
pub(crate) enum Component {
    Value(Ident, Rc<Scheme>),
    Type(Ident, Rc<Scheme>),
}

impl Component {
    /// Puts the component into the environment.
    pub(crate) fn put_into(self, env: &mut Env) -> Result<(), Memory>
        ensures { OnOk result (env_of env.new ≡ extend_env (env_of env.old) (component_of self)) }
    {
        match self {
            Component::Value(name, scheme) => env.with_value(name, scheme),
            Component::Type(name, function) => env.with_type(name, function),
        }
    }
}

/// A value with a scheme.
pub(crate) fn value_component(
    alloc: Global,
    name: &Ident,
    scheme: Scheme,
) -> Result<Component, TopFault>
    ensures { IsMade (one_value (ident_of name.now) (scheme_of scheme)) component_of result }
{
    let Ok(name) = name.clone() else {
        return Err(TopFault::Memory);
    };
    match Rc::new(alloc, scheme) {
        Ok(scheme) => Ok(Component::Value(name, scheme)),
        Err(_) => Err(TopFault::Memory),
    }
}

/// A type constructor without parameters.
pub(crate) fn type_component(
    alloc: Global,
    name: &Ident,
    body: Rc<MlType>,
) -> Result<Component, TopFault>
    ensures { IsMade (one_type (ident_of name.now) (mono (V.type_of body.value))) component_of result }
{
    let Ok(name) = name.clone() else {
        return Err(TopFault::Memory);
    };
    let scheme = Scheme {
        variables: Vec::new(alloc),
        body,
    };
    match Rc::new(alloc, scheme) {
        Ok(function) => Ok(Component::Type(name, function)),
        Err(_) => Err(TopFault::Memory),
    }
}

/// That the type isn't too large.
pub(crate) fn small(ty: &MlType, place: Place) -> Result<(), TopFault>
    ensures { Answers (λ u. u) result (test (IsSmall (V.type_of ty.now)) (fault E7 place)) }
{
    if size_up_to(ty, GREATEST_SIZE) > GREATEST_SIZE {
        return Err(plain_fault(Code::E7, place));
    }
    Ok(())
}

/// What a declaration binds.
pub(crate) fn declared(
    alloc: Global,
    context: &Context,
    dec: &CoreDec,
) -> Result<Component, TopFault>
    ensures { (C : NameEnv) → Shows no_local (env_of context.now.outer.now) (env_of context.now.inner.now) C
        → Answers component_of result (read_core naming C (core_dec_of dec.now)) }
{
    match &dec.form {
        CoreForm::Value(name, exp) => declared_value(alloc, context, dec.place, name, exp),
        CoreForm::Type(name, ty) => declared_type(alloc, context, dec.place, name, ty),
    }
}

fn declared_value(
    alloc: Global,
    context: &Context,
    place: Place,
    name: &Ident,
    exp: &Exp,
) -> Result<Component, TopFault>
    ensures { (C : NameEnv) → Shows no_local (env_of context.now.outer.now) (env_of context.now.inner.now) C
        → Answers component_of result (read_core naming C (val_dec place (ident_of name.now) (exp_of exp.now))) }
{
    let mut locals = Locals::new(alloc);
    let value = match elaborate(alloc, context, &mut locals, exp, 0) {
        Ok(value) => value,
        Err(fault) => return Err(fault),
    };
    match small(&value.ty, place) {
        Ok(_) => closed_value(alloc, name, &value.ty),
        Err(fault) => Err(fault),
    }
}

/// A value with the closure of the type.
fn closed_value(alloc: Global, name: &Ident, ty: &Rc<MlType>) -> Result<Component, TopFault>
    ensures { IsMade (one_value (ident_of name.now) (T.close (V.type_of ty.now.value))) component_of result }
{
    match close(alloc, ty) {
        Ok(scheme) => value_component(alloc, name, scheme),
        Err(_) => Err(TopFault::Memory),
    }
}

fn declared_type(
    alloc: Global,
    context: &Context,
    place: Place,
    name: &Ident,
    ty: &Ty,
) -> Result<Component, TopFault>
    ensures { (C : NameEnv) → Shows no_local (env_of context.now.outer.now) (env_of context.now.inner.now) C
        → Answers component_of result (read_core naming C (type_dec place (ident_of name.now) (ty_of ty.now))) }
{
    let ty = match type_of(alloc, context, ty) {
        Ok(ty) => ty,
        Err(fault) => return Err(fault),
    };
    match small(&ty, place) {
        Ok(_) => type_component(alloc, name, ty),
        Err(fault) => Err(fault),
    }
}

/// What the declarations of a structure's body bind, one after the other.
pub(crate) fn all_declared(alloc: Global, outer: &Env, decs: &[CoreDec]) -> Result<Env, TopFault>
    ensures { Answers env_of result (read_cores naming (env_of outer.now) empty_env (map core_dec_of decs.now)) }
{
    let mut bound = Env::new(alloc);
    for dec in decs {
        let context = Context {
            outer,
            inner: &bound,
        };
        let component = match declared(alloc, &context, dec) {
            Ok(component) => component,
            Err(fault) => return Err(fault),
        };
        match component.put_into(&mut bound) {
            Ok(_) => {}
            Err(_) => return Err(TopFault::Memory),
        }
    }
    Ok(bound)
}

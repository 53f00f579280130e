//! Datatypes with types bound after `withtype`.

ghost use Rattle.std.specs.Prelude.{◌≡◌, nat_eq, map, length, IfOk};
ghost use Rattle.std.specs.Str.{bytes_eq};
ghost use Rattle.std.specs.Option.{option_map};
ghost use Rattle.sml_tree.specs.Views.{ident_of, long_of};
ghost use Rattle.sml_tree.specs.TypeViews.{names_of, long_name_of, ty_of, tys_of, ty_field_of, ty_fields_of};
ghost use Rattle.sml_tree.specs.BindingViews.{typ_bind_of, con_bind_of, dat_bind_of};
ghost use Rattle.sml_tree.specs.ExpressionViews.{dec_of};
ghost use Rattle.sml_tree.specs.Withtype.{argument, either, unlisted, instance, instances, field_instances, count_tys, bound, binding, applied, replaced, all_replaced, fields_replaced, con_replaced, dat_replaced, withtype_of};

use crate::copies::{arrow, bracket, constructor, copy_of_ty, labelled, misapplied};
use crate::expander::Expander;
use sml_lex::fault::{Memory, Place};
use sml_tree::bare::{Ident, LongIdent};
use sml_tree::expressions::{ConBind, DatBind, Dec, TypBind};
use sml_tree::names::Name;
use sml_tree::types::{Ty, TyField};
use std::alloc::Global;
use std::rc::Rc;

fn is_same(left: &Ident, right: &Ident) -> bool
    ensures { result ≡ bytes_eq (ident_of left.now) (ident_of right.now) }
{
    left.as_slice() == right.as_slice()
}

/// The argument in the place of a variable.
fn argument<'a>(variable: &Ident, variables: &[Name], arguments: &'a [Ty]) -> Option<&'a Ty>
    ensures { option_map (λ t. ty_of t.now) result ≡ argument (ident_of variable.now) (names_of variables.now) (tys_of (map ty_of arguments.now)) }
{
    for index in 0..variables.len() {
        if is_same(variable, &variables[index].ident) {
            if index < arguments.len() {
                return Some(&arguments[index]);
            }
            return None;
        }
    }
    None
}

/// The variable of no list.
fn unlisted(alloc: Global) -> Result<Ident, Memory>
    ensures { IfOk result (λ variable. ident_of variable ≡ unlisted) }
{
    Ok(Rc::new(alloc, Vec::new(alloc))?)
}

/// A right side with arguments in the place of its variables; one that isn't listed is out of scope.
#[cycle(instances)]
fn instance(alloc: Global, ty: &Ty, variables: &[Name], arguments: &[Ty]) -> Result<Ty, Memory>
    ensures { IfOk result (λ made. ty_of made ≡ instance (names_of variables.now) (tys_of (map ty_of arguments.now)) (ty_of ty.now)) }
{
    match ty {
        Ty::Variable(place, variable) => match argument(variable, variables, arguments) {
            Some(argument) => copy_of_ty(alloc, argument),
            None => Ok(Ty::Variable(*place, unlisted(alloc)?)),
        },
        Ty::Row(place, fields) => {
            let fields = instances_of_fields(alloc, fields, variables, arguments)?;
            Ok(Ty::Row(*place, fields))
        }
        Ty::Tuple(place, tys) => {
            let tys = instances(alloc, tys, variables, arguments)?;
            Ok(Ty::Tuple(*place, tys))
        }
        Ty::Constructor(place, tys, long) => {
            let tys = instances(alloc, tys, variables, arguments)?;
            constructor(alloc, *place, tys, long)
        }
        Ty::Misapplied(place, tys, long) => {
            let tys = instances(alloc, tys, variables, arguments)?;
            misapplied(alloc, *place, tys, long)
        }
        Ty::Arrow(place, from, to) => {
            let from = instance(alloc, from, variables, arguments)?;
            arrow(
                alloc,
                *place,
                from,
                instance(alloc, to, variables, arguments)?,
            )
        }
        Ty::Bracket(place, ty) => {
            bracket(alloc, *place, instance(alloc, ty, variables, arguments)?)
        }
    }
}

#[cycle(instances)]
fn instances(
    alloc: Global,
    tys: &[Ty],
    variables: &[Name],
    arguments: &[Ty],
) -> Result<Vec<Ty>, Memory>
    ensures { IfOk result (λ made. tys_of (map ty_of made.items) ≡ instances (names_of variables.now) (tys_of (map ty_of arguments.now)) (tys_of (map ty_of tys.now))) }
{
    let mut made = Vec::new(alloc);
    for ty in tys {
        made.push(instance(alloc, ty, variables, arguments)?)?;
    }
    Ok(made)
}

#[cycle(instances)]
fn instances_of_fields(
    alloc: Global,
    fields: &[TyField],
    variables: &[Name],
    arguments: &[Ty],
) -> Result<Vec<TyField>, Memory>
    ensures { IfOk result (λ made. ty_fields_of (map ty_field_of made.items) ≡ field_instances (names_of variables.now) (tys_of (map ty_of arguments.now)) (ty_fields_of (map ty_field_of fields.now))) }
{
    let mut made = Vec::new(alloc);
    for field in fields {
        let ty = instance(alloc, &field.ty, variables, arguments)?;
        made.push(labelled(&field.label, ty)?)?;
    }
    Ok(made)
}

/// The binding of a type constructor without a path, if it has one.
fn bound<'a>(constructor: &Ident, binds: &'a [TypBind]) -> Option<&'a TypBind>
    ensures { option_map (λ b. typ_bind_of b.now) result ≡ bound (ident_of constructor.now) (map typ_bind_of binds.now) }
{
    for bind in binds {
        if is_same(constructor, &bind.name.ident) {
            return Some(bind);
        }
    }
    None
}

/// The binding of a type constructor, if it has one.
fn binding<'a>(constructor: &LongIdent, binds: &'a [TypBind]) -> Option<&'a TypBind>
    ensures { let c = long_of constructor.now in
        option_map (λ b. typ_bind_of b.now) result ≡ binding c.path c.last (map typ_bind_of binds.now) }
{
    match constructor.path.first() {
        None => bound(&constructor.last, binds),
        Some(_) => None,
    }
}

/// Whether there are as many arguments as variables.
fn has_all(bind: &TypBind, arguments: &[Ty]) -> bool
    ensures { result ≡ nat_eq (length (typ_bind_of bind.now).variables) (count_tys (tys_of (map ty_of arguments.now))) }
{
    bind.variables.len() == arguments.len()
}

/// A type constructor after its arguments, from its binding.
fn applied(
    alloc: Global,
    place: Place,
    arguments: Vec<Ty>,
    long: &LongIdent,
    bind: Option<&TypBind>,
) -> Result<Ty, Memory>
    ensures { IfOk result (λ ty. ty_of ty ≡ applied place (tys_of (map ty_of arguments.items)) (long_name_of long.now) (option_map (λ b. typ_bind_of b.now) bind.entry)) }
{
    match bind {
        None => constructor(alloc, place, arguments, long),
        Some(bind) => {
            if has_all(bind, &arguments) {
                let made = instance(alloc, &bind.ty, &bind.variables, &arguments)?;
                return Ok(made);
            }
            misapplied(alloc, place, arguments, long)
        }
    }
}

/// A type with right sides in the place of type constructors.
#[cycle(replaced)]
fn replaced(alloc: Global, binds: &[TypBind], ty: &Ty) -> Result<Ty, Memory>
    ensures { IfOk result (λ made. ty_of made ≡ replaced (map typ_bind_of binds.now) (ty_of ty.now)) }
{
    match ty {
        Ty::Variable(place, variable) => Ok(Ty::Variable(*place, variable.clone()?)),
        Ty::Row(place, fields) => Ok(Ty::Row(*place, fields_replaced(alloc, binds, fields)?)),
        Ty::Tuple(place, tys) => Ok(Ty::Tuple(*place, all_replaced(alloc, binds, tys)?)),
        Ty::Constructor(place, tys, long) => {
            let tys = all_replaced(alloc, binds, tys)?;
            applied(alloc, *place, tys, long, binding(long, binds))
        }
        Ty::Misapplied(place, tys, long) => {
            misapplied(alloc, *place, all_replaced(alloc, binds, tys)?, long)
        }
        Ty::Arrow(place, from, to) => {
            let from = replaced(alloc, binds, from)?;
            arrow(alloc, *place, from, replaced(alloc, binds, to)?)
        }
        Ty::Bracket(place, ty) => { bracket(alloc, *place, replaced(alloc, binds, ty)?) }
    }
}

#[cycle(replaced)]
fn all_replaced(alloc: Global, binds: &[TypBind], tys: &[Ty]) -> Result<Vec<Ty>, Memory>
    ensures { IfOk result (λ made. tys_of (map ty_of made.items) ≡ all_replaced (map typ_bind_of binds.now) (tys_of (map ty_of tys.now))) }
{
    let mut made = Vec::new(alloc);
    for ty in tys {
        made.push(replaced(alloc, binds, ty)?)?;
    }
    Ok(made)
}

#[cycle(replaced)]
fn fields_replaced(
    alloc: Global,
    binds: &[TypBind],
    fields: &[TyField],
) -> Result<Vec<TyField>, Memory>
    ensures { IfOk result (λ made. ty_fields_of (map ty_field_of made.items) ≡ fields_replaced (map typ_bind_of binds.now) (ty_fields_of (map ty_field_of fields.now))) }
{
    let mut made = Vec::new(alloc);
    for field in fields {
        made.push(labelled(&field.label, replaced(alloc, binds, &field.ty)?)?)?;
    }
    Ok(made)
}

fn con_replaced(alloc: Global, binds: &[TypBind], bind: ConBind) -> Result<ConBind, Memory>
    ensures { IfOk result (λ made. con_bind_of made ≡ con_replaced (map typ_bind_of binds.now) (con_bind_of bind)) }
{
    let argument = match &bind.argument {
        None => None,
        Some(ty) => Some(replaced(alloc, binds, ty)?),
    };
    Ok(ConBind {
        name: bind.name,
        argument,
    })
}

fn dat_replaced(alloc: Global, binds: &[TypBind], bind: DatBind) -> Result<DatBind, Memory>
    ensures { IfOk result (λ made. dat_bind_of made ≡ dat_replaced (map typ_bind_of binds.now) (dat_bind_of bind)) }
{
    let mut constructors = Vec::new(alloc);
    for constructor in bind.constructors {
        constructors.push(con_replaced(alloc, binds, constructor)?)?;
    }
    Ok(DatBind {
        variables: bind.variables,
        name: bind.name,
        constructors,
    })
}

impl Expander {
    /// `datatype ds withtype bs`: the datatypes with the right sides in the place of the type constructors of `bs`, and
    /// after them `type bs`. Where right sides stand in the arguments of others it can be far larger than the text.
    pub fn datatypes_with_types(
        &self,
        place: Place,
        datatypes: Vec<DatBind>,
        types: Vec<TypBind>,
    ) -> Result<Dec, Memory>
        ensures { IfOk result (λ dec. dec_of dec ≡ withtype_of place (map dat_bind_of datatypes.items) (map typ_bind_of types.items)) }
    {
        let mut binds = Vec::new(self.alloc);
        for datatype in datatypes {
            binds.push(dat_replaced(self.alloc, &types, datatype)?)?;
        }
        let mut decs = Vec::new(self.alloc);
        decs.push(Dec::Datatype(place, binds))?;
        decs.push(Dec::Type(place, types))?;
        Ok(Dec::Sequence(place, decs))
    }
}

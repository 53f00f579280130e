//! Specifications without signatures in them (the Definition, section 5.7, rules 68 to 72).

use crate::layers::Layers;
use sml_bases::objects::{Constructors, Env, Sig, Status, TypeStr, Value};
use sml_lex::fault::{Memory, Place};
use sml_objects::objects::{Initial, Scheme, TyName};
use sml_tree::bare::LongIdent;
use sml_tree::expressions::{ConBind, DatBind};
use sml_tree::names::Name;
use sml_tree::signatures::{TypDesc, ValDesc};
use sml_type_maps::functions::name_of;
use sml_type_maps::new_names::NewNames;
use sml_types::bindings::no_constructors;
use sml_types::datatypes::{datatypes_with, name_function, put_constructors};
use sml_types::fault::CoreFault;
use sml_types::rows::{arrow, initial, number_of};
use sml_types::scope::type_at;
use sml_types::sizes::{few, small, small_beside};
use sml_types::types::written_type;
use sml_types::variables::{Collected, NoVariables};
use sml_types::written::Written;
use std::alloc::Global;
use std::rc::Rc;

/// The part of a signature that binds no names.
fn without_names(alloc: Global, env: Env) -> Result<Sig, Memory> {
    Ok(Sig {
        names: Vec::new(alloc),
        env: env.shared(alloc)?,
    })
}

/// Values, each with the scheme that binds all variables of its type.
pub(crate) fn values(
    alloc: Global,
    scope: &Layers<'_, '_>,
    place: Place,
    descs: &[ValDesc],
) -> Result<Sig, CoreFault> {
    let types = types_of(alloc, scope, descs)?;
    for (_, ty) in &types {
        small(alloc, place, ty)?;
    }
    let mut env = Env::new(alloc);
    for (desc, (variables, ty)) in descs.iter().zip(&types) {
        let value = value_of(alloc, variables, ty)?;
        env.values.insert(desc.name.ident.clone()?, value)?;
    }
    Ok(without_names(alloc, env)?)
}

/// The value of a type whose variables are bound.
fn value_of(alloc: Global, variables: &Collected, ty: &Written) -> Result<Value, Memory> {
    let ty = ty.make(alloc)?;
    Ok(Value {
        status: Status::Variable,
        scheme: Rc::new(alloc, variables.close(alloc, &ty)?)?,
    })
}

/// What the types of values mean, each with its variables.
fn types_of(
    alloc: Global,
    scope: &Layers<'_, '_>,
    descs: &[ValDesc],
) -> Result<Vec<(Collected, Rc<Written>)>, CoreFault> {
    let mut types = Vec::new(alloc);
    for desc in descs {
        let mut variables = Collected::new(alloc);
        let ty = written_type(alloc, scope, &mut variables, &desc.ty)?;
        types.push((variables, ty))?;
    }
    Ok(types)
}

/// Types without right sides: new names, which admit equality or not.
pub(crate) fn types(
    alloc: Global,
    new: &mut NewNames,
    place: Place,
    descs: &[TypDesc],
    equality: bool,
) -> Result<Sig, CoreFault> {
    for desc in descs {
        few(place, desc.variables.len().saturating_add(1))?;
    }
    Ok(new_types(alloc, new, descs, equality)?)
}

fn new_types(
    alloc: Global,
    new: &mut NewNames,
    descs: &[TypDesc],
    equality: bool,
) -> Result<Sig, Memory> {
    let none = no_constructors(alloc)?;
    let mut names = Vec::new(alloc);
    let mut env = Env::new(alloc);
    for desc in descs {
        let name = new.make(number_of(desc.variables.len())?, equality)?;
        names.push(name)?;
        let ty = type_str(alloc, name, desc, &none)?;
        env.types.insert(desc.name.ident.clone()?, ty)?;
    }
    Ok(Sig {
        names,
        env: env.shared(alloc)?,
    })
}

fn type_str(
    alloc: Global,
    name: TyName,
    desc: &TypDesc,
    none: &Rc<Constructors>,
) -> Result<TypeStr, Memory> {
    Ok(TypeStr {
        function: name_function(alloc, name, &desc.variables)?,
        constructors: none.clone()?,
    })
}

/// Datatypes, with new names.
pub(crate) fn new_datatypes(
    alloc: Global,
    scope: &Layers<'_, '_>,
    new: &mut NewNames,
    place: Place,
    binds: &[DatBind],
) -> Result<Sig, CoreFault> {
    let env = datatypes_with(alloc, scope, new, place, binds, &[])?;
    Ok(Sig {
        names: names_of(alloc, &env)?,
        env: env.shared(alloc)?,
    })
}

/// The names that are the types of an environment.
fn names_of(alloc: Global, env: &Env) -> Result<Vec<TyName>, Memory> {
    let mut names = Vec::new(alloc);
    for (_, ty) in &env.types {
        if let Some(name) = name_of(&ty.function) {
            names.push(name)?;
        }
    }
    Ok(names)
}

/// A type of the scope with its constructors.
pub(crate) fn replication(
    alloc: Global,
    scope: &Layers<'_, '_>,
    name: &Name,
    long: &LongIdent,
) -> Result<Sig, CoreFault> {
    let ty = type_at(alloc, scope, long)?;
    let mut env = Env::new(alloc);
    put_constructors(&mut env.values, &ty.constructors)?;
    env.types.insert(name.ident.clone()?, ty.share()?)?;
    Ok(without_names(alloc, env)?)
}

/// Exceptions, whose types have no variables.
pub(crate) fn exceptions(
    alloc: Global,
    scope: &Layers<'_, '_>,
    place: Place,
    descs: &[ConBind],
) -> Result<Sig, CoreFault> {
    let arguments = arguments_of(alloc, scope, descs)?;
    for argument in &arguments {
        if let Some(ty) = argument {
            small_beside(alloc, place, 2, ty)?;
        }
    }
    let mut env = Env::new(alloc);
    for (desc, argument) in descs.iter().zip(&arguments) {
        let value = exception_of(alloc, argument)?;
        env.values.insert(desc.name.ident.clone()?, value)?;
    }
    Ok(without_names(alloc, env)?)
}

/// What the types of exceptions' arguments mean.
fn arguments_of(
    alloc: Global,
    scope: &Layers<'_, '_>,
    descs: &[ConBind],
) -> Result<Vec<Option<Rc<Written>>>, CoreFault> {
    let mut arguments = Vec::new(alloc);
    for desc in descs {
        let argument = match &desc.argument {
            None => None,
            Some(ty) => Some(written_type(alloc, scope, &mut NoVariables, ty)?),
        };
        arguments.push(argument)?;
    }
    Ok(arguments)
}

/// The exception with this argument.
fn exception_of(alloc: Global, argument: &Option<Rc<Written>>) -> Result<Value, Memory> {
    let exception = initial(alloc, Initial::Exn)?;
    let body = match argument {
        None => exception,
        Some(ty) => arrow(alloc, ty.make(alloc)?, exception)?,
    };
    let scheme = Scheme {
        variables: Vec::new(alloc),
        body,
    };
    Ok(Value {
        status: Status::Exception,
        scheme: Rc::new(alloc, scheme)?,
    })
}

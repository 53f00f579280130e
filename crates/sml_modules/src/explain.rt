//! Why a declaration is refused, for who asks after its fault.

use crate::modules::own_basis;
use sml_asks::asks::{ask_instance, ask_scheme};
use sml_bases::ground::is_ground;
use sml_bases::objects::{Basis, Env, Sig, TypeStr, Value};
use sml_core::context::{Context, MOST_SHOWN};
use sml_core::recorder::{Component, OwnNames, Recorder, Seen, Wanted};
use sml_envs::mapping::mapped_env;
use sml_lex::fault::{Code, Fault, Memory};
use sml_match::mismatch::Mismatch;
use sml_match::realise::realise;
use sml_objects::equality::has_equality;
use sml_objects::objects::{Scheme, TyName};
use sml_sigs::sigs::{Unshared, signature_in};
use sml_tree::bare::Ident;
use sml_tree::signatures::SigExp;
use sml_tree::structures::TopDec;
use sml_type_maps::functions::name_of;
use sml_types::fault::CoreFault;
use std::alloc::Global;
use std::mem;
use std::rc::Rc;

/// The fault of a declaration, what was at hand there, and the type names that the declaration had made.
#[derive(Drop)]
pub struct Explanation {
    pub fault: Fault,
    pub seen: Seen,
    pub names: OwnNames,
}

/// The fault of a declaration, and what was kept up to it.
#[derive(Drop)]
struct Refused {
    fault: Fault,
    recorder: Recorder,
}

/// Why a declaration is refused in a basis, where more is known of it than its fault says. The declaration is gone through
/// once to find what is refused, and once more to keep what is at hand before that, where it is a comparison.
pub fn explain(alloc: Global, basis: &Basis, dec: &TopDec) -> Result<Option<Explanation>, Memory> {
    let Some(Refused { fault, recorder }) = refused_in(Context::new(alloc, basis), basis, dec)?
    else {
        return Ok(None);
    };
    match recorder.refused() {
        Some(number) => explain_at(alloc, basis, dec, Wanted { number, fault }),
        None => Ok(explained(Refused { fault, recorder })),
    }
}

/// Why a declaration is refused at this comparison.
fn explain_at(
    alloc: Global,
    basis: &Basis,
    dec: &TopDec,
    wanted: Wanted,
) -> Result<Option<Explanation>, Memory> {
    let mut context = Context::new(alloc, basis);
    context.recorder.want(wanted);
    match refused_in(context, basis, dec)? {
        Some(refused) => Ok(explained(refused)),
        None => Ok(None),
    }
}

/// The fault with what was kept of it, if something was.
fn explained(refused: Refused) -> Option<Explanation> {
    let Refused { fault, recorder } = refused;
    match recorder.into_seen() {
        Some((seen, names)) => Some(Explanation { fault, seen, names }),
        None => None,
    }
}

/// The fault of a declaration, if it is refused in this context, and what the context kept.
fn refused_in(
    mut context: Context,
    basis: &Basis,
    dec: &TopDec,
) -> Result<Option<Refused>, Memory> {
    let answer = fault_of(&mut context, basis, dec);
    let Context { recorder, .. } = context;
    match answer? {
        Some(fault) => Ok(Some(Refused { fault, recorder })),
        None => Ok(None),
    }
}

/// The fault of a declaration, if it is refused.
fn fault_of(context: &mut Context, basis: &Basis, dec: &TopDec) -> Result<Option<Fault>, Memory> {
    match own_basis(context, basis, dec) {
        Ok(_) => Ok(None),
        Err(CoreFault::Fault(fault)) => Ok(Some(fault)),
        Err(CoreFault::Memory) => Err(Memory),
    }
}

/// The signature that a signature expression means in the scopes that are open. Types that couldn't be shared are kept.
pub(crate) fn signature_of(context: &mut Context, sig: &SigExp) -> Result<Sig, CoreFault> {
    let basis = context.scopes.basis();
    let mut unshared: Unshared = None;
    let answer = signature_in(
        context.alloc,
        basis,
        &mut context.new,
        &context.scopes,
        sig,
        &mut unshared,
    );
    if let Some((earlier, later)) = unshared {
        context.recorder.keep(Seen::Unshared(earlier, later));
    }
    answer
}

/// Keeps the component of a structure and of a signature that a fault speaks of, where they are compared next and that is
/// refused.
pub(crate) fn note_match(context: &mut Context, env: &Env, sig: &Sig) -> Result<(), Memory> {
    if !context.recorder.is_next() {
        return Ok(());
    }
    let Some((code, path)) = wanted_path(context)? else {
        return Ok(());
    };
    let specified = specified_env(context.alloc, env, sig)?;
    let found = match code {
        Code::M2 | Code::M3 | Code::M4 | Code::M5 => types_at(env, &specified, sig, &path)?,
        Code::M6 | Code::M7 => values_at(context, env, &specified, &path)?,
        _ => None,
    };
    if let Some((one, other)) = found {
        context.recorder.keep(Seen::Components(one, other));
    }
    Ok(())
}

/// The code of the fault that is wanted, and the path that it speaks of.
fn wanted_path(context: &Context) -> Result<Option<(Code, Vec<Ident>)>, Memory> {
    let Some(fault) = context.recorder.fault() else {
        return Ok(None);
    };
    match &fault.detail {
        None => Ok(None),
        Some(detail) => Ok(Some((fault.code, path_of(context.alloc, detail)?))),
    }
}

/// The identifiers of a path.
fn path_of(alloc: Global, text: &[u8]) -> Result<Vec<Ident>, Memory> {
    let mut path = Vec::new(alloc);
    let mut ident = Vec::new(alloc);
    for byte in text {
        if *byte == b'.' {
            let ended = mem::replace(&mut ident, Vec::new(alloc));
            path.push(Rc::new(alloc, ended)?)?;
        } else {
            ident.push(*byte)?;
        }
    }
    path.push(Rc::new(alloc, ident)?)?;
    Ok(path)
}

/// The environment of a signature with the structure's types for the names that it binds, or as it stands where it has no
/// such types.
fn specified_env(alloc: Global, env: &Env, sig: &Sig) -> Result<Rc<Env>, Memory> {
    match realise(alloc, sig, env) {
        Ok(realisation) => mapped_env(alloc, &sig.env, &realisation),
        Err(Mismatch::Fault(_, _)) => Ok(sig.env.clone()?),
        Err(Mismatch::Memory) => Err(Memory),
    }
}

/// The environment that holds what stands at a path, and the path's last identifier.
fn holder<'a, 'b>(env: &'a Env, path: &'b [Ident]) -> Option<(&'a Env, &'b Ident)> {
    let (last, structures) = path.split_last()?;
    let mut at = env;
    for name in structures {
        at = at.structures.get(name)?;
    }
    Some((at, last))
}

fn type_at<'a>(env: &'a Env, path: &[Ident]) -> Option<&'a TypeStr> {
    let (env, name) = holder(env, path)?;
    env.types.get(name)
}

fn value_at<'a>(env: &'a Env, path: &[Ident]) -> Option<&'a Value> {
    let (env, name) = holder(env, path)?;
    env.values.get(name)
}

fn types_at(
    env: &Env,
    specified: &Env,
    sig: &Sig,
    path: &[Ident],
) -> Result<Option<(Component, Component)>, Memory> {
    let (Some(found), Some(wanted)) = (type_at(env, path), type_at(specified, path)) else {
        return Ok(None);
    };
    let wanted = match bound_name(sig, wanted) {
        Some(name) => Component::Abstract(wanted.share()?, has_equality(name)),
        None => Component::Type(wanted.share()?),
    };
    Ok(Some((Component::Type(found.share()?), wanted)))
}

/// The name that a signature binds and that a type is.
fn bound_name(sig: &Sig, ty: &TypeStr) -> Option<TyName> {
    let name = name_of(&ty.function)?;
    if sig.names.contains(&name) {
        Some(name)
    } else {
        None
    }
}

fn values_at(
    context: &mut Context,
    env: &Env,
    specified: &Env,
    path: &[Ident],
) -> Result<Option<(Component, Component)>, Memory> {
    let (Some(found), Some(wanted)) = (value_at(env, path), value_at(specified, path)) else {
        return Ok(None);
    };
    let Some(scheme) = scheme_so_far(context, &found.scheme)? else {
        return Ok(None);
    };
    let found = Value {
        status: found.status,
        scheme,
    };
    Ok(Some((Component::Value(found), Component::Value(wanted.share()?))))
}

/// A scheme with what its unknowns have turned out to be so far, unless it is too large to be shown then.
fn scheme_so_far(context: &mut Context, scheme: &Rc<Scheme>) -> Result<Option<Rc<Scheme>>, Memory> {
    if is_ground(&scheme.body) {
        return Ok(Some(scheme.clone()?));
    }
    let alloc = context.alloc;
    let solver = &mut context.solver;
    let fixed = vec![in alloc; true; solver.unknowns()]?;
    let Ok(ty) = ask_instance(solver, scheme) else {
        return Err(Memory);
    };
    match ask_scheme(alloc, solver, &ty, &fixed, false, MOST_SHOWN) {
        Ok(Some(scheme)) => Ok(Some(Rc::new(alloc, scheme)?)),
        Ok(None) => Ok(None),
        Err(_) => Err(Memory),
    }
}

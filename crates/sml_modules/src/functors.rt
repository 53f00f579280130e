//! Functors and their applications (the Definition, section 5.7, rules 54, 85 and 86).

use crate::explain::{note_match, signature_of};
use crate::settled::{Known, known_in, require_known, settled_by};
use crate::structures::{begin, end_let, structure};
use sml_bases::objects::{Basis, Env, FunSig, Sig};
use sml_core::context::Context;
use sml_envs::canonical::names_from;
use sml_envs::mapping::mapped_env;
use sml_envs::renaming::applied_result;
use sml_lex::fault::{Code, Place};
use sml_match::enrich::enriches;
use sml_match::mismatch::placed;
use sml_match::realise::realise;
use sml_match::sizes::small_env_under;
use sml_tree::names::Name;
use sml_tree::structures::FunBind;
use sml_type_maps::realisation::Realisation;
use sml_types::fault::{CoreFault, fault_about};
use std::rc::Rc;

/// The functor of a name.
#[inline(never)]
pub(crate) fn found(context: &Context, name: &Name) -> Result<Rc<FunSig>, CoreFault> {
    match context.scopes.basis().functor(&name.ident) {
        Some(functor) => Ok(functor.clone()?),
        None => {
            let text = Vec::from_slice(context.alloc, name.ident.as_slice())?;
            Err(fault_about(Code::Q1, name.place, text))
        }
    }
}

/// What a functor gives for an argument, with new names at each application.
#[inline(never)]
pub(crate) fn applied(
    context: &mut Context,
    place: Place,
    functor: &FunSig,
    argument: &Rc<Env>,
) -> Result<Rc<Env>, CoreFault> {
    note_match(context, argument, &functor.argument)?;
    let matched = match_argument(context, place, functor, argument);
    if matched.is_err() {
        context.recorder.refuse();
    }
    let realisation = matched?;
    let alloc = context.alloc;
    small_env_under(alloc, place, &functor.result.env, &realisation)?;
    Ok(applied_result(alloc, functor, &realisation, &mut context.new)?)
}

/// The types of an argument for the names that a functor's argument binds.
fn match_argument(
    context: &mut Context,
    place: Place,
    functor: &FunSig,
    argument: &Env,
) -> Result<Realisation, CoreFault> {
    let alloc = context.alloc;
    let realisation = placed(realise(alloc, &functor.argument, argument), place)?;
    small_env_under(alloc, place, &functor.argument.env, &realisation)?;
    let wanted = mapped_env(alloc, &functor.argument.env, &realisation)?;
    placed(
        enriches(alloc, argument, &wanted, &mut context.solver),
        place,
    )?;
    Ok(realisation)
}

/// Binds functors, each of which is read alone. Types of their results that are still unknown when all bodies were gone
/// through are Q2 at the place, and then such as are too large E7.
pub(crate) fn functors(
    context: &mut Context,
    own: &mut Basis,
    binds: &[FunBind],
    place: Place,
) -> Result<(), CoreFault> {
    let mut bodies = Vec::new(context.alloc);
    for bind in binds {
        bodies.push(body_of(context, bind)?)?;
    }
    for body in bodies.iter() {
        require_known(&body.known, place)?;
    }
    let mut bodies = bodies.into_iter();
    for bind in binds {
        if let Some(body) = bodies.next() {
            let functor = Rc::new(context.alloc, settled(context, body, place)?)?;
            own.functors.insert(bind.name.ident.clone()?, functor)?;
        }
    }
    Ok(())
}

/// A functor's argument, the number of the first name that its body could make, what the body is, and what its unknowns
/// turned out to be, if none is still unknown.
#[derive(Drop)]
struct Body {
    argument: Sig,
    first: u32,
    env: Rc<Env>,
    known: Option<Known>,
}

fn body_of(context: &mut Context, bind: &FunBind) -> Result<Body, CoreFault> {
    context.begin_part();
    let argument = signature_of(context, &bind.signature)?;
    let first = context.new.next;
    let env = result_of(context, bind, argument.env.clone()?)?;
    let known = known_in(context, &env)?;
    Ok(Body {
        argument,
        first,
        env,
        known,
    })
}

/// What a functor's body gives for an argument.
fn result_of(
    context: &mut Context,
    bind: &FunBind,
    argument: Rc<Env>,
) -> Result<Rc<Env>, CoreFault> {
    let outside = begin(context, false);
    context.bind_structure(&bind.argument.ident, argument)?;
    let env = structure(context, &bind.body)?;
    end_let(context, outside)?;
    Ok(env)
}

/// The functor with the types that the unknowns of its result turned out to be. It makes the names that its body made and that
/// stand there.
fn settled(context: &Context, body: Body, place: Place) -> Result<FunSig, CoreFault> {
    let env = settled_by(context.alloc, &body.env, &body.known, place)?;
    let names = names_from(context.alloc, &env, context.new.unit, body.first)?;
    let Body { argument, .. } = body;
    Ok(FunSig {
        argument,
        result: Sig { names, env },
    })
}
